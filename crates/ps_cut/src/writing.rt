// A part as a text of the language. Its names are N1 for signal 1 of the application, B1 for the value of signal 1
// after the scan before, and F1 for instance 1.

use crate::layout::{is_input, is_local};
use crate::needs::{Ground, Needs, is_marked};
use itoa::Buffer;
use ps_base::{Bytes, Memory};
use ps_model::{
    Arg, Args, Driver, Expr, Kind, Step, Ty, input_count, kind_name, pin_count, pin_name,
};
use std::alloc::Global;

// Writes a word at the end.
fn write_word(text: &mut Bytes, word: &str) -> Result<(), Memory> {
    text.extend_from_slice(word.as_bytes())
}

// Writes a number at the end.
fn write_number(text: &mut Bytes, number: u32) -> Result<(), Memory> {
    let mut digits = Buffer::new();
    text.extend_from_slice(digits.format(number).as_bytes())
}

// Writes a name at the end: a letter and a number.
fn write_name(text: &mut Bytes, letter: u8, number: u16) -> Result<(), Memory> {
    text.push(letter)?;
    write_number(text, u32::from(number))
}

// The name of output `output` of a kind.
fn output_name(kind: Kind, output: u16) -> &'static str {
    let pin = usize::from(input_count(kind)) + usize::from(output);
    if pin < usize::from(pin_count(kind)) {
        pin_name(kind, pin as u8)
    } else {
        ""
    }
}

// Writes an output of an instance.
fn write_output(
    text: &mut Bytes,
    ground: &Ground<'_>,
    instance: u16,
    output: u16,
) -> Result<(), Memory> {
    write_name(text, b'F', instance)?;
    text.push(b'.')?;
    if instance < ground.app.instance_count() {
        let kind = ground.app.instance_kind(instance);
        write_word(text, output_name(kind, output))?;
    }
    Ok(())
}

// Writes a signal as step k reads it.
fn write_read(text: &mut Bytes, ground: &Ground<'_>, k: u16, s: u16) -> Result<(), Memory> {
    if ground.is_cut_early(k, s) {
        return write_name(text, b'B', s);
    }
    if s >= ground.app.signal_count() || ground.is_cut(s) {
        return write_name(text, b'N', s);
    }
    match ground.app.driver(s) {
        Some(
            Driver::Output {
                instance,
                output,
                ..
            },
        ) => write_output(text, ground, instance, output),
        _ => write_name(text, b'N', s),
    }
}

// Whether an operand of an AND, or else of an OR, has to stand in brackets.
fn has_brackets(is_and: bool, e: &Expr) -> bool {
    match e {
        Expr::Signal(_) => false,
        Expr::And(_) => is_and,
        Expr::Or(_) => true,
    }
}

// Writes an operator, unless nothing stands before it.
fn write_operator(text: &mut Bytes, is_and: bool, is_first: bool) -> Result<(), Memory> {
    if is_first {
        return Ok(());
    }
    write_word(text, if is_and { " AND " } else { " OR " })
}

// Writes a value as step k reads it.
fn write_value(text: &mut Bytes, ground: &Ground<'_>, k: u16, e: &Expr) -> Result<(), Memory> {
    match e {
        Expr::Signal(s) => write_read(text, ground, k, *s),
        Expr::And(es) | Expr::Or(es) => {
            let is_and = matches!(e, Expr::And(_));
            let mut is_first = true;
            for x in &es.items {
                write_operator(text, is_and, is_first)?;
                is_first = false;
                if has_brackets(is_and, x) {
                    text.push(b'(')?;
                    write_value(text, ground, k, x)?;
                    text.push(b')')?;
                } else {
                    write_value(text, ground, k, x)?;
                }
            }
            Ok(())
        }
    }
}

// Writes what stands at a pin.
fn write_argument(text: &mut Bytes, ground: &Ground<'_>, k: u16, arg: &Arg) -> Result<(), Memory> {
    match arg {
        Arg::Free => Ok(()),
        Arg::Lit(true) => write_word(text, "TRUE"),
        Arg::Lit(false) => write_word(text, "FALSE"),
        Arg::Time(time) => {
            write_word(text, "T#")?;
            write_number(text, *time)?;
            write_word(text, "ms")
        }
        Arg::Value(value) => write_value(text, ground, k, value),
    }
}

// Writes the arguments of the call that step k is.
fn write_arguments(
    text: &mut Bytes,
    ground: &Ground<'_>,
    k: u16,
    kind: Kind,
    args: &Args,
) -> Result<(), Memory> {
    let mut is_first = true;
    for j in 0..args.len() {
        if j >= usize::from(pin_count(kind)) || matches!(args.at(j), Arg::Free) {
            continue;
        }
        if !is_first {
            write_word(text, ", ")?;
        }
        is_first = false;
        write_word(text, pin_name(kind, j as u8))?;
        write_word(text, " := ")?;
        write_argument(text, ground, k, args.at(j))?;
    }
    Ok(())
}

// Writes a step, if it is one of the part.
fn write_step(text: &mut Bytes, ground: &Ground<'_>, needs: &Needs, k: u16) -> Result<(), Memory> {
    if k >= ground.app.step_count() {
        return Ok(());
    }
    match ground.app.step(k) {
        Step::Assign { target, value } => {
            if is_marked(needs.now.as_slice(), *target) {
                write_name(text, b'N', *target)?;
                write_word(text, " := ")?;
                write_value(text, ground, k, value)?;
                write_word(text, ";\n")?;
            }
        }
        Step::Call { instance, args } => {
            if is_marked(needs.called.as_slice(), *instance)
                && *instance < ground.app.instance_count()
            {
                write_name(text, b'F', *instance)?;
                text.push(b'(')?;
                let kind = ground.app.instance_kind(*instance);
                write_arguments(text, ground, k, kind, args)?;
                write_word(text, ");\n")?;
            }
        }
    }
    Ok(())
}

// Writes the declaration of a signal.
fn write_signal(text: &mut Bytes, ground: &Ground<'_>, letter: u8, s: u16) -> Result<(), Memory> {
    write_name(text, letter, s)?;
    if s < ground.app.signal_count() && ground.app.signal_type(s) == Ty::Safe {
        write_word(text, " : SAFEBOOL;\n")
    } else {
        write_word(text, " : BOOL;\n")
    }
}

// Writes the inputs.
fn write_inputs(text: &mut Bytes, ground: &Ground<'_>, needs: &Needs) -> Result<(), Memory> {
    write_word(text, "VAR_INPUT\n")?;
    for s in 0..ground.app.signal_count() {
        if is_marked(needs.before.as_slice(), s) {
            write_signal(text, ground, b'B', s)?;
        }
        if is_input(ground, needs, s) {
            write_signal(text, ground, b'N', s)?;
        }
    }
    write_word(text, "END_VAR\n")
}

// Writes the locals and the instances.
fn write_locals(text: &mut Bytes, ground: &Ground<'_>, needs: &Needs) -> Result<(), Memory> {
    write_word(text, "VAR\n")?;
    for s in 0..ground.app.declared_count() {
        if is_local(ground, needs, s) {
            write_signal(text, ground, b'N', s)?;
        }
    }
    for i in 0..ground.app.instance_count() {
        if is_marked(needs.called.as_slice(), i) {
            write_name(text, b'F', i)?;
            write_word(text, " : ")?;
            write_word(text, kind_name(ground.app.instance_kind(i)))?;
            write_word(text, ";\n")?;
        }
    }
    write_word(text, "END_VAR\n")
}

/// The part that has what is needed, as a text of the language. An error means out of memory.
pub(crate) fn text_of(alloc: Global, ground: &Ground<'_>, needs: &Needs) -> Result<Bytes, Memory> {
    let mut text = Bytes::new(alloc);
    write_word(&mut text, "PROGRAM Part\n")?;
    write_inputs(&mut text, ground, needs)?;
    write_locals(&mut text, ground, needs)?;
    for k in 0..ground.app.step_count() {
        write_step(&mut text, ground, needs, k)?;
    }
    write_word(&mut text, "END_PROGRAM\n")?;
    Ok(text)
}
