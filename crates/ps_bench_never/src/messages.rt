// What a person reads of applications that are not compared.

use crate::likeness::Unlike;
use crate::signal_text;
use ps_base::{Bytes, Memory};
use ps_bench_frame::pieces::{add_short, add_shown};
use ps_message::{Listener, NO_MEMORY, hear_bytes};
use ps_model::{App, is_safe};
use ps_reach::Compared;
use std::alloc::Global;

// What helps where inputs and outputs are not the same.
const REMEDY: &[u8] =
    b"same compares applications whose inputs and outputs have the same names and types (docs/never.md)\n";

// What is told where too many inputs are free, and no rules file says which.
const MANY_FREE: &str =
    "over 20 inputs are free: name a rules file that fixes those that need not change (docs/never.md)\n";

// The type of an input or output.
fn type_text(app: &App, signal: u16) -> &'static [u8] {
    if signal < app.signal_count() && is_safe(app, signal) {
        b" (SAFEBOOL)"
    } else {
        b" (BOOL)"
    }
}

// There are not as many inputs, or outputs.
fn add_counts(text: &mut Bytes, what: &[u8], count: u16, other: u16) -> Result<(), Memory> {
    text.extend_from_slice(b"there are ")?;
    add_short(text, u32::from(count))?;
    text.extend_from_slice(what)?;
    text.extend_from_slice(b" in the first and ")?;
    add_short(text, u32::from(other))?;
    text.extend_from_slice(b" in the other\n")
}

// What a signal is not, where the other application has none of its name.
fn missing_text(app: &App, signal: u16) -> &'static [u8] {
    if signal < app.input_count() {
        b" of the first is no input of the other\n"
    } else {
        b" of the first is no output of the other\n"
    }
}

// An input or output has another type in the other application, or is none there.
fn add_signals(text: &mut Bytes, app: &App, other: &App, signal: u16) -> Result<(), Memory> {
    let (name, found) = (signal_text(app, signal), signal_text(other, signal));
    text.extend_from_slice(name)?;
    text.extend_from_slice(type_text(app, signal))?;
    if !name.eq_ignore_ascii_case(found) {
        return text.extend_from_slice(missing_text(app, signal));
    }
    text.extend_from_slice(b" of the first is ")?;
    text.extend_from_slice(found)?;
    text.extend_from_slice(type_text(other, signal))?;
    text.extend_from_slice(b" in the other\n")
}

// What is told where inputs and outputs are not the same.
fn unlike_message(alloc: Global, compared: &Compared<'_>, unlike: Unlike) -> Result<Bytes, Memory> {
    let (app, other) = (compared.app, compared.other);
    let mut text = Bytes::new(alloc);
    add_shown(&mut text, compared.name)?;
    text.extend_from_slice(b" and ")?;
    add_shown(&mut text, compared.other_name)?;
    text.extend_from_slice(b": ")?;
    match unlike {
        Unlike::Inputs => {
            add_counts(
                &mut text,
                b" inputs",
                app.input_count(),
                other.input_count(),
            )?
        }
        Unlike::Outputs => {
            add_counts(
                &mut text,
                b" outputs",
                app.output_count(),
                other.output_count(),
            )?
        }
        Unlike::Signal(signal) => add_signals(&mut text, app, other, signal)?,
    }
    text.extend_from_slice(REMEDY)?;
    Ok(text)
}

/// Tells a listener where the inputs and outputs of two applications are not the same.
pub(crate) fn tell_unlike<L: Listener>(
    alloc: Global,
    listener: &mut L,
    compared: &Compared<'_>,
    unlike: Unlike,
) {
    if listener.is_quiet() {
        return;
    }
    match unlike_message(alloc, compared, unlike) {
        Ok(text) => hear_bytes(listener, text.as_slice()),
        Err(Memory) => listener.hear(NO_MEMORY),
    }
}

/// Tells a listener that too many inputs are free.
pub(crate) fn tell_many_free<L: Listener>(listener: &mut L) {
    if !listener.is_quiet() {
        listener.hear(MANY_FREE);
    }
}
