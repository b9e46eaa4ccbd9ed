// The rows of values and of what stands at pins. The compiler knows how many rows a value has before it writes them, so
// each place is known when the row that names it is written.

ghost use Rattle.std.specs.Prelude.{◌≡◌, ◌+◌, ◌*◌, ◌<◌, ◌^◌, ◌++◌, OnOk, length, map, if◌then◌else◌};
ghost use Rattle.ps_model.specs.Exprs.{formula, operands};
ghost use Rattle.ps_model.specs.Args.{actual};
ghost use Rattle.ps_decision.specs.Budget.{decisions, decisions_below, count_at_pin};
ghost use Rattle.ps_decision.specs.Code.{behind_value, value_rows, all_rows, any_rows, assigned_rows, pin_rows};
ghost use Rattle.ps_machine.specs.Bytes.{bit};
ghost use Rattle.ps_decision.specs.Rows.{bytes_of, encoded};

use crate::budget::decisions;
use crate::row::Row;
use ps_base::Memory;
use ps_model::{Arg, Expr};

// How many bytes a DECIDE and a SET have.
const DECIDE_SIZE: u32 = 11;

const SET_SIZE: u32 = 8;

// Where the rows of a value end that are written next.
fn behind(code: &Vec<u8>, e: &Expr) -> u32
    requires { length code.now.items + 11 * decisions (formula e.now) < 2 ^ 32 }
    ensures { result ≡ behind_value (length code.now.items) (formula e.now) }
{
    code.len() as u32 + DECIDE_SIZE * decisions(e)
}

// Where the operand of a group goes on that is written next, if it does not decide the group: at the beginning of the
// next operand, and where it is the last at the place `last`.
fn undecided(code: &Vec<u8>, e: &Expr, is_last: bool, last: u32) -> u32
    requires { length code.now.items + 11 * decisions (formula e.now) < 2 ^ 32 }
    ensures { result ≡ (if is_last then last else behind_value (length code.now.items) (formula e.now)) }
{
    if is_last { last } else { behind(code, e) }
}

// Writes the rows of a value, with its yes place and its no place.
#[cycle(expr)]
fn emit_value(code: &mut Vec<u8>, e: &Expr, yes_at: u32, no_at: u32) -> Result<(), Memory>
    requires { length code.old.items + 11 * decisions (formula e.now) < 2 ^ 32 }
    ensures { OnOk result (code.new.items ≡ code.old.items ++ bytes_of (value_rows (formula e.now) (length code.old.items) yes_at no_at)) }
{
    match e {
        Expr::Signal(s) => {
            let decide = Row::Decide {
                operand: *s,
                yes_at,
                no_at,
            };
            decide.write(code)
        }
        Expr::And(es) => emit_all(code, &es.items, yes_at, no_at),
        Expr::Or(es) => emit_any(code, &es.items, yes_at, no_at),
    }
}

// Writes the rows of the operands of an AND.
#[cycle(expr)]
fn emit_all(code: &mut Vec<u8>, all: &[Expr], yes_at: u32, no_at: u32) -> Result<(), Memory>
    requires { length code.old.items + 11 * decisions_below (operands (map formula all.now)) < 2 ^ 32 }
    ensures { OnOk result (code.new.items ≡ code.old.items ++ bytes_of (all_rows (operands (map formula all.now)) (length code.old.items) yes_at no_at)) }
{
    for (place, e) in all.iter().enumerate() {
        let next_at = undecided(code, e, place + 1 == all.len(), yes_at);
        emit_value(code, e, next_at, no_at)?;
    }
    Ok(())
}

// Writes the rows of the operands of an OR.
#[cycle(expr)]
fn emit_any(code: &mut Vec<u8>, all: &[Expr], yes_at: u32, no_at: u32) -> Result<(), Memory>
    requires { length code.old.items + 11 * decisions_below (operands (map formula all.now)) < 2 ^ 32 }
    ensures { OnOk result (code.new.items ≡ code.old.items ++ bytes_of (any_rows (operands (map formula all.now)) (length code.old.items) yes_at no_at)) }
{
    for (place, e) in all.iter().enumerate() {
        let next_at = undecided(code, e, place + 1 == all.len(), no_at);
        emit_value(code, e, yes_at, next_at)?;
    }
    Ok(())
}

// Writes the rows of a value and those that set its target.
pub(crate) fn emit_assigned(code: &mut Vec<u8>, target: u16, e: &Expr) -> Result<(), Memory>
    requires { length code.old.items + 11 * (decisions (formula e.now) + 2) < 2 ^ 32 }
    ensures { OnOk result (code.new.items ≡ code.old.items ++ bytes_of (assigned_rows target (formula e.now) (length code.old.items))) }
{
    let yes_at = behind(code, e);
    let no_at = yes_at + SET_SIZE;
    let next = no_at + SET_SIZE;
    emit_value(code, e, yes_at, no_at)?;
    let yes = Row::Set {
        target,
        byte: 1,
        next,
    };
    yes.write(code)?;
    let no = Row::Set {
        target,
        byte: 0,
        next,
    };
    no.write(code)?;
    Ok(())
}

// Writes one row that sets a target and goes on after itself.
fn emit_literal(code: &mut Vec<u8>, target: u16, value: bool) -> Result<(), Memory>
    requires { length code.old.items + 8 < 2 ^ 32 }
    ensures { OnOk result (code.new.items ≡ code.old.items ++ encoded (Row.Set target (bit value) (length code.old.items + 8))) }
{
    let set = Row::Set {
        target,
        byte: u8::from(value),
        next: code.len() as u32 + SET_SIZE,
    };
    set.write(code)
}

// Writes the rows of what stands at a Boolean pin. `free` is the pin's value where nothing stands.
pub(crate) fn emit_pin(code: &mut Vec<u8>, target: u16, free: bool, arg: &Arg) -> Result<(), Memory>
    requires { length code.old.items + 11 * count_at_pin (actual arg.now) < 2 ^ 32 }
    ensures { OnOk result (code.new.items ≡ code.old.items ++ bytes_of (pin_rows target free (actual arg.now) (length code.old.items))) }
{
    match arg {
        Arg::Free => emit_literal(code, target, free),
        Arg::Lit(b) => emit_literal(code, target, *b),
        Arg::Time(_) => emit_literal(code, target, false),
        Arg::Value(e) => emit_assigned(code, target, e),
    }
}
