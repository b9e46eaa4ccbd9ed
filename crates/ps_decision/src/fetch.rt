// Reading a row from the code.

ghost use Rattle.std.specs.Prelude.{◌≡◌, ◌+◌, ◌<◌, ◌≤◌, ◌^◌, length, slice_index};
ghost use Rattle.ps_machine.specs.Bytes.{be2, be4};
ghost use Rattle.ps_decision.specs.Rows.{fetched};

use crate::cells::{number_at, place_at};
use crate::row::{CALL, DECIDE, END, Row, SET};
use ps_stackvm::Trap;

// A DECIDE with its operand and places.
fn decide_at(code: &[u8], at: usize) -> Row
    requires { at + 11 ≤ length code.now }
    ensures { result ≡ Row.Decide (be2 code.now (at + 1)) (be4 code.now (at + 3)) (be4 code.now (at + 7)) }
{
    Row::Decide {
        operand: number_at(code, at + 1),
        yes_at: place_at(code, at + 3),
        no_at: place_at(code, at + 7),
    }
}

// A SET with its target, byte and place.
fn set_at(code: &[u8], at: usize) -> Row
    requires { at + 8 ≤ length code.now }
    ensures { result ≡ Row.Set (be2 code.now (at + 1)) (slice_index code.now (at + 3)) (be4 code.now (at + 4)) }
{
    Row::Set {
        target: number_at(code, at + 1),
        byte: code[at + 3],
        next: place_at(code, at + 4),
    }
}

// A CALL with what it names.
fn call_at(code: &[u8], at: usize) -> Row
    requires { at + 10 ≤ length code.now }
    ensures { result ≡ Row.Call (be2 code.now (at + 1)) (slice_index code.now (at + 3)) (be2 code.now (at + 4)) (be4 code.now (at + 6)) }
{
    Row::Call {
        instance: number_at(code, at + 1),
        kind: code[at + 3],
        first: number_at(code, at + 4),
        limit: place_at(code, at + 6),
    }
}

// The row at a place of the code, or the trap that reading it gives.
pub(crate) fn fetch(code: &[u8], at: u32) -> Result<Row, Trap>
    requires { length code.now < 2 ^ 32 }
    ensures { result ≡ fetched code.now at }
{
    let at = at as usize;
    if at >= code.len() {
        return Err(Trap::CodeEnd);
    }
    let room = code.len() - at;
    match code[at] {
        DECIDE if room >= 11 => Ok(decide_at(code, at)),
        SET if room >= 8 => Ok(set_at(code, at)),
        CALL if room >= 10 => Ok(call_at(code, at)),
        END => Ok(Row::End),
        DECIDE..=END => Err(Trap::CodeEnd),
        _ => Err(Trap::NoOpcode),
    }
}
