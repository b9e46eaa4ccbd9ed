// DECIDE, SET and END.

ghost use Rattle.std.specs.Prelude.{◌≡◌, ◌+◌, ◌≤◌, length};
ghost use Rattle.ps_decision.specs.Acting.{after_decide, after_set, after_end};

use crate::cells::{place, set_offset, trap};
use crate::layout::{PROGRESS_AT, SIGNALS_AT};
use ps_stackvm::Trap;

// DECIDE goes on at one of two places, with so many signals.
pub(crate) fn decide(cells: &mut [u8], signals: u16, operand: u16, yes_at: u32, no_at: u32)
    requires { SIGNALS_AT + signals ≤ length cells.old }
    ensures { cells.new ≡ after_decide signals operand yes_at no_at cells.old }
{
    let Some(at) = place(operand, signals) else {
        return trap(cells, Trap::NoSignal);
    };
    match cells[at] {
        0 => set_offset(cells, no_at),
        1 => set_offset(cells, yes_at),
        _ => trap(cells, Trap::NotBoolean),
    }
}

// SET writes a byte and goes on, with so many signals.
pub(crate) fn set(cells: &mut [u8], signals: u16, target: u16, byte: u8, next: u32)
    requires { SIGNALS_AT + signals ≤ length cells.old }
    ensures { cells.new ≡ after_set signals target byte next cells.old }
{
    let Some(at) = place(target, signals) else {
        return trap(cells, Trap::NoSignal);
    };
    if byte > 1 {
        return trap(cells, Trap::NotBoolean);
    }
    cells[at] = byte;
    set_offset(cells, next);
}

// END ends the scan.
pub(crate) fn end(cells: &mut [u8])
    requires { SIGNALS_AT ≤ length cells.old }
    ensures { cells.new ≡ after_end cells.old }
{
    cells[PROGRESS_AT] = 1;
}
