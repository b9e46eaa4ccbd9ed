// SET, ALL and ANY. `next` is where the following row stands.

ghost use Rattle.std.specs.Prelude.{◌≡◌, ◌≢◌, ◌+◌, ◌<◌, length, Some};
ghost use Rattle.ps_machine.specs.Bytes.{bit};
ghost use Rattle.ps_eqvm.specs.Rows.{operand_of};
ghost use Rattle.ps_eqvm.specs.Acting.{byte_of, target_of};
ghost use Rattle.ps_eqvm.specs.Gates.{after_gate};

use crate::layout::WORK_CELLS;
use crate::opcode::Gate;
use crate::operand::{Found, Operand};
use crate::plain::PlainCells;
use crate::trap::Trap;

impl Gate {
    ghost use Rattle.std.specs.Prelude.{◌≡◌};
    ghost use Rattle.ps_eqvm.specs.Gates.{decides};

    // Whether a value alone decides what becomes of the target: FALSE for ALL, and TRUE for ANY.
    fn is_decided_by(self, on: bool) -> bool
        ensures { result ≡ decides self on }
    {
        match self {
            Gate::Set => true,
            Gate::All => !on,
            Gate::Any => on,
        }
    }
}

/// SET, ALL or ANY of a target and an operand, among so many signals.
#[inline(always)]
pub fn set_or_join(
    plain: &mut PlainCells,
    signals: u16,
    how: Gate,
    target: u16,
    operand: u16,
    next: u32,
)
    requires { length plain.old.cells ≡ WORK_CELLS + signals }
    ensures { plain.new ≡ after_gate how (target_of (operand_of signals target)) (byte_of plain.old.cells (operand_of signals operand)) next plain.old }
{
    match Operand::numbered(signals, target) {
        Operand::Cell(i) => set_or_join_cell(plain, signals, how, i, operand, next),
        Operand::Constant(_) => plain.trap(Trap::OutOfRange),
        Operand::Bad => plain.trap(Trap::OutOfRange),
    }
}

// SET, ALL or ANY of a cell and an operand.
#[inline(always)]
fn set_or_join_cell(
    plain: &mut PlainCells,
    signals: u16,
    how: Gate,
    i: u16,
    operand: u16,
    next: u32,
)
    requires cells { length plain.old.cells ≡ WORK_CELLS + signals }
    requires within { i < WORK_CELLS + signals }
    ensures { plain.new ≡ after_gate how (Some i) (byte_of plain.old.cells (operand_of signals operand)) next plain.old }
{
    match plain.find(signals, operand) {
        Found::Missing => plain.trap(Trap::OutOfRange),
        Found::Odd => plain.trap(Trap::NotBoolean),
        Found::Truth(on) => match how {
            Gate::Set => plain.put(i as usize, on, next),
            _ => join(plain, how, i as usize, on, next),
        },
    }
}

// ALL or ANY of a cell and a value: where the value decides the cell becomes it, and else the cell stays.
fn join(plain: &mut PlainCells, how: Gate, i: usize, on: bool, next: u32)
    requires within { i < length plain.old.cells }
    requires joins { how ≢ Gate.Set }
    ensures { plain.new ≡ after_gate how (Some i) (Some (bit on)) next plain.old }
{
    if plain.cell(i).is_none() {
        return plain.trap(Trap::NotBoolean);
    }
    if how.is_decided_by(on) {
        plain.put_over(i, on, next)
    } else {
        plain.pass(next)
    }
}
