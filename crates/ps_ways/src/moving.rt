// A step of a block, with the guard by which it leaves its state.

ghost use Rattle.std.specs.Prelude.{◌≡◌, ◌≤◌, ◌-◌, ◌==◌};
ghost use Rattle.ps_model.specs.Kept.{Kept, seen};
ghost use Rattle.ps_model.specs.PinBits.{pin_of};
ghost use Rattle.ps_model.specs.Stored.{IsKept};
ghost use Rattle.ps_rows.specs.Counted.{kept_of};
ghost use Rattle.ps_ways.specs.Stepping.{IsLastOf};
ghost use Rattle.ps_ways.specs.Marks.{number_taken};
ghost use Rattle.ps_ways.specs.Moving.{moved_by};

use crate::step::{LastStep, StepConditions};
use crate::table::guard_taken;
use ps_model::Kind;
use ps_rows::CountedBlock;

/// A block after a step of it.
#[derive(Clone, Copy)]
pub struct Moved {
    /// The DiagCode of the state before the step.
    pub from: u16,
    /// The number of the guard by which the step left that state, and 0 where none did.
    pub number: u8,
    /// The block.
    pub block: CountedBlock,
}

/// The number of the guard by which a step leaves a state, by its DiagCode, from 1 on; 0 where none does.
pub fn number_taken(kind: Kind, code: u16, last: LastStep, bits: u32, elapsed: bool) -> u8
    requires { last.mode ≤ 7 }
    ensures { (k : Kept) → IsLastOf k last → result ≡ number_taken kind code (seen kind (pin_of bits) elapsed k) }
{
    let step = StepConditions::of(kind, bits, last, elapsed);
    if !step.pin(0) {
        return 0;
    }
    if code == 0 {
        return 0;
    }
    guard_taken(kind, code, &step)
}

// The number of the guard by which a step of a block leaves its state, and 0 where none does.
fn number_of(kind: Kind, block: &CountedBlock, bits: u32, passed: u32) -> u8
    requires { block.now.mode ≤ 7 }
    ensures { result ≡ number_taken kind block.now.code
        (seen kind (pin_of bits) (block.now.remains - passed == 0) (kept_of block.now)) }
{
    let last = LastStep {
        reset: block.last_reset,
        auxiliary: block.last_auxiliary,
        mode: block.mode,
    };
    let elapsed = block.remains.saturating_sub(passed) == 0;
    number_taken(kind, block.code, last, bits, elapsed)
}

/// A step of a block with these pins, where bit j is pin j, and this limit in ms, before which so many ms passed.
pub fn moved_by(kind: Kind, limit: u32, bits: u32, passed: u32, block: CountedBlock) -> Moved
    requires { IsKept kind (kept_of block) }
    ensures moves { result ≡ moved_by kind limit (pin_of bits) passed block }
    ensures kept { IsKept kind (kept_of result.block) }
{
    Moved {
        from: block.code,
        number: number_of(kind, &block, bits, passed),
        block: block.stepped(kind, bits, limit, passed),
    }
}
