//! The laws of every block. Each function makes the calls that its law speaks of, at any kind.

ghost use Rattle.std.specs.Prelude.{◌≡◌, ◌<◌, ◌/◌, ◌==◌, ℕ, true, false, Some, length, slice_index_or};
ghost use Rattle.ps_model.specs.Blocks.{block};
ghost use Rattle.ps_model.specs.Demand.{demand, are_met};
ghost use Rattle.ps_model.specs.PinBits.{pin_of};
ghost use Rattle.ps_block.specs.Shown.{shown};
ghost use Rattle.ps_block.specs.Stepping.{IsStep};

use crate::block::{Outs, Pins, SafetyBlock};
use ps_model::block_laws::{each_demands, errors_exactly, off_where_inactive, stands_for_one};

/// A state that is stored and loaded again is the state.
pub fn stored_and_loaded<B: SafetyBlock>(state: &B::State) -> Option<B::State>
    ensures { result ≡ Some state.now }
{
    stands_for_one();
    let mut bytes = [0; 16];
    B::store(state, &mut bytes);
    B::load(&bytes)
}

/// A step with Activate FALSE shows DiagCode 0 and every output FALSE.
pub fn inactive_step<B: SafetyBlock>(state: &mut B::State, pins: Pins) -> Outs
    requires { pin_of pins.bits 0 ≡ false }
    ensures step { IsStep B.KIND pins (B.kept state.old) (B.kept state.new) result }
    ensures code { result.diag.code ≡ 0 }
    ensures off { (j : ℕ) → slice_index_or (shown (length (block B.KIND).outputs) result) j false ≡ false }
{
    off_where_inactive();
    B::step(state, pins)
}

/// After a step Error is TRUE exactly where the DiagCode is Cxxx.
pub fn error_step<B: SafetyBlock>(state: &mut B::State, pins: Pins) -> Outs
    ensures step { IsStep B.KIND pins (B.kept state.old) (B.kept state.new) result }
    ensures error { result.diag.error ≡ (result.diag.code / 0x1000 == 0xC) }
{
    errors_exactly();
    B::step(state, pins)
}

/// After a step each safe output is TRUE only where its demand formula holds of the step's pins.
pub fn demanding_step<B: SafetyBlock>(state: &mut B::State, pins: Pins) -> Outs
    ensures step { IsStep B.KIND pins (B.kept state.old) (B.kept state.new) result }
    ensures demand { (j : ℕ) → j < length (block B.KIND).outputs → pin_of result.safe j ≡ true → are_met (pin_of pins.bits) (demand B.KIND j) ≡ true }
{
    each_demands();
    B::step(state, pins)
}
