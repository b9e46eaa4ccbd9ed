//! The trait of a block.

ghost use Rattle.std.specs.Prelude.{◌≡◌, ◌<◌, IfSome, IfNone};
ghost use Rattle.ps_model.specs.declared.kind.Kind.{Kind};
ghost use Rattle.ps_model.specs.Kept.{Kept, fresh, stepped_at};
ghost use Rattle.ps_model.specs.Stored.{Loads};
ghost use Rattle.ps_model.specs.PinBits.{pin_of};

use ps_model::{Diag, Kind};

/// The pins of a step, its limit and its time.
#[derive(Clone, Copy)]
pub struct Pins {
    /// Bit j is the kind's Boolean input pin j; higher bits are not read.
    pub bits: u32,
    /// The limit of the instance in ms: its TIME pin's literal, and 500 for
    /// SF_TwoHandControlTypeIII.
    pub limit: u32,
    /// The time of the scan in ms.
    pub now: u32,
}

impl Pins {
    /// The value of Boolean input pin j.
    pub fn at(&self, j: u32) -> bool
        requires { j < 32 }
        ensures { result ≡ pin_of self.entry.now.bits j }
    {
        (self.bits >> j) & 1 == 1
    }
}

/// What a block shows after a step.
#[derive(Clone, Copy)]
pub struct Outs {
    /// Bit j is the kind's safe output j; no further bit is set.
    pub safe: u16,
    /// Ready, Error and DiagCode.
    pub diag: Diag,
}

impl Outs {
    ghost use Rattle.ps_block.specs.Shown.{shown_in};

    /// What a block shows in the state with this code, with these safe outputs.
    pub fn of(code: u16, safe: u16) -> Outs
        ensures { result ≡ shown_in code safe }
    {
        Outs {
            safe,
            diag: Diag {
                ready: code != 0,
                error: code / 0x1000 == 0xC,
                code,
            },
        }
    }
}

/// A kind of function block (PLCopen TC5, in the profile of this project). No call takes memory.
pub trait SafetyBlock {
    ghost use Rattle.ps_block.specs.Shown.{Shows};

    /// The kind.
    const KIND: Kind;

    /// The kind, as clauses see it.
    ghost KIND: { Kind };

    /// A state: its DiagCode, the time in ms at which it was entered or restarted, the last inputs
    /// and the latched mode, as far as the kind has them.
    type State: Drop;

    /// What a state keeps.
    ghost kept: { Self.State → Kept };

    /// The state before the first scan: Idle, with everything else FALSE or 0.
    fn fresh() -> Self::State
        ensures { kept result ≡ fresh };

    /// One step. The age is the step's time less the kept time, or 0 where the kept time is later.
    /// The answer shows the new state.
    fn step(state: &mut Self::State, pins: Pins) -> Outs
        ensures moves { kept state.new ≡ stepped_at KIND pins.limit (pin_of pins.bits) pins.now (kept state.old) }
        ensures shows { Shows KIND result (kept state.new) };

    /// Writes the sixteen bytes of a state.
    fn store(state: &Self::State, into: &mut [u8; 16])
        ensures { Loads KIND into.new (kept state.now) };

    /// The state that stores so, and None exactly where none does. There is no further one: what a state keeps is all
    /// that there is of it.
    fn load(from: &[u8; 16]) -> Option<Self::State>
        ensures some { IfSome result (λ s. Loads KIND from.now (kept s)) }
        ensures alone { IfSome result (λ s. (other : Self.State) → kept other ≡ kept s → other ≡ s) }
        ensures none { IfNone result ((k : Kept) → ¬ (Loads KIND from.now k)) };
}
