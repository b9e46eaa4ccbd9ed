// The pins whose values of the last step a kind keeps: Reset and the auxiliary input.

ghost use Rattle.std.specs.Prelude.{◌≡◌, ℕ, Option};
ghost use Rattle.ps_model.specs.Blocks.{block, at_pin};
ghost use Rattle.ps_model.specs.Stored.{bit, is_last};
ghost use Rattle.ps_model.specs.PinBits.{pin_of};
ghost use Rattle.ps_rows.specs.Counted.{bit_of};

use ps_model::Kind;

// The bits of the two pins among a kind's Boolean pins, and 0 for one that the kind lacks.
#[derive(Clone, Copy)]
pub(crate) struct LastPins {
    pub reset: u32,
    pub auxiliary: u32,
}

// The two pins of a kind.
#[inline(always)]
#[tactic(auto, unfolding(ps_model::specs::Blocks::block))]
pub(crate) fn last_pins(kind: Kind) -> LastPins
    ensures reset { result.reset ≡ bit_of (block kind).reset }
    ensures auxiliary { result.auxiliary ≡ bit_of (block kind).auxiliary }
{
    let (reset, auxiliary) = match kind {
        Kind::Equivalent | Kind::Antivalent | Kind::TwoHandTwo | Kind::TwoHandThree => (0, 0),
        Kind::SafetyRequest => (1 << 3, 0),
        Kind::EmergencyStop | Kind::Espe => (1 << 4, 0),
        Kind::GuardMonitoring | Kind::EnableSwitch | Kind::Edm => (1 << 5, 0),
        Kind::OutControl => (1 << 6, 1 << 2),
        Kind::GuardLocking => (1 << 7, 0),
        Kind::ModeSelector => (1 << 12, 1 << 10),
    };
    LastPins { reset, auxiliary }
}

// Whether the pin of a bit is TRUE: FALSE where the kind lacks it.
#[inline(always)]
pub(crate) fn is_on(bits: u32, pin: u32) -> bool
    ensures { (j : Option ℕ) → pin ≡ bit_of j → result ≡ at_pin j (pin_of bits) }
{
    bits & pin != 0
}

// Whether a kind can keep such a last value of the pin of a bit: TRUE only where it has the pin.
#[inline(always)]
pub(crate) fn may_keep(last: bool, pin: u32) -> bool
    ensures { (j : Option ℕ) → pin ≡ bit_of j → result ≡ is_last j (bit last) }
{
    !last || pin != 0
}
