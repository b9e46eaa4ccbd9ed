// What is known of a kind's pins, by their numbers and by their names.

ghost use Rattle.std.specs.Prelude.{◌≡◌, ◌<◌, ℕ, true, false, Some, IfSome, IfNone, slice_get, length};
ghost use Rattle.ps_model.specs.Blocks.{block};
ghost use Rattle.ps_model.specs.Pins.{pin_count, pin_names, pin_rows, IsNamed};

use crate::kind::{Kind, Ty};
use crate::pin_tables::pins;

/// A row of a kind's pin table: the pin's type, whether it is an input, and the value of a free
/// Boolean input pin.
#[derive(Clone, Copy)]
pub struct PinRow {
    /// SAFEBOOL, BOOL or TIME.
    pub ty: Ty,
    /// Whether a call gives the pin its value; the other pins are outputs.
    pub is_input: bool,
    /// The value that a Boolean input pin has where a call does not name it; FALSE for the other pins.
    pub free: bool,
}

impl PinRow {
    // A SAFEBOOL input, FALSE where it is free.
    pub(crate) const SAFE_INPUT: PinRow = PinRow {
        ty: Ty::Safe,
        is_input: true,
        free: false,
    };

    // A BOOL input, FALSE where it is free.
    pub(crate) const PLAIN_INPUT: PinRow = PinRow {
        ty: Ty::Bool,
        is_input: true,
        free: false,
    };

    // A TIME input.
    pub(crate) const TIME_INPUT: PinRow = PinRow {
        ty: Ty::Time,
        is_input: true,
        free: false,
    };

    // A SAFEBOOL input that is TRUE where it is free.
    pub(crate) const FREE_TRUE: PinRow = PinRow {
        ty: Ty::Safe,
        is_input: true,
        free: true,
    };

    // A safe output.
    pub(crate) const SAFE_OUTPUT: PinRow = PinRow {
        ty: Ty::Safe,
        is_input: false,
        free: false,
    };

    // Ready or Error.
    pub(crate) const PLAIN_OUTPUT: PinRow = PinRow {
        ty: Ty::Bool,
        is_input: false,
        free: false,
    };
}

/// How many input pins a kind has, its TIME pin among them, from 3 to 14.
#[tactic(auto, unfolding(crate::specs::Blocks::block))]
pub fn input_count(kind: Kind) -> u8
    ensures { result ≡ length (block kind).inputs }
{
    match kind {
        Kind::TwoHandTwo | Kind::TwoHandThree => 3,
        Kind::Equivalent | Kind::Antivalent => 4,
        Kind::EmergencyStop | Kind::Espe | Kind::SafetyRequest => 5,
        Kind::EnableSwitch => 6,
        Kind::GuardMonitoring | Kind::OutControl | Kind::Edm => 7,
        Kind::GuardLocking => 8,
        Kind::ModeSelector => 14,
    }
}

/// How many pins a kind has: its input pins, its safe outputs, Ready and Error. From 6 to 25.
#[tactic(auto, unfolding(crate::specs::Blocks::block))]
pub fn pin_count(kind: Kind) -> u8
    ensures { result ≡ pin_count kind }
{
    match kind {
        Kind::TwoHandTwo | Kind::TwoHandThree => 6,
        Kind::Equivalent | Kind::Antivalent => 7,
        Kind::EmergencyStop | Kind::Espe => 8,
        Kind::EnableSwitch | Kind::SafetyRequest => 9,
        Kind::GuardMonitoring | Kind::OutControl | Kind::Edm => 10,
        Kind::GuardLocking => 12,
        Kind::ModeSelector => 25,
    }
}

/// The row of pin j of a kind. Pins are numbered from 0: the Boolean input pins, the TIME pin where
/// there is one, the safe outputs, Ready and Error.
pub fn pin_row(kind: Kind, j: u8) -> PinRow
    requires { j < pin_count kind }
    ensures { slice_get (pin_rows kind) j ≡ Some result }
{
    pins(kind)[j as usize].row
}

/// The name of pin j of a kind, as PLCopen TC5 spells it.
pub fn pin_name(kind: Kind, j: u8) -> &'static str
    requires { j < pin_count kind }
    ensures { slice_get (pin_names kind) j ≡ Some result.now }
{
    pins(kind)[j as usize].name
}

// Whether pin j of a kind has this name, without letter case.
fn has_name(kind: Kind, j: u8, name: &[u8]) -> bool
    requires { j < pin_count kind }
    ensures yes { result ≡ true → IsNamed kind name.now j }
    ensures no { result ≡ false → ¬ (IsNamed kind name.now j) }
{
    pin_name(kind, j).as_bytes().eq_ignore_ascii_case(name)
}

/// The pin of a kind with this name, without letter case (IEC 61131-3), and None exactly where the
/// kind has none.
pub fn pin_named(kind: Kind, name: &[u8]) -> Option<u8>
    ensures some { IfSome result (IsNamed kind name.now) }
    ensures none { IfNone result ((j : ℕ) → j < pin_count kind → ¬ (IsNamed kind name.now j)) }
{
    for j in 0..pin_count(kind) {
        if has_name(kind, j, name) {
            return Some(j);
        }
    }
    None
}
