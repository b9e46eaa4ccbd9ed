//! What channel B knows of each kind beside its mask rows, in a table of its own: channel A takes the
//! same numbers from elsewhere, so that one wrong number does not change both channels alike.

ghost use Rattle.std.specs.Prelude.{◌≡◌, ◌≢◌, ◌+◌, ◌<◌, ◌≤◌, IfSome, IfNone, length};
ghost use Rattle.ps_model.specs.Blocks.{block, output_count};
ghost use Rattle.ps_model.specs.Budgets.{boolean_count};
ghost use Rattle.ps_model.specs.Scanning.{pin_at};
ghost use Rattle.ps_model.specs.declared.kind.Kind.{Kind};
ghost use Rattle.ps_rows.specs.Kinds.{IsEntryOf};

use crate::view::pin;
use ps_model::Kind;

// What the table says of a kind.
#[derive(Clone, Copy)]
pub(crate) struct KindEntry {
    // The kind.
    pub kind: Kind,
    // The number that stands for it in code.
    pub number: u8,
    // How many Boolean input pins it has.
    pub boolean_pins: u8,
    // The pins that are TRUE where a call does not name them: bit j is pin j.
    pub free_pins: u32,
    // How many safe outputs it has.
    pub safe_outputs: u8,
    // The limit in ms of a call that gives none.
    pub own_limit: u32,
}

// An entry: the kind, its number, its Boolean pins and those of them that are TRUE where they are free,
// its safe outputs, and its own limit in ms.
macro_rules! entry {
    ($kind:ident, $number:expr, $pins:expr, $free:expr, $outputs:expr, $limit:expr) => {
        KindEntry {
            kind: Kind::$kind,
            number: $number,
            boolean_pins: $pins,
            free_pins: $free,
            safe_outputs: $outputs,
            own_limit: $limit,
        }
    };
}

// The kinds in the order of their numbers.
pub(crate) static KINDS: [KindEntry; 13] = [
    entry!(Equivalent, 1, 3, 0, 1, 0),
    entry!(Antivalent, 2, 3, 0b100, 1, 0),
    entry!(EmergencyStop, 3, 5, 0, 1, 0),
    entry!(Espe, 4, 5, 0, 1, 0),
    entry!(ModeSelector, 5, 13, 0, 9, 0),
    entry!(TwoHandTwo, 6, 3, 0, 1, 0),
    entry!(TwoHandThree, 7, 3, 0, 1, 500),
    entry!(GuardMonitoring, 8, 6, 0, 1, 0),
    entry!(GuardLocking, 9, 8, 0, 2, 0),
    entry!(EnableSwitch, 10, 6, 0, 1, 0),
    entry!(SafetyRequest, 11, 4, 0, 2, 0),
    entry!(OutControl, 12, 7, 0, 1, 0),
    entry!(Edm, 13, 6, 0, 1, 0),
];

// The entry of a kind.
#[tactic(auto, unfolding(ps_model::specs::Blocks::block, ps_model::specs::Budgets::boolean_count))]
fn entry_of(kind: Kind) -> &'static KindEntry
    ensures { IsEntryOf kind result.now }
{
    &KINDS[kind as usize]
}

/// The number of a kind, from 1 to 13, which stands for it in channel B's code (profile).
pub fn number_of(kind: Kind) -> u8
    ensures { result ≡ (block kind).number }
{
    entry_of(kind).number
}

/// The kind with a number of channel B's code, and None exactly where no kind has it.
#[tactic(auto, using(ps_model::proofs::KindNumbers::number_at_least, ps_model::proofs::KindNumbers::number_at_most))]
pub fn kind_with_number(number: u8) -> Option<Kind>
    ensures some { IfSome result (λ kind. (block kind).number ≡ number) }
    ensures none { IfNone result ((kind : Kind) → (block kind).number ≢ number) }
{
    if number < 1 || number > 13 {
        return None;
    }
    Some(kind_at(usize::from(number) - 1))
}

// The kind of the entry at a place.
#[tactic(auto, unfolding(ps_model::specs::Blocks::block))]
fn kind_at(place: usize) -> Kind
    requires { place < 13 }
    ensures { (block result).number ≡ place + 1 }
{
    KINDS[place].kind
}

/// How many Boolean input pins a kind has, from 3 to 13.
pub fn boolean_pins(kind: Kind) -> u8
    ensures count { result ≡ boolean_count kind }
    ensures few { result ≤ 13 }
{
    entry_of(kind).boolean_pins
}

/// The value of a Boolean input pin that a call does not name, by the pin's number from 0.
pub fn free_value(kind: Kind, j: u8) -> bool
    requires { j < boolean_count kind }
    ensures { result ≡ (pin_at kind j).free }
{
    pin(entry_of(kind).free_pins, u32::from(j))
}

/// How many safe outputs a kind has, from 1 to 9.
pub fn safe_outputs(kind: Kind) -> u8
    ensures count { result ≡ length (block kind).outputs }
    ensures few { result ≤ 9 }
{
    entry_of(kind).safe_outputs
}

/// How many outputs a kind has, Ready and Error among them, from 3 to 11.
#[tactic(auto, unfolding(ps_model::specs::Blocks::output_count))]
pub fn all_outputs(kind: Kind) -> u8
    ensures { result ≡ output_count kind }
{
    safe_outputs(kind) + 2
}

/// The part of a kind's limit in ms that no TIME pin gives: 500 for SF_TwoHandControlTypeIII, and 0 for
/// the others.
pub fn own_limit(kind: Kind) -> u32
    ensures { result ≡ (block kind).fixed_limit }
{
    entry_of(kind).own_limit
}
