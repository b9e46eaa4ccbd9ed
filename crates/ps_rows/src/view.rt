// What a step reads beside the state, and the conditions that the rows are masks over.

ghost use Rattle.std.specs.Prelude.{◌≡◌, ◌≤◌, ◌<◌, ◌+◌, ◌*◌, ◌^◌, ◌++◌, not, Bool, List};
ghost use Rattle.ps_model.specs.Blocks.{modes_on};
ghost use Rattle.ps_model.specs.Stored.{bit};
ghost use Rattle.ps_model.specs.declared.kind.Kind.TheVariants.{ModeSelector};
ghost use Rattle.ps_rows.specs.Names.{complemented, first_pins};
ghost use Rattle.ps_model.specs.PinBits.{pin_of};
ghost use Rattle.ps_rows.specs.Viewed.{names_in};

use ps_model::Kind;

/// What a step of a block reads beside its state (profile).
#[derive(Clone, Copy)]
pub struct BlockView {
    /// The Boolean input pins: bit j is the kind's pin j; higher bits are not read.
    pub bits: u32,
    /// Reset of the last step; not read for a kind without Reset.
    pub last_reset: bool,
    /// S_SetMode of SF_ModeSelector or ProcessControl of SF_OutControl of the last step; not read for
    /// other kinds.
    pub last_aux: bool,
    /// The latched mode, 0 to 7; not read for other kinds than SF_ModeSelector.
    pub mode: u8,
    /// The limit has elapsed.
    pub elapsed: bool,
}

/// The named conditions of a kind as complemented bits, the first the lowest: a bit is 1 where its
/// condition is FALSE.
pub fn conditions(kind: Kind, view: BlockView) -> u32
    requires { view.mode ≤ 7 }
    ensures { result ≡ complemented (names_in kind view) }
{
    conditions_in(kind, &view)
}

// The same of a view that is lent.
#[inline(always)]
pub(crate) fn conditions_in(kind: Kind, view: &BlockView) -> u32
    requires { view.now.mode ≤ 7 }
    ensures { result ≡ complemented (names_in kind view.now) }
{
    let bits = view.bits;
    match kind {
        Kind::Equivalent => behind_pins(bits, 3, off(view.elapsed, 0)),
        Kind::Antivalent => behind_pins(bits, 2, off(!pin(bits, 2), off(view.elapsed, 0))),
        Kind::EmergencyStop => behind_pins(bits, 5, off(view.last_reset, 0)),
        Kind::Espe => behind_pins(bits, 5, off(view.last_reset, 0)),
        Kind::ModeSelector => mode_conditions(view),
        Kind::TwoHandTwo => behind_pins(bits, 3, 0),
        Kind::TwoHandThree => behind_pins(bits, 3, off(view.elapsed, 0)),
        Kind::GuardMonitoring => behind_pins(bits, 6, off(view.last_reset, off(view.elapsed, 0))),
        Kind::GuardLocking => behind_pins(bits, 8, off(view.last_reset, 0)),
        Kind::EnableSwitch => behind_pins(bits, 6, off(view.last_reset, 0)),
        Kind::SafetyRequest => behind_pins(bits, 4, off(view.last_reset, off(view.elapsed, 0))),
        Kind::OutControl => behind_pins(bits, 7, off(view.last_reset, off(view.last_aux, 0))),
        Kind::Edm => behind_pins(bits, 6, off(view.last_reset, off(view.elapsed, 0))),
    }
}

// The named conditions of SF_ModeSelector.
fn mode_conditions(view: &BlockView) -> u32
    requires { view.now.mode ≤ 7 }
    ensures { result ≡ complemented (names_in ModeSelector view.now) }
{
    let bits = view.bits;
    let count = mode_count(bits);
    let exact = count == 1 && pin(bits, u32::from(view.mode) + 1);
    let may_set = pin(bits, 11) || pin(bits, 10) && !view.last_aux;
    let late = off(
        may_set,
        off(pin(bits, 12), off(view.last_reset, off(view.elapsed, 0))),
    );
    let middle = off(count == 1, off(exact, off(pin(bits, 9), late)));
    off(pin(bits, 0), off(count == 0, middle))
}

// How many modes are TRUE: they are the pins 1 to 8.
#[tactic(auto, using(crate::proofs::Counting::count_of_modes))]
fn mode_count(bits: u32) -> u32
    ensures { result ≡ modes_on (pin_of bits) }
{
    ((bits >> 1) & 0xFF).count_ones()
}

// The value of Boolean input pin j.
pub(crate) fn pin(bits: u32, j: u32) -> bool
    requires { j < 32 }
    ensures { result ≡ pin_of bits j }
{
    (bits >> j) & 1 == 1
}

// A condition before others.
fn off(condition: bool, others: u32) -> u32
    requires { others < 2 ^ 20 }
    ensures first { result ≡ bit (not condition) + 2 * others }
    ensures small { result ≤ 2 * others + 1 }
{
    if condition {
        2 * others
    } else {
        1 + 2 * others
    }
}

// The first pins before other conditions.
fn behind_pins(bits: u32, count: u32, others: u32) -> u32
    requires few { count ≤ 8 }
    requires small { others < 4 }
    ensures { (bs : List Bool) → others ≡ complemented bs → result ≡ complemented (first_pins count (pin_of bits) ++ bs) }
{
    let low = (1 << count) - 1;
    (low - (bits & low)) + (others << count)
}
