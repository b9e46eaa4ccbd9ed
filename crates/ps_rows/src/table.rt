// The table of rows of each kind.

ghost use Rattle.std.specs.Prelude.{◌≡◌, ◌<◌, ◌≤◌, ℕ, Bool, true, false, length, slice_get, Some, IfSome, IfNone};
ghost use Rattle.ps_model.specs.Kept.{Kept, seen};
ghost use Rattle.ps_model.specs.Stored.{is_state};
ghost use Rattle.ps_rows.specs.Fitting.{first_fit, HoldsExactly, IsRangeOf};
ghost use Rattle.ps_rows.specs.Placed.{is_placed};
ghost use Rattle.ps_rows.specs.Rows.{rows_of};
ghost use Rattle.ps_rows.specs.Names.{names, complemented};
ghost use Rattle.ps_rows.specs.Decision.{decision};

use crate::mask_row::{MaskRow, RowRange};
use crate::{
    edm, enable_switch, equivalent, guard_locking, guard_monitoring, modes, out_control,
    safety_request, stop, two_hand_three, two_hand_two,
};
use ps_model::Kind;

/// How many rows a kind has, from 30 to 89.
pub fn row_count(kind: Kind) -> u16
    ensures { result ≡ length (rows_of kind) }
{
    rows(kind).len() as u16
}

/// Row j of a kind.
pub fn row(kind: Kind, j: u16) -> MaskRow
    requires { j < length (rows_of kind) }
    ensures { slice_get (rows_of kind) j ≡ Some result }
{
    rows(kind)[j as usize]
}

/// Where the rows of a state stand: exactly the rows in the range are of the state, there is one at
/// least, and the range ends within `row_count`. None exactly where the code is no state of the kind.
pub fn state_rows(kind: Kind, code: u16) -> Option<RowRange>
    ensures some { IfSome result (HoldsExactly (rows_of kind) code) }
    ensures within { IfSome result (IsRangeOf (rows_of kind)) }
    ensures state { IfSome result (λ range. is_state kind code ≡ true) }
    ensures none { IfNone result (is_state kind code ≡ false) }
{
    placed(kind, code)
}

/// Next state and action of the first row that fits: its state is `code`, and its value equals the
/// conditions under its care. It looks at the rows of that state alone. Bit 0 of the action says that
/// the timer begins anew, bit 1 that the mode is latched; other bits are 0. Over the named conditions
/// of a step this is the kind's decision, so None exactly where the code is no state of the kind.
#[inline(always)]
pub fn next_of(kind: Kind, code: u16, conditions: u32) -> Option<(u16, u8)>
    ensures first { result ≡ first_fit (rows_of kind) code conditions }
    ensures decides { (pins : ℕ → Bool) (elapsed : Bool) (k : Kept) → conditions ≡ complemented (names kind pins elapsed k) → result ≡ decision kind code (seen kind pins elapsed k) }
{
    first_fit(kind, code, conditions)
}

// The first row that fits, by the kind.
#[inline(always)]
fn first_fit(kind: Kind, code: u16, conditions: u32) -> Option<(u16, u8)>
    ensures { result ≡ first_fit (rows_of kind) code conditions }
{
    match kind {
        Kind::Equivalent | Kind::Antivalent => equivalent::next_of(code, conditions),
        Kind::EmergencyStop | Kind::Espe => stop::next_of(code, conditions),
        Kind::ModeSelector => modes::next_of(code, conditions),
        Kind::TwoHandTwo => two_hand_two::next_of(code, conditions),
        Kind::TwoHandThree => two_hand_three::next_of(code, conditions),
        Kind::GuardMonitoring => guard_monitoring::next_of(code, conditions),
        Kind::GuardLocking => guard_locking::next_of(code, conditions),
        Kind::EnableSwitch => enable_switch::next_of(code, conditions),
        Kind::SafetyRequest => safety_request::next_of(code, conditions),
        Kind::OutControl => out_control::next_of(code, conditions),
        Kind::Edm => edm::next_of(code, conditions),
    }
}

// The rows of a kind.
fn rows(kind: Kind) -> &'static [MaskRow]
    ensures all { result.now ≡ rows_of kind }
    ensures few { length result.now ≤ 89 }
{
    match kind {
        Kind::Equivalent | Kind::Antivalent => &equivalent::EQUIVALENT,
        Kind::EmergencyStop | Kind::Espe => &stop::STOP,
        Kind::ModeSelector => &modes::MODES,
        Kind::TwoHandTwo => &two_hand_two::TWO_HAND_TWO,
        Kind::TwoHandThree => &two_hand_three::TWO_HAND_THREE,
        Kind::GuardMonitoring => &guard_monitoring::GUARD_MONITORING,
        Kind::GuardLocking => &guard_locking::GUARD_LOCKING,
        Kind::EnableSwitch => &enable_switch::ENABLE_SWITCH,
        Kind::SafetyRequest => &safety_request::SAFETY_REQUEST,
        Kind::OutControl => &out_control::OUT_CONTROL,
        Kind::Edm => &edm::EDM,
    }
}

// Where the rows of a state stand, by the test.
#[tactic(auto, unfolding(ps_model::specs::Blocks::block))]
fn placed(kind: Kind, code: u16) -> Option<RowRange>
    ensures some { IfSome result (λ range. is_placed (rows_of kind) code range ≡ true) }
    ensures none { IfNone result (is_state kind code ≡ false) }
{
    match kind {
        Kind::Equivalent | Kind::Antivalent => equivalent::state_rows(code),
        Kind::EmergencyStop | Kind::Espe => stop::state_rows(code),
        Kind::ModeSelector => modes::state_rows(code),
        Kind::TwoHandTwo => two_hand_two::state_rows(code),
        Kind::TwoHandThree => two_hand_three::state_rows(code),
        Kind::GuardMonitoring => guard_monitoring::state_rows(code),
        Kind::GuardLocking => guard_locking::state_rows(code),
        Kind::EnableSwitch => enable_switch::state_rows(code),
        Kind::SafetyRequest => safety_request::state_rows(code),
        Kind::OutControl => out_control::state_rows(code),
        Kind::Edm => edm::state_rows(code),
    }
}
