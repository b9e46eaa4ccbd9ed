// The mask rows of SF_GuardLocking.

ghost use Rattle.std.specs.Prelude.{◌≡◌, true, false, IfSome, IfNone};
ghost use Rattle.ps_model.specs.Stored.{is_state};
ghost use Rattle.ps_model.specs.declared.kind.Kind.TheVariants.{GuardLocking};
ghost use Rattle.ps_rows.specs.Fitting.{first_fit};
ghost use Rattle.ps_rows.specs.Placed.{is_placed};

use crate::mask_row::{ANEW, MaskRow, RowRange, STAYS, first_in, range, row};

const ACTIVATE: u32 = 0x1; // Activate

const M: u32 = 0x2; // S_GuardMonitoring

const S: u32 = 0x4; // S_SafetyActive

const L: u32 = 0x8; // S_GuardLock

const U: u32 = 0x10; // UnlockRequest

const START: u32 = 0x20; // S_StartReset

const AUTO: u32 = 0x40; // S_AutoReset

const RESET: u32 = 0x80; // Reset

const LAST_RESET: u32 = 0x100; // Reset of the last step

// Each row: its state, the conditions that are to be TRUE, those that are to be FALSE, the next state,
// and what happens to the timer and the mode.
pub(crate) static GUARD_LOCKING: [MaskRow; 52] = [
    // 0000 Idle
    row!(0x0000, ACTIVATE, 0, 0x8001, ANEW),
    row!(0x0000, 0, 0, 0x0000, STAYS),
    // 8001 Init
    row!(0x8001, 0, ACTIVATE, 0x0000, ANEW),
    row!(0x8001, M | L | START, 0, 0x8000, ANEW),
    row!(0x8001, M | L, 0, 0x8003, ANEW),
    row!(0x8001, 0, 0, 0x8014, ANEW),
    // 8000
    row!(0x8000, 0, ACTIVATE, 0x0000, ANEW),
    row!(0x8000, 0, M, 0xC004, ANEW),
    row!(0x8000, 0, L, 0xC004, ANEW),
    row!(0x8000, S | U, 0, 0x8013, ANEW),
    row!(0x8000, 0, 0, 0x8000, STAYS),
    // 8003
    row!(0x8003, 0, ACTIVATE, 0x0000, ANEW),
    row!(0x8003, 0, M, 0xC004, ANEW),
    row!(0x8003, 0, L, 0xC004, ANEW),
    row!(0x8003, S | U, 0, 0x8013, ANEW),
    row!(0x8003, RESET, LAST_RESET, 0x8000, ANEW),
    row!(0x8003, RESET | LAST_RESET, 0, 0xC002, ANEW),
    row!(0x8003, 0, 0, 0x8003, STAYS),
    // 8013
    row!(0x8013, 0, ACTIVATE, 0x0000, ANEW),
    row!(0x8013, 0, S, 0x8014, ANEW),
    row!(0x8013, 0, M, 0x8012, ANEW),
    row!(0x8013, 0, U, 0x8011, ANEW),
    row!(0x8013, 0, 0, 0x8013, STAYS),
    // 8012
    row!(0x8012, 0, ACTIVATE, 0x0000, ANEW),
    row!(0x8012, 0, S, 0x8014, ANEW),
    row!(0x8012, M, 0, 0x8013, ANEW),
    row!(0x8012, 0, 0, 0x8012, STAYS),
    // 8011
    row!(0x8011, 0, ACTIVATE, 0x0000, ANEW),
    row!(0x8011, 0, M, 0x8014, ANEW),
    row!(0x8011, S | U, 0, 0x8013, ANEW),
    row!(0x8011, L | AUTO, 0, 0x8000, ANEW),
    row!(0x8011, L | RESET, LAST_RESET, 0x8000, ANEW),
    row!(0x8011, RESET | LAST_RESET, 0, 0xC003, ANEW),
    row!(0x8011, 0, 0, 0x8011, STAYS),
    // 8014
    row!(0x8014, 0, ACTIVATE, 0x0000, ANEW),
    row!(0x8014, M | L, 0, 0x8003, ANEW),
    row!(0x8014, M | S | RESET, LAST_RESET, 0x8013, ANEW),
    row!(0x8014, S | RESET, LAST_RESET, 0x8012, ANEW),
    row!(0x8014, RESET | LAST_RESET, 0, 0xC001, ANEW),
    row!(0x8014, 0, 0, 0x8014, STAYS),
    // C001
    row!(0xC001, 0, ACTIVATE, 0x0000, ANEW),
    row!(0xC001, 0, RESET, 0x8014, ANEW),
    row!(0xC001, 0, 0, 0xC001, STAYS),
    // C002
    row!(0xC002, 0, ACTIVATE, 0x0000, ANEW),
    row!(0xC002, 0, RESET, 0x8003, ANEW),
    row!(0xC002, 0, 0, 0xC002, STAYS),
    // C003
    row!(0xC003, 0, ACTIVATE, 0x0000, ANEW),
    row!(0xC003, 0, RESET, 0x8011, ANEW),
    row!(0xC003, 0, 0, 0xC003, STAYS),
    // C004
    row!(0xC004, 0, ACTIVATE, 0x0000, ANEW),
    row!(0xC004, RESET, LAST_RESET, 0x8014, ANEW),
    row!(0xC004, 0, 0, 0xC004, STAYS),
];

// What `$of` makes of the places of a state's rows, and None where the code is no state.
macro_rules! at_state {
    ($code:expr, $of:ident $(, $with:expr)*) => {
        match $code {
            0x0000 => $of(range(0, 2) $(, $with)*),
            0x8001 => $of(range(2, 6) $(, $with)*),
            0x8000 => $of(range(6, 11) $(, $with)*),
            0x8003 => $of(range(11, 18) $(, $with)*),
            0x8013 => $of(range(18, 23) $(, $with)*),
            0x8012 => $of(range(23, 27) $(, $with)*),
            0x8011 => $of(range(27, 34) $(, $with)*),
            0x8014 => $of(range(34, 40) $(, $with)*),
            0xC001 => $of(range(40, 43) $(, $with)*),
            0xC002 => $of(range(43, 46) $(, $with)*),
            0xC003 => $of(range(46, 49) $(, $with)*),
            0xC004 => $of(range(49, 52) $(, $with)*),
            _ => None,
        }
    };
}

// Where the rows of a state stand.
#[tactic(auto, unfolding(ps_model::specs::Blocks::block))]
pub(crate) fn state_rows(code: u16) -> Option<RowRange>
    ensures some { IfSome result (λ range. is_placed GUARD_LOCKING code range ≡ true) }
    ensures none { IfNone result (is_state GuardLocking code ≡ false) }
{
    at_state!(code, Some)
}

// Next state and action of the first row that fits.
#[tactic(auto, unfolding(ps_model::specs::Blocks::block))]
#[inline(always)]
pub(crate) fn next_of(code: u16, conditions: u32) -> Option<(u16, u8)>
    ensures { result ≡ first_fit GUARD_LOCKING code conditions }
{
    let rows: &[MaskRow] = &GUARD_LOCKING;
    at_state!(code, first_in, rows, code, conditions)
}
