// The mask rows of SF_SafetyRequest.

ghost use Rattle.std.specs.Prelude.{◌≡◌, true, false, IfSome, IfNone};
ghost use Rattle.ps_model.specs.Stored.{is_state};
ghost use Rattle.ps_model.specs.declared.kind.Kind.TheVariants.{SafetyRequest};
ghost use Rattle.ps_rows.specs.Fitting.{first_fit};
ghost use Rattle.ps_rows.specs.Placed.{is_placed};

use crate::mask_row::{ANEW, MaskRow, RowRange, STAYS, first_in, range, row};

const ACTIVATE: u32 = 0x1; // Activate

const O: u32 = 0x2; // S_OpMode

const K: u32 = 0x4; // S_Acknowledge

const RESET: u32 = 0x8; // Reset

const LAST_RESET: u32 = 0x10; // Reset of the last step

const ELAPSED: u32 = 0x20; // the MonitoringTime has elapsed

// Each row: its state, the conditions that are to be TRUE, those that are to be FALSE, the next state,
// and what happens to the timer and the mode.
pub(crate) static SAFETY_REQUEST: [MaskRow; 39] = [
    // 0000 Idle
    row!(0x0000, ACTIVATE, 0, 0x8001, ANEW),
    row!(0x0000, 0, 0, 0x0000, STAYS),
    // 8001 Init
    row!(0x8001, 0, ACTIVATE, 0x0000, ANEW),
    row!(0x8001, O, 0, 0x8012, ANEW),
    row!(0x8001, 0, O, 0x8003, ANEW),
    row!(0x8001, 0, 0, 0x8001, STAYS),
    // 8012
    row!(0x8012, 0, ACTIVATE, 0x0000, ANEW),
    row!(0x8012, 0, O, 0x8003, ANEW),
    row!(0x8012, RESET, LAST_RESET, 0x8002, ANEW),
    row!(0x8012, 0, 0, 0x8012, STAYS),
    // 8002
    row!(0x8002, 0, ACTIVATE, 0x0000, ANEW),
    row!(0x8002, 0, O, 0x8003, ANEW),
    row!(0x8002, 0, 0, 0x8002, STAYS),
    // 8003
    row!(0x8003, 0, ACTIVATE, 0x0000, ANEW),
    row!(0x8003, O, 0, 0x8012, ANEW),
    row!(0x8003, K, 0, 0x8000, ANEW),
    row!(0x8003, ELAPSED, 0, 0xC003, ANEW),
    row!(0x8003, 0, 0, 0x8003, STAYS),
    // 8000
    row!(0x8000, 0, ACTIVATE, 0x0000, ANEW),
    row!(0x8000, 0, K, 0xC002, ANEW),
    row!(0x8000, O, 0, 0x8002, ANEW),
    row!(0x8000, 0, 0, 0x8000, STAYS),
    // C002
    row!(0xC002, 0, ACTIVATE, 0x0000, ANEW),
    row!(0xC002, RESET, LAST_RESET, 0x8005, ANEW),
    row!(0xC002, RESET | LAST_RESET, 0, 0xC004, ANEW),
    row!(0xC002, 0, 0, 0xC002, STAYS),
    // C003
    row!(0xC003, 0, ACTIVATE, 0x0000, ANEW),
    row!(0xC003, RESET, LAST_RESET, 0x8005, ANEW),
    row!(0xC003, RESET | LAST_RESET, 0, 0xC005, ANEW),
    row!(0xC003, 0, 0, 0xC003, STAYS),
    // C004
    row!(0xC004, 0, ACTIVATE, 0x0000, ANEW),
    row!(0xC004, 0, RESET, 0xC002, ANEW),
    row!(0xC004, 0, 0, 0xC004, STAYS),
    // C005
    row!(0xC005, 0, ACTIVATE, 0x0000, ANEW),
    row!(0xC005, 0, RESET, 0xC003, ANEW),
    row!(0xC005, 0, 0, 0xC005, STAYS),
    // 8005
    row!(0x8005, 0, ACTIVATE, 0x0000, ANEW),
    row!(0x8005, O, 0, 0x8012, ANEW),
    row!(0x8005, 0, 0, 0x8005, STAYS),
];

// What `$of` makes of the places of a state's rows, and None where the code is no state.
macro_rules! at_state {
    ($code:expr, $of:ident $(, $with:expr)*) => {
        match $code {
            0x0000 => $of(range(0, 2) $(, $with)*),
            0x8001 => $of(range(2, 6) $(, $with)*),
            0x8012 => $of(range(6, 10) $(, $with)*),
            0x8002 => $of(range(10, 13) $(, $with)*),
            0x8003 => $of(range(13, 18) $(, $with)*),
            0x8000 => $of(range(18, 22) $(, $with)*),
            0xC002 => $of(range(22, 26) $(, $with)*),
            0xC003 => $of(range(26, 30) $(, $with)*),
            0xC004 => $of(range(30, 33) $(, $with)*),
            0xC005 => $of(range(33, 36) $(, $with)*),
            0x8005 => $of(range(36, 39) $(, $with)*),
            _ => None,
        }
    };
}

// Where the rows of a state stand.
#[tactic(auto, unfolding(ps_model::specs::Blocks::block))]
pub(crate) fn state_rows(code: u16) -> Option<RowRange>
    ensures some { IfSome result (λ range. is_placed SAFETY_REQUEST code range ≡ true) }
    ensures none { IfNone result (is_state SafetyRequest code ≡ false) }
{
    at_state!(code, Some)
}

// Next state and action of the first row that fits.
#[tactic(auto, unfolding(ps_model::specs::Blocks::block))]
#[inline(always)]
pub(crate) fn next_of(code: u16, conditions: u32) -> Option<(u16, u8)>
    ensures { result ≡ first_fit SAFETY_REQUEST code conditions }
{
    let rows: &[MaskRow] = &SAFETY_REQUEST;
    at_state!(code, first_in, rows, code, conditions)
}
