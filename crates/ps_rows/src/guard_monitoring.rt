// The mask rows of SF_GuardMonitoring.

ghost use Rattle.std.specs.Prelude.{◌≡◌, true, false, IfSome, IfNone};
ghost use Rattle.ps_model.specs.Stored.{is_state};
ghost use Rattle.ps_model.specs.declared.kind.Kind.TheVariants.{GuardMonitoring};
ghost use Rattle.ps_rows.specs.Fitting.{first_fit};
ghost use Rattle.ps_rows.specs.Placed.{is_placed};

use crate::mask_row::{ANEW, MaskRow, RowRange, STAYS, first_in, range, row};

const ACTIVATE: u32 = 0x1; // Activate

const G1: u32 = 0x2; // S_GuardSwitch1

const G2: u32 = 0x4; // S_GuardSwitch2

const START: u32 = 0x8; // S_StartReset

const AUTO: u32 = 0x10; // S_AutoReset

const RESET: u32 = 0x20; // Reset

const LAST_RESET: u32 = 0x40; // Reset of the last step

const ELAPSED: u32 = 0x80; // the DiscrepancyTime has elapsed

// Each row: its state, the conditions that are to be TRUE, those that are to be FALSE, the next state,
// and what happens to the timer and the mode.
pub(crate) static GUARD_MONITORING: [MaskRow; 50] = [
    // 0000 Idle
    row!(0x0000, ACTIVATE, 0, 0x8001, ANEW),
    row!(0x0000, 0, 0, 0x0000, STAYS),
    // 8001 Init
    row!(0x8001, 0, ACTIVATE, 0x0000, ANEW),
    row!(0x8001, G1 | G2 | START, 0, 0x8000, ANEW),
    row!(0x8001, G1 | G2, 0, 0x8003, ANEW),
    row!(0x8001, 0, 0, 0x8002, ANEW),
    // 8002 Open Guard Request
    row!(0x8002, 0, ACTIVATE, 0x0000, ANEW),
    row!(0x8002, 0, G1 | G2, 0x8012, ANEW),
    row!(0x8002, 0, 0, 0x8002, STAYS),
    // 8012 Guard Opened
    row!(0x8012, 0, ACTIVATE, 0x0000, ANEW),
    row!(0x8012, G1 | G2, 0, 0x8005, ANEW),
    row!(0x8012, G1, 0, 0x8004, ANEW),
    row!(0x8012, G2, 0, 0x8014, ANEW),
    row!(0x8012, 0, 0, 0x8012, STAYS),
    // 8004
    row!(0x8004, 0, ACTIVATE, 0x0000, ANEW),
    row!(0x8004, ELAPSED, 0, 0xC011, ANEW),
    row!(0x8004, G1 | G2, 0, 0x8005, ANEW),
    row!(0x8004, 0, G1 | G2, 0x8012, ANEW),
    row!(0x8004, 0, G1, 0x8002, ANEW),
    row!(0x8004, 0, 0, 0x8004, STAYS),
    // 8014
    row!(0x8014, 0, ACTIVATE, 0x0000, ANEW),
    row!(0x8014, ELAPSED, 0, 0xC012, ANEW),
    row!(0x8014, G1 | G2, 0, 0x8005, ANEW),
    row!(0x8014, 0, G1 | G2, 0x8012, ANEW),
    row!(0x8014, 0, G2, 0x8002, ANEW),
    row!(0x8014, 0, 0, 0x8014, STAYS),
    // 8005 Guard Closed
    row!(0x8005, 0, ACTIVATE, 0x0000, ANEW),
    row!(0x8005, 0, G1, 0x8002, ANEW),
    row!(0x8005, 0, G2, 0x8002, ANEW),
    row!(0x8005, AUTO, 0, 0x8000, ANEW),
    row!(0x8005, 0, 0, 0x8003, ANEW),
    // 8003 Wait for Reset
    row!(0x8003, 0, ACTIVATE, 0x0000, ANEW),
    row!(0x8003, 0, G1, 0x8002, ANEW),
    row!(0x8003, 0, G2, 0x8002, ANEW),
    row!(0x8003, RESET, LAST_RESET, 0x8000, ANEW),
    row!(0x8003, RESET | LAST_RESET, 0, 0xC001, ANEW),
    row!(0x8003, 0, 0, 0x8003, STAYS),
    // 8000
    row!(0x8000, 0, ACTIVATE, 0x0000, ANEW),
    row!(0x8000, 0, G1, 0x8002, ANEW),
    row!(0x8000, 0, G2, 0x8002, ANEW),
    row!(0x8000, 0, 0, 0x8000, STAYS),
    // C001
    row!(0xC001, 0, ACTIVATE, 0x0000, ANEW),
    row!(0xC001, 0, RESET, 0x8003, ANEW),
    row!(0xC001, 0, 0, 0xC001, STAYS),
    // C011
    row!(0xC011, 0, ACTIVATE, 0x0000, ANEW),
    row!(0xC011, 0, G1 | G2, 0x8012, ANEW),
    row!(0xC011, 0, 0, 0xC011, STAYS),
    // C012
    row!(0xC012, 0, ACTIVATE, 0x0000, ANEW),
    row!(0xC012, 0, G1 | G2, 0x8012, ANEW),
    row!(0xC012, 0, 0, 0xC012, STAYS),
];

// What `$of` makes of the places of a state's rows, and None where the code is no state.
macro_rules! at_state {
    ($code:expr, $of:ident $(, $with:expr)*) => {
        match $code {
            0x0000 => $of(range(0, 2) $(, $with)*),
            0x8001 => $of(range(2, 6) $(, $with)*),
            0x8002 => $of(range(6, 9) $(, $with)*),
            0x8012 => $of(range(9, 14) $(, $with)*),
            0x8004 => $of(range(14, 20) $(, $with)*),
            0x8014 => $of(range(20, 26) $(, $with)*),
            0x8005 => $of(range(26, 31) $(, $with)*),
            0x8003 => $of(range(31, 37) $(, $with)*),
            0x8000 => $of(range(37, 41) $(, $with)*),
            0xC001 => $of(range(41, 44) $(, $with)*),
            0xC011 => $of(range(44, 47) $(, $with)*),
            0xC012 => $of(range(47, 50) $(, $with)*),
            _ => None,
        }
    };
}

// Where the rows of a state stand.
#[tactic(auto, unfolding(ps_model::specs::Blocks::block))]
pub(crate) fn state_rows(code: u16) -> Option<RowRange>
    ensures some { IfSome result (λ range. is_placed GUARD_MONITORING code range ≡ true) }
    ensures none { IfNone result (is_state GuardMonitoring code ≡ false) }
{
    at_state!(code, Some)
}

// Next state and action of the first row that fits.
#[tactic(auto, unfolding(ps_model::specs::Blocks::block))]
#[inline(always)]
pub(crate) fn next_of(code: u16, conditions: u32) -> Option<(u16, u8)>
    ensures { result ≡ first_fit GUARD_MONITORING code conditions }
{
    let rows: &[MaskRow] = &GUARD_MONITORING;
    at_state!(code, first_in, rows, code, conditions)
}
