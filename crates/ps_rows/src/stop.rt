// The mask rows of SF_EmergencyStop and of SF_ESPE.

ghost use Rattle.std.specs.Prelude.{◌≡◌, true, false, IfSome, IfNone};
ghost use Rattle.ps_model.specs.Stored.{is_state};
ghost use Rattle.ps_model.specs.declared.kind.Kind.TheVariants.{EmergencyStop};
ghost use Rattle.ps_rows.specs.Fitting.{first_fit};
ghost use Rattle.ps_rows.specs.Placed.{is_placed};

use crate::mask_row::{ANEW, MaskRow, RowRange, STAYS, first_in, range, row};

const ACTIVATE: u32 = 0x1; // Activate

const INPUT: u32 = 0x2; // the sensor input: S_EStopIn or S_ESPE_In

const START: u32 = 0x4; // S_StartReset

const AUTO: u32 = 0x8; // S_AutoReset

const RESET: u32 = 0x10; // Reset

const LAST_RESET: u32 = 0x20; // Reset of the last step

// Each row: its state, the conditions that are to be TRUE, those that are to be FALSE, the next state,
// and what happens to the timer and the mode.
pub(crate) static STOP: [MaskRow; 32] = [
    // 0000 Idle
    row!(0x0000, ACTIVATE, 0, 0x8001, ANEW),
    row!(0x0000, 0, 0, 0x0000, STAYS),
    // 8001 Init
    row!(0x8001, 0, ACTIVATE, 0x0000, ANEW),
    row!(0x8001, 0, START, 0x8002, ANEW),
    row!(0x8001, INPUT, 0, 0x8000, ANEW),
    row!(0x8001, 0, 0, 0x8001, STAYS),
    // 8002 Wait for In 1
    row!(0x8002, 0, ACTIVATE, 0x0000, ANEW),
    row!(0x8002, RESET, 0, 0xC001, ANEW),
    row!(0x8002, INPUT, 0, 0x8003, ANEW),
    row!(0x8002, 0, 0, 0x8002, STAYS),
    // 8003 Wait for Reset 1
    row!(0x8003, 0, ACTIVATE, 0x0000, ANEW),
    row!(0x8003, 0, INPUT, 0x8002, ANEW),
    row!(0x8003, RESET, LAST_RESET, 0x8000, ANEW),
    row!(0x8003, 0, 0, 0x8003, STAYS),
    // 8000
    row!(0x8000, 0, ACTIVATE, 0x0000, ANEW),
    row!(0x8000, 0, INPUT, 0x8004, ANEW),
    row!(0x8000, 0, 0, 0x8000, STAYS),
    // 8004 Wait for In 2
    row!(0x8004, 0, ACTIVATE, 0x0000, ANEW),
    row!(0x8004, RESET, 0, 0xC002, ANEW),
    row!(0x8004, INPUT, 0, 0x8005, ANEW),
    row!(0x8004, 0, 0, 0x8004, STAYS),
    // 8005 Wait for Reset 2
    row!(0x8005, 0, ACTIVATE, 0x0000, ANEW),
    row!(0x8005, 0, INPUT, 0x8004, ANEW),
    row!(0x8005, AUTO, 0, 0x8000, ANEW),
    row!(0x8005, RESET, LAST_RESET, 0x8000, ANEW),
    row!(0x8005, 0, 0, 0x8005, STAYS),
    // C001
    row!(0xC001, 0, ACTIVATE, 0x0000, ANEW),
    row!(0xC001, 0, RESET, 0x8002, ANEW),
    row!(0xC001, 0, 0, 0xC001, STAYS),
    // C002
    row!(0xC002, 0, ACTIVATE, 0x0000, ANEW),
    row!(0xC002, 0, RESET, 0x8004, ANEW),
    row!(0xC002, 0, 0, 0xC002, STAYS),
];

// What `$of` makes of the places of a state's rows, and None where the code is no state.
macro_rules! at_state {
    ($code:expr, $of:ident $(, $with:expr)*) => {
        match $code {
            0x0000 => $of(range(0, 2) $(, $with)*),
            0x8001 => $of(range(2, 6) $(, $with)*),
            0x8002 => $of(range(6, 10) $(, $with)*),
            0x8003 => $of(range(10, 14) $(, $with)*),
            0x8000 => $of(range(14, 17) $(, $with)*),
            0x8004 => $of(range(17, 21) $(, $with)*),
            0x8005 => $of(range(21, 26) $(, $with)*),
            0xC001 => $of(range(26, 29) $(, $with)*),
            0xC002 => $of(range(29, 32) $(, $with)*),
            _ => None,
        }
    };
}

// Where the rows of a state stand.
#[tactic(auto, unfolding(ps_model::specs::Blocks::block))]
pub(crate) fn state_rows(code: u16) -> Option<RowRange>
    ensures some { IfSome result (λ range. is_placed STOP code range ≡ true) }
    ensures none { IfNone result (is_state EmergencyStop code ≡ false) }
{
    at_state!(code, Some)
}

// Next state and action of the first row that fits.
#[tactic(auto, unfolding(ps_model::specs::Blocks::block))]
#[inline(always)]
pub(crate) fn next_of(code: u16, conditions: u32) -> Option<(u16, u8)>
    ensures { result ≡ first_fit STOP code conditions }
{
    let rows: &[MaskRow] = &STOP;
    at_state!(code, first_in, rows, code, conditions)
}
