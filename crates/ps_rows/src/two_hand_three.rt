// The mask rows of SF_TwoHandControlTypeIII.

ghost use Rattle.std.specs.Prelude.{◌≡◌, true, false, IfSome, IfNone};
ghost use Rattle.ps_model.specs.Stored.{is_state};
ghost use Rattle.ps_model.specs.declared.kind.Kind.TheVariants.{TwoHandThree};
ghost use Rattle.ps_rows.specs.Fitting.{first_fit};
ghost use Rattle.ps_rows.specs.Placed.{is_placed};

use crate::mask_row::{ANEW, MaskRow, RowRange, STAYS, first_in, range, row};

const ACTIVATE: u32 = 0x1; // Activate

const B1: u32 = 0x2; // S_Button1

const B2: u32 = 0x4; // S_Button2

const ELAPSED: u32 = 0x8; // the 500 ms have elapsed

// Each row: its state, the conditions that are to be TRUE, those that are to be FALSE, the next state,
// and what happens to the timer and the mode.
pub(crate) static TWO_HAND_THREE: [MaskRow; 66] = [
    // 0000 Idle
    row!(0x0000, ACTIVATE, 0, 0x8001, ANEW),
    row!(0x0000, 0, 0, 0x0000, STAYS),
    // 8001 Init
    row!(0x8001, 0, ACTIVATE, 0x0000, ANEW),
    row!(0x8001, B1 | B2, 0, 0xC003, ANEW),
    row!(0x8001, B1, 0, 0xC001, ANEW),
    row!(0x8001, B2, 0, 0xC002, ANEW),
    row!(0x8001, 0, B1 | B2, 0x8004, ANEW),
    row!(0x8001, 0, 0, 0x8001, STAYS),
    // C001
    row!(0xC001, 0, ACTIVATE, 0x0000, ANEW),
    row!(0xC001, 0, B1 | B2, 0x8001, ANEW),
    row!(0xC001, 0, 0, 0xC001, STAYS),
    // C002
    row!(0xC002, 0, ACTIVATE, 0x0000, ANEW),
    row!(0xC002, 0, B1 | B2, 0x8001, ANEW),
    row!(0xC002, 0, 0, 0xC002, STAYS),
    // C003
    row!(0xC003, 0, ACTIVATE, 0x0000, ANEW),
    row!(0xC003, 0, B1 | B2, 0x8001, ANEW),
    row!(0xC003, 0, 0, 0xC003, STAYS),
    // 8004 Buttons Released
    row!(0x8004, 0, ACTIVATE, 0x0000, ANEW),
    row!(0x8004, B1 | B2, 0, 0x8000, ANEW),
    row!(0x8004, B1, 0, 0x8005, ANEW),
    row!(0x8004, B2, 0, 0x8006, ANEW),
    row!(0x8004, 0, 0, 0x8004, STAYS),
    // 8005
    row!(0x8005, 0, ACTIVATE, 0x0000, ANEW),
    row!(0x8005, B1 | B2 | ELAPSED, 0, 0xC006, ANEW),
    row!(0x8005, B1 | ELAPSED, 0, 0xC004, ANEW),
    row!(0x8005, B2 | ELAPSED, 0, 0xC005, ANEW),
    row!(0x8005, B1 | B2, 0, 0x8000, ANEW),
    row!(0x8005, 0, B1 | B2, 0x8004, ANEW),
    row!(0x8005, 0, B1, 0x8019, ANEW),
    row!(0x8005, 0, 0, 0x8005, STAYS),
    // 8006
    row!(0x8006, 0, ACTIVATE, 0x0000, ANEW),
    row!(0x8006, B1 | B2 | ELAPSED, 0, 0xC006, ANEW),
    row!(0x8006, B1 | ELAPSED, 0, 0xC004, ANEW),
    row!(0x8006, B2 | ELAPSED, 0, 0xC005, ANEW),
    row!(0x8006, B1 | B2, 0, 0x8000, ANEW),
    row!(0x8006, 0, B1 | B2, 0x8004, ANEW),
    row!(0x8006, 0, B2, 0x8019, ANEW),
    row!(0x8006, 0, 0, 0x8006, STAYS),
    // 8000
    row!(0x8000, 0, ACTIVATE, 0x0000, ANEW),
    row!(0x8000, 0, B1 | B2, 0x8004, ANEW),
    row!(0x8000, 0, B1, 0x8008, ANEW),
    row!(0x8000, 0, B2, 0x8007, ANEW),
    row!(0x8000, 0, 0, 0x8000, STAYS),
    // 8007
    row!(0x8007, 0, ACTIVATE, 0x0000, ANEW),
    row!(0x8007, 0, B1 | B2, 0x8004, ANEW),
    row!(0x8007, B2, 0, 0x8009, ANEW),
    row!(0x8007, 0, 0, 0x8007, STAYS),
    // 8008
    row!(0x8008, 0, ACTIVATE, 0x0000, ANEW),
    row!(0x8008, 0, B1 | B2, 0x8004, ANEW),
    row!(0x8008, B1, 0, 0x8009, ANEW),
    row!(0x8008, 0, 0, 0x8008, STAYS),
    // 8009 Locked Off
    row!(0x8009, 0, ACTIVATE, 0x0000, ANEW),
    row!(0x8009, 0, B1 | B2, 0x8004, ANEW),
    row!(0x8009, 0, 0, 0x8009, STAYS),
    // 8019 Locked On
    row!(0x8019, 0, ACTIVATE, 0x0000, ANEW),
    row!(0x8019, 0, B1 | B2, 0x8004, ANEW),
    row!(0x8019, 0, 0, 0x8019, STAYS),
    // C004
    row!(0xC004, 0, ACTIVATE, 0x0000, ANEW),
    row!(0xC004, 0, B1 | B2, 0x8004, ANEW),
    row!(0xC004, 0, 0, 0xC004, STAYS),
    // C005
    row!(0xC005, 0, ACTIVATE, 0x0000, ANEW),
    row!(0xC005, 0, B1 | B2, 0x8004, ANEW),
    row!(0xC005, 0, 0, 0xC005, STAYS),
    // C006
    row!(0xC006, 0, ACTIVATE, 0x0000, ANEW),
    row!(0xC006, 0, B1 | B2, 0x8004, ANEW),
    row!(0xC006, 0, 0, 0xC006, STAYS),
];

// What `$of` makes of the places of a state's rows, and None where the code is no state.
macro_rules! at_state {
    ($code:expr, $of:ident $(, $with:expr)*) => {
        match $code {
            0x0000 => $of(range(0, 2) $(, $with)*),
            0x8001 => $of(range(2, 8) $(, $with)*),
            0xC001 => $of(range(8, 11) $(, $with)*),
            0xC002 => $of(range(11, 14) $(, $with)*),
            0xC003 => $of(range(14, 17) $(, $with)*),
            0x8004 => $of(range(17, 22) $(, $with)*),
            0x8005 => $of(range(22, 30) $(, $with)*),
            0x8006 => $of(range(30, 38) $(, $with)*),
            0x8000 => $of(range(38, 43) $(, $with)*),
            0x8007 => $of(range(43, 47) $(, $with)*),
            0x8008 => $of(range(47, 51) $(, $with)*),
            0x8009 => $of(range(51, 54) $(, $with)*),
            0x8019 => $of(range(54, 57) $(, $with)*),
            0xC004 => $of(range(57, 60) $(, $with)*),
            0xC005 => $of(range(60, 63) $(, $with)*),
            0xC006 => $of(range(63, 66) $(, $with)*),
            _ => None,
        }
    };
}

// Where the rows of a state stand.
#[tactic(auto, unfolding(ps_model::specs::Blocks::block))]
pub(crate) fn state_rows(code: u16) -> Option<RowRange>
    ensures some { IfSome result (λ range. is_placed TWO_HAND_THREE code range ≡ true) }
    ensures none { IfNone result (is_state TwoHandThree code ≡ false) }
{
    at_state!(code, Some)
}

// Next state and action of the first row that fits.
#[tactic(auto, unfolding(ps_model::specs::Blocks::block))]
#[inline(always)]
pub(crate) fn next_of(code: u16, conditions: u32) -> Option<(u16, u8)>
    ensures { result ≡ first_fit TWO_HAND_THREE code conditions }
{
    let rows: &[MaskRow] = &TWO_HAND_THREE;
    at_state!(code, first_in, rows, code, conditions)
}
