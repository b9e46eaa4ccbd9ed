// The mask rows of SF_Equivalent, and SF_Antivalent with B = not S_ChannelNO.

ghost use Rattle.std.specs.Prelude.{◌≡◌, true, false, IfSome, IfNone};
ghost use Rattle.ps_model.specs.Stored.{is_state};
ghost use Rattle.ps_model.specs.declared.kind.Kind.TheVariants.{Equivalent};
ghost use Rattle.ps_rows.specs.Fitting.{first_fit};
ghost use Rattle.ps_rows.specs.Placed.{is_placed};

use crate::mask_row::{ANEW, MaskRow, RowRange, STAYS, first_in, range, row};

const ACTIVATE: u32 = 0x1; // Activate

const A: u32 = 0x2; // S_ChannelA; of SF_Antivalent S_ChannelNC

const B: u32 = 0x4; // S_ChannelB; of SF_Antivalent not S_ChannelNO

const ELAPSED: u32 = 0x8; // the DiscrepancyTime has elapsed

// Each row: its state, the conditions that are to be TRUE, those that are to be FALSE, the next state,
// and what happens to the timer and the mode.
pub(crate) static EQUIVALENT: [MaskRow; 35] = [
    // 0000 Idle
    row!(0x0000, ACTIVATE, 0, 0x8001, ANEW),
    row!(0x0000, 0, 0, 0x0000, STAYS),
    // 8001 Init
    row!(0x8001, 0, ACTIVATE, 0x0000, ANEW),
    row!(0x8001, A | B, 0, 0x8000, ANEW),
    row!(0x8001, A, 0, 0x8004, ANEW),
    row!(0x8001, B, 0, 0x8014, ANEW),
    row!(0x8001, 0, 0, 0x8001, STAYS),
    // 8004 Wait for Channel B
    row!(0x8004, 0, ACTIVATE, 0x0000, ANEW),
    row!(0x8004, ELAPSED, 0, 0xC001, ANEW),
    row!(0x8004, 0, A, 0x8001, ANEW),
    row!(0x8004, B, 0, 0x8000, ANEW),
    row!(0x8004, 0, 0, 0x8004, STAYS),
    // 8014 Wait for Channel A
    row!(0x8014, 0, ACTIVATE, 0x0000, ANEW),
    row!(0x8014, ELAPSED, 0, 0xC002, ANEW),
    row!(0x8014, 0, B, 0x8001, ANEW),
    row!(0x8014, A, 0, 0x8000, ANEW),
    row!(0x8014, 0, 0, 0x8014, STAYS),
    // 8000
    row!(0x8000, 0, ACTIVATE, 0x0000, ANEW),
    row!(0x8000, 0, A | B, 0x8001, ANEW),
    row!(0x8000, 0, A, 0x8005, ANEW),
    row!(0x8000, 0, B, 0x8005, ANEW),
    row!(0x8000, 0, 0, 0x8000, STAYS),
    // 8005 From Active Wait
    row!(0x8005, 0, ACTIVATE, 0x0000, ANEW),
    row!(0x8005, ELAPSED, 0, 0xC003, ANEW),
    row!(0x8005, 0, A | B, 0x8001, ANEW),
    row!(0x8005, 0, 0, 0x8005, STAYS),
    // C001
    row!(0xC001, 0, ACTIVATE, 0x0000, ANEW),
    row!(0xC001, 0, A | B, 0x8001, ANEW),
    row!(0xC001, 0, 0, 0xC001, STAYS),
    // C002
    row!(0xC002, 0, ACTIVATE, 0x0000, ANEW),
    row!(0xC002, 0, A | B, 0x8001, ANEW),
    row!(0xC002, 0, 0, 0xC002, STAYS),
    // C003
    row!(0xC003, 0, ACTIVATE, 0x0000, ANEW),
    row!(0xC003, 0, A | B, 0x8001, ANEW),
    row!(0xC003, 0, 0, 0xC003, STAYS),
];

// What `$of` makes of the places of a state's rows, and None where the code is no state.
macro_rules! at_state {
    ($code:expr, $of:ident $(, $with:expr)*) => {
        match $code {
            0x0000 => $of(range(0, 2) $(, $with)*),
            0x8001 => $of(range(2, 7) $(, $with)*),
            0x8004 => $of(range(7, 12) $(, $with)*),
            0x8014 => $of(range(12, 17) $(, $with)*),
            0x8000 => $of(range(17, 22) $(, $with)*),
            0x8005 => $of(range(22, 26) $(, $with)*),
            0xC001 => $of(range(26, 29) $(, $with)*),
            0xC002 => $of(range(29, 32) $(, $with)*),
            0xC003 => $of(range(32, 35) $(, $with)*),
            _ => None,
        }
    };
}

// Where the rows of a state stand.
#[tactic(auto, unfolding(ps_model::specs::Blocks::block))]
pub(crate) fn state_rows(code: u16) -> Option<RowRange>
    ensures some { IfSome result (λ range. is_placed EQUIVALENT code range ≡ true) }
    ensures none { IfNone result (is_state Equivalent code ≡ false) }
{
    at_state!(code, Some)
}

// Next state and action of the first row that fits.
#[tactic(auto, unfolding(ps_model::specs::Blocks::block))]
#[inline(always)]
pub(crate) fn next_of(code: u16, conditions: u32) -> Option<(u16, u8)>
    ensures { result ≡ first_fit EQUIVALENT code conditions }
{
    let rows: &[MaskRow] = &EQUIVALENT;
    at_state!(code, first_in, rows, code, conditions)
}
