// The mask rows of SF_OutControl.

ghost use Rattle.std.specs.Prelude.{◌≡◌, true, false, IfSome, IfNone};
ghost use Rattle.ps_model.specs.Stored.{is_state};
ghost use Rattle.ps_model.specs.declared.kind.Kind.TheVariants.{OutControl};
ghost use Rattle.ps_rows.specs.Fitting.{first_fit};
ghost use Rattle.ps_rows.specs.Placed.{is_placed};

use crate::mask_row::{ANEW, MaskRow, RowRange, STAYS, first_in, range, row};

const ACTIVATE: u32 = 0x1; // Activate

const S: u32 = 0x2; // S_SafeControl

const P: u32 = 0x4; // ProcessControl

const STATIC: u32 = 0x8; // StaticControl

const START: u32 = 0x10; // S_StartReset

const AUTO: u32 = 0x20; // S_AutoReset

const RESET: u32 = 0x40; // Reset

const LAST_RESET: u32 = 0x80; // Reset of the last step

const LAST_P: u32 = 0x100; // ProcessControl of the last step

// Each row: its state, the conditions that are to be TRUE, those that are to be FALSE, the next state,
// and what happens to the timer and the mode.
pub(crate) static OUT_CONTROL: [MaskRow; 37] = [
    // 0000 Idle
    row!(0x0000, ACTIVATE, 0, 0x8001, ANEW),
    row!(0x0000, 0, 0, 0x0000, STAYS),
    // 8001 Init
    row!(0x8001, 0, ACTIVATE, 0x0000, ANEW),
    row!(0x8001, 0, S, 0x8002, ANEW),
    row!(0x8001, START, 0, 0x8010, ANEW),
    row!(0x8001, RESET, LAST_RESET, 0x8010, ANEW),
    row!(0x8001, RESET | LAST_RESET, 0, 0xC001, ANEW),
    row!(0x8001, 0, 0, 0x8001, STAYS),
    // 8002
    row!(0x8002, 0, ACTIVATE, 0x0000, ANEW),
    row!(0x8002, S | AUTO, 0, 0x8010, ANEW),
    row!(0x8002, S, 0, 0x8003, ANEW),
    row!(0x8002, 0, 0, 0x8002, STAYS),
    // 8003
    row!(0x8003, 0, ACTIVATE, 0x0000, ANEW),
    row!(0x8003, 0, S, 0x8002, ANEW),
    row!(0x8003, RESET, LAST_RESET, 0x8010, ANEW),
    row!(0x8003, RESET | LAST_RESET, 0, 0xC002, ANEW),
    row!(0x8003, 0, 0, 0x8003, STAYS),
    // 8010
    row!(0x8010, 0, ACTIVATE, 0x0000, ANEW),
    row!(0x8010, 0, S, 0x8002, ANEW),
    row!(0x8010, P | STATIC, 0, 0x8000, ANEW),
    row!(0x8010, P, LAST_P, 0x8000, ANEW),
    row!(0x8010, P, 0, 0xC010, ANEW),
    row!(0x8010, 0, 0, 0x8010, STAYS),
    // 8000
    row!(0x8000, 0, ACTIVATE, 0x0000, ANEW),
    row!(0x8000, 0, S, 0x8002, ANEW),
    row!(0x8000, 0, P, 0x8010, ANEW),
    row!(0x8000, 0, 0, 0x8000, STAYS),
    // C010
    row!(0xC010, 0, ACTIVATE, 0x0000, ANEW),
    row!(0xC010, 0, S, 0x8002, ANEW),
    row!(0xC010, 0, P, 0x8010, ANEW),
    row!(0xC010, 0, 0, 0xC010, STAYS),
    // C001
    row!(0xC001, 0, ACTIVATE, 0x0000, ANEW),
    row!(0xC001, 0, RESET, 0x8001, ANEW),
    row!(0xC001, 0, 0, 0xC001, STAYS),
    // C002
    row!(0xC002, 0, ACTIVATE, 0x0000, ANEW),
    row!(0xC002, 0, RESET, 0x8003, ANEW),
    row!(0xC002, 0, 0, 0xC002, STAYS),
];

// What `$of` makes of the places of a state's rows, and None where the code is no state.
macro_rules! at_state {
    ($code:expr, $of:ident $(, $with:expr)*) => {
        match $code {
            0x0000 => $of(range(0, 2) $(, $with)*),
            0x8001 => $of(range(2, 8) $(, $with)*),
            0x8002 => $of(range(8, 12) $(, $with)*),
            0x8003 => $of(range(12, 17) $(, $with)*),
            0x8010 => $of(range(17, 23) $(, $with)*),
            0x8000 => $of(range(23, 27) $(, $with)*),
            0xC010 => $of(range(27, 31) $(, $with)*),
            0xC001 => $of(range(31, 34) $(, $with)*),
            0xC002 => $of(range(34, 37) $(, $with)*),
            _ => None,
        }
    };
}

// Where the rows of a state stand.
#[tactic(auto, unfolding(ps_model::specs::Blocks::block))]
pub(crate) fn state_rows(code: u16) -> Option<RowRange>
    ensures some { IfSome result (λ range. is_placed OUT_CONTROL code range ≡ true) }
    ensures none { IfNone result (is_state OutControl code ≡ false) }
{
    at_state!(code, Some)
}

// Next state and action of the first row that fits.
#[tactic(auto, unfolding(ps_model::specs::Blocks::block))]
#[inline(always)]
pub(crate) fn next_of(code: u16, conditions: u32) -> Option<(u16, u8)>
    ensures { result ≡ first_fit OUT_CONTROL code conditions }
{
    let rows: &[MaskRow] = &OUT_CONTROL;
    at_state!(code, first_in, rows, code, conditions)
}
