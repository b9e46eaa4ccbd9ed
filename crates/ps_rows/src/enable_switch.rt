// The mask rows of SF_EnableSwitch.

ghost use Rattle.std.specs.Prelude.{◌≡◌, true, false, IfSome, IfNone};
ghost use Rattle.ps_model.specs.Stored.{is_state};
ghost use Rattle.ps_model.specs.declared.kind.Kind.TheVariants.{EnableSwitch};
ghost use Rattle.ps_rows.specs.Fitting.{first_fit};
ghost use Rattle.ps_rows.specs.Placed.{is_placed};

use crate::mask_row::{ANEW, MaskRow, RowRange, STAYS, first_in, range, row};

const ACTIVATE: u32 = 0x1; // Activate

const ACTIVE: u32 = 0x2; // S_SafetyActive

const CH1: u32 = 0x4; // S_EnableSwitchCh1

const CH2: u32 = 0x8; // S_EnableSwitchCh2

const AUTO: u32 = 0x10; // S_AutoReset

const RESET: u32 = 0x20; // Reset

const LAST_RESET: u32 = 0x40; // Reset of the last step

// Each row: its state, the conditions that are to be TRUE, those that are to be FALSE, the next state,
// and what happens to the timer and the mode.
pub(crate) static ENABLE_SWITCH: [MaskRow; 58] = [
    // 0000 Idle
    row!(0x0000, ACTIVATE, 0, 0x8004, ANEW),
    row!(0x0000, 0, 0, 0x0000, STAYS),
    // 8004
    row!(0x8004, 0, ACTIVATE, 0x0000, ANEW),
    row!(0x8004, ACTIVE, 0, 0x8005, ANEW),
    row!(0x8004, 0, 0, 0x8004, STAYS),
    // 8005
    row!(0x8005, 0, ACTIVATE, 0x0000, ANEW),
    row!(0x8005, 0, ACTIVE, 0x8004, ANEW),
    row!(0x8005, CH2, CH1, 0x8006, ANEW),
    row!(0x8005, 0, 0, 0xC010, ANEW),
    // 8006
    row!(0x8006, 0, ACTIVATE, 0x0000, ANEW),
    row!(0x8006, 0, ACTIVE, 0x8004, ANEW),
    row!(0x8006, CH1 | CH2, 0, 0x8000, ANEW),
    row!(0x8006, 0, CH2, 0x8007, ANEW),
    row!(0x8006, 0, 0, 0x8006, STAYS),
    // 8000
    row!(0x8000, 0, ACTIVATE, 0x0000, ANEW),
    row!(0x8000, 0, ACTIVE, 0x8004, ANEW),
    row!(0x8000, CH2, CH1, 0x8006, ANEW),
    row!(0x8000, 0, CH2, 0x8007, ANEW),
    row!(0x8000, 0, 0, 0x8000, STAYS),
    // 8007
    row!(0x8007, 0, ACTIVATE, 0x0000, ANEW),
    row!(0x8007, 0, ACTIVE, 0x8004, ANEW),
    row!(0x8007, CH2, CH1, 0x8006, ANEW),
    row!(0x8007, CH1 | CH2, 0, 0xC030, ANEW),
    row!(0x8007, 0, 0, 0x8007, STAYS),
    // C010
    row!(0xC010, 0, ACTIVATE, 0x0000, ANEW),
    row!(0xC010, 0, ACTIVE, 0x8004, ANEW),
    row!(0xC010, CH2, CH1, 0xC020, ANEW),
    row!(0xC010, 0, 0, 0xC010, STAYS),
    // C020
    row!(0xC020, 0, ACTIVATE, 0x0000, ANEW),
    row!(0xC020, 0, ACTIVE, 0x8004, ANEW),
    row!(0xC020, CH1, 0, 0xC010, ANEW),
    row!(0xC020, 0, CH2, 0xC010, ANEW),
    row!(0xC020, RESET | LAST_RESET, 0, 0xC001, ANEW),
    row!(0xC020, AUTO, 0, 0x8006, ANEW),
    row!(0xC020, RESET, LAST_RESET, 0x8006, ANEW),
    row!(0xC020, 0, 0, 0xC020, STAYS),
    // C030
    row!(0xC030, 0, ACTIVATE, 0x0000, ANEW),
    row!(0xC030, 0, ACTIVE, 0x8004, ANEW),
    row!(0xC030, 0, CH1, 0xC040, ANEW),
    row!(0xC030, 0, CH2, 0xC040, ANEW),
    row!(0xC030, 0, 0, 0xC030, STAYS),
    // C040
    row!(0xC040, 0, ACTIVATE, 0x0000, ANEW),
    row!(0xC040, 0, ACTIVE, 0x8004, ANEW),
    row!(0xC040, CH1 | CH2, 0, 0xC030, ANEW),
    row!(0xC040, RESET | LAST_RESET, 0, 0xC002, ANEW),
    row!(0xC040, CH2 | AUTO, CH1, 0x8006, ANEW),
    row!(0xC040, CH2 | RESET, CH1 | LAST_RESET, 0x8006, ANEW),
    row!(0xC040, AUTO, 0, 0x8007, ANEW),
    row!(0xC040, RESET, LAST_RESET, 0x8007, ANEW),
    row!(0xC040, 0, 0, 0xC040, STAYS),
    // C001
    row!(0xC001, 0, ACTIVATE, 0x0000, ANEW),
    row!(0xC001, 0, ACTIVE, 0x8004, ANEW),
    row!(0xC001, 0, RESET, 0xC020, ANEW),
    row!(0xC001, 0, 0, 0xC001, STAYS),
    // C002
    row!(0xC002, 0, ACTIVATE, 0x0000, ANEW),
    row!(0xC002, 0, ACTIVE, 0x8004, ANEW),
    row!(0xC002, 0, RESET, 0xC040, ANEW),
    row!(0xC002, 0, 0, 0xC002, STAYS),
];

// What `$of` makes of the places of a state's rows, and None where the code is no state.
macro_rules! at_state {
    ($code:expr, $of:ident $(, $with:expr)*) => {
        match $code {
            0x0000 => $of(range(0, 2) $(, $with)*),
            0x8004 => $of(range(2, 5) $(, $with)*),
            0x8005 => $of(range(5, 9) $(, $with)*),
            0x8006 => $of(range(9, 14) $(, $with)*),
            0x8000 => $of(range(14, 19) $(, $with)*),
            0x8007 => $of(range(19, 24) $(, $with)*),
            0xC010 => $of(range(24, 28) $(, $with)*),
            0xC020 => $of(range(28, 36) $(, $with)*),
            0xC030 => $of(range(36, 41) $(, $with)*),
            0xC040 => $of(range(41, 50) $(, $with)*),
            0xC001 => $of(range(50, 54) $(, $with)*),
            0xC002 => $of(range(54, 58) $(, $with)*),
            _ => None,
        }
    };
}

// Where the rows of a state stand.
#[tactic(auto, unfolding(ps_model::specs::Blocks::block))]
pub(crate) fn state_rows(code: u16) -> Option<RowRange>
    ensures some { IfSome result (λ range. is_placed ENABLE_SWITCH code range ≡ true) }
    ensures none { IfNone result (is_state EnableSwitch code ≡ false) }
{
    at_state!(code, Some)
}

// Next state and action of the first row that fits.
#[tactic(auto, unfolding(ps_model::specs::Blocks::block))]
#[inline(always)]
pub(crate) fn next_of(code: u16, conditions: u32) -> Option<(u16, u8)>
    ensures { result ≡ first_fit ENABLE_SWITCH code conditions }
{
    let rows: &[MaskRow] = &ENABLE_SWITCH;
    at_state!(code, first_in, rows, code, conditions)
}
