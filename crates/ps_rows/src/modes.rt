// The mask rows of SF_ModeSelector.

ghost use Rattle.std.specs.Prelude.{◌≡◌, true, false, IfSome, IfNone};
ghost use Rattle.ps_model.specs.Stored.{is_state};
ghost use Rattle.ps_model.specs.declared.kind.Kind.TheVariants.{ModeSelector};
ghost use Rattle.ps_rows.specs.Fitting.{first_fit};
ghost use Rattle.ps_rows.specs.Placed.{is_placed};

use crate::mask_row::{ANEW, LATCH, MaskRow, RowRange, STAYS, first_in, range, row};

const ACTIVATE: u32 = 0x1; // Activate

const NONE: u32 = 0x2; // no mode is TRUE

const ONE: u32 = 0x4; // one mode is TRUE

const EXACT: u32 = 0x8; // the TRUE modes are exactly the latched one

const UNLOCK: u32 = 0x10; // S_Unlock

const SET: u32 = 0x20; // AutoSetMode, or S_SetMode rose

const RESET: u32 = 0x40; // Reset

const LAST_RESET: u32 = 0x80; // Reset of the last step

const ELAPSED: u32 = 0x100; // the ModeMonitorTime has elapsed

// Each row: its state, the conditions that are to be TRUE, those that are to be FALSE, the next state,
// and what happens to the timer and the mode.
pub(crate) static MODES: [MaskRow; 30] = [
    // 0000 Idle
    row!(0x0000, ACTIVATE, 0, 0x8005, ANEW),
    row!(0x0000, 0, 0, 0x0000, STAYS),
    // 8005 ModeChanged
    row!(0x8005, 0, ACTIVATE, 0x0000, ANEW),
    row!(0x8005, 0, NONE | ONE, 0xC001, ANEW),
    row!(0x8005, NONE | ELAPSED, 0, 0xC002, ANEW),
    row!(0x8005, ONE | SET, NONE, 0x8000, ANEW | LATCH),
    row!(0x8005, 0, NONE, 0x8005, ANEW),
    row!(0x8005, 0, 0, 0x8005, STAYS),
    // 8000
    row!(0x8000, 0, ACTIVATE, 0x0000, ANEW),
    row!(0x8000, 0, EXACT, 0x8005, ANEW),
    row!(0x8000, 0, UNLOCK, 0x8004, ANEW),
    row!(0x8000, 0, 0, 0x8000, STAYS),
    // 8004 ModeLocked
    row!(0x8004, 0, ACTIVATE, 0x0000, ANEW),
    row!(0x8004, UNLOCK, EXACT, 0x8005, ANEW),
    row!(0x8004, UNLOCK, 0, 0x8000, ANEW),
    row!(0x8004, 0, 0, 0x8004, STAYS),
    // C001
    row!(0xC001, 0, ACTIVATE, 0x0000, ANEW),
    row!(0xC001, RESET, LAST_RESET, 0x8005, ANEW),
    row!(0xC001, RESET | LAST_RESET, 0, 0xC003, ANEW),
    row!(0xC001, 0, 0, 0xC001, STAYS),
    // C002
    row!(0xC002, 0, ACTIVATE, 0x0000, ANEW),
    row!(0xC002, RESET, LAST_RESET, 0x8005, ANEW),
    row!(0xC002, RESET | LAST_RESET, 0, 0xC004, ANEW),
    row!(0xC002, 0, 0, 0xC002, STAYS),
    // C003
    row!(0xC003, 0, ACTIVATE, 0x0000, ANEW),
    row!(0xC003, 0, RESET, 0xC001, ANEW),
    row!(0xC003, 0, 0, 0xC003, STAYS),
    // C004
    row!(0xC004, 0, ACTIVATE, 0x0000, ANEW),
    row!(0xC004, 0, RESET, 0xC002, ANEW),
    row!(0xC004, 0, 0, 0xC004, STAYS),
];

// What `$of` makes of the places of a state's rows, and None where the code is no state.
macro_rules! at_state {
    ($code:expr, $of:ident $(, $with:expr)*) => {
        match $code {
            0x0000 => $of(range(0, 2) $(, $with)*),
            0x8005 => $of(range(2, 8) $(, $with)*),
            0x8000 => $of(range(8, 12) $(, $with)*),
            0x8004 => $of(range(12, 16) $(, $with)*),
            0xC001 => $of(range(16, 20) $(, $with)*),
            0xC002 => $of(range(20, 24) $(, $with)*),
            0xC003 => $of(range(24, 27) $(, $with)*),
            0xC004 => $of(range(27, 30) $(, $with)*),
            _ => None,
        }
    };
}

// Where the rows of a state stand.
#[tactic(auto, unfolding(ps_model::specs::Blocks::block))]
pub(crate) fn state_rows(code: u16) -> Option<RowRange>
    ensures some { IfSome result (λ range. is_placed MODES code range ≡ true) }
    ensures none { IfNone result (is_state ModeSelector code ≡ false) }
{
    at_state!(code, Some)
}

// Next state and action of the first row that fits.
#[tactic(auto, unfolding(ps_model::specs::Blocks::block))]
#[inline(always)]
pub(crate) fn next_of(code: u16, conditions: u32) -> Option<(u16, u8)>
    ensures { result ≡ first_fit MODES code conditions }
{
    let rows: &[MaskRow] = &MODES;
    at_state!(code, first_in, rows, code, conditions)
}
