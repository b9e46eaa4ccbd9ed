// The mask rows of SF_EDM.

ghost use Rattle.std.specs.Prelude.{◌≡◌, true, false, IfSome, IfNone};
ghost use Rattle.ps_model.specs.Stored.{is_state};
ghost use Rattle.ps_model.specs.declared.kind.Kind.TheVariants.{Edm};
ghost use Rattle.ps_rows.specs.Fitting.{first_fit};
ghost use Rattle.ps_rows.specs.Placed.{is_placed};

use crate::mask_row::{ANEW, MaskRow, RowRange, STAYS, first_in, range, row};

const ACTIVATE: u32 = 0x1; // Activate

const S: u32 = 0x2; // S_OutControl

const E1: u32 = 0x4; // S_EDM1

const E2: u32 = 0x8; // S_EDM2

const START: u32 = 0x10; // S_StartReset

const RESET: u32 = 0x20; // Reset

const LAST_RESET: u32 = 0x40; // Reset of the last step

const ELAPSED: u32 = 0x80; // the MonitoringTime has elapsed

// Each row: its state, the conditions that are to be TRUE, those that are to be FALSE, the next state,
// and what happens to the timer and the mode.
pub(crate) static EDM: [MaskRow; 89] = [
    // 0000 Idle
    row!(0x0000, ACTIVATE, 0, 0x8001, ANEW),
    row!(0x0000, 0, 0, 0x0000, STAYS),
    // 8001 Init
    row!(0x8001, 0, ACTIVATE, 0x0000, ANEW),
    row!(0x8001, START, 0, 0x8010, ANEW),
    row!(0x8001, RESET, LAST_RESET, 0x8010, ANEW),
    row!(0x8001, RESET | LAST_RESET, 0, 0xC001, ANEW),
    row!(0x8001, 0, 0, 0x8001, STAYS),
    // 8010
    row!(0x8010, 0, ACTIVATE, 0x0000, ANEW),
    row!(0x8010, S | E1 | E2, 0, 0x8000, ANEW),
    row!(0x8010, S | E2, E1, 0xC040, ANEW),
    row!(0x8010, S | E1, E2, 0xC050, ANEW),
    row!(0x8010, S, 0, 0xC060, ANEW),
    row!(0x8010, E2 | ELAPSED, E1, 0xC010, ANEW),
    row!(0x8010, E1 | ELAPSED, E2, 0xC020, ANEW),
    row!(0x8010, ELAPSED, E1 | E2, 0xC030, ANEW),
    row!(0x8010, E1 | E2, 0, 0x8010, ANEW),
    row!(0x8010, 0, 0, 0x8010, STAYS),
    // 8000
    row!(0x8000, 0, ACTIVATE, 0x0000, ANEW),
    row!(0x8000, 0, S, 0x8010, ANEW),
    row!(0x8000, E1 | ELAPSED, E2, 0xC070, ANEW),
    row!(0x8000, E2 | ELAPSED, E1, 0xC080, ANEW),
    row!(0x8000, E1 | E2 | ELAPSED, 0, 0xC090, ANEW),
    row!(0x8000, 0, 0, 0x8000, STAYS),
    // C001
    row!(0xC001, 0, ACTIVATE, 0x0000, ANEW),
    row!(0xC001, 0, RESET, 0x8001, ANEW),
    row!(0xC001, 0, 0, 0xC001, STAYS),
    // C010
    row!(0xC010, 0, ACTIVATE, 0x0000, ANEW),
    row!(0xC010, RESET, LAST_RESET, 0x8010, ANEW),
    row!(0xC010, RESET | LAST_RESET, 0, 0xC011, ANEW),
    row!(0xC010, 0, 0, 0xC010, STAYS),
    // C020
    row!(0xC020, 0, ACTIVATE, 0x0000, ANEW),
    row!(0xC020, RESET, LAST_RESET, 0x8010, ANEW),
    row!(0xC020, RESET | LAST_RESET, 0, 0xC021, ANEW),
    row!(0xC020, 0, 0, 0xC020, STAYS),
    // C030
    row!(0xC030, 0, ACTIVATE, 0x0000, ANEW),
    row!(0xC030, RESET, LAST_RESET, 0x8010, ANEW),
    row!(0xC030, RESET | LAST_RESET, 0, 0xC031, ANEW),
    row!(0xC030, 0, 0, 0xC030, STAYS),
    // C040
    row!(0xC040, 0, ACTIVATE, 0x0000, ANEW),
    row!(0xC040, RESET, LAST_RESET, 0x8010, ANEW),
    row!(0xC040, RESET | LAST_RESET, 0, 0xC041, ANEW),
    row!(0xC040, 0, 0, 0xC040, STAYS),
    // C050
    row!(0xC050, 0, ACTIVATE, 0x0000, ANEW),
    row!(0xC050, RESET, LAST_RESET, 0x8010, ANEW),
    row!(0xC050, RESET | LAST_RESET, 0, 0xC051, ANEW),
    row!(0xC050, 0, 0, 0xC050, STAYS),
    // C060
    row!(0xC060, 0, ACTIVATE, 0x0000, ANEW),
    row!(0xC060, RESET, LAST_RESET, 0x8010, ANEW),
    row!(0xC060, RESET | LAST_RESET, 0, 0xC061, ANEW),
    row!(0xC060, 0, 0, 0xC060, STAYS),
    // C070
    row!(0xC070, 0, ACTIVATE, 0x0000, ANEW),
    row!(0xC070, RESET, LAST_RESET, 0x8010, ANEW),
    row!(0xC070, RESET | LAST_RESET, 0, 0xC071, ANEW),
    row!(0xC070, 0, 0, 0xC070, STAYS),
    // C080
    row!(0xC080, 0, ACTIVATE, 0x0000, ANEW),
    row!(0xC080, RESET, LAST_RESET, 0x8010, ANEW),
    row!(0xC080, RESET | LAST_RESET, 0, 0xC081, ANEW),
    row!(0xC080, 0, 0, 0xC080, STAYS),
    // C090
    row!(0xC090, 0, ACTIVATE, 0x0000, ANEW),
    row!(0xC090, RESET, LAST_RESET, 0x8010, ANEW),
    row!(0xC090, RESET | LAST_RESET, 0, 0xC091, ANEW),
    row!(0xC090, 0, 0, 0xC090, STAYS),
    // C011
    row!(0xC011, 0, ACTIVATE, 0x0000, ANEW),
    row!(0xC011, 0, RESET, 0xC010, ANEW),
    row!(0xC011, 0, 0, 0xC011, STAYS),
    // C021
    row!(0xC021, 0, ACTIVATE, 0x0000, ANEW),
    row!(0xC021, 0, RESET, 0xC020, ANEW),
    row!(0xC021, 0, 0, 0xC021, STAYS),
    // C031
    row!(0xC031, 0, ACTIVATE, 0x0000, ANEW),
    row!(0xC031, 0, RESET, 0xC030, ANEW),
    row!(0xC031, 0, 0, 0xC031, STAYS),
    // C041
    row!(0xC041, 0, ACTIVATE, 0x0000, ANEW),
    row!(0xC041, 0, RESET, 0xC040, ANEW),
    row!(0xC041, 0, 0, 0xC041, STAYS),
    // C051
    row!(0xC051, 0, ACTIVATE, 0x0000, ANEW),
    row!(0xC051, 0, RESET, 0xC050, ANEW),
    row!(0xC051, 0, 0, 0xC051, STAYS),
    // C061
    row!(0xC061, 0, ACTIVATE, 0x0000, ANEW),
    row!(0xC061, 0, RESET, 0xC060, ANEW),
    row!(0xC061, 0, 0, 0xC061, STAYS),
    // C071
    row!(0xC071, 0, ACTIVATE, 0x0000, ANEW),
    row!(0xC071, 0, RESET, 0xC070, ANEW),
    row!(0xC071, 0, 0, 0xC071, STAYS),
    // C081
    row!(0xC081, 0, ACTIVATE, 0x0000, ANEW),
    row!(0xC081, 0, RESET, 0xC080, ANEW),
    row!(0xC081, 0, 0, 0xC081, STAYS),
    // C091
    row!(0xC091, 0, ACTIVATE, 0x0000, ANEW),
    row!(0xC091, 0, RESET, 0xC090, ANEW),
    row!(0xC091, 0, 0, 0xC091, STAYS),
];

// What `$of` makes of the places of a state's rows, and None where the code is no state.
macro_rules! at_state {
    ($code:expr, $of:ident $(, $with:expr)*) => {
        match $code {
            0x0000 => $of(range(0, 2) $(, $with)*),
            0x8001 => $of(range(2, 7) $(, $with)*),
            0x8010 => $of(range(7, 17) $(, $with)*),
            0x8000 => $of(range(17, 23) $(, $with)*),
            0xC001 => $of(range(23, 26) $(, $with)*),
            0xC010 => $of(range(26, 30) $(, $with)*),
            0xC020 => $of(range(30, 34) $(, $with)*),
            0xC030 => $of(range(34, 38) $(, $with)*),
            0xC040 => $of(range(38, 42) $(, $with)*),
            0xC050 => $of(range(42, 46) $(, $with)*),
            0xC060 => $of(range(46, 50) $(, $with)*),
            0xC070 => $of(range(50, 54) $(, $with)*),
            0xC080 => $of(range(54, 58) $(, $with)*),
            0xC090 => $of(range(58, 62) $(, $with)*),
            0xC011 => $of(range(62, 65) $(, $with)*),
            0xC021 => $of(range(65, 68) $(, $with)*),
            0xC031 => $of(range(68, 71) $(, $with)*),
            0xC041 => $of(range(71, 74) $(, $with)*),
            0xC051 => $of(range(74, 77) $(, $with)*),
            0xC061 => $of(range(77, 80) $(, $with)*),
            0xC071 => $of(range(80, 83) $(, $with)*),
            0xC081 => $of(range(83, 86) $(, $with)*),
            0xC091 => $of(range(86, 89) $(, $with)*),
            _ => None,
        }
    };
}

// Where the rows of a state stand.
#[tactic(auto, unfolding(ps_model::specs::Blocks::block))]
pub(crate) fn state_rows(code: u16) -> Option<RowRange>
    ensures some { IfSome result (λ range. is_placed EDM code range ≡ true) }
    ensures none { IfNone result (is_state Edm code ≡ false) }
{
    at_state!(code, Some)
}

// Next state and action of the first row that fits.
#[tactic(auto, unfolding(ps_model::specs::Blocks::block))]
#[inline(always)]
pub(crate) fn next_of(code: u16, conditions: u32) -> Option<(u16, u8)>
    ensures { result ≡ first_fit EDM code conditions }
{
    let rows: &[MaskRow] = &EDM;
    at_state!(code, first_in, rows, code, conditions)
}
