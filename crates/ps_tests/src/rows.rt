// Channel B's rows and their places, and a step by rows of what may be nothing that the kind keeps.

use crate::fixtures::no_row;
use ps_model::{Kind, kind_numbered};
use ps_rows::{CountedBlock, MaskRow, RowRange, next_of, row, row_count, state_rows};

// What `code_after` gives where the step is refused.
const NONE: u16 = 0xFFFF;

// Each row is the number of a kind, a DiagCode, the last Reset, the last auxiliary input, the mode, and what is wanted. They
// ask first of states, then of last inputs, and then of modes. The kinds are 1 SF_Equivalent, 3 SF_EmergencyStop,
// 4 SF_ESPE, 5 SF_ModeSelector, 6 SF_TwoHandControlTypeII, 12 SF_OutControl and 13 SF_EDM.
static STEPS: [(u8, u16, bool, bool, u8, u16); 19] = [
    (3, 0x8001, false, false, 0, 0x8002),
    (3, 0x8006, false, false, 0, NONE),
    (4, 0x0000, false, false, 0, 0x8001),
    (4, 0x0001, false, false, 0, NONE),
    (13, 0xC091, true, false, 0, 0xC090),
    (13, 0xC092, true, false, 0, NONE),
    (3, 0xC001, true, false, 0, 0x8002),
    (3, 0xC001, true, true, 0, NONE),
    (1, 0xC001, false, false, 0, 0x8001),
    (1, 0xC001, true, false, 0, NONE),
    (6, 0xC001, false, true, 0, NONE),
    (12, 0xC010, true, true, 0, 0x8002),
    (5, 0x8000, true, true, 7, 0x8005),
    (5, 0x8000, true, true, 8, NONE),
    (5, 0x8004, true, true, 7, 0x8004),
    (5, 0x8004, true, true, 255, NONE),
    (5, 0x8005, false, false, 0, 0xC002),
    (5, 0x8005, false, false, 1, NONE),
    (12, 0x8000, false, false, 1, NONE),
];

// The DiagCode after a step of a kind with Activate alone.
fn code_after(number: u8, code: u16, last_reset: bool, last_auxiliary: bool, mode: u8) -> u16 {
    let block = CountedBlock {
        code,
        last_reset,
        last_auxiliary,
        mode,
        remains: 0,
    };
    match kind_numbered(number) {
        Some(kind) => match block.stepped_if_kept(kind, 1, 0, 0) {
            Some(after) => after.code,
            None => NONE,
        },
        None => 0,
    }
}

// Whether the fourth row of SF_Antivalent and the rows of two states of SF_Equivalent are these, of which the second is no
// state of it.
fn are_rows() -> bool {
    let MaskRow {
        state,
        care,
        value,
        next,
        action,
    } = row(Kind::Antivalent, 3);
    let range = match state_rows(Kind::Equivalent, 0x8001) {
        Some(RowRange { from, upto }) => from == 2 && upto == 7,
        None => false,
    };
    state == 0x8001
        && care == 0b110
        && value == 0
        && next == 0x8000
        && action == 1
        && range
        && state_rows(Kind::Equivalent, 0x8002).is_none()
        && next_of(Kind::Equivalent, 0x8002, 0).is_none()
}

// The number of the first row of `STEPS` that is not met, counted from 1; 0: there is none.
fn wrong_step() -> usize {
    for row in 0..STEPS.len() {
        let (number, code, last_reset, last_auxiliary, mode, wanted) = STEPS[row];
        if code_after(number, code, last_reset, last_auxiliary, mode) != wanted {
            return row + 1;
        }
    }
    0
}

#[test]
fn rows(rt: HostRuntime) {
    no_row(&rt, wrong_step());
    assert!(rt; row_count(Kind::Edm) == 89 && are_rows());
}
