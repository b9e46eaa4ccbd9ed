// M's channel A: its turns, and its regions of 33 bytes of code and 97 of cells.

use crate::fixtures::{DONE, RUNS, ends_at, image, no_row, number_of, sizes};
use ps_model::{Kind, Region};
use ps_stackvm::StackChannel;
use std::alloc::Global;

// The code of M.
const CODE: [u8; 33] = [
    3, 1, // CONST 1, Activate
    1, 0, 0, // LOAD S_In, S_EStopIn
    3, 0, // CONST 0, S_StartReset
    3, 0, // CONST 0, S_AutoReset
    1, 0, 1, // LOAD Ack, Reset
    6, 0, 0, 3, 0, 4, 0, 0, 0, 0, // CALL instance 0 as kind 3, outputs from 4
    1, 0, 4, // LOAD E.S_EStopOut
    1, 0, 2, // LOAD Run
    4, // AND
    2, 0, 3, // STORE S_Motor
    7, // END
];

// M's channel at the start. None: out of memory.
fn motor(alloc: Global) -> Option<StackChannel> {
    let Ok(sizes) = sizes(alloc, Kind::EmergencyStop, 3, 1) else {
        return None;
    };
    let Ok(image) = image(alloc, &CODE) else {
        return None;
    };
    StackChannel::new(alloc, &image, &sizes).ok()
}

// The place in the code and the stack's height after each turn of a scan but the last.
static STEPS: [[u8; 2]; 10] = [
    [2, 1],
    [5, 2],
    [7, 3],
    [9, 4],
    [12, 5],
    [22, 0],
    [25, 1],
    [28, 2],
    [29, 1],
    [32, 0],
];

// Makes a turn. Whether the scan goes on from this place, with the stack at this height.
fn leads_to(motor: &mut StackChannel, place: u8, height: u8) -> bool {
    motor.turns(1) == 1
        && number_of(motor.progress()) == RUNS
        && motor.region_len(Region::Cells) == 97
        && motor.cell(3) == place
        && motor.cell(4) == height
}

// Makes all turns of a scan. The number of the first turn that does not lead where it has to, counted from 1; 0: there is
// none, and the last one ends the scan.
fn wrong_turn(motor: &mut StackChannel) -> usize {
    for row in 0..STEPS.len() {
        let [place, height] = STEPS[row];
        if !leads_to(motor, place, height) {
            return row + 1;
        }
    }
    if motor.turns(1) == 1 && number_of(motor.progress()) == DONE {
        0
    } else {
        11
    }
}

// The number of the first turn of a scan that does not lead where it has to, counted from 1; 0: there is none.
fn wrong_in_scan(alloc: Global) -> usize {
    match motor(alloc) {
        Some(mut motor) => wrong_turn(&mut motor),
        None => 12,
    }
}

// Whether the sixth turn, the CALL, is trap 7 where the DiagCode at 81 is of no state.
fn is_trapped(motor: &mut StackChannel) -> bool {
    motor.spoil(Region::Cells, 81, &[0x12, 0x34]).is_ok()
        && motor.turns(5) == 5
        && number_of(motor.progress()) == RUNS
        && motor.turns(1) == 1
        && number_of(motor.progress()) == 7
}

// Whether that CALL is trapped, and the regions end where they have to.
fn is_spoiled(alloc: Global) -> bool {
    match motor(alloc) {
        Some(mut motor) => {
            is_trapped(&mut motor)
                && ends_at(&mut motor, Region::Code, 33)
                && ends_at(&mut motor, Region::Cells, 97)
        }
        None => false,
    }
}

#[test]
fn channel_a(rt: HostRuntime) {
    no_row(&rt, wrong_in_scan(rt.alloc()));
    assert!(rt; is_spoiled(rt.alloc()));
}
