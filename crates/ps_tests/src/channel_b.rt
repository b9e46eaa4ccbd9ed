// M's channel B: the value words after scans and after bytes were replaced, and its regions of 37 bytes of code and 84 of
// cells. Bit 0 of the value word and of the odd word is work cell 0, and bits 48 to 54 are the signals, whose bytes begin
// at 61.

ghost use Rattle.std.specs.Prelude.{◌≡◌, IfSome};

use crate::fixtures::{DONE, RUNS, bits_of, ends_at, image, no_row, number_of, sizes};
use ps_eqvm::EquationChannel;
use ps_machine::CodeImage;
use ps_model::{Kind, Region, Scan};
use std::alloc::Global;

// The code of M.
const CODE: [u8; 37] = [
    0xF4, 0, 0, 3, 0, 4, 0, 0, 0, 0, 5, // BLOCK of instance 0 as kind 3, outputs from 4, limit 0
    0xFF, 0xFF, 0, 0, 0xFF, 0xFE, 0xFF, 0xFE, 0, 1, // its pins: TRUE, S_In, FALSE, FALSE, Ack
    0xF1, 0xF0, 0, 0, 4, // SET work cell 0 := E.S_EStopOut
    0xF2, 0xF0, 0, 0, 2, // ALL work cell 0 with Run
    0xF1, 0, 3, 0xF0, 0, // SET S_Motor := work cell 0
    0xF0, // LAST
];

// M's channel at the start. None: out of memory.
fn motor(alloc: Global) -> Option<EquationChannel>
    ensures { IfSome result (λ c. c.sizes.inputs ≡ 3) }
{
    let Ok(sizes) = sizes(alloc, Kind::EmergencyStop, 3, 1) else {
        return None;
    };
    let Ok(image) = image(alloc, &CODE) else {
        return None;
    };
    EquationChannel::new(alloc, &image, &sizes).ok()
}

// One scan. Whether it is done after exactly five turns.
fn is_made(alloc: Global, motor: &mut EquationChannel, now: u32, inputs: &str) -> bool
    requires { motor.old.sizes.inputs ≡ 3 }
    ensures { motor.new.sizes ≡ motor.old.sizes }
{
    match bits_of(alloc, inputs) {
        Ok(ins) if ins.len() == 3 => {
            motor.begin(&Scan { now, ins });
            motor.turns(5) == 5 && number_of(motor.progress()) == DONE
        }
        _ => false,
    }
}

// Whether the value word and the odd word of a channel are these. Each has one word.
fn holds(channel: &EquationChannel, values: u64, odd: u64) -> bool {
    channel.value_words() == [values].as_slice() && channel.odd_words() == [odd].as_slice()
}

// Scans: the time, the inputs, a digit each, and the value word.
static SCANS: [(u32, &str, u64); 6] = [
    (0, "101", 0x0025000000000000),
    (10, "101", 0x0025000000000000),
    (20, "101", 0x0025000000000000),
    (30, "111", 0x003F000000000001),
    (40, "100", 0x0031000000000000),
    (50, "001", 0x0024000000000000),
];

// Whether the words are these after each scan, one after the other.
fn are_scanned(alloc: Global) -> bool {
    let Some(mut motor) = motor(alloc) else {
        return false;
    };
    let mut are_so = true;
    for (now, inputs, values) in SCANS {
        are_so = is_made(alloc, &mut motor, now, inputs) && holds(&motor, values, 0) && are_so;
    }
    are_so
}

// Whether these are the words if a plain byte of the cells is replaced after the first scan.
fn has_words(alloc: Global, at: u32, plain: u8, values: u64, odd: u64) -> bool {
    match motor(alloc) {
        Some(mut motor) => {
            is_made(alloc, &mut motor, 0, "101")
                && motor.spoil(Region::Cells, at, &[255 - plain]).is_ok()
                && holds(&motor, values, odd)
        }
        None => false,
    }
}

// Whether these are the words after a byte of the cells was replaced by each of four. After the first scan S_In, Run and
// Ready are TRUE: bits 48, 50 and 53.
fn has_words_at(alloc: Global, at: u32) -> bool {
    let before: u64 = 0x0025000000000000;
    let inside = at >= 13 && at < 68;
    let bit: u64 = if inside { 1 << (at - 13) } else { 0 };
    let off = before & !bit;
    has_words(alloc, at, 0, off, 0)
        && has_words(alloc, at, 1, off | bit, 0)
        && has_words(alloc, at, 7, off, bit)
        && has_words(alloc, at, 255, off, bit)
}

// The first of the 84 bytes of the cells after whose replacement the words are not these, counted from 1; 0: there is
// none.
fn wrong_byte(alloc: Global) -> usize {
    for at in 0..84u32 {
        if !has_words_at(alloc, at) {
            return at as usize + 1;
        }
    }
    0
}

// The byte that all cells are replaced by, as it is stored, the value word and the odd word.
static ALL_CELLS: [(u8, u64, u64); 4] = [
    (0xFF, 0, 0),
    (0xFE, 0x007FFFFFFFFFFFFF, 0),
    (0xFD, 0, 0x007FFFFFFFFFFFFF),
    (0x00, 0, 0x007FFFFFFFFFFFFF),
];

// Whether a channel has these words where a byte of its code is replaced and all cells by one byte.
fn is_replaced(motor: &mut EquationChannel, stored: u8, values: u64, odd: u64) -> bool {
    motor.spoil(Region::Code, 0, &[0xF5]).is_ok()
        && motor.spoil(Region::Cells, 0, &[stored; 84]).is_ok()
        && holds(motor, values, odd)
}

// Gives M's code to a channel anew. Whether its cells are blank then, and have the words of a turn after one.
fn is_renewed(motor: &mut EquationChannel, image: &CodeImage) -> bool {
    if motor.region_len(Region::Code) != image.len() {
        return false;
    }
    motor.renew(image);
    holds(motor, 0, 0)
        && number_of(motor.progress()) == RUNS
        && motor.turns(1) == 1
        && holds(motor, 0x0020000000000000, 0)
}

// Whether these are the words where all cells are replaced by one byte, and those of M's code after that.
fn goes_on(alloc: Global, stored: u8, values: u64, odd: u64) -> bool {
    let Ok(image) = image(alloc, &CODE) else {
        return false;
    };
    match motor(alloc) {
        Some(mut motor) => {
            is_replaced(&mut motor, stored, values, odd) && is_renewed(&mut motor, &image)
        }
        None => false,
    }
}

// The number of the first row of `ALL_CELLS` that is not met, counted from 1; 0: there is none.
fn wrong_row(alloc: Global) -> usize {
    for row in 0..ALL_CELLS.len() {
        let (stored, values, odd) = ALL_CELLS[row];
        if !goes_on(alloc, stored, values, odd) {
            return row + 1;
        }
    }
    0
}

// Whether the regions end where they have to.
fn are_ends(alloc: Global) -> bool {
    match motor(alloc) {
        Some(mut motor) => {
            ends_at(&mut motor, Region::Code, 37) && ends_at(&mut motor, Region::Cells, 84)
        }
        None => false,
    }
}

#[test]
fn channel_b(rt: HostRuntime) {
    assert!(rt; are_scanned(rt.alloc()) && are_ends(rt.alloc()));
    no_row(&rt, wrong_byte(rt.alloc()));
    no_row(&rt, wrong_row(rt.alloc()));
}
