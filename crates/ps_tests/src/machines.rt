// Turns of each channel over given bytes.
//
// A row of a table is a line: the bytes of a code in hexadecimal; after a bar the plain bytes of some places of the
// cells, whose plain bytes are 0 elsewhere, as PLACE=BYTE; and after ` => ` what comes of the turns: `runs`, `done`, or
// `trap` and its number.

use crate::fixtures::{DONE, RUNS, nothing, number_of, sizes};
use crate::{turns_a, turns_b, turns_c};
use ps_decision::DecisionChannel;
use ps_eqvm::EquationChannel;
use ps_machine::{CodeImage, ScanMachine};
use ps_model::{Kind, Region, Sizes};
use ps_stackvm::StackChannel;
use std::alloc::Global;

// Bytes in hexadecimal, with a space between each of them. None: some are none, there are too many, or out of memory.
fn code_of(alloc: Global, words: &str) -> Option<CodeImage> {
    let mut code = CodeImage::new(alloc);
    for word in words.split_whitespace() {
        if code.len() >= 100 {
            return None;
        }
        code.push(u8::from_str_radix(word, 16).ok()?).ok()?;
    }
    Some(code)
}

// Gives a byte to a place of the cells: both stand in a word, and the byte is stored by `stored`, which is 255 where a
// channel stores 255 less each. Whether the word is such a word, and the place lies in the cells.
fn is_put<M: ScanMachine>(machine: &mut M, stored: u8, word: &str) -> bool {
    let (at, byte) = word.split_once('=').unwrap_or((word, ""));
    match (u32::from_str_radix(at, 10), u8::from_str_radix(byte, 16)) {
        (Ok(at), Ok(plain)) => machine.spoil(Region::Cells, at, &[plain ^ stored]).is_ok(),
        _ => false,
    }
}

// What a word says of a scan, as a number.
fn number_named(word: &str) -> Option<u8> {
    match word {
        "runs" => Some(RUNS),
        "done" => Some(DONE),
        _ => word.strip_prefix("trap ")?.parse().ok(),
    }
}

// What comes of so many turns of a code over cells in which these places have these plain bytes. None: these are none.
fn after<M: ScanMachine>(
    alloc: Global,
    sizes: &Sizes,
    stored: u8,
    turns: u32,
    before: &str,
) -> Option<u8> {
    let (code, places) = before.split_once(" | ").unwrap_or((before, ""));
    let code = code_of(alloc, code)?;
    let mut machine = M::new(alloc, &code, sizes).ok()?;
    let mut are_put = true;
    for word in places.split_whitespace() {
        are_put = is_put(&mut machine, stored, word) && are_put;
    }
    machine.turns(turns);
    let number = number_of(machine.progress());
    if are_put { Some(number) } else { None }
}

// Whether a row is met in so many turns.
fn is_met<M: ScanMachine>(alloc: Global, sizes: &Sizes, stored: u8, turns: u32, row: &str) -> bool {
    let (before, word) = row.split_once(" => ").unwrap_or((row, ""));
    let found = after::<M>(alloc, sizes, stored, turns, before);
    found.is_some() && found == number_named(word)
}

// The first row of a table that is not met in so many turns; empty: all are met.
fn wrong_row<'a, M: ScanMachine>(
    alloc: Global,
    sizes: &Sizes,
    stored: u8,
    turns: u32,
    table: &'a str,
) -> &'a str {
    for row in table.lines() {
        if !is_met::<M>(alloc, sizes, stored, turns, row) {
            return row;
        }
    }
    ""
}

// Signal 3,999 is the last that an operand of channel B can name, however many there are: here 4,001.
const LAST_SIGNALS: &str = "\
f1 0f 9e ff ff => runs
f1 0f 9f ff ff => runs
f1 0f a0 ff ff => trap 5
";

#[test]
fn turns(rt: HostRuntime) {
    let alloc = rt.alloc();
    let stop = sizes(alloc, Kind::EmergencyStop, 3, 1).expect(&rt, "memory");
    nothing(
        &rt,
        wrong_row::<StackChannel>(alloc, &stop, 0, 1, turns_a::TURNS),
    );
    nothing(
        &rt,
        wrong_row::<EquationChannel>(alloc, &stop, 255, 1, turns_b::TURNS),
    );
    nothing(
        &rt,
        wrong_row::<DecisionChannel>(alloc, &stop, 0, 1, turns_c::TURNS),
    );
    nothing(
        &rt,
        wrong_row::<DecisionChannel>(alloc, &stop, 0, 2, turns_c::TWICE),
    );
    let modes = sizes(alloc, Kind::ModeSelector, 4, 1).expect(&rt, "memory");
    nothing(
        &rt,
        wrong_row::<DecisionChannel>(alloc, &modes, 0, 1, turns_c::MODES),
    );
    let many = sizes(alloc, Kind::EmergencyStop, 3998, 0).expect(&rt, "memory");
    nothing(
        &rt,
        wrong_row::<EquationChannel>(alloc, &many, 255, 1, LAST_SIGNALS),
    );
}
