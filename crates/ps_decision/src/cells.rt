// Single places of the cells.

ghost use Rattle.std.specs.Prelude.{◌≡◌, ◌+◌, ◌≤◌, length, map};
ghost use Rattle.ps_machine.specs.Bytes.{be2, be4, bit, replaced};
ghost use Rattle.ps_machine.specs.Progressing.{progress_said};
ghost use Rattle.ps_decision.specs.Cells.{offset_of, progress_of, scan_time, place_of, with_offset, trapped};
ghost use Rattle.ps_decision.specs.Turn.{begin_c};

use crate::layout::{FIRST_PIN, PIN_CELLS, PINS_AT, PROGRESS_AT, SIGNALS_AT, TIME_AT};
use ps_model::Progress;
use ps_stackvm::Trap;

// The number in the two bytes at a place, the highest first.
pub(crate) fn number_at(bytes: &[u8], at: usize) -> u16
    requires { at + 2 ≤ length bytes.now }
    ensures { result ≡ be2 bytes.now at }
{
    u16::from_be_bytes([bytes[at], bytes[at + 1]])
}

// The number in the four bytes at a place, the highest first.
pub(crate) fn place_at(bytes: &[u8], at: usize) -> u32
    requires { at + 4 ≤ length bytes.now }
    ensures { result ≡ be4 bytes.now at }
{
    u32::from_be_bytes([bytes[at], bytes[at + 1], bytes[at + 2], bytes[at + 3]])
}

// Where the next row stands in the code.
pub(crate) fn offset(cells: &[u8]) -> u32
    requires { SIGNALS_AT ≤ length cells.now }
    ensures { result ≡ offset_of cells.now }
{
    place_at(cells, 0)
}

// The time of the scan in ms.
pub(crate) fn time(cells: &[u8]) -> u32
    requires { SIGNALS_AT ≤ length cells.now }
    ensures { result ≡ scan_time cells.now }
{
    place_at(cells, TIME_AT)
}

// What the progress byte says. Channel C reads it by itself: a reader that two channels used could end both too early
// alike.
pub(crate) fn progress(cells: &[u8]) -> Progress
    requires { SIGNALS_AT ≤ length cells.now }
    ensures { result ≡ progress_said (progress_of cells.now) }
{
    match cells[PROGRESS_AT] {
        0 => Progress::Running,
        1 => Progress::Done,
        2..=8 => Progress::Trapped(cells[PROGRESS_AT] - 1),
        _ => Progress::Trapped(0),
    }
}

// Where the cell of an operand stands, with so many signals; None where the operand is bad.
pub(crate) fn place(operand: u16, signals: u16) -> Option<usize>
    ensures { result ≡ place_of signals operand }
{
    if operand >= FIRST_PIN && operand < FIRST_PIN + PIN_CELLS {
        Some(PINS_AT + (operand - FIRST_PIN) as usize)
    } else if operand < signals {
        Some(SIGNALS_AT + operand as usize)
    } else {
        None
    }
}

// Another place of the next row.
pub(crate) fn set_offset(cells: &mut [u8], offset: u32)
    requires { SIGNALS_AT ≤ length cells.old }
    ensures { cells.new ≡ with_offset offset cells.old }
{
    cells[..PROGRESS_AT].copy_from_slice(&offset.to_be_bytes());
}

// Marks a trap.
pub(crate) fn trap(cells: &mut [u8], reason: Trap)
    requires { SIGNALS_AT ≤ length cells.old }
    ensures { cells.new ≡ trapped reason cells.old }
{
    cells[PROGRESS_AT] = reason.number() + 1;
}

// The byte of a truth value.
pub(crate) fn byte_of(value: bool) -> u8
    ensures { result ≡ bit value }
{
    if value { 1 } else { 0 }
}

// One byte for each truth value, from a place on.
pub(crate) fn put_bits(cells: &mut [u8], at: usize, values: &[bool])
    requires { at + length values.now ≤ length cells.old }
    ensures { cells.new ≡ replaced cells.old at (map bit values.now) }
{
    for (i, value) in values.iter().enumerate() {
        cells[at + i] = byte_of(*value);
    }
}

// The Begin of a scan at this time, with these inputs.
pub(crate) fn begin(cells: &mut [u8], now: u32, ins: &[bool])
    requires { SIGNALS_AT + length ins.now ≤ length cells.old }
    ensures { cells.new ≡ begin_c now ins.now cells.old }
{
    cells[..TIME_AT].fill(0);
    cells[TIME_AT..PINS_AT].copy_from_slice(&now.to_be_bytes());
    put_bits(cells, SIGNALS_AT, ins);
}
