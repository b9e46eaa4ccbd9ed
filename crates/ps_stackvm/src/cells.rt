// Single places of the cells.

ghost use Rattle.std.specs.Prelude.{◌≡◌, ◌+◌, ◌<◌, ◌≤◌, length, map, slice_index};
ghost use Rattle.ps_machine.specs.Bytes.{be2, bit, replaced};
ghost use Rattle.ps_machine.specs.Progressing.{progress_said};
ghost use Rattle.ps_stackvm.specs.Cells.{pc_of, progress_of, scan_time, with_pc, trapped};
ghost use Rattle.ps_stackvm.specs.Turn.{begin_a};

use crate::layout::{HEIGHT_AT, PROGRESS_AT, SIGNALS_AT, STACK_AT, STACK_SIZE, TIME_AT};
use crate::trap::Trap;
use ps_model::Progress;

// The number in the two bytes at a place, the highest first.
pub(crate) fn number_at(bytes: &[u8], at: usize) -> u16
    requires { at + 2 ≤ length bytes.now }
    ensures { result ≡ be2 bytes.now at }
{
    u16::from_be_bytes([bytes[at], bytes[at + 1]])
}

// Where the next instruction stands in the code.
pub(crate) fn pc(cells: &[u8]) -> u32
    requires { SIGNALS_AT ≤ length cells.now }
    ensures { result ≡ pc_of cells.now }
{
    u32::from_be_bytes([cells[0], cells[1], cells[2], cells[3]])
}

// The time of the scan in ms.
pub(crate) fn time(cells: &[u8]) -> u32
    requires { SIGNALS_AT ≤ length cells.now }
    ensures { result ≡ scan_time cells.now }
{
    u32::from_be_bytes([
        cells[TIME_AT],
        cells[TIME_AT + 1],
        cells[TIME_AT + 2],
        cells[TIME_AT + 3],
    ])
}

// What the progress byte says. Channel A reads it by itself: a reader that both channels used could end both too early
// alike.
pub(crate) fn progress(cells: &[u8]) -> Progress
    requires { SIGNALS_AT ≤ length cells.now }
    ensures { result ≡ progress_said (progress_of cells.now) }
{
    match cells[PROGRESS_AT] {
        0 => Progress::Running,
        1 => Progress::Done,
        2..=8 => Progress::Trapped(cells[PROGRESS_AT] - 1),
        _ => Progress::Trapped(0),
    }
}

// Another place of the next instruction.
pub(crate) fn set_pc(cells: &mut [u8], pc: u32)
    requires { SIGNALS_AT ≤ length cells.old }
    ensures { cells.new ≡ with_pc pc cells.old }
{
    cells[..4].copy_from_slice(&pc.to_be_bytes());
}

// Marks a trap.
pub(crate) fn trap(cells: &mut [u8], reason: Trap)
    requires { SIGNALS_AT ≤ length cells.old }
    ensures { cells.new ≡ trapped reason cells.old }
{
    cells[PROGRESS_AT] = reason.number() + 1;
}

// The byte of a truth value.
pub(crate) fn byte_of(value: bool) -> u8
    ensures { result ≡ bit value }
{
    if value { 1 } else { 0 }
}

// One byte for each truth value, from a place on.
pub(crate) fn put_bits(cells: &mut [u8], at: usize, values: &[bool])
    requires { at + length values.now ≤ length cells.old }
    ensures { cells.new ≡ replaced cells.old at (map bit values.now) }
{
    for (i, value) in values.iter().enumerate() {
        cells[at + i] = byte_of(*value);
    }
}

// The Begin of a scan at this time, with these inputs.
pub(crate) fn begin(cells: &mut [u8], now: u32, ins: &[bool])
    requires { SIGNALS_AT + length ins.now ≤ length cells.old }
    ensures { cells.new ≡ begin_a now ins.now cells.old }
{
    cells[..TIME_AT].fill(0);
    cells[TIME_AT..STACK_AT].copy_from_slice(&now.to_be_bytes());
    put_bits(cells, SIGNALS_AT, ins);
}
