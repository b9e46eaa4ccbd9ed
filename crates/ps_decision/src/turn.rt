// One turn: a row is read from the code and carried out.

ghost use Rattle.std.specs.Prelude.{◌≡◌, ◌≢◌, ℕ, ◌+◌, ◌*◌, ◌<◌, ◌≤◌, ◌^◌, length};
ghost use Rattle.ps_machine.specs.Machines.{turned};
ghost use Rattle.ps_decision.specs.Cells.{progress_of};
ghost use Rattle.ps_decision.specs.Turn.{after, turn_of};

use crate::act::{decide, end, set};
use crate::call::{Site, call};
use crate::cells::{offset, trap};
use crate::fetch::fetch;
use crate::layout::{INSTANCE_SIZE, PROGRESS_AT, SIGNALS_AT};
use crate::row::Row;

// Carries out a row, with so many signals and instances. `behind` is where the row ends.
fn carry_out(cells: &mut [u8], signals: u16, instances: u16, row: Row, behind: u32)
    requires { SIGNALS_AT + signals + INSTANCE_SIZE * instances ≤ length cells.old }
    ensures { cells.new ≡ after signals instances row behind cells.old }
{
    match row {
        Row::Decide {
            operand,
            yes_at,
            no_at,
        } => decide(cells, signals, operand, yes_at, no_at),
        Row::Set { target, byte, next } => set(cells, signals, target, byte, next),
        Row::Call {
            instance,
            kind,
            first,
            limit,
        } => {
            let site = Site {
                signals,
                instance,
                first,
                limit,
                next: behind,
            };
            call(cells, instances, kind, site)
        }
        Row::End => end(cells),
    }
}

// One turn, with so many signals and instances.
pub(crate) fn turn(cells: &mut [u8], code: &[u8], signals: u16, instances: u16)
    requires room { SIGNALS_AT + signals + INSTANCE_SIZE * instances ≤ length cells.old }
    requires short { length code.now < 2 ^ 32 }
    ensures { cells.new ≡ turn_of signals instances code.now cells.old }
{
    let at = offset(cells);
    match fetch(code, at) {
        Ok(row) => carry_out(cells, signals, instances, row, at + u32::from(row.size())),
        Err(reason) => trap(cells, reason),
    }
}

// Turns as long as the scan is Running, at most so many; the answer is how many there were.
pub(crate) fn turns(cells: &mut [u8], code: &[u8], signals: u16, instances: u16, most: u32) -> u32
    requires room { SIGNALS_AT + signals + INSTANCE_SIZE * instances ≤ length cells.old }
    requires short { length code.now < 2 ^ 32 }
    ensures cells { cells.new ≡ turned (turn_of signals instances code.now) result cells.old }
    ensures running { (j : ℕ) → j < result → progress_of (turned (turn_of signals instances code.now) j cells.old) ≡ 0 }
    ensures most { result ≤ most }
    ensures stopped { result < most → progress_of cells.new ≢ 0 }
{
    for made in 0..most {
        if cells[PROGRESS_AT] != 0 {
            return made;
        }
        turn(cells, code, signals, instances);
    }
    most
}
