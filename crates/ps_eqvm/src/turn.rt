// One turn: a row is read from the code and done.

ghost use Rattle.std.specs.Prelude.{◌≡◌, ◌≢◌, ℕ, ◌+◌, ◌*◌, ◌<◌, ◌≤◌, ◌^◌, length, slice_index};
ghost use Rattle.ps_machine.specs.Machines.{turned};
ghost use Rattle.ps_machine.specs.Bytes.{be2};
ghost use Rattle.ps_machine.specs.Kinds.{kind_of};
ghost use Rattle.ps_eqvm.specs.Plain.{IsSized};
ghost use Rattle.ps_eqvm.specs.Rows.{whole, block_at};
ghost use Rattle.ps_eqvm.specs.Gates.{gate_row};
ghost use Rattle.ps_eqvm.specs.Turn.{carried_out, turn_plain};

use crate::block::{Site, block};
use crate::gates::set_or_join;
use crate::opcode::{Gate, Opcode};
use crate::plain::PlainCells;
use crate::trap::Trap;
use ps_machine::{number_in_four, number_in_two};

// SET, ALL or ANY at a place of the code. It is a part of the turn, with a code of its own for each of the three.
#[inline(always)]
fn turn_gate(plain: &mut PlainCells, signals: u16, instances: u16, how: Gate, code: &[u8], at: u32)
    requires sized { IsSized signals instances plain.old }
    requires here { plain.old.offset ≡ at }
    requires within { at < length code.now }
    requires short { length code.now < 2 ^ 32 }
    ensures { plain.new ≡ carried_out signals instances (whole code.now at (gate_row how (be2 code.now (at + 1)) (be2 code.now (at + 3)))) plain.old }
{
    let place = at as usize;
    if code.len() - place < 5 {
        return plain.trap(Trap::PastEnd);
    }
    let target = number_in_two(code, place + 1);
    let operand = number_in_two(code, place + 3);
    set_or_join(plain, signals, how, target, operand, at + 5);
}

// BLOCK at a place of the code. Each number of a kind has a code of its own, in which the counts of pins
// and outputs are constants; 0 stands for the numbers that no kind has.
fn turn_block(plain: &mut PlainCells, signals: u16, instances: u16, code: &[u8], at: u32)
    requires sized { IsSized signals instances plain.old }
    requires here { plain.old.offset ≡ at }
    requires within { at < length code.now }
    requires short { length code.now < 2 ^ 32 }
    ensures { plain.new ≡ carried_out signals instances (whole code.now at (block_at code.now at)) plain.old }
{
    let place = at as usize;
    if code.len() - place < 11 {
        return plain.trap(Trap::PastEnd);
    }
    match code[place + 3] {
        1 => turn_block_as::<1>(plain, signals, instances, code, at),
        2 => turn_block_as::<2>(plain, signals, instances, code, at),
        3 => turn_block_as::<3>(plain, signals, instances, code, at),
        4 => turn_block_as::<4>(plain, signals, instances, code, at),
        5 => turn_block_as::<5>(plain, signals, instances, code, at),
        6 => turn_block_as::<6>(plain, signals, instances, code, at),
        7 => turn_block_as::<7>(plain, signals, instances, code, at),
        8 => turn_block_as::<8>(plain, signals, instances, code, at),
        9 => turn_block_as::<9>(plain, signals, instances, code, at),
        10 => turn_block_as::<10>(plain, signals, instances, code, at),
        11 => turn_block_as::<11>(plain, signals, instances, code, at),
        12 => turn_block_as::<12>(plain, signals, instances, code, at),
        13 => turn_block_as::<13>(plain, signals, instances, code, at),
        _ => turn_block_as::<0>(plain, signals, instances, code, at),
    }
}

// The same as the kind with a number. It is a call of its own, since its many values would cost the short rows.
#[inline(never)]
fn turn_block_as<const NUMBER: u8>(
    plain: &mut PlainCells,
    signals: u16,
    instances: u16,
    code: &[u8],
    at: u32,
)
    requires sized { IsSized signals instances plain.old }
    requires here { plain.old.offset ≡ at }
    requires begun { at + 11 ≤ length code.now }
    requires short { length code.now < 2 ^ 32 }
    requires number { kind_of (slice_index code.now (at + 3)) ≡ kind_of NUMBER }
    ensures { plain.new ≡ carried_out signals instances (whole code.now at (block_at code.now at)) plain.old }
{
    let place = at as usize;
    let count = code[place + 10];
    let size = 11 + 2 * usize::from(count);
    let room = code.len() - place;
    if room < size {
        return plain.trap(Trap::PastEnd);
    }
    let site = Site {
        signals,
        instance: number_in_two(code, place + 1),
        first: number_in_two(code, place + 4),
        limit: number_in_four(code, place + 6),
        next: at + size as u32,
    };
    block(plain, instances, NUMBER, site, code, place + 11, count);
}

/// One turn, with so many signals and instances. It is a part of the loop of turns.
#[inline(always)]
pub fn turn(plain: &mut PlainCells, code: &[u8], signals: u16, instances: u16)
    requires sized { IsSized signals instances plain.old }
    requires short { length code.now < 2 ^ 32 }
    ensures { plain.new ≡ turn_plain signals instances code.now plain.old }
{
    let at = plain.offset();
    if at as usize >= code.len() {
        return plain.trap(Trap::PastEnd);
    }
    match Opcode::of(code[at as usize]) {
        None => plain.trap(Trap::UnknownOpcode),
        Some(Opcode::Last) => plain.end(at + 1),
        Some(Opcode::Target(Gate::Set)) => {
            turn_gate(plain, signals, instances, Gate::Set, code, at)
        }
        Some(Opcode::Target(Gate::All)) => {
            turn_gate(plain, signals, instances, Gate::All, code, at)
        }
        Some(Opcode::Target(Gate::Any)) => {
            turn_gate(plain, signals, instances, Gate::Any, code, at)
        }
        Some(Opcode::Block) => turn_block(plain, signals, instances, code, at),
    }
}

/// Turns as long as the scan is Running, at most so many, and how many there were.
pub fn turns(plain: &mut PlainCells, code: &[u8], signals: u16, instances: u16, most: u32) -> u32
    requires sized { IsSized signals instances plain.old }
    requires short { length code.now < 2 ^ 32 }
    ensures cells { plain.new ≡ turned (turn_plain signals instances code.now) result plain.old }
    ensures running { (j : ℕ) → j < result → (turned (turn_plain signals instances code.now) j plain.old).progress ≡ 0 }
    ensures most { result ≤ most }
    ensures stopped { result < most → plain.new.progress ≢ 0 }
{
    for count in 0..most {
        if plain.progress() != 0 {
            return count;
        }
        turn(plain, code, signals, instances);
    }
    most
}
