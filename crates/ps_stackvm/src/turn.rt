// One turn: an instruction is read from the code and carried out.

ghost use Rattle.std.specs.Prelude.{◌≡◌, ◌≢◌, ℕ, ◌+◌, ◌-◌, ◌*◌, ◌<◌, ◌≤◌, ◌^◌, true, false, length};
ghost use Rattle.ps_machine.specs.Machines.{turned};
ghost use Rattle.ps_machine.specs.Progressing.{progress_said};
ghost use Rattle.ps_stackvm.specs.Cells.{progress_of, with_head};
ghost use Rattle.ps_stackvm.specs.Calling.{after_call};
ghost use Rattle.ps_stackvm.specs.Turn.{after, turn_of};

use crate::call::{Site, call};
use crate::fetch::fetch;
use crate::head::{Head, stop};
use crate::instruction::Instruction;
use crate::layout::{INSTANCE_SIZE, SIGNALS_AT};
use crate::stack::{and, constant, end, load, or, store};
use ps_model::Progress;

// CALL. The head is written for it, and then its place stays apart again.
#[inline(always)]
fn step(cells: &mut [u8], instances: u16, kind: u8, site: Site, head: Head, next: usize) -> Head
    requires room { SIGNALS_AT + site.signals + INSTANCE_SIZE * instances ≤ length cells.old }
    requires runs { progress_of cells.old ≡ 0 }
    requires next { next < 2 ^ 32 }
    ensures cells { with_head result.pc result.height cells.new ≡ after_call site.signals instances site.instance kind site.first site.limit next (with_head head.pc head.height cells.old) }
    ensures runs { result.ended ≡ false → progress_of cells.new ≡ 0 }
    ensures ended { result.ended ≡ true → progress_of cells.new ≢ 0 }
{
    head.write(cells);
    let is_stepped = call(cells, instances, kind, site);
    let found = Head::of(cells);
    if !is_stepped {
        return Head {
            pc: found.pc,
            height: found.height,
            ended: true,
        };
    }
    Head {
        pc: next,
        height: found.height,
        ended: false,
    }
}

// Carries out an instruction, with so many signals and instances.
#[inline(always)]
fn carry_out(
    cells: &mut [u8],
    signals: u16,
    instances: u16,
    i: Instruction,
    head: Head,
    next: usize,
) -> Head
    requires room { SIGNALS_AT + signals + INSTANCE_SIZE * instances ≤ length cells.old }
    requires runs { progress_of cells.old ≡ 0 }
    requires next { next < 2 ^ 32 }
    ensures cells { with_head result.pc result.height cells.new ≡ after signals instances i next (with_head head.pc head.height cells.old) }
    ensures runs { result.ended ≡ false → progress_of cells.new ≡ 0 }
    ensures ended { result.ended ≡ true → progress_of cells.new ≢ 0 }
{
    match i {
        Instruction::Load(c) => load(cells, signals, c, head, next),
        Instruction::Store(c) => store(cells, signals, c, head, next),
        Instruction::Const(byte) => constant(cells, byte, head, next),
        Instruction::And => and(cells, head, next),
        Instruction::Or => or(cells, head, next),
        Instruction::Call {
            instance,
            kind,
            first,
            limit,
        } => {
            let site = Site {
                signals,
                instance,
                first,
                limit,
            };
            step(cells, instances, kind, site, head, next)
        }
        Instruction::End => end(cells, head, next),
    }
}

// One turn, with so many signals and instances. The head is kept apart.
#[inline(always)]
fn advance(cells: &mut [u8], code: &[u8], signals: u16, instances: u16, head: Head) -> Head
    requires room { SIGNALS_AT + signals + INSTANCE_SIZE * instances ≤ length cells.old }
    requires short { length code.now < 2 ^ 32 }
    requires runs { progress_of cells.old ≡ 0 }
    ensures cells { with_head result.pc result.height cells.new ≡ turn_of signals instances code.now (with_head head.pc head.height cells.old) }
    ensures runs { result.ended ≡ false → progress_of cells.new ≡ 0 }
    ensures ended { result.ended ≡ true → progress_of cells.new ≢ 0 }
{
    match fetch(code, head.pc) {
        Ok(i) => carry_out(
            cells,
            signals,
            instances,
            i,
            head,
            head.pc + i.size() as usize,
        ),
        Err(reason) => stop(cells, head, reason),
    }
}

// Turns as long as the scan is Running, at most so many; the answer is how many are left.
#[inline(always)]
fn turns_left(cells: &mut [u8], code: &[u8], signals: u16, instances: u16, most: u32) -> u32
    requires room { SIGNALS_AT + signals + INSTANCE_SIZE * instances ≤ length cells.old }
    requires short { length code.now < 2 ^ 32 }
    ensures cells { cells.new ≡ turned (turn_of signals instances code.now) (most - result) cells.old }
    ensures running { (j : ℕ) → j < most - result → progress_of (turned (turn_of signals instances code.now) j cells.old) ≡ 0 }
    ensures most { result ≤ most }
    ensures stopped { 0 < result → progress_of cells.new ≢ 0 }
{
    let mut head = Head::of(cells);
    if head.ended {
        return most;
    }
    let mut left = most;
    'turns: while left > 0 {
        left -= 1;
        head = advance(cells, code, signals, instances, head);
        if head.ended {
            head.write(cells);
            return left;
        }
    }
    head.write(cells);
    0
}

// The same; the answer is how many there were.
pub(crate) fn turns(cells: &mut [u8], code: &[u8], signals: u16, instances: u16, most: u32) -> u32
    requires room { SIGNALS_AT + signals + INSTANCE_SIZE * instances ≤ length cells.old }
    requires short { length code.now < 2 ^ 32 }
    ensures cells { cells.new ≡ turned (turn_of signals instances code.now) result cells.old }
    ensures running { (j : ℕ) → j < result → progress_of (turned (turn_of signals instances code.now) j cells.old) ≡ 0 }
    ensures most { result ≤ most }
    ensures stopped { result < most → progress_of cells.new ≢ 0 }
{
    most - turns_left(cells, code, signals, instances, most)
}

// One turn of a scan that is Running.
pub(crate) fn turn(cells: &mut [u8], code: &[u8], signals: u16, instances: u16)
    requires room { SIGNALS_AT + signals + INSTANCE_SIZE * instances ≤ length cells.old }
    requires short { length code.now < 2 ^ 32 }
    requires runs { progress_said (progress_of cells.old) ≡ Progress.Running }
    ensures { cells.new ≡ turn_of signals instances code.now cells.old }
{
    turns(cells, code, signals, instances, 1);
}
