// The instructions that move bytes between the stack and the signals, in a scan that runs. `next` is where the
// following instruction stands.

ghost use Rattle.std.specs.Prelude.{◌≡◌, ◌≢◌, ◌+◌, ◌<◌, ◌≤◌, ◌^◌, true, false, length, bit_and, bit_or};
ghost use Rattle.ps_stackvm.specs.Cells.{progress_of, with_head};
ghost use Rattle.ps_stackvm.specs.Stack.{after_load, after_store, after_const, after_join, after_end};

use crate::head::{Head, stop};
use crate::layout::{PROGRESS_AT, SIGNALS_AT, STACK_AT, STACK_SIZE};
use crate::trap::Trap;

// LOAD, with so many signals.
pub(crate) fn load(cells: &mut [u8], signals: u16, c: u16, head: Head, next: usize) -> Head
    requires room { SIGNALS_AT + signals ≤ length cells.old }
    requires runs { progress_of cells.old ≡ 0 }
    requires next { next < 2 ^ 32 }
    ensures cells { with_head result.pc result.height cells.new ≡ after_load signals c next (with_head head.pc head.height cells.old) }
    ensures runs { result.ended ≡ false → progress_of cells.new ≡ 0 }
    ensures ended { result.ended ≡ true → progress_of cells.new ≢ 0 }
{
    if c >= signals {
        return stop(cells, head, Trap::NoSignal);
    }
    if head.height >= STACK_SIZE as usize {
        return stop(cells, head, Trap::StackHeight);
    }
    let byte = cells[SIGNALS_AT + c as usize];
    if byte > 1 {
        return stop(cells, head, Trap::NotBoolean);
    }
    cells[STACK_AT + head.height] = byte;
    Head {
        pc: next,
        height: head.height + 1,
        ended: false,
    }
}

// STORE, with so many signals.
pub(crate) fn store(cells: &mut [u8], signals: u16, c: u16, head: Head, next: usize) -> Head
    requires room { SIGNALS_AT + signals ≤ length cells.old }
    requires runs { progress_of cells.old ≡ 0 }
    requires next { next < 2 ^ 32 }
    ensures cells { with_head result.pc result.height cells.new ≡ after_store signals c next (with_head head.pc head.height cells.old) }
    ensures runs { result.ended ≡ false → progress_of cells.new ≡ 0 }
    ensures ended { result.ended ≡ true → progress_of cells.new ≢ 0 }
{
    if c >= signals {
        return stop(cells, head, Trap::NoSignal);
    }
    let height = head.height;
    if height == 0 || height > STACK_SIZE as usize {
        return stop(cells, head, Trap::StackHeight);
    }
    let byte = cells[STACK_AT + (height - 1)];
    if byte > 1 {
        return stop(cells, head, Trap::NotBoolean);
    }
    cells[SIGNALS_AT + c as usize] = byte;
    Head {
        pc: next,
        height: height - 1,
        ended: false,
    }
}

// CONST.
pub(crate) fn constant(cells: &mut [u8], byte: u8, head: Head, next: usize) -> Head
    requires room { SIGNALS_AT ≤ length cells.old }
    requires runs { progress_of cells.old ≡ 0 }
    requires next { next < 2 ^ 32 }
    ensures cells { with_head result.pc result.height cells.new ≡ after_const byte next (with_head head.pc head.height cells.old) }
    ensures runs { result.ended ≡ false → progress_of cells.new ≡ 0 }
    ensures ended { result.ended ≡ true → progress_of cells.new ≢ 0 }
{
    if head.height >= STACK_SIZE as usize {
        return stop(cells, head, Trap::StackHeight);
    }
    if byte > 1 {
        return stop(cells, head, Trap::NotBoolean);
    }
    cells[STACK_AT + head.height] = byte;
    Head {
        pc: next,
        height: head.height + 1,
        ended: false,
    }
}

// AND.
pub(crate) fn and(cells: &mut [u8], head: Head, next: usize) -> Head
    requires room { SIGNALS_AT ≤ length cells.old }
    requires runs { progress_of cells.old ≡ 0 }
    requires next { next < 2 ^ 32 }
    ensures cells { with_head result.pc result.height cells.new ≡ after_join bit_and next (with_head head.pc head.height cells.old) }
    ensures runs { result.ended ≡ false → progress_of cells.new ≡ 0 }
    ensures ended { result.ended ≡ true → progress_of cells.new ≢ 0 }
{
    let height = head.height;
    if height < 2 || height > STACK_SIZE as usize {
        return stop(cells, head, Trap::StackHeight);
    }
    let top = cells[STACK_AT + (height - 1)];
    let second = cells[STACK_AT + (height - 2)];
    if top > 1 || second > 1 {
        return stop(cells, head, Trap::NotBoolean);
    }
    cells[STACK_AT + (height - 2)] = second & top;
    Head {
        pc: next,
        height: height - 1,
        ended: false,
    }
}

// OR.
pub(crate) fn or(cells: &mut [u8], head: Head, next: usize) -> Head
    requires room { SIGNALS_AT ≤ length cells.old }
    requires runs { progress_of cells.old ≡ 0 }
    requires next { next < 2 ^ 32 }
    ensures cells { with_head result.pc result.height cells.new ≡ after_join bit_or next (with_head head.pc head.height cells.old) }
    ensures runs { result.ended ≡ false → progress_of cells.new ≡ 0 }
    ensures ended { result.ended ≡ true → progress_of cells.new ≢ 0 }
{
    let height = head.height;
    if height < 2 || height > STACK_SIZE as usize {
        return stop(cells, head, Trap::StackHeight);
    }
    let top = cells[STACK_AT + (height - 1)];
    let second = cells[STACK_AT + (height - 2)];
    if top > 1 || second > 1 {
        return stop(cells, head, Trap::NotBoolean);
    }
    cells[STACK_AT + (height - 2)] = second | top;
    Head {
        pc: next,
        height: height - 1,
        ended: false,
    }
}

// END.
pub(crate) fn end(cells: &mut [u8], head: Head, next: usize) -> Head
    requires room { SIGNALS_AT ≤ length cells.old }
    requires runs { progress_of cells.old ≡ 0 }
    requires next { next < 2 ^ 32 }
    ensures cells { with_head result.pc result.height cells.new ≡ after_end next (with_head head.pc head.height cells.old) }
    ensures runs { result.ended ≡ false → progress_of cells.new ≡ 0 }
    ensures ended { result.ended ≡ true → progress_of cells.new ≢ 0 }
{
    cells[PROGRESS_AT] = 1;
    Head {
        pc: next,
        height: head.height,
        ended: true,
    }
}
