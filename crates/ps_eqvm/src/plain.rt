// The cells with their plain content.

ghost use Rattle.std.specs.Prelude.{◌≡◌, ℕ, ◌+◌, ◌<◌, ◌≤◌, ◌^◌, List, length, map, slice_set, take};
ghost use Rattle.std.specs.Int.{w32, to_be_bytes};
ghost use Rattle.ps_model.specs.Blocks.{outs, output_count};
ghost use Rattle.ps_machine.specs.Bytes.{bit, replaced};
ghost use Rattle.ps_eqvm.specs.LowBits.{AreLowBits};

use crate::cells::BitCells;
use crate::instances::InstanceBytes;
use crate::layout::{
    INSTANCE_SIZE, LAST_AT, PASSED_AT, PROGRESS_AT, SIGNALS_AT, WORK_AT, WORK_CELLS,
};
use crate::operand::{Found, Operand, find, is_one};
use crate::outputs::{low_then_high, outputs};
use crate::trap::Trap;
use ps_base::Memory;
use ps_model::{Kind, OutOfRegion};
use ps_rows::{CountedBlock, safe_outputs};
use std::alloc::Global;
use std::marker::Model;

/// Channel B's cells, which contracts see with their plain content. The numbers are kept as numbers,
/// the work cells and signals as bits, and the instances' bytes as they are stored.
pub struct PlainCells {
    offset: u32,
    progress: u8,
    last: u32,
    passed: u32,
    cells: BitCells,
    blocks: InstanceBytes,
}

impl Drop for PlainCells {
    // One call for whoever owns one, in place of a walk through all that it holds.
    fn drop(self) {
        let PlainCells {
            offset: _,
            progress: _,
            last: _,
            passed: _,
            cells: _,
            blocks: _,
        } = self;
    }
}

impl Model for PlainCells {
    ghost use Rattle.ps_eqvm.specs.Plain.{Plain};

    ghost Value = { Plain };

    ghost view = { λ p. record { offset = p.offset; progress = p.progress; last = p.last; passed = p.passed; cells = p.cells; blocks = p.blocks } };
}

// How many truth values are written at once.
const AT_ONCE: usize = 8;

// Truth values as the lowest bits of a number, from the last to the first.
#[inline(always)]
fn low_bits(values: &[bool]) -> u32
    requires { length values.now ≤ 32 }
    ensures { AreLowBits values.now result }
{
    let mut bits = 0;
    for j in 0..values.len() {
        bits = low_then_high(u32::from(values[values.len() - 1 - j]), 1, bits);
    }
    bits
}

// One truth value for each cell from a place on, eight at once as long as there are eight. The answer is how many were
// written. It is a call of its own, since fewer inputs than eight need none of its values.
#[inline(never)]
fn put_eights(cells: &mut BitCells, at: usize, values: &[bool]) -> usize
    requires low { at < 2 ^ 32 }
    requires room { at + length values.now ≤ length cells.old }
    ensures within { result ≤ length values.now }
    ensures written { cells.new ≡ replaced cells.old at (map bit (take result values.now)) }
{
    let mut done = 0;
    while values.len() - done >= AT_ONCE {
        let end = done + AT_ONCE;
        cells.put_run(at + done, AT_ONCE as u8, low_bits(&values[done..end]));
        done = end;
    }
    done
}

// The same of the values after the first ones, of which so many are written, one by one.
#[inline(always)]
fn put_rest(cells: &mut BitCells, at: usize, done: usize, values: &[bool])
    requires low { at < 2 ^ 32 }
    requires room { at + length values.now ≤ length cells.old }
    requires within { done ≤ length values.now }
    ensures { (c : List ℕ) → at + length values.now ≤ length c → cells.old ≡ replaced c at (map bit (take done values.now)) → cells.new ≡ replaced c at (map bit values.now) }
{
    for i in done..values.len() {
        cells.put(at + i, values[i]);
    }
}

// One truth value for each cell from a place on.
fn put_all(cells: &mut BitCells, at: usize, values: &[bool])
    requires low { at < 2 ^ 32 }
    requires room { at + length values.now ≤ length cells.old }
    ensures { cells.new ≡ replaced cells.old at (map bit values.now) }
{
    if values.len() < AT_ONCE {
        put_rest(cells, at, 0, values);
    } else {
        let done = put_eights(cells, at, values);
        put_rest(cells, at, done, values);
    }
}

// The outputs of a kind in a state with this latched mode, from a cell on.
#[inline(always)]
fn put_outputs(cells: &mut BitCells, at: usize, kind: Kind, code: u16, mode: u8)
    requires low { at < 2 ^ 32 }
    requires room { at + output_count kind ≤ length cells.old }
    ensures { cells.new ≡ replaced cells.old at (map bit (outs kind code mode)) }
{
    let safe = safe_outputs(kind);
    cells.put_run(at, safe + 2, outputs(kind, safe, code, mode));
}

// A number with one of its four bytes replaced, of which byte 0 is the highest.
fn with_byte(number: u32, i: usize, byte: u8) -> u32
    requires { i < 4 }
    ensures { to_be_bytes w32 result ≡ slice_set (to_be_bytes w32 number) i byte }
{
    let mut bytes = number.to_be_bytes();
    bytes[i] = byte;
    u32::from_be_bytes(bytes)
}

impl PlainCells {
    ghost use Rattle.std.specs.Prelude.{◌≡◌, ◌+◌, ◌-◌, ◌*◌, ◌<◌, ◌≤◌, ◌^◌, ◌==◌, ℕ, IfOk, IfSome, IfNone, is_err, length, nat_lt, slice_index, slice_set, true};
    ghost use Rattle.ps_machine.specs.Bytes.{bit, be2, instance_bytes, overwritten, replaced};
    ghost use Rattle.ps_machine.specs.Carrying.{filled};
    ghost use Rattle.ps_model.specs.Blocks.{output_count};
    ghost use Rattle.ps_rows.specs.Counted.{kept_of};
    ghost use Rattle.ps_eqvm.specs.Instances.{LoadAs, LoadNowhere};
    ghost use Rattle.ps_eqvm.specs.Bits.{truth_of, AreBitsOf, AreEven, AreTruths};
    ghost use Rattle.ps_eqvm.specs.Plain.{plain_bytes, laid_out, blank, IsPlain};
    ghost use Rattle.ps_eqvm.specs.Rows.{operand_of};
    ghost use Rattle.ps_eqvm.specs.Acting.{trapped, after_last, byte_of, with_cell, settled};
    ghost use Rattle.ps_eqvm.specs.Turn.{begin_plain};
    ghost use Rattle.ps_eqvm.specs.Finding.{found_of, one_of};

    /// Cells of an application with so many signals and instances, each 0.
    pub fn all_zero(alloc: Global, signals: u16, instances: u16) -> Result<PlainCells, Memory>
        ensures { IfOk result (λ p. p ≡ blank (WORK_CELLS + signals) (INSTANCE_SIZE * instances)) }
    {
        let cells = BitCells::all_zero(alloc, WORK_CELLS as usize + signals as usize)?;
        let blocks = InstanceBytes::all_zero(alloc, instances)?;
        Ok(PlainCells {
            offset: 0,
            progress: 0,
            last: 0,
            passed: 0,
            cells,
            blocks,
        })
    }

    /// Each byte becomes 0.
    pub fn clear(&mut self)
        ensures { self.new ≡ blank (length self.old.cells) (length self.old.blocks) }
    {
        self.offset = 0;
        self.progress = 0;
        self.last = 0;
        self.passed = 0;
        self.cells.clear();
        self.blocks.clear();
    }

    /// All becomes what it is in others of the same sizes.
    pub fn copy_from(&mut self, other: &PlainCells)
        requires cells { length self.old.cells ≡ length other.now.cells }
        requires blocks { length self.old.blocks ≡ length other.now.blocks }
        ensures { self.new ≡ other.now }
    {
        self.offset = other.offset;
        self.progress = other.progress;
        self.last = other.last;
        self.passed = other.passed;
        self.cells.copy_from(&other.cells);
        self.blocks.copy_from(&other.blocks);
    }

    /// True only where all is as in others of the same sizes.
    pub fn is_twin_of(&self, other: &PlainCells) -> bool
        requires { length self.now.cells ≡ length other.now.cells }
        ensures { result ≡ true → self.now ≡ other.now }
    {
        self.offset == other.offset
            && self.progress == other.progress
            && self.last == other.last
            && self.passed == other.passed
            && self.cells.is_twin_of(&other.cells)
            && self.blocks.is_twin_of(&other.blocks)
    }

    /// Its numbers and bytes are in range. It does nothing when it runs.
    pub fn sound(&self)
        ensures { IsPlain self.now }
    {
        self.cells.are_bytes();
        self.blocks.are_bytes();
        let _offset = self.offset;
        let _progress = self.progress;
        let _last = self.last;
        let _passed = self.passed;
    }

    /// Where the next row stands in the code.
    pub fn offset(&self) -> u32
        ensures { result ≡ self.now.offset }
    {
        self.offset
    }

    /// The progress of the scan.
    pub fn progress(&self) -> u8
        ensures { result ≡ self.now.progress }
    {
        self.progress
    }

    /// The time passed in this scan, in ms.
    pub fn passed(&self) -> u32
        ensures { result ≡ self.now.passed }
    {
        self.passed
    }

    /// The truth value of a cell, or None exactly where its byte is neither 0 nor 1.
    pub fn cell(&self, i: usize) -> Option<bool>
        requires { i < length self.now.cells }
        ensures { result ≡ truth_of (slice_index self.now.cells i) }
    {
        self.cells.at(i)
    }

    /// The value of the operand with a number, among so many signals.
    pub fn find(&self, signals: u16, number: u16) -> Found
        requires { length self.now.cells ≡ WORK_CELLS + signals }
        ensures { result ≡ found_of (byte_of self.now.cells (operand_of signals number)) }
    {
        find(&self.cells, Operand::numbered(signals, number))
    }

    /// Whether the byte of the operand with a number, among so many signals, is 1, and None where the operand is bad.
    pub fn is_one(&self, signals: u16, number: u16) -> Option<bool>
        requires { length self.now.cells ≡ WORK_CELLS + signals }
        ensures { result ≡ one_of (byte_of self.now.cells (operand_of signals number)) }
    {
        is_one(&self.cells, Operand::numbered(signals, number))
    }

    /// What the bytes of an instance say, for any kind that can keep it. None comes where they load for
    /// no kind.
    #[inline(always)]
    pub fn instance(&self, i: usize) -> Option<CountedBlock>
        requires { INSTANCE_SIZE * i + INSTANCE_SIZE ≤ length self.now.blocks }
        ensures some { IfSome result (λ block. LoadAs (instance_bytes 0 i self.now.blocks) (kept_of block)) }
        ensures none { IfNone result (LoadNowhere (instance_bytes 0 i self.now.blocks)) }
    {
        self.blocks.at(i)
    }

    /// The truth value of signal s, or None exactly where its byte is neither 0 nor 1.
    pub fn signal(&self, s: u16) -> Option<bool>
        requires { WORK_CELLS + s < length self.now.cells }
        ensures { result ≡ truth_of (slice_index (plain_bytes self.now) (SIGNALS_AT + s)) }
    {
        self.cells.at(WORK_CELLS as usize + s as usize)
    }

    /// Whether the byte of signal s is 1.
    pub fn is_on(&self, s: u16) -> bool
        requires { WORK_CELLS + s < length self.now.cells }
        ensures { result ≡ (slice_index (plain_bytes self.now) (SIGNALS_AT + s) == 1) }
    {
        self.cells.is_one(WORK_CELLS as usize + s as usize)
    }

    /// TRUE only where the byte of each work cell and signal is 0 or 1.
    pub fn are_even(&self) -> bool
        ensures cells { result ≡ true → AreTruths self.now.cells }
        ensures signals { (signals : ℕ) → length self.now.cells ≡ WORK_CELLS + signals → result ≡ true → AreEven signals (plain_bytes self.now) }
    {
        self.cells.are_even()
    }

    /// The DiagCode of instance i, among so many signals.
    pub fn code(&self, signals: u16, i: usize) -> u16
        requires cells { length self.now.cells ≡ WORK_CELLS + signals }
        requires blocks { INSTANCE_SIZE * i + INSTANCE_SIZE ≤ length self.now.blocks }
        ensures { result ≡ be2 (plain_bytes self.now) (SIGNALS_AT + signals + INSTANCE_SIZE * i) }
    {
        self.blocks.code(i)
    }

    /// The value words: a bit is 1 exactly where its cell's byte is 1.
    pub fn value_words(&self) -> &[u64]
        ensures { AreBitsOf (λ byte. byte == 1) self.now.cells result.now }
    {
        self.cells.value_words()
    }

    /// The odd words: a bit is 1 exactly where its cell's byte is neither 0 nor 1.
    pub fn odd_words(&self) -> &[u64]
        ensures { AreBitsOf (nat_lt 1) self.now.cells result.now }
    {
        self.cells.odd_words()
    }

    /// The Begin of a scan at a time in ms, with these inputs.
    pub fn begin(&mut self, now: u32, ins: &[bool])
        requires { WORK_CELLS + length ins.now ≤ length self.old.cells }
        ensures { self.new ≡ begin_plain now ins.now self.old }
    {
        self.offset = 0;
        self.progress = 0;
        self.passed = now.saturating_sub(self.last);
        self.last = now;
        self.cells.look();
        put_all(&mut self.cells, WORK_CELLS as usize, ins);
    }

    /// Marks a trap.
    pub fn trap(&mut self, trap: Trap)
        ensures { self.new ≡ trapped trap self.old }
    {
        self.progress = trap.number() + 1;
    }

    /// The scan is done.
    pub fn end(&mut self, next: u32)
        ensures { self.new ≡ after_last next self.old }
    {
        self.offset = next;
        self.progress = 1;
    }

    /// A cell becomes a truth value, and the row at `next` follows.
    pub fn put(&mut self, i: usize, on: bool, next: u32)
        requires { i < length self.old.cells }
        ensures { self.new ≡ with_cell i (bit on) next self.old }
    {
        self.cells.put(i, on);
        self.offset = next;
    }

    /// A cell whose byte is 0 or 1 becomes a truth value, and the row at `next` follows.
    pub fn put_over(&mut self, i: usize, on: bool, next: u32)
        requires within { i < length self.old.cells }
        requires even { slice_index self.old.cells i < 2 }
        ensures { self.new ≡ with_cell i (bit on) next self.old }
    {
        self.cells.put_over(i, on);
        self.offset = next;
    }

    /// The row at `next` follows, and nothing else changes.
    pub fn pass(&mut self, next: u32)
        ensures { self.new ≡ record self.old { offset = next } }
    {
        self.offset = next;
    }

    /// An instance keeps its new state, its outputs are written from a signal on, and the row at `next`
    /// follows.
    #[inline(always)]
    pub fn settle(&mut self, kind: Kind, block: CountedBlock, instance: u16, first: u16, next: u32)
        requires outs { WORK_CELLS + first + output_count kind ≤ length self.old.cells }
        requires bytes { INSTANCE_SIZE * instance + INSTANCE_SIZE ≤ length self.old.blocks }
        ensures { self.new ≡ settled instance first kind (kept_of block) next self.old }
    {
        put_outputs(
            &mut self.cells,
            WORK_CELLS as usize + first as usize,
            kind,
            block.code,
            block.mode,
        );
        self.blocks.put(instance as usize, block);
        self.offset = next;
    }

    /// Replaces bytes, as they are stored, where there are `len` bytes. OutOfRegion comes exactly where
    /// they would pass the end, and then nothing changed.
    pub fn overwrite(&mut self, len: usize, at: u32, bytes: &[u8]) -> Result<(), OutOfRegion>
        requires { len ≡ length (laid_out self.old) }
        ensures written { laid_out self.new ≡ overwritten (laid_out self.old) at bytes.now }
        ensures refused { is_err result ≡ nat_lt (length (laid_out self.old)) (at + length bytes.now) }
        ensures cells { length self.new.cells ≡ length self.old.cells }
        ensures blocks { length self.new.blocks ≡ length self.old.blocks }
    {
        let place = at as usize;
        if place > len || bytes.len() > len - place {
            return Err(OutOfRegion);
        }
        self.write(at, bytes);
        Ok(())
    }

    /// The time of the last scan becomes this one in ms, and the signals and instances become these bytes, as they are
    /// stored.
    pub fn fill(&mut self, time: &[u8], rest: &[u8])
        requires time { length time.now ≡ 4 }
        requires room { SIGNALS_AT + length rest.now ≤ length (laid_out self.old) }
        ensures written { laid_out self.new ≡ filled (laid_out self.old) LAST_AT time.now SIGNALS_AT rest.now }
        ensures cells { length self.new.cells ≡ length self.old.cells }
        ensures blocks { length self.new.blocks ≡ length self.old.blocks }
    {
        self.write(LAST_AT as u32, time);
        self.write(SIGNALS_AT as u32, rest);
    }

    // Replaces bytes that are there, as they are stored.
    fn write(&mut self, at: u32, bytes: &[u8])
        requires { at + length bytes.now ≤ length (laid_out self.old) }
        ensures written { laid_out self.new ≡ replaced (laid_out self.old) at bytes.now }
        ensures cells { length self.new.cells ≡ length self.old.cells }
        ensures blocks { length self.new.blocks ≡ length self.old.blocks }
    {
        for (i, byte) in bytes.iter().enumerate() {
            self.poke(at as usize + i, *byte);
        }
    }

    // One of the bytes becomes another, both as they are stored.
    fn poke(&mut self, at: usize, stored: u8)
        requires { at < WORK_AT + length self.old.cells + length self.old.blocks }
        ensures poked { laid_out self.new ≡ slice_set (laid_out self.old) at stored }
        ensures cells { length self.new.cells ≡ length self.old.cells }
        ensures blocks { length self.new.blocks ≡ length self.old.blocks }
    {
        let byte = 255 - stored;
        if at < PROGRESS_AT {
            self.offset = with_byte(self.offset, at, byte);
        } else if at == PROGRESS_AT {
            self.progress = byte;
        } else if at < PASSED_AT {
            self.last = with_byte(self.last, at - LAST_AT, byte);
        } else if at < WORK_AT {
            self.passed = with_byte(self.passed, at - PASSED_AT, byte);
        } else {
            self.poke_cell(at - WORK_AT, byte);
        }
    }

    // A byte after the numbers becomes another, by its plain value.
    fn poke_cell(&mut self, at: usize, byte: u8)
        requires { at < length self.old.cells + length self.old.blocks }
        ensures poked { plain_bytes self.new ≡ slice_set (plain_bytes self.old) (WORK_AT + at) byte }
        ensures cells { length self.new.cells ≡ length self.old.cells }
        ensures blocks { length self.new.blocks ≡ length self.old.blocks }
    {
        let cells = self.cells.len();
        if at < cells {
            self.cells.poke(at, byte);
        } else {
            self.blocks.poke(at - cells, byte);
        }
    }
}
