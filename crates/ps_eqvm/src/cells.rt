// Cells that are kept as bits.

ghost use Rattle.std.specs.Prelude.{◌≡◌, ℕ, ◌+◌, ◌*◌, ◌/◌, ◌%◌, ◌<◌, ◌≤◌, Bool, List, length, map, slice_index};
ghost use Rattle.std.specs.Prelude.{slice_set, true};
ghost use Rattle.ps_machine.specs.Bytes.{bit, replaced};
ghost use Rattle.ps_eqvm.specs.Bits.{bit_in, plain_cell, plain_cells, truth_of, words_for, AreCells};
ghost use Rattle.ps_eqvm.specs.LowBits.{AreLowBits};

use crate::words::{are_clear, bit_at, clear_all, place, place_run};
use ps_base::Memory;
use std::alloc::Global;
use std::marker::Model;

/// Cells with plain bytes, which contracts see as the list of these bytes. They are kept in words of
/// 64 bits: a value bit and an odd bit for each cell, and one byte for each cell that counts only
/// where the odd bit is set.
#[derive(Drop)]
pub struct BitCells {
    value: Vec<u64>,
    odd: Vec<u64>,
    counted: Vec<u8>,
    // TRUE only where no cell is odd
    even: bool,
}

impl Model for BitCells {
    ghost use Rattle.std.specs.Prelude.{◌≡◌, ℕ, List, true};
    ghost use Rattle.ps_eqvm.specs.Bits.{bit_in, plain_cells, AreCells};

    ghost Value = { List ℕ };

    ghost view = { λ c. plain_cells c.value.items c.odd.items c.counted.items };

    ghost invariant = { λ c. AreCells c.value.items c.odd.items c.counted.items × (c.even ≡ true → (i : ℕ) → bit_in c.odd.items i ≡ 0) };
}

// The truth value of cell i, or None where it is odd.
fn read(value: &[u64], odd: &[u64], counted: &[u8], i: usize) -> Option<bool>
    requires cells { AreCells value.now odd.now counted.now }
    requires within { i < length counted.now }
    ensures { result ≡ truth_of (plain_cell value.now odd.now counted.now i) }
{
    if bit_at(odd, i) {
        None
    } else {
        Some(bit_at(value, i))
    }
}

// Cell i becomes a truth value.
fn write(value: &mut [u64], odd: &mut [u64], counted: &[u8], i: usize, on: bool)
    requires cells { AreCells value.old odd.old counted.now }
    requires within { i < length counted.now }
    ensures cells { AreCells value.new odd.new counted.now }
    ensures written { plain_cells value.new odd.new counted.now ≡ slice_set (plain_cells value.old odd.old counted.now) i (bit on) }
    ensures even { ((j : ℕ) → bit_in odd.old j ≡ 0) → (j : ℕ) → bit_in odd.new j ≡ 0 }
{
    place(odd, i, false);
    place(value, i, on);
}

// Cell i, which is not odd, becomes a truth value.
fn write_over(value: &mut [u64], odd: &[u64], counted: &[u8], i: usize, on: bool)
    requires cells { AreCells value.old odd.now counted.now }
    requires within { i < length counted.now }
    requires even { bit_in odd.now i ≡ 0 }
    ensures cells { AreCells value.new odd.now counted.now }
    ensures written { plain_cells value.new odd.now counted.now ≡ slice_set (plain_cells value.old odd.now counted.now) i (bit on) }
{
    place(value, i, on);
}

// Cell i becomes a byte that is neither 0 nor 1.
fn write_odd(value: &mut [u64], odd: &mut [u64], counted: &mut [u8], i: usize, byte: u8)
    requires cells { AreCells value.old odd.old counted.old }
    requires within { i < length counted.old }
    requires is_odd { 1 < byte }
    ensures cells { AreCells value.new odd.new counted.new }
    ensures written { plain_cells value.new odd.new counted.new ≡ slice_set (plain_cells value.old odd.old counted.old) i byte }
{
    place(value, i, false);
    place(odd, i, true);
    counted[i] = byte;
}

// So many cells from cell i on, which stand in one word, become the lowest bits of a number.
fn write_run(value: &mut [u64], odd: &mut [u64], counted: &[u8], i: usize, count: u8, number: u64)
    requires cells { AreCells value.old odd.old counted.now }
    requires room { i + count ≤ length counted.now }
    requires some { 0 < count }
    requires few { count < 64 }
    requires fits { i % 64 + count ≤ 64 }
    ensures cells { AreCells value.new odd.new counted.now }
    ensures written { (values : List Bool) → length values ≡ count → AreLowBits values number → plain_cells value.new odd.new counted.now ≡ replaced (plain_cells value.old odd.old counted.now) i (map bit values) }
    ensures even { ((j : ℕ) → bit_in odd.old j ≡ 0) → (j : ℕ) → bit_in odd.new j ≡ 0 }
{
    place_run(odd, i, count, 0);
    place_run(value, i, count, number);
}

// Whether words are the same.
fn same_words(one: &[u64], other: &[u64]) -> bool
    ensures { result ≡ true → one.now ≡ other.now }
{
    one == other
}

// True only where the bytes that count are the same in cells with these odd words, none of which is odd where they are
// even.
fn same_counted(odd: &[u64], counted: &[u8], other: &[u8], even: bool) -> bool
    requires clear { even ≡ true → (i : ℕ) → bit_in odd.now i ≡ 0 }
    requires count { length counted.now ≡ length other.now }
    ensures { (value : List ℕ) → result ≡ true →
        plain_cells value odd.now counted.now ≡ plain_cells value odd.now other.now }
{
    if even {
        return true;
    }
    counted == other
}

// The values of bytes are below 256.
fn are_bytes(bytes: &[u8])
    ensures { (i : ℕ) → slice_index bytes.now i < 256 }
{}

impl BitCells {
    ghost use Rattle.std.specs.Prelude.{◌≡◌, ℕ, ◌+◌, ◌<◌, ◌≤◌, ◌^◌, ◌==◌, Bool, IfOk, List, length, map, replicate, slice_index, slice_set, nat_lt, true};
    ghost use Rattle.ps_machine.specs.Bytes.{bit, replaced};
    ghost use Rattle.ps_eqvm.specs.Bits.{truth_of, AreBitsOf, AreTruths};
    ghost use Rattle.ps_eqvm.specs.LowBits.{AreLowBits};

    /// So many cells, each 0.
    pub fn all_zero(alloc: Global, count: usize) -> Result<BitCells, Memory>
        requires { count < 2 ^ 32 }
        ensures { IfOk result (λ cells. cells ≡ replicate count 0) }
    {
        let words = (count + 63) / 64;
        let value = vec![in alloc; 0; words]?;
        let odd = vec![in alloc; 0; words]?;
        let counted = vec![in alloc; 0; count]?;
        Ok(BitCells {
            value,
            odd,
            counted,
            even: true,
        })
    }

    /// How many cells there are.
    pub fn len(&self) -> usize
        ensures { result ≡ length self.now }
    {
        self.counted.len()
    }

    /// Each cell becomes what it is in others of the same number.
    #[tactic(auto, using(crate::proofs::KeptBits::same_counts))]
    pub fn copy_from(&mut self, other: &BitCells)
        requires { length self.old ≡ length other.now }
        ensures { self.new ≡ other.now }
    {
        self.value.copy_from_slice(&other.value);
        self.odd.copy_from_slice(&other.odd);
        self.counted.copy_from_slice(&other.counted);
        self.even = other.even;
    }

    /// True only where each cell is as in others of the same number. It is FALSE too where a byte is neither 0 nor 1, or
    /// was so and nobody has looked since, and a byte that does not count differs.
    #[tactic(auto, using(crate::proofs::KeptBits::same_counts))]
    pub fn is_twin_of(&self, other: &BitCells) -> bool
        requires { length self.now ≡ length other.now }
        ensures { result ≡ true → self.now ≡ other.now }
    {
        same_words(&self.value, &other.value)
            && same_words(&self.odd, &other.odd)
            && same_counted(&self.odd, &self.counted, &other.counted, self.even)
    }

    /// Each cell is a byte. It does nothing when it runs.
    pub fn are_bytes(&self)
        ensures { (i : ℕ) → slice_index self.now i < 256 }
    {
        are_bytes(&self.counted);
    }

    /// The truth value of a cell, or None exactly where its byte is neither 0 nor 1.
    pub fn at(&self, i: usize) -> Option<bool>
        requires { i < length self.now }
        ensures { result ≡ truth_of (slice_index self.now i) }
    {
        if self.are_even() {
            Some(self.is_one(i))
        } else {
            read(&self.value, &self.odd, &self.counted, i)
        }
    }

    /// Whether the byte of a cell is 1: only then its value bit is.
    pub fn is_one(&self, i: usize) -> bool
        requires { i < length self.now }
        ensures { result ≡ (slice_index self.now i == 1) }
    {
        bit_at(&self.value, i)
    }

    /// A cell becomes a truth value.
    pub fn put(&mut self, i: usize, on: bool)
        requires { i < length self.old }
        ensures { self.new ≡ slice_set self.old i (bit on) }
    {
        write(&mut self.value, &mut self.odd, &self.counted, i, on);
    }

    /// A cell whose byte is 0 or 1 becomes a truth value.
    pub fn put_over(&mut self, i: usize, on: bool)
        requires within { i < length self.old }
        requires even { slice_index self.old i < 2 }
        ensures { self.new ≡ slice_set self.old i (bit on) }
    {
        write_over(&mut self.value, &self.odd, &self.counted, i, on);
    }

    /// So many cells from cell i on become the truth values that the lowest bits of a number are. Where
    /// the cells stand in one word, they are written at once.
    #[inline(always)]
    pub fn put_run(&mut self, i: usize, count: u8, number: u32)
        requires low { i + 32 < 2 ^ 64 }
        requires room { i + count ≤ length self.old }
        requires few { count ≤ 32 }
        ensures { (values : List Bool) → length values ≡ count → AreLowBits values number → self.new ≡ replaced self.old i (map bit values) }
    {
        if count > 0 && i % 64 + count as usize <= 64 {
            write_run(
                &mut self.value,
                &mut self.odd,
                &self.counted,
                i,
                count,
                number as u64,
            );
        } else {
            self.put_each(i, count, number);
        }
    }

    // The same one by one.
    #[cold]
    #[inline(never)]
    fn put_each(&mut self, i: usize, count: u8, number: u32)
        requires low { i + 32 < 2 ^ 64 }
        requires room { i + count ≤ length self.old }
        requires few { count ≤ 32 }
        ensures { (values : List Bool) → length values ≡ count → AreLowBits values number → self.new ≡ replaced self.old i (map bit values) }
    {
        for j in 0..count {
            self.put(i + j as usize, number >> j & 1 == 1);
        }
    }

    /// A cell becomes any byte.
    pub fn poke(&mut self, i: usize, byte: u8)
        requires { i < length self.old }
        ensures { self.new ≡ slice_set self.old i byte }
    {
        if byte > 1 {
            self.even = false;
            write_odd(&mut self.value, &mut self.odd, &mut self.counted, i, byte);
        } else {
            self.put(i, byte == 1);
        }
    }

    /// Each cell becomes 0.
    pub fn clear(&mut self)
        ensures { self.new ≡ replicate (length self.old) 0 }
    {
        clear_all(&mut self.value);
        clear_all(&mut self.odd);
        self.even = true;
    }

    /// TRUE only where each cell's byte is 0 or 1. It is TRUE from the first, and FALSE once a byte was neither, until
    /// `look` sees that none is any longer.
    pub fn are_even(&self) -> bool
        ensures { result ≡ true → AreTruths self.now }
    {
        self.even
    }

    /// Looks whether a byte is still neither 0 nor 1, where one was.
    pub fn look(&mut self)
        ensures { self.new ≡ self.old }
    {
        if !self.even {
            self.even = are_clear(&self.odd);
        }
    }

    /// The value words: a bit is 1 exactly where its cell's byte is 1.
    pub fn value_words(&self) -> &[u64]
        ensures { AreBitsOf (λ byte. byte == 1) self.now result.now }
    {
        &self.value
    }

    /// The odd words: a bit is 1 exactly where its cell's byte is neither 0 nor 1.
    pub fn odd_words(&self) -> &[u64]
        ensures { AreBitsOf (nat_lt 1) self.now result.now }
    {
        &self.odd
    }
}
