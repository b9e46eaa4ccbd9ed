// Single bits of words of 64 bits.

ghost use Rattle.std.specs.Prelude.{◌≡◌, ◌≢◌, ◌⊎◌, ℕ, ◌+◌, ◌/◌, ◌%◌, ◌<◌, ◌≤◌, ◌==◌, length, max, replicate, true};
ghost use Rattle.std.specs.Int.{bit_at};
ghost use Rattle.ps_machine.specs.Bytes.{bit};
ghost use Rattle.ps_eqvm.specs.Bits.{bit_in};

/// Whether bit i is 1.
pub fn bit_at(words: &[u64], i: usize) -> bool
    requires { i / 64 < length words.now }
    ensures { result ≡ (bit_in words.now i == 1) }
{
    words[i / 64] >> (i % 64) & 1 == 1
}

// A word in which so many bits from bit `at` on are the lowest bits of a number.
fn with_run(word: u64, at: usize, count: u8, number: u64) -> u64
    requires within { at < 64 }
    requires few { count < 64 }
    requires fits { at + count ≤ 64 }
    ensures inside { (k : ℕ) → k < count → bit_at result (at + k) ≡ bit_at number k }
    ensures before { (k : ℕ) → k < at → bit_at result k ≡ bit_at word k }
    ensures after { (k : ℕ) → at + count ≤ k → bit_at result k ≡ bit_at word k }
{
    let mask = ((1u64 << count) - 1) << at;
    word & !mask | number << at & mask
}

/// So many bits from bit i on, which stand in one word, become the lowest bits of a number.
pub fn place_run(words: &mut [u64], i: usize, count: u8, number: u64)
    requires within { i / 64 < length words.old }
    requires few { count < 64 }
    requires fits { i % 64 + count ≤ 64 }
    ensures inside { (k : ℕ) → k < count → bit_in words.new (i + k) ≡ bit_at number k }
    ensures outside { (j : ℕ) → (j < i) ⊎ (i + count ≤ j) → bit_in words.new j ≡ bit_in words.old j }
{
    words[i / 64] = with_run(words[i / 64], i % 64, count, number);
}

/// Bit i becomes 1 for TRUE and 0 for FALSE.
pub fn place(words: &mut [u64], i: usize, on: bool)
    requires { i / 64 < length words.old }
    ensures same { bit_in words.new i ≡ bit on }
    ensures others { (j : ℕ) → j ≢ i → bit_in words.new j ≡ bit_in words.old j }
{
    place_run(words, i, 1, u64::from(on));
}

/// A number with bit j, where it is TRUE.
pub fn with_bit(number: u32, j: u8, on: bool) -> u32
    requires { j < 32 }
    ensures same { bit_at result j ≡ max (bit_at number j) (bit on) }
    ensures others { (k : ℕ) → k ≢ j → bit_at result k ≡ bit_at number k }
{
    number | u32::from(on) << j
}

/// Each bit becomes 0.
pub fn clear_all(words: &mut [u64])
    ensures { words.new ≡ replicate (length words.old) 0 }
{
    words.fill(0);
}

/// Whether each bit is 0.
pub fn are_clear(words: &[u64]) -> bool
    ensures { result ≡ true → (i : ℕ) → bit_in words.now i ≡ 0 }
{
    for i in 0..words.len() {
        if words[i] != 0 {
            return false;
        }
    }
    true
}
