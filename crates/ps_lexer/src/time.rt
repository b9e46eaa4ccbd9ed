// The value of a TIME literal.

ghost use Rattle.std.specs.Prelude.{◌≡◌, ℕ, ◌+◌, ◌^◌, ◌<◌, ◌≤◌, true, false, length, slice_index, IfSome, IfNone};
ghost use Rattle.std.specs.List.{AllByRecursion};
ghost use Rattle.std.specs.Char.{is_ascii_digit, is_ascii_alphabetic};
ghost use Rattle.ps_lexer.specs.Spelling.{folded};
ghost use Rattle.ps_lexer.specs.TimeLiterals.{PartsGive, IsTimeValue, number_of, rank, milliseconds, unit_spelling};
ghost use Rattle.ps_lexer.specs.Scanning.{IsSplit, gap_rest};

/// The units of a TIME literal, in the order in which its parts stand.
#[derive(Clone, Copy)]
pub enum TimeUnit {
    Day,
    Hour,
    Minute,
    Second,
    Millisecond,
}

impl TimeUnit {
    // The unit with this spelling, in any letter case.
    fn from_letters(letters: &[u8]) -> Option<TimeUnit>
        ensures some { IfSome result (λ u. folded letters.now ≡ unit_spelling u) }
        ensures none { IfNone result ((u : TimeUnit) → folded letters.now ≡ unit_spelling u → ⊥) }
    {
        if letters.eq_ignore_ascii_case(b"d") {
            Some(TimeUnit::Day)
        } else if letters.eq_ignore_ascii_case(b"h") {
            Some(TimeUnit::Hour)
        } else if letters.eq_ignore_ascii_case(b"m") {
            Some(TimeUnit::Minute)
        } else if letters.eq_ignore_ascii_case(b"s") {
            Some(TimeUnit::Second)
        } else if letters.eq_ignore_ascii_case(b"ms") {
            Some(TimeUnit::Millisecond)
        } else {
            None
        }
    }

    // Its place in the order of the units, from 0.
    fn rank(self) -> u8
        ensures value { result ≡ rank self }
        ensures small { result < 5 }
    {
        match self {
            TimeUnit::Day => 0,
            TimeUnit::Hour => 1,
            TimeUnit::Minute => 2,
            TimeUnit::Second => 3,
            TimeUnit::Millisecond => 4,
        }
    }

    // How many ms it has.
    fn milliseconds(self) -> u32
        ensures { result ≡ milliseconds self }
    {
        match self {
            TimeUnit::Day => 86_400_000,
            TimeUnit::Hour => 3_600_000,
            TimeUnit::Minute => 60_000,
            TimeUnit::Second => 1_000,
            TimeUnit::Millisecond => 1,
        }
    }
}

// How many digits the bytes begin with.
fn digits_len(bytes: &[u8]) -> usize
    ensures within { result ≤ length bytes.now }
    ensures digits { (k : ℕ) → k < result → is_ascii_digit (slice_index bytes.now k) ≡ true }
    ensures stops { result < length bytes.now → is_ascii_digit (slice_index bytes.now result) ≡ false }
{
    let mut n = 0;
    'run: while n < bytes.len() && bytes[n].is_ascii_digit() {
        n += 1;
    }
    n
}

// How many letters the bytes begin with.
fn letters_len(bytes: &[u8]) -> usize
    ensures within { result ≤ length bytes.now }
    ensures letters { (k : ℕ) → k < result → is_ascii_alphabetic (slice_index bytes.now k) ≡ true }
    ensures stops { result < length bytes.now → is_ascii_alphabetic (slice_index bytes.now result) ≡ false }
{
    let mut n = 0;
    'run: while n < bytes.len() && bytes[n].is_ascii_alphabetic() {
        n += 1;
    }
    n
}

// The digits that the bytes begin with, the letters after them, and the rest.
fn split_part(bytes: &[u8]) -> (&[u8], &[u8], &[u8])
    ensures { IsSplit bytes.now result.0.now result.1.now result.2.now }
{
    let (digits, after) = bytes.split_at(digits_len(bytes));
    let (letters, tail) = after.split_at(letters_len(after));
    (digits, letters, tail)
}

// The number that digits write, with any leading zeros, if it has 32 bits.
fn number(digits: &[u8]) -> Option<u32>
    requires { AllByRecursion (λ b. is_ascii_digit b ≡ true) digits.now }
    ensures some { IfSome result (λ n. n ≡ number_of digits.now) }
    ensures none { IfNone result (2 ^ 32 ≤ number_of digits.now) }
{
    let mut n: u32 = 0;
    for d in digits {
        let digit = u32::from(*d - b'0');
        n = n.checked_mul(10)?.checked_add(digit)?;
    }
    Some(n)
}

// What stands after an underscore, if the bytes begin with one, and else all of them.
fn behind_gap(tail: &[u8]) -> &[u8]
    ensures { result.now ≡ gap_rest tail.now }
{
    match tail.split_first() {
        None => tail,
        Some((first, others)) => { if *first == b'_' { others } else { tail } }
    }
}

// The sum of the parts, whose units come in order from one rank on. Each part calls for the next, so at most five
// calls are open.
fn parts(bytes: &[u8], least: u8) -> Option<u32>
    requires { least ≤ 5 }
    ensures some { IfSome result (PartsGive least bytes.now) }
    ensures none { IfNone result ((v : ℕ) → v < 2 ^ 32 → PartsGive least bytes.now v → ⊥) }
{
    let (digits, letters, tail) = split_part(bytes);
    if digits.is_empty() {
        return None;
    }
    let count = number(digits)?;
    let unit = TimeUnit::from_letters(letters)?;
    if unit.rank() < least {
        return None;
    }
    let here = count.checked_mul(unit.milliseconds())?;
    if tail.is_empty() {
        return Some(here);
    }
    let rest = parts(behind_gap(tail), unit.rank() + 1)?;
    here.checked_add(rest)
}

/// The value in ms of a TIME literal, from the bytes after its `#`; None where they are no parts in order, or their
/// sum is above `LARGEST_TIME`, the largest u32.
pub fn time_value(bytes: &[u8]) -> Option<u32>
    ensures some { IfSome result (IsTimeValue bytes.now) }
    ensures none { IfNone result ((v : ℕ) → IsTimeValue bytes.now v → ⊥) }
{
    parts(bytes, 0)
}
