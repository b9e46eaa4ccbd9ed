// The words of a line, and the numbers that words are.

ghost use Rattle.std.specs.Prelude.{◌≡◌, ◌≤◌, ◌<◌, ◌-◌, ℕ, [], ◌∷◌, length, slice_index, take, drop, IfSome, IfNone};
ghost use Rattle.std.specs.Prelude.{not};
ghost use Rattle.ps_trace.specs.Words.{is_blank, number_of, words, fields, IsNextWord, AreBlank};

/// The first word among the bytes of `line` from `at` on: the place at which it begins, and the place after its last
/// byte. It takes no memory.
///
/// A word there is a run of bytes other than spaces and tabs, which ends only before a space, a tab or the end of the
/// line. None exactly where all bytes from `at` on are spaces and tabs, or there are none.
pub fn next_word(line: &[u8], at: usize) -> Option<(usize, usize)>
    requires { at ≤ length line.now }
    ensures found { IfSome result (λ word. IsNextWord line.now at word.0 word.1) }
    ensures none { IfNone result (AreBlank line.now at) }

    // The words that are left are this one and those after it.
    ensures first { IfSome result (λ word. words (drop at line.now) ≡ take (word.1 - word.0) (drop word.0 line.now) ∷ words (drop word.1 line.now)) }
    ensures no_words { IfNone result (words (drop at line.now) ≡ []) }
{
    let from = run_end(line, at, true);
    if from == line.len() {
        return None;
    }
    Some((from, run_end(line, from, false)))
}

// The first word of a line that counts. None: the line is skipped, as it has no word or its first byte is `#`.
pub(crate) fn first_field(line: &[u8]) -> Option<(usize, usize)>
    ensures within { IfSome result (λ word. (word.0 < word.1) × (word.1 ≤ length line.now)) }
    ensures first { IfSome result (λ word. fields line.now ≡ take (word.1 - word.0) (drop word.0 line.now) ∷ words (drop word.1 line.now)) }
    ensures skipped { IfNone result (fields line.now ≡ []) }
{
    match line {
        [b'#', ..] => None,
        _ => next_word(line, 0),
    }
}

// The place after the blanks, or after the bytes other than blanks, from `at` on.
fn run_end(line: &[u8], at: usize, blanks: bool) -> usize
    requires { at ≤ length line.now }
    ensures behind { at ≤ result }
    ensures within { result ≤ length line.now }
    ensures alike { (k : ℕ) → at ≤ k → k < result → is_blank (slice_index line.now k) ≡ blanks }
    ensures ends { result < length line.now → is_blank (slice_index line.now result) ≡ not blanks }
{
    let mut end = at;
    while end < line.len() && is_blank(line[end]) == blanks {
        end += 1;
    }
    end
}

fn is_blank(byte: u8) -> bool
    ensures { result ≡ is_blank byte }
{
    byte == b' ' || byte == b'\t'
}

/// The value of the digits of a word. It takes no memory.
///
/// None exactly where the word is not one or more decimal digits with a value up to 4,294,967,295. Leading zeros are
/// digits as any others.
pub fn number(word: &[u8]) -> Option<u32>
    ensures { result ≡ number_of word.now }
{
    if word.is_empty() {
        return None;
    }
    let mut value = 0u32;
    for digit in word {
        if !digit.is_ascii_digit() {
            return None;
        }
        value = value
            .checked_mul(10)?
            .checked_add(u32::from(*digit - b'0'))?;
    }
    Some(value)
}
