// The words of a line, and pieces of them.

ghost use Rattle.std.specs.Prelude.{◌≡◌, ◌≤◌, ◌<◌, ◌==◌, ◌∷◌, [], true, false, ◌-◌, length, take, drop, IfSome, IfNone};
ghost use Rattle.std.specs.List.{position_or_len, before_first, after_first, before_last, after_last, list_all};
ghost use Rattle.std.specs.List.{list_any, slice_split};
ghost use Rattle.std.specs.Char.{is_ascii_digit};
ghost use Rattle.std.specs.Option.{option_map_or};
ghost use Rattle.ps_trace.specs.Words.{is_blank, words};
ghost use Rattle.ps_trace.specs.Faults.{first_of, others_of};
ghost use Rattle.ps_bench_names.specs.Names.{is_dot};
ghost use Rattle.ps_bench_names.specs.Words.{before_blanks, behind_blanks, counted, is_digits, is_none_left};

use ps_trace::next_word;

/// The next word of a line that counts from the byte `at` on, empty where there is none, and the place after it.
pub fn take_word(line: &[u8], at: usize) -> (&[u8], usize)
    requires { at ≤ length line.now }
    ensures within { result.1 ≤ length line.now }
    ensures first { result.0.now ≡ first_of (counted (words (drop at line.now))) }
    ensures others { counted (words (drop result.1 line.now)) ≡ others_of (counted (words (drop at line.now))) }
{
    match next_counted(line, at) {
        Some((from, upto)) => (&line[from..upto], upto),
        None => (&line[line.len()..], line.len()),
    }
}

/// The next word of a line that counts from the byte `at` on: where it begins and ends. Words stand between blanks, and
/// none counts from one on that begins with `#`.
pub fn next_counted(line: &[u8], at: usize) -> Option<(usize, usize)>
    requires { at ≤ length line.now }
    ensures within { IfSome result (λ word. (at ≤ word.0) × (word.0 < word.1) × (word.1 ≤ length line.now)) }
    ensures first { IfSome result (λ word. counted (words (drop at line.now))
        ≡ take (word.1 - word.0) (drop word.0 line.now) ∷ counted (words (drop word.1 line.now))) }
    ensures none { IfNone result (counted (words (drop at line.now)) ≡ []) }
{
    let Some((from, upto)) = next_word(line, at) else {
        return None;
    };
    if line[from] == b'#' {
        return None;
    }
    Some((from, upto))
}

/// Whether no word that counts is left from the byte `at` on.
pub fn is_none_left(line: &[u8], at: usize) -> bool
    requires { at ≤ length line.now }
    ensures { result ≡ is_none_left (counted (words (drop at line.now))) }
{
    next_counted(line, at).is_none()
}

// Whether all bytes are decimal digits.
fn are_digits(word: &[u8]) -> bool
    ensures { result ≡ list_all is_ascii_digit word.now }
{
    for byte in word {
        if !byte.is_ascii_digit() {
            return false;
        }
    }
    true
}

/// Whether a word is one or more decimal digits.
pub fn is_digits(word: &[u8]) -> bool
    ensures { result ≡ is_digits word.now }
{
    !word.is_empty() && are_digits(word)
}

// The place of the first such byte, or the length.
fn place_of(word: &[u8], byte: u8) -> usize
    ensures place { result ≡ position_or_len (λ b. b == byte) word.now }
    ensures within { result ≤ length word.now }
{
    let mut at = 0;
    'bytes: while at < word.len() && word[at] != byte {
        at += 1;
    }
    at
}

/// What stands before the first such byte, and what stands after it, if there is one.
pub fn cut(word: &[u8], byte: u8) -> (&[u8], Option<&[u8]>)
    ensures before { result.0.now ≡ before_first (λ b. b == byte) word.now }
    ensures after { IfSome result.1 (λ rest. rest.now ≡ after_first (λ b. b == byte) word.now) }
    ensures found { IfSome result.1 (λ rest. list_any (λ b. b == byte) word.now ≡ true) }
    ensures none { IfNone result.1 (list_any (λ b. b == byte) word.now ≡ false) }
    ensures shorter { IfSome result.1 (λ rest. length rest.now < length word.now) }
    ensures split { slice_split (λ b. b == byte) word.now
        ≡ result.0.now ∷ option_map_or (λ rest. slice_split (λ b. b == byte) rest.now) result.1 [] }
{
    let at = place_of(word, byte);
    if at == word.len() {
        return (word, None);
    }
    (&word[..at], Some(&word[at + 1..]))
}

/// What stands before the last dot, empty where there is none, and what stands after it.
pub fn cut_last(word: &[u8]) -> (&[u8], &[u8])
    ensures before { result.0.now ≡ before_last is_dot word.now }
    ensures after { result.1.now ≡ after_last is_dot word.now }
{
    let mut at = word.len();
    'bytes: while at > 0 && word[at - 1] != b'.' {
        at -= 1;
    }
    if at == 0 {
        (&word[..0], word)
    } else {
        (&word[..at - 1], &word[at..])
    }
}

fn is_blank(byte: u8) -> bool
    ensures { result ≡ is_blank byte }
{
    byte == b' ' || byte == b'\t'
}

/// Bytes without the blanks in front.
pub fn behind_blanks(bytes: &[u8]) -> &[u8]
    ensures { result.now ≡ behind_blanks bytes.now }
{
    let mut from = 0;
    'blanks: while from < bytes.len() && is_blank(bytes[from]) {
        from += 1;
    }
    &bytes[from..]
}

/// Bytes without the blanks at the end.
pub fn before_blanks(bytes: &[u8]) -> &[u8]
    ensures { result.now ≡ before_blanks bytes.now }
{
    let mut upto = bytes.len();
    'blanks: while upto > 0 && is_blank(bytes[upto - 1]) {
        upto -= 1;
    }
    &bytes[..upto]
}
