// Looks at the lines and words of a text.

ghost use Rattle.std.specs.Prelude.{◌≡◌, option_copied, slice_get};
ghost use Rattle.ps_findings.specs.Usage.{is_blank, words_in};

/// Whether a byte ends a line.
pub(crate) fn is_feed(byte: &u8) -> bool {
    *byte == b'\n'
}

/// Whether a byte stands between words.
pub(crate) fn is_blank(byte: &u8) -> bool
    ensures { result ≡ is_blank byte.now }
{
    *byte == b' ' || *byte == b'\t' || *byte == b'\r'
}

/// The word of this number in a line, from 0.
pub(crate) fn word_at(line: &[u8], number: usize) -> Option<&[u8]>
    ensures { option_copied result ≡ slice_get (words_in line.now) number }
{
    line.split(|byte| is_blank(byte))
        .filter(|word| !word.is_empty())
        .nth(number)
}

/// Whether a line is passed over: it has no word, or its first byte is `#`.
pub(crate) fn is_passed_over(line: &[u8]) -> bool {
    line.starts_with(b"#") || word_at(line, 0).is_none()
}

/// Whether each byte of a word is one of these.
pub(crate) fn has_only(word: &[u8], bytes: &[u8]) -> bool {
    for byte in word {
        if !bytes.contains(byte) {
            return false;
        }
    }
    true
}

/// Whether a word is a number in digits.
pub(crate) fn is_number(word: &[u8]) -> bool {
    !word.is_empty() && has_only(word, b"0123456789")
}

/// What is looked for among the lines before one.
#[derive(Clone, Copy)]
pub(crate) enum Sought<'a> {
    /// A line that is not passed over.
    Any,
    /// A line that begins with a number in digits.
    Scan,
    /// A fault of one of these seats, which are named by a letter each.
    Struck(&'a [u8]),
}

/// The word of this number of a line of a fault file, counted from the channel or seat, which stands behind a turn.
pub(crate) fn word_from(line: &[u8], number: usize) -> Option<&[u8]> {
    match word_at(line, 2) {
        Some([b't', b'u', b'r', b'n']) => word_at(line, number.saturating_add(4)),
        _ => word_at(line, number.saturating_add(2)),
    }
}

// Whether a line that is not passed over is one that is looked for.
fn fits(line: &[u8], sought: Sought<'_>) -> bool {
    match sought {
        Sought::Any => true,
        Sought::Scan => match word_at(line, 0) {
            Some(word) => is_number(word),
            None => false,
        },
        Sought::Struck(seats) => match word_from(line, 0) {
            Some([seat]) => seats.contains(seat),
            _ => false,
        },
    }
}

/// The number of the last line before the line of this number that is looked for; 0 where there is none.
pub(crate) fn last_before(text: &[u8], number: u32, sought: Sought<'_>) -> u32 {
    let mut last = 0u32;
    let mut count = 0u32;
    for line in text.split(is_feed) {
        count = count.saturating_add(1);
        if count < number && !is_passed_over(line) && fits(line, sought) {
            last = count;
        }
    }
    last
}

/// A number of things, as far as it goes into 32 bits.
pub(crate) fn narrow(count: usize) -> u32 {
    count.min(u32::MAX as usize) as u32
}
