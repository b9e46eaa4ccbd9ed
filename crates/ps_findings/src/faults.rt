// What is wrong in a line of a fault file.

use crate::lines::{Sought, has_only, is_number, last_before, word_at, word_from};
use crate::telling::Telling;
use ps_text::line_at;

// A word of a fault line.
#[derive(Clone, Copy)]
enum Part {
    Before,
    Scan,
    Turn,
    Channel,
    Region,
    Offset,
    Bytes,
}

// The most hexadecimal digits of a fault.
const MOST_DIGITS: usize = 512;

impl Part {
    // Whether a word is of its form.
    fn fits(self, word: &[u8]) -> bool {
        match self {
            Part::Before => word == b"before".as_slice(),
            Part::Scan | Part::Turn => is_number(word) && !has_only(word, b"0"),
            Part::Channel => matches!(word, [b'A' | b'B' | b'C']),
            Part::Region => word == b"code".as_slice() || word == b"memory".as_slice(),
            Part::Offset => is_number(word),
            Part::Bytes => are_bytes(word),
        }
    }

    // The form that is wanted.
    fn wanted(self) -> &'static [u8] {
        match self {
            Part::Before => b"the word before, in small letters",
            Part::Scan => b"the number of a scan, from 1",
            Part::Turn => b"the number of a turn, from 1",
            Part::Channel =>
                b"a channel in a capital letter: A or B, and C with vote and heal alone",
            Part::Region => b"code or memory, in small letters",
            Part::Offset => b"the offset of a byte, in decimal digits",
            Part::Bytes => b"an even number of hexadecimal digits, 2 to 512, without 0x",
        }
    }
}

// The parts of a line, without a turn and with one; the word turn itself is no part.
const PLAIN: [Part; 6] = [
    Part::Before,
    Part::Scan,
    Part::Channel,
    Part::Region,
    Part::Offset,
    Part::Bytes,
];

const TURNED: [Part; 8] = [
    Part::Before,
    Part::Scan,
    Part::Turn,
    Part::Turn,
    Part::Channel,
    Part::Region,
    Part::Offset,
    Part::Bytes,
];

// Whether a word is bytes in hexadecimal digits.
fn are_bytes(word: &[u8]) -> bool {
    for byte in word {
        if !byte.is_ascii_hexdigit() {
            return false;
        }
    }
    !word.is_empty() && word.len() % 2 == 0 && word.len() <= MOST_DIGITS
}

// What is wrong with the word of a part, or that it is missing.
fn tell_wrong(telling: &mut Telling, word: Option<&[u8]>, part: Part) {
    match word {
        Some(word) => telling.say(b"", word, b" stands where this is wanted: "),
        None => telling.add(b"the line ends where this is wanted: "),
    }
    telling.add(part.wanted());
}

// Whether the word of this number is right: it is of the form of its part, or the word turn in its place.
fn is_right(line: &[u8], number: usize, part: Part, has_turn: bool) -> bool {
    match word_at(line, number) {
        Some(word) => (has_turn && number == 2) || part.fits(word),
        None => false,
    }
}

// What is wrong with a line of these parts; nothing where each word is of its form.
fn tell_of(telling: &mut Telling, line: &[u8], parts: &[Part], has_turn: bool) {
    for (number, part) in parts.iter().enumerate() {
        if telling.is_empty() && !is_right(line, number, *part, has_turn) {
            tell_wrong(telling, word_at(line, number), *part);
        }
    }
    if telling.is_empty() {
        tell_end(telling, line, word_at(line, parts.len()));
    }
}

// What is wrong with the word behind a line, if there is one, or with its seat.
fn tell_end(telling: &mut Telling, line: &[u8], word: Option<&[u8]>) {
    match word {
        Some(word) => telling.say(
            b"",
            word,
            b" stands where the line is to end; a comment has # as the first byte of its line",
        ),
        None if matches!(word_from(line, 0), Some([b'C'])) => {
            telling.add(b"C is a seat of vote and heal alone; A or B is wanted")
        }
        None => (),
    }
}

/// The first word of a fault line that is not of the form, and what is wanted in its place; nothing where each word is
/// of its form.
pub(crate) fn tell_fault(telling: &mut Telling, line: &[u8]) {
    match word_at(line, 2) {
        Some(word) if word == b"turn".as_slice() => tell_of(telling, line, &TURNED, true),
        Some(word) if word.eq_ignore_ascii_case(b"turn") => {
            telling.say(b"", word, b" is spelt turn, in small letters")
        }
        _ => tell_of(telling, line, &PLAIN, false),
    }
}

/// The fault before the line of this number, with its words; nothing where there is none.
pub(crate) fn tell_before(telling: &mut Telling, text: &[u8], number: u32) {
    let last = last_before(text, number, Sought::Any);
    if last > 0 {
        telling.add(b"the fault before it: ");
        telling.add_without_returns(line_at(text, last));
    }
}
