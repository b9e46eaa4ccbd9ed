// A second line of a text that a refusal rests on, besides that of its place.

ghost use Rattle.std.specs.Prelude.{IfOk};
ghost use Rattle.ps_text.specs.Further.{AreGiven};

use crate::quoted::{cut_at, line_at};
use crate::words::without_blanks;
use ps_base::{Bytes, Memory, Place, Refusal, Rule};
use std::alloc::Global;

// Whether a line of a trace is passed over.
fn is_passed_over(line: &[u8]) -> bool {
    line.starts_with(b"#") || without_blanks(line).is_empty()
}

// The header of a trace: its first line that is not passed over.
fn header_of(text: &[u8]) -> &[u8] {
    for line in text.split(|byte| *byte == b'\n') {
        if !is_passed_over(line) {
            return without_blanks(line);
        }
    }
    &[]
}

/// The last line before a line of this number that is not blank.
pub fn line_before(text: &[u8], number: u32) -> &[u8] {
    let mut last: &[u8] = &[];
    for (index, line) in text.split(|byte| *byte == b'\n').enumerate() {
        if index + 1 >= number as usize {
            return last;
        }
        let words = without_blanks(line);
        if !words.is_empty() {
            last = words;
        }
    }
    last
}

// Whether nothing but blanks stands before a place in its line, and a token at it.
fn begins_line(text: &[u8], place: &Place) -> bool {
    let (front, back) = cut_at(line_at(text, place.line), place.column);
    without_blanks(front).is_empty() && !back.is_empty()
}

// A line with what it is, or nothing where it is empty.
fn named(alloc: Global, name: &[u8], line: &[u8]) -> Result<Bytes, Memory> {
    let mut words = Bytes::new(alloc);
    if !line.is_empty() {
        words.extend_from_slice(name)?;
        words.extend_from_slice(line)?;
    }
    Ok(words)
}

/// The words that are given or, where there are none, the line that a refusal rests on besides that of its place, with
/// what it is: the header of a trace, or the line before a token that does not fit. They are empty where there is none.
pub fn further_on(
    alloc: Global,
    text: &[u8],
    refusal: &Refusal,
    given: &[u8],
) -> Result<Bytes, Memory>
    ensures given { IfOk result (AreGiven given.now) }
{
    if !given.is_empty() {
        return Bytes::from_slice(alloc, given);
    }
    match refusal.rule {
        Rule::T4 | Rule::T5 | Rule::T6 => named(alloc, b"the header: ", header_of(text)),
        Rule::P1 if begins_line(text, &refusal.place) => named(
            alloc,
            b"the line before: ",
            line_before(text, refusal.place.line),
        ),
        _ => Ok(Bytes::new(alloc)),
    }
}
