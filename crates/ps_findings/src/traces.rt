// What is wrong in a line of a trace.

use crate::lines::{Sought, is_feed, is_number, is_passed_over, last_before, word_at};
use crate::telling::Telling;
use ps_text::line_at;

// As many words of a line as are looked at.
const MOST_WORDS: usize = 600;

/// The header of a trace: its first line that is not passed over.
pub(crate) fn header_of(text: &[u8]) -> &[u8] {
    for line in text.split(is_feed) {
        if !is_passed_over(line) {
            return line;
        }
    }
    &[]
}

// The number of the first word after the time that is not in both lines, or that differs from 0 and 1 where such words
// are looked for.
fn first_wrong(line: &[u8], header: &[u8], is_of_values: bool) -> Option<usize> {
    for i in 1..MOST_WORDS {
        let is_right = match word_at(line, i) {
            Some([b'0' | b'1']) => true,
            Some(_) => !is_of_values,
            None => false,
        };
        if !is_right || word_at(header, i).is_none() {
            return Some(i);
        }
    }
    None
}

// The words of this number in both lines.
fn both_at<'a>(
    line: &'a [u8],
    header: &'a [u8],
    i: Option<usize>,
) -> (Option<&'a [u8]>, Option<&'a [u8]>) {
    match i {
        Some(i) => (word_at(line, i), word_at(header, i)),
        None => (None, None),
    }
}

/// At which input a value of a line is neither 0 nor 1; nothing where it is at none.
pub(crate) fn tell_value(telling: &mut Telling, text: &[u8], number: u32) {
    let line = line_at(text, number);
    let header = header_of(text);
    let i = first_wrong(line, header, true);
    if let (Some(value), Some(name)) = both_at(line, header, i) {
        telling.say(b"", value, b" stands at ");
        telling.add(name);
        telling.add(b"; 0 or 1 is wanted");
    }
}

// The first name without a value, or the first value without a name.
fn tell_unpaired(telling: &mut Telling, line: &[u8], header: &[u8]) {
    let i = first_wrong(line, header, false);
    match both_at(line, header, i) {
        (None, Some(name)) => telling.say(b"the first input without a value is ", name, b""),
        (Some(value), None) => telling.say(
            b"the first value without an input is ",
            value,
            b"; a comment has # as the first byte of its line",
        ),
        _ => (),
    }
}

/// Which input of the header has no value in a line, or which value has no input.
pub(crate) fn tell_count(telling: &mut Telling, text: &[u8], number: u32) {
    let line = line_at(text, number);
    match word_at(line, 0) {
        Some(word) if word.eq_ignore_ascii_case(b"restart") => telling.say(
            b"",
            word,
            b" is spelt restart, in small letters, and stands alone in its line",
        ),
        _ => tell_unpaired(telling, line, header_of(text)),
    }
}

// What is wrong with a word that is no time.
fn time_wrong(word: &[u8]) -> &'static [u8] {
    if is_number(word) {
        b" is over 4294967295 ms, which is 49 days and 17 hours; a time counts from any beginning"
    } else if word.starts_with(b"-") {
        b" is below 0; a time counts from any beginning"
    } else if word.contains(&b'.') || word.contains(&b',') {
        b" has a fraction or a comma; a time is a whole number of ms, and blanks stand between words"
    } else if word.ends_with(b"s") && word.starts_with(b"T#") {
        b" is a TIME literal; a time is a whole number of ms, in digits alone"
    } else if word.ends_with(b"s") || word.ends_with(b"S") {
        b" has a unit; a time is a whole number of ms, in digits alone"
    } else {
        b" is no number in digits; a line begins with its time in ms, or is restart alone"
    }
}

/// What is wrong with the time of a line; nothing where it has no word.
pub(crate) fn tell_time(telling: &mut Telling, text: &[u8], number: u32) {
    if let Some(word) = word_at(line_at(text, number), 0) {
        telling.say(b"", word, time_wrong(word));
    }
}

/// The time of the scan before a line of this number, in words; nothing where there is none.
pub(crate) fn tell_time_before(telling: &mut Telling, text: &[u8], number: u32) {
    let last = last_before(text, number, Sought::Scan);
    if last > 0 {
        if let Some(time) = word_at(line_at(text, last), 0) {
            telling.say(b"the time of the scan before is ", time, b"");
        }
    }
}
