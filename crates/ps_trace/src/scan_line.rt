// The lines of a trace after its header.

ghost use Rattle.std.specs.Prelude.{◌≡◌, ◌≤◌, ◌<◌, ℕ, Bool, IsTrue, List, length, drop, is_some, IfSome, slice_set};
ghost use Rattle.std.specs.List.{list_all, filter_map};
ghost use Rattle.ps_trace.specs.Words.{fields, words};
ghost use Rattle.ps_trace.specs.Trace.{value_of, is_restart, line_said, scan_at_time};
ghost use Rattle.ps_trace.specs.LineSays.{said_by};

use crate::plain_line::read_plain;
use crate::words::{first_field, next_word, number};
use ps_base::Rule;

/// What a line after the header says. A scan's values are written aside.
#[derive(Clone, Copy)]
pub enum LineSays {
    /// It is skipped.
    Nothing,
    /// A restart.
    Restart,
    /// A scan at a time in ms.
    Scan(u32),
    /// A rule refuses it.
    Broken(Rule),
}

// The words after a scan's time: how many there are, and whether each is a value.
#[derive(Clone, Copy)]
struct Values {
    count: usize,
    proper: bool,
}

/// What a line after the header says, where the header has a name for each place of `values` and `last` is the time of
/// the scan before. The values of a scan are put there, in the header's order.
pub fn read_line(line: &[u8], last: u32, values: &mut [bool]) -> LineSays
    ensures says { line_said (length values.old) last (fields line.now) ≡ said_by result values.new }
    ensures rises { (now : ℕ) → result ≡ LineSays.Scan now → last ≤ now }
{
    match read_plain(line, values) {
        Some(now) => judge_time(Some(now), last),
        None => read_fields(line, last, values),
    }
}

// What a line of any form says.
#[inline(never)]
fn read_fields(line: &[u8], last: u32, values: &mut [bool]) -> LineSays
    ensures says { line_said (length values.old) last (fields line.now) ≡ said_by result values.new }
    ensures rises { (now : ℕ) → result ≡ LineSays.Scan now → last ≤ now }
{
    let Some((from, upto)) = first_field(line) else {
        return LineSays::Nothing;
    };
    let time = &line[from..upto];
    let found = read_words(line, upto, values);
    if is_restart(time, found.count) {
        return LineSays::Restart;
    }
    if found.count != values.len() {
        return LineSays::Broken(Rule::T4);
    }
    if !found.proper {
        return LineSays::Broken(Rule::T5);
    }
    judge_time(number(time), last)
}

// What a line with its values says by its time, where its first word is one.
fn judge_time(time: Option<u32>, last: u32) -> LineSays
    ensures says { (values : List Bool) → scan_at_time last time values ≡ said_by result values }
    ensures rises { (now : ℕ) → result ≡ LineSays.Scan now → last ≤ now }
{
    match time {
        None => LineSays::Broken(Rule::T6),
        Some(now) if now < last => LineSays::Broken(Rule::T7),
        Some(now) => LineSays::Scan(now),
    }
}

// Whether a first word with so many words after it is `restart` alone.
fn is_restart(word: &[u8], others: usize) -> bool
    ensures { (words : List (List ℕ)) → length words ≡ others → result ≡ is_restart word.now words }
{
    others == 0 && word == b"restart".as_slice()
}

// Reads the words of a line from `at` on, and puts the values that they are where there is room.
fn read_words(line: &[u8], at: usize, values: &mut [bool]) -> Values
    requires { at ≤ length line.now }
    ensures count { result.count ≡ length (words (drop at line.now)) }
    ensures proper { result.proper ≡ list_all (λ word. is_some (value_of word)) (words (drop at line.now)) }
    ensures values { IsTrue result.proper → result.count ≡ length values.old → values.new ≡ filter_map value_of (words (drop at line.now)) }
{
    let mut count = 0;
    let mut proper = true;
    let mut next = at;
    'words: while let Some((from, upto)) = next_word(line, next) {
        proper = put(values, count, value(&line[from..upto])) && proper;
        count += 1;
        next = upto;
    }
    Values { count, proper }
}

// Puts a value in its place, if there is one.
fn put(values: &mut [bool], place: usize, value: Option<bool>) -> bool
    ensures found { result ≡ is_some value }
    ensures put { IfSome value (λ v. place < length values.old → values.new ≡ slice_set values.old place v) }
{
    match value {
        Some(value) => {
            if place < values.len() {
                values[place] = value;
            }
            true
        }
        None => false,
    }
}

// The value that a word is.
fn value(word: &[u8]) -> Option<bool>
    ensures { result ≡ value_of word.now }
{
    match word {
        [b'0'] => Some(false),
        [b'1'] => Some(true),
        _ => None,
    }
}
