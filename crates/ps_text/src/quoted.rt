// The line of a place, a window on it, and the caret under the place.

ghost use Rattle.std.specs.Prelude.{◌≡◌, ◌≤◌, ◌++◌, codes, length, replicate, not, IfOk, OnOk};
ghost use Rattle.std.specs.List.{position_or_len};
ghost use Rattle.ps_text.specs.Quoted.{line_of, before, behind, is_of_name, name_at, window, quoted};
ghost use Rattle.ps_text.specs.Shown.{last_shown};

use crate::shown::{add_first, add_last};
use ps_base::limits::LONGEST_NAME;
use ps_base::{Bytes, Memory};

// What stands before the text that is quoted.
const INDENT: &[u8] = b"    ";
// The most bytes that are quoted before the place.
const MOST_BEFORE: usize = 40;
// The most bytes that are quoted from the place on.
const MOST_BEHIND: usize = 60;

/// Line `number` of a text, counted from 1, without its line feed. It is empty where there is no such line.
pub fn line_at(text: &[u8], number: u32) -> &[u8]
    ensures { result.now ≡ line_of text.now number }
{
    let index = number.saturating_sub(1) as usize;
    match text.split(|byte| *byte == b'\n').nth(index) {
        Some(line) => line,
        None => &[],
    }
}

/// What of a line stands before a column, and what from it on.
pub fn cut_at(line: &[u8], column: u32) -> (&[u8], &[u8])
    ensures front { result.0.now ≡ before line.now column }
    ensures back { result.1.now ≡ behind line.now column }
{
    let offset = column.saturating_sub(1) as usize;
    line.split_at(offset.min(line.len()))
}

// Whether a byte is a letter, a digit or `_`.
fn goes_into_name(byte: u8) -> bool
    ensures { result ≡ is_of_name byte }
{
    byte.is_ascii_alphanumeric() || byte == b'_'
}

// How many bytes stand before the first one that goes into no name.
fn name_length(bytes: &[u8]) -> usize
    ensures length { result ≡ position_or_len (λ b. not (is_of_name b)) bytes.now }
    ensures within { result ≤ length bytes.now }
{
    for (index, byte) in bytes.iter().enumerate() {
        if !goes_into_name(*byte) {
            return index;
        }
    }
    bytes.len()
}

/// The name that begins at a place, or its first 64 bytes.
pub fn name_of(bytes: &[u8]) -> &[u8]
    ensures { result.now ≡ name_at bytes.now }
{
    &bytes[..(LONGEST_NAME as usize).min(name_length(bytes))]
}

// Spaces and a caret after them.
fn add_caret(message: &mut Bytes, width: usize) -> Result<(), Memory>
    ensures { OnOk result (message.new ≡ message.old ++ codes "    " ++ replicate width 32 ++ codes "^\n") }
{
    message.extend_from_slice(INDENT)?;
    for _ in 0..width {
        message.push(b' ')?;
    }
    message.extend_from_slice(b"^\n")
}

// The window on a line. It gives the number of bytes that it shows before the place.
fn add_window(message: &mut Bytes, front: &[u8], back: &[u8]) -> Result<usize, Memory>
    ensures bytes { OnOk result (message.new ≡ message.old ++ window front.now back.now) }
    ensures width { IfOk result (λ width. width ≡ length (last_shown 40 front.now)) }
{
    message.extend_from_slice(INDENT)?;
    let from = message.len();
    add_last(message, front, MOST_BEFORE)?;
    let width = message.len() - from;
    add_first(message, back, MOST_BEHIND)?;
    message.push(b'\n')?;
    Ok(width)
}

/// A line with a caret under the place. Column 0 is the line alone, and a line without bytes is not quoted.
pub fn add_quoted(message: &mut Bytes, line: &[u8], column: u32) -> Result<(), Memory>
    ensures { OnOk result (message.new ≡ message.old ++ quoted line.now column) }
{
    if line.is_empty() {
        return Ok(());
    }
    let (front, back) = cut_at(line, column);
    let width = add_window(message, front, back)?;
    if column == 0 {
        return Ok(());
    }
    add_caret(message, width)
}
