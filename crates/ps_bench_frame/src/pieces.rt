// Pieces of what is told.

ghost use Rattle.std.specs.Prelude.{◌≡◌, ◌<◌, ◌++◌, OnOk, decimal, slice_index};
ghost use Rattle.std.specs.Char.{to_ascii_uppercase};
ghost use Rattle.std.specs.List.{flat_map};
ghost use Rattle.hex.specs.Hex.{lower_digits};
ghost use Rattle.ps_report.specs.Lines.{code_text};
ghost use Rattle.ps_bench_frame.specs.Pieces.{coded, count_text, ends_line, is_no_character, is_of_line, place_text};
ghost use Rattle.ps_bench_frame.specs.Pieces.{plural, shown, shown_char};
ghost use Rattle.ps_text.specs.Escaping.{hex_digit};

use itoa::Buffer;
use ps_base::{Bytes, Memory};

/// A number in decimal digits.
pub fn add_number(text: &mut Bytes, number: u64) -> Result<(), Memory>
    ensures { OnOk result (text.new ≡ text.old ++ decimal number) }
{
    let mut digits = Buffer::new();
    text.extend_from_slice(digits.format(number).as_bytes())
}

/// A number of up to 32 bits in decimal digits.
pub fn add_short(text: &mut Bytes, number: u32) -> Result<(), Memory>
    ensures { OnOk result (text.new ≡ text.old ++ decimal number) }
{
    let mut digits = Buffer::new();
    text.extend_from_slice(digits.format(number).as_bytes())
}

// The end of a noun: one of it, or several.
fn plural(count: u64) -> &'static [u8]
    ensures { result.now ≡ plural count }
{
    if count == 1 { b"" } else { b"s" }
}

/// A count with what is counted, as `1 scan` or `2 scans`.
pub fn add_count(text: &mut Bytes, count: u64, noun: &[u8]) -> Result<(), Memory>
    ensures { OnOk result (text.new ≡ text.old ++ count_text count noun.now) }
{
    add_number(text, count)?;
    text.extend_from_slice(b" ")?;
    text.extend_from_slice(noun)?;
    text.extend_from_slice(plural(count))
}

// The capital hexadecimal digit of a number up to 15.
fn capital_digit(n: u8) -> u8
    requires { n < 16 }
    ensures { result ≡ to_ascii_uppercase (slice_index lower_digits n) }
{
    b"0123456789ABCDEF"[usize::from(n)]
}

// A DiagCode in four capital hexadecimal digits.
#[tactic(auto, unfolding(hex::specs::Hex::encode_with))]
fn code_digits(code: u16) -> [u8; 4]
    ensures { result ≡ code_text code }
{
    let [high, low] = code.to_be_bytes();
    [
        capital_digit(high / 16),
        capital_digit(high % 16),
        capital_digit(low / 16),
        capital_digit(low % 16),
    ]
}

/// A DiagCode at the end of a text.
pub fn add_code(text: &mut Bytes, code: u16) -> Result<(), Memory>
    ensures { OnOk result (text.new ≡ text.old ++ code_text code) }
{
    text.extend_from_slice(&code_digits(code))
}

// Whether a reader of lines may end a line at a character that is no control character.
fn ends_line(c: char) -> bool
    ensures { result ≡ ends_line c }
{
    c == '\u{2028}' || c == '\u{2029}'
}

// Whether a code is no character, and XML cannot hold it.
fn is_no_character(c: char) -> bool
    ensures { result ≡ is_no_character c }
{
    c == '\u{FFFE}' || c == '\u{FFFF}'
}

// Whether a character may stand in a line that is told.
fn is_of_line(c: char) -> bool
    ensures { result ≡ is_of_line c }
{
    !c.is_control() && !ends_line(c) && !is_no_character(c)
}

// The small hexadecimal digit of a number up to 15.
fn small_digit(number: u8) -> u8
    requires { number < 16 }
    ensures { result ≡ hex_digit number }
{
    if number < 10 {
        number + 48
    } else {
        number + 87
    }
}

// A byte by its two hexadecimal digits.
fn add_coded(text: &mut Bytes, byte: u8) -> Result<(), Memory>
    ensures { OnOk result (text.new ≡ text.old ++ coded byte) }
{
    let digits = [b'\\', b'x', small_digit(byte / 16), small_digit(byte % 16)];
    text.extend_from_slice(&digits)
}

// Bytes by their digits.
fn add_all_coded(text: &mut Bytes, bytes: &[u8]) -> Result<(), Memory>
    ensures { OnOk result (text.new ≡ text.old ++ flat_map coded bytes.now) }
{
    for byte in bytes {
        add_coded(text, *byte)?;
    }
    Ok(())
}

// A character of a name.
fn add_shown_char(text: &mut Bytes, c: char) -> Result<(), Memory>
    ensures { OnOk result (text.new ≡ text.old ++ shown_char c) }
{
    if c == '\\' {
        return text.extend_from_slice(b"\\\\");
    }
    let mut buffer = [0; 4];
    let bytes = c.encode_utf8(&mut buffer).as_bytes();
    if is_of_line(c) {
        text.extend_from_slice(bytes)
    } else {
        add_all_coded(text, bytes)
    }
}

/// A name from outside, as that of a file or a word of the call: a backslash stands twice, and a character that may not
/// stand in a line (a control character, U+2028, U+2029, and U+FFFE and U+FFFF, which XML cannot hold) stands as its
/// bytes, as `\x0a`. All else stands as it is.
pub fn add_shown(text: &mut Bytes, name: &str) -> Result<(), Memory>
    ensures { OnOk result (text.new ≡ text.old ++ shown name.now) }
{
    for c in name.chars() {
        add_shown_char(text, c)?;
    }
    Ok(())
}

/// A file and a line of it, as `press.cases:7`.
pub fn add_place(text: &mut Bytes, file: &str, line: u32) -> Result<(), Memory>
    ensures { OnOk result (text.new ≡ text.old ++ place_text file.now line) }
{
    add_shown(text, file)?;
    text.extend_from_slice(b":")?;
    add_short(text, line)
}
