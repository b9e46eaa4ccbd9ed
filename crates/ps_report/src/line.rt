// The lines of a run, made in room that is taken before the first scan.

ghost use Rattle.std.specs.Prelude.{◌≡◌, ◌+◌, ◌≤◌, ◌<◌, ◌++◌, ◌∷◌, [], length, slice_index, decimal, take};
ghost use Rattle.std.specs.Char.{to_ascii_uppercase};
ghost use Rattle.hex.specs.Hex.{lower_digits};
ghost use Rattle.ps_report.specs.Digits.{truth_digit};
ghost use Rattle.ps_report.specs.Lines.{code_text, named_value, named_diag};

use itoa::Buffer;
use ps_model::Diag;

// Puts these bytes at a place of a line that has room for them. What is answered is the place after them.
pub(crate) fn put(line: &mut [u8], at: usize, bytes: &[u8]) -> usize
    requires { at + length bytes.now ≤ length line.old }
    ensures bytes { take result line.new ≡ take at line.old ++ bytes.now }
    ensures end { result ≡ at + length bytes.now }
    ensures len { length line.new ≡ length line.old }
{
    let end = at + bytes.len();
    line[at..end].copy_from_slice(bytes);
    end
}

// Puts a byte at a place of a line. What is answered is the place after it.
pub(crate) fn put_byte(line: &mut [u8], at: usize, byte: u8) -> usize
    requires { at < length line.old }
    ensures bytes { take result line.new ≡ take at line.old ++ byte ∷ [] }
    ensures end { result ≡ at + 1 }
    ensures len { length line.new ≡ length line.old }
{
    line[at] = byte;
    at + 1
}

// Puts a number at a place of a line that has room for ten digits. What is answered is the place after it.
pub(crate) fn put_number(line: &mut [u8], at: usize, number: u32) -> usize
    requires { at + 10 ≤ length line.old }
    ensures bytes { take result line.new ≡ take at line.old ++ decimal number }
    ensures end { result ≤ at + 10 }
    ensures len { length line.new ≡ length line.old }
{
    let mut digits = Buffer::new();
    put(line, at, digits.format(number).as_bytes())
}

// The digit of a truth value.
pub(crate) fn truth_digit(value: bool) -> u8
    ensures { result ≡ truth_digit value }
{
    if value { b'1' } else { b'0' }
}

// The capital hexadecimal digit of a number up to 15.
fn capital_digit(n: u8) -> u8
    requires { n < 16 }
    ensures { result ≡ to_ascii_uppercase (slice_index lower_digits n) }
{
    b"0123456789ABCDEF"[usize::from(n)]
}

// A DiagCode in four capital hexadecimal digits.
#[tactic(auto, unfolding(hex::specs::Hex::encode_with))]
fn code_digits(code: u16) -> [u8; 4]
    ensures { result ≡ code_text code }
{
    let [high, low] = code.to_be_bytes();
    [
        capital_digit(high / 16),
        capital_digit(high % 16),
        capital_digit(low / 16),
        capital_digit(low % 16),
    ]
}

// Puts a name with a truth value, as ` S_Motor=1`, at a place of a line. What is answered is the place after it.
pub(crate) fn put_named_value(line: &mut [u8], at: usize, name: &str, value: bool) -> usize
    requires { at + (length name.now + 3) ≤ length line.old }
    ensures bytes { take result line.new ≡ take at line.old ++ named_value name.now value }
    ensures end { result ≡ at + (length name.now + 3) }
    ensures len { length line.new ≡ length line.old }
{
    let at = put_byte(line, at, b' ');
    let at = put(line, at, name.as_bytes());
    let at = put_byte(line, at, b'=');
    put_byte(line, at, truth_digit(value))
}

// Puts a name with Ready, Error and DiagCode, as ` E=1,0,8000`, at a place of a line. What is answered is the place
// after it.
pub(crate) fn put_named_diag(line: &mut [u8], at: usize, name: &str, diag: Diag) -> usize
    requires { at + (length name.now + 10) ≤ length line.old }
    ensures bytes { take result line.new ≡ take at line.old ++ named_diag name.now diag }
    ensures end { result ≡ at + (length name.now + 10) }
    ensures len { length line.new ≡ length line.old }
{
    let at = put_named_value(line, at, name, diag.ready);
    let at = put_byte(line, at, b',');
    let at = put_byte(line, at, truth_digit(diag.error));
    let at = put_byte(line, at, b',');
    put(line, at, &code_digits(diag.code))
}
