// How a value is written: a byte that could begin or end something else stands as a number.

ghost use Rattle.std.specs.Prelude.{◌≡◌, ◌<◌, ◌++◌, OnOk};
ghost use Rattle.ps_text.specs.Escaping.{attribute_text, escaped, escaped_byte, hex_digit, is_control, is_mark};
ghost use Rattle.ps_text.specs.Escaping.{is_plain};

use ps_base::{Bytes, Memory};

// Whether a byte has a meaning of its own in a page.
fn is_mark(byte: u8) -> bool
    ensures { result ≡ is_mark byte }
{
    byte == b'"' || byte == b'&' || byte == b'\'' || byte == b'<' || byte == b'>'
}

// Whether a byte is a control byte other than a tab or a line feed.
fn is_control(byte: u8) -> bool
    ensures { result ≡ is_control byte }
{
    (byte < 32 && byte != b'\t' && byte != b'\n') || byte == 127
}

// Whether a byte of a value stands for itself.
fn is_plain(byte: u8) -> bool
    ensures { result ≡ is_plain byte }
{
    !is_mark(byte) && !is_control(byte)
}

// The hexadecimal digit of a number.
fn hex_digit(number: u8) -> u8
    requires { number < 16 }
    ensures { result ≡ hex_digit number }
{
    if number < 10 {
        number + 48
    } else {
        number + 87
    }
}

// A byte of a value.
fn add_byte(text: &mut Bytes, byte: u8) -> Result<(), Memory>
    ensures { OnOk result (text.new ≡ text.old ++ escaped_byte byte) }
{
    if is_plain(byte) {
        return text.push(byte);
    }
    let reference = [
        b'&',
        b'#',
        b'x',
        hex_digit(byte / 16),
        hex_digit(byte % 16),
        b';',
    ];
    text.extend_from_slice(&reference)
}

/// A value at the end of a text.
pub fn add_escaped(text: &mut Bytes, value: &[u8]) -> Result<(), Memory>
    ensures { OnOk result (text.new ≡ text.old ++ escaped value.now) }
{
    for byte in value {
        add_byte(text, *byte)?;
    }
    Ok(())
}

/// An attribute of this name with its value, as ` class="pass"`, at the end of a text.
pub fn add_attribute(text: &mut Bytes, name: &[u8], value: &[u8]) -> Result<(), Memory>
    ensures { OnOk result (text.new ≡ text.old ++ attribute_text name.now value.now) }
{
    text.extend_from_slice(b" ")?;
    text.extend_from_slice(name)?;
    text.extend_from_slice(b"=\"")?;
    add_escaped(text, value)?;
    text.extend_from_slice(b"\"")
}
