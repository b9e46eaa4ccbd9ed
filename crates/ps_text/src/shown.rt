// Bytes that a user wrote, as a terminal may take them.

ghost use Rattle.std.specs.Prelude.{◌≡◌, ◌++◌, ◌<◌, [], ◌∷◌, OnOk};
ghost use Rattle.hex.specs.Hex.{encode_lower};
ghost use Rattle.ps_text.specs.Shown.{shown_byte, shown, dots, first_shown, last_shown};

use ps_base::{Bytes, Memory};

// The two hexadecimal digits of a byte.
fn hex_digits(byte: u8) -> [u8; 2]
    ensures { result ≡ encode_lower (byte ∷ []) }
{
    let mut digits = [b'0'; 2];
    match hex::encode_to_slice([byte], &mut digits) {
        Ok(()) => digits,
        Err(_) => unreachable!(),
    }
}

// One byte at the end of a message.
fn add_byte(message: &mut Bytes, byte: u8) -> Result<(), Memory>
    ensures { OnOk result (message.new ≡ message.old ++ shown_byte byte) }
{
    if byte == b' ' || byte.is_ascii_graphic() {
        return message.push(byte);
    }
    message.extend_from_slice(b"\\x")?;
    message.extend_from_slice(&hex_digits(byte))
}

// These bytes at the end of a message.
fn add_shown(message: &mut Bytes, bytes: &[u8]) -> Result<(), Memory>
    ensures { OnOk result (message.new ≡ message.old ++ shown bytes.now) }
{
    for byte in bytes {
        add_byte(message, *byte)?;
    }
    Ok(())
}

// Three dots at the end of a message, where bytes are left out.
fn add_dots(message: &mut Bytes, left_out: bool) -> Result<(), Memory>
    ensures { OnOk result (message.new ≡ message.old ++ dots left_out) }
{
    message.extend_from_slice(if left_out { b"..." } else { b"" })
}

/// The first bytes, at most so many, and dots for what is left out after them.
pub fn add_first(message: &mut Bytes, bytes: &[u8], most: usize) -> Result<(), Memory>
    ensures { OnOk result (message.new ≡ message.old ++ first_shown most bytes.now) }
{
    add_shown(message, &bytes[..most.min(bytes.len())])?;
    add_dots(message, most < bytes.len())
}

/// The last bytes, at most so many, after dots for what is left out before them.
pub fn add_last(message: &mut Bytes, bytes: &[u8], most: usize) -> Result<(), Memory>
    ensures { OnOk result (message.new ≡ message.old ++ last_shown most bytes.now) }
{
    add_dots(message, most < bytes.len())?;
    add_shown(message, &bytes[bytes.len().saturating_sub(most)..])
}
