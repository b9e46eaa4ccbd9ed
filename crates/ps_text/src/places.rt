// The places of messages, and their numbers.

ghost use Rattle.std.specs.Prelude.{◌≡◌, ◌++◌, decimal, OnOk};
ghost use Rattle.ps_text.specs.Lines.{place_shown};

use itoa::Buffer;
use ps_base::{Bytes, Memory};

/// The most bytes of a file's name that are shown.
pub const MOST_OF_FILE: usize = 255;

/// A mark and a number at the end of a message.
pub fn add_number(message: &mut Bytes, mark: &[u8], number: u32) -> Result<(), Memory>
    ensures { OnOk result (message.new ≡ message.old ++ mark.now ++ decimal number) }
{
    let mut digits = Buffer::new();
    message.extend_from_slice(mark)?;
    message.extend_from_slice(digits.format(number).as_bytes())
}

/// A place after the name of a file, or nothing.
pub fn add_place(message: &mut Bytes, line: u32, column: u32) -> Result<(), Memory>
    ensures { OnOk result (message.new ≡ message.old ++ place_shown (record { line = line; column = column })) }
{
    if line == 0 {
        return Ok(());
    }
    add_number(message, b":", line)?;
    if column > 0 {
        add_number(message, b":", column)?;
    }
    Ok(())
}
