// Columns of a line in bytes and in UTF-16 code units.

ghost use Rattle.std.specs.Prelude.{◌≡◌, ◌≤◌, length};
ghost use Rattle.std.specs.Str.{IsCharBoundary};
ghost use Rattle.ps_text.specs.Columns.{IsOffsetOf, unit_width, units};

// How many code units of UTF-16 a byte of UTF-8 brings.
fn unit_width(byte: u8) -> usize
    ensures width { result ≡ unit_width byte }
    ensures small { result ≤ 2 }
{
    if byte < 128 {
        1
    } else if byte < 192 {
        0
    } else if byte < 240 {
        1
    } else {
        2
    }
}

/// How many UTF-16 code units these bytes have: the column, counted from 0, of what stands after them in a line. A
/// byte that begins a character of four bytes brings two, one that goes on with a character none, and each other byte
/// one. It takes no memory.
pub fn utf16_length(bytes: &[u8]) -> usize
    ensures { result ≡ units bytes.now }
{
    let mut length = 0;
    for byte in bytes {
        length += unit_width(*byte);
    }
    length
}

/// The offset in bytes of a column of a line, counted from 0 in UTF-16 code units: the first place between characters
/// with so many units before it. A column after the end of the line is the end, and one between the two units of a
/// character the place after that character. It takes no memory.
pub fn byte_offset(line: &[u8], column: usize) -> usize
    ensures offset { IsOffsetOf line.now column result }
    ensures within { result ≤ length line.now }
    ensures between { IsCharBoundary line.now result }
{
    let mut units = 0;
    let mut offset = 0;
    'step: while offset < line.len() {
        let width = unit_width(line[offset]);
        if width > 0 && units >= column {
            return offset;
        }
        units += width;
        offset += 1;
    }
    offset
}
