// Text that is made in room which was taken before. Each call puts bytes at a place that has room for them, and answers
// the place after them.

ghost use Rattle.std.specs.Prelude.{◌≡◌, ◌+◌, ◌≤◌, ◌<◌, ◌++◌, ◌∷◌, [], length, decimal, take};

use itoa::Buffer;

// Puts bytes.
pub(crate) fn put(text: &mut [u8], at: usize, bytes: &[u8]) -> usize
    requires { at + length bytes.now ≤ length text.old }
    ensures bytes { take result text.new ≡ take at text.old ++ bytes.now }
    ensures end { result ≡ at + length bytes.now }
    ensures len { length text.new ≡ length text.old }
{
    let end = at + bytes.len();
    text[at..end].copy_from_slice(bytes);
    end
}

// Puts a byte.
pub(crate) fn put_byte(text: &mut [u8], at: usize, byte: u8) -> usize
    requires { at < length text.old }
    ensures bytes { take result text.new ≡ take at text.old ++ byte ∷ [] }
    ensures end { result ≡ at + 1 }
    ensures len { length text.new ≡ length text.old }
{
    text[at] = byte;
    at + 1
}

// Puts a number of up to ten digits.
pub(crate) fn put_number(text: &mut [u8], at: usize, number: u32) -> usize
    requires { at + 10 ≤ length text.old }
    ensures bytes { take result text.new ≡ take at text.old ++ decimal number }
    ensures end { result ≤ at + 10 }
    ensures len { length text.new ≡ length text.old }
{
    let mut digits = Buffer::new();
    put(text, at, digits.format(number).as_bytes())
}
