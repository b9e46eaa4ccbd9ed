// Lines that are known to be short, made without memory.

ghost use Rattle.std.specs.Prelude.{◌≡◌, ◌+◌, ◌≤◌, ◌++◌, ◌∷◌, [], length, decimal, codes};

use itoa::Buffer;
use std::marker::Model;

/// The most bytes of a short line.
pub const LONGEST_SHORT_LINE: usize = 128;

/// A line of at most 128 bytes, which contracts see as the list of its bytes.
#[derive(Drop)]
pub struct ShortLine {
    bytes: [u8; LONGEST_SHORT_LINE],
    len: usize,
}

impl Model for ShortLine {
    ghost use Rattle.std.specs.Prelude.{List, ℕ, take, ◌≤◌};

    ghost Value = { List ℕ };

    ghost view = { λ s. take s.len s.bytes };

    ghost invariant = { λ s. s.len ≤ 128 };
}

impl ShortLine {
    /// The line of these bytes.
    pub fn of(start: &str) -> ShortLine
        requires { length start.now ≤ 128 }
        ensures { result ≡ start.now }
    {
        let mut line = ShortLine {
            bytes: [0; LONGEST_SHORT_LINE],
            len: 0,
        };
        line.put(start);
        line
    }

    /// Puts a text at the end.
    pub fn put(&mut self, text: &str)
        requires { length self.old + length text.now ≤ 128 }
        ensures bytes { self.new ≡ self.old ++ text.now }
        ensures len { length self.new ≡ length self.old + length text.now }
    {
        let upto = self.len + text.len();
        self.bytes[self.len..upto].copy_from_slice(text.as_bytes());
        self.len = upto;
    }

    // A number at the end.
    pub(crate) fn put_number(&mut self, number: u64)
        requires { length self.old + 20 ≤ 128 }
        ensures bytes { self.new ≡ self.old ++ decimal number }
        ensures len { length self.new ≤ length self.old + 20 }
    {
        let mut digits = Buffer::new();
        self.put(digits.format(number));
    }

    /// Puts a number of up to ten digits at the end.
    pub fn put_count(&mut self, number: u32)
        requires { length self.old + 10 ≤ 128 }
        ensures bytes { self.new ≡ self.old ++ decimal number }
        ensures len { length self.new ≤ length self.old + 10 }
    {
        let mut digits = Buffer::new();
        self.put(digits.format(number));
    }

    /// The bytes.
    pub fn as_slice(&self) -> &[u8]
        ensures { result.now ≡ self.now }
    {
        &self.bytes[..self.len]
    }
}
