// A line that is made in room that was taken before.

ghost use Rattle.std.specs.Prelude.{◌≡◌, ◌+◌, ◌≤◌, ◌++◌, [], length, decimal, IfOk};
ghost use Rattle.ps_report.specs.Lines.{code_text};

use itoa::Buffer;
use ps_base::Memory;
use std::alloc::Global;
use std::marker::Model;

/// A line that is made in room that was taken before. Contracts see what stands in it, and how much room it has.
#[derive(Drop)]
pub struct Line {
    bytes: Vec<u8>,
    len: usize,
}

impl Model for Line {
    ghost use Rattle.std.specs.Prelude.{take, vec_len, ◌≤◌};
    ghost use Rattle.ps_bench_waves.specs.LineTexts.{LineText};

    ghost Value = { LineText };

    ghost view = { λ l. record { text = take l.len l.bytes.items; room = vec_len l.bytes } };

    ghost invariant = { λ l. l.len ≤ vec_len l.bytes };
}

// A DiagCode in four capital hexadecimal digits.
fn code_digits(code: u16) -> [u8; 4]
    ensures { result ≡ code_text code }
{
    let mut digits = [0u8; 4];
    let _written = hex::encode_to_slice(&code.to_be_bytes(), &mut digits);
    digits.make_ascii_uppercase();
    digits
}

impl Line {
    /// An empty line with so much room, in bytes.
    pub fn with_room(alloc: Global, room: usize) -> Result<Line, Memory>
        ensures text { IfOk result (λ l. l.text ≡ []) }
        ensures room { IfOk result (λ l. l.room ≡ room) }
    {
        Ok(Line {
            bytes: vec![in alloc; 0; room]?,
            len: 0,
        })
    }

    /// How many bytes stand in it.
    pub fn len(&self) -> usize
        ensures { result ≡ length self.now.text }
    {
        self.len
    }

    /// Makes it empty.
    pub fn clear(&mut self)
        ensures text { self.new.text ≡ [] }
        ensures room { self.new.room ≡ self.old.room }
    {
        self.len = 0;
    }

    /// Puts bytes at the end.
    pub fn put(&mut self, bytes: &[u8])
        requires { length self.old.text + length bytes.now ≤ self.old.room }
        ensures text { self.new.text ≡ self.old.text ++ bytes.now }
        ensures len { length self.new.text ≡ length self.old.text + length bytes.now }
        ensures room { self.new.room ≡ self.old.room }
    {
        let upto = self.len + bytes.len();
        self.bytes[self.len..upto].copy_from_slice(bytes);
        self.len = upto;
    }

    /// Puts a number of up to ten digits at the end.
    pub fn put_count(&mut self, number: u32)
        requires { length self.old.text + 10 ≤ self.old.room }
        ensures text { self.new.text ≡ self.old.text ++ decimal number }
        ensures len { length self.new.text ≤ length self.old.text + 10 }
        ensures room { self.new.room ≡ self.old.room }
    {
        let mut digits = Buffer::new();
        self.put(digits.format(number).as_bytes());
    }

    /// Puts a DiagCode at the end, in four capital hexadecimal digits.
    pub fn put_code(&mut self, code: u16)
        requires { length self.old.text + 4 ≤ self.old.room }
        ensures text { self.new.text ≡ self.old.text ++ code_text code }
        ensures len { length self.new.text ≡ length self.old.text + 4 }
        ensures room { self.new.room ≡ self.old.room }
    {
        self.put(&code_digits(code));
    }

    /// What stands in it.
    pub fn as_slice(&self) -> &[u8]
        ensures { result.now ≡ self.now.text }
    {
        &self.bytes[..self.len]
    }
}
