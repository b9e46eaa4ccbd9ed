// What is told, while it is written.

ghost use Rattle.std.specs.Prelude.{◌≡◌, ◌++◌, [], IfOk, IsTrue, true};
ghost use Rattle.ps_findings.specs.Said.{HasSaid};
ghost use Rattle.ps_findings.specs.Usage.{in_marks};

use itoa::Buffer;
use ps_base::{Bytes, Fail, Memory};
use std::alloc::Global;

// As many bytes of a word as are shown.
const MOST_OF_WORD: usize = 40;

/// What is told, while it is written. Where memory runs out it notes that, and is asked for it once, at the end.
#[derive(Drop)]
pub(crate) struct Telling {
    alloc: Global,
    bytes: Bytes,
    is_whole: bool,
}

impl Telling {
    /// Nothing yet. It takes no memory.
    pub(crate) fn new(alloc: Global) -> Telling
        ensures none { result.bytes ≡ [] }
        ensures whole { result.is_whole ≡ true }
    {
        Telling {
            alloc,
            bytes: Bytes::new(alloc),
            is_whole: true,
        }
    }

    /// Whether nothing is told.
    pub(crate) fn is_empty(&self) -> bool {
        self.bytes.len() == 0
    }

    /// Where memory comes from.
    pub(crate) fn alloc(&self) -> Global {
        self.alloc
    }

    /// Memory ran out for something that is to be told.
    pub(crate) fn spoil(&mut self) {
        self.is_whole = false;
    }

    /// What was found, or nothing where a rule refuses it, or memory ran out for it: that is noted.
    pub(crate) fn found<T: Drop>(&mut self, given: Result<T, Fail>) -> Option<T> {
        match given {
            Ok(value) => Some(value),
            Err(Fail::Memory) => {
                self.spoil();
                None
            }
            Err(Fail::Refused(_)) => None,
        }
    }

    /// These bytes.
    pub(crate) fn add(&mut self, bytes: &[u8])
        ensures { HasSaid bytes.now self.old self.new }
    {
        if self.bytes.extend_from_slice(bytes).is_err() {
            self.is_whole = false;
        }
    }

    /// These bytes without carriage returns.
    pub(crate) fn add_without_returns(&mut self, bytes: &[u8]) {
        for byte in bytes {
            if *byte != b'\r' {
                self.add(&[*byte]);
            }
        }
    }

    /// A number in digits.
    pub(crate) fn add_digits(&mut self, number: u32) {
        let mut digits = Buffer::new();
        self.add(digits.format(number).as_bytes());
    }

    /// A word in quotation marks, of which the first 40 bytes are shown.
    pub(crate) fn add_word(&mut self, word: &[u8])
        ensures { HasSaid (in_marks word.now) self.old self.new }
    {
        self.add(b"\"");
        self.add(&word[..word.len().min(MOST_OF_WORD)]);
        self.add(b"\"");
    }

    /// A word in quotation marks between these bytes.
    pub(crate) fn say(&mut self, head: &[u8], word: &[u8], tail: &[u8])
        ensures { HasSaid (head.now ++ in_marks word.now ++ tail.now) self.old self.new }
    {
        self.add(head);
        self.add_word(word);
        self.add(tail);
    }

    /// A name of a list that begins with a head, after a comma where it is not the first.
    pub(crate) fn add_name(&mut self, head: &[u8], name: &[u8]) {
        self.add(if self.is_empty() { head } else { b", " });
        self.add(name);
    }

    /// All that is told. An error means out of memory.
    pub(crate) fn finish(self) -> Result<Bytes, Memory>
        ensures { IfOk result (λ bytes. IsTrue self.is_whole × (bytes ≡ self.bytes)) }
    {
        if self.is_whole {
            Ok(self.bytes)
        } else {
            Err(Memory)
        }
    }
}
