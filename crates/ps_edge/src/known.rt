// A listener and an output of which contracts know what their calls answer.

ghost use Rattle.std.specs.Prelude.{◌≡◌, ◌++◌, ℕ, List, Bool, Option, IsTrue, None, [], false};
ghost use Rattle.ps_message.specs.declared.statuses.Unread.{Unread as UnreadOf};
ghost use Rattle.ps_edge.specs.Hearing.{IsFirst, heard_of};

use ps_base::Bytes;
use ps_message::{Listener, StandardError, Unread, hear_bytes};
use ps_outside::{MemSink, Output, StdSink};
use std::alloc::Global;
use std::io::{BufWriter, Eprint, Write};
use std::rt;
use std::rt::Env;

/// A listener of which contracts also know, where it tells what it hears, which texts it reads, why it cannot read
/// one, and for how many bytes more it has room.
pub trait KnownListener: Listener {
    /// The text that it reads under each name, where it tells.
    ghost reads: { Self → List ℕ → List ℕ };

    /// Why it can read none under a name, where it tells; None where it can.
    ghost unread: { Self → List ℕ → Option UnreadOf };

    /// How many bytes more it has room for, where it tells.
    ghost room: { Self → ℕ };

    /// The first `most` bytes of the text of a name, for a message that quotes it; empty where it cannot be read, or
    /// memory is out.
    fn first_of(&self, alloc: Global, name: &str, most: u32) -> Bytes
        ensures { IsTrue (Self.tells self.now) → IsFirst most (reads self.now name.now) result };

    /// Why the text of a name cannot be read, or None where it can.
    fn reason(&self, name: &str) -> Option<Unread>
        ensures { IsTrue (Self.tells self.now) → result ≡ unread self.now name.now };

    /// Hears bytes, where there is room for them, and else nothing.
    fn hear_all(&mut self, bytes: &[u8])
        ensures heard { IsTrue (Self.tells self.old) →
            Self.heard self.new ≡ Self.heard self.old ++ heard_of (room self.old) bytes.now }
        ensures telling { Self.tells self.new ≡ Self.tells self.old };
}

impl<'a, R: Env + rt::Files + Eprint + AllocGlobal> KnownListener for StandardError<'a, R> {
    ghost reads = { λ _ _. [] };

    ghost unread = { λ _ _. None };

    ghost room = { λ _. 0 };

    fn first_of(&self, alloc: Global, name: &str, most: u32) -> Bytes {
        self.text_of(alloc, name, most)
    }

    fn reason(&self, name: &str) -> Option<Unread> {
        self.why_unread(name)
    }

    fn hear_all(&mut self, bytes: &[u8]) {
        hear_bytes(self, bytes);
    }
}

/// An output of which contracts also know, where it tells what it took, whether nobody reads it any more.
pub trait KnownOutput: Output {
    /// Whether nobody reads it any more, where it tells.
    ghost closed: { Self → Bool };

    /// Whether nobody reads it any more, as after `| head`.
    fn is_unread(&self) -> bool
        ensures { IsTrue (Self.tells self.now) → result ≡ closed self.now };
}

impl<W: Write + Drop> KnownOutput for StdSink<BufWriter<W>> {
    ghost closed = { λ _. false };

    fn is_unread(&self) -> bool {
        self.is_closed()
    }
}

// It is read to its end.
impl KnownOutput for MemSink {
    ghost closed = { λ _. false };

    fn is_unread(&self) -> bool {
        false
    }
}
