// Who is told, in words, why a call did not do all.

ghost use Rattle.std.specs.Prelude.{◌≡◌, ℕ, List, Bool, IsTrue};
ghost use Rattle.ps_message.specs.Hearing.{Hears};

use crate::Unread;
use ps_base::Bytes;
use std::alloc::Global;

/// Who is told, in words, why a call did not do all. Nothing of the answer and the status rests on it.
///
/// Contracts know of a listener whether it tells what it hears and, where it does, what that is, and whether it asks
/// for no messages.
pub trait Listener {
    /// Whether the listener tells what it hears. No call changes it.
    ghost tells: { Self → Bool };

    /// Whether it asks for no messages, where it tells.
    ghost quiet: { Self → Bool };

    /// What it has heard, where it tells.
    ghost heard: { Self → List ℕ };

    /// Whether it asks for no messages.
    fn is_quiet(&self) -> bool
        ensures { IsTrue (tells self.now) → result ≡ quiet self.now };

    /// The first `most` bytes of the text of a name, for a message that quotes it; empty where it cannot be read. It
    /// is read apart from the files of the call, so that no count of theirs changes.
    fn text_of(&self, alloc: Global, name: &str, most: u32) -> Bytes;

    /// Why the text of a name cannot be read, or None where it can.
    fn why_unread(&self, name: &str) -> Option<Unread>;

    /// Hears a text, all of it or nothing.
    fn hear(&mut self, text: &str)
        ensures heard { IsTrue (tells self.old) → Hears (λ heard. heard ≡ text.now) (heard self.old) (heard self.new) }
        ensures telling { tells self.new ≡ tells self.old };
}

/// Has a listener hear bytes, where they are UTF-8, and else nothing.
pub fn hear_bytes<L: Listener>(listener: &mut L, bytes: &[u8])
    ensures heard { IsTrue (L.tells listener.old) →
        Hears (λ heard. heard ≡ bytes.now) (L.heard listener.old) (L.heard listener.new) }
    ensures telling { L.tells listener.new ≡ L.tells listener.old }
{
    if let Ok(text) = std::str::from_utf8(bytes) {
        listener.hear(text);
    }
}
