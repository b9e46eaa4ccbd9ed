// Bytes for which memory is taken beforehand.

ghost use Rattle.std.specs.Prelude.{◌≡◌, [], IfOk, length};
ghost use Rattle.ps_bench_cases.specs.HeldBytes.{IsAdded};

use ps_base::Memory;
use std::alloc::Global;
use std::marker::Model;

/// Bytes that keep their room where they are cleared. Contracts see them as their list.
#[derive(Drop)]
pub struct Held {
    items: Vec<u8>,
}

impl Model for Held {
    ghost use Rattle.std.specs.Prelude.{List, ℕ};

    ghost Value = { List ℕ };

    ghost view = { λ held. held.items.items };
}

impl Held {
    // No bytes, and room for so many.
    pub(crate) fn with_room(alloc: Global, room: usize) -> Result<Held, Memory>
        ensures { IfOk result (λ held. held ≡ []) }
    {
        let items = Vec::with_capacity(alloc, room)?;
        Ok(Held { items })
    }

    // No bytes are left.
    pub(crate) fn clear(&mut self)
        ensures { self.new ≡ [] }
    {
        self.items.clear();
    }

    // These bytes at the end, if all before them are there. It takes no memory where there is room for them. False:
    // not all are there, since memory ran out.
    pub(crate) fn add(&mut self, whole: bool, bytes: &[u8]) -> bool
        ensures { IsAdded whole self.old bytes.now self.new result }
    {
        if !whole {
            return false;
        }
        match self.items.extend_from_slice(bytes) {
            Ok(()) => true,
            Err(_) => false,
        }
    }

    // How many bytes there are.
    pub(crate) fn len(&self) -> usize
        ensures { result ≡ length self.now }
    {
        self.items.len()
    }

    // The bytes as a slice.
    pub(crate) fn as_slice(&self) -> &[u8]
        ensures { result.now ≡ self.now }
    {
        self.items.as_slice()
    }
}
