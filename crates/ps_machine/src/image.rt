// Compiled code.

use ps_base::Memory;
use std::alloc::Global;
use std::marker::Model;

/// Compiled code, which contracts see as its bytes: at most 4,294,967,295 of them. A channel runs any bytes.
#[derive(Drop)]
pub struct CodeImage {
    items: Vec<u8>,
}

impl Model for CodeImage {
    ghost use Rattle.std.specs.Prelude.{List, ℕ, ◌<◌, ◌^◌, length};

    ghost Value = { List ℕ };

    ghost view = { λ image. image.items.items };

    ghost invariant = { λ image. length image.items.items < 2 ^ 32 };
}

impl CodeImage {
    ghost use Rattle.std.specs.Prelude.{◌≡◌, ◌+◌, ◌<◌, ◌^◌, [], ◌∷◌, ◌++◌, OnOk, length};

    /// No bytes. It takes no memory.
    pub fn new(alloc: Global) -> CodeImage
        ensures { result ≡ [] }
    {
        CodeImage {
            items: Vec::new(alloc),
        }
    }

    /// The image with these bytes. It takes no memory.
    pub fn of(bytes: Vec<u8>) -> CodeImage
        requires { length bytes.items < 2 ^ 32 }
        ensures { result ≡ bytes.items }
    {
        CodeImage { items: bytes }
    }

    /// One more byte at the end, where there is room for it.
    pub fn push(&mut self, byte: u8) -> Result<(), Memory>
        requires { length self.old + 1 < 2 ^ 32 }
        ensures { OnOk result (self.new ≡ self.old ++ byte ∷ []) }
    {
        self.items.push(byte)?;
        Ok(())
    }

    /// These bytes at the end, where there is room for them.
    pub fn extend_from_slice(&mut self, bytes: &[u8]) -> Result<(), Memory>
        requires { length self.old + length bytes.now < 2 ^ 32 }
        ensures { OnOk result (self.new ≡ self.old ++ bytes.now) }
    {
        self.items.extend_from_slice(bytes)?;
        Ok(())
    }

    /// How many bytes there are.
    pub fn len(&self) -> u32
        ensures { result ≡ length self.now }
    {
        self.items.len() as u32
    }

    /// The bytes as a slice.
    pub fn as_slice(&self) -> &[u8]
        ensures bytes { result.now ≡ self.now }
        ensures short { length result.now < 2 ^ 32 }
    {
        self.items.as_slice()
    }
}
