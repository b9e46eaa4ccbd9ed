// Names at their places.

ghost use Rattle.std.specs.Prelude.{◌≡◌, ◌<◌, [], ◌∷◌, ◌++◌, OnOk, length, Some, slice_get};

use ps_base::{Bytes, Memory, Place};
use std::alloc::Global;
use std::marker::Model;

/// A name as it is spelt, at the place of its first byte.
#[derive(Drop)]
pub struct Name {
    pub text: Bytes,
    pub place: Place,
}

/// Names in order, which contracts see as a list.
#[derive(Drop)]
pub struct Names {
    items: Vec<Name>,
}

impl Model for Names {
    ghost use Rattle.std.specs.Prelude.{List};
    ghost use Rattle.ps_parser.specs.declared.name.Name.{Name};

    ghost Value = { List Name };

    ghost view = { λ n. n.items.items };
}

impl Names {
    /// No names. It takes no memory.
    pub fn new(alloc: Global) -> Names
        ensures { result ≡ [] }
    {
        Names {
            items: Vec::new(alloc),
        }
    }

    /// One more name at the end.
    pub fn push(&mut self, name: Name) -> Result<(), Memory>
        ensures { OnOk result (self.new ≡ self.old ++ name ∷ []) }
    {
        self.items.push(name)?;
        Ok(())
    }

    /// How many there are.
    pub fn len(&self) -> usize
        ensures { result ≡ length self.now }
    {
        self.items.len()
    }

    /// The name at a place of the list.
    pub fn at(&self, i: usize) -> &Name
        requires { i < length self.now }
        ensures { slice_get self.now i ≡ Some result.now }
    {
        &self.items[i]
    }

    /// The names as a slice.
    pub fn as_slice(&self) -> &[Name]
        ensures { result.now ≡ self.now }
    {
        self.items.as_slice()
    }
}
