// The words of a call, as a list.

ghost use Rattle.std.specs.Prelude.{◌≡◌, ◌<◌, [], ◌∷◌, ◌++◌, OnOk, Some, length, slice_get};

use ps_base::{Label, Memory};
use std::alloc::Global;
use std::marker::Model;

/// The words of a call, those after the program's name, which contracts see as a list of their bytes.
#[derive(Drop)]
pub struct Words {
    items: Vec<Label>,
}

impl Model for Words {
    ghost use Rattle.std.specs.Prelude.{List, ℕ};

    ghost Value = { List (List ℕ) };

    ghost view = { λ w. w.items.items };
}

impl Words {
    /// No words. It takes no memory.
    pub fn new(alloc: Global) -> Words
        ensures { result ≡ [] }
    {
        Words {
            items: Vec::new(alloc),
        }
    }

    /// One more word at the end.
    pub fn push(&mut self, word: Label) -> Result<(), Memory>
        ensures { OnOk result (self.new ≡ self.old ++ word ∷ []) }
    {
        self.items.push(word)?;
        Ok(())
    }

    /// How many words there are.
    pub fn len(&self) -> usize
        ensures { result ≡ length self.now }
    {
        self.items.len()
    }

    /// The word at a place, counted from 0.
    pub fn at(&self, i: usize) -> &Label
        requires { i < length self.now }
        ensures { slice_get self.now i ≡ Some result.now }
    {
        &self.items[i]
    }
}
