// Lists of truth values, of first pins and of kinds.

use crate::kind::Kind;
use ps_base::Memory;
use std::alloc::Global;
use std::marker::Model;

/// Truth values, which contracts see as a list.
#[derive(Drop)]
pub struct Bits {
    items: Vec<bool>,
}

impl Model for Bits {
    ghost use Rattle.std.specs.Prelude.{List, Bool};

    ghost Value = { List Bool };

    ghost view = { λ b. b.items.items };
}

impl Bits {
    ghost use Rattle.std.specs.Prelude.{◌≡◌, ◌<◌, [], ◌∷◌, ◌++◌, IfOk, OnOk, Some, false, length, replicate, slice_get, slice_set};

    /// No values. It takes no memory.
    pub fn new(alloc: Global) -> Bits
        ensures { result ≡ [] }
    {
        Bits {
            items: Vec::new(alloc),
        }
    }

    /// This many values, each FALSE. `Err` comes only if memory runs out.
    pub fn all_false(alloc: Global, count: usize) -> Result<Bits, Memory>
        ensures { IfOk result (λ b. b ≡ replicate count false) }
    {
        let items = vec![in alloc; false; count]?;
        Ok(Bits { items })
    }

    /// One more value at the end. `Err` comes only if memory runs out.
    pub fn push(&mut self, value: bool) -> Result<(), Memory>
        ensures { OnOk result (self.new ≡ self.old ++ value ∷ []) }
    {
        self.items.push(value)?;
        Ok(())
    }

    /// How many there are.
    pub fn len(&self) -> usize
        ensures { result ≡ length self.now }
    {
        self.items.len()
    }

    /// The value at a place, counted from 0.
    pub fn at(&self, i: usize) -> bool
        requires { i < length self.now }
        ensures { slice_get self.now i ≡ Some result }
    {
        self.items[i]
    }

    /// Puts a value at a place.
    pub fn set(&mut self, i: usize, value: bool)
        requires { i < length self.old }
        ensures { self.new ≡ slice_set self.old i value }
    {
        self.items[i] = value;
    }

    /// Makes each value FALSE. It takes no memory.
    pub fn clear(&mut self)
        ensures { self.new ≡ replicate (length self.old) false }
    {
        self.items.as_mut_slice().fill(false);
    }

    /// The values as a slice.
    pub fn as_slice(&self) -> &[bool]
        ensures { result.now ≡ self.now }
    {
        self.items.as_slice()
    }
}

/// First output signals of instances, which contracts see as a list.
#[derive(Drop)]
pub struct FirstPins {
    items: Vec<u16>,
}

impl Model for FirstPins {
    ghost use Rattle.std.specs.Prelude.{List, ℕ};

    ghost Value = { List ℕ };

    ghost view = { λ f. f.items.items };
}

impl FirstPins {
    ghost use Rattle.std.specs.Prelude.{◌≡◌, ◌<◌, [], ◌∷◌, ◌++◌, OnOk, Some, length, slice_get};

    /// None. It takes no memory.
    pub fn new(alloc: Global) -> FirstPins
        ensures { result ≡ [] }
    {
        FirstPins {
            items: Vec::new(alloc),
        }
    }

    /// One more at the end. `Err` comes only if memory runs out.
    pub fn push(&mut self, first: u16) -> Result<(), Memory>
        ensures { OnOk result (self.new ≡ self.old ++ first ∷ []) }
    {
        self.items.push(first)?;
        Ok(())
    }

    /// How many there are.
    pub fn len(&self) -> usize
        ensures { result ≡ length self.now }
    {
        self.items.len()
    }

    /// That of an instance, by its number.
    pub fn at(&self, i: usize) -> u16
        requires { i < length self.now }
        ensures { slice_get self.now i ≡ Some result }
    {
        self.items[i]
    }
}

/// Kinds of instances, which contracts see as a list.
#[derive(Drop)]
pub struct Kinds {
    items: Vec<Kind>,
}

impl Model for Kinds {
    ghost use Rattle.std.specs.Prelude.{List};
    ghost use Rattle.ps_model.specs.declared.kind.Kind.{Kind};

    ghost Value = { List Kind };

    ghost view = { λ k. k.items.items };
}

impl Kinds {
    ghost use Rattle.std.specs.Prelude.{◌≡◌, ◌<◌, [], ◌∷◌, ◌++◌, OnOk, Some, length, slice_get};

    /// None. It takes no memory.
    pub fn new(alloc: Global) -> Kinds
        ensures { result ≡ [] }
    {
        Kinds {
            items: Vec::new(alloc),
        }
    }

    /// One more at the end. `Err` comes only if memory runs out.
    pub fn push(&mut self, kind: Kind) -> Result<(), Memory>
        ensures { OnOk result (self.new ≡ self.old ++ kind ∷ []) }
    {
        self.items.push(kind)?;
        Ok(())
    }

    /// How many there are.
    pub fn len(&self) -> usize
        ensures { result ≡ length self.now }
    {
        self.items.len()
    }

    /// That of an instance, by its number.
    pub fn at(&self, i: usize) -> Kind
        requires { i < length self.now }
        ensures { slice_get self.now i ≡ Some result }
    {
        self.items[i]
    }
}
