// A list of faults.

use ps_base::Memory;
use ps_model::Fault;
use std::alloc::Global;
use std::marker::Model;

/// Faults in the order of their file, which contracts see as a list.
#[derive(Drop)]
pub struct Faults {
    items: Vec<Fault>,
}

impl Model for Faults {
    ghost use Rattle.std.specs.Prelude.{List};
    ghost use Rattle.ps_model.specs.declared.channel.Fault.{Fault};

    ghost Value = { List Fault };

    ghost view = { λ f. f.items.items };
}

impl Faults {
    ghost use Rattle.std.specs.Prelude.{◌≡◌, ◌<◌, [], ◌∷◌, ◌++◌, OnOk, Some, length, slice_get};

    /// No faults. It takes no memory.
    pub fn new(alloc: Global) -> Faults
        ensures { result ≡ [] }
    {
        Faults {
            items: Vec::new(alloc),
        }
    }

    // These faults.
    pub(crate) fn of(items: Vec<Fault>) -> Faults
        ensures { result ≡ items.items }
    {
        Faults { items }
    }

    /// One more fault at the end.
    pub fn push(&mut self, fault: Fault) -> Result<(), Memory>
        ensures { OnOk result (self.new ≡ self.old ++ fault ∷ []) }
    {
        self.items.push(fault)?;
        Ok(())
    }

    /// How many there are.
    pub fn len(&self) -> usize
        ensures { result ≡ length self.now }
    {
        self.items.len()
    }

    /// The fault at a place, counted from 0.
    pub fn at(&self, i: usize) -> &Fault
        requires { i < length self.now }
        ensures { slice_get self.now i ≡ Some result.now }
    {
        &self.items[i]
    }

    /// The faults as a slice.
    pub fn as_slice(&self) -> &[Fault]
        ensures { result.now ≡ self.now }
    {
        self.items.as_slice()
    }
}
