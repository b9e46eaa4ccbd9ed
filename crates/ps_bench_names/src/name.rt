// Whose value is looked at, the values that it may have, and the values that inputs take.

use ps_base::Memory;
use std::alloc::Global;
use std::marker::Model;

/// Whose value is looked at.
#[derive(Clone, Copy)]
pub enum Name {
    /// Of an input, an output or a local, by its number among them.
    Signal(u16),
    /// The DiagCode of an instance, by its number.
    Code(u16),
    /// Of a BOOL or SAFEBOOL pin of an instance, by their numbers.
    Pin {
        /// The instance.
        instance: u16,
        /// The pin among those of its kind, with the numbers of `pin_row`.
        pin: u8,
    },
}

/// The values of a check, which contracts see as a list.
#[derive(Drop)]
pub struct Values {
    items: Vec<u16>,
}

impl Model for Values {
    ghost use Rattle.std.specs.Prelude.{List, ℕ};

    ghost Value = { List ℕ };

    ghost view = { λ x. x.items.items };
}

impl Values {
    ghost use Rattle.std.specs.Prelude.{◌≡◌, [], ◌∷◌, ◌++◌, OnOk};

    /// There are no values. It takes no memory.
    pub fn new(alloc: Global) -> Values
        ensures { result ≡ [] }
    {
        Values {
            items: Vec::new(alloc),
        }
    }

    /// One more value at the end. `Err` comes only if memory runs out.
    pub fn push(&mut self, value: u16) -> Result<(), Memory>
        ensures { OnOk result (self.new ≡ self.old ++ value ∷ []) }
    {
        self.items.push(value)?;
        Ok(())
    }

    /// All of them, as a slice.
    pub fn as_slice(&self) -> &[u16]
        ensures { result.now ≡ self.now }
    {
        self.items.as_slice()
    }
}

/// An input takes a value.
#[derive(Clone, Copy)]
pub struct Setting {
    /// The number of the input, in order of declaration, counted from 0.
    pub input: u16,
    /// Its value from now on.
    pub value: bool,
}

/// The settings of a line, which contracts see as a list.
#[derive(Drop)]
pub struct Settings {
    items: Vec<Setting>,
}

impl Model for Settings {
    ghost use Rattle.std.specs.Prelude.{List};
    ghost use Rattle.ps_bench_names.specs.declared.name.Setting.{Setting};

    ghost Value = { List Setting };

    ghost view = { λ x. x.items.items };
}

impl Settings {
    ghost use Rattle.std.specs.Prelude.{◌≡◌, [], ◌∷◌, ◌++◌, OnOk};

    /// There are no settings. It takes no memory.
    pub fn new(alloc: Global) -> Settings
        ensures { result ≡ [] }
    {
        Settings {
            items: Vec::new(alloc),
        }
    }

    /// One more setting at the end. `Err` comes only if memory runs out.
    pub fn push(&mut self, setting: Setting) -> Result<(), Memory>
        ensures { OnOk result (self.new ≡ self.old ++ setting ∷ []) }
    {
        self.items.push(setting)?;
        Ok(())
    }

    /// All of them, as a slice.
    pub fn as_slice(&self) -> &[Setting]
        ensures { result.now ≡ self.now }
    {
        self.items.as_slice()
    }
}
