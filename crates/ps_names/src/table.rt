// Tables of names, keyed without letter case.

ghost use Rattle.std.specs.Prelude.{◌≡◌, List, ℕ, OnOk, IfOk, Some, None, is_some, if◌then◌else◌};
ghost use Rattle.std.specs.Option.{option_or};
ghost use Rattle.ps_base.specs.LetterCase.{is_same_name};
ghost use Rattle.ps_names.specs.NameTables.{place_in};

use indexmap::IndexMap;
use ps_base::Memory;
use ps_parser::Name;
use std::alloc::Global;

/// Names with the place of each in some list, by their text in lower case. A look-up takes the time of one hash.
pub struct Table {
    pub places: IndexMap<Vec<u8>, usize>,
}

impl Drop for Table {
    // One call for whoever owns one, in place of a walk through all that it holds.
    fn drop(self) {
        let Table { places: _ } = self;
    }
}

impl Table {
    /// No names. It takes no memory.
    pub fn new(alloc: Global) -> Table
        ensures { (q : List ℕ) → place_in result q ≡ None }
    {
        Table {
            places: IndexMap::new(alloc),
        }
    }

    /// The place of a name, where the table has it without letter case.
    pub fn place_of(&self, alloc: Global, name: &Name) -> Result<Option<usize>, Memory>
        ensures { IfOk result (λ k. k ≡ place_in self.now name.now.text) }
    {
        let text = name.text.as_slice().to_ascii_lowercase(alloc)?;
        match self.places.get(text.as_slice()) {
            Some(k) => Ok(Some(*k)),
            None => Ok(None),
        }
    }

    /// Enters a name with its place unless the name is there, and says whether it was.
    pub fn enter(&mut self, alloc: Global, name: &Name, at: usize) -> Result<bool, Memory>
        ensures was { IfOk result (λ b. b ≡ is_some (place_in self.old name.now.text)) }
        ensures is { OnOk result ((q : List ℕ) → place_in self.new q ≡ option_or (place_in self.old q) (if is_same_name q name.now.text then Some at else None)) }
    {
        let key = name.text.as_slice().to_ascii_lowercase(alloc)?;
        if self.places.contains_key(key.as_slice()) {
            return Ok(true);
        }
        self.places.insert(key, at)?;
        Ok(false)
    }
}
