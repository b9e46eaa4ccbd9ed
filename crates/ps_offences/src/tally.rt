// Names that are counted.

ghost use Rattle.std.specs.Prelude.{◌≡◌, List, [], ◌∷◌, ◌++◌, IfOk, OnOk};
ghost use Rattle.ps_parser.specs.declared.name.Name.{Name};
ghost use Rattle.ps_offences.specs.BlockRules.{is_once};
ghost use Rattle.ps_offences.specs.Tallies.{Counts};

use ps_base::Memory;
use ps_names::Table;
use ps_parser::Name;
use std::alloc::Global;

/// Which names were counted, and which of them more than once, without letter case.
pub struct Tally {
    pub once: Table,
    pub again: Table,
}

impl Drop for Tally {
    // One call for whoever owns one, in place of a walk through all that it holds.
    fn drop(self) {
        let Tally { once: _, again: _ } = self;
    }
}

impl Tally {
    /// Nothing is counted. It takes no memory.
    pub fn new(alloc: Global) -> Tally
        ensures { Counts result [] }
    {
        Tally {
            once: Table::new(alloc),
            again: Table::new(alloc),
        }
    }

    /// Counts one more name.
    pub fn count(&mut self, alloc: Global, name: &Name) -> Result<(), Memory>
        ensures { OnOk result ((ns : List Name) → Counts self.old ns → Counts self.new (ns ++ name.now ∷ [])) }
    {
        let was = self.once.enter(alloc, name, 0)?;
        if was {
            self.again.enter(alloc, name, 0)?;
        }
        Ok(())
    }

    /// Whether a name was counted exactly once.
    pub fn is_once(&self, alloc: Global, name: &Name) -> Result<bool, Memory>
        ensures { IfOk result (λ b. (ns : List Name) → Counts self.now ns → b ≡ is_once name.now ns) }
    {
        let once = self.once.place_of(alloc, name)?.is_some();
        let again = self.again.place_of(alloc, name)?.is_some();
        Ok(once && !again)
    }
}
