// The declared names of a body, found by name.

ghost use Rattle.std.specs.Prelude.{◌≡◌, IfOk};
ghost use Rattle.std.specs.Option.{option_copied};
ghost use Rattle.ps_derived.specs.Bodies.{declared_names, first_declared};

use crate::declared::{Declared, declared_names, index};
use ps_base::Memory;
use ps_names::Table;
use ps_parser::{Name, Section};
use std::alloc::Global;
use std::marker::Model;

/// The declared names of a body in order, with the place of each one's first declaration, which contracts see as a
/// list.
pub struct Scope {
    declared: Vec<Declared>,
    table: Table,
}

impl Drop for Scope {
    // One call for whoever owns one, in place of a walk through all that it holds.
    fn drop(self) {
        let Scope {
            declared: _,
            table: _,
        } = self;
    }
}

impl Model for Scope {
    ghost use Rattle.std.specs.Prelude.{List};
    ghost use Rattle.ps_derived.specs.declared.declared.Declared.{Declared};

    ghost Value = { List Declared };

    ghost use Rattle.ps_names.specs.NameTables.{Indexes};

    ghost view = { λ s. s.declared.items };

    ghost invariant = { λ s. Indexes (λ d. d.name) s.table s.declared.items };
}

impl Scope {
    /// The names that these sections declare.
    pub fn of(alloc: Global, sections: &[Section]) -> Result<Scope, Memory>
        ensures { IfOk result (λ s. s ≡ declared_names sections.now) }
    {
        let declared = declared_names(alloc, sections)?;
        let table = index(alloc, &declared)?;
        Ok(Scope { declared, table })
    }

    /// The declared names as a slice.
    pub fn as_slice(&self) -> &[Declared]
        ensures { result.now ≡ self.now }
    {
        &self.declared
    }

    /// The first declaration of a name, without letter case.
    pub fn first(&self, alloc: Global, name: &Name) -> Result<Option<&Declared>, Memory>
        ensures { IfOk result (λ d. option_copied d ≡ first_declared self.now name.now) }
    {
        match self.table.place_of(alloc, name)? {
            None => Ok(None),
            Some(k) => {
                if k < self.declared.len() {
                    Ok(Some(&self.declared[k]))
                } else {
                    Ok(None)
                }
            }
        }
    }
}
