// What bodies see of function blocks.

ghost use Rattle.std.specs.Prelude.{◌≡◌, ◌∷◌, ◌++◌, [], IfOk, OnOk, if◌then◌else◌};
ghost use Rattle.std.specs.Option.{option_copied};
ghost use Rattle.ps_derived.specs.Bodies.{inputs, is_input, is_output};
ghost use Rattle.ps_derived.specs.Interfaces.{interface_of, interface_named, derived_by, derived_of, is_in};
ghost use Rattle.ps_derived.specs.Interfaces.{declares_input, declares_output};

use crate::declared::{Declared, copy_of};
use crate::scope::Scope;
use ps_base::Memory;
use ps_names::Table;
use ps_parser::{Name, Names, Part, Source};
use std::alloc::Global;
use std::marker::Model;

/// The name of a function block, the names that it declares, and its inputs in order.
pub struct Interface {
    pub name: Name,
    pub scope: Scope,
    pub inputs: Names,
}

impl Drop for Interface {
    // One call for whoever owns one, in place of a walk through all that it holds.
    fn drop(self) {
        let Interface {
            name: _,
            scope: _,
            inputs: _,
        } = self;
    }
}

/// Function blocks in the order of the text, found by their names. Contracts see them as a list.
pub struct Interfaces {
    items: Vec<Interface>,
    table: Table,
}

impl Drop for Interfaces {
    // One call for whoever owns one, in place of a walk through all that it holds.
    fn drop(self) {
        let Interfaces { items: _, table: _ } = self;
    }
}

impl Model for Interfaces {
    ghost use Rattle.std.specs.Prelude.{List};
    ghost use Rattle.ps_derived.specs.declared.interface.Interface.{Interface};

    ghost Value = { List Interface };

    ghost use Rattle.ps_names.specs.NameTables.{Indexes};

    ghost view = { λ s. s.items.items };

    ghost invariant = { λ s. Indexes (λ b. b.name) s.table s.items.items };
}

// Adds a declared name to the inputs where it is one of VAR_INPUT and was not declared before.
fn add_input(
    alloc: Global,
    names: &mut Names,
    again: bool,
    declared: &Declared,
) -> Result<(), Memory>
    ensures { OnOk result (names.new ≡ names.old ++ (if again then [] else (if is_input declared.now.part then declared.now.name ∷ [] else []))) }
{
    if again {
        return Ok(());
    }
    match declared.part {
        Part::Input => {
            let name = copy_of(alloc, &declared.name)?;
            names.push(name)
        }
        Part::Output => Ok(()),
        Part::Local => Ok(()),
    }
}

// The inputs among these declared names, in order: of each name the first declaration counts.
fn inputs(alloc: Global, declared: &[Declared]) -> Result<Names, Memory>
    ensures { IfOk result (λ ns. ns ≡ inputs declared.now) }
{
    let mut seen = Table::new(alloc);
    let mut names = Names::new(alloc);
    for i in 0..declared.len() {
        let one = &declared[i];
        let again = seen.enter(alloc, &one.name, i)?;
        add_input(alloc, &mut names, again, one)?;
    }
    Ok(names)
}

// Whether a declaration is one of VAR_INPUT.
fn is_input(declared: Option<&Declared>) -> bool
    ensures { result ≡ is_in is_input (option_copied declared.entry) }
{
    match declared {
        None => false,
        Some(d) => match d.part {
            Part::Input => true,
            Part::Output => false,
            Part::Local => false,
        },
    }
}

// Whether a declaration is one of VAR_OUTPUT.
fn is_output(declared: Option<&Declared>) -> bool
    ensures { result ≡ is_in is_output (option_copied declared.entry) }
{
    match declared {
        None => false,
        Some(d) => match d.part {
            Part::Input => false,
            Part::Output => true,
            Part::Local => false,
        },
    }
}

impl Interface {
    /// What bodies see of a function block.
    pub fn of(alloc: Global, source: &Source) -> Result<Interface, Memory>
        ensures { IfOk result (λ i. i ≡ interface_of source.now) }
    {
        let scope = Scope::of(alloc, source.sections.as_slice())?;
        let inputs = inputs(alloc, scope.as_slice())?;
        Ok(Interface {
            name: copy_of(alloc, &source.name)?,
            scope,
            inputs,
        })
    }

    /// Whether it has an input with this name, without letter case.
    pub fn declares_input(&self, alloc: Global, name: &Name) -> Result<bool, Memory>
        ensures { IfOk result (λ b. b ≡ declares_input self.now name.now) }
    {
        Ok(is_input(self.scope.first(alloc, name)?))
    }

    /// Whether it has an output with this name, without letter case.
    pub fn declares_output(&self, alloc: Global, name: &Name) -> Result<bool, Memory>
        ensures { IfOk result (λ b. b ≡ declares_output self.now name.now) }
    {
        Ok(is_output(self.scope.first(alloc, name)?))
    }
}

impl Interfaces {
    /// No function blocks. It takes no memory.
    pub fn new(alloc: Global) -> Interfaces
        ensures { result ≡ [] }
    {
        Interfaces {
            items: Vec::new(alloc),
            table: Table::new(alloc),
        }
    }

    /// These function blocks with one more at the end.
    pub fn with(self, alloc: Global, interface: Interface) -> Result<Interfaces, Memory>
        ensures { IfOk result (λ s. s ≡ self ++ interface ∷ []) }
    {
        let Interfaces {
            mut items,
            mut table,
        } = self;
        table.enter(alloc, &interface.name, items.len())?;
        items.push(interface)?;
        Ok(Interfaces { items, table })
    }

    /// The first function block with a name, without letter case.
    pub fn named(&self, alloc: Global, name: &Name) -> Result<Option<&Interface>, Memory>
        ensures { IfOk result (λ b. option_copied b ≡ interface_named self.now name.now) }
    {
        match self.table.place_of(alloc, name)? {
            None => Ok(None),
            Some(k) => {
                if k < self.items.len() {
                    Ok(Some(&self.items[k]))
                } else {
                    Ok(None)
                }
            }
        }
    }

    /// The function block of which a declaration makes an instance.
    pub fn derived_by(
        &self,
        alloc: Global,
        declared: &Declared,
    ) -> Result<Option<&Interface>, Memory>
        ensures { IfOk result (λ b. option_copied b ≡ derived_by self.now declared.now) }
    {
        match declared.part {
            Part::Input => Ok(None),
            Part::Output => Ok(None),
            Part::Local => self.named(alloc, &declared.ty),
        }
    }

    /// The function block of which a name of a body is a derived instance, by its first declaration.
    pub fn derived_of(
        &self,
        alloc: Global,
        scope: &Scope,
        name: &Name,
    ) -> Result<Option<&Interface>, Memory>
        ensures { IfOk result (λ b. option_copied b ≡ derived_of self.now scope.now name.now) }
    {
        match scope.first(alloc, name)? {
            None => Ok(None),
            Some(declared) => self.derived_by(alloc, declared),
        }
    }
}
