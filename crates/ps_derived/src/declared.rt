// The declared names of a body, in order, and their table.

ghost use Rattle.std.specs.Prelude.{◌≡◌, ◌++◌, IfOk, OnOk, IsTrue, ◌↔◌};
ghost use Rattle.std.specs.List.{flat_map};
ghost use Rattle.ps_names.specs.NameTables.{Indexes};
ghost use Rattle.ps_derived.specs.Bodies.{declared_as, declares, section_declares, declared_names, is_input};

use ps_base::{Bytes, Memory};
use ps_names::Table;
use ps_parser::{Declaration, Name, Part, Section};
use std::alloc::Global;

/// A declared name, the part of its section, and the name of its type.
#[derive(Drop)]
pub struct Declared {
    pub name: Name,
    pub part: Part,
    pub ty: Name,
}

/// A copy of a name, with its place.
pub fn copy_of(alloc: Global, name: &Name) -> Result<Name, Memory>
    ensures { IfOk result (λ n. n ≡ name.now) }
{
    Ok(Name {
        text: Bytes::from_slice(alloc, name.text.as_slice())?,
        place: name.place,
    })
}

// A name that is declared in a part with a type.
fn declared_as(alloc: Global, part: Part, ty: &Name, name: &Name) -> Result<Declared, Memory>
    ensures { IfOk result (λ d. d ≡ declared_as part ty.now name.now) }
{
    Ok(Declared {
        name: copy_of(alloc, name)?,
        part,
        ty: copy_of(alloc, ty)?,
    })
}

// The names of one more declaration.
fn add_declaration(
    alloc: Global,
    declared: &mut Vec<Declared>,
    part: Part,
    declaration: &Declaration,
) -> Result<(), Memory>
    ensures { OnOk result (declared.new.items ≡ declared.old.items ++ declares part declaration.now) }
{
    for name in declaration.names.as_slice() {
        let one = declared_as(alloc, part, &declaration.ty, name)?;
        declared.push(one)?;
    }
    Ok(())
}

// The names of one more section.
fn add_section(alloc: Global, declared: &mut Vec<Declared>, section: &Section) -> Result<(), Memory>
    ensures { OnOk result (declared.new.items ≡ declared.old.items ++ section_declares section.now) }
{
    for declaration in section.declarations.as_slice() {
        add_declaration(alloc, declared, section.part, declaration)?;
    }
    Ok(())
}

/// The names that these sections declare, in order.
pub fn declared_names(alloc: Global, sections: &[Section]) -> Result<Vec<Declared>, Memory>
    ensures { IfOk result (λ v. v.items ≡ declared_names sections.now) }
{
    let mut declared = Vec::new(alloc);
    for section in sections {
        add_section(alloc, &mut declared, section)?;
    }
    Ok(declared)
}

/// The table of the declared names, with the place of each one's first declaration.
pub fn index(alloc: Global, declared: &[Declared]) -> Result<Table, Memory>
    ensures { IfOk result (λ t. Indexes (λ d. d.name) t declared.now) }
{
    let mut table = Table::new(alloc);
    for i in 0..declared.len() {
        table.enter(alloc, &declared[i].name, i)?;
    }
    Ok(table)
}
