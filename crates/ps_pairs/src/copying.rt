// Names of sections, each declared alone.

ghost use Rattle.std.specs.Prelude.{◌≡◌, ◌++◌, IfOk, OnOk};
ghost use Rattle.std.specs.List.{flat_map};
ghost use Rattle.ps_pairs.specs.Arranging.{alone, taken, taken_declaration, taken_name};
ghost use Rattle.ps_pairs.specs.Wanting.{wants};

use crate::wanted::Wanted;
use ps_base::Memory;
use ps_derived::copy_of;
use ps_parser::{Declaration, Declarations, Name, Names, Part, Section, Sections};
use std::alloc::Global;

// A section in which one name is declared.
fn alone(alloc: Global, part: Part, ty: &Name, name: &Name) -> Result<Section, Memory>
    ensures { IfOk result (λ section. section ≡ alone part ty.now name.now) }
{
    let mut names = Names::new(alloc);
    names.push(copy_of(alloc, name)?)?;
    let ty = copy_of(alloc, ty)?;
    let mut declarations = Declarations::new(alloc);
    declarations.push(Declaration { names, ty })?;
    Ok(Section { part, declarations })
}

// Declares a name alone, if it is taken.
fn add_name(
    alloc: Global,
    written: &mut Sections,
    wanted: &Wanted<'_>,
    part: Part,
    ty: &Name,
    name: &Name,
) -> Result<(), Memory>
    ensures { OnOk result (written.new ≡ written.old ++ taken_name (wants wanted.now) part ty.now name.now) }
{
    if !wanted.wants(name.text.as_slice()) {
        return Ok(());
    }
    written.push(alone(alloc, part, ty, name)?)
}

// Declares those of these names that are taken.
fn add_names(
    alloc: Global,
    written: &mut Sections,
    wanted: &Wanted<'_>,
    part: Part,
    ty: &Name,
    names: &[Name],
) -> Result<(), Memory>
    ensures { OnOk result (written.new ≡ written.old ++ flat_map (taken_name (wants wanted.now) part ty.now) names.now) }
{
    for name in names {
        add_name(alloc, written, wanted, part, ty, name)?;
    }
    Ok(())
}

// Declares those names of declarations that are taken.
fn add_declarations(
    alloc: Global,
    written: &mut Sections,
    wanted: &Wanted<'_>,
    part: Part,
    declarations: &[Declaration],
) -> Result<(), Memory>
    ensures { OnOk result (written.new ≡ written.old ++ flat_map (taken_declaration (wants wanted.now) part) declarations.now) }
{
    for declaration in declarations {
        add_names(
            alloc,
            written,
            wanted,
            part,
            &declaration.ty,
            declaration.names.as_slice(),
        )?;
    }
    Ok(())
}

/// Declares those names of sections that are taken, each alone.
pub(crate) fn add_taken(
    alloc: Global,
    written: &mut Sections,
    wanted: &Wanted<'_>,
    sections: &[Section],
) -> Result<(), Memory>
    ensures { OnOk result (written.new ≡ written.old ++ taken (wants wanted.now) sections.now) }
{
    for section in sections {
        add_declarations(
            alloc,
            written,
            wanted,
            section.part,
            section.declarations.as_slice(),
        )?;
    }
    Ok(())
}
