// What stands in the place of the declarations of a body.

ghost use Rattle.std.specs.Prelude.{◌≡◌, ◌++◌, ◌∷◌, [], IfOk, OnOk, IfSome, map, length, if◌then◌else◌};
ghost use Rattle.std.specs.List.{flat_map};
ghost use Rattle.std.specs.Option.{option_map};
ghost use Rattle.ps_derived.specs.Flat.{block_in, copy_declares, declaration_flat, section_flat, declarations_in};
ghost use Rattle.ps_flatten.specs.Laying.{IsKept, blocks_seen, copied, declares, in_part, kept_seen};

use crate::laid::{DeclarationPiece, Kept, Laids};
use ps_base::Memory;
use ps_derived::copy_of;
use ps_parser::{Declaration, Name, Names, Part, Section};
use std::alloc::Global;

// Names as they are.
fn names_of(alloc: Global, names: &[Name]) -> Result<Names, Memory>
    ensures { IfOk result (λ ns. ns ≡ names.now) }
{
    let mut copies = Names::new(alloc);
    for name in names {
        copies.push(copy_of(alloc, name)?)?;
    }
    Ok(copies)
}

// The copies of a function block for instances with these names.
fn add_copies(
    alloc: Global,
    blocks: &Laids,
    block: &Kept,
    names: &[Name],
    pieces: &mut Vec<DeclarationPiece>,
) -> Result<(), Memory>
    requires { IsKept (blocks_seen blocks.now) block.now }
    ensures { OnOk result (flat_map (declares (blocks_seen blocks.now)) pieces.new.items
        ≡ flat_map (declares (blocks_seen blocks.now)) pieces.old.items ++ flat_map (copy_declares (kept_seen (blocks_seen blocks.now) block.now)) names.now) }
{
    if block.laid.declarations.is_empty() {
        return Ok(());
    }
    for name in names {
        pieces.push(DeclarationPiece::Copy(copy_of(alloc, name)?, block.place))?;
    }
    Ok(())
}

// The function block that a type is in a part: function blocks are types in VAR alone.
fn block_in<'a>(
    alloc: Global,
    blocks: &'a Laids,
    part: Part,
    ty: &Name,
) -> Result<Option<Kept<'a>>, Memory>
    ensures kept { IfOk result (λ k. IfSome k (IsKept (blocks_seen blocks.now))) }
    ensures block { IfOk result (λ k. option_map (kept_seen (blocks_seen blocks.now)) k ≡ block_in (blocks_seen blocks.now) part ty.now) }
{
    match part {
        Part::Input => Ok(None),
        Part::Output => Ok(None),
        Part::Local => blocks.named(alloc, ty),
    }
}

// What stands in the place of a declaration of a part.
fn add_declaration(
    alloc: Global,
    blocks: &Laids,
    part: Part,
    declaration: &Declaration,
    pieces: &mut Vec<DeclarationPiece>,
) -> Result<(), Memory>
    ensures { OnOk result (flat_map (declares (blocks_seen blocks.now)) pieces.new.items
        ≡ flat_map (declares (blocks_seen blocks.now)) pieces.old.items
        ++ declaration_flat declaration.now (block_in (blocks_seen blocks.now) part declaration.now.ty)) }
{
    match block_in(alloc, blocks, part, &declaration.ty)? {
        None => {
            let names = names_of(alloc, declaration.names.as_slice())?;
            let ty = copy_of(alloc, &declaration.ty)?;
            pieces.push(DeclarationPiece::Own(Declaration { names, ty }))?;
            Ok(())
        }
        Some(block) => add_copies(alloc, blocks, &block, declaration.names.as_slice(), pieces),
    }
}

/// What stands in the place of the declarations of a section.
pub fn add_section(
    alloc: Global,
    blocks: &Laids,
    section: &Section,
    pieces: &mut Vec<DeclarationPiece>,
) -> Result<(), Memory>
    ensures { OnOk result (flat_map (declares (blocks_seen blocks.now)) pieces.new.items
        ≡ flat_map (declares (blocks_seen blocks.now)) pieces.old.items ++ (section_flat (blocks_seen blocks.now) section.now).declarations) }
{
    for declaration in section.declarations.as_slice() {
        add_declaration(alloc, blocks, section.part, declaration, pieces)?;
    }
    Ok(())
}

// Whether a part is this one.
fn is_in(part: Part, other: Part) -> bool
    ensures { result ≡ in_part part other }
{
    match (part, other) {
        (Part::Input, Part::Input) => true,
        (Part::Output, Part::Output) => true,
        (Part::Local, Part::Local) => true,
        _ => false,
    }
}

// The same where it is a section of this part.
fn add_section_if(
    alloc: Global,
    blocks: &Laids,
    part: Part,
    section: &Section,
    pieces: &mut Vec<DeclarationPiece>,
) -> Result<(), Memory>
    ensures { OnOk result (flat_map (declares (blocks_seen blocks.now)) pieces.new.items
        ≡ flat_map (declares (blocks_seen blocks.now)) pieces.old.items
        ++ (if in_part part section.now.part then (section_flat (blocks_seen blocks.now) section.now).declarations else [])) }
{
    if !is_in(part, section.part) {
        return Ok(());
    }
    add_section(alloc, blocks, section, pieces)
}

// What stands in the place of the declarations of one part of a body.
fn add_part(
    alloc: Global,
    blocks: &Laids,
    part: Part,
    sections: &[Section],
    pieces: &mut Vec<DeclarationPiece>,
) -> Result<(), Memory>
    ensures { OnOk result (flat_map (declares (blocks_seen blocks.now)) pieces.new.items
        ≡ flat_map (declares (blocks_seen blocks.now)) pieces.old.items
        ++ declarations_in (in_part part) (map (section_flat (blocks_seen blocks.now)) sections.now)) }
{
    for section in sections {
        add_section_if(alloc, blocks, part, section, pieces)?;
    }
    Ok(())
}

/// What stands in the place of the declarations of a function block, in the order of a copy: its inputs, its outputs
/// and its own.
pub fn declaration_pieces(
    alloc: Global,
    blocks: &Laids,
    sections: &[Section],
) -> Result<Vec<DeclarationPiece>, Memory>
    ensures { IfOk result (λ pieces. flat_map (declares (blocks_seen blocks.now)) pieces.items ≡ copied (map (section_flat (blocks_seen blocks.now)) sections.now)) }
{
    let mut pieces = Vec::new(alloc);
    add_part(alloc, blocks, Part::Input, sections, &mut pieces)?;
    add_part(alloc, blocks, Part::Output, sections, &mut pieces)?;
    add_part(alloc, blocks, Part::Local, sections, &mut pieces)?;
    Ok(pieces)
}
