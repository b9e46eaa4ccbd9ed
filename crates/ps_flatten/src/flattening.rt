// From a text with function blocks to its flat source.

ghost use Rattle.std.specs.Prelude.{◌≡◌, [], IfOk};
ghost use Rattle.std.specs.List.{AllByRecursion};
ghost use Rattle.ps_parser.specs.Whole.{IsSource};
ghost use Rattle.ps_derived.specs.Flat.{flat};
ghost use Rattle.ps_derived.specs.Giving.{EachCallGives};

use crate::body::{lay_blocks, sections_flat, statements_flat};
use ps_base::Memory;
use ps_derived::{Library, copy_of};
use ps_parser::Source;
use std::alloc::Global;

// What each of these sources keeps. It does nothing.
fn all_kept(sources: &[Source])
    ensures { AllByRecursion IsSource sources.now }
{
    for source in sources {
        source.kept();
    }
}

// The flat source of a text each of whose calls of derived instances has an argument for each input.
fn build(alloc: Global, library: &Library) -> Result<Source, Memory>
    requires { EachCallGives library.now }
    ensures { IfOk result (λ s. s ≡ flat library.now) }
{
    all_kept(library.blocks.as_slice());
    library.program.kept();
    let blocks = lay_blocks(alloc, library.blocks.as_slice())?;
    let sections = sections_flat(alloc, &blocks, library.program.sections.as_slice())?;
    let statements = statements_flat(alloc, &blocks, &library.program)?;
    let name = copy_of(alloc, &library.program.name)?;
    Ok(Source {
        name,
        sections,
        statements,
    })
}

/// The flat source of a text with function blocks: its program, in which copies stand in the place of derived
/// instances. A program without function blocks is its own flat source, and is handed on as it is.
///
/// A call that leaves an input of a derived instance out has no copy; rule B3 refuses such a text.
///
/// Time and memory are in proportion to the text and to the flat source: function blocks are not copied into one
/// another, and each copy is written once, into the flat source.
pub fn flatten(alloc: Global, library: Library) -> Result<Source, Memory>
    requires { EachCallGives library }
    ensures flattens { IfOk result (λ s. s ≡ flat library) }
{
    if library.blocks.len() == 0 {
        return Ok(library.into_program());
    }
    build(alloc, &library)
}
