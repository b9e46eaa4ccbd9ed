// Bodies that are laid flat.

ghost use Rattle.std.specs.Prelude.{◌≡◌, [], IfOk, map};
ghost use Rattle.ps_derived.specs.Bodies.{declared_names};
ghost use Rattle.ps_derived.specs.Spelling.{spelt_as_declared};
ghost use Rattle.ps_derived.specs.Flat.{body_flat, block_flat, blocks_flat, section_flat};
ghost use Rattle.ps_flatten.specs.Laying.{AreLaid, IsLaid, KnowsInputs, block_seen, blocks_seen};

use crate::copies::{declared, stated};
use crate::declarations::{add_section, declaration_pieces};
use crate::laid::{Body, Laid, Laids};
use crate::renaming::statements_as_declared;
use crate::statements::statement_pieces;
use ps_base::Memory;
use ps_derived::{Interface, Scope};
use ps_parser::{Section, Sections, Source, Statements};
use std::alloc::Global;

// A function block that is laid flat with its names spelt as it declares them, where these stand before it.
fn lay_block(alloc: Global, blocks: &Laids, source: &Source) -> Result<Laid, Memory>
    ensures inputs { IfOk result KnowsInputs }
    ensures laid { IfOk result (λ l. IsLaid (block_seen (blocks_seen blocks.now) l) (block_flat (blocks_seen blocks.now) (spelt_as_declared source.now))) }
{
    let interface = Interface::of(alloc, source)?;
    let body = Body {
        scope: &interface.scope,
        blocks,
    };
    let declarations = declaration_pieces(alloc, blocks, source.sections.as_slice())?;
    let spelt = statements_as_declared(alloc, &interface.scope, source.statements.as_slice())?;
    let statements = statement_pieces(alloc, &body, spelt.as_slice())?;
    Ok(Laid {
        interface,
        declarations,
        statements,
    })
}

/// These function blocks laid flat with their names spelt as they declare them, each over those that stand before it.
/// Time and memory are linear in the text.
pub fn lay_blocks(alloc: Global, sources: &[Source]) -> Result<Laids, Memory>
    ensures { IfOk result (λ laid. AreLaid (blocks_seen laid) (blocks_flat [] (map spelt_as_declared sources.now))) }
{
    let mut blocks = Laids::new(alloc);
    for i in 0..sources.len() {
        let laid = lay_block(alloc, &blocks, &sources[i])?;
        blocks = blocks.with(alloc, laid)?;
    }
    Ok(blocks)
}

// A section with the copies in the place of derived instances.
fn section_flat(alloc: Global, blocks: &Laids, section: &Section) -> Result<Section, Memory>
    ensures { IfOk result (λ s. s ≡ section_flat (blocks_seen blocks.now) section.now) }
{
    let mut pieces = Vec::new(alloc);
    add_section(alloc, blocks, section, &mut pieces)?;
    Ok(Section {
        part: section.part,
        declarations: declared(alloc, blocks, pieces)?,
    })
}

/// The sections of the program, with the copies in the place of derived instances.
pub fn sections_flat(
    alloc: Global,
    blocks: &Laids,
    sections: &[Section],
) -> Result<Sections, Memory>
    ensures { IfOk result (λ s. s ≡ map (section_flat (blocks_seen blocks.now)) sections.now) }
{
    let mut written = Sections::new(alloc);
    for section in sections {
        let one = section_flat(alloc, blocks, section)?;
        written.push(one)?;
    }
    Ok(written)
}

/// The statements of the program, with the copies in the place of calls of derived instances.
pub fn statements_flat(
    alloc: Global,
    blocks: &Laids,
    program: &Source,
) -> Result<Statements, Memory>
    ensures { IfOk result (λ s. s ≡ (body_flat (blocks_seen blocks.now) program.now).statements) }
{
    let scope = Scope::of(alloc, program.sections.as_slice())?;
    let body = Body {
        scope: &scope,
        blocks,
    };
    let pieces = statement_pieces(alloc, &body, program.statements.as_slice())?;
    stated(alloc, blocks, pieces)
}
