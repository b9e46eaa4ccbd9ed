// All rules B on a text.

ghost use Rattle.std.specs.Prelude.{◌≡◌, List, [], IfOk, map};
ghost use Rattle.ps_parser.specs.declared.heads.Heads.TheVariants.{Block};
ghost use Rattle.ps_parser.specs.declared.name.Name.{Name};
ghost use Rattle.ps_names.specs.Offences.{noted, refused};
ghost use Rattle.ps_names.specs.Tables.{Has};
ghost use Rattle.ps_derived.specs.Interfaces.{interface_of};
ghost use Rattle.ps_offences.specs.BlockRules.{body_breaks, blocks_break, text_too_large, block_offences};

use crate::calls::check_calls;
use crate::counts::check_counts;
use crate::naming::check_names;
use crate::types::check_types;
use crate::uses::{Body, check_uses};
use ps_base::{Memory, Refusal, Rule};
use ps_derived::{Interface, Interfaces, Library, Scope, is_within_limits};
use ps_names::{Table, note_if};
use ps_parser::{Heads, Source};
use std::alloc::Global;

// Notes what a body breaks: B2, B3 and B5.
fn check_body(
    alloc: Global,
    heads: Heads,
    names: &Table,
    before: &Interfaces,
    source: &Source,
    found: Option<Refusal>,
) -> Result<Option<Refusal>, Memory>
    ensures { IfOk result (λ r. (ns : List Name) → Has names.now ns → r ≡ noted found (body_breaks ns before.now heads source.now)) }
{
    let scope = Scope::of(alloc, source.sections.as_slice())?;
    let body = Body {
        scope: &scope,
        before,
    };
    let statements = source.statements.as_slice();
    let typed = check_types(alloc, heads, names, before, scope.as_slice(), found)?;
    let used = check_uses(alloc, &body, statements, typed)?;
    let called = check_calls(alloc, &body, statements, used)?;
    check_counts(alloc, &body, statements, called)
}

// The interfaces of these function blocks. Notes what they break.
fn check_blocks(
    alloc: Global,
    names: &Table,
    blocks: &[Source],
    found: Option<Refusal>,
) -> Result<(Interfaces, Option<Refusal>), Memory>
    ensures interfaces { IfOk result (λ r. r.0 ≡ map interface_of blocks.now) }
    ensures found { IfOk result (λ r. (ns : List Name) → Has names.now ns → r.1 ≡ noted found (blocks_break ns [] blocks.now)) }
{
    let mut before = Interfaces::new(alloc);
    let mut found = found;
    for block in blocks {
        found = check_body(alloc, Heads::Block, names, &before, block, found)?;
        let interface = Interface::of(alloc, block)?;
        before = before.with(alloc, interface)?;
    }
    Ok((before, found))
}

/// Notes a text that is too large (B4).
pub fn check_size(
    alloc: Global,
    library: &Library,
    found: Option<Refusal>,
) -> Result<Option<Refusal>, Memory>
    ensures { IfOk result (λ r. r ≡ noted found (text_too_large library.now)) }
{
    let is_within = is_within_limits(alloc, library)?;
    Ok(note_if(found, !is_within, Rule::B4, library.program.name.place))
}

/// The offence of a text against the rules B on function blocks that a refusal names: the lowest rule, and then the
/// earliest place. None where the text breaks no rule. Every body is looked at, also one that no instance uses.
///
/// - B1: a function block has the name of an earlier one, of a kind, SAFEBOOL or BOOL; its name;
/// - B2: a type in VAR_INPUT or VAR_OUTPUT of a function block is neither SAFEBOOL nor BOOL, a function block is a type
///   in VAR_INPUT or VAR_OUTPUT of the program, or a type in VAR is a function block that does not stand before the
///   body; the type;
/// - B3: a call of a derived instance names a pin twice or one that is no input, or leaves an input out, or what stands
///   after its dot is no output of it, or is a target; the pin, or the called name where an input is left out;
/// - B4: there are over `MOST_BLOCKS` function blocks, or the flat source has over `MOST_FLAT_NAMES` declared names or
///   `MOST_FLAT_STATEMENTS` statements; the program's name;
/// - B5: a derived instance is not called exactly once, or its name is declared again in its body; its declaration.
///
/// Names are compared without letter case. Time is linear in the text, however many copies the flat source has.
pub fn first_offence(alloc: Global, library: &Library) -> Result<Option<Refusal>, Memory>
    ensures { IfOk result (λ r. r ≡ refused (block_offences library.now)) }
{
    let (names, named) = check_names(alloc, library.blocks.as_slice())?;
    let (before, blocks) = check_blocks(alloc, &names, library.blocks.as_slice(), named)?;
    let program = check_body(
        alloc,
        Heads::Program,
        &names,
        &before,
        &library.program,
        blocks,
    )?;
    check_size(alloc, library, program)
}
