// The names of function blocks: B1.

ghost use Rattle.std.specs.Prelude.{◌≡◌, [], IfOk, map};
ghost use Rattle.std.specs.List.{flat_map};
ghost use Rattle.ps_base.specs.LetterCase.{is_same_name};
ghost use Rattle.ps_base.specs.declared.failing.Rule.TheVariants.{B1};
ghost use Rattle.ps_names.specs.Names.{kind_called};
ghost use Rattle.ps_names.specs.Offences.{noted, refused};
ghost use Rattle.ps_names.specs.Rules.{repeated};
ghost use Rattle.ps_names.specs.Tables.{Has};
ghost use Rattle.ps_offences.specs.BlockRules.{names_type, names_signal, named_as_type, named_wrongly};
ghost use Rattle.ps_offences.specs.BlockRules.{block_names};

use ps_base::{Memory, Refusal, Rule};
use ps_model::{Kind, kind_named};
use ps_names::{Table, note_again, note_if};
use ps_parser::{Name, Source};
use std::alloc::Global;

/// Whether a name is SAFEBOOL or BOOL, without letter case.
pub fn names_signal(name: &Name) -> bool
    ensures { result ≡ names_signal name.now }
{
    let text = name.text.as_slice();
    text.eq_ignore_ascii_case(b"SAFEBOOL") || text.eq_ignore_ascii_case(b"BOOL")
}

// The kind of function block with this name.
fn kind_of_name(name: &Name) -> Option<Kind>
    ensures { result ≡ kind_called name.now.text }
{
    kind_named(name.text.as_slice())
}

// Whether a name is that of a type of the language: SAFEBOOL, BOOL or a kind.
fn names_type(name: &Name) -> bool
    ensures { result ≡ names_type name.now }
{
    names_signal(name) || kind_of_name(name).is_some()
}

/// Notes the function blocks that have the name of a type of the language (B1).
pub fn check_kinds(blocks: &[Source], found: Option<Refusal>) -> Option<Refusal>
    ensures { result ≡ noted found (flat_map named_as_type (block_names blocks.now)) }
{
    let mut found = found;
    for block in blocks {
        found = note_if(found, names_type(&block.name), Rule::B1, block.name.place);
    }
    found
}

// The names of these function blocks. Notes each that equals an earlier one.
fn names_of(
    alloc: Global,
    blocks: &[Source],
    found: Option<Refusal>,
) -> Result<(Table, Option<Refusal>), Memory>
    ensures table { IfOk result (λ r. Has r.0 (block_names blocks.now)) }
    ensures found { IfOk result (λ r. r.1 ≡ noted found (repeated B1 [] (block_names blocks.now))) }
{
    let mut table = Table::new(alloc);
    let mut found = found;
    for i in 0..blocks.len() {
        let block = &blocks[i];
        found = note_again(alloc, &mut table, Rule::B1, &block.name, found)?;
    }
    Ok((table, found))
}

/// The names of these function blocks. Notes each that is an earlier one's, or that of a type of the language (B1).
pub fn check_names(alloc: Global, blocks: &[Source]) -> Result<(Table, Option<Refusal>), Memory>
    ensures table { IfOk result (λ r. Has r.0 (block_names blocks.now)) }
    ensures found { IfOk result (λ r. r.1 ≡ refused (named_wrongly (block_names blocks.now))) }
{
    let (table, found) = names_of(alloc, blocks, None)?;
    Ok((table, check_kinds(blocks, found)))
}
