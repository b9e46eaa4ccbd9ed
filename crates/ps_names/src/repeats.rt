// Names that come again, and the table of the declared names.

ghost use Rattle.std.specs.Prelude.{◌≡◌, List, [], ◌∷◌, ◌++◌, OnOk, IfOk};
ghost use Rattle.ps_parser.specs.declared.name.Name.{Name};
ghost use Rattle.ps_names.specs.Offences.{noted};
ghost use Rattle.ps_names.specs.Rules.{repeated, declared_twice};
ghost use Rattle.ps_names.specs.Tables.{IndexesDeclared, Has};

use crate::Table;
use crate::entry::Entry;
use crate::offence::note_if;
use ps_base::{Memory, Refusal, Rule};
use ps_parser::Name;
use std::alloc::Global;

/// Enters a name in a table, and notes it against a rule where the table had it.
pub fn note_again(
    alloc: Global,
    table: &mut Table,
    rule: Rule,
    name: &Name,
    found: Option<Refusal>,
) -> Result<Option<Refusal>, Memory>
    ensures found { IfOk result (λ r. (ns : List Name) → Has table.old ns → r ≡ noted found (repeated rule ns (name.now ∷ []))) }
    ensures table { OnOk result ((ns : List Name) → Has table.old ns → Has table.new (ns ++ name.now ∷ [])) }
{
    let was = table.enter(alloc, name, 0)?;
    Ok(note_if(found, was, rule, name.place))
}

/// The table of the declared names, with the place of each one's first declaration. Notes each later declaration of a
/// name (N1).
pub fn index(
    alloc: Global,
    entries: &[Entry],
    found: Option<Refusal>,
) -> Result<(Table, Option<Refusal>), Memory>
    ensures table { IfOk result (λ r. IndexesDeclared r.0 entries.now) }
    ensures found { IfOk result (λ r. r.1 ≡ noted found (declared_twice entries.now)) }
{
    let mut table = Table::new(alloc);
    let mut found = found;
    for i in 0..entries.len() {
        let name = &entries[i].name;
        let was = table.enter(alloc, name, i)?;
        found = note_if(found, was, Rule::N1, name.place);
    }
    Ok((table, found))
}
