// The types of declared names: B2.

ghost use Rattle.std.specs.Prelude.{◌≡◌, List, IfOk};
ghost use Rattle.std.specs.List.{flat_map};
ghost use Rattle.ps_parser.specs.declared.name.Name.{Name};
ghost use Rattle.ps_names.specs.Offences.{noted};
ghost use Rattle.ps_names.specs.Tables.{Has};
ghost use Rattle.ps_offences.specs.BlockRules.{fits_pin, fits_in, typed_wrongly, is_one_of};

use crate::naming::names_signal;
use ps_base::{Memory, Refusal, Rule};
use ps_derived::{Declared, Interfaces};
use ps_names::{Table, note_if};
use ps_parser::{Heads, Name, Part};
use std::alloc::Global;

// Whether a type that may be a function block fits VAR_INPUT and VAR_OUTPUT.
fn fits_pin(heads: Heads, is_block: bool, ty: &Name) -> bool
    ensures { (names : List Name) → is_block ≡ is_one_of names ty.now → result ≡ fits_pin heads names ty.now }
{
    match heads {
        Heads::Block => names_signal(ty),
        Heads::Program => !is_block,
    }
}

// Whether a type fits its part.
fn fits(
    alloc: Global,
    heads: Heads,
    names: &Table,
    before: &Interfaces,
    declared: &Declared,
) -> Result<bool, Memory>
    ensures { IfOk result (λ b. (ns : List Name) → Has names.now ns → b ≡ fits_in heads ns before.now declared.now) }
{
    let is_block = names.place_of(alloc, &declared.ty)?.is_some();
    match declared.part {
        Part::Input => Ok(fits_pin(heads, is_block, &declared.ty)),
        Part::Output => Ok(fits_pin(heads, is_block, &declared.ty)),
        Part::Local => Ok(before.named(alloc, &declared.ty)?.is_some() || !is_block),
    }
}

/// Notes the types that do not fit (B2).
pub fn check_types(
    alloc: Global,
    heads: Heads,
    names: &Table,
    before: &Interfaces,
    declared: &[Declared],
    found: Option<Refusal>,
) -> Result<Option<Refusal>, Memory>
    ensures { IfOk result (λ r. (ns : List Name) → Has names.now ns → r ≡ noted found (flat_map (typed_wrongly heads ns before.now) declared.now)) }
{
    let mut found = found;
    for one in declared {
        let fits = fits(alloc, heads, names, before, one)?;
        found = note_if(found, !fits, Rule::B2, one.ty.place);
    }
    Ok(found)
}
