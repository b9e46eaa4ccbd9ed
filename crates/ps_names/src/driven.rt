// What a declared name breaks, by its sort: N3, N8 and N10.

ghost use Rattle.std.specs.Prelude.{◌≡◌};
ghost use Rattle.ps_names.specs.Offences.{noted};
ghost use Rattle.ps_names.specs.Rules.{untyped_as, undriven_as, uncalled_as};

use crate::{Sort, note, note_if};
use ps_base::{Place, Refusal, Rule};
use ps_parser::Name;

/// What a type breaks.
pub fn check_type(found: Option<Refusal>, place: Place, sort: Sort) -> Option<Refusal>
    ensures { result ≡ noted found (untyped_as place sort) }
{
    match sort {
        Sort::Nothing => note(found, Rule::N3, place),
        _ => found,
    }
}

/// What a declared name breaks that is assigned or not, and read or not.
pub fn note_undriven(
    found: Option<Refusal>,
    name: &Name,
    sort: Sort,
    is_assigned: bool,
    is_read: bool,
) -> Option<Refusal>
    ensures { result ≡ noted found (undriven_as sort is_assigned is_read name.now) }
{
    match sort {
        Sort::OutputSignal(_) => note_if(found, !is_assigned, Rule::N8, name.place),
        Sort::LocalSignal(_) => note_if(found, !is_assigned && is_read, Rule::N8, name.place),
        _ => found,
    }
}

/// What a declared name breaks that is called or not.
pub fn note_uncalled(
    found: Option<Refusal>,
    name: &Name,
    sort: Sort,
    has_call: bool,
) -> Option<Refusal>
    ensures { result ≡ noted found (uncalled_as sort has_call name.now) }
{
    match sort {
        Sort::Instance(_) => note_if(found, !has_call, Rule::N10, name.place),
        _ => found,
    }
}
