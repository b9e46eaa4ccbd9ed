// Where the steps stand in the source that make facts.

ghost use Rattle.std.specs.Prelude.{◌≡◌, IfOk};
ghost use Rattle.ps_bench_why.specs.Reasoned.{ArePlacesOf, IsPlaceOf, place_of_step};

use ps_base::{Memory, Place};
use ps_model::App;
use ps_parser::Source;
use ps_why::{Fact, step_of};
use std::alloc::Global;

// Where the statement of a step stands, if there is one.
fn place_of_step(source: &Source, step: Option<u16>) -> Option<Place>
    ensures { result ≡ place_of_step source.now step }
{
    let Some(step) = step else {
        return None;
    };
    let at = step as usize;
    if at < source.statements.len() {
        Some(source.statements.at(at).place())
    } else {
        None
    }
}

// Where the step stands that makes a fact, if one does.
fn place_of(app: &App, source: &Source, fact: Fact) -> Option<Place>
    ensures { IsPlaceOf app.now source.now fact result }
{
    place_of_step(source, step_of(app, fact))
}

/// For each of these facts where the step stands in the source that makes it, if one does.
pub(crate) fn places_of(
    alloc: Global,
    app: &App,
    source: &Source,
    facts: &[Fact],
) -> Result<Vec<Option<Place>>, Memory>
    ensures { IfOk result (λ places. ArePlacesOf app.now source.now facts.now places.items) }
{
    let mut places = Vec::with_capacity(alloc, facts.len())?;
    for fact in facts {
        places.push(place_of(app, source, *fact))?;
    }
    Ok(places)
}
