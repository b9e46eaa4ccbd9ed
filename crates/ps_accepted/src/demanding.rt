// From the text of a source to the lines of what its outputs demand.

ghost use Rattle.std.specs.Prelude.{◌≡◌, List, ℕ};
ghost use Rattle.ps_names.specs.Stands.{Stands};
ghost use Rattle.ps_demand.specs.Lines.{IsSafeOutput};
ghost use Rattle.ps_model.specs.Typing.{Accepted as IsAccepted};
ghost use Rattle.ps_accepted.specs.Demanding.{AreDemands, IsDemanding, IsPlaceOfOutput, checked_demanded, lines_demanded};
ghost use Rattle.ps_accepted.specs.Source.{IsProgram};

use crate::accepting::{Accepted, accept_source};
use ps_base::{Bytes, Fail, Place, Refusal, Rule};
use ps_checker::Checked;
use ps_demand::{NoLines, demand_lines};
use ps_model::{App, Driver};
use ps_parser::Source;
use std::alloc::Global;

/// An accepted application, with the lines of what its outputs demand, or why there are none.
pub struct Demanded {
    pub(crate) accepted: Accepted,
    pub(crate) lines: Result<Bytes, Fail>,
}

impl Drop for Demanded {
    // One call for whoever owns one, in place of a walk through all that it holds.
    fn drop(self) {
        let Demanded {
            accepted: _,
            lines: _,
        } = self;
    }
}

impl Demanded {
    /// What was checked of the application, and the lines; or the refusal by the rule M1, or running out of memory. It takes
    /// no memory.
    pub fn into_parts(self) -> (Checked, Result<Bytes, Fail>)
        ensures checked { result.0 ≡ checked_demanded self }
        ensures lines { result.1 ≡ lines_demanded self }
    {
        let Demanded { accepted, lines } = self;
        let (_, checked) = accepted.into_parts();
        (checked, lines)
    }
}

// The place of the target of the step that assigns an output.
fn place_of_output(source: &Source, app: &App, output: u16) -> Place
    requires stands { Stands source.now app.now }
    requires output { IsSafeOutput app.now output }
    ensures { IsPlaceOfOutput source.now app.now output result }
{
    app.sound();
    match app.driver(output) {
        Some(Driver::Assigned { step }) => source.place(step, None),
        Some(Driver::Output { .. }) => unreachable!(),
        None => unreachable!(),
    }
}

// The lines of what the outputs of the application of a source demand, by the rule M1.
fn lines_of(alloc: Global, source: &Source, app: &App) -> Result<Bytes, Fail>
    requires stands { Stands source.now app.now }
    requires accepted { IsAccepted app.now }
    ensures { (text : List ℕ) → IsProgram text source.now → AreDemands text app.now result }
{
    match demand_lines(alloc, app) {
        Ok(lines) => Ok(lines),
        Err(NoLines::Memory) => Err(Fail::Memory),
        Err(NoLines::Large(output)) => Err(Fail::Refused(Refusal {
            rule: Rule::M1,
            place: place_of_output(source, app, output),
        })),
    }
}

// The accepted application of a text, by the rules L, P, B, N and S, tried in this order, with the lines of what its
// outputs demand, by the rule M1.
pub(crate) fn demand_source(alloc: Global, text: &[u8]) -> Result<Demanded, Fail>
    ensures { IsDemanding text.now result }
{
    let accepted = accept_source(alloc, text)?;
    let lines = lines_of(alloc, &accepted.source, &accepted.app);
    Ok(Demanded { accepted, lines })
}
