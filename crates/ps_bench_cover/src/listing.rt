// The places of all operands of a source, in order.

ghost use Rattle.std.specs.Prelude.{◌≡◌, ◌++◌, OnOk, map, slice_get};
ghost use Rattle.ps_bench_cover.specs.Standing.{source_operands, step_operands};
ghost use Rattle.ps_bench_cover.specs.Operands.{place_of};

use crate::statement::push_statement;
use ps_base::{Memory, Place};
use ps_cover::called_kind;
use ps_model::App;
use ps_parser::Source;

// Lists the operands of the statement of a step.
fn push_step(app: &App, source: &Source, step: u16, places: &mut Vec<Place>) -> Result<(), Memory>
    ensures { OnOk result (places.new.items ≡ places.old.items
        ++ map place_of (step_operands app.now step (slice_get source.now.statements step))) }
{
    let at = step as usize;
    if at >= source.statements.len() {
        return Ok(());
    }
    push_statement(called_kind(app, step), source.statements.at(at), places)
}

/// Lists the operands of all statements of a source.
pub(crate) fn push_source(app: &App, source: &Source, places: &mut Vec<Place>) -> Result<(), Memory>
    ensures { OnOk result (places.new.items ≡ places.old.items
        ++ map place_of (source_operands app.now source.now)) }
{
    for step in 0..app.step_count() {
        push_step(app, source, step, places)?;
    }
    Ok(())
}
