// All that scans of an application may show.

ghost use Rattle.std.specs.Prelude.{◌≡◌, ◌<◌, ◌*◌, ◌++◌, OnOk, length, map, slice_get};
ghost use Rattle.std.specs.List.{flat_map};
ghost use Rattle.ps_model.specs.Args.{actual};
ghost use Rattle.ps_model.specs.Exprs.{formula};
ghost use Rattle.ps_ways.specs.Tables.{ways_of};
ghost use Rattle.ps_cover.specs.Covering.{point_of};
ghost use Rattle.ps_cover.specs.Listing.{call_points, decision_points, does_count, goes_on_guard, goes_on_state};
ghost use Rattle.ps_cover.specs.Listing.{mark_points, operand_points, pin_points, place_points, root_points};
ghost use Rattle.ps_cover.specs.Listing.{signal_points, step_points, steps_points, value_points};

use crate::is_and;
use crate::point::{Decision, Point};
use ps_base::Memory;
use ps_model::{App, Arg, Args, Expr, Exprs, Kind, Step};
use ps_ways::{Way, ways};

// Lists a signal.
fn push_value(signal: u16, points: &mut Vec<Point<'_>>) -> Result<(), Memory>
    ensures { OnOk result (map point_of points.new.items ≡ map point_of points.old.items ++ value_points signal) }
{
    points.push(Point::Value { signal })?;
    Ok(())
}

/// Lists the values of the inputs, outputs and locals.
pub(crate) fn push_values(app: &App, points: &mut Vec<Point<'_>>) -> Result<(), Memory>
    ensures { OnOk result (map point_of points.new.items ≡ map point_of points.old.items ++ signal_points app.now) }
{
    for signal in 0..app.declared_count() {
        push_value(signal, points)?;
    }
    Ok(())
}

// Whether a way is of the same state as the one before it.
fn goes_on_state(ways: &[Way], place: usize) -> bool
    requires { place < length ways.now }
    ensures { result ≡ goes_on_state ways.now place }
{
    place != 0 && ways[place - 1].state == ways[place].state
}

// Whether a way is a further alternative of the guard of the one before it.
fn goes_on_guard(ways: &[Way], place: usize) -> bool
    requires { place < length ways.now }
    ensures { result ≡ goes_on_guard ways.now place }
{
    goes_on_state(ways, place) && ways[place - 1].number == ways[place].number
}

/// Whether a mark counts: of the alternatives of a guard the first, and of the ways of a state the first.
pub(crate) fn does_count(kind: Kind, mark: usize) -> bool
    requires { mark < 2 * length (ways_of kind) }
    ensures { result ≡ does_count kind mark }
{
    let ways = ways(kind);
    if mark < ways.len() {
        !goes_on_guard(ways, mark)
    } else {
        !goes_on_state(ways, mark - ways.len())
    }
}

// Lists a mark of the call of a step, where it counts.
fn push_mark(step: u16, kind: Kind, mark: usize, points: &mut Vec<Point<'_>>) -> Result<(), Memory>
    requires { mark < 2 * length (ways_of kind) }
    ensures { OnOk result (map point_of points.new.items ≡ map point_of points.old.items
        ++ mark_points step kind mark) }
{
    if !does_count(kind, mark) {
        return Ok(());
    }
    points.push(Point::Mark { step, mark })?;
    Ok(())
}

// Lists the marks of the call of a step.
fn push_marks(step: u16, kind: Kind, points: &mut Vec<Point<'_>>) -> Result<(), Memory>
    ensures { OnOk result (map point_of points.new.items ≡ map point_of points.old.items ++ call_points step kind) }
{
    for mark in 0..2 * ways(kind).len() {
        push_mark(step, kind, mark, points)?;
    }
    Ok(())
}

// Lists the operand at a place.
fn push_place<'a>(
    step: u16,
    operands: &'a Exprs,
    of_and: bool,
    place: usize,
    points: &mut Vec<Point<'a>>,
) -> Result<(), Memory>
    ensures { OnOk result (map point_of points.new.items ≡ map point_of points.old.items
        ++ place_points step of_and (map formula operands.now.items.items) place) }
{
    points.push(Point::Decides(Decision {
        step,
        operands,
        of_and,
        place,
    }))?;
    Ok(())
}

// Lists the operands of an AND or an OR.
fn push_operands<'a>(
    step: u16,
    operands: &'a Exprs,
    of_and: bool,
    points: &mut Vec<Point<'a>>,
) -> Result<(), Memory>
    ensures { OnOk result (map point_of points.new.items ≡ map point_of points.old.items
        ++ operand_points step of_and (map formula operands.now.items.items)) }
{
    for place in 0..operands.len() {
        push_place(step, operands, of_and, place, points)?;
    }
    Ok(())
}

// Lists the operands of an AND or an OR itself.
fn push_root<'a>(step: u16, e: &'a Expr, points: &mut Vec<Point<'a>>) -> Result<(), Memory>
    ensures { OnOk result (map point_of points.new.items ≡ map point_of points.old.items
        ++ root_points step (formula e.now)) }
{
    match e {
        Expr::Signal(_) => Ok(()),
        Expr::And(es) | Expr::Or(es) => push_operands(step, es, is_and(e), points),
    }
}

// Lists the operands of each AND and OR of a value.
fn push_decisions<'a>(step: u16, e: &'a Expr, points: &mut Vec<Point<'a>>) -> Result<(), Memory>
    ensures { OnOk result (map point_of points.new.items ≡ map point_of points.old.items
        ++ decision_points step (formula e.now)) }
{
    push_root(step, e, points)?;
    if let Expr::And(es) | Expr::Or(es) = e {
        for x in &es.items {
            push_decisions(step, x, points)?;
        }
    }
    Ok(())
}

// Lists what stands at a pin.
fn push_arg<'a>(step: u16, arg: &'a Arg, points: &mut Vec<Point<'a>>) -> Result<(), Memory>
    ensures { OnOk result (map point_of points.new.items ≡ map point_of points.old.items
        ++ pin_points step (actual arg.now)) }
{
    match arg {
        Arg::Value(e) => push_decisions(step, e, points),
        Arg::Free | Arg::Lit(_) | Arg::Time(_) => Ok(()),
    }
}

// Lists what stands at the pins of a call.
fn push_args<'a>(step: u16, args: &'a Args, points: &mut Vec<Point<'a>>) -> Result<(), Memory>
    ensures { OnOk result (map point_of points.new.items ≡ map point_of points.old.items
        ++ flat_map (pin_points step) args.now) }
{
    for j in 0..args.len() {
        push_arg(step, args.at(j), points)?;
    }
    Ok(())
}

// Lists the points of a step.
fn push_step<'a>(app: &'a App, k: u16, points: &mut Vec<Point<'a>>) -> Result<(), Memory>
    requires { k < length app.now.steps }
    ensures { OnOk result (map point_of points.new.items ≡ map point_of points.old.items
        ++ step_points app.now k (slice_get app.now.steps k)) }
{
    app.sound();
    match app.step(k) {
        Step::Assign { value, .. } => push_decisions(k, value, points),
        Step::Call { instance, args } => {
            push_marks(k, app.instance_kind(*instance), points)?;
            push_args(k, args, points)
        }
    }
}

/// Lists the points of all steps.
pub(crate) fn push_steps<'a>(app: &'a App, points: &mut Vec<Point<'a>>) -> Result<(), Memory>
    ensures { OnOk result (map point_of points.new.items ≡ map point_of points.old.items ++ steps_points app.now) }
{
    for k in 0..app.step_count() {
        push_step(app, k, points)?;
    }
    Ok(())
}
