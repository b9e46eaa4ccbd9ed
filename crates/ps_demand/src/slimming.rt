// The demands of signals, made slim as they are built, step by step.

ghost use Rattle.std.specs.Prelude.{◌≡◌, ◌<◌, ◌≤◌, ◌+◌, ℕ, true, All, IfOk, List, OnOk, Option, flat_map, length, map};
ghost use Rattle.ps_model.specs.Args.{actual};
ghost use Rattle.ps_model.specs.Blocks.{block};
ghost use Rattle.ps_model.specs.Drivers.{driver};
ghost use Rattle.ps_model.specs.Exprs.{formula, operands};
ghost use Rattle.ps_model.specs.Network.{signal_count};
ghost use Rattle.ps_model.specs.Scanning.{pin_at};
ghost use Rattle.ps_model.specs.Typing.{Accepted, is_safe_signal};
ghost use Rattle.ps_model.specs.Values.{IsBelow, AreBelow, values_at_pin};
ghost use Rattle.ps_demand.specs.Demand.{constant, negated_signal, negated_at_pin, demand};
ghost use Rattle.ps_demand.specs.Passes.{stands_before, slim_over, safe_slims, all_slims, slim_at_pin, slim_of_need};
ghost use Rattle.ps_demand.specs.Passes.{slim_output, kept_for, saturated, count_in, output_weight, IsNeedOf};
ghost use Rattle.ps_demand.specs.Passes.{AreCounts, AreSlim, AreOutputs, HasSlim};
ghost use Rattle.ps_demand.specs.Requirement.{leaf_count};
ghost use Rattle.ps_demand.specs.Slim.{joined, slim};
ghost use Rattle.ps_demand.specs.Views.{requirement};
ghost use Rattle.ps_demand.specs.Wanted.{WantsReads};
ghost use Rattle.ps_demand.specs.declared.join.Join.TheVariants.{And, Or};

use crate::counting::{count_output, count_step, count_value, first_counts, is_safe_value};
use crate::demand::{Demand, MOST_LEAVES, copy};
use crate::join::Join;
use crate::joining::{add_part, slim_of_parts};
use crate::releasing::release_step;
use crate::table::write_over;
use crate::wanted::{is_wanted_behind, last_readers};
use ps_base::Memory;
use ps_model::{
    App, Arg, Args, Driver, Expr, Kind, Need, Step, Ty, demand, input_type, is_safe, pin_row,
    safe_count,
};
use std::alloc::Global;

// Whether a signal has a driver before step k.
fn stands_before(app: &App, k: u16, signal: u16) -> bool
    requires { signal < signal_count app.now }
    ensures { result ≡ stands_before k (driver app.now signal) }
{
    match app.driver(signal) {
        Some(Driver::Assigned { step }) => step < k,
        Some(Driver::Output { step, .. }) => step < k,
        None => false,
    }
}

// TRUE or FALSE.
fn constant(value: bool) -> Demand
    ensures { requirement result ≡ constant value }
{
    if value { Demand::True } else { Demand::False }
}

// "not" of a signal that step k reads, kept where the signal is an input or has no driver before the step, and else
// TRUE.
fn negated_signal(app: &App, k: u16, signal: u16) -> Demand
    requires { signal < signal_count app.now }
    ensures { requirement result ≡ negated_signal app.now k signal }
{
    app.sound();
    if signal < app.input_count() {
        return Demand::NotNow(signal);
    }
    if stands_before(app, k, signal) {
        return Demand::True;
    }
    Demand::NotBefore(signal)
}

// "not" of what stands at a pin of a call of step k.
fn negated_argument(app: &App, k: u16, free: bool, arg: &Arg) -> Demand
    requires { All (IsBelow (signal_count app.now)) (values_at_pin (actual arg.now)) }
    ensures { requirement result ≡ negated_at_pin app.now k free (actual arg.now) }
{
    match arg {
        Arg::Free => constant(!free),
        Arg::Lit(value) => constant(!*value),
        Arg::Time(_) => Demand::True,
        Arg::Value(e) => match e {
            Expr::Signal(signal) => negated_signal(app, k, *signal),
            Expr::And(_) | Expr::Or(_) => Demand::True,
        },
    }
}

// The slim demand of a value, where those of the signals are these.
#[cycle(slim)]
fn slim_value(alloc: Global, app: &App, rows: &[Demand], e: &Expr) -> Result<Demand, Memory>
    requires below { IsBelow (signal_count app.now) (formula e.now) }
    requires long { length rows.now ≡ signal_count app.now }
    ensures { IfOk result (λ d. requirement d ≡ slim_over app.now (kept_for rows.now) (formula e.now)) }
{
    match e {
        Expr::Signal(s) => copy(alloc, &rows[*s as usize]),
        Expr::And(es) => slim_conjunction(alloc, app, rows, &es.items),
        Expr::Or(es) => slim_disjunction(alloc, app, rows, &es.items),
    }
}

// The slim demand of an AND: the conjunction over its safe operands.
#[cycle(slim)]
fn slim_conjunction(
    alloc: Global,
    app: &App,
    rows: &[Demand],
    all: &[Expr],
) -> Result<Demand, Memory>
    requires below { AreBelow (signal_count app.now) (operands (map formula all.now)) }
    requires long { length rows.now ≡ signal_count app.now }
    ensures { IfOk result (λ d. requirement d ≡ joined And (safe_slims app.now (kept_for rows.now) (operands (map formula all.now)))) }
{
    let mut parts = Vec::new(alloc);
    for x in all {
        if is_safe_value(app, x) {
            let part = slim_value(alloc, app, rows, x)?;
            add_part(Join::And, part, &mut parts)?;
        }
    }
    slim_of_parts(alloc, Join::And, parts)
}

// The slim demand of an OR: the disjunction over all its operands.
#[cycle(slim)]
fn slim_disjunction(
    alloc: Global,
    app: &App,
    rows: &[Demand],
    all: &[Expr],
) -> Result<Demand, Memory>
    requires below { AreBelow (signal_count app.now) (operands (map formula all.now)) }
    requires long { length rows.now ≡ signal_count app.now }
    ensures { IfOk result (λ d. requirement d ≡ joined Or (all_slims app.now (kept_for rows.now) (operands (map formula all.now)))) }
{
    let mut parts = Vec::new(alloc);
    for x in all {
        let part = slim_value(alloc, app, rows, x)?;
        add_part(Join::Or, part, &mut parts)?;
    }
    slim_of_parts(alloc, Join::Or, parts)
}

// The slim demand of what stands at a SAFEBOOL pin.
fn slim_argument(
    alloc: Global,
    app: &App,
    rows: &[Demand],
    free: bool,
    arg: &Arg,
) -> Result<Demand, Memory>
    requires below { All (IsBelow (signal_count app.now)) (values_at_pin (actual arg.now)) }
    requires long { length rows.now ≡ signal_count app.now }
    ensures { IfOk result (λ d. requirement d ≡ slim_at_pin app.now (kept_for rows.now) free (actual arg.now)) }
{
    match arg {
        Arg::Free => Ok(constant(free)),
        Arg::Lit(value) => Ok(constant(*value)),
        Arg::Time(_) => Ok(Demand::False),
        Arg::Value(e) => slim_value(alloc, app, rows, e),
    }
}

// The slim demand that one pin of a block's formula stands for in a call of step k.
fn slim_need(
    alloc: Global,
    app: &App,
    k: u16,
    rows: &[Demand],
    kind: Kind,
    args: &Args,
    need: Need,
) -> Result<Demand, Memory>
    requires pin { IsNeedOf kind need }
    requires each { length args.now ≡ length (block kind).inputs }
    requires below { All (IsBelow (signal_count app.now)) (flat_map values_at_pin args.now) }
    requires long { length rows.now ≡ signal_count app.now }
    ensures { IfOk result (λ d. requirement d ≡ slim_of_need app.now k (kept_for rows.now) kind args.now need) }
{
    match need {
        Need::On(p) => match input_type(kind, p) {
            Ty::Safe => slim_argument(alloc, app, rows, free_value(kind, p), args.at(p as usize)),
            Ty::Bool | Ty::Time => Ok(Demand::True),
        },
        Need::Off(p) => Ok(negated_argument(app, k, free_value(kind, p), args.at(p as usize))),
    }
}

// The value of a free input pin of a kind.
fn free_value(kind: Kind, p: u8) -> bool
    requires { p < length (block kind).inputs }
    ensures { result ≡ (pin_at kind p).free }
{
    pin_row(kind, p).free
}

// The slim demand of a safe output of a call of step k.
fn slim_output(
    alloc: Global,
    app: &App,
    k: u16,
    rows: &[Demand],
    kind: Kind,
    args: &Args,
    output: u8,
) -> Result<Demand, Memory>
    requires output { output < length (block kind).outputs }
    requires each { length args.now ≡ length (block kind).inputs }
    requires below { All (IsBelow (signal_count app.now)) (flat_map values_at_pin args.now) }
    requires long { length rows.now ≡ signal_count app.now }
    ensures { IfOk result (λ d. requirement d ≡ slim_output app.now k (kept_for rows.now) kind args.now output) }
{
    let needs = demand(kind, output);
    if needs.len() == 1 {
        return slim_need(alloc, app, k, rows, kind, args, needs[0]);
    }
    let mut parts = Vec::new(alloc);
    for need in needs {
        let part = slim_need(alloc, app, k, rows, kind, args, *need)?;
        add_part(Join::And, part, &mut parts)?;
    }
    slim_of_parts(alloc, Join::And, parts)
}

// The slim demand of a safe output of a call of step k, or anything where it is Large.
fn small_output(
    alloc: Global,
    app: &App,
    k: u16,
    counts: &[u32],
    rows: &[Demand],
    kind: Kind,
    args: &Args,
    output: u8,
) -> Result<Demand, Memory>
    requires output { output < length (block kind).outputs }
    requires each { length args.now ≡ length (block kind).inputs }
    requires below { All (IsBelow (signal_count app.now)) (flat_map values_at_pin args.now) }
    requires counts { length counts.now ≡ signal_count app.now }
    requires rows { length rows.now ≡ signal_count app.now }
    ensures { IfOk result (λ d. saturated (output_weight app.now (count_in counts.now) kind args.now output) ≤ MOST_LEAVES →
        requirement d ≡ slim_output app.now k (kept_for rows.now) kind args.now output) }
{
    if count_output(app, counts, kind, args, output) > MOST_LEAVES {
        return Ok(Demand::True);
    }
    slim_output(alloc, app, k, rows, kind, args, output)
}

// The slim demands of the safe outputs of a call of step k, in order.
fn slim_outputs(
    alloc: Global,
    app: &App,
    k: u16,
    counts: &[u32],
    rows: &[Demand],
    kind: Kind,
    args: &Args,
) -> Result<Vec<Demand>, Memory>
    requires each { length args.now ≡ length (block kind).inputs }
    requires below { All (IsBelow (signal_count app.now)) (flat_map values_at_pin args.now) }
    requires counts { length counts.now ≡ signal_count app.now }
    requires rows { length rows.now ≡ signal_count app.now }
    ensures { IfOk result (λ outputs. AreOutputs app.now k counts.now rows.now kind args.now (length (block kind).outputs) outputs.items) }
{
    let mut outputs = Vec::new(alloc);
    for j in 0..safe_count(kind) {
        outputs.push(small_output(alloc, app, k, counts, rows, kind, args, j)?)?;
    }
    Ok(outputs)
}

// Goes on by a step with the slim demands of all signals that are wanted.
fn slim_step(
    alloc: Global,
    app: &App,
    k: u16,
    counts: &[u32],
    last: &[Option<u16>],
    rows: &mut Vec<Demand>,
) -> Result<(), Memory>
    requires step { k < length app.now.steps }
    requires accepted { Accepted app.now }
    requires counted { AreCounts app.now k counts.now }
    requires wanted { WantsReads app.now k last.now }
    requires slim { AreSlim app.now k last.now rows.old.items }
    ensures { OnOk result (AreSlim app.now (k + 1) last.now rows.new.items) }
{
    app.sound();
    match app.step(k) {
        Step::Assign { target, value } => {
            if is_safe(app, *target)
                && is_wanted_behind(last, k, *target)
                && count_value(app, counts, value) <= MOST_LEAVES
            {
                let demand = slim_value(alloc, app, rows.as_slice(), value)?;
                rows[*target as usize] = demand;
            }
        }
        Step::Call { instance, args } => {
            let kind = app.instance_kind(*instance);
            let outputs = slim_outputs(alloc, app, k, counts, rows.as_slice(), kind, args)?;
            write_over(rows, app.first_pin(*instance) as usize, outputs);
        }
    }
    Ok(())
}

// The demands of the signals as the first step reads them: an input is itself, and all else is of the scan before.
fn first_demands(alloc: Global, app: &App) -> Result<Vec<Demand>, Memory>
    ensures { (last : List (Option ℕ)) → IfOk result (λ rows. AreSlim app.now 0 last rows.items) }
{
    let inputs = app.input_count();
    let mut rows = Vec::new(alloc);
    for s in 0..app.signal_count() {
        rows.push(if s < inputs {
            Demand::Now(s)
        } else {
            Demand::Before(s)
        })?;
    }
    Ok(rows)
}

// The slim demands of the signals from `first` on to `end` after all steps, where they are not Large. Each step is gone
// through once, and the demand of a signal is built where one of these comes to it, and kept up to the last step that
// reads it.
pub(crate) fn slim_signals(
    alloc: Global,
    app: &App,
    first: u16,
    end: u16,
) -> Result<Vec<Demand>, Memory>
    requires accepted { Accepted app.now }
    requires within { end ≤ signal_count app.now }
    ensures { IfOk result (λ rows. HasSlim app.now first end rows.items) }
{
    let last = last_readers(alloc, app, first, end)?;
    let mut counts = first_counts(alloc, app)?;
    let mut rows = first_demands(alloc, app)?;
    for k in 0..app.step_count() {
        slim_step(alloc, app, k, counts.as_slice(), last.as_slice(), &mut rows)?;
        count_step(alloc, app, k, &mut counts)?;
        release_step(app, k, last.as_slice(), &mut rows);
    }
    Ok(rows)
}

// The slim demand of a safe signal, where it is not Large.
pub(crate) fn slim_demand(alloc: Global, app: &App, signal: u16) -> Result<Demand, Memory>
    requires accepted { Accepted app.now }
    requires below { signal < signal_count app.now }
    requires safe { is_safe_signal app.now signal ≡ true }
    requires small { leaf_count (demand app.now signal) ≤ MOST_LEAVES }
    ensures { IfOk result (λ d. requirement d ≡ slim (demand app.now signal)) }
{
    app.sound();
    let rows = slim_signals(alloc, app, signal, signal + 1)?;
    copy(alloc, &rows[signal as usize])
}
