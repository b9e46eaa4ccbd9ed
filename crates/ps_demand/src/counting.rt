// How many leaves demands have, signal by signal, before anything is built.

ghost use Rattle.std.specs.Prelude.{◌≡◌, ◌<◌, ◌+◌, true, All, IfOk, OnOk, flat_map, length, map};
ghost use Rattle.std.specs.List.{range_with_len};
ghost use Rattle.ps_model.specs.Args.{actual};
ghost use Rattle.ps_model.specs.Blocks.{block};
ghost use Rattle.ps_model.specs.Exprs.{formula};
ghost use Rattle.ps_model.specs.Network.{signal_count};
ghost use Rattle.ps_model.specs.Typing.{Accepted, safe, is_safe_signal};
ghost use Rattle.ps_model.specs.Values.{IsBelow, values_at_pin};
ghost use Rattle.ps_demand.specs.Passes.{saturated, count_in, weight, weight_at_pin, weight_of_need, output_weight};
ghost use Rattle.ps_demand.specs.Passes.{IsNeedOf, AreCounts};
ghost use Rattle.ps_demand.specs.Demand.{demand};
ghost use Rattle.ps_demand.specs.Requirement.{leaf_count};

use crate::table::write_over;
use ps_base::Memory;
use ps_model::{
    App, Arg, Args, Expr, Kind, Need, Step, Ty, demand, input_type, is_safe, safe_count,
};
use std::alloc::Global;

/// Whether a value is SAFEBOOL.
pub fn is_safe_value(app: &App, e: &Expr) -> bool
    requires { IsBelow (signal_count app.now) (formula e.now) }
    ensures { result ≡ safe app.now (formula e.now) }
{
    match e {
        Expr::Signal(s) => is_safe(app, *s),
        Expr::And(es) => {
            for x in &es.items {
                if is_safe_value(app, x) {
                    return true;
                }
            }
            false
        }
        Expr::Or(es) => {
            for x in &es.items {
                if !is_safe_value(app, x) {
                    return false;
                }
            }
            true
        }
    }
}

/// How many leaves the demand of a value has, where those of the signals have so many.
pub fn count_value(app: &App, counts: &[u32], e: &Expr) -> u32
    requires below { IsBelow (signal_count app.now) (formula e.now) }
    requires long { length counts.now ≡ signal_count app.now }
    ensures { result ≡ saturated (weight app.now (count_in counts.now) (formula e.now)) }
{
    match e {
        Expr::Signal(s) => counts[*s as usize],
        Expr::And(es) => {
            let mut count: u32 = 0;
            for x in &es.items {
                if is_safe_value(app, x) {
                    count = count.saturating_add(count_value(app, counts, x));
                }
            }
            count
        }
        Expr::Or(es) => {
            let mut count: u32 = 0;
            for x in &es.items {
                count = count.saturating_add(count_value(app, counts, x));
            }
            count
        }
    }
}

// How many leaves the demand of an argument has.
fn count_argument(app: &App, counts: &[u32], arg: &Arg) -> u32
    requires below { All (IsBelow (signal_count app.now)) (values_at_pin (actual arg.now)) }
    requires long { length counts.now ≡ signal_count app.now }
    ensures { result ≡ saturated (weight_at_pin app.now (count_in counts.now) (actual arg.now)) }
{
    match arg {
        Arg::Value(e) => count_value(app, counts, e),
        Arg::Free | Arg::Lit(_) | Arg::Time(_) => 1,
    }
}

// How many leaves what one pin of a block's formula demands has.
fn count_need(app: &App, counts: &[u32], kind: Kind, args: &Args, need: Need) -> u32
    requires pin { IsNeedOf kind need }
    requires each { length args.now ≡ length (block kind).inputs }
    requires below { All (IsBelow (signal_count app.now)) (flat_map values_at_pin args.now) }
    requires long { length counts.now ≡ signal_count app.now }
    ensures { result ≡ saturated (weight_of_need app.now (count_in counts.now) kind args.now need) }
{
    match need {
        Need::On(p) => match input_type(kind, p) {
            Ty::Safe => count_argument(app, counts, args.at(p as usize)),
            Ty::Bool | Ty::Time => 1,
        },
        Need::Off(_) => 1,
    }
}

/// How many leaves the demand of a safe output of a call has.
pub fn count_output(app: &App, counts: &[u32], kind: Kind, args: &Args, output: u8) -> u32
    requires output { output < length (block kind).outputs }
    requires each { length args.now ≡ length (block kind).inputs }
    requires below { All (IsBelow (signal_count app.now)) (flat_map values_at_pin args.now) }
    requires long { length counts.now ≡ signal_count app.now }
    ensures { result ≡ saturated (output_weight app.now (count_in counts.now) kind args.now output) }
{
    let needs = demand(kind, output);
    if needs.is_empty() {
        return 1;
    }
    let mut count: u32 = 0;
    for need in needs {
        count = count.saturating_add(count_need(app, counts, kind, args, *need));
    }
    count
}

// The numbers of leaves of the safe outputs of a call, in order.
fn count_outputs(
    alloc: Global,
    app: &App,
    counts: &[u32],
    kind: Kind,
    args: &Args,
) -> Result<Vec<u32>, Memory>
    requires each { length args.now ≡ length (block kind).inputs }
    requires below { All (IsBelow (signal_count app.now)) (flat_map values_at_pin args.now) }
    requires long { length counts.now ≡ signal_count app.now }
    ensures { IfOk result (λ outputs. outputs.items
        ≡ map (λ j. saturated (output_weight app.now (count_in counts.now) kind args.now j)) (range_with_len 0 (length (block kind).outputs))) }
{
    let mut outputs = Vec::new(alloc);
    for j in 0..safe_count(kind) {
        outputs.push(count_output(app, counts, kind, args, j))?;
    }
    Ok(outputs)
}

/// Goes on by a step with the numbers of leaves of the demands of all signals.
pub fn count_step(alloc: Global, app: &App, k: u16, counts: &mut Vec<u32>) -> Result<(), Memory>
    requires step { k < length app.now.steps }
    requires accepted { Accepted app.now }
    requires counted { AreCounts app.now k counts.old.items }
    ensures { OnOk result (AreCounts app.now (k + 1) counts.new.items) }
{
    app.sound();
    match app.step(k) {
        Step::Assign { target, value } => {
            if is_safe(app, *target) {
                counts[*target as usize] = count_value(app, counts.as_slice(), value);
            }
        }
        Step::Call { instance, args } => {
            let kind = app.instance_kind(*instance);
            let outputs = count_outputs(alloc, app, counts.as_slice(), kind, args)?;
            write_over(counts, app.first_pin(*instance) as usize, outputs);
        }
    }
    Ok(())
}

/// One leaf for each signal, as the first step reads them.
pub fn first_counts(alloc: Global, app: &App) -> Result<Vec<u32>, Memory>
    ensures { IfOk result (λ counts. AreCounts app.now 0 counts.items) }
{
    let mut counts = Vec::new(alloc);
    counts.resize(app.signal_count() as usize, 1)?;
    Ok(counts)
}

/// How many leaves the demands of all signals have after all steps. It builds nothing, and visits each node of the
/// application a bounded number of times.
pub fn count_signals(alloc: Global, app: &App) -> Result<Vec<u32>, Memory>
    requires { Accepted app.now }
    ensures { IfOk result (λ counts. AreCounts app.now (length app.now.steps) counts.items) }
{
    let mut counts = first_counts(alloc, app)?;
    for k in 0..app.step_count() {
        count_step(alloc, app, k, &mut counts)?;
    }
    Ok(counts)
}

/// How many leaves the demand of a safe signal has.
pub fn count_leaves(alloc: Global, app: &App, signal: u16) -> Result<u32, Memory>
    requires accepted { Accepted app.now }
    requires below { signal < signal_count app.now }
    requires safe { is_safe_signal app.now signal ≡ true }
    ensures { IfOk result (λ count. count ≡ saturated (leaf_count (demand app.now signal))) }
{
    let counts = count_signals(alloc, app)?;
    Ok(counts[signal as usize])
}
