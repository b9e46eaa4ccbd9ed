// What a step reads, as facts, and what the guards see in a call.

ghost use Rattle.std.specs.Prelude.{◌≡◌, ◌<◌, ◌≤◌, false, length, map, slice_get, slice_index_or, IfOk, List, Some};
ghost use Rattle.std.specs.List.{range_with_len};
ghost use Rattle.ps_model.specs.Action.{Actual, calls};
ghost use Rattle.ps_model.specs.Blocks.{block};
ghost use Rattle.ps_model.specs.Exprs.{formula};
ghost use Rattle.ps_model.specs.Network.{instance_count, kind_at, signal_count};
ghost use Rattle.ps_ways.specs.Stepping.{conditions_of};
ghost use Rattle.ps_why.specs.FactsRead.{fact_of_read};
ghost use Rattle.ps_why.specs.Reasons.{reads};
ghost use Rattle.ps_why.specs.Scenes.{IsCallFor, IsSceneFor, conditions_in, read_in};

use crate::scene::Scene;
use crate::{CallScene, Fact, signal_fact, tell_signals};
use ps_base::Memory;
use ps_machine::{bit_at, is_new, read_pins, read_signal};
use ps_model::{App, Args, Expr, Step};
use ps_ways::StepConditions;
use std::alloc::Global;

// The signals as a step reads them.
fn read_signals(alloc: Global, app: &App, k: u16, scene: &Scene<'_>) -> Result<Vec<bool>, Memory>
    ensures { IfOk result (λ read.
        read.items ≡ map (read_in app.now scene.entry.now k) (range_with_len 0 (signal_count app.now))) }
{
    let mut read = Vec::with_capacity(alloc, app.signal_count() as usize)?;
    for s in 0..app.signal_count() {
        read.push(read_signal(app, k, s, &scene.signals))?;
    }
    Ok(read)
}

// The fact that a step reads a value of a signal.
fn read_fact(app: &App, k: u16, s: u16, value: bool) -> Fact
    ensures { result ≡ fact_of_read app.now k s value }
{
    signal_fact(is_new(app, k, s), s, value)
}

// The facts that a step reads these signals, of which it reads all these values.
fn read_facts(
    alloc: Global,
    app: &App,
    k: u16,
    signals: &[u16],
    read: &[bool],
) -> Result<Vec<Fact>, Memory>
    ensures { IfOk result (λ facts. facts.items
        ≡ map (λ s. fact_of_read app.now k s (slice_index_or read.now s false)) signals.now) }
{
    let mut facts = Vec::new(alloc);
    for s in signals {
        facts.push(read_fact(app, k, *s, bit_at(read, *s as usize)))?;
    }
    Ok(facts)
}

/// By which signals an expression has its value, as a step reads it.
pub(crate) fn expression_facts(
    alloc: Global,
    app: &App,
    k: u16,
    e: &Expr,
    scene: &Scene<'_>,
) -> Result<Vec<Fact>, Memory>
    requires { IsSceneFor app.now scene.now }
    ensures { IfOk result (λ facts. facts.items ≡ reads app.now scene.entry.now k (formula e.now)) }
{
    let read = read_signals(alloc, app, k, scene)?;
    let mut signals = Vec::new(alloc);
    tell_signals(e, read.as_slice(), &mut signals)?;
    read_facts(alloc, app, k, signals.as_slice(), read.as_slice())
}

/// What the guards of an instance see in a call of it.
pub(crate) fn conditions_at(
    app: &App,
    k: u16,
    i: u16,
    args: &Args,
    call: &CallScene,
    scene: &Scene<'_>,
) -> StepConditions
    requires instance { i < instance_count app.now }
    requires arguments { length args.now ≡ length (block (kind_at app.now i)).inputs }
    requires mode { call.now.last.mode ≤ 7 }
    ensures { conditions_of result ≡ conditions_in app.now scene.entry.now k i args.now call.now }
{
    let kind = app.instance_kind(i);
    let bits = read_pins(app, k, kind, args, &scene.signals);
    StepConditions::of(kind, bits, call.last, call.elapsed)
}

/// What the guards of an instance see in its call.
pub(crate) fn call_conditions(
    app: &App,
    i: u16,
    call: &CallScene,
    scene: &Scene<'_>,
) -> StepConditions
    requires { IsCallFor app.now i call.now }
    ensures { (args : List Actual) → slice_get app.now.steps call.now.step ≡ Some (calls i args) →
        conditions_of result ≡ conditions_in app.now scene.entry.now call.now.step i args call.now }
{
    app.sound();
    match app.step(call.step) {
        Step::Call { args, .. } => conditions_at(app, call.step, i, args, call, scene),
        Step::Assign { .. } => {
            StepConditions::of(app.instance_kind(i), 0, call.last, call.elapsed)
        }
    }
}
