// On what the value of a signal rests.

ghost use Rattle.std.specs.Prelude.{◌≡◌, ◌++◌, false, IfOk, MatchOption, OnOk, Some, slice_get};
ghost use Rattle.ps_model.specs.Drivers.{driver};
ghost use Rattle.ps_model.specs.Network.{is_driven};
ghost use Rattle.ps_ways.specs.Stepping.{conditions_of};
ghost use Rattle.ps_why.specs.declared.fact.Fact.TheVariants.{SignalIs};
ghost use Rattle.ps_why.specs.Drivers.{IsDrivenBy};
ghost use Rattle.ps_why.specs.Reasons.{assigned_by, driven_by, lacked, output_of, reasons_of, shown};
ghost use Rattle.ps_why.specs.Scenes.{IsSceneFor};

use crate::scene::Scene;
use crate::scene_reading::{call_conditions, expression_facts};
use crate::{CallScene, Fact, tell_denial};
use ps_base::Memory;
use ps_model::{App, Driver, Kind, Step, safe_count};
use ps_ways::StepConditions;
use std::alloc::Global;

/// What drives a signal.
pub(crate) fn driver_of(app: &App, s: u16) -> Option<Driver>
    ensures is { result ≡ driver app.now s }
    ensures drives { MatchOption result (is_driven app.now s ≡ false) (IsDrivenBy app.now s) }
{
    app.sound();
    if s < app.signal_count() {
        app.driver(s)
    } else {
        None
    }
}

// By which signals the value has its value that a step assigns.
fn assigned_facts(alloc: Global, app: &App, k: u16, scene: &Scene<'_>) -> Result<Vec<Fact>, Memory>
    requires { IsSceneFor app.now scene.now }
    ensures { IfOk result (λ facts.
        facts.items ≡ assigned_by app.now scene.entry.now k (slice_get app.now.steps k)) }
{
    app.sound();
    if k >= app.step_count() {
        return Ok(Vec::new(alloc));
    }
    match app.step(k) {
        Step::Assign { value, .. } => expression_facts(alloc, app, k, value, scene),
        Step::Call { .. } => Ok(Vec::new(alloc)),
    }
}

// Tells the state of an instance after the scan, and its mode where its outputs show one.
fn tell_state(i: u16, kind: Kind, call: &CallScene, facts: &mut Vec<Fact>) -> Result<(), Memory>
    ensures { OnOk result (facts.new.items ≡ facts.old.items ++ shown kind i call.now) }
{
    facts.push(Fact::StateIs {
        instance: i,
        code: call.code,
    })?;
    if let Kind::ModeSelector = kind {
        facts.push(Fact::ModeIs {
            instance: i,
            mode: call.mode,
        })?;
    }
    Ok(())
}

// Tells the pin that a safe output lacks which is FALSE, if it lacks one.
fn tell_lack(
    kind: Kind,
    j: u16,
    value: bool,
    step: u16,
    seen: &StepConditions,
    facts: &mut Vec<Fact>,
) -> Result<(), Memory>
    ensures { OnOk result (facts.new.items
        ≡ facts.old.items ++ lacked step (conditions_of seen.now).pin kind j value) }
{
    if value || j >= safe_count(kind) as u16 {
        return Ok(());
    }
    tell_denial(kind, j as u8, step, seen, facts)?;
    Ok(())
}

// On what an output of an instance rests, that has a value: on a pin that its demand names, or on the state.
fn output_facts(
    alloc: Global,
    app: &App,
    i: u16,
    j: u16,
    value: bool,
    scene: &Scene<'_>,
) -> Result<Vec<Fact>, Memory>
    requires { IsSceneFor app.now scene.now }
    ensures { IfOk result (λ facts. facts.items ≡ output_of app.now scene.entry.now i j value) }
{
    let mut facts = Vec::new(alloc);
    if (i as usize) >= scene.calls.len() {
        return Ok(facts);
    }
    app.sound();
    let call = &scene.calls[i as usize];
    let kind = app.instance_kind(i);
    let seen = call_conditions(app, i, call, scene);
    tell_lack(kind, j, value, call.step, &seen, &mut facts)?;
    if !facts.is_empty() {
        return Ok(facts);
    }
    tell_state(i, kind, call, &mut facts)?;
    Ok(facts)
}

// On what it rests that a signal has a value which is driven so.
fn driven_facts(
    alloc: Global,
    app: &App,
    driver: Driver,
    value: bool,
    scene: &Scene<'_>,
) -> Result<Vec<Fact>, Memory>
    requires { IsSceneFor app.now scene.now }
    ensures { IfOk result (λ facts. facts.items ≡ driven_by app.now scene.entry.now value (Some driver)) }
{
    match driver {
        Driver::Assigned { step } => assigned_facts(alloc, app, step, scene),
        Driver::Output {
            instance,
            output,
            ..
        } => output_facts(alloc, app, instance, output, value, scene),
    }
}

/// On what it rests that a signal has a value.
pub(crate) fn signal_facts(
    alloc: Global,
    app: &App,
    s: u16,
    value: bool,
    scene: &Scene<'_>,
) -> Result<Vec<Fact>, Memory>
    requires { IsSceneFor app.now scene.now }
    ensures { IfOk result (λ facts. facts.items ≡ reasons_of app.now scene.entry.now (SignalIs s value)) }
{
    if s < app.input_count() {
        return Ok(Vec::new(alloc));
    }
    match driver_of(app, s) {
        None => Ok(Vec::new(alloc)),
        Some(driver) => driven_facts(alloc, app, driver, value, scene),
    }
}
