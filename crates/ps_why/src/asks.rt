// On what it rests that something that a guard asks holds, or does not.

ghost use Rattle.std.specs.Prelude.{◌≡◌, ◌++◌, IfOk, OnOk, slice_get};
ghost use Rattle.ps_ways.specs.Stepping.{conditions_of};
ghost use Rattle.ps_ways.specs.declared.way.Ask.TheVariants.{Edge, LatchedMode, Rise};
ghost use Rattle.ps_why.specs.Reasons.{ask_reasons, asked_by};
ghost use Rattle.ps_why.specs.Scenes.{IsSceneFor};

use crate::scene::Scene;
use crate::scene_reading::conditions_at;
use crate::{Fact, tell_modes, tell_pin};
use ps_base::Memory;
use ps_model::{App, Kind, Step, auxiliary_pin, reset_pin};
use ps_ways::{Ask, LastStep, StepConditions};
use std::alloc::Global;

/// A call: its step, its instance and its kind, and what it kept of its last step.
#[derive(Clone, Copy)]
pub(crate) struct Call {
    pub(crate) step: u16,
    pub(crate) instance: u16,
    pub(crate) kind: Kind,
    pub(crate) last: LastStep,
}

// Tells Reset, and what it was in the last step where it is TRUE now.
fn tell_reset(call: &Call, seen: &StepConditions, facts: &mut Vec<Fact>) -> Result<(), Memory>
    ensures { OnOk result (facts.new.items ≡ facts.old.items ++ ask_reasons call.now (conditions_of seen.now).pin Edge) }
{
    if let Some(pin) = reset_pin(call.kind) {
        if tell_pin(call.step, pin, seen, facts)? {
            facts.push(Fact::ResetWas {
                instance: call.instance,
                value: call.last.reset,
            })?;
        }
    }
    Ok(())
}

// Tells the auxiliary input, and what it was in the last step where it is TRUE now.
fn tell_auxiliary(call: &Call, seen: &StepConditions, facts: &mut Vec<Fact>) -> Result<(), Memory>
    ensures { OnOk result (facts.new.items ≡ facts.old.items ++ ask_reasons call.now (conditions_of seen.now).pin Rise) }
{
    if let Some(pin) = auxiliary_pin(call.kind) {
        if tell_pin(call.step, pin, seen, facts)? {
            facts.push(Fact::AuxiliaryWas {
                instance: call.instance,
                value: call.last.auxiliary,
            })?;
        }
    }
    Ok(())
}

// Tells the pins of the modes, and the mode that was latched.
fn tell_latched(call: &Call, seen: &StepConditions, facts: &mut Vec<Fact>) -> Result<(), Memory>
    ensures { OnOk result (facts.new.items
        ≡ facts.old.items ++ ask_reasons call.now (conditions_of seen.now).pin LatchedMode) }
{
    tell_modes(call.step, seen, facts)?;
    facts.push(Fact::ModeWas {
        instance: call.instance,
        mode: call.last.mode,
    })?;
    Ok(())
}

// Tells on what it rests that something holds that a guard asks, or does not. Of the limit it tells nothing.
fn tell_ask(
    call: &Call,
    ask: Ask,
    seen: &StepConditions,
    facts: &mut Vec<Fact>,
) -> Result<(), Memory>
    ensures { OnOk result (facts.new.items ≡ facts.old.items ++ ask_reasons call.now (conditions_of seen.now).pin ask) }
{
    match ask {
        Ask::Pin(pin) => {
            tell_pin(call.step, pin, seen, facts)?;
            Ok(())
        }
        Ask::Edge | Ask::Held => tell_reset(call, seen, facts),
        Ask::Rise => tell_auxiliary(call, seen, facts),
        Ask::Elapsed => Ok(()),
        Ask::NoMode | Ask::OneMode | Ask::ManyModes => tell_modes(call.step, seen, facts),
        Ask::LatchedMode => tell_latched(call, seen, facts),
    }
}

/// On what it rests whether something that a guard can ask holds in a call.
pub(crate) fn ask_facts(
    alloc: Global,
    app: &App,
    k: u16,
    ask: Ask,
    scene: &Scene<'_>,
) -> Result<Vec<Fact>, Memory>
    requires { IsSceneFor app.now scene.now }
    ensures { IfOk result (λ facts. facts.items ≡ asked_by app.now scene.entry.now k ask (slice_get app.now.steps k)) }
{
    app.sound();
    let mut facts = Vec::new(alloc);
    if k >= app.step_count() {
        return Ok(facts);
    }
    match app.step(k) {
        Step::Assign { .. } => Ok(facts),
        Step::Call { instance, args } => {
            let here = &scene.calls[*instance as usize];
            let seen = conditions_at(app, k, *instance, args, here, scene);
            let call = Call {
                step: k,
                instance: *instance,
                kind: app.instance_kind(*instance),
                last: here.last,
            };
            tell_ask(&call, ask, &seen, &mut facts)?;
            Ok(facts)
        }
    }
}
