// On what the state of an instance rests, and its mode.

ghost use Rattle.std.specs.Prelude.{◌≡◌, IfOk};
ghost use Rattle.ps_why.specs.Reasons.{mode_of, state_of};
ghost use Rattle.ps_why.specs.Scenes.{IsSceneFor};

use crate::scene::Scene;
use crate::scene_reading::call_conditions;
use crate::{Fact, tell_guards, tell_modes, tell_pin};
use ps_base::Memory;
use ps_model::App;
use std::alloc::Global;

/// On what the state of an instance after the scan rests: on Activate, on the state before, and on what the
/// guards of that state ask.
pub(crate) fn state_facts(
    alloc: Global,
    app: &App,
    i: u16,
    scene: &Scene<'_>,
) -> Result<Vec<Fact>, Memory>
    requires { IsSceneFor app.now scene.now }
    ensures { IfOk result (λ facts. facts.items ≡ state_of app.now scene.entry.now i) }
{
    app.sound();
    let mut facts = Vec::new(alloc);
    if (i as usize) >= scene.calls.len() {
        return Ok(facts);
    }
    let call = &scene.calls[i as usize];
    let seen = call_conditions(app, i, call, scene);
    if !tell_pin(call.step, 0, &seen, &mut facts)? {
        return Ok(facts);
    }
    facts.push(Fact::StateWas {
        instance: i,
        code: call.from,
    })?;
    if call.was_idle() {
        return Ok(facts);
    }
    let kind = app.instance_kind(i);
    tell_guards(kind, call.from, call.step, &seen, &mut facts)?;
    Ok(facts)
}

/// On what the mode of an instance after the scan rests: on its states, on the modes where it has
/// just latched one, and else on the mode before.
pub(crate) fn mode_facts(
    alloc: Global,
    app: &App,
    i: u16,
    scene: &Scene<'_>,
) -> Result<Vec<Fact>, Memory>
    requires { IsSceneFor app.now scene.now }
    ensures { IfOk result (λ facts. facts.items ≡ mode_of app.now scene.entry.now i) }
{
    app.sound();
    let mut facts = Vec::new(alloc);
    if (i as usize) >= scene.calls.len() {
        return Ok(facts);
    }
    let call = &scene.calls[i as usize];
    facts.push(Fact::StateWas {
        instance: i,
        code: call.from,
    })?;
    facts.push(Fact::StateIs {
        instance: i,
        code: call.code,
    })?;
    if call.from == 0x8005 {
        let seen = call_conditions(app, i, call, scene);
        tell_modes(call.step, &seen, &mut facts)?;
        return Ok(facts);
    }
    facts.push(Fact::ModeWas {
        instance: i,
        mode: call.last.mode,
    })?;
    Ok(facts)
}
