// The limits of an application's instances.

ghost use Rattle.std.specs.Prelude.{◌≡◌, ℕ, List, ◌∷◌, IfOk, length, slice_index};
ghost use Rattle.ps_model.specs.Action.{Action};
ghost use Rattle.ps_model.specs.Budgets.{IsCall};
ghost use Rattle.ps_model.specs.Network.{instance_count};
ghost use Rattle.ps_model.specs.Steps.{action};
ghost use Rattle.ps_machine.specs.Standing.{limit_from, limit_in};
ghost use Rattle.ps_vote.specs.Whole.{limits_of};

use ps_base::Memory;
use ps_machine::call_limit;
use ps_model::{App, Step};
use std::alloc::Global;

// What a call says of the limit of its instance stands in the place of what later steps say.
fn note_limit(limits: &mut [u32], app: &App, step: &Step)
    requires call { IsCall app.now (action step.now) }
    requires all { length limits.old ≡ instance_count app.now }
    ensures { (i : ℕ) (rest : List Action) → slice_index limits.old i ≡ limit_from app.now i rest → slice_index limits.new i ≡ limit_from app.now i (action step.now ∷ rest) }
{
    if let Step::Call { instance, args } = step {
        limits[*instance as usize] = call_limit(app.instance_kind(*instance), args);
    }
}

// The limits of all instances, where each was 0: that of its call, and 0 where nothing calls it.
fn note_limits(limits: &mut [u32], app: &App)
    requires all { length limits.old ≡ instance_count app.now }
    requires zero { (i : ℕ) → slice_index limits.old i ≡ 0 }
    ensures { (i : ℕ) → slice_index limits.new i ≡ limit_in app.now i }
{
    app.sound();
    let mut k = app.step_count();
    while k > 0 {
        k -= 1;
        note_limit(limits, app, app.step(k));
    }
}

// The limit of each instance in ms, in order.
pub(crate) fn limits(alloc: Global, app: &App) -> Result<Vec<u32>, Memory>
    ensures { IfOk result (λ limits. limits.items ≡ limits_of app.now) }
{
    let mut limits = vec![in alloc; 0; app.instance_count() as usize]?;
    note_limits(limits.as_mut_slice(), app);
    Ok(limits)
}
