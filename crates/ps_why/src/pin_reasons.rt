// On what the value at a pin rests.

ghost use Rattle.std.specs.Prelude.{◌≡◌, IfOk, slice_get};
ghost use Rattle.ps_why.specs.Reasons.{arguments, wired_by};
ghost use Rattle.ps_why.specs.Scenes.{IsSceneFor};

use crate::Fact;
use crate::scene::Scene;
use crate::scene_reading::expression_facts;
use ps_base::Memory;
use ps_model::{App, Arg, Step};
use std::alloc::Global;

/// On what the value rests that a call reads at a pin.
pub(crate) fn pin_facts(
    alloc: Global,
    app: &App,
    k: u16,
    j: u8,
    scene: &Scene<'_>,
) -> Result<Vec<Fact>, Memory>
    requires { IsSceneFor app.now scene.now }
    ensures { IfOk result (λ facts. facts.items
        ≡ wired_by app.now scene.entry.now k (slice_get (arguments (slice_get app.now.steps k)) j)) }
{
    app.sound();
    if k >= app.step_count() {
        return Ok(Vec::new(alloc));
    }
    match app.step(k) {
        Step::Call { args, .. } => {
            if j as usize >= args.len() {
                return Ok(Vec::new(alloc));
            }
            match args.at(j as usize) {
                Arg::Value(e) => expression_facts(alloc, app, k, e, scene),
                Arg::Free | Arg::Lit(_) | Arg::Time(_) => Ok(Vec::new(alloc)),
            }
        }
        Step::Assign { .. } => Ok(Vec::new(alloc)),
    }
}
