// Which step makes a fact.

ghost use Rattle.std.specs.Prelude.{Bool, ℕ};
ghost use Rattle.ps_why.specs.Drivers.{IsStepOf};
ghost use Rattle.ps_why.specs.declared.fact.Fact.TheVariants.{SignalIs, StateIs};

use crate::signals::driver_of;
use crate::{Fact, step_of_driver};
use ps_machine::call_step;
use ps_model::App;

// The step that drives a signal, if one does.
fn driving_step(app: &App, s: u16) -> Option<u16>
    ensures { (b : Bool) → IsStepOf app.now (SignalIs s b) result }
{
    match driver_of(app, s) {
        None => None,
        Some(driver) => Some(step_of_driver(driver)),
    }
}

// The step that calls an instance, if one does.
fn calling_step(app: &App, i: u16) -> Option<u16>
    ensures { (q : ℕ) → IsStepOf app.now (StateIs i q) result }
{
    app.sound();
    if i < app.instance_count() {
        Some(call_step(app, i))
    } else {
        None
    }
}

/// The number of the step that makes a fact of a scan: of the value of a signal the one that assigns it, or calls the
/// instance whose output it is; of a state and of a mode the one that calls the instance. None: no step makes it, as of
/// an input, of what was before the scan, and of what a call reads.
pub fn step_of(app: &App, fact: Fact) -> Option<u16>
    ensures { IsStepOf app.now fact result }
{
    match fact {
        Fact::SignalIs { signal, .. } => driving_step(app, signal),
        Fact::StateIs { instance, .. } => calling_step(app, instance),
        Fact::ModeIs { instance, .. } => calling_step(app, instance),
        Fact::SignalWas { .. }
        | Fact::PinIs { .. }
        | Fact::AskIs { .. }
        | Fact::StateWas { .. }
        | Fact::ResetWas { .. }
        | Fact::AuxiliaryWas { .. }
        | Fact::ModeWas { .. } => None,
    }
}
