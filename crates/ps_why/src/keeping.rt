// What is kept of the instances of an application between the scans of a run.

ghost use Rattle.std.specs.Prelude.{◌≡◌, ◌<◌, Some};
ghost use Rattle.ps_model.specs.Network.{instance_count, kind_at};
ghost use Rattle.ps_model.specs.Stored.{IsKept};
ghost use Rattle.ps_machine.specs.Calls.{call_step};
ghost use Rattle.ps_rows.specs.Counted.{kept_of};
ghost use Rattle.ps_why.specs.Keeping.{AllStep, AreKept, StepsSo, stepped_as};
ghost use Rattle.ps_why.specs.Scenes.{IsCallFor};

use crate::{CallScene, has_elapsed};
use ps_machine::{Signals, call_limit, call_step, read_pins};
use ps_model::{App, Step};
use ps_rows::CountedBlock;
use ps_ways::LastStep;

/// An instance after a scan: what is seen of it in the scan, and its block.
#[derive(Clone, Copy)]
pub struct Stepped {
    /// What is seen of it.
    pub call: CallScene,
    /// Its block after the scan.
    pub block: CountedBlock,
}

// What a step of a block shows.
fn shown_step(k: u16, block: CountedBlock, passed: u32, after: CountedBlock) -> Stepped
    ensures { result ≡ stepped_as k block passed after }
{
    Stepped {
        call: CallScene {
            step: k,
            from: block.code,
            last: LastStep {
                reset: block.last_reset,
                auxiliary: block.last_auxiliary,
                mode: block.mode,
            },
            elapsed: has_elapsed(block.remains, passed),
            code: after.code,
            mode: after.mode,
        },
        block: after,
    }
}

/// An instance after a scan with these signals, before which so many ms passed, where this was its block.
pub fn step_instance(
    app: &App,
    i: u16,
    block: CountedBlock,
    passed: u32,
    signals: &Signals<'_>,
) -> Stepped
    requires instance { i < instance_count app.now }
    requires kept { IsKept (kind_at app.now i) (kept_of block) }
    ensures step { call_step app.now i ≡ Some result.call.step }
    ensures call { IsCallFor app.now i result.call }
    ensures kept { IsKept (kind_at app.now i) (kept_of result.block) }
    ensures so { StepsSo app.now i block passed signals.entry.now result }
{
    app.sound();
    let k = call_step(app, i);
    match app.step(k) {
        Step::Call { args, .. } => {
            let kind = app.instance_kind(i);
            let bits = read_pins(app, k, kind, args, signals);
            let after = block.stepped(kind, bits, call_limit(kind, args), passed);
            shown_step(k, block, passed, after)
        }
        Step::Assign { .. } => shown_step(k, block, passed, block),
    }
}

/// Each instance after a scan with these signals, before which so many ms passed.
pub fn step_instances(app: &App, passed: u32, signals: &Signals<'_>, kept: &mut [Stepped])
    requires { AreKept app.now kept.old }
    ensures kept { AreKept app.now kept.new }
    ensures so { AllStep app.now passed signals.entry.now kept.old kept.new }
{
    app.sound();
    for i in 0..kept.len() {
        kept[i] = step_instance(app, i as u16, kept[i].block, passed, signals);
    }
}
