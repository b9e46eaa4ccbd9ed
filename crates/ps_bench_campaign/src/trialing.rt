// The run of a trial.

ghost use Rattle.std.specs.Prelude.{◌≡◌, ◌≤◌, ◌+◌, ◌*◌, ◌^◌, ◌-◌, ◌∷◌, [], length, nat_eq};
ghost use Rattle.ps_model.specs.Network.{instance_count};
ghost use Rattle.ps_world.specs.Orders.{of_scan};
ghost use Rattle.ps_world.specs.Whole.{IsSetupOf, machines_in};
ghost use Rattle.ps_world.specs.Worlds.{world_0};
ghost use Rattle.ps_bench_campaign.specs.Marks.{AreMarks, shown_from};

use crate::marks::{Marks, is_over, start_of};
use ps_bench_trials::{Outcome, Step, ended_by};
use ps_model::{App, Fault, Report};
use ps_world::World;
use std::slice::from_ref;

// The faults that strike the scan of this number: the one, or none.
fn due(fault: &Fault, number: u64) -> &[Fault]
    ensures { result.now ≡ of_scan number (fault.now ∷ []) }
{
    if u64::from(fault.scan) == number {
        from_ref(fault)
    } else {
        &[]
    }
}

// A report has few fields.
fn few_fields(app: &App)
    ensures { length app.now.outputs + 3 * instance_count app.now ≤ 2 ^ 16 }
{
    app.sound();
}

// Runs the steps of a course where one fault strikes, up to the first scan that trips or is released with another report
// than without the fault. It begins at the last mark before the struck scan, and ends at the first mark after it where
// the world is what it is without the fault: neither changes what it comes to. `report` and the world are room for work:
// what they have then is not said. It takes no memory.
pub(crate) fn run_trial(
    app: &App,
    world: &mut World,
    steps: &[Step],
    marks: &Marks,
    fault: &Fault,
    struck: u32,
    report: &mut Report,
) -> Outcome
    requires setup { IsSetupOf app.now world.old.setup }
    requires marks { AreMarks app.now steps.now marks.now }
    requires outputs { length report.old.outs ≡ length app.now.outputs }
    requires diagnoses { length report.old.diags ≡ instance_count app.now }
    ensures shows { result ≡ shown_from (machines_in world.old.setup) (length app.now.outputs) (instance_count app.now)
        (fault.now ∷ []) struck 0 steps.now (world_0 (machines_in world.old.setup)) }
    ensures setup { IsSetupOf app.now world.new.setup }
    ensures outputs { length report.new.outs ≡ length app.now.outputs }
    ensures diagnoses { length report.new.diags ≡ instance_count app.now }
{
    few_fields(app);
    let start = start_of(app, steps, marks, fault.scan);
    world.copy_from(&start.world);
    let mut number = start.scans;
    for place in start.place..steps.len() {
        if is_over(app, steps, marks, place, number, fault.scan, world) {
            return Outcome::Silent;
        }
        let step = &steps[place];
        match step {
            Step::Anew => world.restart(),
            Step::Scanned(scan, meant) => {
                number += 1;
                let verdict = world.make_scan(scan, due(fault, number), report);
                let differs = report.first_difference(meant);
                if let Some(outcome) = ended_by(verdict, struck, scan.now, differs) {
                    return outcome;
                }
            }
        }
    }
    Outcome::Silent
}
