// A course that is recorded, step by step.

ghost use Rattle.std.specs.Prelude.{◌≡◌, ◌≤◌, ◌<◌, ◌^◌, ◌+◌, ◌++◌, ◌∷◌, [], IfOk, OnOk, length};
ghost use Rattle.ps_bench_campaign.specs.Courses.{IsRecorder, latest_in};
ghost use Rattle.ps_bench_trials.specs.Steps.{items_in};
ghost use Rattle.ps_model.specs.Meaning.Item.{scan as scan_item, restart as restart_item};
ghost use Rattle.ps_model.specs.Network.{input_count};
ghost use Rattle.ps_model.specs.Typing.{Accepted};

use ps_base::Memory;
use ps_bench_trials::Step;
use ps_model::{App, Report, Scan};
use ps_world::World;
use std::alloc::Global;

/// The scans and restarts of a trace, in order, each scan with the report that it has without a fault.
pub struct Course {
    /// The scans and restarts.
    pub steps: Vec<Step>,
    /// How many scans there are.
    pub scans: u32,
}

impl Drop for Course {
    // One call for whoever owns one, in place of a walk through all that it holds.
    fn drop(self) {
        let Course { steps: _, scans: _ } = self;
    }
}

// A course that is recorded, and the world that no fault strikes in which it runs.
pub(crate) struct Recorder {
    pub(crate) world: World,
    pub(crate) course: Course,
}

impl Drop for Recorder {
    // One call for whoever owns one, in place of a walk through all that it holds.
    fn drop(self) {
        let Recorder {
            world: _,
            course: _,
        } = self;
    }
}

impl Recorder {
    // No step was recorded.
    pub(crate) fn new(alloc: Global, app: &App) -> Result<Recorder, Memory>
        requires { Accepted app.now }
        ensures recorded { IfOk result (IsRecorder app.now) }
        ensures none { IfOk result (λ r. r.course.steps.items ≡ []) }
    {
        let world = World::build(alloc, app)?;
        Ok(Recorder {
            world,
            course: Course {
                steps: Vec::new(alloc),
                scans: 0,
            },
        })
    }

    // One more scan, which is made in the world.
    pub(crate) fn take_scan(&mut self, alloc: Global, app: &App, scan: Scan) -> Result<(), Memory>
        requires recorded { IsRecorder app.now self.old }
        requires due { latest_in 0 self.old.course.steps.items ≤ scan.now }
        requires inputs { length scan.ins ≡ input_count app.now }
        requires room { self.old.course.scans + 1 < 2 ^ 32 }
        ensures recorded { OnOk result (IsRecorder app.now self.new) }
        ensures items { OnOk result (items_in self.new.course.steps.items
            ≡ items_in self.old.course.steps.items ++ scan_item scan.now scan.ins ∷ []) }
        ensures latest { OnOk result (latest_in 0 self.new.course.steps.items ≡ scan.now) }
        ensures count { OnOk result (self.new.course.scans ≡ self.old.course.scans + 1) }
    {
        let mut meant = Report::for_app(alloc, app)?;
        let _released = self.world.make_scan(&scan, &[], &mut meant);
        self.course.steps.push(Step::Scanned(scan, meant))?;
        self.course.scans += 1;
        Ok(())
    }

    // One more restart.
    pub(crate) fn take_restart(&mut self, _app: &App) -> Result<(), Memory>
        requires { IsRecorder _app.now self.old }
        ensures recorded { OnOk result (IsRecorder _app.now self.new) }
        ensures items { OnOk result (items_in self.new.course.steps.items
            ≡ items_in self.old.course.steps.items ++ restart_item ∷ []) }
        ensures latest { OnOk result (latest_in 0 self.new.course.steps.items
            ≡ latest_in 0 self.old.course.steps.items) }
        ensures count { OnOk result (self.new.course.scans ≡ self.old.course.scans) }
    {
        self.world.restart();
        self.course.steps.push(Step::Anew)?;
        Ok(())
    }

    // What was recorded.
    pub(crate) fn finish(self) -> Course
        ensures { result ≡ self.course }
    {
        let Recorder { world, course } = self;
        let _ = world;
        course
    }
}
