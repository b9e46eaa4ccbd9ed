// Moments of the run of a course without a fault, of which trials begin at one and may end at another.

ghost use Rattle.std.specs.Prelude.{◌≡◌, ◌≤◌, ◌<◌, ◌^◌, ◌-◌, ◌∷◌, [], true, false, IfOk, OnOk, length, drop};
ghost use Rattle.std.specs.List.{All};
ghost use Rattle.ps_bench_campaign.specs.Courses.{AreStepsFor, IsCourse, latest_in};
ghost use Rattle.ps_bench_trials.specs.Steps.{items_in};
ghost use Rattle.ps_model.specs.Network.{input_count, instance_count};
ghost use Rattle.ps_model.specs.Typing.{Accepted};
ghost use Rattle.ps_machine.specs.Items.{AreTimely};
ghost use Rattle.ps_world.specs.Whole.{IsSetupOf, IsWorldOf, machines_in};
ghost use Rattle.ps_bench_campaign.specs.Marks.{AreMarks, GoQuietly, IsMark, IsMoment, IsShort, passed, scans_of};

use crate::recorder::Course;
use ps_base::Memory;
use ps_bench_trials::{Mark, Step};
use ps_model::laws::one_meaning;
use ps_model::{App, Report};
use ps_world::World;
use ps_world::laws::quiet_runs_release;
use std::alloc::Global;

// The marks of a course: one at its beginning, and at most 63 after it, the same number of steps apart.
pub(crate) struct Marks {
    // The beginning.
    pub(crate) first: Mark,
    // The others, in order.
    pub(crate) later: Vec<Mark>,
    // How many steps lie between two.
    pub(crate) every: usize,
}

impl Drop for Marks {
    // One call for whoever owns one, in place of a walk through all that it holds.
    fn drop(self) {
        let Marks {
            first: _,
            later: _,
            every: _,
        } = self;
    }
}

// A mark where a world stands after so many steps, of which so many are scans. It keeps a world of its own.
fn mark_at(
    alloc: Global,
    app: &App,
    world: &World,
    place: usize,
    scans: u64,
) -> Result<Mark, Memory>
    requires accepted { Accepted app.now }
    requires setup { IsSetupOf app.now world.now.setup }
    ensures { IfOk result (λ mark. mark ≡ record { place = place; scans = scans; world = world.now }) }
{
    let mut copy = World::build(alloc, app)?;
    copy.copy_from(world);
    Ok(Mark {
        place,
        scans,
        world: copy,
    })
}

// A time has 32 bits. It does nothing when it runs.
fn has_32_bits(_now: u32)
    ensures { _now < 2 ^ 32 }
{}

// The time of a scan has 32 bits. It does nothing when it runs.
fn is_short(step: &Step)
    ensures { IsShort step.now }
{
    match step {
        Step::Anew => {}
        Step::Scanned(scan, _) => has_32_bits(scan.now),
    }
}

// Each step is a restart, or a scan that a run can make. It does nothing else.
fn are_timely(_app: &App, steps: &[Step])
    requires { AreStepsFor _app.now 0 steps.now }
    ensures { AreTimely (input_count _app.now) 0 (items_in steps.now) }
{
    for step in steps {
        is_short(step);
    }
}

// A step of the run without a fault. The answer is how many scans it is.
fn pass(app: &App, world: &mut World, step: &Step, report: &mut Report) -> u64
    requires setup { IsSetupOf app.now world.old.setup }
    requires rest { world.old.state.begun ≡ false }
    requires fits { AreStepsFor app.now world.old.state.last (step.now ∷ []) }
    requires outputs { length report.old.outs ≡ length app.now.outputs }
    requires diagnoses { length report.old.diags ≡ instance_count app.now }
    ensures passes { world.new ≡ passed step.now world.old }
    ensures count { result ≡ scans_of step.now }
    ensures rest { world.new.state.begun ≡ false }
    ensures last { world.new.state.last ≤ latest_in world.old.state.last (step.now ∷ []) }
    ensures outputs { length report.new.outs ≡ length app.now.outputs }
    ensures diagnoses { length report.new.diags ≡ instance_count app.now }
{
    match step {
        Step::Anew => {
            world.restart();
            0
        }
        Step::Scanned(scan, _) => {
            let _released = world.make_scan(scan, &[], report);
            1
        }
    }
}

// Adds a mark to those after the beginning, where one is to stand after so many steps.
fn add_mark(
    alloc: Global,
    app: &App,
    steps: &[Step],
    later: &mut Vec<Mark>,
    every: usize,
    world: &World,
    place: usize,
    scans: u64,
) -> Result<(), Memory>
    requires accepted { Accepted app.now }
    requires later { All (IsMark app.now steps.now) later.old.items }
    requires apart { 0 < every }
    requires within { place ≤ length steps.now }
    requires few { scans ≤ place }
    requires moment { IsMoment app.now steps.now (drop place steps.now) scans world.now }
    ensures { OnOk result (All (IsMark app.now steps.now) later.new.items) }
{
    if place == 0 || place % every != 0 {
        return Ok(());
    }
    let mark = mark_at(alloc, app, world, place, scans)?;
    later.push(mark)?;
    Ok(())
}

// Runs the steps of a course without a fault in a world at the beginning, and marks moments of the run after it.
// `report` is room for work: what it has then is not said, nor where the world stands.
fn mark_later(
    alloc: Global,
    app: &App,
    steps: &[Step],
    every: usize,
    world: &mut World,
    report: &mut Report,
) -> Result<Vec<Mark>, Memory>
    requires accepted { Accepted app.now }
    requires apart { 0 < every }
    requires moment { IsMoment app.now steps.now steps.now 0 world.old }
    requires outputs { length report.old.outs ≡ length app.now.outputs }
    requires diagnoses { length report.old.diags ≡ instance_count app.now }
    ensures later { IfOk result (λ later. All (IsMark app.now steps.now) later.items) }
    ensures setup { IsSetupOf app.now world.new.setup }
    ensures outputs { length report.new.outs ≡ length app.now.outputs }
    ensures diagnoses { length report.new.diags ≡ instance_count app.now }
{
    let mut later = Vec::new(alloc);
    let mut scans = 0;
    for place in 0..steps.len() {
        add_mark(alloc, app, steps, &mut later, every, world, place, scans)?;
        let step = &steps[place];
        scans += pass(app, world, step, report);
    }
    Ok(later)
}

// The marks of a course, which a world at the beginning runs without a fault. What the world and `report`, room for work,
// have then is not said. It takes memory for at most 64 worlds, one for each mark.
pub(crate) fn mark_course(
    alloc: Global,
    app: &App,
    course: &Course,
    world: &mut World,
    report: &mut Report,
) -> Result<Marks, Memory>
    requires accepted { Accepted app.now }
    requires course { IsCourse app.now course.now }
    requires world { IsWorldOf app.now world.old }
    requires outputs { length report.old.outs ≡ length app.now.outputs }
    requires diagnoses { length report.old.diags ≡ instance_count app.now }
    ensures marks { IfOk result (AreMarks app.now course.now.steps.items) }
    ensures setup { IsSetupOf app.now world.new.setup }
    ensures outputs { length report.new.outs ≡ length app.now.outputs }
    ensures diagnoses { length report.new.diags ≡ instance_count app.now }
{
    let steps = course.steps.as_slice();
    are_timely(app, steps);
    one_meaning(app);
    quiet_runs_release(app);
    let every = steps.len() / 64 + 1;
    let first = mark_at(alloc, app, world, 0, 0)?;
    let later = mark_later(alloc, app, steps, every, world, report)?;
    Ok(Marks {
        first,
        later,
        every,
    })
}

// The last mark at which neither the scan of this number nor one after it is done.
pub(crate) fn start_of<'a>(_app: &App, _steps: &[Step], marks: &'a Marks, scan: u32) -> &'a Mark
    requires { AreMarks _app.now _steps.now marks.now }
    ensures mark { IsMark _app.now _steps.now result.now }
    ensures before { result.now.scans ≤ scan - 1 }
{
    let before = u64::from(scan.saturating_sub(1));
    let mut start = &marks.first;
    for mark in &marks.later {
        if mark.scans <= before {
            start = mark;
        }
    }
    start
}

// Whether a run is over after so many steps and scans: its fault has struck, in the scan of this number, and the world
// is at a mark what it is there without the fault. Then what is left is what it is without the fault.
pub(crate) fn is_over(
    _app: &App,
    _steps: &[Step],
    marks: &Marks,
    place: usize,
    scans: u64,
    strikes: u32,
    world: &World,
) -> bool
    requires marks { AreMarks _app.now _steps.now marks.now }
    requires setup { IsSetupOf _app.now world.now.setup }
    ensures struck { result ≡ true → strikes ≤ scans }
    ensures quiet { result ≡ true → GoQuietly (machines_in world.now.setup) (length _app.now.outputs)
        (instance_count _app.now) (drop place _steps.now) world.now.state }
{
    let later = marks.later.as_slice();
    let number = place / marks.every;
    if scans < u64::from(strikes) || number == 0 || number > later.len() {
        return false;
    }
    later[number - 1].is_at(place, world)
}
