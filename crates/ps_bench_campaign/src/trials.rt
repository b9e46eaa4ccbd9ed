// The trials of a campaign, one after another.

ghost use Rattle.std.specs.Prelude.{◌≡◌, IfOk};
ghost use Rattle.ps_bench_campaign.specs.Courses.{IsCourse};
ghost use Rattle.ps_bench_trials.specs.Steps.{items_in};
ghost use Rattle.ps_eqvm.specs.Code.{code_b};
ghost use Rattle.ps_model.specs.Typing.{Accepted};
ghost use Rattle.ps_stackvm.specs.Code.{code_a};
ghost use Rattle.ps_bench_trials.specs.Faults.{fault_by};
ghost use Rattle.ps_world.specs.Whole.{Setup, IsSetupOf, machines_in};
ghost use Rattle.ps_bench_campaign.specs.Bench.{IsBench};
ghost use Rattle.ps_bench_campaign.specs.Campaigns.{campaign, room_of};
ghost use Rattle.ps_bench_campaign.specs.Showing.{outcome_of};

use crate::marks::{Marks, mark_course};
use crate::recorder::Course;
use crate::trialing::run_trial;
use ps_base::Memory;
use ps_bench_trials::{Outcome, Room, Tally, Trial, draw_trial, fault_of, struck_at};
use ps_eqgen::equation_image;
use ps_machine::CodeImage;
use ps_model::{App, Channel, ImageSizes, Report};
use ps_stackgen::stack_image;
use ps_world::World;
use std::alloc::Global;

/// What a campaign is made of: which trials, and where they strike.
#[derive(Clone, Copy)]
pub struct Campaign {
    /// The number of the first trial.
    pub from: u32,
    /// How many there are.
    pub count: u32,
    /// The channel that every trial strikes, if it is not drawn.
    pub channel: Option<Channel>,
}

/// The codes of both channels as compiled.
pub struct Codes {
    /// Of channel A.
    pub a: CodeImage,
    /// Of channel B.
    pub b: CodeImage,
}

impl Drop for Codes {
    // One call for whoever owns one, in place of a walk through all that it holds.
    fn drop(self) {
        let Codes { a: _, b: _ } = self;
    }
}

/// The codes of both channels of an application.
pub fn codes_of(alloc: Global, app: &App) -> Result<Codes, Memory>
    requires { Accepted app.now }
    ensures a { IfOk result (λ codes. codes.a ≡ code_a app.now) }
    ensures b { IfOk result (λ codes. codes.b ≡ code_b app.now) }
{
    let a = stack_image(alloc, app)?;
    let b = equation_image(alloc, app)?;
    Ok(Codes { a, b })
}

/// What the trials of an application may strike in a course.
pub fn room_of(app: &App, sizes: ImageSizes, scans: u32, channel: Option<Channel>) -> Room
    ensures { result ≡ room_of app.now sizes scans channel }
{
    Room {
        sizes,
        scans,
        budget: app.turns_a().max(app.turns_b()),
        channel,
    }
}

// What the trials of a campaign run on: the codes as compiled, the marks of the course, and room for work.
pub(crate) struct Bench {
    pub(crate) codes: Codes,
    pub(crate) marks: Marks,
    pub(crate) world: World,
    pub(crate) report: Report,
}

impl Drop for Bench {
    // One call for whoever owns one, in place of a walk through all that it holds.
    fn drop(self) {
        let Bench {
            codes: _,
            marks: _,
            world: _,
            report: _,
        } = self;
    }
}

// What the trials over a course run on.
fn bench_for(alloc: Global, app: &App, course: &Course) -> Result<Bench, Memory>
    requires accepted { Accepted app.now }
    requires course { IsCourse app.now course.now }
    ensures { IfOk result (IsBench app.now course.now.steps.items) }
{
    let codes = codes_of(alloc, app)?;
    let mut world = World::build(alloc, app)?;
    let mut report = Report::for_app(alloc, app)?;
    let marks = mark_course(alloc, app, course, &mut world, &mut report)?;
    Ok(Bench {
        codes,
        marks,
        world,
        report,
    })
}

// What a trial comes to.
fn try_trial(
    alloc: Global,
    app: &App,
    course: &Course,
    trial: &Trial,
    bench: &mut Bench,
) -> Result<Outcome, Memory>
    requires course { IsCourse app.now course.now }
    requires bench { IsBench app.now course.now.steps.items bench.old }
    ensures outcome { (setup : Setup) → IsSetupOf app.now setup → IfOk result (λ outcome.
        outcome ≡ outcome_of app.now (machines_in setup) (items_in course.now.steps.items)
        (fault_by (code_a app.now) (code_b app.now) trial.now)) }
    ensures bench { IsBench app.now course.now.steps.items bench.new }
{
    let fault = fault_of(
        alloc,
        trial,
        bench.codes.a.as_slice(),
        bench.codes.b.as_slice(),
    )?;
    let steps = course.steps.as_slice();
    let struck = struck_at(steps, trial);
    Ok(run_trial(
        app,
        &mut bench.world,
        steps,
        &bench.marks,
        &fault,
        struck,
        &mut bench.report,
    ))
}

// Makes the trials of a campaign, and counts what they come to.
fn count_trials(
    alloc: Global,
    app: &App,
    course: &Course,
    asked: &Campaign,
    room: &Room,
    bench: &mut Bench,
) -> Result<Tally, Memory>
    requires course { IsCourse app.now course.now }
    requires bench { IsBench app.now course.now.steps.items bench.old }
    ensures { (setup : Setup) → IsSetupOf app.now setup → IfOk result (λ tally.
        tally ≡ campaign app.now (machines_in setup) (items_in course.now.steps.items) room.now asked.now.from
        asked.now.count) }
{
    let mut tally = Tally::new(alloc)?;
    for done in 0..asked.count {
        let trial = draw_trial(u64::from(asked.from) + u64::from(done), room);
        let outcome = try_trial(alloc, app, course, &trial, bench)?;
        tally.count(trial.channel, trial.region, outcome);
    }
    Ok(tally)
}

/// Makes the trials of a campaign over a course, and counts what they come to. The regions of the channels have these
/// sizes. It takes memory for at most 65 worlds: one in which the trials run, and those of the run without a fault at
/// marks that divide the course into at most 64 parts; a trial begins at one of these, and may end at another. `Err`
/// comes only if memory runs out.
pub fn run_campaign(
    alloc: Global,
    app: &App,
    sizes: ImageSizes,
    course: &Course,
    asked: &Campaign,
) -> Result<Tally, Memory>
    requires accepted { Accepted app.now }
    requires course { IsCourse app.now course.now }
    ensures counts { (setup : Setup) → IsSetupOf app.now setup → IfOk result (λ tally.
        tally ≡ campaign app.now (machines_in setup) (items_in course.now.steps.items)
        (room_of app.now sizes course.now.scans asked.now.channel) asked.now.from asked.now.count) }
{
    let room = room_of(app, sizes, course.scans, asked.channel);
    let mut bench = bench_for(alloc, app, course)?;
    count_trials(alloc, app, course, asked, &room, &mut bench)
}
