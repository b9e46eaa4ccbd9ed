// Traces that are run: the body that all commands share, and `run APP TRACE` and `fault APP TRACE FAULTS`.

ghost use Rattle.std.specs.Prelude.{◌≡◌, ◌≢◌, ◌≤◌, ℕ, List, Some, IsTrue, IfOk, IfErr, OnOk, ◌∷◌, []};
ghost use Rattle.ps_model.specs.Network.{input_count};
ghost use Rattle.ps_model.specs.Typing.{Accepted};
ghost use Rattle.ps_report.specs.Lines.{line_room};
ghost use Rattle.ps_runs.specs.Performing.{IsStruckWorldFor};
ghost use Rattle.ps_runs.specs.Running.{Fits, IsBeginning};
ghost use Rattle.ps_trace.specs.Reading.{IsReadingTrace, file_of, input_count_of, items_left, last_of};
ghost use Rattle.ps_world.specs.Whole.{IsWorldOf};
ghost use Rattle.ps_top.specs.Asking.{worked};
ghost use Rattle.ps_top.specs.Calls.{Answers, Causes, GoesOn, LeavesRefusal};
ghost use Rattle.ps_top.specs.Program as program;
ghost use Rattle.ps_top.specs.Running.{EndsItems, RunsTrace, status_behind};

use crate::Status;
use crate::accepting::accept_app;
use crate::call::Call;
use crate::left::Leaving;
use crate::saying::{fail, say_refused};
use ps_base::Memory;
use ps_model::App;
use ps_report::LineBuffer;
use ps_runs::{Cut, Performer, Runner, StruckWorld, Taker};
use ps_trace::{Faults, TraceReader};
use ps_world::World;
use ps_world::laws::runs_are_right;

// Does the items of a trace that are left, and says why where they are cut short.
fn run_items<C: Call, P: Performer, T: Taker<P>>(
    call: &mut C,
    app: &App,
    trace: &mut TraceReader,
    runner: &mut Runner<P, T>,
) -> Result<(), Status>
    requires fits { Fits (P.fits app.now) (T.fits app.now) app.now runner.old }
    requires due { P.earliest runner.old.performer ≤ last_of trace.old }
    requires inputs { input_count_of trace.old ≡ input_count app.now }
    ensures does { IsTrue (C.seen call.old).files.tells → (text : List ℕ) →
        (C.seen call.old).files.held (file_of trace.old) ≡ Some text → IsReadingTrace trace.old text →
        EndsItems (P.performs app.now) (T.said app.now) (T.takes app.now) (last_of trace.old)
        (items_left trace.old text)
        runner.old.performer runner.new.performer runner.old.taker runner.new.taker
        (C.seen call.old).out.tells (C.seen call.old).out.taken (C.seen call.new).out.taken result }
    ensures goes { OnOk result (GoesOn (C.seen call.old) (C.seen call.new)) }
    ensures causes { IfErr result (Causes (file_of trace.old ∷ []) (C.seen call.old) (C.seen call.new)) }
    ensures refuses { IfErr result (LeavesRefusal (C.seen call.new).left (C.seen call.new).out) }
    ensures worked { worked (C.seen call.new).left ≡ worked (C.seen call.old).left }
    ensures no_usage { IfErr result (λ status. status ≢ Status.Usage) }
{
    match call.do_items(app, trace, runner) {
        Ok(()) => Ok(()),
        Err(Cut::Refused(refusal)) => Err(say_refused(call, &refusal, Status::BadInput)),
        Err(Cut::Unread) => Err(Status::ReadFault),
        Err(Cut::Unwritten) => Err(Status::WriteFault),
    }
}

// Runs the trace of a name, from its header to its end. Where it stops before, it says why: the status of the call.
pub(crate) fn run_trace<C: Call, P: Performer, T: Taker<P>>(
    call: &mut C,
    app: &App,
    trace: &str,
    runner: &mut Runner<P, T>,
) -> Result<(), Status>
    requires fits { Fits (P.fits app.now) (T.fits app.now) app.now runner.old }
    requires first { P.earliest runner.old.performer ≡ 0 }
    ensures runs { IsTrue (C.seen call.old).files.tells → RunsTrace (P.performs app.now) (T.said app.now)
        (T.takes app.now) app.now trace.now
        runner.old.performer runner.new.performer runner.old.taker runner.new.taker (C.seen call.old)
        (C.seen call.new) result }
    ensures goes { OnOk result (GoesOn (C.seen call.old) (C.seen call.new)) }
    ensures causes { IfErr result (Causes (trace.now ∷ []) (C.seen call.old) (C.seen call.new)) }
    ensures refuses { IfErr result (LeavesRefusal (C.seen call.new).left (C.seen call.new).out) }
    ensures worked { worked (C.seen call.new).left ≡ worked (C.seen call.old).left }
    ensures no_usage { IfErr result (λ status. status ≢ Status.Usage) }
{
    match call.open_trace(trace, app) {
        Ok(mut reader) => run_items(call, app, &mut reader, runner),
        Err(why) => Err(fail(call, why, Status::BadInput)),
    }
}

// The status of a run that ran its trace to the end, where it has this one, or stopped before.
pub(crate) fn status_behind(ran: Result<(), Status>, whole: Status) -> Status
    ensures { result ≡ status_behind ran whole }
{
    match ran {
        Ok(()) => whole,
        Err(status) => status,
    }
}

// The status at the end of a trace that is whole.
fn status_at_end(tripped: bool) -> Status
    ensures { result ≡ program.status_if tripped }
{
    if tripped {
        Status::Tripped
    } else {
        Status::Done
    }
}

// What the scans of an application are done with in a world, before the first, each with its line. It takes all their
// memory.
fn line_runner<C: Call>(
    call: &C,
    app: &App,
    world: StruckWorld,
) -> Result<Runner<StruckWorld, LineBuffer>, Memory>
    requires { IsStruckWorldFor app.now world }
    ensures fits { IfOk result (Fits (IsStruckWorldFor app.now) (λ room. line_room app.now ≤ room) app.now) }
    ensures world { IfOk result (λ r. r.performer ≡ world) }
{
    let lines = LineBuffer::for_app(call.alloc(), app)?;
    Runner::for_app(call.alloc(), app, world, lines)
}

// Runs the trace of this name, where these faults strike, and leaves the world that the run ends with.
fn run_in_world<C: Call>(call: &mut C, app: &App, trace: &str, world: StruckWorld) -> Status
    requires accepted { Accepted app.now }
    requires first { IsBeginning app.now world }
    ensures answers { Answers (program.run_named app.now world.world.setup world.faults trace.now) (trace.now ∷ [])
        (C.seen call.old) (C.seen call.new) result }
    ensures no_usage { result ≢ Status.Usage }
{
    app.sound();
    runs_are_right(app);
    let mut runner = match line_runner(call, app, world) {
        Ok(runner) => runner,
        Err(Memory) => return Status::Memory,
    };
    let ran = run_trace(call, app, trace, &mut runner);
    let struck = runner.performer;
    let status = status_behind(ran, status_at_end(struck.tripped));
    call.leave(Leaving::World(struck.world, struck.trip));
    status
}

// Runs the trace of this name without faults.
fn run_quietly<C: Call>(call: &mut C, app: &App, trace: &str) -> Status
    requires { Accepted app.now }
    ensures answers { Answers (program.run_quietly trace.now app.now) (trace.now ∷ []) (C.seen call.old)
        (C.seen call.new) result }
    ensures no_usage { result ≢ Status.Usage }
{
    match World::build(call.alloc(), app) {
        Ok(world) => {
            let world = StruckWorld::new(world, Faults::new(call.alloc()));
            run_in_world(call, app, trace, world)
        }
        Err(Memory) => Status::Memory,
    }
}

// Runs the trace of this name in a world, where the faults of a file strike it.
fn run_faults<C: Call>(call: &mut C, app: &App, trace: &str, faults: &str, world: World) -> Status
    requires accepted { Accepted app.now }
    requires first { IsWorldOf app.now world }
    ensures answers { Answers (program.with_faults world.setup faults.now
        (λ list. program.run_named app.now world.setup list trace.now))
        (faults.now ∷ trace.now ∷ []) (C.seen call.old) (C.seen call.new) result }
    ensures no_usage { result ≢ Status.Usage }
{
    let sizes = world.sizes();
    match call.read_faults(faults, &sizes) {
        Ok(faults) => run_in_world(call, app, trace, StruckWorld::new(world, faults)),
        Err(why) => fail(call, why, Status::BadInput),
    }
}

// Runs the trace of this name, where the faults of a file strike.
fn run_struck<C: Call>(call: &mut C, app: &App, trace: &str, faults: &str) -> Status
    requires { Accepted app.now }
    ensures answers { Answers (program.run_struck trace.now faults.now app.now) (faults.now ∷ trace.now ∷ [])
        (C.seen call.old) (C.seen call.new) result }
    ensures no_usage { result ≢ Status.Usage }
{
    match World::build(call.alloc(), app) {
        Ok(world) => run_faults(call, app, trace, faults, world),
        Err(Memory) => Status::Memory,
    }
}

// `run APP TRACE`: the report lines of the scans of a trace, by what the application's networks mean.
pub(crate) fn run<C: Call>(call: &mut C, app: &str, trace: &str) -> Status
    ensures answers { Answers (program.run app.now trace.now) (app.now ∷ trace.now ∷ []) (C.seen call.old)
        (C.seen call.new) result }
    ensures no_usage { result ≢ Status.Usage }
{
    match accept_app(call, app) {
        Ok(app) => run_quietly(call, &app, trace),
        Err(status) => status,
    }
}

// `fault APP TRACE FAULTS`: the same lines up to a trip, where the faults of a file strike; from there, up to the next
// restart, lines with every output FALSE.
pub(crate) fn fault<C: Call>(call: &mut C, app: &str, trace: &str, faults: &str) -> Status
    ensures answers { Answers (program.fault app.now trace.now faults.now) (app.now ∷ faults.now ∷ trace.now ∷ [])
        (C.seen call.old) (C.seen call.new) result }
    ensures no_usage { result ≢ Status.Usage }
{
    match accept_app(call, app) {
        Ok(app) => run_struck(call, &app, trace, faults),
        Err(status) => status,
    }
}
