// `load N`: the scans of a generated trace, which are counted and not written.

ghost use Rattle.std.specs.Prelude.{◌≡◌, ◌≢◌, ◌≤◌, [], Some, codes};
ghost use Rattle.ps_load.specs.Holding.{held_of};
ghost use Rattle.ps_load.specs.Texts.{app_text, trace_text};
ghost use Rattle.ps_model.specs.Network.{input_count};
ghost use Rattle.ps_model.specs.Typing.{Accepted as IsAccepted};
ghost use Rattle.ps_runs.specs.Counting.{none_counted};
ghost use Rattle.ps_runs.specs.Performing.{IsStruckWorldFor};
ghost use Rattle.ps_runs.specs.Running.{Fits, IsBeginning};
ghost use Rattle.ps_accepted.specs.Answering.{IsAcceptance};
ghost use Rattle.ps_trace.specs.Reading.{IsReadingTrace, file_of, input_count_of, items_left};
ghost use Rattle.ps_trace.specs.Scans.{scans_of};
ghost use Rattle.ps_world.specs.Whole.{IsWorldOf};
ghost use Rattle.ps_top.specs.Asking.{worked};
ghost use Rattle.ps_top.specs.Calls.{Answers, LeavesRefusal, SaysAnswer, with_left};
ghost use Rattle.ps_top.specs.Meets.{IsCut};
ghost use Rattle.ps_top.specs.Program as program;
ghost use Rattle.ps_top.specs.Program.{with_world};
ghost use Rattle.ps_top.specs.Resting.{EndsWith, load_answer};
ghost use Rattle.ps_top.specs.declared.left.Left.{Left as LeftBehind};

use crate::Status;
use crate::call::Call;
use crate::left::Leaving;
use crate::saying::{say, say_none, say_refused};
use ps_accepted::{Accepted, accept_text};
use ps_base::limits::LARGEST_SOURCE;
use ps_base::{Fail, Memory};
use ps_load::LoadFiles;
use ps_model::App;
use ps_outside::{ReadFail, TextFail, read_upto};
use ps_runs::{Counter, Cut, Runner, StruckWorld};
use ps_trace::{Faults, TraceReader};
use ps_world::World;
use ps_world::laws::quiet_runs_release;
use std::alloc::Global;

// The names under which the texts of a load are held.
const APP: &str = "app";

const TRACE: &str = "trace";

// Counts the scans of a load's trace that are left, and says the summary.
fn sum_scans<C: Call>(
    call: &mut C,
    files: &mut LoadFiles,
    app: &App,
    number: u32,
    trace: &mut TraceReader,
    runner: &mut Runner<StruckWorld, Counter>,
) -> Status
    requires fits { Fits (IsStruckWorldFor app.now) (λ _. Unit {0}) app.now runner.old }
    requires first { IsBeginning app.now runner.old.performer }
    requires none { runner.old.taker ≡ none_counted }
    requires inputs { input_count_of trace.old ≡ input_count app.now }
    requires file { file_of trace.old ≡ codes "trace" }
    requires held { held_of files.old (codes "trace") ≡ Some (trace_text number) }
    requires reading { IsReadingTrace trace.old (trace_text number) }
    ensures says { SaysAnswer (load_answer number app.now runner.old.performer.faults runner.old.performer.world
        (items_left trace.old (trace_text number))) (C.seen call.old) (C.seen call.new) result }
    ensures refuses { LeavesRefusal (C.seen call.new).left (C.seen call.new).out result }
    ensures worked { worked (C.seen call.new).left ≡ worked (C.seen call.old).left }
    ensures ends { ¬ IsCut result → EndsWith (items_left trace.old (trace_text number)).items runner.old.performer
        runner.new.performer }
    ensures no_usage { result ≢ Status.Usage }
{
    match call.do_items_of(files, app, trace, runner) {
        Ok(()) => say(call, runner.taker.summary(number).as_slice(), Status::Done),
        Err(Cut::Refused(refusal)) => say_refused(call, &refusal, Status::BadInput),
        // Reading the trace of a load never fails.
        Err(Cut::Unread) => unreachable!(),
        Err(Cut::Unwritten) => Status::WriteFault,
    }
}

// Counts the scans of a load's trace, from its header on, in a world that nothing strikes.
fn read_sums<C: Call>(
    call: &mut C,
    files: &mut LoadFiles,
    app: &App,
    number: u32,
    runner: &mut Runner<StruckWorld, Counter>,
) -> Status
    requires accepted { IsAccepted app.now }
    requires fits { Fits (IsStruckWorldFor app.now) (λ _. Unit {0}) app.now runner.old }
    requires first { IsBeginning app.now runner.old.performer }
    requires quiet { runner.old.performer.faults ≡ [] }
    requires none { runner.old.taker ≡ none_counted }
    requires held { held_of files.old (codes "trace") ≡ Some (trace_text number) }
    requires last { number ≤ 1000 }
    ensures answers { (behind : LeftBehind) → worked behind ≡ with_world runner.new.performer.world
        runner.new.performer.trip (worked (C.seen call.new).left) →
        behind.refusal ≡ (C.seen call.new).left.refusal →
        Answers (program.sum_scans number app.now runner.old.performer.world.setup (scans_of
        (trace_text number) app.now)) []
        (C.seen call.old) (with_left behind (C.seen call.new)) result }
    ensures no_usage { result ≢ Status.Usage }
{
    app.sound();
    quiet_runs_release(app);
    match TraceReader::start(call.alloc(), files, TRACE, app) {
        Ok(mut reader) => sum_scans(call, files, app, number, &mut reader, runner),
        Err(TextFail::Refused(refusal)) => say_refused(call, &refusal, Status::BadInput),
        Err(TextFail::Memory) => Status::Memory,
        // Reading the trace of a load never fails.
        Err(TextFail::Fault) => unreachable!(),
    }
}

// Runs the trace of a load in this world, and leaves it as the run ends with it.
fn sum_in_world<C: Call>(
    call: &mut C,
    files: &mut LoadFiles,
    app: &App,
    number: u32,
    world: World,
) -> Status
    requires accepted { IsAccepted app.now }
    requires first { IsWorldOf app.now world }
    requires held { held_of files.old (codes "trace") ≡ Some (trace_text number) }
    requires last { number ≤ 1000 }
    ensures answers { Answers (program.sum_scans number app.now world.setup (scans_of (trace_text number) app.now)) []
        (C.seen call.old) (C.seen call.new) result }
    ensures no_usage { result ≢ Status.Usage }
{
    let world = StruckWorld::new(world, Faults::new(call.alloc()));
    let mut runner = match Runner::for_app(call.alloc(), app, world, Counter::new()) {
        Ok(runner) => runner,
        Err(Memory) => return Status::Memory,
    };
    let status = read_sums(call, files, app, number, &mut runner);
    let struck = runner.performer;
    call.leave(Leaving::World(struck.world, struck.trip));
    status
}

// Runs the trace of a load without faults.
fn sum_trace<C: Call>(call: &mut C, files: &mut LoadFiles, app: &App, number: u32) -> Status
    requires accepted { IsAccepted app.now }
    requires held { held_of files.old (codes "trace") ≡ Some (trace_text number) }
    requires last { number ≤ 1000 }
    ensures answers { Answers (program.sum_trace number app.now) [] (C.seen call.old) (C.seen call.new) result }
    ensures no_usage { result ≢ Status.Usage }
{
    match World::build(call.alloc(), app) {
        Ok(world) => sum_in_world(call, files, app, number, world),
        Err(Memory) => Status::Memory,
    }
}

// The accepted application of a load, where memory is there for it.
fn accept_load(alloc: Global, files: &mut LoadFiles) -> Result<Accepted, Fail>
    requires held { held_of files.old (codes "app") ≡ Some app_text }
    ensures accepts { IsAcceptance app_text result }
    ensures held { held_of files.new ≡ held_of files.old }
{
    match read_upto(alloc, files, APP, LARGEST_SOURCE + 1) {
        Ok(bytes) => accept_text(alloc, bytes.as_slice()),
        Err(ReadFail::Memory) => Err(Fail::Memory),
        // Reading the application of a load never fails.
        Err(ReadFail::Fault) => unreachable!(),
    }
}

// `load N`, with N from 1 to 1000: the run of a generated application over a generated trace of 1000 N scans, as `run`
// does it, of which one line has the counts.
pub(crate) fn load<C: Call>(call: &mut C, number: u32) -> Status
    requires first { 1 ≤ number }
    requires last { number ≤ 1000 }
    ensures answers { Answers (program.load number) [] (C.seen call.old) (C.seen call.new) result }
    ensures no_usage { result ≢ Status.Usage }
{
    let mut files = LoadFiles::new(number);
    match accept_load(call.alloc(), &mut files) {
        Ok(accepted) => {
            let (app, checked) = accepted.into_parts();
            call.leave(Leaving::Checked(checked));
            sum_trace(call, &mut files, &app, number)
        }
        Err(why) => say_none(call, why),
    }
}
