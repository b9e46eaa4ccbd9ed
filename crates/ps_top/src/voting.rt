// `vote APP TRACE FAULTS` and `heal APP TRACE FAULTS`.

ghost use Rattle.std.specs.Prelude.{◌≡◌, ◌≢◌, ◌≤◌, IfOk, ◌∷◌, []};
ghost use Rattle.ps_model.specs.Typing.{Accepted};
ghost use Rattle.ps_report.specs.Lines.{line_room};
ghost use Rattle.ps_runs.specs.Running.{Fits};
ghost use Rattle.ps_runs.specs.Seats.{AreAtBeginning, AreStruckSeatsFor};
ghost use Rattle.ps_vote.specs.Whole.{IsWorldOf};
ghost use Rattle.ps_top.specs.Calls.{Answers};
ghost use Rattle.ps_top.specs.Program as program;

use crate::Status;
use crate::accepting::accept_app;
use crate::call::Call;
use crate::left::Leaving;
use crate::running::{run_trace, status_behind};
use crate::saying::fail;
use ps_base::Memory;
use ps_model::App;
use ps_report::LineBuffer;
use ps_runs::{Runner, StruckSeats};
use ps_vote::VoteWorld;
use ps_vote::laws::{heal_runs_are_right, vote_runs_are_right};

// What the scans of an application are done with in three seats, before the first, each with its lines. It takes all
// their memory.
fn line_runner<C: Call>(
    call: &C,
    app: &App,
    seats: StruckSeats,
) -> Result<Runner<StruckSeats, LineBuffer>, Memory>
    requires { AreStruckSeatsFor app.now seats }
    ensures fits { IfOk result (Fits (AreStruckSeatsFor app.now) (λ room. line_room app.now ≤ room) app.now) }
    ensures seats { IfOk result (λ r. r.performer ≡ seats) }
{
    let lines = LineBuffer::for_app(call.alloc(), app)?;
    Runner::for_app(call.alloc(), app, seats, lines)
}

// Runs the trace of this name in three seats, where these faults strike, and leaves the world that the run ends with.
fn run_in_seats<C: Call>(call: &mut C, app: &App, trace: &str, seats: StruckSeats) -> Status
    requires accepted { Accepted app.now }
    requires first { AreAtBeginning app.now seats }
    ensures answers { Answers (program.vote_named seats.heals app.now seats.world.setup seats.faults trace.now)
        (trace.now ∷ [])
        (C.seen call.old) (C.seen call.new) result }
    ensures no_usage { result ≢ Status.Usage }
{
    app.sound();
    vote_runs_are_right(app);
    heal_runs_are_right(app);
    let mut runner = match line_runner(call, app, seats) {
        Ok(runner) => runner,
        Err(Memory) => return Status::Memory,
    };
    let ran = run_trace(call, app, trace, &mut runner);
    let struck = runner.performer;
    call.leave(Leaving::Votes(struck.world, struck.again));
    status_behind(ran, Status::Done)
}

// Runs the trace of this name in a world of three seats, where the faults of a file strike it.
fn run_faults<C: Call>(
    call: &mut C,
    app: &App,
    trace: &str,
    faults: &str,
    heals: bool,
    world: VoteWorld,
) -> Status
    requires accepted { Accepted app.now }
    requires first { IsWorldOf app.now world }
    ensures answers { Answers (program.with_seat_faults heals world.setup faults.now
        (λ list. program.vote_named heals app.now world.setup list trace.now))
        (faults.now ∷ trace.now ∷ []) (C.seen call.old) (C.seen call.new) result }
    ensures no_usage { result ≢ Status.Usage }
{
    let sizes = world.sizes();
    match call.read_seat_faults(faults, &sizes, heals) {
        Ok(faults) => run_in_seats(call, app, trace, StruckSeats::new(world, faults, heals)),
        Err(why) => fail(call, why, Status::BadInput),
    }
}

// Runs the trace of this name in three seats, where the faults of a file strike.
fn run_struck<C: Call>(call: &mut C, app: &App, trace: &str, faults: &str, heals: bool) -> Status
    requires { Accepted app.now }
    ensures answers { Answers (program.vote_struck heals trace.now faults.now app.now) (faults.now ∷ trace.now ∷ [])
        (C.seen call.old) (C.seen call.new) result }
    ensures no_usage { result ≢ Status.Usage }
{
    match VoteWorld::build(call.alloc(), app) {
        Ok(world) => run_faults(call, app, trace, faults, heals, world),
        Err(Memory) => Status::Memory,
    }
}

// `vote APP TRACE FAULTS`: the report lines of the scans of a trace in three seats, of which the faults of a file
// strike one, with a line after each whose vote outvotes a seat. `heal APP TRACE FAULTS`: the same lines, where a seat
// that is outvoted is rebuilt from another, and faults may strike one seat after another; a fault that is reached
// before the seat that was struck last is healed ends the run.
pub(crate) fn vote<C: Call>(
    call: &mut C,
    app: &str,
    trace: &str,
    faults: &str,
    heals: bool,
) -> Status
    ensures answers { Answers (program.voted heals app.now trace.now faults.now) (app.now ∷ faults.now ∷ trace.now ∷ [])
        (C.seen call.old) (C.seen call.new) result }
    ensures no_usage { result ≢ Status.Usage }
{
    match accept_app(call, app) {
        Ok(app) => run_struck(call, &app, trace, faults, heals),
        Err(status) => status,
    }
}
