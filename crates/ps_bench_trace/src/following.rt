// The trace that a word means, followed to its end where nothing is written.

ghost use Rattle.std.specs.Prelude.{◌≡◌, ◌∷◌, [], IsTrue, IfErr};
ghost use Rattle.ps_bench_frame.specs.Ending.{IsOfRun};
ghost use Rattle.ps_bench_frame.specs.Following.{FollowsTrace};
ghost use Rattle.ps_bench_frame.specs.Leaving.{OnlyReads};
ghost use Rattle.ps_bench_frame.specs.Meant.{file_meant};
ghost use Rattle.ps_runs.specs.Running.{Fits};
ghost use Rattle.ps_bench_trace.specs.Playing.{trace_held};

use crate::expansion::Expansion;
use ps_bench_frame::{Call, Stop, follow, word_of};
use ps_model::App;
use ps_runs::{Performer, Runner, Taker};

/// Does all items of the trace of these cases, or else of the file that a word names, for a taker that keeps what comes
/// of them. Nothing is written.
pub fn follow_play<C: Call, P: Performer, T: Taker<P>>(
    call: &mut C,
    app: &App,
    word: &str,
    cases: Option<Expansion>,
    runner: &mut Runner<P, T>,
) -> Result<(), Stop>
    requires fits { Fits (P.fits app.now) (T.fits app.now) app.now runner.old }
    requires first { P.earliest runner.old.performer ≡ 0 }
    ensures follows { IsTrue (C.seen call.old).files.tells →
        FollowsTrace (P.performs app.now) (T.said app.now) (T.takes app.now) app.now
        (trace_held cases ((C.seen call.old).files.held (file_meant word.now)))
        runner.old.performer runner.new.performer runner.old.taker runner.new.taker result }
    ensures of_run { IfErr result IsOfRun }
    ensures reads { OnlyReads (file_meant word.now ∷ []) (C.seen call.old) (C.seen call.new) result }
{
    let word = word_of(word);
    match cases {
        Some(mut cases) => follow(call.alloc(), &mut cases, word.file, app, runner),
        None => call.follow(word.file, app, runner),
    }
}
