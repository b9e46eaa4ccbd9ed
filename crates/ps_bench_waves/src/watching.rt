// The loop over the scans of a trace that are watched.

ghost use Rattle.std.specs.Prelude.{◌≡◌, ◌≤◌, ℕ, List, IsTrue, Some};
ghost use Rattle.ps_bench_names.specs.declared.name.Name.{Name};
ghost use Rattle.ps_model.specs.Network.{input_count};
ghost use Rattle.ps_runs.specs.Cutting.{TellsFailures};
ghost use Rattle.ps_runs.specs.Performing.{IsStruckWorldFor};
ghost use Rattle.ps_runs.specs.Running.{Fits};
ghost use Rattle.ps_runs.specs.Watching.{IsWatchedFor};
ghost use Rattle.ps_trace.specs.Reading.{IsReadingTrace, file_of, input_count_of, items_left, last_of};
ghost use Rattle.ps_bench_waves.specs.Watched.{IsBegun, WritesWatched};
ghost use Rattle.ps_bench_waves.specs.Watcher.{IsWatcherFor};
ghost use Rattle.ps_bench_waves.specs.declared.format.Format.{Format};

use crate::watcher::Watcher;
use ps_model::App;
use ps_outside::{Files, Sink};
use ps_runs::{Cut, Runner, StruckWorld, Watched, do_items};
use ps_trace::TraceReader;

/// Does the items of a trace that are left, and writes what is watched of them. It takes no memory, and what it keeps
/// does not grow with the scans.
///
/// `Refused` comes where a line of the trace is refused, `Unread` where a read of the trace's file failed, and
/// `Unwritten` where a write failed.
pub fn watch_items<F: Files, S: Sink>(
    app: &App,
    trace: &mut TraceReader,
    runner: &mut Runner<Watched<StruckWorld>, Watcher>,
    files: &mut F,
    out: &mut S,
) -> Result<(), Cut>
    requires fits { Fits (IsWatchedFor IsStruckWorldFor app.now) (IsWatcherFor app.now) app.now runner.old }
    requires due { runner.old.performer.performer.world.state.last ≤ last_of trace.old }
    requires inputs { input_count_of trace.old ≡ input_count app.now }
    ensures watches { IsTrue (F.tells files.old) → (text : List ℕ) →
        F.held files.old (file_of trace.old) ≡ Some text → IsReadingTrace trace.old text →
        (format : Format) (names : List Name) → IsBegun app.now format names runner.old.performer runner.old.taker →
        WritesWatched app.now format names runner.old.performer.performer (items_left trace.old text)
        (S.tells out.old) (S.taken out.old) (S.taken out.new) result }
    ensures failures { TellsFailures (file_of trace.old) (F.faults files.old) (F.faults files.new)
        (S.faults out.old) (S.faults out.new) result }
    ensures kept { F.held files.new ≡ F.held files.old }
    ensures files_telling { F.tells files.new ≡ F.tells files.old }
    ensures telling { S.tells out.new ≡ S.tells out.old }
{
    app.sound();
    do_items(app, trace, runner, files, out)
}
