// Who makes a run and writes it, in any layout.

ghost use Rattle.std.specs.Prelude.{◌≡◌, ◌≤◌, ℕ, List, IsTrue, Some, IfOk};
ghost use Rattle.ps_bench_words.specs.declared.asking.Layout.{Layout as LayoutOf};
ghost use Rattle.ps_bench_words.specs.declared.asking.Layout.TheVariants.{Vcd};
ghost use Rattle.ps_bench_names.specs.declared.name.Name.{Name as NameOf};
ghost use Rattle.ps_model.specs.Network.{input_count};
ghost use Rattle.ps_runs.specs.Cutting.{TellsFailures};
ghost use Rattle.ps_runs.specs.Performing.{IsStruckWorldFor};
ghost use Rattle.ps_runs.specs.Running.{Fits, IsBeginning};
ghost use Rattle.ps_runs.specs.Watching.{IsWatchedFor};
ghost use Rattle.ps_trace.specs.Reading.{IsReadingTrace, file_of, input_count_of, items_left, last_of};
ghost use Rattle.ps_bench_waves.specs.Watcher.{IsWatcherFor};
ghost use Rattle.ps_bench_waves.specs.Dumping.{IsDumperFor};
ghost use Rattle.ps_bench_watch.specs.Prepared.{IsDumpBegun, IsPlayerFor, IsPlayerOf, Plays, PlaysDump};
ghost use Rattle.ps_bench_watch.specs.Prepared.{layout_of, performer_of};
ghost use Rattle.ps_bench_waves.specs.Parts as wires;
ghost use Rattle.ps_bench_watch.specs.Showing.{Run};

use ps_base::Memory;
use ps_bench_names::Name;
use ps_bench_waves::{Dumper, Format, Part, Watcher, watch_items};
use ps_model::App;
use ps_outside::{Files, Sink};
use ps_runs::{Cut, Runner, StruckWorld, Watched, do_items};
use ps_trace::TraceReader;
use std::alloc::Global;

/// Who makes the scans of a run, and who writes what is watched of them.
#[derive(Drop)]
pub(crate) enum Player {
    /// In lines, a scan after the other.
    Lines(Runner<Watched<StruckWorld>, Watcher>),
    /// As value changes.
    Changes(Runner<Watched<StruckWorld>, Dumper>),
}

/// Who makes the scans of a world and writes these names in a format, before the first scan. It takes all memory that
/// the run will use.
pub(crate) fn lines_of(
    alloc: Global,
    app: &App,
    format: Format,
    names: &[Name],
    world: StruckWorld,
) -> Result<Player, Memory>
    requires { IsBeginning app.now world }
    ensures fits { IfOk result (IsPlayerFor app.now) }
    ensures player { IfOk result (IsPlayerOf app.now (layout_of format) names.now) }
    ensures world { IfOk result (λ p. (performer_of p).performer ≡ world) }
{
    let watcher = Watcher::new(alloc, app, format, names)?;
    let world = Watched::new(alloc, app, world)?;
    Ok(Player::Lines(Runner::for_app(alloc, app, world, watcher)?))
}

/// Who makes the scans of a world and writes the value changes of these parts, before the first scan. It takes all
/// memory that the run will use.
pub(crate) fn changes_of(
    alloc: Global,
    app: &App,
    parts: Vec<Part>,
    world: StruckWorld,
) -> Result<Player, Memory>
    requires { IsBeginning app.now world }
    ensures fits { IfOk result (IsPlayerFor app.now) }
    ensures player { (names : List NameOf) → parts.items ≡ wires.parts_of names →
        IfOk result (IsPlayerOf app.now Vcd names) }
    ensures world { IfOk result (λ p. (performer_of p).performer ≡ world) }
{
    let dumper = Dumper::new(alloc, app, parts)?;
    let world = Watched::new(alloc, app, world)?;
    Ok(Player::Changes(Runner::for_app(alloc, app, world, dumper)?))
}

// Does the items of a trace that are left, and writes their value changes. It takes no memory.
fn dump_items<F: Files, S: Sink>(
    app: &App,
    trace: &mut TraceReader,
    runner: &mut Runner<Watched<StruckWorld>, Dumper>,
    files: &mut F,
    out: &mut S,
) -> Result<(), Cut>
    requires fits { Fits (IsWatchedFor IsStruckWorldFor app.now) (IsDumperFor app.now) app.now runner.old }
    requires due { runner.old.performer.performer.world.state.last ≤ last_of trace.old }
    requires inputs { input_count_of trace.old ≡ input_count app.now }
    ensures dumps { IsTrue (F.tells files.old) → (text : List ℕ) →
        F.held files.old (file_of trace.old) ≡ Some text → IsReadingTrace trace.old text →
        (names : List NameOf) → IsDumpBegun app.now names runner.old.performer runner.old.taker →
        PlaysDump app.now names runner.old.performer.performer (items_left trace.old text)
        (S.tells out.old) (S.taken out.old) (S.taken out.new) result }
    ensures failures { TellsFailures (file_of trace.old) (F.faults files.old) (F.faults files.new)
        (S.faults out.old) (S.faults out.new) result }
    ensures telling { S.tells out.new ≡ S.tells out.old }
{
    app.sound();
    do_items(app, trace, runner, files, out)
}

impl Player {
    /// Does the items of a trace that are left, and writes what is watched of them. It takes no memory, and what it
    /// keeps does not grow with the scans.
    ///
    /// `Refused` comes where a line of the trace is refused, `Unread` where a read of the trace's file failed, and
    /// `Unwritten` where a write failed.
    pub(crate) fn play<F: Files, S: Sink>(
        &mut self,
        app: &App,
        trace: &mut TraceReader,
        files: &mut F,
        out: &mut S,
    ) -> Result<(), Cut>
        requires fits { IsPlayerFor app.now self.old }
        requires due { (performer_of self.old).performer.world.state.last ≤ last_of trace.old }
        requires inputs { input_count_of trace.old ≡ input_count app.now }
        ensures plays { IsTrue (F.tells files.old) → (text : List ℕ) →
            F.held files.old (file_of trace.old) ≡ Some text → IsReadingTrace trace.old text →
            (layout : LayoutOf) (run : Run) → IsPlayerOf app.now layout run.names self.old →
            (performer_of self.old).performer.world.setup ≡ run.setup →
            (performer_of self.old).performer.faults ≡ run.faults →
            Plays app.now layout run (items_left trace.old text) (S.tells out.old) (S.taken out.old)
            (S.taken out.new) result }
        ensures failures { TellsFailures (file_of trace.old) (F.faults files.old) (F.faults files.new)
            (S.faults out.old) (S.faults out.new) result }
        ensures telling { S.tells out.new ≡ S.tells out.old }
    {
        match self {
            Player::Lines(runner) => watch_items(app, trace, runner, files, out),
            Player::Changes(runner) => dump_items(app, trace, runner, files, out),
        }
    }
}
