// Who makes the scans of a stream, and who tells of them: by report lines, or by name.

ghost use Rattle.std.specs.Prelude.{◌≡◌, ℕ, true, false, List, IsTrue, IfOk, Err};
ghost use Rattle.ps_bench_watch.specs.Feeding.{IsBehind, inputs_of_feed, lines_left};
ghost use Rattle.ps_bench_watch.specs.Streaming.{fed_lines};
ghost use Rattle.ps_model.specs.Network.{input_count};
ghost use Rattle.ps_model.specs.Typing.{Accepted};
ghost use Rattle.ps_bench_watch.specs.Leaving.{Leaves, side};
ghost use Rattle.ps_bench_watch.specs.Living.{RunsStream};
ghost use Rattle.ps_bench_watch.specs.Telling.{IsFirstTeller, IsFirstWatcher, IsFirstWorld};
ghost use Rattle.ps_bench_watch.specs.Telling.{IsTellerFor, IsUntold, is_by_name};

use crate::Stream;
use crate::answering::answer_lines;
use crate::feed::Feed;
use crate::living::{LiveStop, ran};
use ps_base::Memory;
use ps_bench_waves::{Format, Watcher, main_names};
use ps_model::App;
use ps_outside::Output;
use ps_report::LineBuffer;
use ps_runs::{Runner, StruckWorld, Watched};
use ps_trace::Faults;
use ps_world::World;
use std::alloc::Global;

/// Who makes the scans of a stream, and who tells of them.
pub(crate) enum Teller {
    /// By report lines.
    Lines(Runner<StruckWorld, LineBuffer>),
    /// By name: what changed of the outputs and of the states of instances.
    Names(Runner<Watched<StruckWorld>, Watcher>),
}

impl Drop for Teller {
    // One call for whoever owns one, in place of a walk through all that it holds.
    fn drop(self) {
        match self {
            Teller::Lines(_) | Teller::Names(_) => {}
        }
    }
}

// The world of an application at the beginning of a run without faults.
fn first_world(alloc: Global, app: &App) -> Result<StruckWorld, Memory>
    requires { Accepted app.now }
    ensures { IfOk result (IsFirstWorld app.now) }
{
    match World::build(alloc, app) {
        Ok(world) => Ok(StruckWorld::new(world, Faults::new(alloc))),
        Err(memory) => Err(memory),
    }
}

// Who tells of a world by report lines, before the first scan.
fn by_lines(alloc: Global, app: &App, world: StruckWorld) -> Result<Teller, Memory>
    requires { IsFirstWorld app.now world }
    ensures { IfOk result (IsFirstTeller false app.now) }
{
    match LineBuffer::for_app(alloc, app) {
        Ok(lines) => match Runner::for_app(alloc, app, world, lines) {
            Ok(runner) => Ok(Teller::Lines(runner)),
            Err(memory) => Err(memory),
        },
        Err(memory) => Err(memory),
    }
}

// Who writes the outputs and the states of instances as text, before the first scan.
fn first_watcher(alloc: Global, app: &App) -> Result<Watcher, Memory>
    ensures { IfOk result (IsFirstWatcher app.now) }
{
    match main_names(alloc, app) {
        Ok(names) => Watcher::new(alloc, app, Format::Text, names.as_slice()),
        Err(memory) => Err(memory),
    }
}

// Who tells of a world by name, before the first scan.
fn by_name(alloc: Global, app: &App, world: StruckWorld) -> Result<Teller, Memory>
    requires { IsFirstWorld app.now world }
    ensures { IfOk result (IsFirstTeller true app.now) }
{
    match first_watcher(alloc, app) {
        Ok(watcher) => match Watched::new(alloc, app, world) {
            Ok(watched) => match Runner::for_app(alloc, app, watched, watcher) {
                Ok(runner) => Ok(Teller::Names(runner)),
                Err(memory) => Err(memory),
            },
            Err(memory) => Err(memory),
        },
        Err(memory) => Err(memory),
    }
}

/// Who makes the scans of an application without faults, and tells of them by name or by report lines, before the
/// first. It takes all memory that the run will use.
pub(crate) fn first_teller(alloc: Global, app: &App, names: bool) -> Result<Teller, Memory>
    requires { Accepted app.now }
    ensures { IfOk result (IsFirstTeller names app.now) }
{
    match first_world(alloc, app) {
        Ok(world) => {
            if names {
                by_name(alloc, app, world)
            } else {
                by_lines(alloc, app, world)
            }
        }
        Err(memory) => Err(memory),
    }
}

impl Teller {
    /// Runs the lines that are to come of a stream, tells of each scan and restart, and hands that on, before it reads
    /// on; and says whether a scan tripped. It takes no memory.
    pub(crate) fn run<I: Stream, O: Output>(
        &mut self,
        app: &App,
        feed: &mut Feed,
        input: &mut I,
        out: &mut O,
    ) -> Result<bool, LiveStop>
        requires fits { IsTellerFor app.now self.old }
        requires untold { IsUntold app.now self.old }
        requires inputs { inputs_of_feed feed.old ≡ input_count app.now }
        ensures runs { IsTrue (I.tells input.old) → (bytes : List ℕ) →
            IsBehind app.now (fed_lines bytes) feed.old (lines_left feed.old (I.coming input.old)) →
            RunsStream (is_by_name self.old) app.now bytes (I.coming input.new) (O.tells out.old) (O.taken out.old)
            (O.taken out.new) result }
        ensures leaves { Leaves (result ≡ Err LiveStop.Unread) (result ≡ Err LiveStop.Unwritten)
            (I.faults input.old) (I.faults input.new)
            (side (O.held_back out.old) (O.faults out.old) (O.tells out.old))
            (side (O.held_back out.new) (O.faults out.new) (O.tells out.new)) }
    {
        match self {
            Teller::Lines(runner) => {
                let ended = answer_lines(app, feed, runner, input, out);
                ran(runner.performer.tripped, ended)
            }
            Teller::Names(runner) => {
                app.sound();
                let named = answer_lines(app, feed, runner, input, out);
                ran(runner.performer.performer.tripped, named)
            }
        }
    }
}
