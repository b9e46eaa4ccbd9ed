// A trace that is followed to its end, for a taker that keeps what comes of its scans: nothing is written.

ghost use Rattle.std.specs.Prelude.{◌≡◌, ◌≢◌, [], false, IsTrue, IfErr};
ghost use Rattle.ps_outside.specs.Outside.{Rose};
ghost use Rattle.ps_runs.specs.Running.{Fits};
ghost use Rattle.ps_bench_frame.specs.Ending.{IsOfRun, IsUnread};
ghost use Rattle.ps_bench_frame.specs.Following.{FollowsTrace, cut_short, no_trace};
ghost use Rattle.ps_bench_frame.specs.Seen.{KeepsFiles, files_seen};

use crate::ending::{Input, InputStop, Stop};
use ps_model::App;
use ps_outside::{Failed, Files, Sink, TextFail};
use ps_runs::{Cut, Performer, Runner, Taker, do_items};
use ps_trace::TraceReader;
use std::alloc::Global;

// An output of which nothing is kept, for a taker that writes nothing.
#[derive(Drop)]
struct Nothing {}

impl Sink for Nothing {
    ghost tells = { λ _. false };

    ghost taken = { λ _. [] };

    ghost faults = { λ _. 0 };

    fn write(&mut self, piece: &[u8]) -> Result<usize, Failed> {
        Ok(piece.len())
    }
}

// Why a call stops that gets no trace.
fn no_trace(why: TextFail) -> Stop
    ensures { result ≡ no_trace why }
{
    match why {
        TextFail::Refused(refusal) => Stop::Input(InputStop::Refused(Input::Trace, refusal)),
        TextFail::Fault => Stop::Input(InputStop::Unread(Input::Trace)),
        TextFail::Memory => Stop::NoMemory,
    }
}

// Why a call stops whose trace was cut short.
fn cut_short(cut: Cut) -> Stop
    ensures { result ≡ cut_short cut }
{
    match cut {
        Cut::Refused(refusal) => Stop::Input(InputStop::Refused(Input::Trace, refusal)),
        Cut::Unread => Stop::Input(InputStop::Unread(Input::Trace)),
        Cut::Unwritten => Stop::Unwritten,
    }
}

/// Does all items of the trace of this name, for a taker that keeps what comes of them. Nothing is written.
///
/// It stops where the trace is refused, where it cannot be read, and if memory runs out before its first item.
pub fn follow<F: Files, P: Performer, T: Taker<P>>(
    alloc: Global,
    files: &mut F,
    name: &str,
    app: &App,
    runner: &mut Runner<P, T>,
) -> Result<(), Stop>
    requires fits { Fits (P.fits app.now) (T.fits app.now) app.now runner.old }
    requires first { P.earliest runner.old.performer ≡ 0 }
    ensures follows { IsTrue (F.tells files.old) → FollowsTrace (P.performs app.now) (T.said app.now) (T.takes app.now)
        app.now (F.held files.old name.now) runner.old.performer runner.new.performer
        runner.old.taker runner.new.taker result }
    ensures of_run { IfErr result IsOfRun }
    ensures no_write { IfErr result (λ stop. stop ≢ Stop.Unwritten) }
    ensures unread { IfErr result (λ stop. IsUnread stop →
        Rose (F.faults files.old name.now) (F.faults files.new name.now)) }
    ensures keeps { KeepsFiles (files_seen F.tells F.held F.faults files.old) (files_seen F.tells F.held F.faults
        files.new) }
{
    let mut trace = match TraceReader::start(alloc, files, name, app) {
        Ok(trace) => trace,
        Err(why) => return Err(no_trace(why)),
    };
    match do_items(app, &mut trace, runner, files, &mut Nothing {}) {
        Ok(()) => Ok(()),
        Err(cut) => Err(cut_short(cut)),
    }
}
