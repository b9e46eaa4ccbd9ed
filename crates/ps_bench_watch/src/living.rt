// A run without faults of an application, over a stream.

ghost use Rattle.std.specs.Prelude.{◌≡◌, [], IsTrue, Err};
ghost use Rattle.ps_model.specs.Typing.{Accepted};
ghost use Rattle.ps_bench_watch.specs.Leaving.{Leaves, headless_by, ran_by, side};
ghost use Rattle.ps_bench_watch.specs.Living.{RunsStream, stop_by};
ghost use Rattle.ps_bench_watch.specs.Telling.{IsTellerFor, IsUntold, is_by_name};

use crate::feed::Feed;
use crate::teller::{Teller, first_teller};
use crate::{Stream, hand_on};
use ps_base::{Memory, Refusal};
use ps_model::App;
use ps_outside::{Failed, Output};
use ps_runs::Cut;
use ps_trace::TraceFail;
use std::alloc::Global;

/// Why a run of a stream stops before its end.
#[derive(Clone, Copy)]
pub(crate) enum LiveStop {
    /// A line of the stream is refused, or it has no header.
    Refused(Refusal),
    /// A read failed.
    Unread,
    /// A write failed.
    Unwritten,
    /// Out of memory.
    Memory,
}

// The reason why the lines of a stream were not all done.
fn stop_of(cut: Cut) -> LiveStop
    ensures { result ≡ stop_by cut }
{
    match cut {
        Cut::Refused(refusal) => LiveStop::Refused(refusal),
        Cut::Unread => LiveStop::Unread,
        Cut::Unwritten => LiveStop::Unwritten,
    }
}

/// How a run ends whose lines ended so, by whether a scan of it tripped.
pub(crate) fn ran(trips: bool, ended: Result<(), Cut>) -> Result<bool, LiveStop>
    ensures { result ≡ ran_by trips ended }
{
    match ended {
        Ok(()) => Ok(trips),
        Err(cut) => Err(stop_of(cut)),
    }
}

// How a run stops of whose stream no feed came.
fn headless(fail: TraceFail) -> LiveStop
    ensures { result ≡ headless_by fail }
{
    match fail {
        TraceFail::Refused(refusal) => LiveStop::Refused(refusal),
        TraceFail::Fault => LiveStop::Unread,
        TraceFail::Memory => LiveStop::Memory,
    }
}

// Begins the run of a stream: its memory is taken, and the header is read.
fn run_behind<I: Stream, O: Output>(
    alloc: Global,
    app: &App,
    teller: &mut Teller,
    input: &mut I,
    out: &mut O,
) -> Result<bool, LiveStop>
    requires fits { IsTellerFor app.now teller.old }
    requires untold { IsUntold app.now teller.old }
    ensures runs { IsTrue (I.tells input.old) → RunsStream (is_by_name teller.old) app.now
        (I.coming input.old) (I.coming input.new) (O.tells out.old) (O.taken out.old) (O.taken out.new) result }
    ensures leaves { Leaves (result ≡ Err LiveStop.Unread) (result ≡ Err LiveStop.Unwritten)
        (I.faults input.old) (I.faults input.new)
        (side (O.held_back out.old) (O.faults out.old) (O.tells out.old))
        (side (O.held_back out.new) (O.faults out.new) (O.tells out.new)) }
{
    match Feed::start(alloc, input, app) {
        Ok(mut feed) => teller.run(app, &mut feed, input, out),
        Err(fail) => Err(headless(fail)),
    }
}

/// Runs the trace of an application that comes as a stream, the header first, in both channels, and writes what is told
/// of each scan and restart, and hands it on, before it reads on; and says whether a scan tripped. A trip ends nothing.
///
/// What is written is what `fault` without faults writes of a trace with these lines, and by name what `watch` writes
/// of it. All memory is taken before the first scan. `Refused` comes exactly where a line is refused or there is no
/// header, with the number of the line up to 4,294,967,295; its own line is not written. `Unread` comes only where the
/// stream's count rose: what is said of each whole line that was read was then written and handed on. `Unwritten` comes
/// only where the output's count rose.
pub(crate) fn run_stream<I: Stream, O: Output>(
    alloc: Global,
    app: &App,
    names: bool,
    input: &mut I,
    out: &mut O,
) -> Result<bool, LiveStop>
    requires accepted { Accepted app.now }
    ensures runs { IsTrue (I.tells input.old) → RunsStream names app.now (I.coming input.old) (I.coming input.new)
        (O.tells out.old) (O.taken out.old) (O.taken out.new) result }
    ensures leaves { Leaves (result ≡ Err LiveStop.Unread) (result ≡ Err LiveStop.Unwritten)
        (I.faults input.old) (I.faults input.new)
        (side [] (O.faults out.old) (O.tells out.old))
        (side (O.held_back out.new) (O.faults out.new) (O.tells out.new)) }
{
    match first_teller(alloc, app, names) {
        Ok(mut teller) => match hand_on(out) {
            Ok(()) => run_behind(alloc, app, &mut teller, input, out),
            Err(Failed) => Err(LiveStop::Unwritten),
        },
        Err(Memory) => Err(LiveStop::Memory),
    }
}
