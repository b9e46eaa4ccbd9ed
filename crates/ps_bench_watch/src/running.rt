// `live APP [--names]`: the run of a trace that comes as a stream.

ghost use Rattle.std.specs.Prelude.{◌≡◌, ◌⊎◌, ◌≤◌, [], ℕ, List, IfOk, IfErr, IsErrOf, Err};
ghost use Rattle.ps_bench_frame.specs.Ending.{IsUnread};
ghost use Rattle.ps_bench_watch.specs.LiveAsking.{AnswersLive, Ends, StopsAtLine, StopsLive, fed, status_by};
ghost use Rattle.ps_model.specs.Typing.{Accepted};
ghost use Rattle.ps_outside.specs.Outside.{Rose};

use crate::living::{LiveStop, run_stream};
use crate::{Ending, Stream, ending_of, tell_refusal};
use ps_base::Refusal;
use ps_bench_frame::{Input, InputStop, Status, Stop, open_app};
use ps_model::App;
use ps_outside::{Files, Output};
use std::alloc::Global;

/// What `live` is asked.
#[derive(Clone, Copy)]
pub struct Asked<'a> {
    /// The name of the application.
    pub app: &'a str,
    /// Whether scans are told by name, as `watch` tells them, in place of their report lines.
    pub names: bool,
}

// The status of a run, by whether a scan tripped.
fn status_by(trips: bool) -> Status
    ensures { result ≡ status_by trips }
{
    match ending_of(trips) {
        Ending::Tripped => Status::Failed,
        Ending::Released => Status::Done,
    }
}

// Ends a call at a line of the stream that is refused: the line of the refusal is written.
fn refuse_line<O: Output>(out: &mut O, refusal: Refusal) -> Stop
    ensures stops { StopsAtLine refusal (O.tells out.old) (O.taken out.old) (O.taken out.new) result }
    ensures read { ¬ IsUnread result }
    ensures unwritten { result ≡ Stop.Unwritten → Rose (O.faults out.old) (O.faults out.new) }
    ensures writes { O.faults out.old ≤ O.faults out.new }
    ensures telling { O.tells out.new ≡ O.tells out.old }
{
    match tell_refusal(out, refusal) {
        Ok(()) => Stop::Input(InputStop::Refused(Input::Trace, refusal)),
        Err(_) => Stop::Unwritten,
    }
}

// Runs the trace of an application that comes as a stream, and tells of it by name or by report lines.
fn run_app<I: Stream, O: Output>(
    alloc: Global,
    app: &App,
    names: bool,
    input: &mut I,
    out: &mut O,
) -> Result<Status, Stop>
    requires accepted { Accepted app.now }
    ensures ends { Ends names app.now (fed (I.tells input.old) (I.coming input.old) (I.coming input.new))
        (O.tells out.old) (O.taken out.old) (O.taken out.new) result }
    ensures handed_on_before { result ≡ Err (Stop.Input (InputStop.Unread Input.Trace)) → O.held_back out.new ≡ [] }
    ensures unread { IfErr result (λ stop. IsUnread stop → Rose (I.faults input.old) (I.faults input.new)) }
    ensures unwritten { IsErrOf result Stop.Unwritten → Rose (O.faults out.old) (O.faults out.new) }
    ensures writes { O.faults out.old ≤ O.faults out.new }
    ensures telling { O.tells out.new ≡ O.tells out.old }
{
    match run_stream(alloc, app, names, input, out) {
        Ok(trips) => Ok(status_by(trips)),
        Err(LiveStop::Refused(refusal)) => Err(refuse_line(out, refusal)),
        Err(LiveStop::Unread) => Err(Stop::Input(InputStop::Unread(Input::Trace))),
        Err(LiveStop::Unwritten) => Err(Stop::Unwritten),
        Err(LiveStop::Memory) => Err(Stop::NoMemory),
    }
}

/// `live APP [--names]`: runs the trace of the application of this name that comes as a stream, the header first, and
/// writes the line of each scan and restart, and hands it on, before it reads on: its report line, or by name what
/// `watch` writes of it where no names are given. Both channels run. The end of the stream ends it.
///
/// The status is Failed where a scan tripped, and else Done; a trip ends nothing. Where the application is refused, or
/// a line of the stream, the line of the refusal is written: of a line of the stream after what is said of those
/// before. A refusal of the stream is one of `Input::Trace`, and a read of it that fails one of the same; what is said
/// of each whole line that was read was then handed on.
///
/// What cannot be read is the application or the stream, whose count rose in this call; `Unwritten` comes only where
/// the output's count rose. Memory does not grow with the stream.
pub fn live<F: Files, I: Stream, O: Output>(
    alloc: Global,
    files: &mut F,
    input: &mut I,
    out: &mut O,
    asked: &Asked<'_>,
) -> Result<Status, Stop>
    ensures answers { IfOk result (AnswersLive asked.now.app.now asked.now.names
        (fed (I.tells input.old) (I.coming input.old) (I.coming input.new))
        (F.tells files.old) (F.held files.old) (O.tells out.old) (O.taken out.old) (O.taken out.new)) }
    ensures stops { IfErr result (StopsLive asked.now.app.now asked.now.names
        (fed (I.tells input.old) (I.coming input.old) (I.coming input.new))
        (F.tells files.old) (F.held files.old) (O.tells out.old) (O.taken out.old) (O.taken out.new)) }
    ensures handed_on_before { result ≡ Err (Stop.Input (InputStop.Unread Input.Trace)) → O.held_back out.new ≡ [] }
    ensures unread { IfErr result (λ stop. IsUnread stop →
        Rose (F.faults files.old asked.now.app.now) (F.faults files.new asked.now.app.now)
        ⊎ Rose (I.faults input.old) (I.faults input.new)) }
    ensures unwritten { IsErrOf result Stop.Unwritten → Rose (O.faults out.old) (O.faults out.new) }
    ensures writes { O.faults out.old ≤ O.faults out.new }
    ensures telling { O.tells out.new ≡ O.tells out.old }
{
    match open_app(alloc, files, out, asked.app) {
        Ok(opened) => run_app(alloc, &opened.app, asked.names, input, out),
        Err(stop) => Err(stop),
    }
}
