// `trace APP CSV`: the trace of a recorded log.

ghost use Rattle.std.specs.Prelude.{◌≡◌, ◌≤◌, ◌∷◌, [], ℕ, List, Any, IfErr, IsErrOf, OnOk};
ghost use Rattle.ps_bench_frame.specs.Ending.{IsUnread};
ghost use Rattle.ps_bench_frame.specs.Opening.{source};
ghost use Rattle.ps_outside.specs.Outside.{Rose};
ghost use Rattle.ps_bench_watch.specs.Tracing.{AnswersIn, AnswersTrace, StopsTrace};

use ps_bench_frame::{Input, InputStop, Opened, Stop, open_app, refuse_log};
use ps_bench_logs::{RecordFail, record};
use ps_outside::{Files, Output};
use std::alloc::Global;

/// What `trace` is asked.
#[derive(Clone, Copy)]
pub struct Asked<'a> {
    /// The name of the application.
    pub app: &'a str,
    /// The name of the log.
    pub log: &'a str,
}

// Writes the trace of the log of this name, of an application.
fn trace_app<F: Files, O: Output>(
    alloc: Global,
    files: &mut F,
    out: &mut O,
    opened: &Opened,
    log: &str,
) -> Result<(), Stop>
    ensures answers { AnswersIn (source opened.now.app opened.now.sizes (F.tells files.old) (F.held files.old))
        log.now (O.tells out.old) (O.taken out.old) (O.taken out.new) result }
    ensures unread { IfErr result (λ stop. IsUnread stop →
        Rose (F.faults files.old log.now) (F.faults files.new log.now)) }
    ensures unwritten { IsErrOf result Stop.Unwritten → Rose (O.faults out.old) (O.faults out.new) }
    ensures reads { (other : List ℕ) → F.faults files.old other ≤ F.faults files.new other }
    ensures writes { O.faults out.old ≤ O.faults out.new }
    ensures telling { O.tells out.new ≡ O.tells out.old }
{
    match record(alloc, files, out, &opened.app, log) {
        Ok(()) => Ok(()),
        Err(RecordFail::Refused(refusal)) => Err(refuse_log(alloc, out, refusal)),
        Err(RecordFail::Fault) => Err(Stop::Input(InputStop::Unread(Input::Log))),
        Err(RecordFail::Unwritten) => Err(Stop::Unwritten),
        Err(RecordFail::Memory) => Err(Stop::NoMemory),
    }
}

/// `trace APP CSV`: writes the trace of the scans of the log of this name for the application: of each row with a time
/// in ms and a value for each input, by the names of columns in any order. Where a row is refused, the line of the
/// refusal stands after the trace of the rows before it; where the application or the header is refused, in place of
/// all.
///
/// A file that cannot be read is one of the two, whose count of the files rose in this call; `Unwritten` comes only
/// where the output's count rose. Memory does not grow with the log.
pub fn trace<F: Files, O: Output>(
    alloc: Global,
    files: &mut F,
    out: &mut O,
    asked: &Asked<'_>,
) -> Result<(), Stop>
    ensures answers { OnOk result (AnswersTrace asked.now.app.now asked.now.log.now
        (F.tells files.old) (F.held files.old) (O.tells out.old) (O.taken out.old) (O.taken out.new)) }
    ensures stops { IfErr result (StopsTrace asked.now.app.now asked.now.log.now
        (F.tells files.old) (F.held files.old) (O.tells out.old) (O.taken out.old) (O.taken out.new)) }
    ensures unread { IfErr result (λ stop. IsUnread stop →
        Any (λ (name : List ℕ). Rose (F.faults files.old name) (F.faults files.new name))
        (asked.now.app.now ∷ asked.now.log.now ∷ [])) }
    ensures unwritten { IsErrOf result Stop.Unwritten → Rose (O.faults out.old) (O.faults out.new) }
    ensures writes { O.faults out.old ≤ O.faults out.new }
    ensures telling { O.tells out.new ≡ O.tells out.old }
{
    match open_app(alloc, files, out, asked.app) {
        Ok(opened) => trace_app(alloc, files, out, &opened, asked.log),
        Err(stop) => Err(stop),
    }
}
