// The course of a trace that stands in the place of one.

ghost use Rattle.std.specs.Prelude.{◌≡◌, IsTrue, IfOk, IfErr, OnOk};
ghost use Rattle.ps_bench_trace.specs.Refusing.{RefusesHeld, StopsAtTrace};
ghost use Rattle.ps_bench_frame.specs.Meant.{file_meant};
ghost use Rattle.ps_bench_campaign.specs.Leaving.{Leaves, sides};
ghost use Rattle.ps_bench_campaign.specs.Recorded.{RecordsHeld};
ghost use Rattle.ps_bench_campaign.specs.Courses.{IsCourse};
ghost use Rattle.ps_model.specs.Typing.{Accepted};
ghost use Rattle.ps_outside.specs.Outside.{Rose};
ghost use Rattle.ps_bench_trace.specs.Playing.{trace_held};

use crate::reading::read_course;
use crate::recorder::Course;
use ps_base::limits::LARGEST_TRACE;
use ps_base::{Bytes, Memory};
use ps_bench_frame::{HeldText, Input, InputStop, Stop, word_of};
use ps_bench_trace::{Expansion, open_trace, refuse_input};
use ps_bench_trials::name_of_file;
use ps_model::App;
use ps_outside::{Files, Output, ReadFail};
use ps_trace::TraceStop;
use std::alloc::Global;

/// The course of a trace, and what names the trace.
pub(crate) struct Recorded {
    pub(crate) course: Course,
    pub(crate) name: Bytes,
}

impl Drop for Recorded {
    // One call for whoever owns one, in place of a walk through all that it holds.
    fn drop(self) {
        let Recorded { course: _, name: _ } = self;
    }
}

// The course of the trace of this name, with what names it.
fn record_named<F: Files, O: Output>(
    alloc: Global,
    files: &mut F,
    out: &mut O,
    app: &App,
    name: &str,
) -> Result<Recorded, Stop>
    requires { Accepted app.now }
    ensures course { IfOk result (λ r. IsCourse app.now r.course) }
    ensures records { IsTrue (F.tells files.old) →
        IfOk result (RecordsHeld app.now (F.held files.old name.now)) }
    ensures stops { IfErr result (λ stop. StopsAtTrace
        (λ refusal. IsTrue (F.tells files.old) → RefusesHeld app.now (F.held files.old name.now) refusal) stop
        (O.tells out.old) (O.taken out.old) (O.taken out.new)) }
    ensures unsaid { OnOk result (O.taken out.new ≡ O.taken out.old) }
    ensures leaves { Leaves (Rose (F.faults files.old name.now) (F.faults files.new name.now))
        (sides (F.faults files.old) (O.tells out.old) (O.faults out.old))
        (sides (F.faults files.new) (O.tells out.new) (O.faults out.new)) result }
{
    let read = {
        let mut trace = match open_trace(alloc, files, out, name, app) {
            Ok(trace) => trace,
            Err(stop) => return Err(stop),
        };
        read_course(alloc, app, &mut trace, files)
    };
    match read {
        Ok(Ok(course)) => match name_of_file(alloc, files, name) {
            Ok(name) => Ok(Recorded { course, name }),
            Err(ReadFail::Fault) => Err(Stop::Input(InputStop::Unread(Input::Trace))),
            Err(ReadFail::Memory) => Err(Stop::NoMemory),
        },
        Ok(Err(why)) => match why {
            TraceStop::Refused(refusal) => Err(refuse_input(out, Input::Trace, refusal)),
            TraceStop::Fault => Err(Stop::Input(InputStop::Unread(Input::Trace))),
        },
        Err(Memory) => Err(Stop::NoMemory),
    }
}

// The same of the trace of a file, read once: its course and what names it are of the bytes that were read. One of more
// bytes than the largest trace is refused where it says so, by readings of its own.
fn record_file<F: Files, O: Output>(
    alloc: Global,
    files: &mut F,
    out: &mut O,
    app: &App,
    name: &str,
) -> Result<Recorded, Stop>
    requires { Accepted app.now }
    ensures course { IfOk result (λ r. IsCourse app.now r.course) }
    ensures records { IsTrue (F.tells files.old) →
        IfOk result (RecordsHeld app.now (F.held files.old name.now)) }
    ensures stops { IfErr result (λ stop. StopsAtTrace
        (λ refusal. IsTrue (F.tells files.old) → RefusesHeld app.now (F.held files.old name.now) refusal) stop
        (O.tells out.old) (O.taken out.old) (O.taken out.new)) }
    ensures unsaid { OnOk result (O.taken out.new ≡ O.taken out.old) }
    ensures leaves { Leaves (Rose (F.faults files.old name.now) (F.faults files.new name.now))
        (sides (F.faults files.old) (O.tells out.old) (O.faults out.old))
        (sides (F.faults files.new) (O.tells out.new) (O.faults out.new)) result }
{
    match HeldText::of_file(alloc, files, name, LARGEST_TRACE + 1) {
        Ok(Some(mut text)) => record_named(alloc, &mut text, out, app, name),
        Ok(None) => record_named(alloc, files, out, app, name),
        Err(ReadFail::Fault) => Err(Stop::Input(InputStop::Unread(Input::Trace))),
        Err(ReadFail::Memory) => Err(Stop::NoMemory),
    }
}

/// The course of the trace of these cases, or else of the file that a word names, with what names the trace. A trace that
/// is refused ends it: its line is written.
pub(crate) fn record_play<F: Files, O: Output>(
    alloc: Global,
    files: &mut F,
    out: &mut O,
    app: &App,
    word: &str,
    cases: Option<Expansion>,
) -> Result<Recorded, Stop>
    requires { Accepted app.now }
    ensures course { IfOk result (λ r. IsCourse app.now r.course) }
    ensures records { IsTrue (F.tells files.old) → IfOk result (RecordsHeld app.now
        (trace_held cases (F.held files.old (file_meant word.now)))) }
    ensures stops { IfErr result (λ stop. StopsAtTrace
        (λ refusal. IsTrue (F.tells files.old) →
        RefusesHeld app.now (trace_held cases (F.held files.old (file_meant word.now))) refusal) stop
        (O.tells out.old) (O.taken out.old) (O.taken out.new)) }
    ensures unsaid { OnOk result (O.taken out.new ≡ O.taken out.old) }
    ensures leaves { Leaves (Rose (F.faults files.old (file_meant word.now)) (F.faults files.new (file_meant word.now)))
        (sides (F.faults files.old) (O.tells out.old) (O.faults out.old))
        (sides (F.faults files.new) (O.tells out.new) (O.faults out.new)) result }
{
    let word = word_of(word);
    match cases {
        Some(mut cases) => record_named(alloc, &mut cases, out, app, word.file),
        None => record_file(alloc, files, out, app, word.file),
    }
}
