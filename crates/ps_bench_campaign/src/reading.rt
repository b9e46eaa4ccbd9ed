// The course of a trace, read from the trace to its end.

ghost use Rattle.std.specs.Prelude.{◌≡◌, ◌≤◌, ℕ, List, IsTrue, Some, IfOk, Ok, Err};
ghost use Rattle.ps_base.specs.declared.failing.Refusal.{Refusal as RefusalOf};
ghost use Rattle.ps_bench_campaign.specs.Courses.{IsCourse};
ghost use Rattle.ps_bench_trials.specs.Steps.{items_in};
ghost use Rattle.ps_model.specs.Network.{input_count};
ghost use Rattle.ps_model.specs.Typing.{Accepted};
ghost use Rattle.ps_outside.specs.Outside.{Rose};
ghost use Rattle.ps_trace.specs.Reading.{IsReadingTrace, file_of, input_count_of, items_left, last_of, place_of};
ghost use Rattle.ps_trace.specs.Scans.End.{whole, refused};

use crate::recorder::{Course, Recorder};
use ps_base::Memory;
use ps_model::{App, Scan};
use ps_outside::Files;
use ps_trace::{Next, TraceReader, TraceStop};
use std::alloc::Global;

/// Reads the scans and restarts of a trace that are left, and makes each scan in a world that no fault strikes. It
/// takes memory for each, so at most what a trace of the largest size has.
///
/// `Refused` comes where a line of the trace is refused, and `Fault` only where the files' count of the trace rose.
pub fn read_course<F: Files>(
    alloc: Global,
    app: &App,
    trace: &mut TraceReader,
    files: &mut F,
) -> Result<Result<Course, TraceStop>, Memory>
    requires accepted { Accepted app.now }
    requires inputs { input_count_of trace.old ≡ input_count app.now }
    requires fresh { last_of trace.old ≡ 0 }
    ensures course { IfOk result (λ read. IfOk read (IsCourse app.now)) }
    ensures items { IsTrue (F.tells files.old) → (text : List ℕ) →
        F.held files.old (file_of trace.old) ≡ Some text → IsReadingTrace trace.old text →
        IfOk result (λ read. IfOk read (λ course.
        items_left trace.old text ≡ record { items = items_in course.steps.items; end = whole })) }
    ensures refuses { IsTrue (F.tells files.old) → (text : List ℕ) →
        F.held files.old (file_of trace.old) ≡ Some text → IsReadingTrace trace.old text →
        (refusal : RefusalOf) → result ≡ Ok (Err (TraceStop.Refused refusal)) →
        (items_left trace.old text).end ≡ refused refusal }
    ensures fault { result ≡ Ok (Err TraceStop.Fault) →
        Rose (F.faults files.old (file_of trace.old)) (F.faults files.new (file_of trace.old)) }
    ensures reads { (other : List ℕ) → F.faults files.old other ≤ F.faults files.new other }
    ensures kept { F.held files.new ≡ F.held files.old }
    ensures reading { F.tells files.new ≡ F.tells files.old }
{
    let mut recorder = Recorder::new(alloc, app)?;
    'items: loop {
        let mut scan = Scan::for_app(alloc, app)?;
        match trace.next_scan(files, &mut scan) {
            Ok(Next::Scan) => recorder.take_scan(alloc, app, scan)?,
            Ok(Next::Restart) => recorder.take_restart(app)?,
            Ok(Next::End) => return Ok(Ok(recorder.finish())),
            Err(stop) => return Ok(Err(stop)),
        }
    }
}
