// The loop over the scans of a trace up to a time.

ghost use Rattle.std.specs.Prelude.{◌≡◌, ◌≤◌, ℕ, List, IsTrue, IfErr, OnOk, IsErrOf, Some, None, Err};
ghost use Rattle.ps_base.specs.declared.failing.Refusal.{Refusal as RefusalOf};
ghost use Rattle.ps_model.specs.Meaning.{Meaning, nothing};
ghost use Rattle.ps_model.specs.Network.{input_count};
ghost use Rattle.ps_model.specs.Scanning.{State};
ghost use Rattle.ps_outside.specs.Outside.{Rose};
ghost use Rattle.ps_trace.specs.Reading.{IsReadingTrace, file_of, input_count_of, items_left, last_of};
ghost use Rattle.ps_trace.specs.Scans.End.{refused};
ghost use Rattle.ps_bench_why.specs.Looking.{IsLast};
ghost use Rattle.ps_bench_why.specs.Scanned.{last_upto, scans_of};
ghost use Rattle.ps_bench_why.specs.Walking.{AreNoted, IsWalkerFor, StandsBehind, latest};

use crate::walker::Walker;
use ps_model::App;
use ps_outside::Files;
use ps_trace::{Next, TraceReader, TraceStop};

/// What the loop has met after the last scan that it made.
#[derive(Clone, Copy)]
pub enum Met {
    /// The end of the trace.
    End,
    /// A scan that is later than the time, with its own time in ms.
    Later(u32),
}

/// Makes the scans of a trace up to the last one at or before a time in ms. What is after the first later one is not
/// read. It takes no memory.
///
/// `Refused` comes where a line of the trace is refused in front of that, and `Fault` only where the files' count of
/// the trace's name rose in this call.
pub fn walk_up_to<F: Files>(
    app: &App,
    trace: &mut TraceReader,
    time: u32,
    walker: &mut Walker,
    files: &mut F,
) -> Result<Met, TraceStop>
    requires fits { IsWalkerFor app.now walker.old }
    requires stands { StandsBehind app.now nothing walker.old }
    requires noted { AreNoted (λ i. 0) walker.old.since.items }
    requires none { walker.old.last ≡ None }
    requires due { latest walker.old ≤ last_of trace.old }
    requires inputs { input_count_of trace.old ≡ input_count app.now }
    // What is kept is so of the scan that the time picks, if there is one.
    ensures last { IsTrue (F.tells files.old) → (text : List ℕ) →
        F.held files.old (file_of trace.old) ≡ Some text → IsReadingTrace trace.old text →
        (states : List State) → Meaning app.now (items_left trace.old text).items states →
        OnOk result (IsLast app.now (last_upto time (scans_of (items_left trace.old text).items states)) walker.new) }
    ensures refused { IsTrue (F.tells files.old) → (text : List ℕ) →
        F.held files.old (file_of trace.old) ≡ Some text → IsReadingTrace trace.old text →
        (refusal : RefusalOf) → result ≡ Err (TraceStop.Refused refusal) →
        (items_left trace.old text).end ≡ refused refusal }
    ensures fits { IsWalkerFor app.now walker.new }
    ensures unread { IsErrOf result TraceStop.Fault →
        Rose (F.faults files.old (file_of trace.old)) (F.faults files.new (file_of trace.old)) }
    ensures reads { (other : List ℕ) → F.faults files.old other ≤ F.faults files.new other }
    ensures kept { F.held files.new ≡ F.held files.old }
    ensures reading { F.tells files.new ≡ F.tells files.old }
{
    'items: loop {
        match trace.next_scan(files, &mut walker.scan) {
            Ok(Next::Scan) => {
                if walker.scan.now > time {
                    return Ok(Met::Later(walker.scan.now));
                }
                walker.take(app);
            }
            Ok(Next::Restart) => walker.before = None,
            Ok(Next::End) => return Ok(Met::End),
            Err(stop) => return Err(stop),
        }
    }
}
