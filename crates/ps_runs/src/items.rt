//! The loop that does the items of a trace.

ghost use Rattle.std.specs.Prelude.{◌≡◌, ◌≢◌, ◌≤◌, ℕ, List, IfOk, OnOk, IsTrue, Some, Err};
ghost use Rattle.ps_model.specs.Meaning.Item.{scan as scan_item, restart as restart_item};
ghost use Rattle.ps_model.specs.Network.{input_count};
ghost use Rattle.ps_outside.specs.Outside.{Rose};
ghost use Rattle.ps_runs.specs.Cutting.{TellsFailures, cut_of};
ghost use Rattle.ps_runs.specs.Doing.{DoesItem, DoesItems};
ghost use Rattle.ps_runs.specs.Running.{Fits};
ghost use Rattle.ps_trace.specs.Reading.{IsReadingTrace, file_of, input_count_of, items_left, last_of};

use crate::performing::Performer;
use crate::taking::Taker;
use ps_base::{Memory, Refusal};
use ps_model::{App, Report, Scan};
use ps_outside::{Files, Sink};
use ps_trace::{Next, TraceReader, TraceStop};
use std::alloc::Global;

/// Why the items of a trace were not all done.
#[derive(Clone, Copy)]
pub enum Cut {
    /// A line of the trace is refused, or a scan was begun and is refused.
    Refused(Refusal),
    /// A read of the trace's file failed.
    Unread,
    /// A write failed.
    Unwritten,
}

impl From<TraceStop> for Cut {
    ghost from_gives = { λ stop cut. cut ≡ cut_of stop };

    fn from(stop: TraceStop) -> Cut {
        match stop {
            TraceStop::Refused(refusal) => Cut::Refused(refusal),
            TraceStop::Fault => Cut::Unread,
        }
    }
}

/// What the items of a trace are done with: who performs them, who takes what comes of them, and room for a scan and
/// its report.
#[derive(Drop)]
pub struct Runner<P, T> {
    /// Who performs them.
    pub performer: P,
    /// Who takes what comes of them.
    pub taker: T,
    /// The scan that was read last.
    pub scan: Scan,
    // its report
    pub(crate) report: Report,
}

impl<P: Performer + Drop, T: Taker<P> + Drop> Runner<P, T> {
    /// What the scans of an application are done with, before the first. It takes the memory for a scan and its report.
    pub fn for_app(alloc: Global, app: &App, performer: P, taker: T) -> Result<Runner<P, T>, Memory>
        requires performer { P.fits app.now performer }
        requires taker { T.fits app.now taker }
        ensures fits { IfOk result (Fits (P.fits app.now) (T.fits app.now) app.now) }
        ensures performer { IfOk result (λ r. r.performer ≡ performer) }
        ensures taker { IfOk result (λ r. r.taker ≡ taker) }
    {
        Ok(Runner {
            performer,
            taker,
            scan: Scan::for_app(alloc, app)?,
            report: Report::for_app(alloc, app)?,
        })
    }
}

impl<P: Performer, T: Taker<P>> Runner<P, T> {
    /// Performs the scan that was read, and hands on what comes of it. It takes no memory.
    pub fn do_scan<S: Sink>(&mut self, app: &App, out: &mut S) -> Result<(), Cut>
        requires fits { Fits (P.fits app.now) (T.fits app.now) app.now self.old }
        requires due { P.earliest self.old.performer ≤ self.old.scan.now }
        ensures does { DoesItem (P.performs app.now) (T.said app.now) (T.takes app.now)
            (scan_item self.old.scan.now self.old.scan.ins)
            self.old.performer self.new.performer self.old.taker self.new.taker
            (S.tells out.old) (S.taken out.old) (S.taken out.new) result }
        ensures fits { OnOk result (Fits (P.fits app.now) (T.fits app.now) app.now self.new) }
        ensures due { P.earliest self.new.performer ≤ self.old.scan.now }
        ensures no_read { result ≢ Err Cut.Unread }
        ensures unwritten { result ≡ Err Cut.Unwritten → Rose (S.faults out.old) (S.faults out.new) }
        ensures all_written { result ≢ Err Cut.Unwritten → S.faults out.new ≡ S.faults out.old }
        ensures counts { S.faults out.old ≤ S.faults out.new }
        ensures telling { S.tells out.new ≡ S.tells out.old }
    {
        let verdict = match self
            .performer
            .perform_scan(app, &self.scan, &mut self.report)
        {
            Ok(verdict) => verdict,
            Err(refusal) => return Err(Cut::Refused(refusal)),
        };
        let taken = self.taker.take_scan(
            app,
            self.scan.now,
            verdict,
            &self.report,
            &self.performer,
            out,
        );
        match taken {
            Ok(()) => Ok(()),
            Err(_) => Err(Cut::Unwritten),
        }
    }

    /// Begins anew, and tells of it. It takes no memory.
    pub fn do_restart<S: Sink>(&mut self, app: &App, out: &mut S) -> Result<(), Cut>
        requires fits { Fits (P.fits app.now) (T.fits app.now) app.now self.old }
        ensures does { DoesItem (P.performs app.now) (T.said app.now) (T.takes app.now) restart_item
            self.old.performer self.new.performer self.old.taker self.new.taker
            (S.tells out.old) (S.taken out.old) (S.taken out.new) result }
        ensures fits { Fits (P.fits app.now) (T.fits app.now) app.now self.new }
        ensures due { P.earliest self.new.performer ≤ P.earliest self.old.performer }
        ensures no_read { result ≢ Err Cut.Unread }
        ensures unwritten { result ≡ Err Cut.Unwritten → Rose (S.faults out.old) (S.faults out.new) }
        ensures all_written { result ≢ Err Cut.Unwritten → S.faults out.new ≡ S.faults out.old }
        ensures counts { S.faults out.old ≤ S.faults out.new }
        ensures telling { S.tells out.new ≡ S.tells out.old }
    {
        self.performer.perform_restart(app);
        match self.taker.take_restart(app, &self.performer, out) {
            Ok(()) => Ok(()),
            Err(_) => Err(Cut::Unwritten),
        }
    }
}

/// Does the items of a trace that are left, in order. It takes no memory.
///
/// `Refused` comes where a line of the trace is refused, or the performer refuses a scan; `Unread` where a read of
/// the trace's file failed; `Unwritten` where a write failed. What the performer and the taker became by the items
/// before stays.
pub fn do_items<F: Files, S: Sink, P: Performer, T: Taker<P>>(
    app: &App,
    trace: &mut TraceReader,
    runner: &mut Runner<P, T>,
    files: &mut F,
    out: &mut S,
) -> Result<(), Cut>
    requires fits { Fits (P.fits app.now) (T.fits app.now) app.now runner.old }
    requires due { P.earliest runner.old.performer ≤ last_of trace.old }
    requires inputs { input_count_of trace.old ≡ input_count app.now }
    ensures does { IsTrue (F.tells files.old) → (text : List ℕ) →
        F.held files.old (file_of trace.old) ≡ Some text → IsReadingTrace trace.old text →
        DoesItems (P.performs app.now) (T.said app.now) (T.takes app.now)
        (last_of trace.old) runner.old.performer runner.old.taker (items_left trace.old text)
        (S.tells out.old) (S.taken out.old) (S.taken out.new) result runner.new.performer runner.new.taker }
    ensures failures { TellsFailures (file_of trace.old) (F.faults files.old) (F.faults files.new)
        (S.faults out.old) (S.faults out.new) result }
    ensures kept { F.held files.new ≡ F.held files.old }
    ensures files_telling { F.tells files.new ≡ F.tells files.old }
    ensures telling { S.tells out.new ≡ S.tells out.old }
{
    'items: loop {
        match trace.next_scan(files, &mut runner.scan)? {
            Next::Scan => runner.do_scan(app, out)?,
            Next::Restart => runner.do_restart(app, out)?,
            Next::End => return Ok(()),
        }
    }
}
