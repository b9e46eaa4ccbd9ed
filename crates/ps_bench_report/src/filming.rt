// The loop over the scans of a case that are recorded, and counted.

ghost use Rattle.std.specs.Prelude.{◌≡◌, ◌≤◌, false, ℕ, List, IsTrue, Err, IfOk, OnOk, Some};
ghost use Rattle.ps_base.specs.declared.failing.Refusal.{Refusal as RefusalOf};
ghost use Rattle.ps_model.specs.Meaning.{Meaning, nothing};
ghost use Rattle.ps_model.specs.Network.{input_count};
ghost use Rattle.ps_model.specs.Scanning.{State};
ghost use Rattle.ps_bench_report.specs.Filmed.{HasRecorded, IsBegun, made_of};
ghost use Rattle.ps_bench_report.specs.Recording.{film_of};
ghost use Rattle.ps_cover.specs.Applying.{scans_of};
ghost use Rattle.ps_cover.specs.Covers.{IsAt, IsCoverFor, Knows};
ghost use Rattle.ps_runs.specs.Cutting.{TellsFailures};
ghost use Rattle.ps_runs.specs.Performing.{IsStruckWorldFor};
ghost use Rattle.ps_runs.specs.Running.{Fits};
ghost use Rattle.ps_runs.specs.Watching.{IsWatchedFor, StandsAt};
ghost use Rattle.ps_bench_names.specs.declared.name.Name.{Name as NameOf};
ghost use Rattle.ps_trace.specs.Reading.{IsReadingTrace, file_of, input_count_of, items_left, last_of};
ghost use Rattle.ps_trace.specs.Scans.End.{refused};

use crate::recording::{Recorder, Recording};
use ps_base::Memory;
use ps_bench_judge::Seen;
use ps_cover::Cover;
use ps_machine::Signals;
use ps_model::{App, Report, Verdict};
use ps_outside::{Failed, Files, Sink, Stopped};
use ps_runs::{Cut, Runner, StruckWorld, Taker, Watched, do_items};
use ps_trace::TraceReader;

/// What is kept of the run of a case.
pub(crate) struct Kept<'a> {
    /// What is shown of it.
    pub(crate) recording: Recording,
    /// What its scans show of the application.
    pub(crate) cover: Cover<'a>,
}

impl<'a> Drop for Kept<'a> {
    // One call for whoever owns one, in place of a walk through all that it holds.
    fn drop(self) {
        let Kept {
            recording: _,
            cover: _,
        } = self;
    }
}

/// Who takes the scans of a case: for what is shown of them, and for what they show of the application.
pub(crate) struct Both<'a> {
    /// What is shown.
    pub(crate) recorder: Recorder,
    /// What they show.
    pub(crate) cover: Cover<'a>,
}

impl<'a> Drop for Both<'a> {
    // One call for whoever owns one, in place of a walk through all that it holds.
    fn drop(self) {
        let Both {
            recorder: _,
            cover: _,
        } = self;
    }
}

impl<'a> Both<'a> {
    /// What was kept. An error: memory ran out for a scan.
    pub(crate) fn finish(self) -> Result<Kept<'a>, Memory>
        ensures film { IfOk result (λ kept. film_of kept.recording ≡ film_of self.entry.recorder.recording) }
        ensures cover { IfOk result (λ kept. kept.cover ≡ self.entry.cover) }
        ensures wanting { OnOk result (self.entry.recorder.is_wanting ≡ false) }
    {
        let Both { recorder, cover } = self;
        Ok(Kept {
            recording: recorder.finish()?,
            cover,
        })
    }
}

impl Taker<Watched<StruckWorld>> for Both<'_> {
    ghost use Rattle.std.specs.Prelude.{[]};
    ghost use Rattle.ps_bench_report.specs.Recorder.{recorder_takes};
    ghost use Rattle.ps_bench_report.specs.Taking.{cover_takes};
    ghost use Rattle.ps_cover.specs.Covers.{IsCoverFor};

    ghost fits = { λ net t. IsCoverFor net t.cover };

    ghost said = { λ _ _ _ _. [] };

    ghost takes = { λ net old p o new. recorder_takes net old.recorder p o new.recorder
        × cover_takes net old.cover p o new.cover };

    fn take_scan<S: Sink>(
        &mut self,
        app: &App,
        now: u32,
        verdict: Verdict,
        report: &Report,
        performer: &Watched<StruckWorld>,
        _out: &mut S,
    ) -> Result<(), Stopped> {
        let before = performer.evaluator.signals_before();
        let behind = performer.evaluator.signals();
        let seen = Seen {
            now,
            verdict,
            report,
            before,
            signals: behind,
        };
        self.recorder.take(app, &seen);
        let signals = Signals { before, behind };
        self.cover.take(app, now, &signals);
        Ok(())
    }

    fn take_restart<S: Sink>(
        &mut self,
        app: &App,
        _performer: &Watched<StruckWorld>,
        _out: &mut S,
    ) -> Result<(), Stopped> {
        self.recorder.take_restart();
        self.cover.begin_anew(app);
        Ok(())
    }
}

// An output of which nothing is kept, for a taker that writes nothing.
#[derive(Drop)]
struct Nothing {}

impl Sink for Nothing {
    ghost use Rattle.std.specs.Prelude.{[], false};

    ghost tells = { λ _. false };

    ghost taken = { λ _. [] };

    ghost faults = { λ _. 0 };

    fn write(&mut self, piece: &[u8]) -> Result<usize, Failed> {
        Ok(piece.len())
    }
}

/// Does the items of a trace that are left, and records their scans, and what they show.
///
/// `Refused` comes where a line of the trace is refused, and `Unread` where a read of the trace's file failed.
pub(crate) fn record_items<F: Files>(
    app: &App,
    trace: &mut TraceReader,
    runner: &mut Runner<Watched<StruckWorld>, Both<'_>>,
    files: &mut F,
) -> Result<(), Cut>
    requires fits { Fits (IsWatchedFor IsStruckWorldFor app.now) (λ t. IsCoverFor app.now t.cover) app.now runner.old }
    requires due { runner.old.performer.performer.world.state.last ≤ last_of trace.old }
    requires inputs { input_count_of trace.old ≡ input_count app.now }
    // Where all was done, what was recorded is the run that the items mean.
    ensures records { IsTrue (F.tells files.old) → (text : List ℕ) →
        F.held files.old (file_of trace.old) ≡ Some text → IsReadingTrace trace.old text →
        (names : List NameOf) → IsBegun app.now names runner.old.performer runner.old.taker.recorder →
        (ws : List State) → Meaning app.now (items_left trace.old text).items ws →
        OnOk result (HasRecorded app.now names
        (made_of app.now runner.old.performer.performer (items_left trace.old text).items ws) runner.new.taker.recorder) }
    // Where all was done, what was shown is known by the cover.
    ensures covers { IsTrue (F.tells files.old) → (text : List ℕ) →
        F.held files.old (file_of trace.old) ≡ Some text → IsReadingTrace trace.old text →
        StandsAt app.now nothing runner.old.performer.evaluator → IsAt app.now nothing runner.old.taker.cover →
        (ws : List State) → Meaning app.now (items_left trace.old text).items ws →
        OnOk result (Knows app.now (scans_of app.now nothing (items_left trace.old text).items ws)
        runner.old.taker.cover runner.new.taker.cover) }
    // A refusal is that of the trace.
    ensures refuses { IsTrue (F.tells files.old) → (text : List ℕ) →
        F.held files.old (file_of trace.old) ≡ Some text → IsReadingTrace trace.old text →
        (refusal : RefusalOf) → result ≡ Err (Cut.Refused refusal) →
        (items_left trace.old text).end ≡ refused refusal }
    // It stops for nothing else but a failed read.
    ensures failures { TellsFailures (file_of trace.old) (F.faults files.old) (F.faults files.new) 0 0 result }
{
    app.sound();
    do_items(app, trace, runner, files, &mut Nothing {})
}
