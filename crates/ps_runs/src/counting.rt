//! What counts the scans of a run, in the place of what writes them.

ghost use Rattle.std.specs.Prelude.{◌≡◌, []};
ghost use Rattle.ps_report.specs.Short.{load_text};
ghost use Rattle.ps_runs.specs.Counting.{counted, counted_report, none_counted, true_errors, true_outputs};

use crate::striking::StruckWorld;
use crate::taking::Taker;
use ps_model::{App, Report, Verdict};
use ps_outside::{Sink, Stopped};
use ps_report::{ShortLine, load_line};

/// How many scans were released, and how many outputs and Errors of their reports are TRUE. Each count stays at its
/// largest value.
#[derive(Drop)]
pub struct Counter {
    /// How many scans were released.
    pub scans: u64,
    /// How many outputs are TRUE in their reports.
    pub trues: u64,
    /// How many instances have Error in their reports.
    pub errors: u64,
}

// How many outputs of a report are TRUE.
fn count_outputs(report: &Report) -> u64
    ensures { result ≡ true_outputs report.now }
{
    let mut count = 0;
    'outputs: for i in 0..report.outs.len() {
        if report.outs.at(i) {
            count += 1;
        }
    }
    count
}

// How many instances of a report have Error.
fn count_errors(report: &Report) -> u64
    ensures { result ≡ true_errors report.now }
{
    let mut count = 0;
    'instances: for i in 0..report.diags.len() {
        if report.diags.at(i).error {
            count += 1;
        }
    }
    count
}

impl Counter {
    /// Nothing was counted so far.
    pub fn new() -> Counter
        ensures { result ≡ none_counted }
    {
        Counter {
            scans: 0,
            trues: 0,
            errors: 0,
        }
    }

    // Counts a report that was released.
    fn count(&mut self, report: &Report)
        ensures { self.new ≡ counted_report self.old report.now }
    {
        self.scans = self.scans.saturating_add(1);
        self.trues = self.trues.saturating_add(count_outputs(report));
        self.errors = self.errors.saturating_add(count_errors(report));
    }

    /// The summary of a load of this number.
    pub fn summary(&self, number: u32) -> ShortLine
        ensures { result ≡ load_text number self.now.scans self.now.trues self.now.errors }
    {
        load_line(number, self.scans, self.trues, self.errors)
    }
}

/// The scans of two channels: each report that is released is counted, and nothing is written.
impl Taker<StruckWorld> for Counter {
    ghost fits = { λ _ _. Unit {0} };

    ghost said = { λ _ _ _ _. [] };

    ghost takes = { λ _ old _ outcome new. new ≡ counted old outcome };

    fn take_scan<S: Sink>(
        &mut self,
        _app: &App,
        _now: u32,
        verdict: Verdict,
        report: &Report,
        _performer: &StruckWorld,
        _out: &mut S,
    ) -> Result<(), Stopped> {
        if verdict == Verdict::Released {
            self.count(report);
        }
        Ok(())
    }

    fn take_restart<S: Sink>(
        &mut self,
        _app: &App,
        _performer: &StruckWorld,
        _out: &mut S,
    ) -> Result<(), Stopped> {
        Ok(())
    }
}
