// A case that was run, and how many were told.

ghost use Rattle.std.specs.Prelude.{◌≡◌};
ghost use Rattle.ps_bench_test.specs.Outcome.{counted, none_told, passes, ran_of};

use ps_bench_cases::{Case, CaseFile};
use ps_bench_judge::{CaseOutcome, failed_behind, has_passed};
use ps_model::App;

/// A case that was run: what is told of it.
#[derive(Clone, Copy)]
pub struct CaseRun<'a> {
    /// The application that it ran on.
    pub app: &'a App,
    /// The name of the application.
    pub app_name: &'a str,
    /// The name of its file.
    pub name: &'a str,
    /// What its file says.
    pub file: &'a CaseFile,
    /// The case.
    pub case: &'a Case,
    /// What came of it: its failures in the order of their lines.
    pub outcome: &'a CaseOutcome,
}

impl<'a> CaseRun<'a> {
    /// Whether the case passed.
    pub fn passed(&self) -> bool
        ensures { result ≡ passes (ran_of self.now).outcome }
    {
        has_passed(self.outcome.failures.as_slice().len())
    }
}

/// How many cases were told, and how many of them failed. Both counts stay at their largest value.
#[derive(Clone, Copy)]
pub struct Tally {
    /// How many cases were told.
    pub cases: u64,
    /// How many of them failed.
    pub failed: u64,
}

impl Tally {
    /// No case was told yet.
    pub fn none() -> Tally
        ensures { result ≡ none_told }
    {
        Tally {
            cases: 0,
            failed: 0,
        }
    }

    /// One more case was told, which passed or failed.
    pub fn and(self, passed: bool) -> Tally
        ensures { result ≡ counted self passed }
    {
        Tally {
            cases: self.cases.saturating_add(1),
            failed: failed_behind(self.failed, passed),
        }
    }
}
