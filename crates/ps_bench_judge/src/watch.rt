// An expectation whose window is open.

ghost use Rattle.std.specs.Prelude.{◌≡◌, ◌+◌, ◌∷◌, [], ℕ, List};
ghost use Rattle.ps_model.specs.Network.{Network};
ghost use Rattle.ps_bench_judge.specs.Holding.{AreFrom, ended, failure_of, for_failure, within_failure};
ghost use Rattle.ps_bench_judge.specs.Moments.{Moment, moment_of};
ghost use Rattle.ps_bench_judge.specs.Owing.{left, left_by, outcome_left};

use crate::Seen;
use crate::checks::{Failure, Why, failure_in};
use ps_bench_cases::{Check, Window};
use ps_model::App;

// In which scans of a window the checks are to hold.
#[derive(Clone, Copy)]
pub(crate) enum Way {
    // In one of them: the failure by the last one that was seen.
    Within(Option<Failure>),
    // In each of them.
    For,
}

// An expectation whose window is open.
#[derive(Clone, Copy)]
pub(crate) struct Watch<'a> {
    // its line
    pub(crate) line: u32,
    // the last time in ms that belongs to its window
    pub(crate) end: u64,
    // what is to hold
    pub(crate) checks: &'a [Check],
    // in which scans
    pub(crate) way: Way,
}

// What a scan makes of an expectation.
#[derive(Clone, Copy)]
pub(crate) enum Outcome<'a> {
    // It stays open.
    Open(Watch<'a>),
    // It holds.
    Met,
    // It does not.
    Failed(Failure),
}

// The failure of an expectation of a line where the case ends before its window does.
fn ended(line: u32, now: u32) -> Failure
    ensures { result ≡ ended line now }
{
    Failure {
        line,
        now,
        why: Why::Ended,
    }
}

impl<'a> Watch<'a> {
    // The same expectation, looked at in this way.
    fn going_on(&self, way: Way) -> Watch<'a>
        ensures { result ≡ record self.now { way = way } }
    {
        Watch {
            line: self.line,
            end: self.end,
            checks: self.checks,
            way,
        }
    }

    // What the next scan makes of it, where checks are to hold in each scan.
    fn see_each(&self, app: &App, seen: &Seen<'_>) -> Outcome<'a>
        ensures { (t : ℕ) (ms : List Moment) → AreFrom seen.entry.now.now ms →
            for_failure app.now self.now.line self.now.end self.now.checks.now t (moment_of seen.entry.now ∷ ms) ≡ outcome_left app.now result seen.entry.now.now ms }
    {
        if seen.now as u64 > self.end {
            return Outcome::Met;
        }
        match failure_in(app, self.line, self.checks, seen) {
            Some(failure) => Outcome::Failed(failure),
            None => Outcome::Open(self.going_on(Way::For)),
        }
    }

    // What the next scan makes of it, where checks are to hold in one scan, and in the last one was this failure.
    fn see_one(&self, latest: Option<Failure>, app: &App, seen: &Seen<'_>) -> Outcome<'a>
        ensures { (t : ℕ) (ms : List Moment) → AreFrom seen.entry.now.now ms →
            within_failure app.now self.now.line self.now.end self.now.checks.now latest t (moment_of seen.entry.now ∷ ms) ≡ outcome_left app.now result seen.entry.now.now ms }
    {
        if self.end < seen.now as u64 {
            return match latest {
                Some(failure) => Outcome::Failed(failure),
                None => Outcome::Met,
            };
        }
        match failure_in(app, self.line, self.checks, seen) {
            Some(failure) => Outcome::Open(self.going_on(Way::Within(Some(failure)))),
            None => Outcome::Met,
        }
    }

    // What the next scan makes of it.
    pub(crate) fn see(&self, app: &App, seen: &Seen<'_>) -> Outcome<'a>
        ensures { (t : ℕ) (ms : List Moment) → AreFrom seen.entry.now.now ms →
            left app.now self.now t (moment_of seen.entry.now ∷ ms) ≡ outcome_left app.now result seen.entry.now.now ms }
    {
        match self.way {
            Way::For => self.see_each(app, seen),
            Way::Within(latest) => self.see_one(latest, app, seen),
        }
    }

    // Its failure where the case ends with a scan at this time, if it does not hold.
    pub(crate) fn end(&self, now: u32) -> Option<Failure>
        ensures { (net : Network) → result ≡ left net self.now now [] }
    {
        if self.end > now as u64 {
            return Some(ended(self.line, now));
        }
        match self.way {
            Way::For => None,
            Way::Within(latest) => latest,
        }
    }
}

// An expectation of a line with a window of so many ms that is looked at in this way, as it is after the scan before
// the line: the first one of its window.
fn opened<'a>(
    app: &App,
    line: u32,
    duration: u32,
    checks: &'a [Check],
    way: Way,
    seen: &Seen<'_>,
) -> Outcome<'a>
    ensures { (t : ℕ) (ms : List Moment) → AreFrom seen.entry.now.now ms →
        left_by app.now line (seen.entry.now.now + duration) checks.now way t (moment_of seen.entry.now ∷ ms) ≡ outcome_left app.now result seen.entry.now.now ms }
{
    let watch = Watch {
        line,
        end: seen.now as u64 + duration as u64,
        checks,
        way,
    };
    watch.see(app, seen)
}

// An expectation of a line as it is after the scan before the line.
pub(crate) fn begun<'a>(
    app: &App,
    line: u32,
    window: Window,
    checks: &'a [Check],
    seen: &Seen<'_>,
) -> Outcome<'a>
    ensures { (ms : List Moment) → AreFrom seen.entry.now.now ms →
        failure_of app.now line window checks.now (moment_of seen.entry.now) ms ≡ outcome_left app.now result seen.entry.now.now ms }
{
    match window {
        Window::Now => match failure_in(app, line, checks, seen) {
            Some(failure) => Outcome::Failed(failure),
            None => Outcome::Met,
        },
        Window::Within(duration) => opened(app, line, duration, checks, Way::Within(None), seen),
        Window::For(duration) => opened(app, line, duration, checks, Way::For, seen),
    }
}
