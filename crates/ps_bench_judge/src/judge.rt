// Whether the expectations of a case hold, scan by scan.

ghost use Rattle.std.specs.Prelude.{◌≡◌, ◌≤◌, ◌&&◌, ◌∷◌, [], ℕ, Bool, List, OnOk, IfOk};
ghost use Rattle.std.specs.List.{list_all};
ghost use Rattle.ps_model.specs.Network.{Network};
ghost use Rattle.ps_bench_judge.specs.Holding as holding;
ghost use Rattle.ps_bench_judge.specs.Holding.{AreFrom, Event, expects, failures, moments, no_scan, scanned, sudden_failure};
ghost use Rattle.ps_bench_judge.specs.Moments.{Moment, moment_of};
ghost use Rattle.ps_bench_judge.specs.Owing.{open_pass, outcome_left, owed, passes, sudden_left};

use crate::checks::{Failure, Why};
use crate::watch::{Outcome, Watch, begun};
use crate::{Seen, is_trip};
use ps_base::Memory;
use ps_bench_cases::{Check, Expectation, Window};
use ps_model::App;
use std::alloc::Global;

/// What judges a case: it is shown each scan and each expectation in their order, and tells the failures. It keeps no
/// scans, and looks at those expectations alone whose windows are open.
///
/// Contracts say of it, by `owed`, what it still owes: for each test of failures, whether all pass that it told, and
/// all that are yet to come of the events that are left. A call keeps this, so in the end it has told just the failures
/// that `failures` gives.
pub struct Judge<'a> {
    // the expectations whose windows are open
    pub(crate) watches: Vec<Watch<'a>>,
    // room for those that stay so
    pub(crate) spare: Vec<Watch<'a>>,
    // the failures that were told
    pub(crate) told: Vec<Failure>,
    // trips are expected before this time in ms
    pub(crate) awaited: u64,
    // the last scan, where it tripped and nothing expected it so far
    pub(crate) sudden: Option<Failure>,
}

impl<'a> Drop for Judge<'a> {
    // One call for whoever owns one, in place of a walk through all that it holds.
    fn drop(self) {
        let Judge {
            watches: _,
            spare: _,
            told: _,
            awaited: _,
            sudden: _,
        } = self;
    }
}

// Whether one of the checks is `trip`.
fn expects_trip(checks: &[Check]) -> bool
    ensures { result ≡ holding.expects_trip checks.now }
{
    checks.iter().any(|check| matches!(check, Check::Trip))
}

// Before which time trips are expected, by a window with `trip` of a scan at this time.
fn awaited(window: Window, now: u32, before: u64) -> u64
    ensures { result ≡ holding.awaited window now before }
{
    match window {
        Window::Now => before,
        Window::Within(duration) | Window::For(duration) => {
            before.max(now as u64 + duration as u64 + 1)
        }
    }
}

// The failure of a scan that trips, where no window with `trip` is open.
fn sudden_in(awaited: u64, line: u32, seen: &Seen<'_>) -> Option<Failure>
    ensures { (events : List Event) → sudden_left result events ≡ sudden_failure awaited line (moment_of seen.entry.now) events }
{
    if is_trip(seen.verdict) && awaited <= seen.now as u64 {
        Some(Failure {
            line,
            now: seen.now,
            why: Why::Tripped,
        })
    } else {
        None
    }
}

// Tells a failure, if there is one.
fn tell(told: &mut Vec<Failure>, failure: Option<Failure>) -> Result<(), Memory>
    ensures { OnOk result ((p : Failure → Bool) → list_all p told.new.items ≡ (list_all p told.old.items && passes p failure)) }
{
    if let Some(failure) = failure {
        told.push(failure)?;
    }
    Ok(())
}

// What a scan made of an expectation: it stays open, or a failure is told, or neither.
fn put<'a>(
    outcome: Outcome<'a>,
    watches: &mut Vec<Watch<'a>>,
    told: &mut Vec<Failure>,
) -> Result<(), Memory>
    ensures { OnOk result ((net : Network) (p : Failure → Bool) (t : ℕ) (ms : List Moment) →
        (list_all p told.new.items && open_pass net p watches.new.items t ms)
        ≡ ((list_all p told.old.items && open_pass net p watches.old.items t ms) && passes p (outcome_left net outcome.entry t ms))) }
{
    match outcome {
        Outcome::Open(watch) => watches.push(watch)?,
        Outcome::Met => (),
        Outcome::Failed(failure) => told.push(failure)?,
    }
    Ok(())
}

// What a scan makes of the open expectations: those that stay open are put into `kept`.
fn sift<'a>(
    app: &App,
    seen: &Seen<'_>,
    watches: &[Watch<'a>],
    kept: &mut Vec<Watch<'a>>,
    told: &mut Vec<Failure>,
) -> Result<(), Memory>
    ensures { OnOk result ((p : Failure → Bool) (t : ℕ) (ms : List Moment) → AreFrom seen.entry.now.now ms →
        (list_all p told.new.items && open_pass app.now p kept.new.items seen.entry.now.now ms)
        ≡ ((list_all p told.old.items && open_pass app.now p kept.old.items seen.entry.now.now ms)
        && open_pass app.now p watches.now t (moment_of seen.entry.now ∷ ms))) }
{
    for watch in watches {
        put(watch.see(app, seen), kept, told)?;
    }
    Ok(())
}

// Tells the failures of open expectations where the case ends with a scan at this time.
fn tell_ended(watches: &[Watch<'_>], now: u32, told: &mut Vec<Failure>) -> Result<(), Memory>
    ensures { OnOk result ((net : Network) (p : Failure → Bool) →
        list_all p told.new.items ≡ (list_all p told.old.items && open_pass net p watches.now now [])) }
{
    for watch in watches {
        tell(told, watch.end(now))?;
    }
    Ok(())
}

impl<'a> Judge<'a> {
    /// What judges a case, before its first scan. It takes no memory.
    pub fn new(alloc: Global) -> Judge<'a>
        ensures { (net : Network) (p : Failure → Bool) (events : List Event) →
            owed net p result (no_scan net) events ≡ list_all p (failures net events) }
    {
        Judge {
            watches: Vec::new(alloc),
            spare: Vec::new(alloc),
            told: Vec::new(alloc),
            awaited: 0,
            sudden: None,
        }
    }

    /// Shows it the next scan, with the line that made it. An error means out of memory.
    pub fn scan(&mut self, app: &App, line: u32, seen: &Seen<'_>) -> Result<(), Memory>
        ensures { OnOk result ((p : Failure → Bool) (m : Moment) (events : List Event) →
            AreFrom seen.entry.now.now (moments events) →
            owed app.now p self.old m (scanned line (moment_of seen.entry.now) ∷ events)
            ≡ owed app.now p self.new (moment_of seen.entry.now) events) }
    {
        tell(&mut self.told, self.sudden)?;
        self.spare.clear();
        sift(
            app,
            seen,
            self.watches.as_slice(),
            &mut self.spare,
            &mut self.told,
        )?;
        std::mem::swap(&mut self.watches, &mut self.spare);
        self.sudden = sudden_in(self.awaited, line, seen);
        Ok(())
    }

    /// Shows it a line that expects something of the scan before it. An error means out of memory.
    pub fn expect(
        &mut self,
        app: &App,
        line: u32,
        expectation: &'a Expectation,
        seen: &Seen<'_>,
    ) -> Result<(), Memory>
        ensures { OnOk result ((p : Failure → Bool) (events : List Event) →
            AreFrom seen.entry.now.now (moments events) →
            owed app.now p self.old (moment_of seen.entry.now)
            (expects line expectation.now.window expectation.now.checks ∷ events)
            ≡ owed app.now p self.new (moment_of seen.entry.now) events) }
    {
        let checks = expectation.checks.as_slice();
        if expects_trip(checks) {
            self.sudden = None;
            self.awaited = awaited(expectation.window, seen.now, self.awaited);
        }
        let outcome = begun(app, line, expectation.window, checks, seen);
        put(outcome, &mut self.watches, &mut self.told)
    }

    /// Ends the case, whose last scan was at this time, and gives its failures. An error means out of memory.
    pub fn finish(&mut self, alloc: Global, now: u32) -> Result<Vec<Failure>, Memory>
        ensures { IfOk result (λ told. (net : Network) (p : Failure → Bool) (m : Moment) → m.now ≡ now →
            owed net p self.old m [] ≡ list_all p told.items) }
    {
        tell(&mut self.told, self.sudden)?;
        tell_ended(self.watches.as_slice(), now, &mut self.told)?;
        Ok(std::mem::replace(&mut self.told, Vec::new(alloc)))
    }
}
