// Whether the checks of an expectation hold in a scan, and which does not.

ghost use Rattle.std.specs.Prelude.{◌≡◌, ◌<◌, Some, None, IfSome, length, slice_get};
ghost use Rattle.ps_model.specs.Stored.{bit};
ghost use Rattle.ps_bench_judge.specs.Holding.{broken_in, check_holds, failure_in, is_among, shown};
ghost use Rattle.ps_bench_judge.specs.Moments.{moment_of};

use crate::{Seen, is_stopped, value_of};
use ps_bench_cases::Check;
use ps_model::App;

/// Why an expectation fails.
#[derive(Clone, Copy)]
pub enum Why {
    /// A check does not hold in the scan.
    Broken {
        /// The place of the first one that does not, counted from 0.
        check: usize,
        /// The value that is there: of a name as in a check, of a trip 1 where the scan tripped or is down.
        value: u16,
    },
    /// The case ends before the window does, and nothing was seen of the rest.
    Ended,
    /// The scan trips, and nothing expects it.
    Tripped,
}

/// A failure of a case.
#[derive(Clone, Copy)]
pub struct Failure {
    /// The line of the expectation, or of what made the scan that trips.
    pub line: u32,
    /// The time in ms, within the case, of the scan that decided.
    pub now: u32,
    /// Why it fails.
    pub why: Why,
}

// Whether a value is one of these.
fn is_among(values: &[u16], value: u16) -> bool
    ensures { result ≡ is_among values.now value }
{
    values.iter().any(|v| *v == value)
}

/// Whether a check holds in a scan.
pub fn holds(app: &App, check: &Check, seen: &Seen<'_>) -> bool
    ensures { result ≡ check_holds app.now (moment_of seen.entry.now) check.now }
{
    match check {
        Check::Trip => is_stopped(seen.verdict),
        Check::NoTrip => !is_stopped(seen.verdict),
        Check::Among { name, values } => is_among(values.as_slice(), value_of(app, *name, seen)),
        Check::Not { name, value } => value_of(app, *name, seen) != *value,
    }
}

/// The value in a scan that a check looks at: of a name its value, of a trip 1 where the scan tripped or is down.
pub fn value_shown(app: &App, check: &Check, seen: &Seen<'_>) -> u16
    ensures { result ≡ shown app.now (moment_of seen.entry.now) check.now }
{
    match check {
        Check::Trip | Check::NoTrip => { if is_stopped(seen.verdict) { 1 } else { 0 } }
        Check::Among { name, .. } | Check::Not { name, .. } => value_of(app, *name, seen),
    }
}

/// The place of the first check that does not hold in a scan, if one does not.
pub fn first_broken(app: &App, checks: &[Check], seen: &Seen<'_>) -> Option<usize>
    ensures place { result ≡ broken_in app.now checks.now (moment_of seen.entry.now) }
    ensures within { IfSome result (λ k. k < length checks.now) }
{
    checks.iter().position(|check| !holds(app, check, seen))
}

/// The failure of an expectation of a line by its checks in a scan, if one of them does not hold.
pub(crate) fn failure_in(app: &App, line: u32, checks: &[Check], seen: &Seen<'_>) -> Option<Failure>
    ensures { result ≡ failure_in app.now line checks.now (moment_of seen.entry.now) }
{
    let check = first_broken(app, checks, seen)?;
    Some(Failure {
        line,
        now: seen.now,
        why: Why::Broken {
            check,
            value: value_shown(app, &checks[check], seen),
        },
    })
}
