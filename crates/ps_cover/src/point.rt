// What a scan may show.

ghost use Rattle.std.specs.Prelude.{◌≡◌, ◌<◌, ◌||◌, length, slice_get};
ghost use Rattle.ps_cover.specs.Covering.{Looks, decides_in, leaves_in, makes_in, others_leave_in, shows_in};

use crate::block::{Called, makes};
use crate::{is_value, leaves_decision};
use ps_machine::{Signals, bit_at, read_value};
use ps_model::{App, Exprs, Step};

/// An operand of an AND or an OR.
#[derive(Clone, Copy)]
pub struct Decision<'a> {
    /// The number of the step in which it stands.
    pub step: u16,
    /// All operands.
    pub operands: &'a Exprs,
    /// Whether they are of an AND, and else of an OR.
    pub of_and: bool,
    /// The place of this one among them, from 0.
    pub place: usize,
}

/// What scans may show.
#[derive(Clone, Copy)]
pub enum Point<'a> {
    /// A call makes a mark: its block takes a way or enters a state.
    Mark {
        /// The number of the step that calls.
        step: u16,
        /// The number of the mark.
        mark: usize,
    },
    /// A signal has both values.
    Value {
        /// The number of the signal.
        signal: u16,
    },
    /// An operand decides with both values.
    Decides(Decision<'a>),
}

// Whether the operand at place j is the one at a place, or has the value that leaves the decision to that one.
fn leaves(app: &App, j: usize, decision: &Decision<'_>, signals: &Signals<'_>) -> bool
    requires { j < length decision.now.operands.now.items.items }
    ensures { result ≡ leaves_in app.now signals.entry.now decision.entry.now j }
{
    let value = read_value(app, decision.step, decision.operands.at(j), signals);
    leaves_decision(decision.of_and, decision.place, j, value)
}

// Whether all operands but the one at the place have the value that leaves the decision to it.
fn others_leave(app: &App, decision: &Decision<'_>, signals: &Signals<'_>) -> bool
    ensures { result ≡ others_leave_in app.now signals.entry.now decision.entry.now }
{
    for j in 0..decision.operands.len() {
        if !leaves(app, j, decision, signals) {
            return false;
        }
    }
    true
}

// Whether the operand at the place decides with a value.
fn decides(app: &App, decision: &Decision<'_>, signals: &Signals<'_>, value: bool) -> bool
    ensures { result ≡ decides_in app.now signals.entry.now value decision.entry.now }
{
    if decision.place >= decision.operands.len() {
        return false;
    }
    let itself = decision.operands.at(decision.place);
    is_value(value, read_value(app, decision.step, itself, signals))
        && others_leave(app, decision, signals)
}

// Whether the block of a call made a mark in the last scan.
fn made(app: &App, calls: &[Called], k: u16, mark: usize) -> bool
    ensures { result ≡ makes_in app.now (slice_get app.now.steps k) (slice_get calls.now k) mark }
{
    app.sound();
    if k >= app.step_count() || k as usize >= calls.len() {
        return false;
    }
    match app.step(k) {
        Step::Call { instance, .. } => {
            makes(app.instance_kind(*instance), &calls[k as usize].moved, mark)
        }
        Step::Assign { .. } => false,
    }
}

impl Point<'_> {
    // Whether a scan with these signals, after which the calls stand so, shows it with a value.
    fn is_shown(&self, app: &App, calls: &[Called], signals: &Signals<'_>, value: bool) -> bool
        ensures { result ≡ shows_in app.now signals.entry.now calls.now value self.entry.now }
    {
        match self {
            Point::Mark { step, mark } => made(app, calls, *step, *mark),
            Point::Value { signal } => is_value(value, bit_at(signals.behind, *signal as usize)),
            Point::Decides(decision) => decides(app, decision, signals, value),
        }
    }
}

// Whether a point was seen with a value before a scan, or is shown with it by the scan.
fn sees(
    app: &App,
    calls: &[Called],
    signals: &Signals<'_>,
    value: bool,
    point: &Point<'_>,
    was: bool,
) -> bool
    ensures { result ≡ (was || shows_in app.now signals.entry.now calls.now value point.entry.now) }
{
    was || point.is_shown(app, calls, signals, value)
}

/// Notes what a scan shows with a value, with these signals, and after which the calls stand so.
pub(crate) fn look(
    app: &App,
    calls: &[Called],
    signals: &Signals<'_>,
    value: bool,
    points: &[Point<'_>],
    seen: &mut [bool],
)
    requires { length seen.old ≡ length points.now }
    ensures { Looks app.now signals.entry.now calls.now value points.entry.now seen.old seen.new }
{
    for n in 0..points.len() {
        let was = seen[n];
        seen[n] = sees(app, calls, signals, value, &points[n], was);
    }
}
