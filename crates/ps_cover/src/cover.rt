// What a set of traces has shown so far.

ghost use Rattle.std.specs.Prelude.{◌≡◌, ◌<◌, ◌||◌, ℕ, IfOk, false, length, map, replicate, slice_index_or};
ghost use Rattle.ps_model.specs.Meaning.{nothing};
ghost use Rattle.ps_cover.specs.Covering.{AreCalls, point_of};
ghost use Rattle.ps_cover.specs.Listing.{points_of};
ghost use Rattle.ps_cover.specs.Covers.{BeginsAnew, IsAt, IsCoverFor, Joins, StandsFor, TakesScan};

use crate::Clock;
use crate::block::{Called, begin_calls, scan_calls};
use crate::listing::{push_steps, push_values};
use crate::point::{Point, look};
use ps_base::Memory;
use ps_machine::{Signals, bit_at};
use ps_model::App;
use std::alloc::Global;

/// What the scans so far have shown of an application: of each point whether one of them showed it.
///
/// No scan takes memory. Several traces are taken one after another, with
/// `begin_anew` between them, or each apart, and joined.
pub struct Cover<'a> {
    // each step of the application, with the block that it calls
    pub(crate) calls: Vec<Called>,
    // what a scan may show
    pub(crate) points: Vec<Point<'a>>,
    // for each point whether a scan showed it with FALSE
    pub(crate) off: Vec<bool>,
    // and with TRUE
    pub(crate) on: Vec<bool>,
    // when the last scan was
    pub(crate) clock: Clock,
}

impl<'a> Drop for Cover<'a> {
    // One call for whoever owns one, in place of a walk through all that it holds.
    fn drop(self) {
        let Cover {
            calls: _,
            points: _,
            off: _,
            on: _,
            clock: _,
        } = self;
    }
}

// Each step of an application, with its block before the first scan.
fn first_calls(alloc: Global, app: &App) -> Result<Vec<Called>, Memory>
    ensures calls { IfOk result (λ calls. AreCalls app.now calls.items) }
    ensures stands { IfOk result (λ calls. StandsFor app.now nothing calls.items) }
{
    let mut calls = Vec::with_capacity(alloc, app.step_count() as usize)?;
    for k in 0..app.step_count() {
        calls.push(Called::idle(k))?;
    }
    Ok(calls)
}

// All that scans of an application may show.
fn all_points(alloc: Global, app: &App) -> Result<Vec<Point<'_>>, Memory>
    ensures { IfOk result (λ points. map point_of points.items ≡ points_of app.now) }
{
    let mut points = Vec::new(alloc);
    push_values(app, &mut points)?;
    push_steps(app, &mut points)?;
    Ok(points)
}

// Adds to what is known of each place of a list what is known of it in another one.
fn join_bits(bits: &mut [bool], others: &[bool])
    ensures each { length bits.new ≡ length bits.old }
    ensures joined { (n : ℕ) → n < length bits.old → slice_index_or bits.new n false
        ≡ (slice_index_or bits.old n false || slice_index_or others.now n false) }
{
    for n in 0..bits.len() {
        bits[n] = bits[n] || bit_at(others, n);
    }
}

// For each point that it was not shown.
fn none_shown(alloc: Global, points: &[Point<'_>]) -> Result<Vec<bool>, Memory>
    ensures { IfOk result (λ seen. seen.items ≡ replicate (length points.now) false) }
{
    Ok(vec![in alloc; false; points.len()]?)
}

impl<'a> Cover<'a> {
    /// Nothing was shown so far. It takes all memory that its scans will use.
    pub fn new(alloc: Global, app: &'a App) -> Result<Cover<'a>, Memory>
        ensures first { IfOk result (IsAt app.now nothing) }
        ensures points { IfOk result (λ c. map point_of c.points.items ≡ points_of app.now) }
        ensures none_off { IfOk result (λ c. c.off.items ≡ replicate (length c.points.items) false) }
        ensures none_on { IfOk result (λ c. c.on.items ≡ replicate (length c.points.items) false) }
    {
        let points = all_points(alloc, app)?;
        let off = none_shown(alloc, points.as_slice())?;
        let on = none_shown(alloc, points.as_slice())?;
        Ok(Cover {
            calls: first_calls(alloc, app)?,
            points,
            off,
            on,
            clock: Clock { last: None },
        })
    }
}

impl Cover<'_> {
    /// Takes a scan at a time in ms, of which these are the signals before it and after it.
    pub fn take(&mut self, app: &App, now: u32, signals: &Signals<'_>)
        requires { IsCoverFor app.now self.old }
        ensures takes { TakesScan app.now self.old now signals.entry.now self.new }
        ensures fits { IsCoverFor app.now self.new }
    {
        let passed = self.clock.passed(now);
        scan_calls(app, signals, passed, self.calls.as_mut_slice());
        let calls = self.calls.as_slice();
        let points = self.points.as_slice();
        look(app, calls, signals, false, points, self.off.as_mut_slice());
        look(app, calls, signals, true, points, self.on.as_mut_slice());
        self.clock.last = Some(now);
    }

    /// Begins anew, as before the first scan. What was shown stays.
    pub fn begin_anew(&mut self, app: &App)
        requires { IsCoverFor app.now self.old }
        ensures anew { BeginsAnew self.old self.new }
        ensures fits { IsCoverFor app.now self.new }
    {
        begin_calls(app, self.calls.as_mut_slice());
        self.clock.begin_anew();
    }

    /// Adds what other scans of the same application have shown.
    pub fn join(&mut self, other: &Cover<'_>)
        ensures { Joins self.old other.entry.now self.new }
    {
        join_bits(self.off.as_mut_slice(), other.off.as_slice());
        join_bits(self.on.as_mut_slice(), other.on.as_slice());
    }
}
