// How many points were shown.

ghost use Rattle.std.specs.Prelude.{◌≡◌, ◌≤◌, if◌then◌else◌, slice_get};
ghost use Rattle.ps_cover.specs.Covering.{point_of};
ghost use Rattle.ps_cover.specs.Tallying.{called_kind, counts, excluded_in, has_status, is_in, is_of, is_way_mark};
ghost use Rattle.ps_cover.specs.Tallying.{percent, percent_of, seen_with, shown_at, tally};

use crate::cover::Cover;
use crate::excluding::Exclusions;
use crate::is_missed;
use crate::point::Point;
use ps_machine::bit_at;
use ps_model::{App, Kind, Step};
use ps_ways::ways;

/// What is counted.
#[derive(Clone, Copy)]
pub enum Sort {
    /// The states beside Idle that a block entered.
    States,
    /// The ways that a block took: the guards of its states.
    Ways,
    /// The inputs, outputs and locals that had both values.
    Values,
    /// The operands that decided with both values.
    Decisions,
}

/// What became of a point.
#[derive(Clone, Copy)]
pub enum Status {
    /// It was shown, with both values, and is not excluded.
    Covered,
    /// It was not shown, and is not excluded.
    Missed,
    /// No run of the block alone shows it.
    Excluded,
    /// It is not excluded, and was shown or not.
    Counted,
}

/// The kind of the block that a step calls; of a step that calls none it is of no meaning.
pub fn called_kind(app: &App, k: u16) -> Kind
    ensures { result ≡ called_kind app.now (slice_get app.now.steps k) }
{
    app.sound();
    if k >= app.step_count() {
        return Kind::Equivalent;
    }
    match app.step(k) {
        Step::Call { instance, .. } => app.instance_kind(*instance),
        Step::Assign { .. } => Kind::Equivalent,
    }
}

// Whether a mark is a way that is taken, and no state that is entered.
fn is_way_mark(app: &App, k: u16, mark: usize) -> bool
    ensures { result ≡ is_way_mark app.now k mark }
{
    mark < ways(called_kind(app, k)).len()
}

// Whether a point is of a sort.
fn is_of(app: &App, sort: Sort, point: &Point<'_>) -> bool
    ensures { result ≡ is_of app.now sort (point_of point.entry.now) }
{
    match (sort, point) {
        (Sort::States, Point::Mark { step, mark }) => !is_way_mark(app, *step, *mark),
        (Sort::Ways, Point::Mark { step, mark }) => is_way_mark(app, *step, *mark),
        (Sort::Values, Point::Value { .. }) => true,
        (Sort::Decisions, Point::Decides(_)) => true,
        _ => false,
    }
}

// Whether a point is of a step, where one is asked for.
fn is_in(step: Option<u16>, point: &Point<'_>) -> bool
    ensures { result ≡ is_in step (point_of point.entry.now) }
{
    match (step, point) {
        (None, _) => true,
        (Some(k), Point::Mark { step, .. }) => *step == k,
        (Some(_), Point::Value { .. }) => false,
        (Some(k), Point::Decides(decision)) => decision.step == k,
    }
}

// Whether a point is a mark that is excluded.
fn is_excluded(exclusions: &Exclusions, point: &Point<'_>) -> bool
    ensures { result ≡ excluded_in exclusions.now.rows.items (point_of point.entry.now) }
{
    match point {
        Point::Mark { step, mark } => exclusions.is_excluded(*step, *mark),
        Point::Value { .. } | Point::Decides(_) => false,
    }
}

// Whether a point that is or is not excluded, and was or was not shown, has a status.
fn has_status(status: Status, excluded: bool, shown: bool) -> bool
    ensures { result ≡ has_status status excluded shown }
{
    match status {
        Status::Excluded => excluded,
        Status::Covered => !excluded && shown,
        Status::Missed => is_missed(excluded, shown),
        Status::Counted => !excluded,
    }
}

// One where it is so, and else nothing.
fn one_if(is: bool) -> usize
    ensures { result ≡ (if is then 1 else 0) }
{
    if is { 1 } else { 0 }
}

/// A part of a whole in percent, rounded down, and 100 where the whole is nothing.
pub fn percent(covered: usize, all: usize) -> u8
    requires { covered ≤ all }
    ensures { result ≡ percent covered all }
{
    if all == 0 {
        return 100;
    }
    (100 * covered as u128 / all as u128) as u8
}

impl Cover<'_> {
    /// All that scans may show, in the order of their numbers.
    pub fn points(&self) -> &[Point<'_>]
        ensures { result.now ≡ self.now.points.items }
    {
        self.points.as_slice()
    }

    /// Whether the point with a number was shown with both values; FALSE past the last one.
    pub fn is_shown_at(&self, n: usize) -> bool
        ensures { result ≡ shown_at self.now n }
    {
        bit_at(self.off.as_slice(), n) && bit_at(self.on.as_slice(), n)
    }

    /// Whether the point with a number was shown with a value; FALSE past the last one.
    pub fn is_seen_at(&self, n: usize, value: bool) -> bool
        ensures { result ≡ seen_with self.now value n }
    {
        if value {
            bit_at(self.on.as_slice(), n)
        } else {
            bit_at(self.off.as_slice(), n)
        }
    }
}

// Whether a point is of a sort and a step, and has a status.
fn counts(
    app: &App,
    exclusions: &Exclusions,
    sort: Sort,
    step: Option<u16>,
    status: Status,
    shown: bool,
    point: &Point<'_>,
) -> bool
    ensures { result ≡ counts app.now exclusions.now.rows.items sort step status (point_of point.entry.now) shown }
{
    is_of(app, sort, point)
        && is_in(step, point)
        && has_status(status, is_excluded(exclusions, point), shown)
}

/// How many points of a sort have a status: those of a step, or of all.
pub fn tally(
    app: &App,
    cover: &Cover<'_>,
    exclusions: &Exclusions,
    sort: Sort,
    step: Option<u16>,
    status: Status,
) -> usize
    ensures { result ≡ tally app.now exclusions.now.rows.items cover.entry.now sort step status }
{
    let mut count = 0;
    let points = cover.points.as_slice();
    for n in 0..points.len() {
        let shown = cover.is_shown_at(n);
        count += one_if(counts(app, exclusions, sort, step, status, shown, &points[n]));
    }
    count
}

/// How many of the points of a sort that are not excluded were shown, in percent, rounded down, and 100 where there are
/// none.
pub fn percent_of(app: &App, cover: &Cover<'_>, exclusions: &Exclusions, sort: Sort) -> u8
    ensures { result ≡ percent_of app.now exclusions.now.rows.items cover.entry.now sort }
{
    let covered = tally(app, cover, exclusions, sort, None, Status::Covered);
    let all = tally(app, cover, exclusions, sort, None, Status::Counted);
    percent(covered, all)
}
