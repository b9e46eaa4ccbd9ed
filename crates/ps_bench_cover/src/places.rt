// The place of each point of an application.

ghost use Rattle.std.specs.Prelude.{◌≡◌, IfOk, drop, map};
ghost use Rattle.ps_cover.specs.Covering.{point_of};
ghost use Rattle.ps_cover.specs.Listing.{points_of};
ghost use Rattle.ps_bench_cover.specs.Standing.{left_behind, next_place, placed, places_of};

use crate::listing::push_source;
use ps_base::{Memory, Place};
use ps_cover::Point;
use ps_model::App;
use ps_parser::Source;
use std::alloc::Global;

// What stands nowhere.
const NOWHERE: Place = Place { line: 0, column: 0 };

// The place of a point, where the places of decisions from this number on are left.
fn place_at(found: &[Place], next: usize, point: &Point<'_>) -> Place
    ensures { result ≡ next_place (point_of point.entry.now) (drop next found.now) }
{
    match point {
        Point::Decides(_) if next < found.len() => found[next],
        _ => NOWHERE,
    }
}

// The number from which on the places of decisions are left after a point.
fn next_behind(found: &[Place], next: usize, point: &Point<'_>) -> usize
    ensures { drop result found.now ≡ left_behind (point_of point.entry.now) (drop next found.now) }
{
    match point {
        Point::Decides(_) if next < found.len() => next + 1,
        _ => next,
    }
}

// The places of points, where decisions have these, one after another.
fn place_all(alloc: Global, points: &[Point<'_>], found: &[Place]) -> Result<Vec<Place>, Memory>
    ensures { IfOk result (λ places. places.items ≡ placed (map point_of points.entry.now) found.now) }
{
    let mut places = Vec::with_capacity(alloc, points.len())?;
    let mut next = 0;
    for point in points {
        places.push(place_at(found, next, point))?;
        next = next_behind(found, next, point);
    }
    Ok(places)
}

/// For each of these points of an application the place of its operand in the source: where the operand's first name
/// stands. A point that is no decision stands nowhere, at line 0.
///
/// It takes time in proportion to the source.
pub fn operand_places(
    alloc: Global,
    app: &App,
    source: &Source,
    points: &[Point<'_>],
) -> Result<Vec<Place>, Memory>
    ensures { IfOk result (λ places. map point_of points.entry.now ≡ points_of app.now →
        places.items ≡ places_of app.now source.now) }
{
    let mut found = Vec::new(alloc);
    push_source(app, source, &mut found)?;
    let places = place_all(alloc, points, found.as_slice())?;
    Ok(places)
}
