// What a campaign can write of the latencies of a line.

ghost use Rattle.std.specs.Prelude.{◌≡◌, ◌<◌, min};
ghost use Rattle.ps_outside.specs.Outside.{last_count};
ghost use Rattle.ps_bench_trials.specs.Possible.{has_all, has_counts, has_largest, has_least, has_most, has_sums};
ghost use Rattle.ps_bench_trials.specs.Possible.{is_possible, most_of, weighed, weight_of};

use crate::line::column_of;
use crate::{FLOORS, Line};

// What a trip counts, by its column.
#[derive(Clone, Copy)]
enum Weight {
    // Once.
    Once,
    // The least latency of the column.
    Least,
    // The largest latency of the column, where none is above this one.
    Most(u32),
    // Once where the column is above this one.
    Above(usize),
}

// The largest latency of a column, where none is above this one.
fn most_of(largest: u32, column: usize) -> u32
    requires { column < 33 }
    ensures { result ≡ most_of largest column }
{
    if column < 32 {
        FLOORS[column + 1].saturating_sub(1).min(largest)
    } else {
        largest
    }
}

impl Weight {
    // What a trip of a column counts.
    fn of(self, column: usize) -> u64
        requires { column < 33 }
        ensures { result ≡ weight_of self column }
    {
        match self {
            Weight::Once => 1,
            Weight::Least => u64::from(FLOORS[column]),
            Weight::Most(largest) => u64::from(most_of(largest, column)),
            Weight::Above(highest) if highest < column => 1,
            Weight::Above(_) => 0,
        }
    }
}

// All trips of a table together, each with the weight of its column, up to the largest value.
fn weighed(table: &[u64; 33], weight: Weight) -> u64
    ensures { result ≡ min (weighed (weight_of weight) table.now) last_count }
{
    let mut sum = 0u64;
    for column in 0..33 {
        sum = sum.saturating_add(table[column].saturating_mul(weight.of(column)));
    }
    sum
}

// Whether the table has as many trips as were counted.
fn has_all(line: &Line) -> bool
    ensures { result ≡ has_all line.now }
{
    line.count == weighed(&line.table, Weight::Once)
}

// Whether the largest latency is of the highest column that has a trip.
fn has_largest(line: &Line) -> bool
    ensures { result ≡ has_largest line.now }
{
    let highest = column_of(line.largest);
    line.table[highest] > 0 && weighed(&line.table, Weight::Above(highest)) == 0
}

// Whether the sum is not less than the latencies of the table can be together.
fn has_least(line: &Line) -> bool
    ensures { result ≡ has_least line.now }
{
    let floor = FLOORS[column_of(line.largest)];
    let more = u64::from(line.largest.saturating_sub(floor));
    weighed(&line.table, Weight::Least).saturating_add(more) <= line.sum
}

// Whether the sum is not more than they can be together.
fn has_most(line: &Line) -> bool
    ensures { result ≡ has_most line.now }
{
    line.sum <= weighed(&line.table, Weight::Most(line.largest))
}

// Whether the table is one of as many trips as were counted, and of their largest latency.
fn has_counts(line: &Line) -> bool
    ensures { result ≡ has_counts line.now }
{
    has_all(line) && has_largest(line)
}

// Whether the latencies of the table can have the sum.
fn has_sums(line: &Line) -> bool
    ensures { result ≡ has_sums line.now }
{
    has_least(line) && has_most(line)
}

/// Whether some trips have the latencies of a line.
pub(crate) fn is_possible(line: &Line) -> bool
    ensures { result ≡ is_possible line.now }
{
    has_counts(line) && has_sums(line)
}
