// The counts of all lines.

ghost use Rattle.std.specs.Prelude.{◌≡◌, ◌<◌, length, slice_set};
ghost use Rattle.ps_bench_trials.specs.Adding.{added};
ghost use Rattle.ps_bench_trials.specs.Tallies.{counted, none_counted};

use crate::{Line, Outcome, latency_in, place_of};
use ps_base::Memory;
use ps_model::{Channel, Region};
use std::alloc::Global;
use std::marker::Model;

/// The counts of trials, a line for each channel, region and outcome. Contracts see them as the list of the lines.
#[derive(Drop)]
pub struct Tally {
    lines: Vec<Line>,
}

impl Model for Tally {
    ghost use Rattle.std.specs.Prelude.{◌≡◌, List, length};
    ghost use Rattle.ps_bench_trials.specs.declared.line.Line.{Line};

    ghost Value = { List Line };

    ghost view = { λ t. t.lines.items };

    ghost invariant = { λ t. length t.lines.items ≡ 24 };
}

// Adds other lines to lines, place by place.
fn add_lines(lines: &mut [Line], others: &[Line])
    requires lines { length lines.old ≡ 24 }
    requires others { length others.now ≡ 24 }
    ensures { lines.new ≡ added lines.old others.now }
{
    for place in 0..24 {
        lines[place] = lines[place].with_line(&others[place]);
    }
}

impl Tally {
    ghost use Rattle.std.specs.Prelude.{◌≡◌, IfOk, length};

    /// No trials.
    pub fn new(alloc: Global) -> Result<Tally, Memory>
        ensures { IfOk result (λ tally. tally ≡ none_counted) }
    {
        let lines = vec![in alloc; Line::NONE; 24]?;
        Ok(Tally { lines })
    }

    /// One trial more. It takes no memory.
    pub fn count(&mut self, channel: Channel, region: Region, outcome: Outcome)
        ensures { self.new ≡ counted self.old channel region outcome }
    {
        let place = place_of(channel, region, outcome);
        let line = self.lines[place];
        self.lines[place] = line.counted(latency_in(outcome));
    }

    // Puts a line in a place.
    pub(crate) fn put(&mut self, place: usize, line: Line)
        requires { place < 24 }
        ensures { self.new ≡ slice_set self.old place line }
    {
        self.lines[place] = line;
    }

    /// The trials of another tally more. It takes no memory.
    pub fn add(&mut self, other: &Tally)
        ensures { self.new ≡ added self.old other.now }
    {
        add_lines(self.lines.as_mut_slice(), other.lines.as_slice());
    }

    /// The lines.
    pub fn as_slice(&self) -> &[Line]
        ensures lines { result.now ≡ self.now }
        ensures all { length result.now ≡ 24 }
    {
        self.lines.as_slice()
    }
}
