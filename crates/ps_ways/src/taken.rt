// Which ways and states a step of a block is of.

ghost use Rattle.std.specs.Prelude.{◌≡◌, ◌==◌, ◌&&◌};
ghost use Rattle.ps_ways.specs.Marks.{made};

use crate::table::ways;
use crate::way::Way;
use ps_model::Kind;

/// A step of a block: its state before, the number of the guard by which it leaves it, or 0, and its state after.
#[derive(Clone, Copy)]
pub struct Taken {
    /// The kind of the block.
    pub kind: Kind,
    /// The DiagCode of its state before.
    pub from: u16,
    /// The number of the guard, from 1 on; 0 where none is taken.
    pub number: u8,
    /// The DiagCode of its state after.
    pub to: u16,
}

impl Taken {
    // Whether the step takes a way.
    fn takes(&self, way: &Way) -> bool
        ensures { result ≡ (way.now.state == self.now.from && way.now.number == self.now.number) }
    {
        way.state == self.from && way.number == self.number
    }

    // Whether the step enters the state that a way leaves.
    fn enters(&self, way: &Way) -> bool
        ensures { result ≡ (way.now.state == self.now.to) }
    {
        way.state == self.to
    }

    /// Whether the step makes a mark: for each way of the kind, in order, that it is taken, and after these, for each
    /// way, that the state that it leaves is entered.
    pub fn makes(&self, mark: usize) -> bool
        ensures { result ≡ made self.now.kind self.now.from self.now.number self.now.to mark }
    {
        let ways = ways(self.kind);
        if mark < ways.len() {
            return self.takes(&ways[mark]);
        }
        let mark = mark - ways.len();
        mark < ways.len() && self.enters(&ways[mark])
    }
}
