// Faults that strike seats.

use crate::seat::Seat;
use ps_base::Bytes;
use ps_model::Region;
use std::marker::Model;

/// A line of a fault file of three seats: at one moment of a run some bytes of a seat are replaced.
#[derive(Drop)]
pub struct VoteFault {
    /// The line of the file, counted from 1.
    pub line: u32,
    /// In this scan, counted from 1.
    pub scan: u32,
    /// Before this turn of the scan, counted from 1 over all seats; 0 means before the scan begins.
    pub turn: u32,
    /// In this seat.
    pub seat: Seat,
    /// In this region of it.
    pub region: Region,
    /// From this byte on, counted from 0.
    pub at: u32,
    /// What stands there then.
    pub bytes: Bytes,
}

/// Faults in the order of their file, which contracts see as a list.
#[derive(Drop)]
pub struct VoteFaults {
    items: Vec<VoteFault>,
}

impl Model for VoteFaults {
    ghost use Rattle.std.specs.Prelude.{List};
    ghost use Rattle.ps_vote.specs.declared.faults.VoteFault.{VoteFault};

    ghost Value = { List VoteFault };

    ghost view = { λ f. f.items.items };
}

impl VoteFaults {
    ghost use Rattle.std.specs.Prelude.{◌≡◌};

    // These faults.
    pub(crate) fn of(items: Vec<VoteFault>) -> VoteFaults
        ensures { result ≡ items.items }
    {
        VoteFaults { items }
    }

    /// The faults as a slice.
    pub fn as_slice(&self) -> &[VoteFault]
        ensures { result.now ≡ self.now }
    {
        self.items.as_slice()
    }
}
