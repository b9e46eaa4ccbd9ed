// An output that takes nothing.

use ps_outside::{Failed, Sink};

/// An output of which nothing is kept, for a taker that writes nothing.
#[derive(Drop)]
pub(crate) struct Nothing {}

impl Sink for Nothing {
    ghost use Rattle.std.specs.Prelude.{[], false};

    ghost tells = { λ _. false };

    ghost taken = { λ _. [] };

    ghost faults = { λ _. 0 };

    fn write(&mut self, piece: &[u8]) -> Result<usize, Failed> {
        Ok(piece.len())
    }
}
