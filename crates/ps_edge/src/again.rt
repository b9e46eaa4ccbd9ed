// What is told of a seat that was outvoted again in the scan after its healing.

ghost use Rattle.std.specs.Prelude.{◌≡◌, IfOk};
ghost use Rattle.ps_edge.specs.Telling.{IsOfAgain, letter_of};

use crate::spoken::Spoken;
use ps_base::{Bytes, Memory};
use ps_message::again_message;
use ps_top::{Left, Words};
use ps_vote::Seat;
use std::alloc::Global;

// The letter of a seat.
fn letter_of(seat: Seat) -> u8
    ensures { result ≡ letter_of seat }
{
    match seat {
        Seat::A => b'A',
        Seat::B => b'B',
        Seat::C => b'C',
    }
}

// The message of the seat that was outvoted again, as it is left; empty where there is none.
pub(crate) fn again_on(alloc: Global, words: &Words, left: &Left) -> Result<Bytes, Memory>
    ensures { IfOk result (IsOfAgain words.now left.now.again) }
{
    match (&left.again, Spoken::Trace.name_in(words)) {
        (Some(again), Some(name)) => {
            again_message(alloc, name.as_bytes(), again.now, letter_of(again.seat))
        }
        _ => Ok(Bytes::new(alloc)),
    }
}
