// The ways of SF_Equivalent, with A = S_ChannelA and B = S_ChannelB.

use crate::way::Literal::{Is, Not};
use crate::way::{ANY, Ask, Way, way};

const A: Ask = Ask::Pin(1);

const B: Ask = Ask::Pin(2);

const ELAPSED: Ask = Ask::Elapsed;

// Each row: its state, the number of its guard there, the next state, and what is asked.
pub(crate) static EQUIVALENT: [Way; 17] = [
    // 8001 both channels off
    way!(0x8001, 1, 0x8000, Is(A), Is(B)),
    way!(0x8001, 2, 0x8004, Is(A)),
    way!(0x8001, 3, 0x8014, Is(B)),
    // 8004 waiting for channel B
    way!(0x8004, 1, 0xC001, Is(ELAPSED)),
    way!(0x8004, 2, 0x8001, Not(A)),
    way!(0x8004, 3, 0x8000, Is(B)),
    // 8014 waiting for channel A
    way!(0x8014, 1, 0xC002, Is(ELAPSED)),
    way!(0x8014, 2, 0x8001, Not(B)),
    way!(0x8014, 3, 0x8000, Is(A)),
    // 8000 both channels on
    way!(0x8000, 1, 0x8001, Not(A), Not(B)),
    way!(0x8000, 2, 0x8005, Not(A)),
    way!(0x8000, 2, 0x8005, Not(B)),
    // 8005 one channel went off
    way!(0x8005, 1, 0xC003, Is(ELAPSED)),
    way!(0x8005, 2, 0x8001, Not(A), Not(B)),
    // C001 channel B did not come on in time
    way!(0xC001, 1, 0x8001, Not(A), Not(B)),
    // C002 channel A did not come on in time
    way!(0xC002, 1, 0x8001, Not(A), Not(B)),
    // C003 one channel stayed on for too long
    way!(0xC003, 1, 0x8001, Not(A), Not(B)),
];
