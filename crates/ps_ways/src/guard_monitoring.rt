// The ways of SF_GuardMonitoring.

use crate::way::Literal::{Is, Not};
use crate::way::{ANY, Ask, Way, way};

const G1: Ask = Ask::Pin(1);

const G2: Ask = Ask::Pin(2);

const START: Ask = Ask::Pin(3);

const AUTO: Ask = Ask::Pin(4);

const RESET: Ask = Ask::Pin(5);

const EDGE: Ask = Ask::Edge;

const HELD: Ask = Ask::Held;

const ELAPSED: Ask = Ask::Elapsed;

// Each row: its state, the number of its guard there, the next state, and what is asked.
pub(crate) static GUARD_MONITORING: [Way; 28] = [
    // 8001 the first state
    way!(0x8001, 1, 0x8000, Is(G1), Is(G2), Is(START)),
    way!(0x8001, 2, 0x8003, Is(G1), Is(G2)),
    way!(0x8001, 3, 0x8002),
    // 8002 the guard has to be opened
    way!(0x8002, 1, 0x8012, Not(G1), Not(G2)),
    // 8012 the guard is open
    way!(0x8012, 1, 0x8005, Is(G1), Is(G2)),
    way!(0x8012, 2, 0x8004, Is(G1)),
    way!(0x8012, 3, 0x8014, Is(G2)),
    // 8004 waiting for switch 2
    way!(0x8004, 1, 0xC011, Is(ELAPSED)),
    way!(0x8004, 2, 0x8005, Is(G1), Is(G2)),
    way!(0x8004, 3, 0x8012, Not(G1), Not(G2)),
    way!(0x8004, 4, 0x8002, Not(G1)),
    // 8014 waiting for switch 1
    way!(0x8014, 1, 0xC012, Is(ELAPSED)),
    way!(0x8014, 2, 0x8005, Is(G1), Is(G2)),
    way!(0x8014, 3, 0x8012, Not(G1), Not(G2)),
    way!(0x8014, 4, 0x8002, Not(G2)),
    // 8005 the guard has closed
    way!(0x8005, 1, 0x8002, Not(G1)),
    way!(0x8005, 1, 0x8002, Not(G2)),
    way!(0x8005, 2, 0x8000, Is(AUTO)),
    way!(0x8005, 3, 0x8003),
    // 8003 waiting for Reset
    way!(0x8003, 1, 0x8002, Not(G1)),
    way!(0x8003, 1, 0x8002, Not(G2)),
    way!(0x8003, 2, 0x8000, Is(EDGE)),
    way!(0x8003, 3, 0xC001, Is(HELD)),
    // 8000 enabled
    way!(0x8000, 1, 0x8002, Not(G1)),
    way!(0x8000, 1, 0x8002, Not(G2)),
    // C001 static Reset in 8003
    way!(0xC001, 1, 0x8003, Not(RESET)),
    // C011 switch 2 did not close in time
    way!(0xC011, 1, 0x8012, Not(G1), Not(G2)),
    // C012 switch 1 did not close in time
    way!(0xC012, 1, 0x8012, Not(G1), Not(G2)),
];
