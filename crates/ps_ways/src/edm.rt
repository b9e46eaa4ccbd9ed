// The ways of SF_EDM, with S = S_OutControl, E1 = S_EDM1 and E2 = S_EDM2.

use crate::way::Literal::{Is, Not};
use crate::way::{ANY, Ask, Way, way};

const S: Ask = Ask::Pin(1);

const E1: Ask = Ask::Pin(2);

const E2: Ask = Ask::Pin(3);

const START: Ask = Ask::Pin(4);

const RESET: Ask = Ask::Pin(5);

const EDGE: Ask = Ask::Edge;

const HELD: Ask = Ask::Held;

const ELAPSED: Ask = Ask::Elapsed;

// Each row: its state, the number of its guard there, the next state, and what is asked.
pub(crate) static EDM: [Way; 42] = [
    // 8001 the first state
    way!(0x8001, 1, 0x8010, Is(START)),
    way!(0x8001, 2, 0x8010, Is(EDGE)),
    way!(0x8001, 3, 0xC001, Is(HELD)),
    // 8010 off
    way!(0x8010, 1, 0x8000, Is(S), Is(E1), Is(E2)),
    way!(0x8010, 2, 0xC040, Is(S), Not(E1), Is(E2)),
    way!(0x8010, 3, 0xC050, Is(S), Is(E1), Not(E2)),
    way!(0x8010, 4, 0xC060, Is(S)),
    way!(0x8010, 5, 0xC010, Is(ELAPSED), Not(E1), Is(E2)),
    way!(0x8010, 6, 0xC020, Is(ELAPSED), Is(E1), Not(E2)),
    way!(0x8010, 7, 0xC030, Is(ELAPSED), Not(E1), Not(E2)),
    // 8000 on
    way!(0x8000, 1, 0x8010, Not(S)),
    way!(0x8000, 2, 0xC070, Is(ELAPSED), Is(E1), Not(E2)),
    way!(0x8000, 3, 0xC080, Is(ELAPSED), Not(E1), Is(E2)),
    way!(0x8000, 4, 0xC090, Is(ELAPSED), Is(E1), Is(E2)),
    // C001 static Reset in 8001
    way!(0xC001, 1, 0x8001, Not(RESET)),
    // C010 error 1
    way!(0xC010, 1, 0x8010, Is(EDGE)),
    way!(0xC010, 2, 0xC011, Is(HELD)),
    // C020 error 2
    way!(0xC020, 1, 0x8010, Is(EDGE)),
    way!(0xC020, 2, 0xC021, Is(HELD)),
    // C030 error 3
    way!(0xC030, 1, 0x8010, Is(EDGE)),
    way!(0xC030, 2, 0xC031, Is(HELD)),
    // C040 error 4
    way!(0xC040, 1, 0x8010, Is(EDGE)),
    way!(0xC040, 2, 0xC041, Is(HELD)),
    // C050 error 5
    way!(0xC050, 1, 0x8010, Is(EDGE)),
    way!(0xC050, 2, 0xC051, Is(HELD)),
    // C060 error 6
    way!(0xC060, 1, 0x8010, Is(EDGE)),
    way!(0xC060, 2, 0xC061, Is(HELD)),
    // C070 error 7
    way!(0xC070, 1, 0x8010, Is(EDGE)),
    way!(0xC070, 2, 0xC071, Is(HELD)),
    // C080 error 8
    way!(0xC080, 1, 0x8010, Is(EDGE)),
    way!(0xC080, 2, 0xC081, Is(HELD)),
    // C090 error 9
    way!(0xC090, 1, 0x8010, Is(EDGE)),
    way!(0xC090, 2, 0xC091, Is(HELD)),
    // C011 static Reset in C010
    way!(0xC011, 1, 0xC010, Not(RESET)),
    // C021 static Reset in C020
    way!(0xC021, 1, 0xC020, Not(RESET)),
    // C031 static Reset in C030
    way!(0xC031, 1, 0xC030, Not(RESET)),
    // C041 static Reset in C040
    way!(0xC041, 1, 0xC040, Not(RESET)),
    // C051 static Reset in C050
    way!(0xC051, 1, 0xC050, Not(RESET)),
    // C061 static Reset in C060
    way!(0xC061, 1, 0xC060, Not(RESET)),
    // C071 static Reset in C070
    way!(0xC071, 1, 0xC070, Not(RESET)),
    // C081 static Reset in C080
    way!(0xC081, 1, 0xC080, Not(RESET)),
    // C091 static Reset in C090
    way!(0xC091, 1, 0xC090, Not(RESET)),
];
