// The ways of SF_OutControl, with S = S_SafeControl and P = ProcessControl.

use crate::way::Literal::{Is, Not};
use crate::way::{ANY, Ask, Way, way};

const S: Ask = Ask::Pin(1);

const P: Ask = Ask::Pin(2);

const STATIC_CONTROL: Ask = Ask::Pin(3);

const START: Ask = Ask::Pin(4);

const AUTO: Ask = Ask::Pin(5);

const RESET: Ask = Ask::Pin(6);

const EDGE: Ask = Ask::Edge;

const HELD: Ask = Ask::Held;

const RISE: Ask = Ask::Rise;

// Each row: its state, the number of its guard there, the next state, and what is asked.
pub(crate) static OUT_CONTROL: [Way; 19] = [
    // 8001 the first state
    way!(0x8001, 1, 0x8002, Not(S)),
    way!(0x8001, 2, 0x8010, Is(START)),
    way!(0x8001, 3, 0x8010, Is(EDGE)),
    way!(0x8001, 4, 0xC001, Is(HELD)),
    // 8002 no safe control
    way!(0x8002, 1, 0x8010, Is(S), Is(AUTO)),
    way!(0x8002, 2, 0x8003, Is(S)),
    // 8003 waiting for Reset
    way!(0x8003, 1, 0x8002, Not(S)),
    way!(0x8003, 2, 0x8010, Is(EDGE)),
    way!(0x8003, 3, 0xC002, Is(HELD)),
    // 8010 off
    way!(0x8010, 1, 0x8002, Not(S)),
    way!(0x8010, 2, 0x8000, Is(P), Is(STATIC_CONTROL)),
    way!(0x8010, 2, 0x8000, Is(P), Is(RISE)),
    way!(0x8010, 3, 0xC010, Is(P)),
    // 8000 on
    way!(0x8000, 1, 0x8002, Not(S)),
    way!(0x8000, 2, 0x8010, Not(P)),
    // C010 the process was TRUE already
    way!(0xC010, 1, 0x8002, Not(S)),
    way!(0xC010, 2, 0x8010, Not(P)),
    // C001 static Reset in 8001
    way!(0xC001, 1, 0x8001, Not(RESET)),
    // C002 static Reset in 8003
    way!(0xC002, 1, 0x8003, Not(RESET)),
];
