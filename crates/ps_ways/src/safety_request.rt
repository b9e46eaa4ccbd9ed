// The ways of SF_SafetyRequest, with O = S_OpMode and K = S_Acknowledge.

use crate::way::Literal::{Is, Not};
use crate::way::{ANY, Ask, Way, way};

const O: Ask = Ask::Pin(1);

const K: Ask = Ask::Pin(2);

const RESET: Ask = Ask::Pin(3);

const EDGE: Ask = Ask::Edge;

const HELD: Ask = Ask::Held;

const ELAPSED: Ask = Ask::Elapsed;

// Each row: its state, the number of its guard there, the next state, and what is asked.
pub(crate) static SAFETY_REQUEST: [Way; 17] = [
    // 8001 the first state
    way!(0x8001, 1, 0x8012, Is(O)),
    way!(0x8001, 2, 0x8003, Not(O)),
    // 8012 operation, waiting for Reset
    way!(0x8012, 1, 0x8003, Not(O)),
    way!(0x8012, 2, 0x8002, Is(EDGE)),
    // 8002 operation
    way!(0x8002, 1, 0x8003, Not(O)),
    // 8003 waiting for the acknowledgement
    way!(0x8003, 1, 0x8012, Is(O)),
    way!(0x8003, 2, 0x8000, Is(K)),
    way!(0x8003, 3, 0xC003, Is(ELAPSED)),
    // 8000 the drive is safe
    way!(0x8000, 1, 0xC002, Not(K)),
    way!(0x8000, 2, 0x8002, Is(O)),
    // C002 the acknowledgement was lost
    way!(0xC002, 1, 0x8005, Is(EDGE)),
    way!(0xC002, 2, 0xC004, Is(HELD)),
    // C003 no acknowledgement in time
    way!(0xC003, 1, 0x8005, Is(EDGE)),
    way!(0xC003, 2, 0xC005, Is(HELD)),
    // C004 static Reset in C002
    way!(0xC004, 1, 0xC002, Not(RESET)),
    // C005 static Reset in C003
    way!(0xC005, 1, 0xC003, Not(RESET)),
    // 8005 waiting for operation
    way!(0x8005, 1, 0x8012, Is(O)),
];
