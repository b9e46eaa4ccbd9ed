// The ways of SF_EmergencyStop, and SF_ESPE, whose pins have the same numbers.

use crate::way::Literal::{Is, Not};
use crate::way::{ANY, Ask, Way, way};

const SENSOR: Ask = Ask::Pin(1);

const START: Ask = Ask::Pin(2);

const AUTO: Ask = Ask::Pin(3);

const RESET: Ask = Ask::Pin(4);

const EDGE: Ask = Ask::Edge;

// Each row: its state, the number of its guard there, the next state, and what is asked.
pub(crate) static STOP: [Way; 14] = [
    // 8001 the first state
    way!(0x8001, 1, 0x8002, Not(START)),
    way!(0x8001, 2, 0x8000, Is(SENSOR)),
    // 8002 waiting for the sensor after the start
    way!(0x8002, 1, 0xC001, Is(RESET)),
    way!(0x8002, 2, 0x8003, Is(SENSOR)),
    // 8003 waiting for Reset after the start
    way!(0x8003, 1, 0x8002, Not(SENSOR)),
    way!(0x8003, 2, 0x8000, Is(EDGE)),
    // 8000 enabled
    way!(0x8000, 1, 0x8004, Not(SENSOR)),
    // 8004 stopped and waiting for the sensor
    way!(0x8004, 1, 0xC002, Is(RESET)),
    way!(0x8004, 2, 0x8005, Is(SENSOR)),
    // 8005 stopped and waiting for Reset
    way!(0x8005, 1, 0x8004, Not(SENSOR)),
    way!(0x8005, 2, 0x8000, Is(AUTO)),
    way!(0x8005, 3, 0x8000, Is(EDGE)),
    // C001 Reset came before the sensor at the start
    way!(0xC001, 1, 0x8002, Not(RESET)),
    // C002 Reset came before the sensor after a stop
    way!(0xC002, 1, 0x8004, Not(RESET)),
];
