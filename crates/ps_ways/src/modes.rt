// The ways of SF_ModeSelector.

use crate::way::Literal::{Is, Not};
use crate::way::{ANY, Ask, Way, way};

const UNLOCK: Ask = Ask::Pin(9);

const AUTO: Ask = Ask::Pin(11);

const RESET: Ask = Ask::Pin(12);

const EDGE: Ask = Ask::Edge;

const HELD: Ask = Ask::Held;

const RISE: Ask = Ask::Rise;

const ELAPSED: Ask = Ask::Elapsed;

const NO_MODE: Ask = Ask::NoMode;

const ONE_MODE: Ask = Ask::OneMode;

const MANY_MODES: Ask = Ask::ManyModes;

const LATCHED: Ask = Ask::LatchedMode;

// Each row: its state, the number of its guard there, the next state, and what is asked.
pub(crate) static MODES: [Way; 14] = [
    // 8005 waiting for one mode
    way!(0x8005, 1, 0xC001, Is(MANY_MODES)),
    way!(0x8005, 2, 0xC002, Is(NO_MODE), Is(ELAPSED)),
    way!(0x8005, 3, 0x8000, Is(ONE_MODE), Is(AUTO)),
    way!(0x8005, 3, 0x8000, Is(ONE_MODE), Is(RISE)),
    // 8000 a mode is selected
    way!(0x8000, 1, 0x8005, Not(LATCHED)),
    way!(0x8000, 2, 0x8004, Not(UNLOCK)),
    // 8004 the mode is locked
    way!(0x8004, 1, 0x8005, Is(UNLOCK), Not(LATCHED)),
    way!(0x8004, 2, 0x8000, Is(UNLOCK)),
    // C001 two or more modes at once
    way!(0xC001, 1, 0x8005, Is(EDGE)),
    way!(0xC001, 2, 0xC003, Is(HELD)),
    // C002 no mode for too long
    way!(0xC002, 1, 0x8005, Is(EDGE)),
    way!(0xC002, 2, 0xC004, Is(HELD)),
    // C003 static Reset in C001
    way!(0xC003, 1, 0xC001, Not(RESET)),
    // C004 static Reset in C002
    way!(0xC004, 1, 0xC002, Not(RESET)),
];
