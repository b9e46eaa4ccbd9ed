// The ways of SF_EnableSwitch: position 1 is not CH1 and CH2, position 2 CH1 and CH2, position 3 not CH2.

use crate::way::Literal::{Is, Not};
use crate::way::{ANY, Ask, Way, way};

const ACTIVE: Ask = Ask::Pin(1);

const CH1: Ask = Ask::Pin(2);

const CH2: Ask = Ask::Pin(3);

const AUTO: Ask = Ask::Pin(4);

const RESET: Ask = Ask::Pin(5);

const EDGE: Ask = Ask::Edge;

const HELD: Ask = Ask::Held;

// Each row: its state, the number of its guard there, the next state, and what is asked.
pub(crate) static ENABLE_SWITCH: [Way; 35] = [
    // 8004 operation inactive
    way!(0x8004, 1, 0x8005, Is(ACTIVE)),
    // 8005 operation active
    way!(0x8005, 1, 0x8004, Not(ACTIVE)),
    way!(0x8005, 2, 0x8006, Not(CH1), Is(CH2)),
    way!(0x8005, 3, 0xC010),
    // 8006 position 1
    way!(0x8006, 1, 0x8004, Not(ACTIVE)),
    way!(0x8006, 2, 0x8000, Is(CH1), Is(CH2)),
    way!(0x8006, 3, 0x8007, Not(CH2)),
    // 8000 position 2, which enables
    way!(0x8000, 1, 0x8004, Not(ACTIVE)),
    way!(0x8000, 2, 0x8006, Not(CH1), Is(CH2)),
    way!(0x8000, 3, 0x8007, Not(CH2)),
    // 8007 position 3
    way!(0x8007, 1, 0x8004, Not(ACTIVE)),
    way!(0x8007, 2, 0x8006, Not(CH1), Is(CH2)),
    way!(0x8007, 3, 0xC030, Is(CH1), Is(CH2)),
    // C010 not in position 1 at the start
    way!(0xC010, 1, 0x8004, Not(ACTIVE)),
    way!(0xC010, 2, 0xC020, Not(CH1), Is(CH2)),
    // C020 position 1 after C010
    way!(0xC020, 1, 0x8004, Not(ACTIVE)),
    way!(0xC020, 2, 0xC010, Is(CH1)),
    way!(0xC020, 2, 0xC010, Not(CH2)),
    way!(0xC020, 3, 0xC001, Is(HELD)),
    way!(0xC020, 4, 0x8006, Is(AUTO)),
    way!(0xC020, 4, 0x8006, Is(EDGE)),
    // C030 position 2 after position 3
    way!(0xC030, 1, 0x8004, Not(ACTIVE)),
    way!(0xC030, 2, 0xC040, Not(CH1)),
    way!(0xC030, 2, 0xC040, Not(CH2)),
    // C040 position 2 left after C030
    way!(0xC040, 1, 0x8004, Not(ACTIVE)),
    way!(0xC040, 2, 0xC030, Is(CH1), Is(CH2)),
    way!(0xC040, 3, 0xC002, Is(HELD)),
    way!(0xC040, 4, 0x8006, Is(AUTO), Not(CH1), Is(CH2)),
    way!(0xC040, 4, 0x8006, Is(EDGE), Not(CH1), Is(CH2)),
    way!(0xC040, 5, 0x8007, Is(AUTO)),
    way!(0xC040, 5, 0x8007, Is(EDGE)),
    // C001 static Reset in C020
    way!(0xC001, 1, 0x8004, Not(ACTIVE)),
    way!(0xC001, 2, 0xC020, Not(RESET)),
    // C002 static Reset in C040
    way!(0xC002, 1, 0x8004, Not(ACTIVE)),
    way!(0xC002, 2, 0xC040, Not(RESET)),
];
