// The ways of SF_GuardLocking, with M = S_GuardMonitoring, S = S_SafetyActive, L = S_GuardLock and U = UnlockRequest.

use crate::way::Literal::{Is, Not};
use crate::way::{ANY, Ask, Way, way};

const M: Ask = Ask::Pin(1);

const S: Ask = Ask::Pin(2);

const L: Ask = Ask::Pin(3);

const U: Ask = Ask::Pin(4);

const START: Ask = Ask::Pin(5);

const AUTO: Ask = Ask::Pin(6);

const RESET: Ask = Ask::Pin(7);

const EDGE: Ask = Ask::Edge;

const HELD: Ask = Ask::Held;

// Each row: its state, the number of its guard there, the next state, and what is asked.
pub(crate) static GUARD_LOCKING: [Way; 29] = [
    // 8001 the first state
    way!(0x8001, 1, 0x8000, Is(M), Is(L), Is(START)),
    way!(0x8001, 2, 0x8003, Is(M), Is(L)),
    way!(0x8001, 3, 0x8014),
    // 8000 closed and locked
    way!(0x8000, 1, 0xC004, Not(M)),
    way!(0x8000, 1, 0xC004, Not(L)),
    way!(0x8000, 2, 0x8013, Is(U), Is(S)),
    // 8003 locked and waiting for Reset
    way!(0x8003, 1, 0xC004, Not(M)),
    way!(0x8003, 1, 0xC004, Not(L)),
    way!(0x8003, 2, 0x8013, Is(U), Is(S)),
    way!(0x8003, 3, 0x8000, Is(EDGE)),
    way!(0x8003, 4, 0xC002, Is(HELD)),
    // 8013 unlocked and closed
    way!(0x8013, 1, 0x8014, Not(S)),
    way!(0x8013, 2, 0x8012, Not(M)),
    way!(0x8013, 3, 0x8011, Not(U)),
    // 8012 unlocked and open
    way!(0x8012, 1, 0x8014, Not(S)),
    way!(0x8012, 2, 0x8013, Is(M)),
    // 8011 to be locked again
    way!(0x8011, 1, 0x8014, Not(M)),
    way!(0x8011, 2, 0x8013, Is(U), Is(S)),
    way!(0x8011, 3, 0x8000, Is(L), Is(AUTO)),
    way!(0x8011, 3, 0x8000, Is(L), Is(EDGE)),
    way!(0x8011, 4, 0xC003, Is(HELD)),
    // 8014 safety lost
    way!(0x8014, 1, 0x8003, Is(M), Is(L)),
    way!(0x8014, 2, 0x8013, Is(S), Is(EDGE), Is(M)),
    way!(0x8014, 3, 0x8012, Is(S), Is(EDGE)),
    way!(0x8014, 4, 0xC001, Is(HELD)),
    // C001 static Reset in 8014
    way!(0xC001, 1, 0x8014, Not(RESET)),
    // C002 static Reset in 8003
    way!(0xC002, 1, 0x8003, Not(RESET)),
    // C003 static Reset in 8011
    way!(0xC003, 1, 0x8011, Not(RESET)),
    // C004 opened while locked
    way!(0xC004, 1, 0x8014, Is(EDGE)),
];
