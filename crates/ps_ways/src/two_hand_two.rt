// The ways of SF_TwoHandControlTypeII.

use crate::way::Literal::{Is, Not};
use crate::way::{ANY, Ask, Way, way};

const B1: Ask = Ask::Pin(1);

const B2: Ask = Ask::Pin(2);

// Each row: its state, the number of its guard there, the next state, and what is asked.
pub(crate) static TWO_HAND_TWO: [Way; 25] = [
    // 8001 the first state
    way!(0x8001, 1, 0xC003, Is(B1), Is(B2)),
    way!(0x8001, 2, 0xC001, Is(B1)),
    way!(0x8001, 3, 0xC002, Is(B2)),
    way!(0x8001, 4, 0x8004, Not(B1), Not(B2)),
    // C001 button 1 was pressed at the start
    way!(0xC001, 1, 0x8001, Not(B1), Not(B2)),
    // C002 button 2 was pressed at the start
    way!(0xC002, 1, 0x8001, Not(B1), Not(B2)),
    // C003 both buttons were pressed at the start
    way!(0xC003, 1, 0x8001, Not(B1), Not(B2)),
    // 8004 both buttons released
    way!(0x8004, 1, 0x8000, Is(B1), Is(B2)),
    way!(0x8004, 2, 0x8005, Is(B1)),
    way!(0x8004, 3, 0x8006, Is(B2)),
    // 8005 button 1 pressed first
    way!(0x8005, 1, 0x8000, Is(B1), Is(B2)),
    way!(0x8005, 2, 0x8004, Not(B1), Not(B2)),
    way!(0x8005, 3, 0x8019, Not(B1)),
    // 8006 button 2 pressed first
    way!(0x8006, 1, 0x8000, Is(B1), Is(B2)),
    way!(0x8006, 2, 0x8004, Not(B1), Not(B2)),
    way!(0x8006, 3, 0x8019, Not(B2)),
    // 8000 both buttons pressed
    way!(0x8000, 1, 0x8004, Not(B1), Not(B2)),
    way!(0x8000, 2, 0x8008, Not(B1)),
    way!(0x8000, 3, 0x8007, Not(B2)),
    // 8007 button 2 released
    way!(0x8007, 1, 0x8004, Not(B1), Not(B2)),
    way!(0x8007, 2, 0x8009, Is(B2)),
    // 8008 button 1 released
    way!(0x8008, 1, 0x8004, Not(B1), Not(B2)),
    way!(0x8008, 2, 0x8009, Is(B1)),
    // 8009 pressed again
    way!(0x8009, 1, 0x8004, Not(B1), Not(B2)),
    // 8019 let go too soon
    way!(0x8019, 1, 0x8004, Not(B1), Not(B2)),
];
