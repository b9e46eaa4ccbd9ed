// Turns of channel C over given bytes: the traps on both sides of every bound, and which comes where two causes meet. Pin
// cells stand from byte 9 on. There are seven signals, from byte 22 on, and one SF_EmergencyStop, from byte 29 on.

/// The rows of single turns.
pub const TURNS: &str = concat!(
    // The progress byte; then 2 past the end, 1 for no opcode, 2 where a row is cut short.
    "\
04 => done
04 | 4=1 => done
04 | 4=2 => trap 1
04 | 4=8 => trap 7
04 | 4=9 => trap 0
04 | 4=ff => trap 0
 => trap 2
04 | 3=1 => trap 2
00 04 | 3=1 => done
04 | 0=ff => trap 2
00 | 3=1 => trap 2
00 => trap 1
05 => trap 1
ff 04 => trap 1
01 00 07 00 00 00 00 00 00 00 => trap 2
02 00 07 02 00 00 00 => trap 2
03 00 01 00 00 05 00 00 00 => trap 2
",
    // DECIDE: 5 for a bad operand, 4 for its byte; a place past the end is the next turn's.
    "\
01 00 06 00 00 00 00 00 00 00 00 => runs
01 00 07 00 00 00 00 00 00 00 00 => trap 5
01 ef ff 00 00 00 00 00 00 00 00 => trap 5
01 f0 00 00 00 00 00 00 00 00 00 => runs
01 f0 0c 00 00 00 00 00 00 00 00 | 21=1 => runs
01 f0 0c 00 00 00 00 00 00 00 00 | 21=2 22=1 => trap 4
01 f0 0d 00 00 00 00 00 00 00 00 => trap 5
01 ff ff 00 00 00 00 00 00 00 00 => trap 5
01 00 06 00 00 00 00 00 00 00 00 | 28=1 => runs
01 00 06 00 00 00 00 00 00 00 00 | 28=2 => trap 4
01 00 06 00 00 00 00 00 00 00 00 | 28=ff => trap 4
01 00 07 00 00 00 00 00 00 00 00 | 29=2 => trap 5
01 00 06 00 00 00 0b ff ff ff ff 04 => runs
",
    // SET: 5 for a bad target, 4 for its byte; a place past the end is the next turn's.
    "\
02 00 06 02 00 00 00 08 04 => trap 4
02 00 06 ff 00 00 00 08 04 => trap 4
02 00 07 01 00 00 00 08 04 => trap 5
02 00 07 02 00 00 00 08 04 => trap 5
02 f0 0d 01 00 00 00 08 04 => trap 5
02 00 06 01 00 00 00 09 04 => runs
",
    // CALL: 6 for an instance or a kind, 5 for outputs, 4 for a pin cell, 7 for the instance's bytes.
    "\
03 00 01 03 00 04 00 00 00 00 => trap 6
03 00 01 03 00 05 00 00 00 00 => trap 6
03 00 00 00 00 05 00 00 00 00 => trap 6
03 00 00 0e 00 05 00 00 00 00 => trap 6
03 00 00 01 00 04 00 00 00 00 => runs
03 00 00 0d 00 04 00 00 00 00 => runs
03 00 00 03 00 05 00 00 00 00 | 13=2 => trap 5
03 00 00 03 ff ff 00 00 00 00 => trap 5
03 00 00 05 00 00 00 00 00 00 => trap 5
03 00 00 03 00 04 00 00 00 00 | 9=2 => trap 4
03 00 00 03 00 04 00 00 00 00 | 13=ff 29=12 => trap 4
03 00 00 03 00 04 00 00 00 00 | 13=1 14=2 => runs
",
    // CALL over the bytes of an SF_EmergencyStop: 7 where they load for no state.
    "\
03 00 00 03 00 04 00 00 00 00 | 29=80 30=05 => runs
03 00 00 03 00 04 00 00 00 00 | 29=80 30=06 => trap 7
03 00 00 03 00 04 00 00 00 00 | 31=1 => runs
03 00 00 03 00 04 00 00 00 00 | 31=2 => trap 7
03 00 00 03 00 04 00 00 00 00 | 32=1 => trap 7
03 00 00 03 00 04 00 00 00 00 | 33=1 => trap 7
03 00 00 03 00 04 00 00 00 00 | 34=ff => runs
03 00 00 03 00 04 00 00 00 00 | 38=1 => trap 7
03 00 00 03 00 04 00 00 00 00 | 44=1 => trap 7
",
);

/// The rows of two turns.
pub const TWICE: &str = concat!(
    // The same in two turns.
    "\
01 00 06 00 00 00 0b ff ff ff ff 04 | 28=1 => done
01 00 06 00 00 00 0b ff ff ff ff 04 => trap 2
01 00 06 ff ff ff ff 00 00 00 0b 04 => done
01 00 06 ff ff ff ff 00 00 00 0b 04 | 28=1 => trap 2
",
    // The same in two turns.
    "\
02 00 06 00 00 00 00 08 04 | 28=2 => done
02 00 06 01 00 00 00 08 04 => done
02 f0 0c 01 00 00 00 08 04 => done
02 00 06 01 00 00 00 09 04 => trap 2
",
    // The same in two turns.
    "\
03 00 00 03 00 04 00 00 00 00 04 => done
",
);

/// The table of single turns with an SF_ModeSelector, after four inputs and an output: a kind with thirteen pins and eleven
/// outputs among sixteen signals. Its last pin cell is read, and its last output fits.
pub const MODES: &str = "\
03 00 00 05 00 05 00 00 00 00 | 21=1 => runs
03 00 00 05 00 05 00 00 00 00 | 21=2 22=2 => trap 4
03 00 00 05 00 05 00 00 00 00 | 22=2 => runs
03 00 00 05 00 06 00 00 00 00 => trap 5
";
