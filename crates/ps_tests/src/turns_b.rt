// Turns of channel B over given bytes: the reading of rows, and the traps of SET (f1), ALL (f2), ANY (f3) and BLOCK (f4) on
// both sides of every bound, and which comes where two causes meet. There are seven signals, of which signal 1 stands at
// 62, and one SF_EmergencyStop, from byte 68 on.

/// The rows of single turns.
pub const TURNS: &str = concat!(
    // The rows at the ends of code: the first bytes of LAST and SET, as many as are told, from an offset whose lowest byte
    // stands at 3.
    "\
f0 | 3=00 => done
 | 3=00 => trap 2
f0 | 3=01 => trap 2
f0 f1 | 3=01 => trap 2
f0 f1 00 00 00 | 3=01 => trap 2
f0 f1 00 00 00 01 | 3=01 => runs
f0 f1 00 00 00 01 | 3=05 => trap 1
f0 f1 00 00 00 01 | 3=06 => trap 2
f0 f1 00 00 00 01 | 3=ff => trap 2
",
    // One byte alone is the code.
    "\
00 => trap 1
ef => trap 1
f0 => done
f1 => trap 2
f2 => trap 2
f3 => trap 2
f4 => trap 2
f5 => trap 1
ff => trap 1
",
    // Operands.
    "\
f1 00 00 00 00 | 62=07 => runs
f1 00 00 00 06 | 62=07 => runs
f1 00 00 00 07 | 62=07 => trap 5
f1 00 00 0f 9f | 62=07 => trap 5
f1 00 00 0f a0 | 62=07 => trap 5
f1 00 00 ef ff | 62=07 => trap 5
f1 00 00 f0 00 | 62=07 => runs
f1 00 00 f0 2f | 62=07 => runs
f1 00 00 f0 30 | 62=07 => trap 5
f1 00 00 ff fd | 62=07 => trap 5
f1 00 00 ff fe | 62=07 => runs
f1 00 00 ff ff | 62=07 => runs
f2 00 00 00 00 | 62=07 => runs
f2 00 00 00 06 | 62=07 => runs
f2 00 00 00 07 | 62=07 => trap 5
f2 00 00 0f 9f | 62=07 => trap 5
f2 00 00 0f a0 | 62=07 => trap 5
f2 00 00 ef ff | 62=07 => trap 5
f2 00 00 f0 00 | 62=07 => runs
f2 00 00 f0 2f | 62=07 => runs
f2 00 00 f0 30 | 62=07 => trap 5
f2 00 00 ff fd | 62=07 => trap 5
f2 00 00 ff fe | 62=07 => runs
f2 00 00 ff ff | 62=07 => runs
f3 00 00 00 00 | 62=07 => runs
f3 00 00 00 06 | 62=07 => runs
f3 00 00 00 07 | 62=07 => trap 5
f3 00 00 0f 9f | 62=07 => trap 5
f3 00 00 0f a0 | 62=07 => trap 5
f3 00 00 ef ff | 62=07 => trap 5
f3 00 00 f0 00 | 62=07 => runs
f3 00 00 f0 2f | 62=07 => runs
f3 00 00 f0 30 | 62=07 => trap 5
f3 00 00 ff fd | 62=07 => trap 5
f3 00 00 ff fe | 62=07 => runs
f3 00 00 ff ff | 62=07 => runs
",
    // Targets.
    "\
f1 00 06 00 00 | 62=07 => runs
f1 00 07 00 00 | 62=07 => trap 5
f1 0f 9f 00 00 | 62=07 => trap 5
f1 0f a0 00 00 | 62=07 => trap 5
f1 ef ff 00 00 | 62=07 => trap 5
f1 f0 00 00 00 | 62=07 => runs
f1 f0 2f 00 00 | 62=07 => runs
f1 f0 30 00 00 | 62=07 => trap 5
f1 ff fd 00 00 | 62=07 => trap 5
f1 ff fe 00 00 | 62=07 => trap 5
f1 ff ff 00 00 | 62=07 => trap 5
f2 00 06 00 00 | 62=07 => runs
f2 00 07 00 00 | 62=07 => trap 5
f2 0f 9f 00 00 | 62=07 => trap 5
f2 0f a0 00 00 | 62=07 => trap 5
f2 ef ff 00 00 | 62=07 => trap 5
f2 f0 00 00 00 | 62=07 => runs
f2 f0 2f 00 00 | 62=07 => runs
f2 f0 30 00 00 | 62=07 => trap 5
f2 ff fd 00 00 | 62=07 => trap 5
f2 ff fe 00 00 | 62=07 => trap 5
f2 ff ff 00 00 | 62=07 => trap 5
f3 00 06 00 00 | 62=07 => runs
f3 00 07 00 00 | 62=07 => trap 5
f3 0f 9f 00 00 | 62=07 => trap 5
f3 0f a0 00 00 | 62=07 => trap 5
f3 ef ff 00 00 | 62=07 => trap 5
f3 f0 00 00 00 | 62=07 => runs
f3 f0 2f 00 00 | 62=07 => runs
f3 f0 30 00 00 | 62=07 => trap 5
f3 ff fd 00 00 | 62=07 => trap 5
f3 ff fe 00 00 | 62=07 => trap 5
f3 ff ff 00 00 | 62=07 => trap 5
",
    // Signal 1 has a byte that is neither 0 nor 1. SET does not read its target; a bad target or operand comes first.
    "\
f1 00 00 00 01 | 62=07 => trap 4
f1 00 01 00 00 | 62=07 => runs
f1 00 01 00 01 | 62=07 => trap 4
f1 00 07 00 01 | 62=07 => trap 5
f1 ff ff 00 01 | 62=07 => trap 5
f1 00 01 00 07 | 62=07 => trap 5
f2 00 00 00 01 | 62=07 => trap 4
f2 00 01 00 00 | 62=07 => trap 4
f2 00 01 ff fe | 62=07 => trap 4
f2 00 01 ff ff | 62=07 => trap 4
f2 00 00 00 02 | 62=07 => runs
f2 00 07 00 01 | 62=07 => trap 5
f2 ff fe 00 01 | 62=07 => trap 5
f2 00 01 00 07 | 62=07 => trap 5
f3 00 00 00 01 | 62=07 => trap 4
f3 00 01 00 00 | 62=07 => trap 4
f3 00 01 ff fe | 62=07 => trap 4
f3 00 01 ff ff | 62=07 => trap 4
f3 00 00 00 02 | 62=07 => runs
f3 00 07 00 01 | 62=07 => trap 5
f3 ff fe 00 01 | 62=07 => trap 5
f3 00 01 00 07 | 62=07 => trap 5
",
    // A byte of signal 1, and what ALL of it leaves.
    "\
f2 00 01 00 00 | 62=00 => runs
f2 00 01 00 00 | 62=01 => runs
f2 00 01 00 00 | 62=02 => trap 4
f2 00 01 00 00 | 62=ff => trap 4
",
    // The row of M's SF_EmergencyStop cut short, where so many operands are told.
    "\
f4 00 00 03 00 04 00 00 00 00 => trap 2
f4 00 00 03 00 04 00 00 00 00 00 => trap 3
f4 00 00 03 00 04 00 00 00 00 01 => trap 2
f4 00 00 03 00 04 00 00 00 00 05 => trap 2
f4 00 00 03 00 04 00 00 00 00 05 ff => trap 2
f4 00 00 03 00 04 00 00 00 00 05 ff fe ff fe ff fe ff fe ff => trap 2
f4 00 00 03 00 04 00 00 00 00 05 ff fe ff fe ff fe ff fe ff fe => runs
f4 00 00 03 00 04 00 00 00 00 06 ff fe ff fe ff fe ff fe ff fe ff => trap 2
f4 00 00 03 00 04 00 00 00 00 06 ff fe ff fe ff fe ff fe ff fe ff fe => trap 3
f4 00 00 03 00 04 00 00 00 00 ff ff fe ff fe ff fe ff fe ff fe ff fe => trap 2
",
    // Instance, kind, first output signal and number of operands. There is one instance, and there are seven signals.
    "\
f4 00 00 03 00 04 00 00 00 00 05 ff fe ff fe ff fe ff fe ff fe ff fe => runs
f4 00 00 04 00 04 00 00 00 00 05 ff fe ff fe ff fe ff fe ff fe ff fe => runs
f4 00 00 0d 00 04 00 00 00 00 06 ff fe ff fe ff fe ff fe ff fe ff fe => runs
f4 00 01 03 00 04 00 00 00 00 05 ff fe ff fe ff fe ff fe ff fe ff fe => trap 6
f4 ff ff 03 00 04 00 00 00 00 05 ff fe ff fe ff fe ff fe ff fe ff fe => trap 6
f4 00 00 00 00 04 00 00 00 00 05 ff fe ff fe ff fe ff fe ff fe ff fe => trap 6
f4 00 00 0e 00 04 00 00 00 00 05 ff fe ff fe ff fe ff fe ff fe ff fe => trap 6
f4 00 00 ff 00 04 00 00 00 00 05 ff fe ff fe ff fe ff fe ff fe ff fe => trap 6
f4 00 00 03 00 05 00 00 00 00 05 ff fe ff fe ff fe ff fe ff fe ff fe => trap 5
f4 00 00 03 ff ff 00 00 00 00 05 ff fe ff fe ff fe ff fe ff fe ff fe => trap 5
f4 00 00 0b 00 03 00 00 00 00 05 ff fe ff fe ff fe ff fe ff fe ff fe => trap 3
f4 00 00 0b 00 04 00 00 00 00 05 ff fe ff fe ff fe ff fe ff fe ff fe => trap 5
f4 00 00 03 00 04 00 00 00 00 04 ff fe ff fe ff fe ff fe ff fe ff fe => trap 3
f4 00 00 03 00 04 00 00 00 00 06 ff fe ff fe ff fe ff fe ff fe ff fe => trap 3
f4 00 01 0e 00 05 00 00 00 00 04 ff fe ff fe ff fe ff fe ff fe ff fe => trap 6
f4 00 00 03 00 05 00 00 00 00 04 ff fe ff fe ff fe ff fe ff fe ff fe => trap 5
",
    // Operand 3 of the row. The operands are judged before their number, and their number before their bytes.
    "\
f4 00 00 03 00 04 00 00 00 00 05 ff fe ff fe ff fe 00 06 ff fe ff fe | 0=00 => runs
f4 00 00 03 00 04 00 00 00 00 05 ff fe ff fe ff fe 00 07 ff fe ff fe | 0=00 => trap 5
f4 00 00 03 00 04 00 00 00 00 05 ff fe ff fe ff fe 0f 9f ff fe ff fe | 0=00 => trap 5
f4 00 00 03 00 04 00 00 00 00 05 ff fe ff fe ff fe 0f a0 ff fe ff fe | 0=00 => trap 5
f4 00 00 03 00 04 00 00 00 00 05 ff fe ff fe ff fe f0 00 ff fe ff fe | 0=00 => runs
f4 00 00 03 00 04 00 00 00 00 05 ff fe ff fe ff fe f0 2f ff fe ff fe | 0=00 => runs
f4 00 00 03 00 04 00 00 00 00 05 ff fe ff fe ff fe f0 30 ff fe ff fe | 0=00 => trap 5
f4 00 00 03 00 04 00 00 00 00 05 ff fe ff fe ff fe ff fd ff fe ff fe | 0=00 => trap 5
f4 00 00 03 00 04 00 00 00 00 05 ff fe ff fe ff fe ff ff ff fe ff fe | 0=00 => runs
f4 00 00 03 00 04 00 00 00 00 04 ff fe ff fe ff fe ff fd ff fe ff fe | 0=00 => trap 5
f4 00 00 03 00 04 00 00 00 00 06 ff fe ff fe ff fe ff fd ff fe ff fe | 0=00 => trap 5
f4 00 00 03 00 04 00 00 00 00 03 ff fe ff fe ff fe ff fd ff fe ff fe | 0=00 => trap 3
f4 00 00 03 00 04 00 00 00 00 05 ff fe ff fe ff fe 00 01 ff fe ff fe | 62=01 => runs
f4 00 00 03 00 04 00 00 00 00 05 ff fe ff fe ff fe 00 01 ff fe ff fe | 62=02 => trap 4
f4 00 00 03 00 04 00 00 00 00 05 ff fe ff fe ff fe 00 01 ff fe ff fe | 62=ff => trap 4
f4 00 00 03 00 04 00 00 00 00 05 ff fe ff fe ff fe 00 02 ff fe ff fe | 62=ff => runs
f4 00 00 03 00 04 00 00 00 00 05 ff fe ff fe ff fe f0 2f ff fe ff fe | 60=02 => trap 4
f4 00 00 03 00 04 00 00 00 00 04 ff fe ff fe ff fe 00 01 ff fe ff fe | 62=02 => trap 3
",
    // A byte of the instance, from 68 on: DiagCode, last Reset, last auxiliary input, mode, the time that remains, and
    // seven bytes that are 0.
    "\
f4 00 00 03 00 04 00 00 00 00 05 ff fe ff fe ff fe 00 00 ff fe ff fe | 68=80 => runs
f4 00 00 03 00 04 00 00 00 00 05 ff fe ff fe ff fe 00 00 ff fe ff fe | 68=81 => trap 7
f4 00 00 03 00 04 00 00 00 00 05 ff fe ff fe ff fe 00 00 ff fe ff fe | 69=01 => trap 7
f4 00 00 03 00 04 00 00 00 00 05 ff fe ff fe ff fe 00 00 ff fe ff fe | 70=01 => runs
f4 00 00 03 00 04 00 00 00 00 05 ff fe ff fe ff fe 00 00 ff fe ff fe | 70=02 => trap 7
f4 00 00 03 00 04 00 00 00 00 05 ff fe ff fe ff fe 00 00 ff fe ff fe | 71=01 => trap 7
f4 00 00 03 00 04 00 00 00 00 05 ff fe ff fe ff fe 00 00 ff fe ff fe | 72=01 => trap 7
f4 00 00 03 00 04 00 00 00 00 05 ff fe ff fe ff fe 00 00 ff fe ff fe | 73=ff => runs
f4 00 00 03 00 04 00 00 00 00 05 ff fe ff fe ff fe 00 00 ff fe ff fe | 76=ff => runs
f4 00 00 03 00 04 00 00 00 00 05 ff fe ff fe ff fe 00 00 ff fe ff fe | 77=01 => trap 7
f4 00 00 03 00 04 00 00 00 00 05 ff fe ff fe ff fe 00 00 ff fe ff fe | 80=80 => trap 7
f4 00 00 03 00 04 00 00 00 00 05 ff fe ff fe ff fe 00 00 ff fe ff fe | 83=01 => trap 7
f4 00 00 03 00 04 00 00 00 00 04 ff fe ff fe ff fe 00 00 ff fe ff fe | 68=81 => trap 3
f4 00 00 03 00 04 00 00 00 00 05 ff fe ff fe ff fe 00 07 ff fe ff fe | 68=81 => trap 5
",
    // States of SF_EmergencyStop, by the lower byte of a DiagCode whose higher byte is 80.
    "\
f4 00 00 03 00 04 00 00 00 00 05 ff fe ff fe ff fe ff fe ff fe ff fe | 68=80 69=00 => runs
f4 00 00 03 00 04 00 00 00 00 05 ff fe ff fe ff fe ff fe ff fe ff fe | 68=80 69=01 => runs
f4 00 00 03 00 04 00 00 00 00 05 ff fe ff fe ff fe ff fe ff fe ff fe | 68=80 69=05 => runs
f4 00 00 03 00 04 00 00 00 00 05 ff fe ff fe ff fe ff fe ff fe ff fe | 68=80 69=06 => trap 7
f4 00 00 03 00 04 00 00 00 00 05 ff fe ff fe ff fe ff fe ff fe ff fe | 68=80 69=14 => trap 7
",
    // An odd operand comes before bytes that do not load.
    "\
f4 00 00 03 00 04 00 00 00 00 05 00 01 ff fe ff fe ff fe ff fe ff fe | 62=02 68=81 => trap 4
",
);
