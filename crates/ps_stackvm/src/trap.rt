// Traps.

ghost use Rattle.std.specs.Prelude.{◌≡◌, ◌≤◌};
ghost use Rattle.ps_stackvm.specs.Traps.{trap_number};

/// Why a turn ends the scan without a report (profile). In the progress byte stands its number and one
/// more; the numbers mean the same in all channels.
#[derive(Clone, Copy)]
pub enum Trap {
    /// 1: no such opcode.
    NoOpcode,
    /// 2: the place of the next instruction, or a part of it, is past the code's end.
    CodeEnd,
    /// 3: the height of the stack.
    StackHeight,
    /// 4: a byte that should be Boolean is neither 0 nor 1.
    NotBoolean,
    /// 5: a signal is out of range.
    NoSignal,
    /// 6: an instance or a kind is out of range.
    NoInstance,
    /// 7: an instance's bytes are of no state of the kind.
    NoState,
}

impl Trap {
    /// Its number, from 1 to 7.
    pub fn number(self) -> u8
        ensures number { result ≡ trap_number self }
        ensures few { result ≤ 7 }
    {
        match self {
            Trap::NoOpcode => 1,
            Trap::CodeEnd => 2,
            Trap::StackHeight => 3,
            Trap::NotBoolean => 4,
            Trap::NoSignal => 5,
            Trap::NoInstance => 6,
            Trap::NoState => 7,
        }
    }
}
