//! Why a turn traps.

ghost use Rattle.std.specs.Prelude.{◌≡◌};
ghost use Rattle.ps_eqvm.specs.Traps.{number_of};

/// Why a turn traps (profile). The numbers mean the same in every machine.
#[derive(Clone, Copy)]
pub enum Trap {
    /// 1: no row begins with this byte.
    UnknownOpcode,
    /// 2: the row, or a part of it, is past the code's end.
    PastEnd,
    /// 3: the number of pins is not the kind's.
    PinCount,
    /// 4: a byte that should be Boolean is neither 0 nor 1.
    NotBoolean,
    /// 5: a signal, an operand or a target is out of range.
    OutOfRange,
    /// 6: an instance or a kind is out of range.
    NoInstance,
    /// 7: the instance's bytes do not load for the kind.
    NotLoaded,
}

impl Trap {
    /// Its number, from 1 to 7.
    pub fn number(self) -> u8
        ensures { result ≡ number_of self }
    {
        match self {
            Trap::UnknownOpcode => 1,
            Trap::PastEnd => 2,
            Trap::PinCount => 3,
            Trap::NotBoolean => 4,
            Trap::OutOfRange => 5,
            Trap::NoInstance => 6,
            Trap::NotLoaded => 7,
        }
    }
}
