// The seats, and what is said of them.

ghost use Rattle.std.specs.Prelude.{◌≡◌};
ghost use Rattle.ps_vote.specs.Orders.{seat_after};
ghost use Rattle.ps_vote.specs.Worlds.{mark, marked, is_another_dirty};

/// A seat of the world of three.
#[derive(Clone, Copy, PartialEq)]
pub enum Seat {
    /// Channel A, of stack code.
    A,
    /// Channel B, of equation code.
    B,
    /// Channel C, of decision code.
    C,
}

/// The answer of a vote.
#[derive(Clone, Copy)]
pub enum Vote {
    /// Three reports are equal.
    All,
    /// The reports of the other two seats are equal, and this one has none or another.
    Two(Seat),
    /// No two reports are equal.
    Split,
}

/// The lengths of the regions in bytes, in the order of the seats A, B and C.
#[derive(Clone, Copy)]
pub struct VoteSizes {
    /// Of the code.
    pub code: [u32; 3],
    /// Of the cells.
    pub cells: [u32; 3],
}

/// Which seats were spoiled and not rebuilt since.
#[derive(Clone, Copy)]
pub struct DirtySeats {
    /// Seat A.
    pub a: bool,
    /// Seat B.
    pub b: bool,
    /// Seat C.
    pub c: bool,
}

impl Seat {
    // The seat after it, in the rotation A, B, C and A again.
    pub(crate) fn after(self) -> Seat
        ensures { result ≡ seat_after self }
    {
        match self {
            Seat::A => Seat::B,
            Seat::B => Seat::C,
            Seat::C => Seat::A,
        }
    }
}

impl DirtySeats {
    // None.
    pub(crate) const NONE: DirtySeats = DirtySeats {
        a: false,
        b: false,
        c: false,
    };

    // Whether a seat is dirty.
    pub(crate) fn has(self, seat: Seat) -> bool
        ensures { result ≡ mark seat self }
    {
        match seat {
            Seat::A => self.a,
            Seat::B => self.b,
            Seat::C => self.c,
        }
    }

    // Whether another seat is dirty.
    pub(crate) fn has_another(self, seat: Seat) -> bool
        ensures { result ≡ is_another_dirty seat self }
    {
        match seat {
            Seat::A => self.b || self.c,
            Seat::B => self.a || self.c,
            Seat::C => self.a || self.b,
        }
    }

    // The same where a seat is dirty or not.
    pub(crate) fn with(self, seat: Seat, dirty: bool) -> DirtySeats
        ensures { result ≡ marked seat dirty self }
    {
        match seat {
            Seat::A => DirtySeats { a: dirty, ..self },
            Seat::B => DirtySeats { b: dirty, ..self },
            Seat::C => DirtySeats { c: dirty, ..self },
        }
    }
}
