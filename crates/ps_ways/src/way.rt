// What a guard asks of a step, and a way from a state to the next.

ghost use Rattle.std.specs.Prelude.{◌≡◌};
ghost use Rattle.ps_ways.specs.Ways.{asks, meets, meets_all};
ghost use Rattle.ps_ways.specs.Stepping.{conditions_of};

use crate::step::StepConditions;

/// What a guard asks of a step: of its pins, of Reset, of the time, and of the modes of SF_ModeSelector.
#[derive(Clone, Copy)]
pub enum Ask {
    /// A Boolean input pin is TRUE, by its number, from 0.
    Pin(u8),
    /// Reset rises: it is TRUE, and was FALSE in the last step.
    Edge,
    /// Reset is held: it is TRUE, and was TRUE in the last step.
    Held,
    /// The auxiliary input rises: S_SetMode of SF_ModeSelector, ProcessControl of SF_OutControl.
    Rise,
    /// The limit has elapsed since the state was entered or its time began anew.
    Elapsed,
    /// No mode is TRUE.
    NoMode,
    /// Exactly one mode is TRUE.
    OneMode,
    /// Two or more modes are TRUE.
    ManyModes,
    /// The TRUE modes are exactly the latched one.
    LatchedMode,
}

/// A part of a guard: that something holds, or that it does not.
#[derive(Clone, Copy)]
pub enum Literal {
    /// Nothing is asked here, nor after it.
    Any,
    /// It holds.
    Is(Ask),
    /// It does not hold.
    Not(Ask),
}

// Nothing is asked.
pub(crate) const ANY: Literal = Literal::Any;

/// A way from a state to the next: all of its literals hold. A guard has one such way, or one for each of its
/// alternatives, which stand one after the other and have the guard's number.
#[derive(Clone, Copy)]
pub struct Way {
    /// The DiagCode of the state.
    pub state: u16,
    /// The number of the guard among those of the state, from 1.
    pub number: u8,
    /// The DiagCode of the next state.
    pub next: u16,
    /// What is asked first.
    pub first: Literal,
    /// What is asked besides.
    pub second: Literal,
    /// What is asked besides these.
    pub third: Literal,
}

// A way: the state, the number of the guard, the next state, and up to three literals.
macro_rules! way {
    ($state:expr, $number:expr, $next:expr) => {
        way!($state, $number, $next, ANY, ANY, ANY)
    };
    ($state:expr, $number:expr, $next:expr, $first:expr) => {
        way!($state, $number, $next, $first, ANY, ANY)
    };
    ($state:expr, $number:expr, $next:expr, $first:expr, $second:expr) => {
        way!($state, $number, $next, $first, $second, ANY)
    };
    ($state:expr, $number:expr, $next:expr, $first:expr, $second:expr, $third:expr) => {
        Way {
            state: $state,
            number: $number,
            next: $next,
            first: $first,
            second: $second,
            third: $third,
        }
    };
}

pub(crate) use way;

impl Ask {
    /// Whether it holds in a step.
    pub fn holds(self, step: &StepConditions) -> bool
        ensures { result ≡ asks self (conditions_of step.now) }
    {
        match self {
            Ask::Pin(j) => step.pin(j),
            Ask::Edge => step.edge,
            Ask::Held => step.held,
            Ask::Rise => step.rise,
            Ask::Elapsed => step.elapsed,
            Ask::NoMode => step.modes == 0,
            Ask::OneMode => step.modes == 1,
            Ask::ManyModes => step.modes >= 2,
            Ask::LatchedMode => step.latched,
        }
    }
}

impl Literal {
    /// Whether it holds in a step.
    pub fn holds(self, step: &StepConditions) -> bool
        ensures { result ≡ meets self (conditions_of step.now) }
    {
        match self {
            Literal::Any => true,
            Literal::Is(ask) => ask.holds(step),
            Literal::Not(ask) => !ask.holds(step),
        }
    }
}

impl Way {
    /// Whether all of its literals hold in a step.
    pub fn holds(&self, step: &StepConditions) -> bool
        ensures { result ≡ meets_all self.now.first self.now.second self.now.third (conditions_of step.now) }
    {
        match (self.first, self.second, self.third) {
            (Literal::Any, _, _) => true,
            (first, Literal::Any, _) => first.holds(step),
            (first, second, Literal::Any) => first.holds(step) && second.holds(step),
            (first, second, third) => {
                first.holds(step) && (second.holds(step) && third.holds(step))
            }
        }
    }
}
