// A condition of a guard.

ghost use Rattle.std.specs.Prelude.{◌≡◌};
ghost use Rattle.ps_ways.specs.Conditions.{condition_of};

use crate::{Ask, Literal};

/// What a guard can ask of a step, and whether it holds.
#[derive(Clone, Copy)]
pub struct Condition {
    /// What is asked.
    pub ask: Ask,
    /// Whether it holds.
    pub holds: bool,
}

impl Condition {
    /// What a literal asks for: that something holds, or that it does not. None where it asks nothing.
    pub fn of(literal: Literal) -> Option<Condition>
        ensures { result ≡ condition_of literal }
    {
        match literal {
            Literal::Any => None,
            Literal::Is(ask) => Some(Condition { ask, holds: true }),
            Literal::Not(ask) => Some(Condition { ask, holds: false }),
        }
    }
}
