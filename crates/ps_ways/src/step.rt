// What the guards of a step see.

ghost use Rattle.std.specs.Prelude.{◌≡◌, ◌≤◌, if◌then◌else◌};
ghost use Rattle.ps_model.specs.Blocks.{at_pin, exactly_on, modes_on};
ghost use Rattle.ps_model.specs.Kept.{Kept, seen};
ghost use Rattle.ps_ways.specs.Stepping.{IsLastOf, conditions_of, pins_of};

use ps_model::{Kind, auxiliary_pin, reset_pin};

/// What a step keeps of the last one: its Reset, its auxiliary input, and the latched mode.
#[derive(Clone, Copy)]
pub struct LastStep {
    /// Reset was TRUE.
    pub reset: bool,
    /// The auxiliary input was TRUE.
    pub auxiliary: bool,
    /// The latched mode, 0 to 7.
    pub mode: u8,
}

/// What the guards of a step see: its pins, what became of Reset and of the auxiliary input since the last step,
/// whether the limit has elapsed, and the modes.
#[derive(Clone, Copy)]
pub struct StepConditions {
    /// The Boolean input pins: bit j is pin j of the kind.
    pub pins: u32,
    /// Reset rises.
    pub edge: bool,
    /// Reset is held.
    pub held: bool,
    /// The auxiliary input rises.
    pub rise: bool,
    /// The limit has elapsed.
    pub elapsed: bool,
    /// How many modes are TRUE, from 0 to 8.
    pub modes: u8,
    /// The TRUE modes are exactly the latched one.
    pub latched: bool,
}

// Whether a pin is TRUE, by its number; FALSE past the thirty-second.
fn is_on(pins: u32, j: u8) -> bool
    ensures { result ≡ pins_of pins j }
{
    j < 32 && (pins >> j) & 1 == 1
}

// Whether a pin that a kind may lack is TRUE.
fn is_on_at(pins: u32, pin: Option<u8>) -> bool
    ensures { result ≡ at_pin pin (pins_of pins) }
{
    match pin {
        Some(j) => is_on(pins, j),
        None => false,
    }
}

// One for a pin that is TRUE, else zero.
fn one_if_on(pins: u32, j: u8) -> u8
    ensures one { result ≡ if pins_of pins j then 1 else 0 }
    ensures few { result ≤ 1 }
{
    if is_on(pins, j) { 1 } else { 0 }
}

// How many modes are TRUE: of the pins 1 to 8.
fn modes_of(pins: u32) -> u8
    ensures { result ≡ modes_on (pins_of pins) }
{
    let first = one_if_on(pins, 1) + one_if_on(pins, 2) + one_if_on(pins, 3) + one_if_on(pins, 4);
    let last = one_if_on(pins, 5) + one_if_on(pins, 6) + one_if_on(pins, 7) + one_if_on(pins, 8);
    first + last
}

impl StepConditions {
    /// The conditions of a step of an instance, by its pins, what it keeps of the last step, and whether its limit has
    /// elapsed.
    pub fn of(kind: Kind, pins: u32, last: LastStep, elapsed: bool) -> StepConditions
        requires { last.mode ≤ 7 }
        ensures { (k : Kept) → IsLastOf k last → conditions_of result ≡ seen kind (pins_of pins) elapsed k }
    {
        let reset = is_on_at(pins, reset_pin(kind));
        let modes = modes_of(pins);
        StepConditions {
            pins,
            edge: reset && !last.reset,
            held: reset && last.reset,
            rise: is_on_at(pins, auxiliary_pin(kind)) && !last.auxiliary,
            elapsed,
            modes,
            latched: modes == 1 && is_on(pins, last.mode + 1),
        }
    }

    /// Whether a pin is TRUE, by its number; FALSE past the thirty-two that a step may have.
    pub fn pin(&self, j: u8) -> bool
        ensures { result ≡ (conditions_of self.now).pin j }
    {
        is_on(self.pins, j)
    }
}
