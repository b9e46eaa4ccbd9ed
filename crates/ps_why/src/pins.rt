// What is told of the pins of a call.

ghost use Rattle.std.specs.Prelude.{◌≡◌, ◌++◌, ◌∷◌, [], IfOk, OnOk};
ghost use Rattle.ps_ways.specs.Stepping.{conditions_of};
ghost use Rattle.ps_why.specs.Reasons.{mode_pins};
ghost use Rattle.ps_why.specs.declared.fact.Fact.TheVariants.{PinIs};

use crate::fact::Fact;
use ps_base::Memory;
use ps_ways::StepConditions;

/// Tells what a pin reads, and answers it. `Err` comes only if memory runs out.
pub fn tell_pin(
    step: u16,
    pin: u8,
    seen: &StepConditions,
    facts: &mut Vec<Fact>,
) -> Result<bool, Memory>
    ensures value { IfOk result (λ value. value ≡ (conditions_of seen.now).pin pin) }
    ensures told { OnOk result (facts.new.items
        ≡ facts.old.items ++ PinIs step pin ((conditions_of seen.now).pin pin) ∷ []) }
{
    let value = seen.pin(pin);
    facts.push(Fact::PinIs { step, pin, value })?;
    Ok(value)
}

/// Tells the eight pins of the modes. `Err` comes only if memory runs out.
pub fn tell_modes(step: u16, seen: &StepConditions, facts: &mut Vec<Fact>) -> Result<(), Memory>
    ensures told { OnOk result (facts.new.items ≡ facts.old.items ++ mode_pins step (conditions_of seen.now).pin) }
{
    for pin in 1..9 {
        tell_pin(step, pin, seen, facts)?;
    }
    Ok(())
}
