// Which pin a safe output lacks.

ghost use Rattle.std.specs.Prelude.{◌≡◌, ◌<◌, ◌++◌, false, true, not, find, Contains, IfOk, OnOk, length};
ghost use Rattle.ps_model.specs.Blocks.{block};
ghost use Rattle.ps_model.specs.Demand.{are_met, demand, is_met};
ghost use Rattle.ps_model.specs.declared.demands.Need.{Need};
ghost use Rattle.ps_ways.specs.Stepping.{conditions_of};
ghost use Rattle.ps_why.specs.Reasons.{denied};
ghost use Rattle.ps_why.specs.Rests.{unmet};

use crate::Fact;
use ps_base::Memory;
use ps_model::{Kind, Need, demand};
use ps_ways::StepConditions;

// Whether a pin is as a demand asks.
fn is_met(need: Need, seen: &StepConditions) -> bool
    ensures { result ≡ is_met (conditions_of seen.now).pin need }
{
    match need {
        Need::On(pin) => seen.pin(pin),
        Need::Off(pin) => !seen.pin(pin),
    }
}

// The first part of the demand of a safe output that is not met.
fn first_unmet(kind: Kind, output: u8, seen: &StepConditions) -> Option<Need>
    requires { output < length (block kind).outputs }
    ensures { result ≡ find (λ n. not (is_met (conditions_of seen.now).pin n)) (demand kind output) }
{
    for need in demand(kind, output) {
        if !is_met(*need, seen) {
            return Some(*need);
        }
    }
    None
}

// The fact that the pin is not as the demand asks.
fn unmet_fact(step: u16, need: Need) -> Fact
    ensures { result ≡ unmet step need }
{
    match need {
        Need::On(pin) => Fact::PinIs {
            step,
            pin,
            value: false,
        },
        Need::Off(pin) => Fact::PinIs {
            step,
            pin,
            value: true,
        },
    }
}

/// Tells of a safe output the first pin that its demand names and that is not as the demand asks, if there is one, and
/// answers whether there is. The output is one of the safe outputs of the kind, from 0. `Err` comes only where memory
/// is wanting.
pub fn tell_denial(
    kind: Kind,
    output: u8,
    step: u16,
    seen: &StepConditions,
    facts: &mut Vec<Fact>,
) -> Result<bool, Memory>
    requires { output < length (block kind).outputs }
    ensures denied { IfOk result (λ b. b ≡ true →
        (need : Need) × Contains (demand kind output) need × Contains facts.new.items (unmet step need)) }
    ensures met { IfOk result (λ b. b ≡ false → are_met (conditions_of seen.now).pin (demand kind output) ≡ true) }
    ensures told { OnOk result (facts.new.items
        ≡ facts.old.items ++ denied step (conditions_of seen.now).pin (demand kind output)) }
{
    match first_unmet(kind, output, seen) {
        None => Ok(false),
        Some(need) => {
            facts.push(unmet_fact(step, need))?;
            Ok(true)
        }
    }
}
