// What is told of the guards of a state.

ghost use Rattle.std.specs.Prelude.{◌≡◌, ◌++◌, not, find, flat_map, Contains, IfOk, OnOk};
ghost use Rattle.ps_ways.specs.Stepping.{conditions_of};
ghost use Rattle.ps_ways.specs.Tables.{ways_of};
ghost use Rattle.ps_ways.specs.Ways.{meets};
ghost use Rattle.ps_why.specs.Guards.{Decides, before_any};
ghost use Rattle.ps_why.specs.Reasons.{guards_are, literal_is, tried};

use crate::fact::Fact;
use ps_base::Memory;
use ps_model::Kind;
use ps_ways::{Literal, StepConditions, ways};

// The first of these literals that does not hold, up to the first that asks nothing.
fn failing(literals: &[Literal], seen: &StepConditions) -> Option<Literal>
    ensures { result ≡ find (λ l. not (meets l (conditions_of seen.now))) (before_any literals.now) }
{
    for literal in literals {
        if let Literal::Any = literal {
            return None;
        }
        if !literal.holds(seen) {
            return Some(*literal);
        }
    }
    None
}

// Tells whether a literal holds.
fn tell_literal(
    literal: Literal,
    step: u16,
    seen: &StepConditions,
    facts: &mut Vec<Fact>,
) -> Result<(), Memory>
    ensures { OnOk result (facts.new.items ≡ facts.old.items ++ literal_is step (conditions_of seen.now) literal) }
{
    match literal {
        Literal::Any => {}
        Literal::Is(ask) | Literal::Not(ask) => {
            let value = ask.holds(seen);
            facts.push(Fact::AskIs { step, ask, value })?;
        }
    }
    Ok(())
}

// Tells whether these literals hold, up to the first that asks nothing.
fn tell_literals(
    literals: &[Literal],
    step: u16,
    seen: &StepConditions,
    facts: &mut Vec<Fact>,
) -> Result<(), Memory>
    ensures { OnOk result (facts.new.items
        ≡ facts.old.items ++ flat_map (literal_is step (conditions_of seen.now)) (before_any literals.now)) }
{
    for literal in literals {
        if let Literal::Any = literal {
            return Ok(());
        }
        tell_literal(*literal, step, seen, facts)?;
    }
    Ok(())
}

/// Tells of the guards of a state what decides: of each way that does not hold the first literal that does not, and of
/// the first one that holds all that it asks. It answers the next state; where no way holds that is the state, and what
/// is told is what it waits for. Activate is TRUE in the step and the state is not Idle: these stand before all guards.
/// `Err` comes only if memory runs out.
pub fn tell_guards(
    kind: Kind,
    state: u16,
    step: u16,
    seen: &StepConditions,
    facts: &mut Vec<Fact>,
) -> Result<u16, Memory>
    ensures decides { IfOk result (λ q. Decides (Contains facts.new.items) step (ways_of kind) state q) }
    ensures told { OnOk result (facts.new.items ≡ facts.old.items
        ++ guards_are step (conditions_of seen.now) (tried (conditions_of seen.now) state (ways_of kind))) }
{
    for way in ways(kind) {
        if way.state != state {
            continue;
        }
        let literals = [way.first, way.second, way.third];
        match failing(&literals, seen) {
            Some(literal) => tell_literal(literal, step, seen, facts)?,
            None => {
                tell_literals(&literals, step, seen, facts)?;
                return Ok(way.next);
            }
        }
    }
    Ok(state)
}
