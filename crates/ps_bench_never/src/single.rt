// A rules file with one of its rules alone.

ghost use Rattle.std.specs.Prelude.{◌≡◌, IfOk};
ghost use Rattle.ps_bench_never.specs.Single.{with_rule};

use ps_base::{Label, Memory};
use ps_bench_names::{Setting, Settings, Values};
use ps_bench_rules::{Condition, Conditions, Follow, Follows, Rule, Rules, RulesFile};
use std::alloc::Global;

// The same values.
fn copied_values(alloc: Global, values: &[u16]) -> Result<Values, Memory>
    ensures { IfOk result (λ copied. copied ≡ values.now) }
{
    let mut copied = Values::new(alloc);
    for value in values {
        copied.push(*value)?;
    }
    Ok(copied)
}

// The same condition.
fn copied_condition(alloc: Global, condition: &Condition) -> Result<Condition, Memory>
    ensures { IfOk result (λ copied. copied ≡ condition.now) }
{
    let values = copied_values(alloc, condition.values.as_slice())?;
    Ok(Condition {
        name: condition.name,
        before: condition.before,
        denied: condition.denied,
        values,
    })
}

// The same conditions.
fn copied_conditions(alloc: Global, conditions: &[Condition]) -> Result<Conditions, Memory>
    ensures { IfOk result (λ copied. copied ≡ conditions.now) }
{
    let mut copied = Conditions::new(alloc);
    for condition in conditions {
        copied.push(copied_condition(alloc, condition)?)?;
    }
    Ok(copied)
}

// The same rule.
fn copied_rule(alloc: Global, rule: &Rule) -> Result<Rule, Memory>
    ensures { IfOk result (λ copied. copied ≡ rule.now) }
{
    let conditions = copied_conditions(alloc, rule.conditions.as_slice())?;
    let name = Label::of(String::from_str(alloc, rule.name.as_str())?);
    Ok(Rule {
        line: rule.line,
        name,
        conditions,
    })
}

// The same settings.
fn copied_settings(alloc: Global, settings: &[Setting]) -> Result<Settings, Memory>
    ensures { IfOk result (λ copied. copied ≡ settings.now) }
{
    let mut copied = Settings::new(alloc);
    for setting in settings {
        copied.push(*setting)?;
    }
    Ok(copied)
}

// The same inputs that follow.
fn copied_follows(alloc: Global, follows: &[Follow]) -> Result<Follows, Memory>
    ensures { IfOk result (λ copied. copied ≡ follows.now) }
{
    let mut copied = Follows::new(alloc);
    for follow in follows {
        copied.push(*follow)?;
    }
    Ok(copied)
}

/// A rules file with one of its rules alone. `Err` comes only if memory runs out.
pub(crate) fn with_rule(alloc: Global, file: &RulesFile, rule: &Rule) -> Result<RulesFile, Memory>
    ensures { IfOk result (λ one. one ≡ with_rule file.now rule.now) }
{
    let mut rules = Rules::new(alloc);
    rules.push(copied_rule(alloc, rule)?)?;
    Ok(RulesFile {
        pace: file.pace,
        fixed: copied_settings(alloc, file.fixed.as_slice())?,
        follows: copied_follows(alloc, file.follows.as_slice())?,
        first: copied_settings(alloc, file.first.as_slice())?,
        rules,
        end: file.end,
    })
}
