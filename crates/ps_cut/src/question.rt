// What is asked of a part, from what is asked of the application.

use crate::layout::Layout;
use crate::needs::Ground;
use crate::part::Origin;
use ps_base::Memory;
use ps_reach::{Asked, Check, InputRule, Rule, Source, Subject};
use std::alloc::Global;

// Nothing is said of an input.
const FREE: InputRule = InputRule {
    source: Source::Free,
    first: None,
};

// What is said of an input of the application, as said of the input of the part.
fn said_alike(layout: &Layout, said: InputRule) -> InputRule {
    let source = match said.source {
        Source::Follows { signal, negated } => Source::Follows {
            signal: layout.number_of(signal),
            negated,
        },
        other => other,
    };
    InputRule {
        source,
        first: said.first,
    }
}

// What is said of an input of the part that has its value from here.
fn said_of(ground: &Ground<'_>, layout: &Layout, origin: Origin) -> InputRule {
    match origin {
        Origin::Now(s) if s < ground.app.input_count() => {
            match ground.asked.inputs.get(usize::from(s)) {
                Some(said) => said_alike(layout, *said),
                None => FREE,
            }
        }
        Origin::Now(_) => FREE,
        Origin::Before(s) => InputRule {
            source: Source::Follows {
                signal: layout.number_of(s),
                negated: false,
            },
            first: Some(false),
        },
    }
}

// What is said of the inputs of the part.
fn inputs_of(
    alloc: Global,
    ground: &Ground<'_>,
    layout: &Layout,
) -> Result<Vec<InputRule>, Memory> {
    let mut inputs = Vec::new(alloc);
    for r in 0..layout.input_count {
        if let Some(origin) = layout.origins.get(r) {
            inputs.push(said_of(ground, layout, *origin))?;
        }
    }
    Ok(inputs)
}

// A value of the application as one of the part.
fn subject_of(layout: &Layout, subject: Subject) -> Subject {
    match subject {
        Subject::Signal(s) => Subject::Signal(layout.number_of(s)),
        Subject::Code(i) => Subject::Code(layout.instance_of(i)),
        Subject::Pin { instance, pin } => Subject::Pin {
            instance: layout.instance_of(instance),
            pin,
        },
    }
}

// A check of the application as one of the part.
fn check_of(alloc: Global, layout: &Layout, check: &Check) -> Result<Check, Memory> {
    let mut values = Vec::new(alloc);
    values.extend_from_slice(check.values.as_slice())?;
    Ok(Check {
        subject: subject_of(layout, check.subject),
        before: check.before,
        denied: check.denied,
        values,
    })
}

// A rule of the application as one of the part.
fn rule_of(alloc: Global, layout: &Layout, rule: &Rule) -> Result<Rule, Memory> {
    let mut checks = Vec::new(alloc);
    for check in &rule.checks {
        checks.push(check_of(alloc, layout, check)?)?;
    }
    Ok(Rule { checks })
}

/// What is asked of a part with these numbers: its only rule is this one. An error means out of memory.
pub(crate) fn question_of(
    alloc: Global,
    ground: &Ground<'_>,
    layout: &Layout,
    rule: &Rule,
) -> Result<Asked, Memory> {
    let inputs = inputs_of(alloc, ground, layout)?;
    let rule = rule_of(alloc, layout, rule)?;
    let mut rules = Vec::new(alloc);
    rules.push(rule)?;
    Ok(Asked {
        every: ground.asked.every,
        inputs,
        rules,
    })
}
