// All that SAFEBOOL flow refuses in an application, statement by statement.

use crate::places::place_if;
use crate::sources::source_of;
use ps_base::{Fail, Place, Refusal, Rule};
use ps_model::{App, Arg, Args, Expr, Kind, Step, Ty, input_count, input_type, is_safe, pin_name};
use ps_parser::Source;
use ps_resolve::resolve;
use std::alloc::Global;

// The refusals that were found but the first one, and whether memory sufficed for them.
#[derive(Drop)]
struct Flows {
    list: Vec<Refusal>,
    first: Refusal,
    is_whole: bool,
}

impl Flows {
    // One more, unless it is the first one.
    fn add(&mut self, rule: Rule, place: Place) {
        let refusal = Refusal { rule, place };
        if refusal != self.first && self.list.push(refusal).is_err() {
            self.is_whole = false;
        }
    }
}

// Whether a signal is SAFEBOOL.
fn is_safe_at(app: &App, signal: u16) -> bool {
    signal < app.signal_count() && is_safe(app, signal)
}

// Whether a value is SAFEBOOL: an AND by one operand, an OR by all.
fn is_safe_value(app: &App, value: &Expr) -> bool {
    match value {
        Expr::Signal(signal) => is_safe_at(app, *signal),
        Expr::And(values) => {
            for x in &values.items {
                if is_safe_value(app, x) {
                    return true;
                }
            }
            false
        }
        Expr::Or(values) => {
            for x in &values.items {
                if !is_safe_value(app, x) {
                    return false;
                }
            }
            true
        }
    }
}

// The rule that refuses what stands at a pin of this type.
fn broken_at(app: &App, ty: Ty, arg: &Arg) -> Option<Rule> {
    match (ty, arg) {
        (Ty::Time, Arg::Lit(_) | Arg::Value(_)) => Some(Rule::S4),
        (Ty::Safe | Ty::Bool, Arg::Time(_)) => Some(Rule::S3),
        (Ty::Safe, Arg::Value(value)) if !is_safe_value(app, value) => Some(Rule::S2),
        _ => None,
    }
}

// The place of a step, or of the pin of this name in it; line 0 where there is none.
fn place_of(source: &Source, step: u16, pin: Option<&str>) -> Place {
    match place_if(source, step, pin) {
        Some(place) => place,
        None => Place { line: 0, column: 0 },
    }
}

// Adds the refusals of the pins of a call.
fn add_of_call(flows: &mut Flows, source: &Source, app: &App, step: u16, kind: Kind, args: &Args) {
    for j in 0..input_count(kind) {
        if (j as usize) < args.len() {
            if let Some(rule) = broken_at(app, input_type(kind, j), args.at(j as usize)) {
                flows.add(rule, place_of(source, step, Some(pin_name(kind, j))));
            }
        }
    }
}

// Adds the refusals of a step.
fn add_of_step(flows: &mut Flows, source: &Source, app: &App, k: u16, step: &Step) {
    match step {
        Step::Assign { target, value } => {
            if is_safe_at(app, *target) && !is_safe_value(app, value) {
                flows.add(Rule::S1, place_of(source, k, None));
            }
        }
        Step::Call { instance, args } => {
            if *instance < app.instance_count() {
                add_of_call(flows, source, app, k, app.instance_kind(*instance), args);
            }
        }
    }
}

// All refusals of an application by the rules S but the first one, in the order of its steps.
fn flows_of(
    alloc: Global,
    source: &Source,
    app: &App,
    first: &Refusal,
) -> Result<Vec<Refusal>, Fail> {
    let mut flows = Flows {
        list: Vec::new(alloc),
        first: *first,
        is_whole: true,
    };
    for k in 0..app.step_count() {
        add_of_step(&mut flows, source, app, k, app.step(k));
    }
    if flows.is_whole {
        Ok(flows.list)
    } else {
        Err(Fail::Memory)
    }
}

// All refusals of a flat source by the rules S but the first one; a failure where a rule N refuses it.
fn flows_from(alloc: Global, source: &Source, first: &Refusal) -> Result<Vec<Refusal>, Fail> {
    match resolve(alloc, source) {
        Ok(app) => flows_of(alloc, source, &app, first),
        Err(fail) => Err(fail),
    }
}

/// All refusals of the application of a text by the rules S but the first one, in the order of statements and pins; a
/// failure where a rule L, P, B or N refuses the text.
pub(crate) fn flows_in(alloc: Global, text: &[u8], first: &Refusal) -> Result<Vec<Refusal>, Fail> {
    match source_of(alloc, text) {
        Ok(source) => flows_from(alloc, &source, first),
        Err(fail) => Err(fail),
    }
}
