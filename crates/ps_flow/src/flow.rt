// The certificate of an accepted application.

ghost use Rattle.std.specs.Prelude.{◌≡◌, ◌++◌, ◌∷◌, ◌+◌, ◌<◌, ◌≤◌, [], true, cond, All, IfOk, OnOk, IfErr, length, map, take};
ghost use Rattle.std.specs.List.{flat_map};
ghost use Rattle.ps_model.specs.Action.{calls};
ghost use Rattle.ps_model.specs.Args.{actual};
ghost use Rattle.ps_model.specs.Blocks.{block};
ghost use Rattle.ps_model.specs.Exprs.{formula, operands};
ghost use Rattle.ps_model.specs.Network.{instance_count, kind_at, signal_count};
ghost use Rattle.ps_model.specs.Nodes.{nodes, nodes_below, nodes_at_pin, nodes_of_step};
ghost use Rattle.ps_model.specs.Obligations.{obligation_at, obligations_at_pins, obligations_of_step};
ghost use Rattle.ps_model.specs.StepOf.{IsStepOf};
ghost use Rattle.ps_model.specs.Steps.{action};
ghost use Rattle.ps_model.specs.Typing.{safe, some_safe, each_safe, is_safe_signal, MayStand};
ghost use Rattle.ps_model.specs.Values.{IsBelow, AreBelow, values_at_pin, values_of_step};
ghost use Rattle.ps_flow.specs.Derivation.{derivation, derivations, of_first_safe, of_each, last_lines};
ghost use Rattle.ps_flow.specs.declared.certificate.LineRule.TheVariants.{Src, And as AndRule, Or as OrRule};
ghost use Rattle.ps_flow.specs.Certifies.{Certifies};
ghost use Rattle.ps_flow.specs.Refusals.{FitsUpTo, FitsStep, PinFails, StepFails};

use crate::certificate::{CertLine, Certificate, LineRule, Premises};
use crate::refusal::{FlowFail, FlowRefusal, PinFail, StepFail};
use ps_base::limits::MOST_NODES;
use ps_base::{Memory, Rule};
use ps_model::{App, Arg, Args, Expr, Step, Ty, input_count, input_type, is_safe, node_count};
use std::alloc::Global;

// Whether a value is SAFEBOOL, and the node after its last one.
#[derive(Clone, Copy)]
struct Derived {
    safe: bool,
    after: u32,
}

// The line of a node.
fn line(node: u32, rule: LineRule, premises: Premises) -> CertLine
    ensures { result ≡ record { node = node; rule = rule; premises = premises } }
{
    CertLine {
        node,
        rule,
        premises,
    }
}

// One line as the only premise.
fn one_premise(alloc: Global, number: u32) -> Result<Premises, Memory>
    ensures { IfOk result (λ premises. premises ≡ number ∷ []) }
{
    let mut premises = Premises::new(alloc);
    premises.push(number)?;
    Ok(premises)
}

// Writes the line of a signal that is SAFEBOOL, and nothing for one that is not.
fn derive_signal(
    alloc: Global,
    app: &App,
    s: u16,
    node: u32,
    cert: &mut Certificate,
) -> Result<Derived, Memory>
    requires below { s < signal_count app.now }
    requires nodes { node < MOST_NODES }
    requires lines { length cert.old < MOST_NODES }
    ensures safe { IfOk result (λ d. d.safe ≡ is_safe_signal app.now s) }
    ensures after { IfOk result (λ d. d.after ≡ node + 1) }
    ensures lines { OnOk result (cert.new ≡ cert.old
        ++ cond (is_safe_signal app.now s) (record { node = node; rule = Src; premises = [] } ∷ []) []) }
{
    let safe = is_safe(app, s);
    if safe {
        cert.push(line(node, LineRule::Src, Premises::new(alloc)))?;
    }
    Ok(Derived {
        safe,
        after: node + 1,
    })
}

// Writes the line of an AND after those of its first SAFEBOOL operand, and nothing where no operand is.
fn end_and(alloc: Global, d: Derived, node: u32, cert: &mut Certificate) -> Result<Derived, Memory>
    requires { length cert.old < MOST_NODES }
    ensures derived { IfOk result (λ r. r ≡ d) }
    ensures lines { OnOk result (cert.new ≡ cert.old
        ++ cond d.safe (record { node = node; rule = AndRule; premises = length cert.old ∷ [] } ∷ []) []) }
{
    if d.safe {
        let premises = one_premise(alloc, cert.len())?;
        cert.push(line(node, LineRule::And, premises))?;
    }
    Ok(d)
}

// Writes the line of an OR after those of its operands; where one is not SAFEBOOL it takes back what was written.
fn end_or(
    d: Derived,
    node: u32,
    before: u32,
    premises: Premises,
    cert: &mut Certificate,
) -> Result<Derived, Memory>
    requires { length cert.old < MOST_NODES }
    ensures derived { IfOk result (λ r. r ≡ d) }
    ensures lines { OnOk result (cert.new ≡ cond d.safe
        (cert.old ++ record { node = node; rule = OrRule; premises = premises } ∷ []) (take before cert.old)) }
{
    if d.safe {
        cert.push(line(node, LineRule::Or, premises))?;
        return Ok(d);
    }
    cert.truncate(before);
    Ok(d)
}

// Writes the derivation of a value, or nothing where it is not SAFEBOOL. Each node is visited once: an AND goes on
// until an operand is SAFEBOOL and counts the others, and an OR that meets one that is not takes back its lines.
#[cycle(value)]
fn derive_value(
    alloc: Global,
    app: &App,
    e: &Expr,
    node: u32,
    cert: &mut Certificate,
) -> Result<Derived, Memory>
    requires below { IsBelow (signal_count app.now) (formula e.now) }
    requires nodes { node + length (nodes (formula e.now)) ≤ MOST_NODES }
    requires lines { length cert.old + length (nodes (formula e.now)) ≤ MOST_NODES }
    ensures safe { IfOk result (λ d. d.safe ≡ safe app.now (formula e.now)) }
    ensures after { IfOk result (λ d. d.after ≡ node + length (nodes (formula e.now))) }
    ensures lines { OnOk result (cert.new ≡ cert.old
        ++ cond (safe app.now (formula e.now)) (derivation app.now (length cert.old) node (formula e.now)) []) }
{
    match e {
        Expr::Signal(s) => derive_signal(alloc, app, *s, node, cert),
        Expr::And(es) => {
            let d = derive_first(alloc, app, &es.items, node + 1, cert)?;
            end_and(alloc, d, node, cert)
        }
        Expr::Or(es) => {
            let before = cert.len();
            let mut premises = Premises::new(alloc);
            let d = derive_each(alloc, app, &es.items, node + 1, cert, &mut premises)?;
            end_or(d, node, before, premises, cert)
        }
    }
}

// Writes the derivation of the first of these operands that is SAFEBOOL, and counts the nodes of the others. The first
// operand has this node.
#[cycle(value)]
fn derive_first(
    alloc: Global,
    app: &App,
    all: &[Expr],
    node: u32,
    cert: &mut Certificate,
) -> Result<Derived, Memory>
    requires below { AreBelow (signal_count app.now) (operands (map formula all.now)) }
    requires nodes { node + length (nodes_below (operands (map formula all.now))) ≤ MOST_NODES }
    requires lines { length cert.old + length (nodes_below (operands (map formula all.now))) < MOST_NODES }
    ensures safe { IfOk result (λ d. d.safe ≡ some_safe app.now (operands (map formula all.now))) }
    ensures after { IfOk result (λ d. d.after ≡ node + length (nodes_below (operands (map formula all.now)))) }
    ensures room { OnOk result (length cert.new < MOST_NODES) }
    ensures lines { OnOk result (cert.new ≡ cert.old ++ cond (some_safe app.now (operands (map formula all.now)))
        (of_first_safe app.now (length cert.old) node (operands (map formula all.now))) []) }
{
    let mut after = node;
    let mut safe = false;
    for x in all {
        if safe {
            after += node_count(x);
        } else {
            let d = derive_value(alloc, app, x, after, cert)?;
            after = d.after;
            safe = d.safe;
        }
    }
    Ok(Derived { safe, after })
}

// Writes the derivations of these operands up to the first that is not SAFEBOOL, adds the last line of each to the
// premises, and counts the nodes of the others. The first operand has this node.
#[cycle(value)]
fn derive_each(
    alloc: Global,
    app: &App,
    all: &[Expr],
    node: u32,
    cert: &mut Certificate,
    premises: &mut Premises,
) -> Result<Derived, Memory>
    requires below { AreBelow (signal_count app.now) (operands (map formula all.now)) }
    requires nodes { node + length (nodes_below (operands (map formula all.now))) ≤ MOST_NODES }
    requires lines { length cert.old + length (nodes_below (operands (map formula all.now))) < MOST_NODES }
    ensures safe { IfOk result (λ d. d.safe ≡ each_safe app.now (operands (map formula all.now))) }
    ensures after { IfOk result (λ d. d.after ≡ node + length (nodes_below (operands (map formula all.now)))) }
    ensures room { OnOk result (length cert.new < MOST_NODES) }
    ensures kept { OnOk result (take (length cert.old) cert.new ≡ cert.old) }
    ensures lines { OnOk result (each_safe app.now (operands (map formula all.now)) ≡ true →
        cert.new ≡ cert.old ++ of_each app.now (length cert.old) node (operands (map formula all.now))) }
    ensures premises { OnOk result (each_safe app.now (operands (map formula all.now)) ≡ true →
        premises.new ≡ premises.old ++ last_lines app.now (length cert.old) node (operands (map formula all.now))) }
{
    let mut after = node;
    let mut all_safe = true;
    for x in all {
        if all_safe {
            let d = derive_value(alloc, app, x, after, cert)?;
            after = d.after;
            all_safe = d.safe;
            premises.push(cert.len())?;
        } else {
            after += node_count(x);
        }
    }
    Ok(Derived {
        safe: all_safe,
        after,
    })
}

// Writes the lines of what stands at a pin, and answers the node after it.
fn derive_pin(
    alloc: Global,
    app: &App,
    ty: Ty,
    arg: &Arg,
    node: u32,
    cert: &mut Certificate,
) -> Result<u32, PinFail>
    requires below { All (IsBelow (signal_count app.now)) (values_at_pin (actual arg.now)) }
    requires nodes { node + length (nodes_at_pin (actual arg.now)) ≤ MOST_NODES }
    requires lines { length cert.old + length (nodes_at_pin (actual arg.now)) ≤ MOST_NODES }
    ensures fits { OnOk result (MayStand app.now ty (actual arg.now)) }
    ensures after { IfOk result (λ after. after ≡ node + length (nodes_at_pin (actual arg.now))) }
    ensures lines { OnOk result (cert.new ≡ cert.old
        ++ derivations app.now (length cert.old) (obligation_at node ty (actual arg.now))) }
    ensures breaks { IfErr result (PinFails app.now ty (actual arg.now)) }
{
    match arg {
        Arg::Free => Ok(node),
        Arg::Lit(_) => match ty {
            Ty::Time => Err(PinFail::Breaks(Rule::S4)),
            Ty::Safe | Ty::Bool => Ok(node),
        },
        Arg::Time(_) => match ty {
            Ty::Time => Ok(node),
            Ty::Safe | Ty::Bool => Err(PinFail::Breaks(Rule::S3)),
        },
        Arg::Value(e) => match ty {
            Ty::Time => Err(PinFail::Breaks(Rule::S4)),
            Ty::Bool => Ok(node + node_count(e)),
            Ty::Safe => {
                let d = derive_value(alloc, app, e, node, cert)?;
                if d.safe {
                    Ok(d.after)
                } else {
                    Err(PinFail::Breaks(Rule::S2))
                }
            }
        },
    }
}

// Writes the lines of a call's pins, and answers the node after them.
fn derive_pins(
    alloc: Global,
    app: &App,
    i: u16,
    args: &Args,
    node: u32,
    cert: &mut Certificate,
) -> Result<u32, StepFail>
    requires inside { i < instance_count app.now }
    requires each { length args.now ≡ length (block (kind_at app.now i)).inputs }
    requires below { All (IsBelow (signal_count app.now)) (flat_map values_at_pin args.now) }
    requires nodes { node + length (flat_map nodes_at_pin args.now) ≤ MOST_NODES }
    requires lines { length cert.old + length (flat_map nodes_at_pin args.now) ≤ MOST_NODES }
    ensures fits { OnOk result (FitsUpTo app.now (length args.now) i args.now) }
    ensures after { IfOk result (λ after. after ≡ node + length (flat_map nodes_at_pin args.now)) }
    ensures lines { OnOk result (cert.new ≡ cert.old
        ++ derivations app.now (length cert.old) (obligations_at_pins node (block (kind_at app.now i)).inputs args.now)) }
    ensures breaks { IfErr result (StepFails app.now (calls i args.now)) }
{
    let kind = app.instance_kind(i);
    let mut after = node;
    for j in 0..input_count(kind) {
        let arg = args.at(j as usize);
        match derive_pin(alloc, app, input_type(kind, j), arg, after, cert) {
            Ok(next) => after = next,
            Err(PinFail::Memory) => return Err(StepFail::Memory),
            Err(PinFail::Breaks(rule)) => return Err(StepFail::Breaks(rule, Some(j))),
        }
    }
    Ok(after)
}

// Writes the lines of a step, and answers the node after it.
fn derive_step(
    alloc: Global,
    app: &App,
    step: &Step,
    node: u32,
    cert: &mut Certificate,
) -> Result<u32, StepFail>
    requires step { IsStepOf app.now (action step.now) }
    requires below { All (IsBelow (signal_count app.now)) (values_of_step (action step.now)) }
    requires nodes { node + length (nodes_of_step (action step.now)) ≤ MOST_NODES }
    requires lines { length cert.old + length (nodes_of_step (action step.now)) ≤ MOST_NODES }
    ensures fits { OnOk result (FitsStep app.now (action step.now)) }
    ensures after { IfOk result (λ after. after ≡ node + length (nodes_of_step (action step.now))) }
    ensures lines { OnOk result (cert.new ≡ cert.old
        ++ derivations app.now (length cert.old) (obligations_of_step app.now node (action step.now))) }
    ensures breaks { IfErr result (StepFails app.now (action step.now)) }
{
    match step {
        Step::Assign { target, value } => {
            if !is_safe(app, *target) {
                return Ok(node + node_count(value));
            }
            let d = derive_value(alloc, app, value, node, cert)?;
            if d.safe {
                Ok(d.after)
            } else {
                Err(StepFail::Breaks(Rule::S1, None))
            }
        }
        Step::Call { instance, args } => derive_pins(alloc, app, *instance, args, node, cert),
    }
}

/// The certificate of an application that SAFEBOOL flow accepts: for each value that must be SAFEBOOL, in the order
/// of steps and pins, the lines of its derivation.
///
/// Otherwise the refusal of the earliest step, and of its first pin in the pin table's order: S1 where the value
/// assigned to a SAFEBOOL signal is BOOL, S2 where the value at a SAFEBOOL pin is, S3 where a TIME literal stands at
/// a Boolean pin, S4 where a Boolean literal or a value stands at a TIME pin. It visits each node once.
pub fn derive(alloc: Global, app: &App) -> Result<Certificate, FlowFail>
    ensures { Certifies app.now result }
{
    app.sound();
    let mut cert = Certificate::new(alloc);
    let mut node = 0;
    for k in 0..app.step_count() {
        match derive_step(alloc, app, app.step(k), node, &mut cert) {
            Ok(after) => node = after,
            Err(StepFail::Memory) => return Err(FlowFail::Memory),
            Err(StepFail::Breaks(rule, pin)) => {
                return Err(FlowFail::Refused(FlowRefusal { rule, step: k, pin }));
            }
        }
    }
    Ok(cert)
}
