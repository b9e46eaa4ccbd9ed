// Whether a certificate derives an application.

ghost use Rattle.std.specs.Prelude.{◌≡◌, ◌+◌, ◌<◌, ◌≤◌, ◌==◌, ℕ, true, false, is_some, IfOk, IfErr, OnOk, OnErr};
ghost use Rattle.std.specs.Prelude.{IfSome, IfNone, length, slice_get, slice_index_or, Some};
ghost use Rattle.std.specs.List.{list_all, list_any, flat_map};
ghost use Rattle.ps_model.specs.Action.{free};
ghost use Rattle.ps_model.specs.Args.{actual};
ghost use Rattle.ps_model.specs.Blocks.{block};
ghost use Rattle.ps_model.specs.Formula.{Formula, Formulas};
ghost use Rattle.ps_model.specs.Network.{instance_count, kind_at, signal_count};
ghost use Rattle.ps_model.specs.Nodes.{nodes_at_pin, nodes_below, nodes_of_step, app_nodes, operand_places};
ghost use Rattle.ps_model.specs.NodeList.{node_list, listed_below};
ghost use Rattle.ps_model.specs.Obligations.{obligation_at, obligations, obligations_at_pins, obligations_of_step};
ghost use Rattle.ps_model.specs.Scanning.{pin_at};
ghost use Rattle.ps_model.specs.StepOf.{IsStepOf};
ghost use Rattle.ps_model.specs.Steps.{action};
ghost use Rattle.ps_model.specs.Typing.{Accepted};
ghost use Rattle.ps_flow.specs.declared.certificate.CertLine.{CertLine};
ghost use Rattle.ps_model.specs.Standing.{StandsAt};
ghost use Rattle.ps_checker.specs.Derives.{Derives, IsInstance, is_earlier, speak_of, fits, has_line, literal_fits};
ghost use Rattle.ps_checker.specs.Derives.{LiteralsFit};
ghost use Rattle.ps_checker.specs.Fitting.{fits_shape, IsKnown};
ghost use Rattle.ps_checker.specs.Lawful.{KeepsSkeletons};
ghost use Rattle.ps_checker.specs.Objections.{Objects, LineBreaks, LiteralMisfits};

use crate::covering::is_covered;
use crate::objection::{Checked, Objection};
use ps_base::Rule;
use ps_flow::{CertLine, Certificate, LineRule};
use ps_model::{App, Arg, Args, Node, Shape, Step, Ty, input_count, input_type, is_safe};

// Whether all premises are numbers of the first i lines.
fn are_earlier(premises: &[u32], i: usize) -> bool
    ensures { result ≡ list_all (is_earlier i) premises.now }
{
    for p in premises {
        if *p < 1 || *p as usize > i {
            return false;
        }
    }
    true
}

// Whether each premise speaks of the operand at its place. The operands stand from node `at` up to node `end`; from
// one to the next it goes by the number of nodes of the first, so it takes a step for each premise.
fn speak_of(app: &App, lines: &[CertLine], premises: &[u32], at: usize, end: usize) -> bool
    requires end { end ≤ length (app_nodes app.now) }
    requires earlier { list_all (is_earlier (length lines.now)) premises.now ≡ true }
    ensures { (depth : ℕ) (es : Formulas) → StandsAt (node_list app.now) at (listed_below depth es) → end ≡ at + length (nodes_below es) →
        result ≡ speak_of lines.now premises.now (operand_places at es) }
{
    app.sound();
    let nodes = app.nodes();
    let mut m = at;
    for p in premises {
        if m >= end || lines[*p as usize - 1].node as usize != m {
            return false;
        }
        m += nodes[m].size;
    }
    m == end
}

// Whether a node is one of the operands, which stand from node `at` up to node `end`, of an AND at this depth. The
// operands are one deeper than the AND, and what stands below them is deeper still, so one look at the node's own row
// says it, however many operands there are.
fn is_operand(app: &App, depth: usize, at: usize, end: usize, node: usize) -> bool
    requires end { end ≤ length (app_nodes app.now) }
    ensures { (es : Formulas) → StandsAt (node_list app.now) at (listed_below (depth + 1) es) → end ≡ at + length (nodes_below es) →
        result ≡ list_any (λ m. m == node) (operand_places at es) }
{
    app.sound();
    if node < at || end <= node {
        return false;
    }
    app.nodes()[node].depth.saturating_sub(depth) == 1
}

// Whether a rule fits a node of this shape, whose operands stand after it, from node `at` on.
fn shape_fits(
    app: &App,
    lines: &[CertLine],
    rule: LineRule,
    row: Node,
    premises: &[u32],
    at: usize,
) -> bool
    requires end { at + row.size ≤ length (app_nodes app.now) + 1 }
    requires some { 1 ≤ row.size }
    requires known { IsKnown (signal_count app.now) row.shape }
    requires earlier { list_all (is_earlier (length lines.now)) premises.now ≡ true }
    ensures { (es : Formulas) → StandsAt (node_list app.now) at (listed_below (row.depth + 1) es) → row.size ≡ 1 + length (nodes_below es) →
        result ≡ fits_shape app.now lines.now rule row.shape premises.now (operand_places at es) }
{
    app.sound();
    let end = at + (row.size - 1);
    match rule {
        LineRule::Src => match row.shape {
            Shape::Signal(s) => premises.is_empty() && is_safe(app, s),
            Shape::And => false,
            Shape::Or => false,
        },
        LineRule::And => match row.shape {
            Shape::Signal(_) => false,
            Shape::And => match premises {
                [p] => is_operand(
                    app,
                    row.depth,
                    at,
                    end,
                    lines[*p as usize - 1].node as usize,
                ),
                _ => false,
            },
            Shape::Or => false,
        },
        LineRule::Or => match row.shape {
            Shape::Signal(_) => false,
            Shape::And => false,
            Shape::Or => speak_of(app, lines, premises, at, end),
        },
    }
}

// Whether the rule of a line fits its node. The node is looked up by its number in the application's rows, so a line
// takes no walk over the application.
fn rule_fits(app: &App, lines: &[CertLine], l: &CertLine) -> bool
    requires exists { l.now.node < length (app_nodes app.now) }
    requires earlier { list_all (is_earlier (length lines.now)) l.now.premises ≡ true }
    ensures { (e : Formula) → slice_get (app_nodes app.now) l.now.node ≡ Some e →
        result ≡ fits app.now lines.now l.now.rule l.now.premises (l.now.node + 1) e }
{
    app.sound();
    let n = l.node as usize;
    shape_fits(
        app,
        lines,
        l.rule,
        app.nodes()[n],
        l.premises.as_slice(),
        n + 1,
    )
}

// What is wrong with the line after the first i, if anything is.
fn line_objection(app: &App, lines: &[CertLine], i: usize) -> Option<Rule>
    requires { i < length lines.now }
    ensures none { IfNone result (
        (l : CertLine) → slice_get lines.now i ≡ Some l → IsInstance app.now lines.now i l) }
    ensures some { IfSome result (λ rule.
        (l : CertLine) → slice_get lines.now i ≡ Some l → LineBreaks app.now lines.now i l rule) }
{
    let l = &lines[i];
    if l.node >= app.node_count() {
        return Some(Rule::O1);
    }
    if !are_earlier(l.premises.as_slice(), i) {
        return Some(Rule::O2);
    }
    if !rule_fits(app, lines, l) {
        return Some(Rule::O3);
    }
    None
}

// Whether what stands at a pin is of the right sort.
fn pin_fits(ty: Ty, arg: &Arg) -> bool
    ensures { result ≡ literal_fits ty (actual arg.now) }
{
    match arg {
        Arg::Free => true,
        Arg::Time(_) => ty == Ty::Time,
        Arg::Lit(_) => ty != Ty::Time,
        Arg::Value(_) => ty != Ty::Time,
    }
}

// The first pin of a call where something of the wrong sort stands.
fn pin_misfit(app: &App, i: u16, args: &Args) -> Option<u8>
    requires inside { i < instance_count app.now }
    requires each { length args.now ≡ length (block (kind_at app.now i)).inputs }
    ensures none { IfNone result ((j : ℕ) → j < length args.now →
        literal_fits (pin_at (kind_at app.now i) j).ty (slice_index_or args.now j free) ≡ true) }
    ensures some { IfSome result (λ j. (j < length args.now)
        × (literal_fits (pin_at (kind_at app.now i) j).ty (slice_index_or args.now j free) ≡ false)) }
{
    let kind = app.instance_kind(i);
    for j in 0..input_count(kind) {
        if !pin_fits(input_type(kind, j), args.at(j as usize)) {
            return Some(j);
        }
    }
    None
}

// Whether something of the wrong sort stands at a pin.
fn has_misfit(app: &App) -> bool
    ensures fits { result ≡ false → LiteralsFit app.now }
    ensures misfits { result ≡ true → LiteralMisfits app.now }
{
    app.sound();
    for k in 0..app.step_count() {
        if let Step::Call { instance, args } = app.step(k) {
            if pin_misfit(app, *instance, args).is_some() {
                return true;
            }
        }
    }
    false
}

/// Whether a certificate derives an application; otherwise the first objection. It takes no memory, and time in
/// proportion to the lines with their premises and to the application.
///
/// The lines are tried in order, and within a line O1 where its node does not exist, O2 where a premise is not the
/// number of an earlier line, O3 where its rule does not fit: SRC fits a signal of type SAFEBOOL with no premises, AND
/// an AND with one premise that speaks of one of its operands, OR an OR with a premise for each operand, each speaking
/// of the operand at its place. After the lines O5 is tried, where a literal does not fit its pin or a value stands at
/// a TIME pin, and then O4, where an obligation has no line.
pub fn check(app: &App, cert: &Certificate) -> Result<Checked, Objection>
    ensures derives { OnOk result (Derives app.now cert.now) }
    ensures accepted { OnOk result (Accepted app.now) }
    ensures skeletons { OnOk result (KeepsSkeletons app.now) }
    ensures counts { IfOk result (λ c. c ≡ record { nodes = length (app_nodes app.now); lines = length cert.now }) }
    ensures objects { IfErr result (λ o. Objects app.now cert.now o.line o.rule) }
    ensures refuses { OnErr result (Derives app.now cert.now → ⊥) }
{
    app.sound();
    let lines = cert.lines();
    let count = cert.len();
    for i in 0..lines.len() {
        if let Some(rule) = line_objection(app, lines, i) {
            return Err(Objection {
                line: i as u32 + 1,
                rule,
            });
        }
    }
    if has_misfit(app) {
        return Err(Objection {
            line: count + 1,
            rule: Rule::O5,
        });
    }
    if !is_covered(app, lines) {
        return Err(Objection {
            line: count + 1,
            rule: Rule::O4,
        });
    }
    Ok(Checked::of(app.node_count(), count))
}
