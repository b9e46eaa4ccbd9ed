// Whether each obligation has a line.

ghost use Rattle.std.specs.Prelude.{◌≡◌, ◌+◌, ◌<◌, ◌≤◌, ◌==◌, ◌||◌, ℕ, true, false, All, IfSome, IfNone, length};
ghost use Rattle.std.specs.Prelude.{slice_index_or};
ghost use Rattle.std.specs.List.{list_all, list_any, flat_map};
ghost use Rattle.ps_base.specs.declared.limits.TheConstants.{MOST_NODES};
ghost use Rattle.ps_model.specs.Args.{actual};
ghost use Rattle.ps_model.specs.Blocks.{block};
ghost use Rattle.ps_model.specs.Network.{instance_count, kind_at};
ghost use Rattle.ps_model.specs.Nodes.{nodes_at_pin, nodes_of_step};
ghost use Rattle.ps_model.specs.Obligations.{obligation_at, obligations, obligations_at_pins, obligations_of_step};
ghost use Rattle.ps_model.specs.StepOf.{IsStepOf};
ghost use Rattle.ps_model.specs.Steps.{action};
ghost use Rattle.ps_checker.specs.Derives.{has_line};
ghost use Rattle.ps_checker.specs.Marks.{is_marked};

use ps_base::limits::MOST_NODES;
use ps_flow::CertLine;
use ps_model::{App, Arg, Args, Step, Ty, input_count, input_type, is_safe, node_count};

// Marks each node of which a line speaks.
fn mark_spoken(lines: &[CertLine], marks: &mut [bool])
    requires known { All (λ l. l.node < length marks.old) lines.now }
    ensures len { length marks.new ≡ length marks.old }
    ensures each { (m : ℕ) → slice_index_or marks.new m false ≡ (slice_index_or marks.old m false || list_any (λ l. l.node == m) lines.now) }
{
    for l in lines {
        marks[l.node as usize] = true;
    }
}

// How many nodes an argument has.
fn arg_size(arg: &Arg) -> u32
    requires { length (nodes_at_pin (actual arg.now)) ≤ MOST_NODES }
    ensures { result ≡ length (nodes_at_pin (actual arg.now)) }
{
    match arg {
        Arg::Value(e) => node_count(e),
        Arg::Free | Arg::Lit(_) | Arg::Time(_) => 0,
    }
}

// Whether the obligation at a pin, if it is one, is marked.
fn pin_covered(marks: &[bool], ty: Ty, arg: &Arg, at: u32) -> bool
    requires { at + length (nodes_at_pin (actual arg.now)) ≤ length marks.now }
    ensures { result ≡ list_all (is_marked marks.now) (obligation_at at ty (actual arg.now)) }
{
    match arg {
        Arg::Value(_) => ty != Ty::Safe || marks[at as usize],
        Arg::Free | Arg::Lit(_) | Arg::Time(_) => true,
    }
}

// The node after a call's last one, if each obligation of the call is marked.
fn call_covered(app: &App, marks: &[bool], i: u16, args: &Args, node: u32) -> Option<u32>
    requires inside { i < instance_count app.now }
    requires each { length args.now ≡ length (block (kind_at app.now i)).inputs }
    requires marks { length marks.now ≡ MOST_NODES }
    requires few { node + length (flat_map nodes_at_pin args.now) ≤ MOST_NODES }
    ensures some { IfSome result (λ after. (after ≡ node + length (flat_map nodes_at_pin args.now))
        × (list_all (is_marked marks.now) (obligations_at_pins node (block (kind_at app.now i)).inputs args.now) ≡ true)) }
    ensures none { IfNone result (
        list_all (is_marked marks.now) (obligations_at_pins node (block (kind_at app.now i)).inputs args.now) ≡ false) }
{
    let kind = app.instance_kind(i);
    let mut at = node;
    for j in 0..input_count(kind) {
        let arg = args.at(j as usize);
        if !pin_covered(marks, input_type(kind, j), arg, at) {
            return None;
        }
        at += arg_size(arg);
    }
    Some(at)
}

// The node after a step's last one, if each obligation of the step is marked.
fn step_covered(app: &App, marks: &[bool], step: &Step, node: u32) -> Option<u32>
    requires step { IsStepOf app.now (action step.now) }
    requires marks { length marks.now ≡ MOST_NODES }
    requires few { node + length (nodes_of_step (action step.now)) ≤ MOST_NODES }
    ensures some { IfSome result (λ after. (after ≡ node + length (nodes_of_step (action step.now)))
        × (list_all (is_marked marks.now) (obligations_of_step app.now node (action step.now)) ≡ true)) }
    ensures none { IfNone result (
        list_all (is_marked marks.now) (obligations_of_step app.now node (action step.now)) ≡ false) }
{
    match step {
        Step::Assign { target, value } => {
            let count = node_count(value);
            if is_safe(app, *target) && !marks[node as usize] {
                return None;
            }
            Some(node + count)
        }
        Step::Call { instance, args } => call_covered(app, marks, *instance, args, node),
    }
}

// Whether each obligation is marked.
fn all_covered(app: &App, marks: &[bool]) -> bool
    requires { length marks.now ≡ MOST_NODES }
    ensures { result ≡ list_all (is_marked marks.now) (obligations app.now) }
{
    app.sound();
    let mut node = 0;
    for k in 0..app.step_count() {
        match step_covered(app, marks, app.step(k), node) {
            Some(after) => node = after,
            None => return false,
        }
    }
    true
}

/// Whether each obligation has a line. One pass goes over the lines and marks the nodes of which they speak, and one
/// over the application. It takes no memory: there is room for a mark at each node that an application may have.
pub fn is_covered(app: &App, lines: &[CertLine]) -> bool
    requires { All (λ l. l.node < MOST_NODES) lines.now }
    ensures { result ≡ list_all (has_line lines.now) (obligations app.now) }
{
    let mut marks = [false; MOST_NODES as usize];
    mark_spoken(lines, &mut marks);
    all_covered(app, &marks)
}
