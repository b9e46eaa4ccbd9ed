// How many instructions and rows the code of a step has.

ghost use Rattle.std.specs.Prelude.{◌≡◌, ◌+◌, ◌*◌, ◌<◌, ◌≤◌, length, take, sum_by, flat_map};
ghost use Rattle.ps_model.specs.Exprs.{formula};
ghost use Rattle.ps_model.specs.Args.{actual};
ghost use Rattle.ps_model.specs.Steps.{action};
ghost use Rattle.ps_model.specs.Nodes.{nodes, nodes_of_step, nodes_at_pin};
ghost use Rattle.ps_model.specs.Network.{instance_count};
ghost use Rattle.ps_model.specs.Action.{assigns, calls};
ghost use Rattle.ps_model.specs.Budgets.{instructions, instructions_at_pin, instructions_of_step, equation_rows};
ghost use Rattle.ps_model.specs.Budgets.{equation_rows_at_pin, equation_rows_of_step, boolean_count, IsCall};

use crate::app::App;
use crate::expr::Expr;
use crate::kind::Kind;
use crate::step::{Arg, Args, Step};
use ps_base::limits::MOST_NODES;

/// How many Boolean input pins a kind has; they come before its TIME pin.
#[tactic(auto, unfolding(crate::specs::Budgets::boolean_count, crate::specs::Blocks::block))]
pub fn boolean_count(kind: Kind) -> u8
    ensures count { result ≡ boolean_count kind }
    ensures few { result ≤ 13 }
{
    match kind {
        Kind::Equivalent | Kind::Antivalent => 3,
        Kind::EmergencyStop | Kind::Espe => 5,
        Kind::ModeSelector => 13,
        Kind::TwoHandTwo | Kind::TwoHandThree => 3,
        Kind::GuardMonitoring | Kind::EnableSwitch | Kind::Edm => 6,
        Kind::GuardLocking => 8,
        Kind::SafetyRequest => 4,
        Kind::OutControl => 7,
    }
}

/// How many instructions compute an expression in the stack code.
#[tactic(auto, using(crate::proofs::Budgeting::instructions_bound))]
pub fn instructions(e: &Expr) -> u32
    requires { length (nodes (formula e.now)) ≤ MOST_NODES }
    ensures count { result ≡ instructions (formula e.now) }
    ensures few { result ≤ 40000 }
{
    match e {
        Expr::Signal(_) => 1,
        Expr::And(es) | Expr::Or(es) => {
            let mut joined = 0;
            for x in &es.items {
                joined += instructions(x) + 1;
            }
            joined.saturating_sub(1)
        }
    }
}

/// How many rows place an expression in the equation code.
#[tactic(auto, using(crate::proofs::Budgeting::equation_rows_bound))]
pub fn equation_rows(e: &Expr) -> u32
    requires { length (nodes (formula e.now)) ≤ MOST_NODES }
    ensures count { result ≡ equation_rows (formula e.now) }
    ensures few { result ≤ 40000 }
{
    match e {
        Expr::Signal(_) => 0,
        Expr::And(es) | Expr::Or(es) => {
            let mut below = 0;
            for x in &es.items {
                below += equation_rows(x) + 1;
            }
            below
        }
    }
}

// How many instructions give the value at a Boolean pin.
fn instructions_at_pin(arg: &Arg) -> u32
    requires { length (nodes_at_pin (actual arg.now)) ≤ MOST_NODES }
    ensures count { result ≡ instructions_at_pin (actual arg.now) }
    ensures few { result ≤ 40000 }
{
    match arg {
        Arg::Value(e) => instructions(e),
        _ => 1,
    }
}

// How many rows give the value at a Boolean pin.
fn equation_rows_at_pin(arg: &Arg) -> u32
    requires { length (nodes_at_pin (actual arg.now)) ≤ MOST_NODES }
    ensures count { result ≡ equation_rows_at_pin (actual arg.now) }
    ensures few { result ≤ 40000 }
{
    match arg {
        Arg::Value(e) => equation_rows(e),
        _ => 0,
    }
}

// How many instructions give the values at the first pins of a call.
fn instructions_of_pins(args: &Args, count: u8) -> u32
    requires within { count ≤ length args.now }
    requires pins { count ≤ 13 }
    requires nodes { length (flat_map nodes_at_pin args.now) ≤ MOST_NODES }
    ensures count { result ≡ sum_by instructions_at_pin (take count args.now) }
    ensures few { result ≤ 520000 }
{
    let mut total = 0;
    for j in 0..count {
        total += instructions_at_pin(args.at(j as usize));
    }
    total
}

// How many rows give the values at the first pins of a call.
fn equation_rows_of_pins(args: &Args, count: u8) -> u32
    requires within { count ≤ length args.now }
    requires pins { count ≤ 13 }
    requires nodes { length (flat_map nodes_at_pin args.now) ≤ MOST_NODES }
    ensures count { result ≡ sum_by equation_rows_at_pin (take count args.now) }
    ensures few { result ≤ 520000 }
{
    let mut total = 0;
    for j in 0..count {
        total += equation_rows_at_pin(args.at(j as usize));
    }
    total
}

/// How many instructions the stack code of a step has.
#[tactic(auto, using(crate::proofs::Budgeting::boolean_within))]
pub fn instructions_of_step(app: &App, step: &Step) -> u32
    requires nodes { length (nodes_of_step (action step.now)) ≤ MOST_NODES }
    requires call { IsCall app.now (action step.now) }
    ensures count { result ≡ instructions_of_step app.now (action step.now) }
    ensures few { result ≤ 520001 }
{
    match step {
        Step::Assign { value, .. } => instructions(value) + 1,
        Step::Call { instance, args } => {
            let count = boolean_count(app.instance_kind(*instance));
            instructions_of_pins(args, count) + 1
        }
    }
}

/// How many rows the equation code of a step has.
#[tactic(auto, using(crate::proofs::Budgeting::boolean_within))]
pub fn equation_rows_of_step(app: &App, step: &Step) -> u32
    requires nodes { length (nodes_of_step (action step.now)) ≤ MOST_NODES }
    requires call { IsCall app.now (action step.now) }
    ensures count { result ≡ equation_rows_of_step app.now (action step.now) }
    ensures few { result ≤ 520001 }
{
    match step {
        Step::Assign { value, .. } => equation_rows(value) + 1,
        Step::Call { instance, args } => {
            let count = boolean_count(app.instance_kind(*instance));
            equation_rows_of_pins(args, count) + 1
        }
    }
}
