// How many rows the code of an application has.

ghost use Rattle.std.specs.Prelude.{◌≡◌, ◌+◌, ◌<◌, ◌≤◌, ◌^◌, length, take, sum_by};
ghost use Rattle.ps_model.specs.Exprs.{formula};
ghost use Rattle.ps_model.specs.Args.{actual};
ghost use Rattle.ps_model.specs.Budgets.{IsCall};
ghost use Rattle.ps_model.specs.Steps.{action};
ghost use Rattle.ps_decision.specs.Budget.{decisions, count_at_pin, count_of_step, turns_c};

use ps_model::{App, Arg, Args, Expr, Step, boolean_count};

/// The budget of channel C: the number of rows of an application's code, the one that ends the scan among them. A scan
/// of intact code is Done after at most so many turns, since a DECIDE passes rows over.
pub fn turns_c(app: &App) -> u32
    ensures { result ≡ turns_c app.now }
{
    app.sound();
    let mut turns = 1;
    for k in 0..app.step_count() {
        turns += count_of_step(app, app.step(k));
    }
    turns
}

// How many signals a value decides.
pub(crate) fn decisions(e: &Expr) -> u32
    requires { decisions (formula e.now) < 2 ^ 32 }
    ensures { result ≡ decisions (formula e.now) }
{
    match e {
        Expr::Signal(_) => 1,
        Expr::And(es) | Expr::Or(es) => {
            let mut below = 0;
            for x in &es.items {
                below += decisions(x);
            }
            below
        }
    }
}

// How many rows set the pin cell of a Boolean pin.
fn count_at_pin(arg: &Arg) -> u32
    requires { count_at_pin (actual arg.now) < 2 ^ 32 }
    ensures { result ≡ count_at_pin (actual arg.now) }
{
    match arg {
        Arg::Value(e) => decisions(e) + 2,
        _ => 1,
    }
}

// How many rows set the first pin cells for a call.
fn count_of_pins(args: &Args, count: u8) -> u32
    requires within { count ≤ length args.now }
    requires small { sum_by count_at_pin (take count args.now) < 2 ^ 32 }
    ensures { result ≡ sum_by count_at_pin (take count args.now) }
{
    let mut total = 0;
    for j in 0..count {
        total += count_at_pin(args.at(j as usize));
    }
    total
}

// How many rows the code of a step has.
#[tactic(auto, using(ps_model::proofs::Budgeting::boolean_within))]
fn count_of_step(app: &App, step: &Step) -> u32
    requires small { count_of_step app.now (action step.now) < 2 ^ 32 }
    requires call { IsCall app.now (action step.now) }
    ensures { result ≡ count_of_step app.now (action step.now) }
{
    match step {
        Step::Assign { value, .. } => decisions(value) + 2,
        Step::Call { instance, args } => {
            let count = boolean_count(app.instance_kind(*instance));
            count_of_pins(args, count) + 1
        }
    }
}
