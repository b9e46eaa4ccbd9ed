// Demands that are wanted no more.

ghost use Rattle.std.specs.Prelude.{◌≡◌, ◌<◌, ◌+◌, length};
ghost use Rattle.ps_demand.specs.Passes.{KeepsWanted};

use crate::demand::Demand;
use crate::wanted::is_wanted_behind;
use ps_model::{App, Arg, Args, Expr, Step, safe_count};

// Lets the demand of a signal go, where no step after step k wants it.
fn release_signal(signal: u16, k: u16, last: &[Option<u16>], rows: &mut Vec<Demand>)
    ensures { KeepsWanted last.now (k + 1) rows.old.items rows.new.items }
{
    let at = signal as usize;
    if at < rows.len() && !is_wanted_behind(last, k, signal) {
        rows[at] = Demand::False;
    }
}

// Lets go the demands of the signals that a value reads, where no step after step k wants them.
fn release_value(value: &Expr, k: u16, last: &[Option<u16>], rows: &mut Vec<Demand>)
    ensures { KeepsWanted last.now (k + 1) rows.old.items rows.new.items }
{
    match value {
        Expr::Signal(signal) => release_signal(*signal, k, last, rows),
        Expr::And(values) | Expr::Or(values) => {
            for x in &values.items {
                release_value(x, k, last, rows);
            }
        }
    }
}

// The same of those that these arguments read.
fn release_args(args: &Args, k: u16, last: &[Option<u16>], rows: &mut Vec<Demand>)
    ensures { KeepsWanted last.now (k + 1) rows.old.items rows.new.items }
{
    for j in 0..args.len() {
        if let Arg::Value(value) = args.at(j) {
            release_value(value, k, last, rows);
        }
    }
}

// The same of the safe outputs of an instance, the first of which has this number.
fn release_outputs(first: u16, count: u8, k: u16, last: &[Option<u16>], rows: &mut Vec<Demand>)
    requires { first + count < 65536 }
    ensures { KeepsWanted last.now (k + 1) rows.old.items rows.new.items }
{
    for j in 0..count {
        release_signal(first + u16::from(j), k, last, rows);
    }
}

// After step k, lets go the demands that it read or made and that no later step wants.
pub(crate) fn release_step(app: &App, k: u16, last: &[Option<u16>], rows: &mut Vec<Demand>)
    requires { k < length app.now.steps }
    ensures { KeepsWanted last.now (k + 1) rows.old.items rows.new.items }
{
    app.sound();
    match app.step(k) {
        Step::Assign { value, .. } => release_value(value, k, last, rows),
        Step::Call { instance, args } => {
            release_args(args, k, last, rows);
            let count = safe_count(app.instance_kind(*instance));
            release_outputs(app.first_pin(*instance), count, k, last, rows);
        }
    }
}
