// How long the demand of each signal is wanted.

ghost use Rattle.std.specs.Prelude.{◌≡◌, ◌<◌, ◌≤◌, ◌+◌, ◌==◌, ℕ, IfOk, length};
ghost use Rattle.std.specs.List.{flat_map, list_any};
ghost use Rattle.ps_model.specs.Args.{actual};
ghost use Rattle.ps_model.specs.Exprs.{formula};
ghost use Rattle.ps_model.specs.FirstSteps.{step_noted, with_step};
ghost use Rattle.ps_model.specs.Network.{signal_count};
ghost use Rattle.ps_model.specs.Values.{reads, values_at_pin};
ghost use Rattle.ps_demand.specs.Wanted.{is_wanted, AreLast};

use ps_base::Memory;
use ps_model::{App, Arg, Args, Expr, Step, is_safe};
use std::alloc::Global;

/// Whether a step after step k wants the demand of a signal.
pub fn is_wanted_behind(last: &[Option<u16>], k: u16, signal: u16) -> bool
    ensures { result ≡ is_wanted last.now (k + 1) signal }
{
    if signal as usize >= last.len() {
        return false;
    }
    match last[signal as usize] {
        Some(step) => k < step,
        None => false,
    }
}

// Notes step k for a signal, unless a step is noted.
fn note_signal(signal: u16, k: u16, last: &mut Vec<Option<u16>>)
    ensures long { length last.new.items ≡ length last.old.items }
    ensures noted { (n : ℕ) → n < length last.old.items →
        step_noted last.new.items n ≡ with_step (signal == n) k (step_noted last.old.items n) }
{
    let at = signal as usize;
    if at < last.len() && last[at].is_none() {
        last[at] = Some(k);
    }
}

// Notes step k for the signals that a value reads.
fn note_value(value: &Expr, k: u16, last: &mut Vec<Option<u16>>)
    ensures long { length last.new.items ≡ length last.old.items }
    ensures noted { (n : ℕ) → n < length last.old.items →
        step_noted last.new.items n ≡ with_step (reads n (formula value.now)) k (step_noted last.old.items n) }
{
    match value {
        Expr::Signal(signal) => note_signal(*signal, k, last),
        Expr::And(values) | Expr::Or(values) => {
            for x in &values.items {
                note_value(x, k, last);
            }
        }
    }
}

// Notes step k for the signals that an argument reads.
fn note_arg(arg: &Arg, k: u16, last: &mut Vec<Option<u16>>)
    ensures long { length last.new.items ≡ length last.old.items }
    ensures noted { (n : ℕ) → n < length last.old.items →
        step_noted last.new.items n ≡ with_step (list_any (reads n) (values_at_pin (actual arg.now))) k (step_noted last.old.items n) }
{
    match arg {
        Arg::Value(value) => note_value(value, k, last),
        Arg::Free | Arg::Lit(_) | Arg::Time(_) => (),
    }
}

// Notes step k for the signals that these arguments read.
fn note_args(args: &Args, k: u16, last: &mut Vec<Option<u16>>)
    ensures long { length last.new.items ≡ length last.old.items }
    ensures noted { (n : ℕ) → n < length last.old.items →
        step_noted last.new.items n ≡ with_step (list_any (reads n) (flat_map values_at_pin args.now)) k (step_noted last.old.items n) }
{
    for j in 0..args.len() {
        note_arg(args.at(j), k, last);
    }
}

// Goes back by a step with the last steps that want the demands of signals.
fn note_step(app: &App, k: u16, last: &mut Vec<Option<u16>>)
    requires step { k < length app.now.steps }
    requires long { length last.old.items ≡ signal_count app.now }
    ensures { (first end : ℕ) → AreLast app.now (k + 1) first end last.old.items → AreLast app.now k first end last.new.items }
{
    app.sound();
    match app.step(k) {
        Step::Assign { target, value } => {
            if is_safe(app, *target) && is_wanted_behind(last.as_slice(), k, *target) {
                note_value(value, k, last);
            }
        }
        Step::Call { args, .. } => note_args(args, k, last),
    }
}

// What is noted where no step is gone through: the signals from `first` on to `end` are wanted after all of them.
fn wanted_after(alloc: Global, app: &App, first: u16, end: u16) -> Result<Vec<Option<u16>>, Memory>
    requires { end ≤ signal_count app.now }
    ensures { IfOk result (λ last. AreLast app.now (length app.now.steps) first end last.items) }
{
    let steps = app.step_count();
    let mut last = vec![in alloc; None; app.signal_count() as usize]?;
    for signal in first..end {
        last[signal as usize] = Some(steps);
    }
    Ok(last)
}

/// The last step that wants the demand of each signal, where those of the signals from `first` on to `end` are asked
/// for. Each step is gone through once, from the last to the first. `Err` comes only if memory runs out.
pub fn last_readers(
    alloc: Global,
    app: &App,
    first: u16,
    end: u16,
) -> Result<Vec<Option<u16>>, Memory>
    requires { end ≤ signal_count app.now }
    ensures { IfOk result (λ last. AreLast app.now 0 first end last.items) }
{
    let mut last = wanted_after(alloc, app, first, end)?;
    let mut k = app.step_count();
    while k > 0 {
        k -= 1;
        note_step(app, k, &mut last);
    }
    Ok(last)
}
