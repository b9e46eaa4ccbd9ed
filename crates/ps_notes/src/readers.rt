// The first step that reads each signal.

ghost use Rattle.std.specs.Prelude.{◌≡◌, ◌<◌, ℕ, not, ◌&&◌, ◌==◌, IfOk, length};
ghost use Rattle.std.specs.List.{flat_map, list_any};
ghost use Rattle.ps_model.specs.Args.{actual};
ghost use Rattle.ps_model.specs.Exprs.{formula};
ghost use Rattle.ps_model.specs.FirstSteps.{step_noted, with_step};
ghost use Rattle.ps_model.specs.Network.{drives};
ghost use Rattle.ps_model.specs.StepOf.{IsStepOf};
ghost use Rattle.ps_model.specs.Steps.{action};
ghost use Rattle.ps_model.specs.Values.{reads, values_at_pin};
ghost use Rattle.ps_notes.specs.Notes.{is_reader};
ghost use Rattle.ps_notes.specs.Readers.{AreReaders};

use ps_base::Memory;
use ps_model::{App, Arg, Args, Expr, Step, output_count};
use std::alloc::Global;

// Whether a step drives a signal.
fn is_driven_by(app: &App, step: &Step, signal: u16) -> bool
    requires { IsStepOf app.now (action step.now) }
    ensures { result ≡ drives app.now signal (action step.now) }
{
    match step {
        Step::Assign { target, .. } => *target == signal,
        Step::Call { instance, .. } => {
            let first = app.first_pin(*instance);
            let count = output_count(app.instance_kind(*instance)) as u16;
            first <= signal && signal - first < count
        }
    }
}

// Notes step k for a signal, unless a step is noted.
fn note_signal(readers: &mut [Option<u16>], signal: u16, k: u16)
    ensures { (n : ℕ) → n < length readers.old → step_noted readers.new n ≡ with_step (signal == n) k (step_noted readers.old n) }
{
    if (signal as usize) < readers.len() {
        let slot = &mut readers[signal as usize];
        if slot.is_none() {
            *slot = Some(k);
        }
    }
}

// Notes step k, which is `step`, for the signals of a value that the step does not drive.
fn note_value(app: &App, step: &Step, k: u16, value: &Expr, readers: &mut [Option<u16>])
    requires { IsStepOf app.now (action step.now) }
    ensures { (n : ℕ) → n < length readers.old →
        step_noted readers.new n ≡ with_step (reads n (formula value.now) && not (drives app.now n (action step.now))) k (step_noted readers.old n) }
{
    match value {
        Expr::Signal(signal) => {
            if !is_driven_by(app, step, *signal) {
                note_signal(readers, *signal, k);
            }
        }
        Expr::And(values) | Expr::Or(values) => {
            for x in &values.items {
                note_value(app, step, k, x, readers);
            }
        }
    }
}

// Notes step k, which is `step`, for the signals of an argument that the step does not drive.
fn note_arg(app: &App, step: &Step, k: u16, arg: &Arg, readers: &mut [Option<u16>])
    requires { IsStepOf app.now (action step.now) }
    ensures { (n : ℕ) → n < length readers.old →
        step_noted readers.new n
        ≡ with_step (list_any (reads n) (values_at_pin (actual arg.now)) && not (drives app.now n (action step.now))) k (step_noted readers.old n) }
{
    match arg {
        Arg::Value(value) => note_value(app, step, k, value, readers),
        Arg::Free | Arg::Lit(_) | Arg::Time(_) => (),
    }
}

// Notes step k, which is `step`, for the signals of these arguments that the step does not drive.
fn note_args(app: &App, step: &Step, k: u16, args: &Args, readers: &mut [Option<u16>])
    requires { IsStepOf app.now (action step.now) }
    ensures { (n : ℕ) → n < length readers.old →
        step_noted readers.new n
        ≡ with_step (list_any (reads n) (flat_map values_at_pin args.now) && not (drives app.now n (action step.now))) k (step_noted readers.old n) }
{
    for j in 0..args.len() {
        note_arg(app, step, k, args.at(j), readers);
    }
}

// Notes step k, which is `step`, for the signals that it reads and does not drive.
fn note_step(app: &App, step: &Step, k: u16, readers: &mut [Option<u16>])
    requires { IsStepOf app.now (action step.now) }
    ensures { (n : ℕ) → n < length readers.old →
        step_noted readers.new n ≡ with_step (is_reader app.now n (action step.now)) k (step_noted readers.old n) }
{
    match step {
        Step::Assign { value, .. } => note_value(app, step, k, value, readers),
        Step::Call { args, .. } => note_args(app, step, k, args, readers),
    }
}

/// The first step that reads each signal, the one that drives it left out. `Err` comes only if memory runs out.
pub(crate) fn first_readers(alloc: Global, app: &App) -> Result<Vec<Option<u16>>, Memory>
    ensures { IfOk result (λ readers. AreReaders app.now readers.items) }
{
    app.sound();
    let mut readers = vec![in alloc; None; app.signal_count() as usize]?;
    for k in 0..app.step_count() {
        note_step(app, app.step(k), k, &mut readers);
    }
    Ok(readers)
}
