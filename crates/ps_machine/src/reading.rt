// What a step reads of the signals.

ghost use Rattle.std.specs.Prelude.{◌≡◌, option_map};
ghost use Rattle.ps_model.specs.Exprs.{formula};
ghost use Rattle.ps_model.specs.Formula.{value};
ghost use Rattle.ps_model.specs.Network.{is_new};
ghost use Rattle.ps_machine.specs.Drivers.{step_of};
ghost use Rattle.ps_machine.specs.Reading.{read_in};

use crate::signals::{Signals, bit_at};
use ps_model::{App, Driver, Expr};

/// The step of a driver, counted from 0.
pub(crate) fn driver_step(driver: Option<Driver>) -> Option<u16>
    ensures { result ≡ option_map step_of driver }
{
    match driver? {
        Driver::Assigned { step } => Some(step),
        Driver::Output { step, .. } => Some(step),
    }
}

/// Whether a signal has its value of this scan already at step k, counted from 0: it is an input, or its driver stands
/// before.
pub fn is_new(app: &App, k: u16, s: u16) -> bool
    ensures { result ≡ is_new app.now k s }
{
    app.sound();
    if s < app.input_count() {
        return true;
    }
    if s >= app.signal_count() {
        return false;
    }
    match driver_step(app.driver(s)) {
        Some(step) => step < k,
        None => false,
    }
}

/// A signal as step k reads it: its value after the scan where its driver stands before the step, else that before the
/// scan.
pub fn read_signal(app: &App, k: u16, s: u16, signals: &Signals<'_>) -> bool
    ensures { result ≡ read_in app.now signals.entry.now k s }
{
    if is_new(app, k, s) {
        bit_at(signals.behind, s as usize)
    } else {
        bit_at(signals.before, s as usize)
    }
}

/// The value of an expression as step k reads it.
pub fn read_value(app: &App, k: u16, e: &Expr, signals: &Signals<'_>) -> bool
    ensures { result ≡ value (read_in app.now signals.entry.now k) (formula e.now) }
{
    match e {
        Expr::Signal(s) => read_signal(app, k, *s, signals),
        Expr::And(es) => {
            for x in &es.items {
                if !read_value(app, k, x, signals) {
                    return false;
                }
            }
            true
        }
        Expr::Or(es) => {
            for x in &es.items {
                if read_value(app, k, x, signals) {
                    return true;
                }
            }
            false
        }
    }
}
