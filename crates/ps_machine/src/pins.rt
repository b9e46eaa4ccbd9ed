// What the call of an instance reads at its input pins.

ghost use Rattle.std.specs.Prelude.{◌≡◌, ◌<◌, ℕ, Some, length};
ghost use Rattle.ps_model.specs.Args.{actual};
ghost use Rattle.ps_model.specs.Blocks.{block};
ghost use Rattle.ps_model.specs.Network.{instance_count};
ghost use Rattle.ps_model.specs.PinBits.{pin_of};
ghost use Rattle.ps_model.specs.Scanning.{pin_at, pin_value, pins_under};
ghost use Rattle.ps_machine.specs.Calls.{call_step, input_pin};
ghost use Rattle.ps_machine.specs.Reading.{read_in};

use crate::free_value;
use crate::reading::{driver_step, read_value};
use crate::signals::Signals;
use ps_model::{App, Arg, Args, Kind, Step};

// The value at a Boolean input pin, as a step reads it.
fn read_arg(app: &App, k: u16, kind: Kind, j: u8, arg: &Arg, signals: &Signals<'_>) -> bool
    requires { j < length (block kind).inputs }
    ensures { result ≡ pin_value (read_in app.now signals.entry.now k) (pin_at kind j).free (actual arg.now) }
{
    match arg {
        Arg::Free => free_value(kind, j),
        Arg::Lit(value) => *value,
        Arg::Time(_) => false,
        Arg::Value(value) => read_value(app, k, value, signals),
    }
}

/// The value at input pin j of a call, counted from 0, as step k reads it; FALSE at a pin for a TIME and past the pins.
pub fn read_pin(app: &App, k: u16, kind: Kind, j: u8, args: &Args, signals: &Signals<'_>) -> bool
    requires { length args.now ≡ length (block kind).inputs }
    ensures { result ≡ pins_under (read_in app.now signals.entry.now k) kind args.now j }
{
    if (j as usize) < args.len() {
        read_arg(app, k, kind, j, args.at(j as usize), signals)
    } else {
        false
    }
}

/// The values at the input pins of a call, as step k reads them: bit j is pin j.
pub fn read_pins(app: &App, k: u16, kind: Kind, args: &Args, signals: &Signals<'_>) -> u32
    requires { length args.now ≡ length (block kind).inputs }
    ensures { (j : ℕ) → pin_of result j ≡ pins_under (read_in app.now signals.entry.now k) kind args.now j }
{
    let mut bits = 0u32;
    for j in 0..args.len() {
        if read_pin(app, k, kind, j as u8, args, signals) {
            bits |= 1 << j;
        }
    }
    bits
}

/// The step that calls an instance, counted from 0: one does.
pub fn call_step(app: &App, i: u16) -> u16
    requires { i < instance_count app.now }
    ensures calls { call_step app.now i ≡ Some result }
    ensures within { result < length app.now.steps }
{
    app.sound();
    match driver_step(app.driver(app.first_pin(i))) {
        Some(step) => step,
        None => 0,
    }
}

/// The value at input pin j of an instance, as its call reads it in a scan; FALSE at a pin for a TIME and past the
/// pins.
pub fn input_pin(app: &App, i: u16, j: u8, signals: &Signals<'_>) -> bool
    requires { i < instance_count app.now }
    ensures { result ≡ input_pin app.now signals.entry.now.before.now signals.entry.now.behind.now i j }
{
    app.sound();
    let k = call_step(app, i);
    match app.step(k) {
        Step::Call { instance, args } => {
            read_pin(app, k, app.instance_kind(*instance), j, args, signals)
        }
        Step::Assign { .. } => false,
    }
}
