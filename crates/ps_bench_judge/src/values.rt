// The value of a name in a scan.

ghost use Rattle.std.specs.Prelude.{◌≡◌, ◌<◌};
ghost use Rattle.ps_model.specs.Network.{instance_count};
ghost use Rattle.ps_model.specs.Stored.{bit};
ghost use Rattle.ps_bench_judge.specs.Moments.{moment_of};
ghost use Rattle.ps_bench_judge.specs.Named.{diag_in, pin_in, pin_of, signal_in, value_in};

use crate::seen::Seen;
use ps_bench_names::Name;
use ps_machine::{bit_at, input_pin};
use ps_model::{App, Diag, input_count, safe_count};

// What a block says of itself past the instances.
const NO_DIAG: Diag = Diag {
    ready: false,
    error: false,
    code: 0,
};

// What an instance says of itself, as it was released.
fn diag_in(i: u16, seen: &Seen<'_>) -> Diag
    ensures { result ≡ diag_in (moment_of seen.entry.now) i }
{
    let diags = &seen.report.diags;
    if (i as usize) < diags.len() {
        diags.at(i as usize)
    } else {
        NO_DIAG
    }
}

// The value of an input, an output or a local.
fn signal_in(app: &App, s: u16, seen: &Seen<'_>) -> bool
    ensures { result ≡ signal_in app.now (moment_of seen.entry.now) s }
{
    let inputs = app.input_count();
    if s >= inputs && s - inputs < app.output_count() {
        bit_at(seen.report.outs.as_slice(), (s - inputs) as usize)
    } else {
        bit_at(seen.signals, s as usize)
    }
}

// The value at a pin of an instance.
fn pin_in(app: &App, i: u16, j: u8, seen: &Seen<'_>) -> bool
    requires { i < instance_count app.now }
    ensures { result ≡ pin_in app.now (moment_of seen.entry.now) i j }
{
    let kind = app.instance_kind(i);
    let inputs = input_count(kind);
    let outputs = safe_count(kind);
    if j < inputs {
        input_pin(app, i, j, &seen.both())
    } else if j - inputs < outputs {
        bit_at(
            seen.signals,
            app.first_pin(i) as usize + (j - inputs) as usize,
        )
    } else if j - inputs == outputs {
        diag_in(i, seen).ready
    } else {
        diag_in(i, seen).error
    }
}

// The value at a pin of an instance, FALSE past the instances.
fn pin_of(app: &App, i: u16, j: u8, seen: &Seen<'_>) -> bool
    ensures { result ≡ pin_of app.now (moment_of seen.entry.now) i j }
{
    i < app.instance_count() && pin_in(app, i, j, seen)
}

// A Boolean as the number that a check compares.
fn number(value: bool) -> u16
    ensures { result ≡ bit value }
{
    if value { 1 } else { 0 }
}

/// The value of a name in a scan: 0 for FALSE and 1 for TRUE, or a DiagCode.
pub fn value_of(app: &App, name: Name, seen: &Seen<'_>) -> u16
    ensures { result ≡ value_in app.now (moment_of seen.entry.now) name }
{
    match name {
        Name::Signal(s) => number(signal_in(app, s, seen)),
        Name::Code(i) => diag_in(i, seen).code,
        Name::Pin { instance, pin } => number(pin_of(app, instance, pin, seen)),
    }
}
