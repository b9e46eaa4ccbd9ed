// The names of an application.

ghost use Rattle.std.specs.Prelude.{◌≡◌, ◌<◌, ◌+◌, ◌++◌, OnOk, [], length, slice_get};
ghost use Rattle.std.specs.List.{flat_map, range_with_len};
ghost use Rattle.std.specs.Option.{unwrap_or};
ghost use Rattle.ps_bench_why.specs.Moments.{call_pin_text, output_at, output_text, pin_text, signal_text};
ghost use Rattle.ps_cover.specs.Lines.{called_name};
ghost use Rattle.ps_model.specs.Blocks.{block, output_count};
ghost use Rattle.ps_model.specs.Network.{instance_count, instance_name, kind_at};
ghost use Rattle.ps_model.specs.Pins.{pin_names};

use ps_base::{Bytes, Memory};
use ps_cover::called_kind;
use ps_model::{App, Kind, Step, input_count, output_count, pin_count, pin_name};

// The name of a pin of a kind; one that there is not has none.
fn pin_text(kind: Kind, j: u16) -> &'static [u8]
    ensures { result.now ≡ pin_text kind j }
{
    if j < pin_count(kind) as u16 {
        pin_name(kind, j as u8).as_bytes()
    } else {
        &[]
    }
}

/// The kind of an instance.
pub(crate) fn kind_of(app: &App, i: u16) -> Kind
    ensures { result ≡ kind_at app.now i }
{
    if i < app.instance_count() {
        app.instance_kind(i)
    } else {
        Kind::Equivalent
    }
}

/// The name of an instance.
pub(crate) fn name_of(app: &App, i: u16) -> &[u8]
    ensures { result.now ≡ instance_name app.now i }
{
    if i < app.instance_count() {
        app.instance_name(i).as_bytes()
    } else {
        &[]
    }
}

/// The name of the instance that a step calls; empty where it calls none.
pub(crate) fn called_name(app: &App, k: u16) -> &[u8]
    ensures { result.now ≡ called_name app.now (slice_get app.now.steps k) }
{
    app.sound();
    if k >= app.step_count() {
        return &[];
    }
    match app.step(k) {
        Step::Call { instance, .. } => app.instance_name(*instance).as_bytes(),
        Step::Assign { .. } => &[],
    }
}

// Puts an output of an instance by their names.
fn add_output(text: &mut Bytes, app: &App, i: u16, j: u8) -> Result<(), Memory>
    requires instance { i < instance_count app.now }
    requires output { j < output_count (kind_at app.now i) }
    ensures { OnOk result (text.new ≡ text.old ++ output_text app.now i j) }
{
    let kind = app.instance_kind(i);
    text.extend_from_slice(app.instance_name(i).as_bytes())?;
    text.extend_from_slice(b".")?;
    text.extend_from_slice(pin_text(kind, input_count(kind) as u16 + j as u16))
}

// Puts a signal by its names where it is an output of an instance.
fn add_output_at(text: &mut Bytes, app: &App, s: u16, i: u16) -> Result<(), Memory>
    requires { i < instance_count app.now }
    ensures { OnOk result (text.new ≡ text.old ++ output_at app.now s i) }
{
    let first = app.first_pin(i);
    if first <= s && s - first < u16::from(output_count(app.instance_kind(i))) {
        add_output(text, app, i, (s - first) as u8)?;
    }
    Ok(())
}

// Puts a signal by its names where it is an output of some instance.
fn add_outputs(text: &mut Bytes, app: &App, s: u16) -> Result<(), Memory>
    ensures { OnOk result (text.new ≡ text.old ++ flat_map (output_at app.now s) (range_with_len 0 (instance_count app.now))) }
{
    for i in 0..app.instance_count() {
        add_output_at(text, app, s, i)?;
    }
    Ok(())
}

/// Puts the name of a signal.
pub(crate) fn add_signal(text: &mut Bytes, app: &App, s: u16) -> Result<(), Memory>
    ensures { OnOk result (text.new ≡ text.old ++ signal_text app.now s) }
{
    if s < app.declared_count() {
        text.extend_from_slice(app.signal_name(s).as_bytes())
    } else {
        add_outputs(text, app, s)
    }
}

/// Puts an input pin of the call of a step.
pub(crate) fn add_call_pin(text: &mut Bytes, app: &App, k: u16, j: u8) -> Result<(), Memory>
    ensures { OnOk result (text.new ≡ text.old ++ call_pin_text app.now k j) }
{
    text.extend_from_slice(called_name(app, k))?;
    text.extend_from_slice(b".")?;
    text.extend_from_slice(pin_text(called_kind(app, k), j as u16))
}
