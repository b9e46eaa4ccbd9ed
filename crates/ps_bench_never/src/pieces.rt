// Names and conditions in what is told of rules.

ghost use Rattle.std.specs.Prelude.{◌≡◌, ◌++◌, OnOk, codes, slice_get, []};
ghost use Rattle.std.specs.Option.{unwrap_or};
ghost use Rattle.std.specs.List.{flat_map};
ghost use Rattle.ps_model.specs.Pins.{pin_names};
ghost use Rattle.ps_bench_never.specs.Pieces.{condition_text, instance_text, name_text, pin_text, sign, signal_text, value_text, values_text};

use ps_base::{Bytes, Memory};
use ps_bench_frame::pieces::{add_code, add_short};
use ps_bench_names::Name;
use ps_bench_rules::Condition;
use ps_model::{App, Kind, pin_count, pin_name};

// The name of an instance; one that there is not has none.
fn instance_text(app: &App, instance: u16) -> &[u8]
    ensures { result.now ≡ instance_text app.now instance }
{
    if instance < app.instance_count() {
        app.instance_name(instance).as_bytes()
    } else {
        &[]
    }
}

// The name of a pin of a kind, nothing past its pins.
fn kind_pin_text(kind: Kind, pin: u8) -> &'static [u8]
    ensures { result.now ≡ unwrap_or (slice_get (pin_names kind) pin) [] }
{
    if pin < pin_count(kind) {
        pin_name(kind, pin).as_bytes()
    } else {
        &[]
    }
}

// The name of a pin of an instance.
fn pin_text(app: &App, instance: u16, pin: u8) -> &'static [u8]
    ensures { result.now ≡ pin_text app.now instance pin }
{
    if instance < app.instance_count() {
        kind_pin_text(app.instance_kind(instance), pin)
    } else {
        &[]
    }
}

/// The name of an input, output or local; another signal has none.
pub fn signal_text(app: &App, signal: u16) -> &[u8]
    ensures { result.now ≡ signal_text app.now signal }
{
    if signal < app.declared_count() {
        app.signal_name(signal).as_bytes()
    } else {
        &[]
    }
}

// A name, as a condition has it.
fn add_name(text: &mut Bytes, app: &App, name: Name) -> Result<(), Memory>
    ensures { OnOk result (text.new ≡ text.old ++ name_text app.now name) }
{
    match name {
        Name::Signal(signal) => text.extend_from_slice(signal_text(app, signal)),
        Name::Code(instance) => text.extend_from_slice(instance_text(app, instance)),
        Name::Pin { instance, pin } => {
            text.extend_from_slice(instance_text(app, instance))?;
            text.extend_from_slice(b".")?;
            text.extend_from_slice(pin_text(app, instance, pin))
        }
    }
}

// A value of a name: of an instance its code, of others 0 or 1.
fn add_value(text: &mut Bytes, name: Name, value: u16) -> Result<(), Memory>
    ensures { OnOk result (text.new ≡ text.old ++ value_text name value) }
{
    match name {
        Name::Code(_) => add_code(text, value),
        Name::Signal(_) | Name::Pin { .. } => add_short(text, u32::from(value)),
    }
}

// One more value after a comma.
fn add_other_value(text: &mut Bytes, name: Name, value: u16) -> Result<(), Memory>
    ensures { OnOk result (text.new ≡ text.old ++ codes "," ++ value_text name value) }
{
    text.extend_from_slice(b",")?;
    add_value(text, name, value)
}

// More values, each after a comma.
fn add_other_values(text: &mut Bytes, name: Name, values: &[u16]) -> Result<(), Memory>
    ensures { OnOk result (text.new ≡ text.old ++ flat_map (λ v. codes "," ++ value_text name v) values.now) }
{
    for value in values {
        add_other_value(text, name, *value)?;
    }
    Ok(())
}

// Values with commas between them.
fn add_values(text: &mut Bytes, name: Name, values: &[u16]) -> Result<(), Memory>
    ensures { OnOk result (text.new ≡ text.old ++ values_text name values.now) }
{
    match values {
        [] => Ok(()),
        [first, rest @ ..] => {
            add_value(text, name, *first)?;
            add_other_values(text, name, rest)
        }
    }
}

// What stands between a name and its values.
fn sign(is_denied: bool) -> &'static [u8]
    ensures { result.now ≡ sign is_denied }
{
    if is_denied { b"!=" } else { b"=" }
}

/// A condition as an expectation has it, as ` S_Ram=1` or ` Guard!=8000`.
pub(crate) fn add_condition(
    text: &mut Bytes,
    app: &App,
    condition: &Condition,
) -> Result<(), Memory>
    ensures { OnOk result (text.new ≡ text.old ++ condition_text app.now condition.now) }
{
    text.extend_from_slice(b" ")?;
    add_name(text, app, condition.name)?;
    text.extend_from_slice(sign(condition.denied))?;
    add_values(text, condition.name, condition.values.as_slice())
}
