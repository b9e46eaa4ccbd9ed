// Names and values in words.

ghost use Rattle.std.specs.Prelude.{◌≡◌, ◌++◌, [], OnOk, unwrap_or, slice_get, nat_lt, option_map, if◌then◌else◌};
ghost use Rattle.ps_model.specs.Network.{instance_count, kind_at};
ghost use Rattle.ps_model.specs.Pins.{pin_names};
ghost use Rattle.ps_ways.specs.States.{state_words};
ghost use Rattle.ps_bench_test.specs.Naming.{instance_text, name_text, pin_text, signal_text, state_text, value_text};
ghost use Rattle.ps_bench_test.specs.Naming.{words_text};

use ps_base::{Bytes, Memory};
use ps_bench_frame::pieces::{add_code, add_short};
use ps_bench_names::Name;
use ps_model::{App, Kind, pin_count, pin_name};
use ps_ways::state_words;

// The name of an instance.
fn instance_text(app: &App, instance: u16) -> &[u8]
    ensures { result.now ≡ instance_text app.now instance }
{
    if instance < app.instance_count() {
        app.instance_name(instance).as_bytes()
    } else {
        &[]
    }
}

// The name of a pin of a kind, nothing past its pins.
fn kind_pin_text(kind: Kind, pin: u8) -> &'static [u8]
    ensures { result.now ≡ unwrap_or (slice_get (pin_names kind) pin) [] }
{
    if pin < pin_count(kind) {
        pin_name(kind, pin).as_bytes()
    } else {
        &[]
    }
}

// The name of a pin of an instance.
fn pin_text(app: &App, instance: u16, pin: u8) -> &'static [u8]
    ensures { result.now ≡ pin_text app.now instance pin }
{
    if instance < app.instance_count() {
        kind_pin_text(app.instance_kind(instance), pin)
    } else {
        &[]
    }
}

// The name of an input, output or local.
fn signal_text(app: &App, signal: u16) -> &[u8]
    ensures { result.now ≡ signal_text app.now signal }
{
    if signal < app.declared_count() {
        app.signal_name(signal).as_bytes()
    } else {
        &[]
    }
}

/// A name at the end of a text, as a check has it: of a signal, an instance or a pin. Nothing stands for one that there
/// is not.
pub fn add_name(text: &mut Bytes, app: &App, name: Name) -> Result<(), Memory>
    ensures { OnOk result (text.new ≡ text.old ++ name_text app.now name) }
{
    match name {
        Name::Signal(signal) => text.extend_from_slice(signal_text(app, signal)),
        Name::Code(instance) => text.extend_from_slice(instance_text(app, instance)),
        Name::Pin { instance, pin } => {
            text.extend_from_slice(instance_text(app, instance))?;
            text.extend_from_slice(b".")?;
            text.extend_from_slice(pin_text(app, instance, pin))
        }
    }
}

// The words of a state after its code, where there are any.
fn add_words(text: &mut Bytes, words: Option<&'static str>) -> Result<(), Memory>
    ensures { OnOk result (text.new ≡ text.old ++ words_text (option_map (λ w. w.now) words.entry)) }
{
    match words {
        Some(words) => {
            text.extend_from_slice(b" ")?;
            text.extend_from_slice(words.as_bytes())
        }
        None => Ok(()),
    }
}

// The words of a code of an instance.
fn words_of(app: &App, instance: u16, code: u16) -> Option<&'static str>
    ensures { words_text (option_map (λ w. w.now) result) ≡
        (if nat_lt instance (instance_count app.now) then words_text (state_words (kind_at app.now instance) code)
        else []) }
{
    if instance < app.instance_count() {
        state_words(app.instance_kind(instance), code)
    } else {
        None
    }
}

// A code of an instance with the words of its state, as `8000 enabled`.
fn add_state(text: &mut Bytes, app: &App, instance: u16, code: u16) -> Result<(), Memory>
    ensures { OnOk result (text.new ≡ text.old ++ state_text app.now instance code) }
{
    add_code(text, code)?;
    add_words(text, words_of(app, instance, code))
}

/// A value of a name at the end of a text: of an instance its code with the words of its state, of others 0 or 1.
pub fn add_value(text: &mut Bytes, app: &App, name: Name, value: u16) -> Result<(), Memory>
    ensures { OnOk result (text.new ≡ text.old ++ value_text app.now name value) }
{
    match name {
        Name::Code(instance) => add_state(text, app, instance, value),
        Name::Signal(_) => add_short(text, u32::from(value)),
        Name::Pin { .. } => add_short(text, u32::from(value)),
    }
}
