// What stands for a name, and how its value is shown.

ghost use Rattle.std.specs.Prelude.{◌≡◌, ◌+◌, ◌≤◌, ◌++◌, [], IfOk, length, slice_get, string_bytes, unwrap_or};
ghost use Rattle.ps_model.specs.Pins.{pin_names};
ghost use Rattle.ps_ways.specs.States as states;
ghost use Rattle.ps_bench_waves.specs.Shown as shown;
ghost use Rattle.ps_bench_waves.specs.Shown.{behind, digit, field_text, json_value, label};
ghost use Rattle.ps_bench_waves.specs.Shown.{state_text, truth_text, value_text};

use crate::line::Line;
use ps_base::Memory;
use ps_bench_names::Name;
use ps_model::{App, Kind, pin_count, pin_name};
use ps_ways::state_words;
use std::alloc::Global;

// The name of an instance.
fn instance_label(app: &App, instance: u16) -> &str
    ensures { result.now ≡ shown.instance_label app.now instance }
{
    if instance < app.instance_count() {
        app.instance_name(instance)
    } else {
        ""
    }
}

// The name of a pin of a kind, nothing past its pins.
fn kind_pin_label(kind: Kind, pin: u8) -> &'static str
    ensures { result.now ≡ unwrap_or (slice_get (pin_names kind) pin) [] }
{
    if pin < pin_count(kind) {
        pin_name(kind, pin)
    } else {
        ""
    }
}

// The name of a pin of an instance.
fn pin_label(app: &App, instance: u16, pin: u8) -> &'static str
    ensures { result.now ≡ shown.pin_label app.now instance pin }
{
    if instance < app.instance_count() {
        kind_pin_label(app.instance_kind(instance), pin)
    } else {
        ""
    }
}

// The name of an input, output or local.
fn signal_label(app: &App, signal: u16) -> &str
    ensures { result.now ≡ shown.signal_label app.now signal }
{
    if signal < app.declared_count() {
        app.signal_name(signal)
    } else {
        ""
    }
}

/// What stands for a name, as it is declared: `S_Ram`, `Guard` or `Guard.S_GuardSwitch1`. An error means out of memory.
pub fn label_of(alloc: Global, app: &App, name: Name) -> Result<String, Memory>
    ensures { IfOk result (λ text. string_bytes text ≡ label app.now name) }
{
    let mut text = String::new(alloc);
    match name {
        Name::Signal(signal) => text.push_str(signal_label(app, signal))?,
        Name::Code(instance) => text.push_str(instance_label(app, instance))?,
        Name::Pin { instance, pin } => {
            text.push_str(instance_label(app, instance))?;
            text.push_str(".")?;
            text.push_str(pin_label(app, instance, pin))?;
        }
    }
    Ok(text)
}

// Puts a truth value as a digit.
pub fn put_digit(line: &mut Line, value: u16)
    requires { length line.old.text + 1 ≤ line.old.room }
    ensures text { line.new.text ≡ line.old.text ++ digit value }
    ensures len { length line.new.text ≡ length line.old.text + 1 }
    ensures room { line.new.room ≡ line.old.room }
{
    line.put(if value == 0 { b"0" } else { b"1" });
}

// Puts a truth value as JSON has it.
pub fn put_truth(line: &mut Line, value: u16)
    requires { length line.old.text + 5 ≤ line.old.room }
    ensures text { line.new.text ≡ line.old.text ++ truth_text value }
    ensures len { length line.new.text ≤ length line.old.text + 5 }
    ensures room { line.new.room ≡ line.old.room }
{
    if value == 0 {
        line.put(b"false");
    } else {
        line.put(b"true");
    }
}

// Puts the words of a DiagCode of a kind, after a blank.
fn put_words(line: &mut Line, kind: Kind, code: u16)
    requires { length line.old.text + 61 ≤ line.old.room }
    ensures text { line.new.text ≡ line.old.text ++ behind (states.state_words kind code) }
    ensures len { length line.new.text ≤ length line.old.text + 61 }
    ensures room { line.new.room ≡ line.old.room }
{
    if let Some(words) = state_words(kind, code) {
        line.put(b" ");
        line.put(words.as_bytes());
    }
}

// Puts a DiagCode of an instance with the words of its state.
fn put_state(line: &mut Line, app: &App, instance: u16, code: u16)
    requires { length line.old.text + 65 ≤ line.old.room }
    ensures text { line.new.text ≡ line.old.text ++ state_text app.now instance code }
    ensures len { length line.new.text ≤ length line.old.text + 65 }
    ensures room { line.new.room ≡ line.old.room }
{
    line.put_code(code);
    if instance < app.instance_count() {
        put_words(line, app.instance_kind(instance), code);
    }
}

// Puts the value of a name for a person.
pub fn put_value(line: &mut Line, app: &App, name: Name, value: u16)
    requires { length line.old.text + 65 ≤ line.old.room }
    ensures text { line.new.text ≡ line.old.text ++ value_text app.now name value }
    ensures len { length line.new.text ≤ length line.old.text + 65 }
    ensures room { line.new.room ≡ line.old.room }
{
    match name {
        Name::Signal(_) | Name::Pin { .. } => put_digit(line, value),
        Name::Code(instance) => put_state(line, app, instance, value),
    }
}

// Puts the value of a name as a field of CSV.
pub fn put_field(line: &mut Line, name: Name, value: u16)
    requires { length line.old.text + 4 ≤ line.old.room }
    ensures text { line.new.text ≡ line.old.text ++ field_text name value }
    ensures len { length line.new.text ≤ length line.old.text + 4 }
    ensures room { line.new.room ≡ line.old.room }
{
    match name {
        Name::Signal(_) | Name::Pin { .. } => put_digit(line, value),
        Name::Code(_) => line.put_code(value),
    }
}

// Puts the value of a name as JSON has it.
pub fn put_json_value(line: &mut Line, name: Name, value: u16)
    requires { length line.old.text + 6 ≤ line.old.room }
    ensures text { line.new.text ≡ line.old.text ++ json_value name value }
    ensures len { length line.new.text ≤ length line.old.text + 6 }
    ensures room { line.new.room ≡ line.old.room }
{
    match name {
        Name::Signal(_) | Name::Pin { .. } => put_truth(line, value),
        Name::Code(_) => {
            line.put(b"\"");
            line.put_code(value);
            line.put(b"\"");
        }
    }
}
