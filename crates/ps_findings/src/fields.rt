// The names and the values of the fields of a report.

ghost use Rattle.std.specs.Prelude.{◌≡◌, ◌<◌, IfOk};
ghost use Rattle.ps_findings.specs.Fields.{IsFieldBy, diagnosis_told, digit, field_name, field_text, has_code};
ghost use Rattle.ps_findings.specs.Fields.{name_told, output_told, reported, value_text, values_text};
ghost use Rattle.ps_findings.specs.Said.{HasSaid};

use crate::telling::Telling;
use ps_accepted::resolve_text;
use ps_base::{Bytes, Fail, Memory};
use ps_model::{App, Cause};
use std::alloc::Global;

// The digits of a code.
static DIGITS: &[u8; 16] = b"0123456789ABCDEF";

// The most bytes of a name that are told: of a longer one, as within many function blocks, the last.
const MOST_OF_NAME: usize = 160;

// Adds a name, or the end of a long one.
fn add_name(telling: &mut Telling, name: &str)
    ensures { HasSaid (name_told name.now) telling.old telling.new }
{
    let bytes = name.as_bytes();
    let left_out = bytes.len().saturating_sub(MOST_OF_NAME);
    if left_out > 0 {
        telling.add(b"...");
    }
    telling.add(&bytes[left_out..]);
}

// Adds the name of an output by its number.
fn add_output(telling: &mut Telling, app: &App, output: u16)
    ensures { HasSaid (output_told app.now output) telling.old telling.new }
{
    let signal = app.input_count().saturating_add(output);
    if signal < app.declared_count() {
        add_name(telling, app.signal_name(signal));
    }
}

// What is reported of an instance, by its number.
fn reported(number: u16) -> &'static [u8]
    ensures { result.now ≡ reported number }
{
    if number == 0 {
        b".Ready"
    } else if number == 1 {
        b".Error"
    } else {
        b".DiagCode"
    }
}

// Adds Ready, Error or DiagCode of an instance, by the number of the field after the outputs.
fn add_diagnosis(telling: &mut Telling, app: &App, number: u16)
    ensures { HasSaid (diagnosis_told app.now number) telling.old telling.new }
{
    let instance = number / 3;
    if instance < app.instance_count() {
        add_name(telling, app.instance_name(instance));
        telling.add(reported(number % 3));
    }
}

// The hexadecimal digit of a number.
fn digit(number: u16) -> u8
    requires { number < 16 }
    ensures { result ≡ digit number }
{
    DIGITS[number as usize]
}

// Adds a value: a code in four hexadecimal digits, or a Boolean as 0 or 1.
fn add_value(telling: &mut Telling, value: u16, is_code: bool)
    ensures { HasSaid (value_text is_code value) telling.old telling.new }
{
    if is_code {
        telling.add(&[
            digit(value / 4096),
            digit(value / 256 % 16),
            digit(value / 16 % 16),
            digit(value % 16),
        ]);
    } else {
        telling.add(&[digit(value % 16)]);
    }
}

// Adds the values of the channels, as ` (A 8000, B C002)`, where they are known.
fn add_values(telling: &mut Telling, values: Option<(u16, u16)>, is_code: bool)
    ensures { HasSaid (values_text is_code values) telling.old telling.new }
{
    if let Some((a, b)) = values {
        telling.add(b" (A ");
        add_value(telling, a, is_code);
        telling.add(b", B ");
        add_value(telling, b, is_code);
        telling.add(b")");
    }
}

// Adds the name of a field of the reports of an application.
fn add_field(telling: &mut Telling, app: &App, field: u16)
    ensures { HasSaid (field_name app.now field) telling.old telling.new }
{
    let outputs = app.output_count();
    if field < outputs {
        add_output(telling, app, field);
    } else {
        add_diagnosis(telling, app, field - outputs);
    }
}

// Whether a field of the reports of an application has a code.
fn has_code(app: &App, field: u16) -> bool
    ensures { result ≡ has_code app.now field }
{
    let outputs = app.output_count();
    field >= outputs && (field - outputs) % 3 == 2
}

// The name of a field of the reports of an application, and the values of the channels in it.
fn field_of(
    alloc: Global,
    app: &App,
    field: u16,
    values: Option<(u16, u16)>,
) -> Result<Bytes, Memory>
    ensures { IfOk result (λ bytes. bytes ≡ field_text app.now field values) }
{
    let mut telling = Telling::new(alloc);
    add_field(&mut telling, app, field);
    add_values(&mut telling, values, has_code(app, field));
    telling.finish()
}

/// The name of the first field in which the reports differ, by the application of a text, with the values of channel A
/// and of channel B where they are known: `S_Motor (A 1, B 0)`, or `E.DiagCode (A 8000, B C002)`; empty where the cause
/// is another one, or the text has no application. Of a name the last 160 bytes are told. The bytes are all of the
/// text, or one more than the largest source has.
pub fn field_told(
    alloc: Global,
    text: &[u8],
    cause: Cause,
    values: Option<(u16, u16)>,
) -> Result<Bytes, Memory>
    ensures says { IfOk result (IsFieldBy text.now cause values) }
{
    let Cause::Differ(field) = cause else {
        return Ok(Bytes::new(alloc));
    };
    match resolve_text(alloc, text) {
        Ok(app) => field_of(alloc, &app, field, values),
        Err(Fail::Memory) => Err(Memory),
        Err(Fail::Refused(_)) => Ok(Bytes::new(alloc)),
    }
}
