// The names and values of a line.

ghost use Rattle.std.specs.Prelude.{◌≡◌, ◌≢◌, ◌<◌, ℕ, length, Some, IfOk, IfSome};
ghost use Rattle.ps_base.specs.LetterCase.{is_same_name};
ghost use Rattle.ps_model.specs.Network.{declared_count, input_count, instance_count, kind_at};
ghost use Rattle.ps_model.specs.Pins.{pin_names};
ghost use Rattle.ps_bench_names.specs.Names.{number_named, signal_names, instance_names, pin_named, name_of, truth_of};
ghost use Rattle.ps_bench_names.specs.Names.{IsNameOf, four_digits, code_of_kind, value_of, values_of, input_in};

use crate::name::{Name, Values};
use crate::words::{cut, cut_last};
use ps_base::Memory;
use ps_model::{App, Kind, Ty, pin_count, pin_name, pin_row};
use ps_rows::state_rows;
use std::alloc::Global;

// Whether a name is this word, without letter case.
fn is_same_name(word: &[u8], name: &[u8]) -> bool
    ensures { result ≡ is_same_name word.now name.now }
{
    word.eq_ignore_ascii_case(name)
}

/// The signal of this name, by its number among inputs, outputs and locals.
pub fn signal_named(app: &App, word: &[u8]) -> Option<u16>
    ensures named { result ≡ number_named (signal_names app.now) word.now }
    ensures within { IfSome result (λ s. s < declared_count app.now) }
{
    for s in 0..app.declared_count() {
        if is_same_name(word, app.signal_name(s).as_bytes()) {
            return Some(s);
        }
    }
    None
}

// The instance of this name.
fn instance_named(app: &App, word: &[u8]) -> Option<u16>
    ensures named { result ≡ number_named (instance_names app.now) word.now }
    ensures within { IfSome result (λ i. i < instance_count app.now) }
{
    for i in 0..app.instance_count() {
        if is_same_name(word, app.instance_name(i).as_bytes()) {
            return Some(i);
        }
    }
    None
}

// The pin of this name of a kind.
fn pin_numbered(kind: Kind, word: &[u8]) -> Option<u8>
    ensures named { result ≡ number_named (pin_names kind) word.now }
    ensures within { IfSome result (λ j. j < length (pin_names kind)) }
{
    for j in 0..pin_count(kind) {
        if is_same_name(word, pin_name(kind, j).as_bytes()) {
            return Some(j);
        }
    }
    None
}

// INSTANCE.PIN.
fn pin_named(app: &App, word: &[u8]) -> Option<Name>
    ensures names { result ≡ pin_named app.now word.now }
    ensures pin { (i : ℕ) → result ≢ Some (Name.Code i) }
    ensures stands { IfSome result (IsNameOf app.now) }
{
    let (instance, pin) = cut_last(word);
    let instance = instance_named(app, instance)?;
    let kind = app.instance_kind(instance);
    let pin = pin_numbered(kind, pin)?;
    if pin_row(kind, pin).ty == Ty::Time {
        return None;
    }
    Some(Name::Pin { instance, pin })
}

/// What a NAME names: a signal, or else an instance, or else INSTANCE.PIN.
pub fn name_of(app: &App, word: &[u8]) -> Option<Name>
    ensures names { result ≡ name_of app.now word.now }
    ensures within { (i : ℕ) → result ≡ Some (Name.Code i) → i < instance_count app.now }
    ensures stands { IfSome result (IsNameOf app.now) }
{
    if let Some(signal) = signal_named(app, word) {
        return Some(Name::Signal(signal));
    }
    if let Some(instance) = instance_named(app, word) {
        return Some(Name::Code(instance));
    }
    pin_named(app, word)
}

/// The value that a word is: `0` or `1`, or FALSE or TRUE in any letter case.
pub fn truth_of(word: &[u8]) -> Option<bool>
    ensures { result ≡ truth_of word.now }
{
    if word == b"0".as_slice() || is_same_name(word, b"FALSE") {
        Some(false)
    } else if word == b"1".as_slice() || is_same_name(word, b"TRUE") {
        Some(true)
    } else {
        None
    }
}

// The number that four hexadecimal digits are.
fn four_digits(word: &[u8]) -> Option<u16>
    ensures { result ≡ four_digits word.now }
{
    let mut bytes = [0u8; 2];
    if word.len() != 4 || hex::decode_to_slice(word, &mut bytes).is_err() {
        return None;
    }
    let high = bytes[0];
    let low = bytes[1];
    Some(u16::from(high) * 256 + u16::from(low))
}

// The code of a kind that a word is.
fn code_of(kind: Kind, word: &[u8]) -> Option<u16>
    ensures { result ≡ code_of_kind kind (four_digits word.now) }
{
    let code = four_digits(word)?;
    if state_rows(kind, code).is_some() {
        Some(code)
    } else {
        None
    }
}

/// The value that a word is for what is named: a code of the instance's kind, or 0 or 1.
pub fn value_of(app: &App, name: Name, word: &[u8]) -> Option<u16>
    requires { (i : ℕ) → name ≡ Name.Code i → i < instance_count app.now }
    ensures { result ≡ value_of app.now name word.now }
{
    match name {
        Name::Code(instance) => code_of(app.instance_kind(instance), word),
        Name::Signal(_) | Name::Pin { .. } => truth_of(word).map(u16::from),
    }
}

/// The values that a word is, with commas between them; `None` where one of them is none. `Err` comes only where memory
/// is wanting.
pub fn values_of(
    alloc: Global,
    app: &App,
    name: Name,
    word: &[u8],
) -> Result<Option<Values>, Memory>
    requires { (i : ℕ) → name ≡ Name.Code i → i < instance_count app.now }
    ensures { IfOk result (λ values. values ≡ values_of app.now name word.now) }
{
    let mut values = Values::new(alloc);
    let mut left = Some(word);
    'pieces: while let Some(text) = left {
        let (piece, rest) = cut(text, b',');
        let Some(value) = value_of(app, name, piece) else {
            return Ok(None);
        };
        values.push(value)?;
        left = rest;
    }
    Ok(Some(values))
}

/// The input of this name, by its number.
pub fn input_named(app: &App, word: &[u8]) -> Option<u16>
    ensures named { result ≡ input_in app.now (number_named (signal_names app.now) word.now) }
    ensures within { IfSome result (λ s. s < input_count app.now) }
{
    let signal = signal_named(app, word)?;
    if signal < app.input_count() {
        Some(signal)
    } else {
        None
    }
}
