// A fact of a scan in words.

ghost use Rattle.std.specs.Prelude.{◌≡◌, ◌<◌, ◌++◌, OnOk, decimal, slice_get, slice_index, true};
ghost use Rattle.std.specs.Char.{to_ascii_uppercase};
ghost use Rattle.hex.specs.Hex.{lower_digits};
ghost use Rattle.ps_bench_why.specs.Facts.{ask_is, asked_text, awaited_text, before_text, called_stayed, edge_was};
ghost use Rattle.ps_bench_why.specs.Facts.{ending_of, fact_text, input_text, mode_is, mode_was, pin_ending, pin_is};
ghost use Rattle.ps_bench_why.specs.Facts.{signal_is, signal_was, since_text, so_text, state_is, state_named, state_was};
ghost use Rattle.ps_bench_why.specs.Facts.{stayed_in, waits_text, waits_words};
ghost use Rattle.ps_bench_why.specs.Moments.{moment_of};
ghost use Rattle.ps_ways.specs.Conditions.{subject_words};
ghost use Rattle.ps_cover.specs.Lines.{truth};
ghost use Rattle.ps_report.specs.Lines.{code_text};

use crate::naming::{add_call_pin, add_signal, called_name, kind_of, name_of};
use crate::waiting::{ON, is_waited_for, standing_of};
use itoa::Buffer;
use ps_base::{Bytes, Memory};
use ps_cover::{add_condition, called_kind};
use ps_model::{App, Arg, Args, Kind, Step};
use ps_ways::{Ask, Condition, awaited_of, state_words, subject_of, told_of};
use ps_why::{CallScene, Fact, Moment, is_error};

/// Puts a number in decimal digits.
pub(crate) fn add_number(text: &mut Bytes, number: u32) -> Result<(), Memory>
    ensures { OnOk result (text.new ≡ text.old ++ decimal number) }
{
    let mut digits = Buffer::new();
    text.extend_from_slice(digits.format(number).as_bytes())
}

// The capital hexadecimal digit of a number up to 15.
fn capital_digit(n: u8) -> u8
    requires { n < 16 }
    ensures { result ≡ to_ascii_uppercase (slice_index lower_digits n) }
{
    b"0123456789ABCDEF"[usize::from(n)]
}

// A DiagCode in four capital hexadecimal digits.
#[tactic(auto, unfolding(hex::specs::Hex::encode_with))]
fn code_digits(code: u16) -> [u8; 4]
    ensures { result ≡ code_text code }
{
    let [high, low] = code.to_be_bytes();
    [
        capital_digit(high / 16),
        capital_digit(high % 16),
        capital_digit(low / 16),
        capital_digit(low % 16),
    ]
}

// Puts a state of a kind, as `8004 (waiting for switch 2)`.
fn add_state(text: &mut Bytes, kind: Kind, code: u16) -> Result<(), Memory>
    ensures { OnOk result (text.new ≡ text.old ++ state_named kind code) }
{
    text.extend_from_slice(&code_digits(code))?;
    if let Some(words) = state_words(kind, code) {
        text.extend_from_slice(b" (")?;
        text.extend_from_slice(words.as_bytes())?;
        text.extend_from_slice(b")")?;
    }
    Ok(())
}

// A truth value in capitals.
fn truth(value: bool) -> &'static [u8]
    ensures { result.now ≡ truth value }
{
    if value { b"TRUE" } else { b"FALSE" }
}

// What ends a branch at an input of the application.
fn input_text(app: &App, s: u16) -> &'static [u8]
    ensures { result.now ≡ input_text app.now s }
{
    if s < app.input_count() {
        b", an input"
    } else {
        b""
    }
}

// Puts when something was that was before the scan.
fn add_before(text: &mut Bytes, before: Option<u32>) -> Result<(), Memory>
    ensures { OnOk result (text.new ≡ text.old ++ before_text before) }
{
    match before {
        Some(ms) => {
            text.extend_from_slice(b" in the scan before, at ")?;
            add_number(text, ms)
        }
        None => text.extend_from_slice(b" before the first scan"),
    }
}

fn add_signal_is(text: &mut Bytes, app: &App, s: u16, value: bool) -> Result<(), Memory>
    ensures { OnOk result (text.new ≡ text.old ++ signal_is app.now s value) }
{
    add_signal(text, app, s)?;
    text.extend_from_slice(b" is ")?;
    text.extend_from_slice(truth(value))?;
    text.extend_from_slice(input_text(app, s))
}

fn add_signal_was(text: &mut Bytes, m: &Moment<'_>, s: u16, value: bool) -> Result<(), Memory>
    ensures { OnOk result (text.new ≡ text.old ++ signal_was (moment_of m.entry.now) s value) }
{
    add_signal(text, m.app, s)?;
    text.extend_from_slice(b" was ")?;
    text.extend_from_slice(truth(value))?;
    add_before(text, m.before)
}

// What stands at a pin of a call, where that ends a branch.
fn ending_of(args: &Args, j: u8) -> &'static [u8]
    ensures { result.now ≡ ending_of (slice_get args.now j) }
{
    if (j as usize) >= args.len() {
        return b"";
    }
    match args.at(j as usize) {
        Arg::Free => b", left open",
        Arg::Lit(_) => b", a literal",
        Arg::Time(_) | Arg::Value(_) => b"",
    }
}

// The same of the call of a step.
fn pin_ending(app: &App, k: u16, j: u8) -> &'static [u8]
    ensures { result.now ≡ pin_ending (slice_get app.now.steps k) j }
{
    if k >= app.step_count() {
        return b"";
    }
    match app.step(k) {
        Step::Call { args, .. } => ending_of(args, j),
        Step::Assign { .. } => b"",
    }
}

fn add_pin_is(text: &mut Bytes, app: &App, k: u16, j: u8, value: bool) -> Result<(), Memory>
    ensures { OnOk result (text.new ≡ text.old ++ pin_is app.now k j value) }
{
    add_call_pin(text, app, k, j)?;
    text.extend_from_slice(b" is ")?;
    text.extend_from_slice(truth(value))?;
    text.extend_from_slice(pin_ending(app, k, j))
}

// The state of an instance, if it stayed in it.
fn stayed_in(calls: &[CallScene], i: u16) -> Option<u16>
    ensures { result ≡ stayed_in (slice_get calls.now i) }
{
    if (i as usize) >= calls.len() {
        return None;
    }
    let call = &calls[i as usize];
    if call.from == call.code {
        Some(call.code)
    } else {
        None
    }
}

// That of the instance that a step calls.
fn called_stayed(m: &Moment<'_>, k: u16) -> Option<u16>
    ensures { result ≡ called_stayed (moment_of m.entry.now) (slice_get m.entry.now.app.now.steps k) }
{
    if k >= m.app.step_count() {
        return None;
    }
    match m.app.step(k) {
        Step::Call { instance, .. } => stayed_in(m.calls, *instance),
        Step::Assign { .. } => None,
    }
}

// Puts what is so of what a guard asks.
fn add_so(text: &mut Bytes, kind: Kind, ask: Ask, value: bool) -> Result<(), Memory>
    ensures { OnOk result (text.new ≡ text.old ++ so_text kind ask value) }
{
    text.extend_from_slice(b": ")?;
    add_condition(text, kind, Condition { ask, holds: value })
}

// Puts what is waited for, and what there is in its place.
fn add_awaited(text: &mut Bytes, kind: Kind, ask: Ask, value: bool) -> Result<(), Memory>
    ensures { OnOk result (text.new ≡ text.old ++ awaited_text kind ask value) }
{
    let awaited = Condition { ask, holds: !value };
    let standing = Condition { ask, holds: value };
    text.extend_from_slice(b" waits for ")?;
    text.extend_from_slice(subject_of(kind, awaited).as_bytes())?;
    text.extend_from_slice(b" ")?;
    text.extend_from_slice(awaited_of(awaited).as_bytes())?;
    text.extend_from_slice(b": ")?;
    text.extend_from_slice(standing_of(kind, standing).as_bytes())?;
    text.extend_from_slice(b" ")?;
    text.extend_from_slice(told_of(standing).as_bytes())
}

// Puts one of both, of an instance that stayed in a state, or did not.
fn add_asked(
    text: &mut Bytes,
    kind: Kind,
    stayed: Option<u16>,
    ask: Ask,
    value: bool,
) -> Result<(), Memory>
    ensures { OnOk result (text.new ≡ text.old ++ asked_text kind stayed ask value) }
{
    match stayed {
        Some(code) if is_waited_for(kind, code, Condition { ask, holds: value }) => {
            add_awaited(text, kind, ask, value)
        }
        _ => add_so(text, kind, ask, value),
    }
}

fn add_ask_is(text: &mut Bytes, m: &Moment<'_>, k: u16, ask: Ask, value: bool) -> Result<(), Memory>
    ensures { OnOk result (text.new ≡ text.old ++ ask_is (moment_of m.entry.now) k ask value) }
{
    text.extend_from_slice(called_name(m.app, k))?;
    add_asked(text, called_kind(m.app, k), called_stayed(m, k), ask, value)
}

// What is told of a state that stayed: that it waits.
fn waits_words(code: u16) -> &'static [u8]
    ensures { result.now ≡ waits_words code }
{
    if code == 0 {
        b" and waits for Activate"
    } else if code == ON {
        b""
    } else if is_error(code) {
        b" and waits to be ended"
    } else {
        b" and waits"
    }
}

// The same where a state stayed.
fn waits_text(stayed: Option<u16>) -> &'static [u8]
    ensures { result.now ≡ waits_text stayed }
{
    match stayed {
        Some(code) => waits_words(code),
        None => b"",
    }
}

fn add_state_is(text: &mut Bytes, m: &Moment<'_>, i: u16, code: u16) -> Result<(), Memory>
    ensures { OnOk result (text.new ≡ text.old ++ state_is (moment_of m.entry.now) i code) }
{
    text.extend_from_slice(name_of(m.app, i))?;
    text.extend_from_slice(b" is in ")?;
    add_state(text, kind_of(m.app, i), code)?;
    text.extend_from_slice(b" since ")?;
    add_number(text, m.begun(i))?;
    text.extend_from_slice(waits_text(stayed_in(m.calls, i)))
}

// Puts since when a state before the scan had been entered.
fn add_since(text: &mut Bytes, since: u32, before: Option<u32>) -> Result<(), Memory>
    ensures { OnOk result (text.new ≡ text.old ++ since_text since before) }
{
    match before {
        Some(_) => {
            text.extend_from_slice(b" since ")?;
            add_number(text, since)?;
            text.extend_from_slice(b", up to this scan")
        }
        None => text.extend_from_slice(b" before the first scan"),
    }
}

fn add_state_was(text: &mut Bytes, m: &Moment<'_>, i: u16, code: u16) -> Result<(), Memory>
    ensures { OnOk result (text.new ≡ text.old ++ state_was (moment_of m.entry.now) i code) }
{
    text.extend_from_slice(name_of(m.app, i))?;
    text.extend_from_slice(b" was in ")?;
    add_state(text, kind_of(m.app, i), code)?;
    add_since(text, m.begun_before(i), m.before)
}

// What a pin of an instance is called that a guard looks at beside its present value.
fn edge_name(kind: Kind, ask: Ask) -> &'static [u8]
    ensures { result.now ≡ subject_words kind ask true }
{
    subject_of(kind, Condition { ask, holds: true }).as_bytes()
}

// Puts Reset or the auxiliary input of an instance as it was in its last step.
fn add_edge_was(
    text: &mut Bytes,
    m: &Moment<'_>,
    i: u16,
    ask: Ask,
    value: bool,
) -> Result<(), Memory>
    ensures { OnOk result (text.new ≡ text.old ++ edge_was (moment_of m.entry.now) i ask value) }
{
    text.extend_from_slice(name_of(m.app, i))?;
    text.extend_from_slice(b".")?;
    text.extend_from_slice(edge_name(kind_of(m.app, i), ask))?;
    text.extend_from_slice(b" was ")?;
    text.extend_from_slice(truth(value))?;
    add_before(text, m.before)
}

fn add_mode_is(text: &mut Bytes, app: &App, i: u16, mode: u8) -> Result<(), Memory>
    ensures { OnOk result (text.new ≡ text.old ++ mode_is app.now i mode) }
{
    text.extend_from_slice(name_of(app, i))?;
    text.extend_from_slice(b" has latched mode ")?;
    add_number(text, mode as u32)
}

fn add_mode_was(text: &mut Bytes, m: &Moment<'_>, i: u16, mode: u8) -> Result<(), Memory>
    ensures { OnOk result (text.new ≡ text.old ++ mode_was (moment_of m.entry.now) i mode) }
{
    text.extend_from_slice(name_of(m.app, i))?;
    text.extend_from_slice(b" had latched mode ")?;
    add_number(text, mode as u32)?;
    add_before(text, m.before)
}

/// Puts a fact in words.
pub(crate) fn add_fact(text: &mut Bytes, m: &Moment<'_>, fact: Fact) -> Result<(), Memory>
    ensures { OnOk result (text.new ≡ text.old ++ fact_text (moment_of m.entry.now) fact) }
{
    match fact {
        Fact::SignalIs { signal, value } => add_signal_is(text, m.app, signal, value),
        Fact::SignalWas { signal, value } => add_signal_was(text, m, signal, value),
        Fact::PinIs { step, pin, value } => add_pin_is(text, m.app, step, pin, value),
        Fact::AskIs { step, ask, value } => add_ask_is(text, m, step, ask, value),
        Fact::StateIs { instance, code } => add_state_is(text, m, instance, code),
        Fact::StateWas { instance, code } => add_state_was(text, m, instance, code),
        Fact::ResetWas { instance, value } => add_edge_was(text, m, instance, Ask::Edge, value),
        Fact::AuxiliaryWas { instance, value } => add_edge_was(text, m, instance, Ask::Rise, value),
        Fact::ModeIs { instance, mode } => add_mode_is(text, m.app, instance, mode),
        Fact::ModeWas { instance, mode } => add_mode_was(text, m, instance, mode),
    }
}
