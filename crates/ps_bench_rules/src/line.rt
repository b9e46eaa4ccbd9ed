// The parts of a line: its settings, and the name of a rule.

ghost use Rattle.std.specs.Prelude.{◌≡◌, ◌≤◌, length, drop, IfOk};
ghost use Rattle.ps_trace.specs.Words.{words};
ghost use Rattle.ps_bench_names.specs.Names.{number_named, signal_names};
ghost use Rattle.ps_bench_names.specs.Words.{counted};
ghost use Rattle.ps_bench_rules.specs.Line.{follow_of, follow_said, followed, pace_of_word, pace_said};
ghost use Rattle.ps_bench_rules.specs.Line.{rule_name, some_settings};
ghost use Rattle.ps_bench_rules.specs.Saying.{leader_of};

use crate::flaw::Flaw;
use crate::limits::LONGEST_PACE;
use crate::rules::{Follow, Pace, Purpose};
use crate::words::settings_said;
use ps_base::Memory;
use ps_bench_names::{
    Settings, before_blanks, behind_blanks, input_named, is_digits, is_none_left, signal_named,
    take_word,
};
use ps_model::App;
use ps_trace::number;
use std::alloc::Global;

// The word that a setting begins with.
#[derive(Clone, Copy)]
pub(crate) enum Leader {
    Every,
    Fixed,
    Follows,
    First,
}

// The setting that a word begins, if it begins one.
pub(crate) fn leader_of(word: &[u8]) -> Option<Leader>
    ensures { result ≡ leader_of word.now }
{
    if word == b"every".as_slice() {
        return Some(Leader::Every);
    }
    if word == b"fixed".as_slice() {
        return Some(Leader::Fixed);
    }
    if word == b"follows".as_slice() {
        return Some(Leader::Follows);
    }
    if word == b"first".as_slice() {
        return Some(Leader::First);
    }
    None
}

// How scans come, by one word.
pub(crate) fn pace_said(line: &[u8], at: usize) -> Result<Pace, Flaw>
    requires { at ≤ length line.now }
    ensures { result ≡ pace_said (counted (words (drop at line.now))) }
{
    let (word, next) = take_word(line, at);
    if is_none_left(line, next) {
        pace_of_word(word)
    } else {
        Err(Flaw::R1)
    }
}

// A number of ms, or `any`.
fn pace_of_word(word: &[u8]) -> Result<Pace, Flaw>
    ensures { result ≡ pace_of_word word.now }
{
    if word == b"any".as_slice() {
        return Ok(Pace::Any);
    }
    if !is_digits(word) {
        return Err(Flaw::R1);
    }
    match number(word) {
        None => Err(Flaw::R5),
        Some(0) => Err(Flaw::R1),
        Some(step) if step > LONGEST_PACE => Err(Flaw::R5),
        Some(step) => Ok(Pace::Every(step)),
    }
}

// Settings, of which there is one at least.
pub(crate) fn some_settings(
    alloc: Global,
    app: &App,
    line: &[u8],
    at: usize,
) -> Result<Result<Settings, Flaw>, Memory>
    requires { at ≤ length line.now }
    ensures { IfOk result (λ settings. settings ≡ some_settings app.now (counted (words (drop at line.now)))) }
{
    if is_none_left(line, at) {
        return Ok(Err(Flaw::R1));
    }
    settings_said(alloc, app, line, at)
}

// An input and a signal, perhaps with NOT between them.
pub(crate) fn follow_said(
    app: &App,
    purpose: Purpose,
    line: &[u8],
    at: usize,
) -> Result<Follow, Flaw>
    requires { at ≤ length line.now }
    ensures { result ≡ follow_said app.now purpose (counted (words (drop at line.now))) }
{
    let (input, next) = take_word(line, at);
    if is_none_left(line, next) {
        return Err(Flaw::R1);
    }
    let (middle, next) = take_word(line, next);
    if is_none_left(line, next) {
        return follow_of(app, purpose, false, input, middle);
    }
    let (signal, next) = take_word(line, next);
    if middle.eq_ignore_ascii_case(b"NOT") && is_none_left(line, next) {
        follow_of(app, purpose, true, input, signal)
    } else {
        Err(Flaw::R1)
    }
}

// The input of this name follows the signal of this name.
fn follow_of(
    app: &App,
    purpose: Purpose,
    denied: bool,
    input: &[u8],
    signal: &[u8],
) -> Result<Follow, Flaw>
    ensures { result ≡ follow_of app.now purpose denied input.now signal.now }
{
    let Some(input) = input_named(app, input) else {
        return Err(Flaw::R2);
    };
    let Some(signal) = followed(app, purpose, signal) else {
        return Err(Flaw::R2);
    };
    Ok(Follow {
        input,
        signal,
        denied,
    })
}

// The signal of this name, if it may be followed: of a comparison an input or an output.
fn followed(app: &App, purpose: Purpose, word: &[u8]) -> Option<u16>
    ensures { result ≡ followed app.now purpose (number_named (signal_names app.now) word.now) }
{
    let signal = signal_named(app, word)?;
    match purpose {
        Purpose::Never => Some(signal),
        Purpose::Same
            if u32::from(signal) < u32::from(app.input_count()) + u32::from(app.output_count()) => {
            Some(signal)
        }
        Purpose::Same => None,
    }
}

// The name of a `never` line.
pub(crate) fn rule_name(line: &[u8]) -> &[u8]
    ensures { result.now ≡ rule_name line.now }
{
    let words = behind_blanks(line);
    let rest = match words {
        [_, _, _, _, _, rest @ ..] => rest,
        _ => &[],
    };
    before_blanks(behind_blanks(rest))
}
