// The settings and conditions of a line.

ghost use Rattle.std.specs.Prelude.{◌≡◌, ◌≤◌, ◌<◌, ℕ, Bool, length, drop, IfOk, Some};
ghost use Rattle.ps_model.specs.Network.{instance_count};
ghost use Rattle.ps_trace.specs.Words.{words};
ghost use Rattle.ps_bench_names.specs.Words.{counted};
ghost use Rattle.ps_bench_names.specs.Names.{name_of};
ghost use Rattle.ps_bench_rules.specs.Words.{among_said, compare_said, condition_said, conditions_said, denied_said};
ghost use Rattle.ps_bench_rules.specs.Words.{named_when, setting_said, settings_said, term_of};

use crate::flaw::Flaw;
use crate::lists::Conditions;
use crate::parts::{and_condition, and_setting};
use crate::rules::Condition;
use ps_base::Memory;
use ps_bench_names::{
    Name, Setting, Settings, Values, cut, input_named, name_of, next_counted, truth_of, value_of,
    values_of,
};
use ps_model::App;
use std::alloc::Global;

// The setting that a word is.
fn setting_said(app: &App, word: &[u8]) -> Result<Setting, Flaw>
    ensures { result ≡ setting_said app.now word.now }
{
    let (name, Some(value)) = cut(word, b'=') else {
        return Err(Flaw::R1);
    };
    let Some(input) = input_named(app, name) else {
        return Err(Flaw::R2);
    };
    match truth_of(value) {
        Some(value) => Ok(Setting { input, value }),
        None => Err(Flaw::R3),
    }
}

// The settings that the words of a line are from `at` on.
pub(crate) fn settings_said(
    alloc: Global,
    app: &App,
    line: &[u8],
    at: usize,
) -> Result<Result<Settings, Flaw>, Memory>
    requires { at ≤ length line.now }
    ensures { IfOk result (λ settings. settings ≡ settings_said app.now (counted (words (drop at line.now)))) }
{
    let mut settings = Settings::new(alloc);
    let mut flaw = None;
    let mut next = at;
    'words: while let Some((from, upto)) = next_counted(line, next) {
        flaw = and_setting(&mut settings, flaw, setting_said(app, &line[from..upto]))?;
        next = upto;
    }
    match flaw {
        None => Ok(Ok(settings)),
        Some(flaw) => Ok(Err(flaw)),
    }
}

// The conditions that the words of a line are from `at` on.
pub(crate) fn conditions_said(
    alloc: Global,
    app: &App,
    line: &[u8],
    at: usize,
) -> Result<Result<Conditions, Flaw>, Memory>
    requires { at ≤ length line.now }
    ensures { IfOk result (λ conditions. conditions ≡ conditions_said app.now (counted (words (drop at line.now)))) }
{
    let mut conditions = Conditions::new(alloc);
    let mut flaw = None;
    let mut next = at;
    'words: while let Some((from, upto)) = next_counted(line, next) {
        let condition = condition_said(alloc, app, &line[from..upto])?;
        flaw = and_condition(&mut conditions, flaw, condition)?;
        next = upto;
    }
    match flaw {
        None => Ok(Ok(conditions)),
        Some(flaw) => Ok(Err(flaw)),
    }
}

// The condition that a word is.
fn condition_said(alloc: Global, app: &App, word: &[u8]) -> Result<Result<Condition, Flaw>, Memory>
    ensures { IfOk result (λ condition. condition ≡ condition_said app.now word.now) }
{
    match cut(word, b'=') {
        (name, Some(value)) => compare_said(alloc, app, name, value),
        (_, None) => Ok(Err(Flaw::R1)),
    }
}

// The condition that a name and what stands after its `=` are.
fn compare_said(
    alloc: Global,
    app: &App,
    name: &[u8],
    value: &[u8],
) -> Result<Result<Condition, Flaw>, Memory>
    ensures { IfOk result (λ condition. condition ≡ compare_said app.now name.now value.now) }
{
    if !name.is_empty() && name[name.len() - 1] == b'!' {
        denied_said(alloc, app, &name[..name.len() - 1], value)
    } else {
        among_said(alloc, app, name, value)
    }
}

// What is named so, and whether its value after the scan before is meant.
fn named_when(app: &App, before: bool, name: &[u8]) -> Option<(Name, bool)>
    ensures named { result ≡ named_when before (name_of app.now name.now) }
    ensures within { (i : ℕ) (when : Bool) → result ≡ Some (Name.Code i, when) → i < instance_count app.now }
{
    let name = name_of(app, name)?;
    Some((name, before))
}

// What is named, and whether its value after the scan before is meant.
fn term_of(app: &App, word: &[u8]) -> Option<(Name, bool)>
    ensures named { result ≡ term_of app.now word.now }
    ensures within { (i : ℕ) (before : Bool) → result ≡ Some (Name.Code i, before) → i < instance_count app.now }
{
    match cut(word, b'@') {
        (name, Some(when)) if when == b"before".as_slice() => named_when(app, true, name),
        (_, Some(_)) => None,
        (_, None) => named_when(app, false, word),
    }
}

// NAME!=V.
fn denied_said(
    alloc: Global,
    app: &App,
    name: &[u8],
    value: &[u8],
) -> Result<Result<Condition, Flaw>, Memory>
    ensures { IfOk result (λ condition. condition ≡ denied_said app.now (term_of app.now name.now) value.now) }
{
    let Some((name, before)) = term_of(app, name) else {
        return Ok(Err(Flaw::R2));
    };
    let Some(value) = value_of(app, name, value) else {
        return Ok(Err(Flaw::R3));
    };
    let mut values = Values::new(alloc);
    values.push(value)?;
    Ok(Ok(Condition {
        name,
        before,
        denied: true,
        values,
    }))
}

// NAME=V,V...
fn among_said(
    alloc: Global,
    app: &App,
    name: &[u8],
    value: &[u8],
) -> Result<Result<Condition, Flaw>, Memory>
    ensures { IfOk result (λ condition. condition ≡ among_said app.now (term_of app.now name.now) value.now) }
{
    let Some((name, before)) = term_of(app, name) else {
        return Ok(Err(Flaw::R2));
    };
    match values_of(alloc, app, name, value)? {
        Some(values) => Ok(Ok(Condition {
            name,
            before,
            denied: false,
            values,
        })),
        None => Ok(Err(Flaw::R3)),
    }
}
