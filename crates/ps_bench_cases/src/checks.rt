// The settings and checks of a line.

ghost use Rattle.std.specs.Prelude.{◌≡◌, ◌≤◌, length, drop, IfOk};
ghost use Rattle.ps_trace.specs.Words.{words};
ghost use Rattle.ps_bench_names.specs.Words.{counted};
ghost use Rattle.ps_bench_names.specs.Names.{name_of};
ghost use Rattle.ps_bench_cases.specs.Line.{settings_said, not_said, among_said, compare_said, check_said, checks_said};

use crate::case::Check;
use crate::lists::Checks;
use crate::parts::{and_check, and_setting};
use crate::rule::CaseRule;
use crate::settings::setting_said;
use ps_base::Memory;
use ps_bench_names::{Settings, cut, is_none_left, name_of, next_counted, value_of, values_of};
use ps_model::App;
use std::alloc::Global;

// The settings that the words of a line are from `at` on.
pub(crate) fn settings_said(
    alloc: Global,
    app: &App,
    line: &[u8],
    at: usize,
) -> Result<Result<Settings, CaseRule>, Memory>
    requires { at ≤ length line.now }
    ensures { IfOk result (λ settings. settings ≡ settings_said app.now (counted (words (drop at line.now)))) }
{
    let mut found = Ok(Settings::new(alloc));
    let mut next = at;
    'words: while let Some((from, upto)) = next_counted(line, next) {
        found = and_setting(found, setting_said(app, &line[from..upto]))?;
        next = upto;
    }
    Ok(found)
}

// The checks that the words of a line are from `at` on.
pub(crate) fn checks_said(
    alloc: Global,
    app: &App,
    line: &[u8],
    at: usize,
) -> Result<Result<Checks, CaseRule>, Memory>
    requires { at ≤ length line.now }
    ensures { IfOk result (λ checks. checks ≡ checks_said app.now (counted (words (drop at line.now)))) }
{
    if is_none_left(line, at) {
        return Ok(Err(CaseRule::K1));
    }
    let mut found = Ok(Checks::new(alloc));
    let mut next = at;
    'words: while let Some((from, upto)) = next_counted(line, next) {
        let check = check_said(alloc, app, &line[from..upto])?;
        found = and_check(found, check)?;
        next = upto;
    }
    Ok(found)
}

// The check that a word is.
fn check_said(alloc: Global, app: &App, word: &[u8]) -> Result<Result<Check, CaseRule>, Memory>
    ensures { IfOk result (λ check. check ≡ check_said app.now word.now) }
{
    if word == b"trip".as_slice() {
        return Ok(Ok(Check::Trip));
    }
    if word == b"no-trip".as_slice() {
        return Ok(Ok(Check::NoTrip));
    }
    match cut(word, b'=') {
        (name, Some(value)) => compare_said(alloc, app, name, value),
        (_, None) => Ok(Err(CaseRule::K1)),
    }
}

// The check that a name and what stands after its `=` are.
fn compare_said(
    alloc: Global,
    app: &App,
    name: &[u8],
    value: &[u8],
) -> Result<Result<Check, CaseRule>, Memory>
    ensures { IfOk result (λ check. check ≡ compare_said app.now name.now value.now) }
{
    if !name.is_empty() && name[name.len() - 1] == b'!' {
        Ok(not_said(app, &name[..name.len() - 1], value))
    } else {
        among_said(alloc, app, name, value)
    }
}

// NAME!=V.
fn not_said(app: &App, name: &[u8], value: &[u8]) -> Result<Check, CaseRule>
    ensures { result ≡ not_said app.now (name_of app.now name.now) value.now }
{
    let Some(name) = name_of(app, name) else {
        return Err(CaseRule::K2);
    };
    match value_of(app, name, value) {
        Some(value) => Ok(Check::Not { name, value }),
        None => Err(CaseRule::K3),
    }
}

// NAME=V,V...
fn among_said(
    alloc: Global,
    app: &App,
    name: &[u8],
    value: &[u8],
) -> Result<Result<Check, CaseRule>, Memory>
    ensures { IfOk result (λ check. check ≡ among_said app.now (name_of app.now name.now) value.now) }
{
    let Some(name) = name_of(app, name) else {
        return Ok(Err(CaseRule::K2));
    };
    match values_of(alloc, app, name, value)? {
        Some(values) => Ok(Ok(Check::Among { name, values })),
        None => Ok(Err(CaseRule::K3)),
    }
}
