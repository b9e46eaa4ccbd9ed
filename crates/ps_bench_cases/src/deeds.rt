// What the words of a line ask for.

ghost use Rattle.std.specs.Prelude.{◌≡◌, ◌≤◌, length, drop, IfOk};
ghost use Rattle.ps_trace.specs.Words.{words};
ghost use Rattle.ps_bench_names.specs.Words.{counted};
ghost use Rattle.ps_bench_cases.specs.Words.{number_said, above_zero};
ghost use Rattle.ps_bench_cases.specs.Parts.{both};
ghost use Rattle.ps_bench_cases.specs.Line.{alone, set_said, behind_every, restart_said, deed_with, deed_of_two, every_said, expect_of};
ghost use Rattle.ps_bench_cases.specs.Line.{expect_now, expect_said, with_settings, deed_said};
ghost use Rattle.ps_bench_cases.specs.LaterDeeds.{other_said};
ghost use Rattle.ps_bench_cases.specs.declared.deed.Deed.TheVariants.{At, After, Times, For, Until};
ghost use Rattle.ps_bench_cases.specs.declared.case.Window.TheVariants.{Within, For as Throughout};

use crate::case::Window;
use crate::checks::{checks_said, settings_said};
use crate::deed::Deed;
use crate::lists::Checks;
use crate::numbers::{count_said, number_said};
use crate::parts::both;
use crate::rule::CaseRule;
use crate::strike::fault_said;
use ps_base::Memory;
use ps_bench_names::{Settings, is_none_left, take_word};
use ps_model::App;
use std::alloc::Global;

// What a line asks for and its settings, or the least rule that it breaks.
pub(crate) type Asked = Result<(Deed, Settings), CaseRule>;

// What the words of a line ask for: the first, and those from `at` on.
pub(crate) fn deed_said(
    alloc: Global,
    app: &App,
    line: &[u8],
    word: &[u8],
    at: usize,
) -> Result<Asked, Memory>
    requires { at ≤ length line.now }
    ensures { IfOk result (λ asked. asked ≡ deed_said app.now word.now (counted (words (drop at line.now)))) }
{
    if word == b"set".as_slice() {
        set_said(alloc, app, line, at)
    } else if word == b"at".as_slice() {
        let (time, next) = take_word(line, at);
        with_settings(alloc, app, at_said(time), line, next)
    } else if word == b"every".as_slice() {
        Ok(alone(alloc, every_said(line, at)))
    } else if word == b"restart".as_slice() {
        Ok(alone(alloc, restart_said(line, at)))
    } else {
        other_said(alloc, app, line, word, at)
    }
}

// What the words of a line ask for whose first is none of `set`, `at`, `every` and `restart`.
fn other_said(
    alloc: Global,
    app: &App,
    line: &[u8],
    word: &[u8],
    at: usize,
) -> Result<Asked, Memory>
    requires { at ≤ length line.now }
    ensures { IfOk result (λ asked. asked ≡ other_said app.now word.now (counted (words (drop at line.now)))) }
{
    if word == b"fault".as_slice() {
        Ok(alone(alloc, fault_said(alloc, line, at)?))
    } else if word == b"expect".as_slice() {
        Ok(alone(alloc, expect_said(alloc, app, line, at)?))
    } else if !word.is_empty() && word[0] == b'+' {
        with_settings(alloc, app, after_said(&word[1..]), line, at)
    } else {
        Ok(Err(CaseRule::K1))
    }
}

// A deed, with no settings.
fn alone(alloc: Global, deed: Result<Deed, CaseRule>) -> Asked
    ensures { result ≡ alone deed }
{
    match deed {
        Ok(deed) => Ok((deed, Settings::new(alloc))),
        Err(rule) => Err(rule),
    }
}

// A deed, with the settings from `at` on.
fn with_settings(
    alloc: Global,
    app: &App,
    deed: Result<Deed, CaseRule>,
    line: &[u8],
    at: usize,
) -> Result<Asked, Memory>
    requires { at ≤ length line.now }
    ensures { IfOk result (λ asked. asked ≡ with_settings app.now deed (counted (words (drop at line.now)))) }
{
    let settings = settings_said(alloc, app, line, at)?;
    Ok(both(deed, settings))
}

// Settings alone, of which there is one at least.
fn set_said(alloc: Global, app: &App, line: &[u8], at: usize) -> Result<Asked, Memory>
    requires { at ≤ length line.now }
    ensures { IfOk result (λ asked. asked ≡ set_said app.now (counted (words (drop at line.now)))) }
{
    if is_none_left(line, at) {
        return Ok(Err(CaseRule::K1));
    }
    with_settings(alloc, app, Ok(Deed::Set), line, at)
}

// A scan at a time.
fn at_said(word: &[u8]) -> Result<Deed, CaseRule>
    ensures { result ≡ deed_with At (number_said word.now) }
{
    match number_said(word) {
        Ok(time) => Ok(Deed::At(time)),
        Err(rule) => Err(rule),
    }
}

// A scan after the scan before.
fn after_said(word: &[u8]) -> Result<Deed, CaseRule>
    ensures { result ≡ deed_with After (number_said word.now) }
{
    match number_said(word) {
        Ok(time) => Ok(Deed::After(time)),
        Err(rule) => Err(rule),
    }
}

// A restart, after which no word stands.
fn restart_said(line: &[u8], at: usize) -> Result<Deed, CaseRule>
    requires { at ≤ length line.now }
    ensures { result ≡ restart_said (counted (words (drop at line.now))) }
{
    if is_none_left(line, at) {
        Ok(Deed::Restart)
    } else {
        Err(CaseRule::K1)
    }
}

// Scans a step apart.
fn every_said(line: &[u8], at: usize) -> Result<Deed, CaseRule>
    requires { at ≤ length line.now }
    ensures { result ≡ behind_every (counted (words (drop at line.now))) }
{
    let (step, next) = take_word(line, at);
    let (key, next) = take_word(line, next);
    let (number, next) = take_word(line, next);
    if is_none_left(line, next) {
        scans_said(step, key, number)
    } else {
        Err(CaseRule::K1)
    }
}

// A step, `times`, `for` or `until`, and a number.
fn scans_said(step: &[u8], key: &[u8], number: &[u8]) -> Result<Deed, CaseRule>
    ensures { result ≡ every_said step.now key.now number.now }
{
    if key == b"times".as_slice() {
        times_said(step, number)
    } else if key == b"for".as_slice() {
        for_said(step, number)
    } else if key == b"until".as_slice() {
        until_said(step, number)
    } else {
        Err(CaseRule::K1)
    }
}

// A step, and how many scans there are.
fn times_said(step: &[u8], number: &[u8]) -> Result<Deed, CaseRule>
    ensures { result ≡ deed_of_two Times (both (number_said step.now) (number_said number.now)) }
{
    match both(number_said(step), number_said(number)) {
        Ok((step, count)) => Ok(Deed::Times(step, count)),
        Err(rule) => Err(rule),
    }
}

// A step, and how long after the scan before the last scan is.
fn for_said(step: &[u8], number: &[u8]) -> Result<Deed, CaseRule>
    ensures { result ≡ deed_of_two For (both (above_zero (number_said step.now)) (number_said number.now)) }
{
    match both(count_said(step), number_said(number)) {
        Ok((step, span)) => Ok(Deed::For(step, span)),
        Err(rule) => Err(rule),
    }
}

// A step, and when the last scan is.
fn until_said(step: &[u8], number: &[u8]) -> Result<Deed, CaseRule>
    ensures { result ≡ deed_of_two Until (both (above_zero (number_said step.now)) (number_said number.now)) }
{
    match both(count_said(step), number_said(number)) {
        Ok((step, time)) => Ok(Deed::Until(step, time)),
        Err(rule) => Err(rule),
    }
}

// Checks, perhaps in a window.
fn expect_said(
    alloc: Global,
    app: &App,
    line: &[u8],
    at: usize,
) -> Result<Result<Deed, CaseRule>, Memory>
    requires { at ≤ length line.now }
    ensures { IfOk result (λ deed. deed ≡ expect_said app.now (counted (words (drop at line.now)))) }
{
    let (word, next) = take_word(line, at);
    if word == b"within".as_slice() {
        let (time, next) = take_word(line, next);
        let checks = checks_said(alloc, app, line, next)?;
        Ok(expect_within(number_said(time), checks))
    } else if word == b"for".as_slice() {
        let (time, next) = take_word(line, next);
        let checks = checks_said(alloc, app, line, next)?;
        Ok(expect_for(number_said(time), checks))
    } else {
        let checks = checks_said(alloc, app, line, at)?;
        Ok(expect_now(checks))
    }
}

// Checks in a scan of a window.
fn expect_within(
    time: Result<u32, CaseRule>,
    checks: Result<Checks, CaseRule>,
) -> Result<Deed, CaseRule>
    ensures { result ≡ expect_of Within (both time checks) }
{
    match both(time, checks) {
        Ok((time, checks)) => Ok(Deed::Expect(Window::Within(time), checks)),
        Err(rule) => Err(rule),
    }
}

// Checks in each scan of a window.
fn expect_for(
    time: Result<u32, CaseRule>,
    checks: Result<Checks, CaseRule>,
) -> Result<Deed, CaseRule>
    ensures { result ≡ expect_of Throughout (both time checks) }
{
    match both(time, checks) {
        Ok((time, checks)) => Ok(Deed::Expect(Window::For(time), checks)),
        Err(rule) => Err(rule),
    }
}

// Checks of the scan before.
fn expect_now(checks: Result<Checks, CaseRule>) -> Result<Deed, CaseRule>
    ensures { result ≡ expect_now checks }
{
    match checks {
        Ok(checks) => Ok(Deed::Expect(Window::Now, checks)),
        Err(rule) => Err(rule),
    }
}
