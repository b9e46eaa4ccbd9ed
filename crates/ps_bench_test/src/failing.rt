// The failures of a case, each in a sentence.

ghost use Rattle.std.specs.Prelude.{◌≡◌, ◌++◌, [], OnOk, decimal, codes, slice_get};
ghost use Rattle.std.specs.List.{flat_map};
ghost use Rattle.std.specs.Option.{option_map_or};
ghost use Rattle.ps_bench_test.specs.Failing.{broken_text, check_text, failure_text, failures_text, found_text};
ghost use Rattle.ps_bench_test.specs.Failing.{marked, over_text, unmet_text, values_text, why_text, window_text};
ghost use Rattle.ps_bench_test.specs.Naming.{value_text};

use crate::{add_name, add_value, from_line};
use ps_base::{Bytes, Memory};
use ps_bench_cases::{Act, Check, Expectation, Statement, Window};
use ps_bench_frame::pieces::add_short;
use ps_bench_judge::{Failure, Why};
use ps_bench_names::Name;
use ps_model::App;

// One more value of which one is expected.
fn add_other_value(text: &mut Bytes, app: &App, name: Name, value: u16) -> Result<(), Memory>
    ensures { OnOk result (text.new ≡ text.old ++ codes " or " ++ value_text app.now name value) }
{
    text.extend_from_slice(b" or ")?;
    add_value(text, app, name, value)
}

// More values of which one is expected.
fn add_other_values(text: &mut Bytes, app: &App, name: Name, values: &[u16]) -> Result<(), Memory>
    ensures { OnOk result (text.new ≡
        text.old ++ flat_map (λ v. codes " or " ++ value_text app.now name v) values.now) }
{
    for value in values {
        add_other_value(text, app, name, *value)?;
    }
    Ok(())
}

// Values of which one is expected, as `8000 enabled or 8001 first state`.
fn add_values(text: &mut Bytes, app: &App, name: Name, values: &[u16]) -> Result<(), Memory>
    ensures { OnOk result (text.new ≡ text.old ++ values_text app.now name values.now) }
{
    match values {
        [] => Ok(()),
        [first, rest @ ..] => {
            add_value(text, app, name, *first)?;
            add_other_values(text, app, name, rest)
        }
    }
}

// A duration in ms between two texts.
fn add_duration(text: &mut Bytes, mark: &[u8], ms: u32, end: &[u8]) -> Result<(), Memory>
    ensures { OnOk result (text.new ≡ text.old ++ mark.now ++ decimal ms ++ end.now) }
{
    text.extend_from_slice(mark)?;
    add_short(text, ms)?;
    text.extend_from_slice(end)
}

// In which scans it is expected.
fn add_window(text: &mut Bytes, window: Window) -> Result<(), Memory>
    ensures { OnOk result (text.new ≡ text.old ++ window_text window) }
{
    match window {
        Window::Now => Ok(()),
        Window::Within(ms) => add_duration(text, b" within ", ms, b" ms"),
        Window::For(ms) => add_duration(text, b" for ", ms, b" ms"),
    }
}

// A name with the value that it has, before what is expected.
fn add_found(text: &mut Bytes, app: &App, name: Name, value: u16) -> Result<(), Memory>
    ensures { OnOk result (text.new ≡ text.old ++ found_text app.now name value) }
{
    add_name(text, app, name)?;
    text.extend_from_slice(b" is ")?;
    add_value(text, app, name, value)?;
    text.extend_from_slice(b", expected ")?;
    Ok(())
}

// A name with the value that it has, and values of which one is expected.
fn add_among(
    text: &mut Bytes,
    app: &App,
    name: Name,
    value: u16,
    values: &[u16],
) -> Result<(), Memory>
    ensures { OnOk result (text.new ≡
        text.old ++ (found_text app.now name value ++ values_text app.now name values.now)) }
{
    add_found(text, app, name, value)?;
    add_values(text, app, name, values)?;
    Ok(())
}

// A name with the value that it has, where another one is expected.
fn add_same(text: &mut Bytes, app: &App, name: Name, value: u16) -> Result<(), Memory>
    ensures { OnOk result (text.new ≡ text.old ++ (found_text app.now name value ++ codes "another value")) }
{
    add_found(text, app, name, value)?;
    text.extend_from_slice(b"another value")?;
    Ok(())
}

// What a check found, and what it expects.
fn add_check(text: &mut Bytes, app: &App, check: &Check, value: u16) -> Result<(), Memory>
    ensures { OnOk result (text.new ≡ text.old ++ check_text app.now check.now value) }
{
    match check {
        Check::Trip => text.extend_from_slice(b"no trip"),
        Check::NoTrip => text.extend_from_slice(b"a trip, expected none"),
        Check::Among { name, values } => add_among(text, app, *name, value, values.as_slice()),
        Check::Not { name, .. } => add_same(text, app, *name, value),
    }
}

// What the check at a place found, and what it expects.
fn add_check_at(
    text: &mut Bytes,
    app: &App,
    checks: &[Check],
    place: usize,
    value: u16,
) -> Result<(), Memory>
    ensures { OnOk result (text.new ≡
        text.old ++ option_map_or (λ c. check_text app.now c value) (slice_get checks.now place) []) }
{
    if place < checks.len() {
        add_check(text, app, &checks[place], value)
    } else {
        Ok(())
    }
}

// Why an expectation fails by the check at a place.
fn add_broken(
    text: &mut Bytes,
    app: &App,
    expectation: &Expectation,
    place: usize,
    value: u16,
) -> Result<(), Memory>
    ensures { OnOk result (text.new ≡ text.old ++ broken_text app.now expectation.now place value) }
{
    add_check_at(text, app, expectation.checks.as_slice(), place, value)?;
    add_window(text, expectation.window)
}

// How long the case would have to go on.
fn add_over(text: &mut Bytes, window: Window) -> Result<(), Memory>
    ensures { OnOk result (text.new ≡ text.old ++ over_text window) }
{
    match window {
        Window::Now => Ok(()),
        Window::Within(ms) => add_duration(text, b" ", ms, b" ms are over"),
        Window::For(ms) => add_duration(text, b" ", ms, b" ms are over"),
    }
}

// Why an expectation fails whose window goes on after the end of the case.
fn add_ended(text: &mut Bytes, window: Window) -> Result<(), Memory>
    ensures { OnOk result (text.new ≡ text.old ++ codes "the case ends before" ++ over_text window) }
{
    text.extend_from_slice(b"the case ends before")?;
    add_over(text, window)
}

// Why an expectation fails.
fn add_unmet(text: &mut Bytes, app: &App, expectation: &Expectation, why: Why) -> Result<(), Memory>
    ensures { OnOk result (text.new ≡ text.old ++ unmet_text app.now expectation.now why) }
{
    match why {
        Why::Broken { check, value } => add_broken(text, app, expectation, check, value)?,
        Why::Ended => add_ended(text, expectation.window)?,
        Why::Tripped => text.extend_from_slice(b"a trip that nothing expects")?,
    }
    Ok(())
}

// Why what a line does fails the case.
fn add_why(text: &mut Bytes, app: &App, act: &Act, why: Why) -> Result<(), Memory>
    ensures { OnOk result (text.new ≡ text.old ++ why_text app.now act.now why) }
{
    match act {
        Act::Expect(expectation) => add_unmet(text, app, expectation, why),
        _ => text.extend_from_slice(b"a trip that nothing expects"),
    }
}

// A failure of a line, as `line 23: no trip within 500 ms (at 560 ms)`.
fn add_failure(
    text: &mut Bytes,
    app: &App,
    statement: &Statement,
    failure: &Failure,
) -> Result<(), Memory>
    ensures { OnOk result (text.new ≡ text.old ++ failure_text app.now statement.now failure.entry.now) }
{
    add_duration(text, b"line ", failure.line, b": ")?;
    add_why(text, app, &statement.act, failure.why)?;
    add_duration(text, b" (at ", failure.now, b" ms)\n")
}

// A failure after a mark, where its line is the first of these statements.
fn add_marked(
    text: &mut Bytes,
    app: &App,
    mark: &[u8],
    failure: &Failure,
    statements: &[Statement],
) -> Result<(), Memory>
    ensures { OnOk result (text.new ≡ text.old ++ marked app.now mark.now failure.entry.now statements.now) }
{
    match statements {
        [first, ..] if first.line == failure.line => {
            text.extend_from_slice(mark)?;
            add_failure(text, app, first, failure)
        }
        _ => Ok(()),
    }
}

// The failures of statements, in the order of their lines, each in a line of its own after a mark.
pub(crate) fn add_failures(
    text: &mut Bytes,
    app: &App,
    mark: &[u8],
    statements: &[Statement],
    failures: &[Failure],
) -> Result<(), Memory>
    ensures { OnOk result (text.new ≡ text.old ++ failures_text app.now mark.now statements.now failures.now) }
{
    let mut rest = statements;
    for failure in failures {
        rest = from_line(rest, failure.line);
        add_marked(text, app, mark, failure, rest)?;
    }
    Ok(())
}
