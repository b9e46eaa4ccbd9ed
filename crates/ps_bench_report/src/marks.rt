// What a case expects, by its scans, and what is shown of it by name.

ghost use Rattle.std.specs.Prelude.{◌≡◌, ◌++◌, ◌∷◌, [], IfOk, OnOk, fold};
ghost use Rattle.std.specs.List.{range_with_len};
ghost use Rattle.ps_bench_cases.specs.Meant.{whole_case};
ghost use Rattle.ps_bench_report.specs.Marks.{fails_at, has_name, is_name, marks_in, names_shown};
ghost use Rattle.ps_bench_report.specs.Marks.{with_checked, with_code, with_expected, with_name, with_signal, with_statements};
ghost use Rattle.ps_model.specs.Network.{instance_count};

use ps_base::Memory;
use ps_bench_cases::{Act, Case, CaseFile, Check, Statement};
use ps_bench_judge::Failure;
use ps_bench_names::Name;
use ps_model::App;
use std::alloc::Global;

/// As many names are shown of a case.
pub(crate) const MOST_NAMES: usize = 400;

/// An expectation of a case.
#[derive(Clone, Copy)]
pub(crate) struct Mark {
    /// The number of its scan in the case, counted from 1.
    pub(crate) scan: u32,
    /// Its line.
    pub(crate) line: u32,
    /// Whether it failed.
    pub(crate) failed: bool,
}

// Whether two names are of the same thing.
fn is_name(name: Name, other: Name) -> bool
    ensures { result ≡ is_name name other }
{
    match (name, other) {
        (Name::Signal(s), Name::Signal(t)) => s == t,
        (Name::Code(i), Name::Code(j)) => i == j,
        (
            Name::Pin {
                instance: i,
                pin: p,
            },
            Name::Pin {
                instance: j,
                pin: q,
            },
        ) => i == j && p == q,
        _ => false,
    }
}

// Whether one of these names is that one.
fn has_name(names: &[Name], name: Name) -> bool
    ensures { result ≡ has_name names.now name }
{
    for other in names {
        if is_name(*other, name) {
            return true;
        }
    }
    false
}

// One more name, unless it is there or there are as many as are shown.
fn push_name(names: &mut Vec<Name>, name: Name) -> Result<(), Memory>
    ensures { OnOk result (names.new.items ≡ with_name names.old.items name) }
{
    if names.len() < MOST_NAMES && !has_name(names.as_slice(), name) {
        names.push(name)?;
    }
    Ok(())
}

// The name that a check looks at.
fn push_checked(names: &mut Vec<Name>, check: &Check) -> Result<(), Memory>
    ensures { OnOk result (names.new.items ≡ with_checked names.old.items check.now) }
{
    match check {
        Check::Among { name, .. } | Check::Not { name, .. } => push_name(names, *name),
        Check::Trip | Check::NoTrip => Ok(()),
    }
}

// The names that checks look at.
fn push_all_checked(names: &mut Vec<Name>, checks: &[Check]) -> Result<(), Memory>
    ensures { OnOk result (names.new.items ≡ fold with_checked names.old.items checks.now) }
{
    for check in checks {
        push_checked(names, check)?;
    }
    Ok(())
}

// The names that a line expects something of.
fn push_expected(names: &mut Vec<Name>, act: &Act) -> Result<(), Memory>
    ensures { OnOk result (names.new.items ≡ with_expected names.old.items act.now) }
{
    match act {
        Act::Expect(expectation) => push_all_checked(names, expectation.checks.as_slice()),
        Act::Set | Act::Scans(_) | Act::Restart | Act::Fault(_) => Ok(()),
    }
}

// The names that statements expect something of.
fn push_all_expected(names: &mut Vec<Name>, statements: &[Statement]) -> Result<(), Memory>
    ensures { OnOk result (names.new.items ≡ with_statements names.old.items statements.now) }
{
    for statement in statements {
        push_expected(names, &statement.act)?;
    }
    Ok(())
}

// So many inputs and outputs.
fn push_signals(names: &mut Vec<Name>, count: u16) -> Result<(), Memory>
    ensures { OnOk result (names.new.items ≡ fold with_signal names.old.items (range_with_len 0 count)) }
{
    for signal in 0..count {
        push_name(names, Name::Signal(signal))?;
    }
    Ok(())
}

// So many instances.
fn push_codes(names: &mut Vec<Name>, count: u16) -> Result<(), Memory>
    ensures { OnOk result (names.new.items ≡ fold with_code names.old.items (range_with_len 0 count)) }
{
    for instance in 0..count {
        push_name(names, Name::Code(instance))?;
    }
    Ok(())
}

/// The names that are shown of a case: inputs, outputs, instances, and what is expected something of.
pub(crate) fn names_shown(
    alloc: Global,
    app: &App,
    file: &CaseFile,
    case: &Case,
) -> Result<Vec<Name>, Memory>
    ensures { IfOk result (λ names. names.items ≡ names_shown app.now (whole_case file.now case.now)) }
{
    let mut names = Vec::new(alloc);
    push_signals(
        &mut names,
        app.input_count().saturating_add(app.output_count()),
    )?;
    push_codes(&mut names, app.instance_count())?;
    push_all_expected(&mut names, file.begin.as_slice())?;
    push_all_expected(&mut names, case.statements.as_slice())?;
    Ok(names)
}

// Whether one of these failures is of a line.
fn fails(failures: &[Failure], line: u32) -> bool
    ensures { result ≡ fails_at failures.now line }
{
    for failure in failures {
        if failure.line == line {
            return true;
        }
    }
    false
}

// The expectation of a line, if it is one, after others.
fn push_mark(
    marks: &mut Vec<Mark>,
    statement: &Statement,
    failures: &[Failure],
) -> Result<(), Memory>
    ensures { OnOk result (marks.new.items ≡ marks.old.items ++ marks_in failures.now (statement.now ∷ [])) }
{
    match &statement.act {
        Act::Expect(expectation) => marks.push(Mark {
            scan: expectation.scan,
            line: statement.line,
            failed: fails(failures, statement.line),
        })?,
        Act::Set | Act::Scans(_) | Act::Restart | Act::Fault(_) => (),
    }
    Ok(())
}

// The expectations of statements, after others.
fn push_marks(
    marks: &mut Vec<Mark>,
    statements: &[Statement],
    failures: &[Failure],
) -> Result<(), Memory>
    ensures { OnOk result (marks.new.items ≡ marks.old.items ++ marks_in failures.now statements.now) }
{
    for statement in statements {
        push_mark(marks, statement, failures)?;
    }
    Ok(())
}

/// The expectations of a case, in the order of their scans, with those that failed.
pub(crate) fn marks_of(
    alloc: Global,
    file: &CaseFile,
    case: &Case,
    failures: &[Failure],
) -> Result<Vec<Mark>, Memory>
    ensures { IfOk result (λ marks. marks.items ≡ marks_in failures.now (whole_case file.now case.now)) }
{
    let mut marks = Vec::new(alloc);
    push_marks(&mut marks, file.begin.as_slice(), failures)?;
    push_marks(&mut marks, case.statements.as_slice(), failures)?;
    Ok(marks)
}
