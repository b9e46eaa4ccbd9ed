// Results in lines for a person.

ghost use Rattle.std.specs.Prelude.{◌≡◌, ◌++◌, IfOk, OnOk, codes, if◌then◌else◌};
ghost use Rattle.ps_bench_frame.specs.Pieces.{count_text};
ghost use Rattle.ps_bench_test.specs.Lines.{all_failures, call_text, case_line, case_lines, command_text};
ghost use Rattle.ps_bench_test.specs.Lines.{shown_text, total_line};
ghost use Rattle.ps_bench_test.specs.Outcome.{passes, ran_of};

use crate::failing::add_failures;
use crate::{CaseRun, Tally};
use ps_base::{Bytes, Memory};
use ps_bench_frame::pieces::{add_count, add_number, add_place, add_short, add_shown};
use std::alloc::Global;

// Whether a case passed or failed.
fn verdict(passed: bool) -> &'static [u8]
    ensures { result.now ≡ (if passed then codes "PASS " else codes "FAIL ") }
{
    if passed { b"PASS " } else { b"FAIL " }
}

// How many scans a case has, in brackets, and the end of its line.
fn add_scans(text: &mut Bytes, scans: u32) -> Result<(), Memory>
    ensures { OnOk result (text.new ≡ text.old ++ codes " (" ++ count_text scans (codes "scan") ++ codes ")\n") }
{
    text.extend_from_slice(b" (")?;
    add_count(text, u64::from(scans), b"scan")?;
    text.extend_from_slice(b")\n")
}

// A case in a line, as `PASS press.cases:7 the guard stops the ram (56 scans)`.
fn add_case(text: &mut Bytes, run: &CaseRun<'_>) -> Result<(), Memory>
    ensures { OnOk result (text.new ≡ text.old ++ case_line (ran_of run.now)) }
{
    text.extend_from_slice(verdict(run.passed()))?;
    add_place(text, run.name, run.case.line)?;
    text.extend_from_slice(b" ")?;
    text.extend_from_slice(run.case.name.as_str().as_bytes())?;
    add_scans(text, run.outcome.scans)
}

// The command that shows a run of an application of this name, after a mark.
fn add_command(text: &mut Bytes, mark: &[u8], app: &str) -> Result<(), Memory>
    ensures { OnOk result (text.new ≡ text.old ++ command_text mark.now app.now) }
{
    text.extend_from_slice(mark)?;
    text.extend_from_slice(b"plcsafe-bench watch ")?;
    add_shown(text, app)
}

// The call that shows the run of a case, in a line after a mark.
fn add_call(text: &mut Bytes, mark: &[u8], run: &CaseRun<'_>) -> Result<(), Memory>
    ensures { OnOk result (text.new ≡ text.old ++ call_text mark.now (ran_of run.now)) }
{
    add_command(text, mark, run.app_name)?;
    text.extend_from_slice(b" ")?;
    add_place(text, run.name, run.case.line)?;
    text.extend_from_slice(b"\n")
}

// The same of a case that failed; nothing of one that passed.
fn add_call_if_failed(text: &mut Bytes, mark: &[u8], run: &CaseRun<'_>) -> Result<(), Memory>
    ensures { OnOk result (text.new ≡ text.old ++ shown_text mark.now (ran_of run.now)) }
{
    if run.passed() {
        Ok(())
    } else {
        add_call(text, mark, run)
    }
}

// The failures of a case, each in a line after a mark, and the call that shows them.
pub(crate) fn add_failures_of(
    text: &mut Bytes,
    mark: &[u8],
    run: &CaseRun<'_>,
) -> Result<(), Memory>
    ensures { OnOk result (text.new ≡ text.old ++ all_failures mark.now (ran_of run.now)) }
{
    let failures = run.outcome.failures.as_slice();
    add_failures(text, run.app, mark, run.file.begin.as_slice(), failures)?;
    add_failures(
        text,
        run.app,
        mark,
        run.case.statements.as_slice(),
        failures,
    )?;
    add_call_if_failed(text, mark, run)
}

// A case in a line, and below it its failures.
pub(crate) fn case_lines(alloc: Global, run: &CaseRun<'_>) -> Result<Bytes, Memory>
    ensures { IfOk result (λ bytes. bytes ≡ case_lines (ran_of run.now)) }
{
    let mut text = Bytes::new(alloc);
    add_case(&mut text, run)?;
    add_failures_of(&mut text, b"  ", run)?;
    Ok(text)
}

// How many cases passed and failed, as `2 cases, 1 passed, 1 failed`.
pub(crate) fn total_line(alloc: Global, tally: &Tally) -> Result<Bytes, Memory>
    ensures { IfOk result (λ bytes. bytes ≡ total_line tally.now) }
{
    let mut text = Bytes::new(alloc);
    add_count(&mut text, tally.cases, b"case")?;
    text.extend_from_slice(b", ")?;
    add_number(&mut text, tally.cases.saturating_sub(tally.failed))?;
    text.extend_from_slice(b" passed, ")?;
    add_number(&mut text, tally.failed)?;
    text.extend_from_slice(b" failed\n")?;
    Ok(text)
}
