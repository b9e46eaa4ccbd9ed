// Results as TAP, the Test Anything Protocol, version 13.

ghost use Rattle.std.specs.Prelude.{◌≡◌, ◌++◌, IfOk, OnOk, codes, if◌then◌else◌, decimal};
ghost use Rattle.ps_bench_test.specs.Outcome.{Ran, passes, ran_of};
ghost use Rattle.ps_bench_frame.specs.Pieces.{place_text};
ghost use Rattle.ps_bench_test.specs.Tap.{tap_byte, tap_case, tap_escaped, tap_plan, tap_refused};

use crate::lines::add_failures_of;
use crate::{CaseRun, Tally};
use ps_base::{Bytes, Memory};
use ps_bench_cases::CaseRefusal;
use ps_bench_frame::add_refusal;
use ps_bench_frame::pieces::{add_number, add_place};
use std::alloc::Global;

// What stands before all results.
pub(crate) const HEAD: &[u8] = b"TAP version 13\n";

// A byte of a description, in which `#` would begin a directive.
fn add_byte(text: &mut Bytes, byte: u8) -> Result<(), Memory>
    ensures { OnOk result (text.new ≡ text.old ++ tap_byte byte) }
{
    match byte {
        b'#' => text.extend_from_slice(b"\\#"),
        b'\\' => text.extend_from_slice(b"\\\\"),
        _ => text.push(byte),
    }
}

// A description, where what has a meaning of its own is escaped.
fn add_escaped(text: &mut Bytes, description: &[u8]) -> Result<(), Memory>
    ensures { OnOk result (text.new ≡ text.old ++ tap_escaped description.now) }
{
    for byte in description {
        add_byte(text, *byte)?;
    }
    Ok(())
}

// What a case is called: its file, its line and its name.
fn description(alloc: Global, run: &CaseRun<'_>) -> Result<Bytes, Memory>
    ensures { IfOk result (λ bytes. bytes ≡
        place_text (ran_of run.now).name (ran_of run.now).case.line ++ codes " " ++ (ran_of run.now).case.name) }
{
    let mut text = Bytes::new(alloc);
    add_place(&mut text, run.name, run.case.line)?;
    text.extend_from_slice(b" ")?;
    text.extend_from_slice(run.case.name.as_str().as_bytes())?;
    Ok(text)
}

// Whether a case passed or failed.
fn verdict(passed: bool) -> &'static [u8]
    ensures { result.now ≡ (if passed then codes "ok " else codes "not ok ") }
{
    if passed { b"ok " } else { b"not ok " }
}

// A case in a line, as `ok 1 - press.cases:7 the guard stops the ram`, and its failures in comments.
pub(crate) fn case_report(alloc: Global, number: u64, run: &CaseRun<'_>) -> Result<Bytes, Memory>
    ensures { IfOk result (λ bytes. bytes ≡ tap_case number (ran_of run.now)) }
{
    let description = description(alloc, run)?;
    let mut text = Bytes::new(alloc);
    text.extend_from_slice(verdict(run.passed()))?;
    add_number(&mut text, number)?;
    text.extend_from_slice(b" - ")?;
    add_escaped(&mut text, description.as_slice())?;
    text.extend_from_slice(b"\n")?;
    add_failures_of(&mut text, b"# ", run)?;
    Ok(text)
}

// The plan, as `1..2`.
pub(crate) fn plan(alloc: Global, tally: &Tally) -> Result<Bytes, Memory>
    ensures { IfOk result (λ bytes. bytes ≡ tap_plan tally.now) }
{
    let mut text = Bytes::new(alloc);
    text.extend_from_slice(b"1..")?;
    add_number(&mut text, tally.cases)?;
    text.extend_from_slice(b"\n")?;
    Ok(text)
}

// The line of a refusal, and that nothing more comes.
pub(crate) fn refused(alloc: Global, refusal: CaseRefusal) -> Result<Bytes, Memory>
    ensures { IfOk result (λ bytes. bytes ≡ tap_refused refusal) }
{
    let mut text = Bytes::new(alloc);
    add_refusal(&mut text, refusal)?;
    text.extend_from_slice(b"Bail out! a case file is refused\n")?;
    Ok(text)
}
