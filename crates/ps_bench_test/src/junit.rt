// Results in the XML of JUnit.

ghost use Rattle.std.specs.Prelude.{◌≡◌, ◌++◌, [], IfOk, OnOk};
ghost use Rattle.ps_bench_test.specs.Junit.{attribute, case_head, case_name, failed_element, failed_head, junit_case};
ghost use Rattle.ps_bench_test.specs.Junit.{junit_refused, outcome_element, suite_head, xml_byte, xml_escaped};
ghost use Rattle.ps_bench_frame.specs.Pieces.{shown};
ghost use Rattle.ps_bench_test.specs.Lines.{all_failures};
ghost use Rattle.ps_bench_test.specs.Outcome.{ran_of};

use crate::CaseRun;
use crate::lines::add_failures_of;
use ps_base::{Bytes, Memory};
use ps_bench_cases::CaseRefusal;
use ps_bench_frame::add_refusal;
use ps_bench_frame::pieces::{add_count, add_number, add_shown};
use std::alloc::Global;

// What stands before all results.
pub(crate) const HEAD: &[u8] = b"<?xml version=\"1.0\" encoding=\"UTF-8\"?>\n<testsuites>\n";

// What stands after the cases of a file.
pub(crate) const SUITE_FOOT: &[u8] = b"</testsuite>\n";

// What stands after all results.
pub(crate) const FOOT: &[u8] = b"</testsuites>\n";

// A byte of a text or an attribute: what has a meaning of its own is escaped, and a control byte that is no line feed is
// `?`.
fn add_byte(text: &mut Bytes, byte: u8) -> Result<(), Memory>
    ensures { OnOk result (text.new ≡ text.old ++ xml_byte byte) }
{
    match byte {
        b'&' => text.extend_from_slice(b"&amp;"),
        b'<' => text.extend_from_slice(b"&lt;"),
        b'>' => text.extend_from_slice(b"&gt;"),
        b'"' => text.extend_from_slice(b"&quot;"),
        b'\'' => text.extend_from_slice(b"&apos;"),
        b'\n' => text.extend_from_slice(b"\n"),
        0..=31 => text.extend_from_slice(b"?"),
        _ => text.push(byte),
    }
}

// Bytes of a text or an attribute.
fn add_escaped(text: &mut Bytes, bytes: &[u8]) -> Result<(), Memory>
    ensures { OnOk result (text.new ≡ text.old ++ xml_escaped bytes.now) }
{
    for byte in bytes {
        add_byte(text, *byte)?;
    }
    Ok(())
}

// An attribute, as ` name="press.cases"`.
fn add_attribute(text: &mut Bytes, key: &[u8], value: &[u8]) -> Result<(), Memory>
    ensures { OnOk result (text.new ≡ text.old ++ attribute key.now value.now) }
{
    text.extend_from_slice(b" ")?;
    text.extend_from_slice(key)?;
    text.extend_from_slice(b"=\"")?;
    add_escaped(text, value)?;
    text.extend_from_slice(b"\"")
}

// An attribute whose value is the name of a file, as that stands in a line.
fn add_file_name(text: &mut Bytes, alloc: Global, key: &[u8], file: &str) -> Result<(), Memory>
    ensures { OnOk result (text.new ≡ text.old ++ attribute key.now (shown file.now)) }
{
    let mut name = Bytes::new(alloc);
    add_shown(&mut name, file)?;
    add_attribute(text, key, name.as_slice())
}

// The beginning of the results of a file of this name that has so many cases.
pub(crate) fn suite_head(alloc: Global, name: &str, cases: usize) -> Result<Bytes, Memory>
    ensures { IfOk result (λ bytes. bytes ≡ suite_head name.now cases) }
{
    let mut text = Bytes::new(alloc);
    text.extend_from_slice(b"<testsuite")?;
    add_file_name(&mut text, alloc, b"name", name)?;
    text.extend_from_slice(b" tests=\"")?;
    add_number(&mut text, cases as u64)?;
    text.extend_from_slice(b"\">\n")?;
    Ok(text)
}

// The beginning of a case of this name.
fn add_case_name(text: &mut Bytes, name: &[u8]) -> Result<(), Memory>
    ensures { OnOk result (text.new ≡ text.old ++ case_name name.now) }
{
    text.extend_from_slice(b"<testcase")?;
    add_attribute(text, b"name", name)?;
    Ok(())
}

// The beginning of a case of a file.
fn add_case_head(text: &mut Bytes, alloc: Global, name: &[u8], file: &str) -> Result<(), Memory>
    ensures { OnOk result (text.new ≡ text.old ++ case_head name.now file.now) }
{
    add_case_name(text, name)?;
    add_file_name(text, alloc, b"classname", file)?;
    Ok(())
}

// The beginning of the case that stands for a file.
fn add_file_head(text: &mut Bytes, alloc: Global, file: &str) -> Result<(), Memory>
    ensures { OnOk result (text.new ≡ text.old ++ case_head (shown file.now) file.now) }
{
    let mut name = Bytes::new(alloc);
    add_shown(&mut name, file)?;
    add_case_head(text, alloc, name.as_slice(), file)
}

// The beginning of so many failures of a case.
fn add_failed_head(text: &mut Bytes, count: usize) -> Result<(), Memory>
    ensures { OnOk result (text.new ≡ text.old ++ failed_head count) }
{
    text.extend_from_slice(b">\n<failure message=\"")?;
    add_count(text, count as u64, b"failure")?;
    text.extend_from_slice(b"\">\n")?;
    Ok(())
}

// So many failures of a case.
fn add_failed(text: &mut Bytes, count: usize, failures: &[u8]) -> Result<(), Memory>
    ensures { OnOk result (text.new ≡ text.old ++ failed_element count failures.now) }
{
    add_failed_head(text, count)?;
    add_escaped(text, failures)?;
    text.extend_from_slice(b"</failure>\n</testcase>\n")?;
    Ok(())
}

// The failures of a case, each in a line.
fn failures_of(alloc: Global, run: &CaseRun<'_>) -> Result<Bytes, Memory>
    ensures { IfOk result (λ bytes. bytes ≡ all_failures [] (ran_of run.now)) }
{
    let mut failures = Bytes::new(alloc);
    add_failures_of(&mut failures, b"", run)?;
    Ok(failures)
}

// The end of a case, with its failures.
fn add_outcome(text: &mut Bytes, alloc: Global, run: &CaseRun<'_>) -> Result<(), Memory>
    ensures { OnOk result (text.new ≡ text.old ++ outcome_element (ran_of run.now)) }
{
    if run.passed() {
        return text.extend_from_slice(b"/>\n");
    }
    let failures = failures_of(alloc, run)?;
    add_failed(
        text,
        run.outcome.failures.as_slice().len(),
        failures.as_slice(),
    )
}

// A case.
pub(crate) fn case_report(alloc: Global, run: &CaseRun<'_>) -> Result<Bytes, Memory>
    ensures { IfOk result (λ bytes. bytes ≡ junit_case (ran_of run.now)) }
{
    let mut text = Bytes::new(alloc);
    let name = run.case.name.as_str().as_bytes();
    add_case_head(&mut text, alloc, name, run.name)?;
    add_outcome(&mut text, alloc, run)?;
    Ok(text)
}

// The results of a file that is refused, and the end: it counts as a case with an error. The line of the refusal stands
// in a line of its own.
pub(crate) fn refused(alloc: Global, name: &str, refusal: CaseRefusal) -> Result<Bytes, Memory>
    ensures { IfOk result (λ bytes. bytes ≡ junit_refused name.now refusal) }
{
    let mut text = suite_head(alloc, name, 1)?;
    add_file_head(&mut text, alloc, name)?;
    text.extend_from_slice(b">\n<error message=\"the case file is refused\">\n")?;
    add_refusal(&mut text, refusal)?;
    text.extend_from_slice(b"</error>\n</testcase>\n</testsuite>\n</testsuites>\n")?;
    Ok(text)
}
