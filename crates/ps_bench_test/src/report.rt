// What is told of results, in one of three forms, piece by piece.

ghost use Rattle.std.specs.Prelude.{◌≡◌, IfOk};
ghost use Rattle.ps_bench_test.specs.Report.{case_text, file_foot_text, file_head_text, foot_text, head_text};
ghost use Rattle.ps_bench_test.specs.Report.{refused_text};
ghost use Rattle.ps_bench_test.specs.Outcome.{next, ran_of};

use crate::{CaseRun, Tally, junit, lines, tap};
use ps_base::{Bytes, Memory};
use ps_bench_cases::CaseRefusal;
use ps_bench_frame::refused_line;
use ps_bench_words::Format;
use std::alloc::Global;

/// What stands before all results.
pub fn head(format: Format) -> &'static [u8]
    ensures { result.now ≡ head_text format }
{
    match format {
        Format::Text => b"",
        Format::Tap => tap::HEAD,
        Format::Junit => junit::HEAD,
    }
}

/// What stands before the cases of a file of this name that has so many. An error means out of memory.
pub fn file_head(alloc: Global, format: Format, name: &str, cases: usize) -> Result<Bytes, Memory>
    ensures { IfOk result (λ bytes. bytes ≡ file_head_text format name.now cases) }
{
    match format {
        Format::Text => Ok(Bytes::new(alloc)),
        Format::Tap => Ok(Bytes::new(alloc)),
        Format::Junit => junit::suite_head(alloc, name, cases),
    }
}

/// What is told of a case, the next one after these. An error means out of memory.
pub fn case_report(
    alloc: Global,
    format: Format,
    before: &Tally,
    run: &CaseRun<'_>,
) -> Result<Bytes, Memory>
    ensures { IfOk result (λ bytes. bytes ≡ case_text format before.now (ran_of run.now)) }
{
    match format {
        Format::Text => lines::case_lines(alloc, run),
        Format::Tap => tap::case_report(alloc, before.cases.saturating_add(1), run),
        Format::Junit => junit::case_report(alloc, run),
    }
}

/// What stands after the cases of a file.
pub fn file_foot(format: Format) -> &'static [u8]
    ensures { result.now ≡ file_foot_text format }
{
    match format {
        Format::Text => b"",
        Format::Tap => b"",
        Format::Junit => junit::SUITE_FOOT,
    }
}

/// What stands after all results. An error means out of memory.
pub fn foot(alloc: Global, format: Format, tally: &Tally) -> Result<Bytes, Memory>
    ensures { IfOk result (λ bytes. bytes ≡ foot_text format tally.now) }
{
    match format {
        Format::Text => lines::total_line(alloc, tally),
        Format::Tap => tap::plan(alloc, tally),
        Format::Junit => Bytes::from_slice(alloc, junit::FOOT),
    }
}

/// What is told in the place of all else where a file of this name is refused. An error means out of memory.
pub fn refused(
    alloc: Global,
    format: Format,
    name: &str,
    refusal: CaseRefusal,
) -> Result<Bytes, Memory>
    ensures { IfOk result (λ bytes. bytes ≡ refused_text format name.now refusal) }
{
    match format {
        Format::Text => refused_line(alloc, refusal),
        Format::Tap => tap::refused(alloc, refusal),
        Format::Junit => junit::refused(alloc, name, refusal),
    }
}
