//! Head and tables of a report, and parts that are texts.

ghost use Rattle.std.specs.Prelude.{◌≡◌};
ghost use Rattle.std.specs.List.{flat_map};
ghost use Rattle.ps_bench_report.specs.Paged.{Adds};
ghost use Rattle.ps_bench_report.specs.Parts.{pieces_of};
ghost use Rattle.ps_bench_report.specs.CaseRows.{case_front, case_row, class_of, result_row, word_of};
ghost use Rattle.ps_bench_report.specs.Contents.{cases_front, front_pieces, head_pieces, results_front};
ghost use Rattle.ps_bench_report.specs.Contents.{table_back, table_front};
ghost use Rattle.ps_bench_report.specs.Files.{file_row, text_part};
ghost use Rattle.ps_bench_test.specs.Outcome.{ran_of};

use crate::names::{Key, Tag};
use crate::page::Page;
use crate::parts::{Part, add_parts};
use itoa::Buffer;
use ps_base::{Bytes, Memory};
use ps_bench_frame::pieces::add_place;
use ps_bench_test::CaseRun;
use std::alloc::Global;

// The head of a page with this title, up to its first part.
fn add_head(page: &mut Page, title: &[u8])
    ensures { Adds page.old page.new (head_pieces title.now) }
{
    add_parts(
        page,
        &[
            Part::Prologue,
            Part::Element(Tag::Title, title),
            Part::Body,
            Part::Open(Tag::Main),
            Part::Element(Tag::H1, title),
        ],
    );
}

/// A part that is a text, with its blanks and lines, or one sentence where the text is empty.
pub(crate) fn add_text<'x>(page: &mut Page, heading: &'x [u8], text: &'x [u8], none: &'x [u8])
    ensures { Adds page.old page.new (text_part heading.now text.now none.now) }
{
    let told = if text.is_empty() {
        Part::Element(Tag::P, none)
    } else {
        Part::Element(Tag::Pre, text)
    };
    add_parts(
        page,
        &[
            Part::Open(Tag::Section),
            Part::Element(Tag::H2, heading),
            told,
            Part::End(Tag::Section),
        ],
    );
}

// A part that is a table, with its heading and the heads of its columns, up to its first row.
fn open_table<'x>(page: &mut Page, heading: &'x [u8], caption: &'x [u8], columns: &'x [Part<'x>])
    ensures { Adds page.old page.new (table_front heading.now caption.now (flat_map pieces_of columns.now)) }
{
    add_parts(
        page,
        &[
            Part::Open(Tag::Section),
            Part::Element(Tag::H2, heading),
            Part::Open(Tag::Table),
            Part::Element(Tag::Caption, caption),
            Part::Open(Tag::Thead),
            Part::Open(Tag::Tr),
        ],
    );
    add_parts(page, columns);
    add_parts(
        page,
        &[
            Part::End(Tag::Tr),
            Part::End(Tag::Thead),
            Part::Open(Tag::Tbody),
        ],
    );
}

// The end of a table.
fn close_table(page: &mut Page)
    ensures { Adds page.old page.new table_back }
{
    add_parts(
        page,
        &[
            Part::End(Tag::Tbody),
            Part::End(Tag::Table),
            Part::End(Tag::Section),
        ],
    );
}

/// What stands before the rows of the case files: the head of a page with this title, and the row of the application of
/// this name, with what it is named by.
pub(crate) fn add_front<'x>(page: &mut Page, title: &'x [u8], name: &'x [u8], digest: &'x [u8])
    ensures { Adds page.old page.new (front_pieces title.now name.now digest.now) }
{
    add_head(page, title);
    open_table(
        page,
        b"Files",
        b"The application, and the case files",
        &[
            Part::Marked(Tag::Th, Key::Scope, b"col", b"File"),
            Part::Marked(Tag::Th, Key::Scope, b"col", b"SHA-256"),
        ],
    );
    add_file(page, name, digest);
}

/// What stands between the rows of the case files and those of the results.
pub(crate) fn open_results(page: &mut Page)
    ensures { Adds page.old page.new results_front }
{
    close_table(page);
    open_table(
        page,
        b"Results",
        b"All cases",
        &[
            Part::Marked(Tag::Th, Key::Scope, b"col", b"Case"),
            Part::Marked(Tag::Th, Key::Scope, b"col", b"Line"),
            Part::Marked(Tag::Th, Key::Scope, b"col", b"Result"),
            Part::Marked(Tag::Th, Key::Scope, b"col", b"Scans"),
        ],
    );
}

/// What stands between the rows of the results and the parts of the cases, with this total of the results.
pub(crate) fn open_sections(page: &mut Page, total: &[u8])
    ensures { Adds page.old page.new (cases_front total.now) }
{
    add_parts(
        page,
        &[
            Part::End(Tag::Tbody),
            Part::End(Tag::Table),
            Part::Element(Tag::P, total),
            Part::End(Tag::Section),
            Part::Open(Tag::Section),
            Part::Element(Tag::H2, b"Cases"),
        ],
    );
}

/// The row of a file: its name, and what it is named by.
pub(crate) fn add_file<'x>(page: &mut Page, name: &'x [u8], digest: &'x [u8])
    ensures { Adds page.old page.new (file_row name.now digest.now) }
{
    add_parts(
        page,
        &[
            Part::Open(Tag::Tr),
            Part::Marked(Tag::Th, Key::Scope, b"row", name),
            Part::Marked(Tag::Td, Key::Class, b"digest", digest),
            Part::End(Tag::Tr),
        ],
    );
}

// How a result looks.
fn class_of(passed: bool) -> &'static [u8]
    ensures { result.now ≡ class_of passed }
{
    if passed { b"pass" } else { b"fail" }
}

// A result in a word.
fn word_of(passed: bool) -> &'static [u8]
    ensures { result.now ≡ word_of passed }
{
    if passed { b"PASS" } else { b"FAIL" }
}

// The row of a case of this name: its place, its result, and how many scans it made.
fn add_result<'x>(page: &mut Page, name: &'x [u8], place: &'x [u8], passed: bool, scans: &'x [u8])
    ensures { Adds page.old page.new (result_row name.now place.now passed scans.now) }
{
    add_parts(
        page,
        &[
            Part::Open(Tag::Tr),
            Part::Marked(Tag::Th, Key::Scope, b"row", name),
            Part::Element(Tag::Td, place),
            Part::Marked(Tag::Td, Key::Class, class_of(passed), word_of(passed)),
            Part::Element(Tag::Td, scans),
            Part::End(Tag::Tr),
        ],
    );
}

/// The row of a case that was run: its name, its place, its result, and how many scans it made.
pub(crate) fn add_case(page: &mut Page, alloc: Global, run: &CaseRun<'_>)
    ensures { Adds page.old page.new (case_row (ran_of run.now)) }
{
    let mut scans = Buffer::new();
    let scans = scans.format(run.outcome.scans).as_bytes();
    let name = run.case.name.as_str().as_bytes();
    let mut place = Bytes::new(alloc);
    match add_place(&mut place, run.name, run.case.line) {
        Ok(()) => add_result(page, name, place.as_slice(), run.passed(), scans),
        Err(Memory) => page.spoil(),
    }
}

/// The beginning of the part of a case: its name, and what is told of it.
pub(crate) fn open_case<'x>(page: &mut Page, name: &'x [u8], told: &'x [u8])
    ensures { Adds page.old page.new (case_front name.now told.now) }
{
    add_parts(
        page,
        &[
            Part::Open(Tag::Section),
            Part::Element(Tag::H3, name),
            Part::Element(Tag::Pre, told),
        ],
    );
}
