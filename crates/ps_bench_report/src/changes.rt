// What changes in a case, in a table.

ghost use Rattle.std.specs.Prelude.{◌≡◌, None, IfOk, OnOk, if◌then◌else◌, option_map};
ghost use Rattle.ps_bench_report.specs.Changes.{changes_pieces, changes_text, row_of, rows_from, separator, stays_at, with_change};
ghost use Rattle.ps_bench_report.specs.Diagram.{change_row, marks_at, marks_text, value_at};
ghost use Rattle.ps_bench_report.specs.Paged.{Adds};

use crate::diagram::{Sheet, marks_at, words_of};
use crate::drawing::{event_of, value_at};
use crate::marks::Mark;
use crate::names::{Key, Tag};
use crate::page::Page;
use crate::parts::{Part, add_parts};
use crate::recording::Moment;
use itoa::Buffer;
use ps_base::{Bytes, Memory};
use ps_bench_names::Name;
use ps_bench_test::{add_name, add_value};
use ps_model::App;
use std::alloc::Global;

// What stands between a change and the words before it.
fn separator(words: &Bytes) -> &'static [u8]
    ensures { result.now ≡ separator words.now }
{
    match words.as_slice() {
        [] => b"",
        [_, ..] => b", ",
    }
}

// Whether the name of a number has the value that it had, if there is a scan before.
fn stays_at(before: Option<&Moment>, moment: &Moment, number: usize) -> bool
    ensures { result ≡ stays_at (option_map (λ m. m.now) before.entry) moment.entry.now number }
{
    match before {
        Some(before) => value_at(before, number) == value_at(moment, number),
        None => false,
    }
}

// The value of a name in a scan, after others, where it is not the one that it had, if there is a scan before.
fn add_if_changed(
    words: &mut Bytes,
    app: &App,
    before: Option<&Moment>,
    moment: &Moment,
    number: usize,
    name: Name,
) -> Result<(), Memory>
    ensures { OnOk result (words.new ≡ (
        if stays_at (option_map (λ m. m.now) before.entry) moment.entry.now number then words.old
        else with_change app.now name (value_at moment.entry.now number) words.old)) }
{
    if stays_at(before, moment, number) {
        return Ok(());
    }
    words.extend_from_slice(separator(words))?;
    add_name(words, app, name)?;
    words.extend_from_slice(b" ")?;
    add_value(words, app, name, value_at(moment, number))
}

// What changed from one scan to another; of a first scan all values.
fn changes_of(
    alloc: Global,
    app: &App,
    names: &[Name],
    before: Option<&Moment>,
    moment: &Moment,
) -> Result<Bytes, Memory>
    ensures { IfOk result (λ words. words
        ≡ changes_text app.now names.now (option_map (λ m. m.now) before.entry) moment.entry.now) }
{
    let mut words = Bytes::from_slice(alloc, event_of(moment))?;
    for number in 0..names.len() {
        add_if_changed(&mut words, app, before, moment, number, names[number])?;
    }
    Ok(words)
}

// A row of the table of changes: a time, what changes, and what is expected.
fn add_cells<'x>(page: &mut Page, time: &'x [u8], changes: &'x [u8], expected: &'x [u8])
    ensures { Adds page.old page.new (change_row time.now changes.now expected.now) }
{
    add_parts(
        page,
        &[
            Part::Open(Tag::Tr),
            Part::Marked(Tag::Th, Key::Scope, b"row", time),
            Part::Element(Tag::Td, changes),
            Part::Element(Tag::Td, expected),
            Part::End(Tag::Tr),
        ],
    );
}

// What is expected of a scan, by its lines.
fn expected_of(alloc: Global, marks: &[Mark], scan: u32) -> Result<Bytes, Memory>
    ensures { IfOk result (λ words. words ≡ marks_text (marks_at scan marks.now)) }
{
    let marks = marks_at(alloc, marks, scan)?;
    words_of(alloc, marks.as_slice())
}

// The row of a scan in the table of changes.
fn add_row(page: &mut Page, sheet: &Sheet<'_>, before: Option<&Moment>, moment: &Moment)
    ensures { Adds page.old page.new
        (row_of sheet.now.app.now sheet.now.recording.now.names.items sheet.now.marks.now
        (option_map (λ m. m.now) before.entry) moment.entry.now) }
{
    let mut time = Buffer::new();
    let time = time.format(moment.now).as_bytes();
    let names = sheet.recording.names.as_slice();
    let changes = changes_of(sheet.alloc, sheet.app, names, before, moment);
    let expected = expected_of(sheet.alloc, sheet.marks, moment.scan);
    match (changes, expected) {
        (Ok(changes), Ok(expected)) => {
            add_cells(page, time, changes.as_slice(), expected.as_slice());
        }
        _ => page.spoil(),
    }
}

// The rows of the table of changes.
fn add_rows(page: &mut Page, sheet: &Sheet<'_>)
    ensures { Adds page.old page.new
        (rows_from sheet.now.app.now sheet.now.recording.now.names.items sheet.now.marks.now None
        sheet.now.recording.now.moments.items) }
{
    let mut before = None;
    for moment in sheet.recording.moments.as_slice() {
        add_row(page, sheet, before, moment);
        before = Some(moment);
    }
}

/// The table of changes: a row for each scan that is shown, with what changed from the one before it, and what is
/// expected of it.
pub(crate) fn add_changes(page: &mut Page, sheet: &Sheet<'_>)
    ensures { Adds page.old page.new
        (changes_pieces sheet.now.app.now sheet.now.recording.now.names.items sheet.now.marks.now
        sheet.now.recording.now.moments.items) }
{
    add_parts(
        page,
        &[
            Part::Open(Tag::Table),
            Part::Element(Tag::Caption, b"What changes, and what is expected"),
            Part::Open(Tag::Thead),
            Part::Open(Tag::Tr),
            Part::Marked(Tag::Th, Key::Scope, b"col", b"Time in ms"),
            Part::Marked(Tag::Th, Key::Scope, b"col", b"What changes"),
            Part::Marked(Tag::Th, Key::Scope, b"col", b"Expected"),
            Part::End(Tag::Tr),
            Part::End(Tag::Thead),
            Part::Open(Tag::Tbody),
        ],
    );
    add_rows(page, sheet);
    add_parts(page, &[Part::End(Tag::Tbody), Part::End(Tag::Table)]);
}
