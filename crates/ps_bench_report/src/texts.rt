// The parts of a report that are texts: the source, notes, demands, coverage, and what is claimed.

ghost use Rattle.std.specs.Prelude.{◌≡◌, ◌++◌, IfOk, OnOk};
ghost use Rattle.std.specs.List.{flat_map};
ghost use Rattle.ps_message.specs.NoteLine.{note_text};
ghost use Rattle.ps_model.specs.Typing.{Accepted};
ghost use Rattle.ps_bench_report.specs.Contents.{back_pieces, claims_part, texts_pieces};
ghost use Rattle.ps_bench_report.specs.Covered.{IsCoverage};
ghost use Rattle.ps_bench_report.specs.Numbered.{margin, numbered, numbered_line};
ghost use Rattle.ps_bench_report.specs.Paged.{Adds};
ghost use Rattle.ps_bench_report.specs.Telling.{AreDemands, AreTexts, notes_text};

use crate::names::Tag;
use crate::page::Page;
use crate::parts::{Part, add_parts};
use crate::tables::add_text;
use ps_base::{Bytes, Memory};
use ps_bench_cover::operand_places;
use ps_bench_frame::pieces::add_short;
use ps_cover::{Cover, Exclusions, Format, Told, coverage_text};
use ps_demand::{NoLines, demand_lines};
use ps_findings::placed_notes;
use ps_message::note_line;
use ps_model::App;
use ps_notes::Placed;
use ps_parser::Source;
use std::alloc::Global;

// What stands before the number of a line.
fn margin(number: u32) -> &'static [u8]
    ensures { result.now ≡ margin number }
{
    if number < 10 {
        b"     "
    } else if number < 100 {
        b"    "
    } else if number < 1000 {
        b"   "
    } else if number < 10000 {
        b"  "
    } else {
        b" "
    }
}

// A line with its number.
fn add_line(text: &mut Bytes, number: u32, line: &[u8]) -> Result<(), Memory>
    ensures { OnOk result (text.new ≡ text.old ++ numbered_line number line.now) }
{
    text.extend_from_slice(margin(number))?;
    add_short(text, number)?;
    text.extend_from_slice(b"  ")?;
    text.extend_from_slice(line)?;
    text.extend_from_slice(b"\n")
}

// A text with the numbers of its lines.
fn numbered(alloc: Global, text: &[u8]) -> Result<Bytes, Memory>
    ensures { IfOk result (λ lines. lines ≡ numbered text.now) }
{
    let mut lines = Bytes::new(alloc);
    let mut number = 0u32;
    for line in text.split(|byte| *byte == b'\n') {
        number = number.saturating_add(1);
        add_line(&mut lines, number, line)?;
    }
    Ok(lines)
}

// The lines of these notes on an application from a file of this name.
fn lines_of(alloc: Global, name: &[u8], app: &App, notes: &[Placed]) -> Result<Bytes, Memory>
    ensures { IfOk result (λ lines. lines ≡ flat_map (note_text name.now app.now) notes.now) }
{
    let mut lines = Bytes::new(alloc);
    for note in notes {
        let line = note_line(alloc, name, app, note)?;
        lines.extend_from_slice(line.as_slice())?;
    }
    Ok(lines)
}

// The notes on an application of this source, from a file of this name, each in a line with its place.
fn notes_of(alloc: Global, name: &[u8], source: &Source, app: &App) -> Result<Bytes, Memory>
    ensures { IfOk result (λ notes. notes ≡ notes_text app.now source.now name.now) }
{
    let placed = placed_notes(alloc, source, app)?;
    lines_of(alloc, name, app, placed.as_slice())
}

// What the outputs demand, or that it is too large.
fn demands_of(alloc: Global, app: &App) -> Result<Bytes, Memory>
    requires { Accepted app.now }
    ensures { IfOk result (AreDemands app.now) }
{
    match demand_lines(alloc, app) {
        Ok(lines) => Ok(lines),
        Err(NoLines::Large(_)) => {
            Bytes::from_slice(alloc, b"The demand of an output has over 1,000 leaves.\n")
        }
        Err(NoLines::Memory) => Err(Memory),
    }
}

// What the cases have shown of an application of this source.
fn coverage_of(
    alloc: Global,
    app: &App,
    source: &Source,
    cover: &Cover<'_>,
) -> Result<Bytes, Memory>
    requires { Accepted app.now }
    ensures { IfOk result (IsCoverage app.now source.now cover.entry.now) }
{
    let exclusions = Exclusions::new(alloc, app)?;
    let places = operand_places(alloc, app, source, cover.points())?;
    let told = Told {
        app,
        exclusions: &exclusions,
        places: places.as_slice(),
        cover,
    };
    coverage_text(alloc, &told, Format::Text)
}

/// The texts of a report.
pub(crate) struct Texts {
    /// The source, with the numbers of its lines.
    pub(crate) source: Bytes,
    /// The notes.
    pub(crate) notes: Bytes,
    /// What the outputs demand.
    pub(crate) demands: Bytes,
    /// What the cases have shown.
    pub(crate) coverage: Bytes,
}

impl Drop for Texts {
    // One call for whoever owns one, in place of a walk through all that it holds.
    fn drop(self) {
        let Texts {
            source: _,
            notes: _,
            demands: _,
            coverage: _,
        } = self;
    }
}

/// The application of a report: its name, its text, its source, and what the cases have shown of it.
#[derive(Clone, Copy)]
pub(crate) struct Shown<'a> {
    pub(crate) name: &'a str,
    pub(crate) text: &'a [u8],
    pub(crate) app: &'a App,
    pub(crate) source: &'a Source,
    pub(crate) cover: &'a Cover<'a>,
}

/// The texts of a report on an application.
pub(crate) fn texts_of(alloc: Global, shown: &Shown<'_>) -> Result<Texts, Memory>
    requires { Accepted shown.now.app.now }
    ensures texts { IfOk result (AreTexts shown.now.app.now shown.now.source.now shown.now.name.now
        shown.now.text.now) }
    ensures coverage { IfOk result (λ texts.
        IsCoverage shown.now.app.now shown.now.source.now shown.now.cover.now texts.coverage) }
{
    let source = numbered(alloc, shown.text)?;
    let notes = notes_of(alloc, shown.name.as_bytes(), shown.source, shown.app)?;
    let demands = demands_of(alloc, shown.app)?;
    let coverage = coverage_of(alloc, shown.app, shown.source, shown.cover)?;
    Ok(Texts {
        source,
        notes,
        demands,
        coverage,
    })
}

// What is claimed of results, of the page and of its texts.
const OF_RESULTS: &[u8] =
    b"A case is told as passed exactly where each of its expectations holds in its run, and no \
    scan tripped that was not expected to. The run is that of both channels of the simulated controller.";

const OF_PAGE: &[u8] =
    b"The rows of the table of results are proved to be those of the runs: name, place, result and \
    number of scans. So is that no byte of a name or a text of this page stands where it could be read as a part of \
    the page.";

const OF_TEXTS: &[u8] =
    b"It is proved that the title, the SHA-256 of the files, the total of the results, the \
    source with the numbers of its lines, the notes with their places and the demands are those of the application and \
    of its files.";

// What is claimed of diagrams, and of coverage.
const OF_DIAGRAMS: &[u8] =
    b"Of the timing diagrams, and of the tables of what changes, it is proved that the values of \
    a scan are those of the run that the case means, that a scan which is left out has the values of the one that is \
    shown before it, that each expectation stands at its scan, with FAIL where it failed, and how all of this is \
    drawn. Which scans are left out is what the program computed: that is tried, and not proved.";

const OF_COVERAGE: &[u8] =
    b"A case that passes says nothing of other inputs, other times or other faults. Coverage \
    counts what the cases have shown, and 100 % says no more than that. It is proved to be that of their runs.";

// The limits of what is claimed.
const OF_TIMES: &[u8] =
    b"Times are those of the cases. Nothing is said of a real controller, its inputs and outputs, \
    or how long it takes.";

const OF_PROGRAM: &[u8] =
    b"The program is a simulator. This page is no certificate, and stands for no assessment by \
    an independent person.";

// What is claimed, and what is not.
fn add_claims(page: &mut Page)
    ensures { Adds page.old page.new claims_part }
{
    add_parts(
        page,
        &[
            Part::Open(Tag::Section),
            Part::Element(Tag::H2, b"What is claimed, and what is not"),
            Part::Open(Tag::Ul),
            Part::Element(Tag::Li, OF_RESULTS),
            Part::Element(Tag::Li, OF_PAGE),
            Part::Element(Tag::Li, OF_TEXTS),
            Part::Element(Tag::Li, OF_DIAGRAMS),
            Part::Element(Tag::Li, OF_COVERAGE),
            Part::Element(Tag::Li, OF_TIMES),
            Part::Element(Tag::Li, OF_PROGRAM),
            Part::End(Tag::Ul),
            Part::End(Tag::Section),
        ],
    );
}

// The parts that are texts.
fn add_texts(page: &mut Page, texts: &Texts)
    ensures { Adds page.old page.new (texts_pieces texts.now) }
{
    add_text(
        page,
        b"Application",
        texts.source.as_slice(),
        b"It is empty.",
    );
    add_text(
        page,
        b"Notes",
        texts.notes.as_slice(),
        b"There are no notes on the application.",
    );
    add_text(
        page,
        b"Demands",
        texts.demands.as_slice(),
        b"There is no SAFEBOOL output.",
    );
    add_text(
        page,
        b"Coverage",
        texts.coverage.as_slice(),
        b"Nothing is counted.",
    );
    add_claims(page);
}

/// What stands after the parts of the cases: the parts that are texts, and the foot.
pub(crate) fn add_back(page: &mut Page, texts: &Texts)
    ensures { Adds page.old page.new (back_pieces texts.now) }
{
    page.close(Tag::Section);
    add_texts(page, texts);
    add_parts(page, &[Part::End(Tag::Main), Part::Epilogue]);
}
