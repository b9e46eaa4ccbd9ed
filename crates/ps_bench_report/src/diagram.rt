// The timing diagram of a case, and what changed in it in a table.

ghost use Rattle.std.specs.Prelude.{◌≡◌, ◌++◌, IfOk, IsTrue, OnOk, codes, if◌then◌else◌, length};
ghost use Rattle.std.specs.List.{flat_map};
ghost use Rattle.ps_bench_report.specs.Diagram.{event_pieces, expected_pieces, fails, further_text, lane_pieces, mark_text};
ghost use Rattle.ps_bench_report.specs.Diagram.{marks_at, marks_class, marks_text, scan_pieces, upright_pieces};
ghost use Rattle.ps_bench_report.specs.Paged.{Adds, OnWhole};
ghost use Rattle.ps_bench_report.specs.Picture.{words_pieces};
ghost use Rattle.ps_bench_report.specs.Sheets.{ShowsDiagram, ShowsPictures, ShowsSheet, has_value, height_of, is_constant};
ghost use Rattle.ps_bench_report.specs.Sheets.{caption_pieces, is_drawn, lanes_of, names_left_out, picture_pieces};
ghost use Rattle.ps_bench_report.specs.Sheets.{scans_left_out, with_lane};
ghost use Rattle.ps_bench_test.specs.Outcome.{ran_of};

use crate::changes::add_changes;
use crate::drawing::{Lane, add_lane, add_upright_path, event_of, value_at};
use crate::ground::front_of;
use crate::marks::{Mark, marks_of};
use crate::names::Tag;
use crate::page::Page;
use crate::parts::{Part, add_parts};
use crate::picture::{LANE, TOP, add_words};
use crate::recording::{Course, Moment, Recording};
use crate::scale::{Scan, scans_of, unit_of};
use ps_base::{Bytes, Memory};
use ps_bench_frame::pieces::add_short;
use ps_bench_names::Name;
use ps_bench_test::CaseRun;
use ps_model::App;
use std::alloc::Global;

// As many names are drawn whether they change or not.
const FEW_NAMES: usize = 60;

/// What a diagram is drawn of.
#[derive(Clone, Copy)]
pub(crate) struct Sheet<'a> {
    pub(crate) alloc: Global,
    pub(crate) app: &'a App,
    /// What is shown of the case.
    pub(crate) recording: &'a Recording,
    /// What the case expects.
    pub(crate) marks: &'a [Mark],
    /// The names that are drawn.
    pub(crate) lanes: &'a [Lane],
    /// What the pictures are called within the page, up to their number.
    pub(crate) id: &'a [u8],
}

// Whether a name has the same value in all of these scans.
fn is_constant(moments: &[Moment], number: usize) -> bool
    ensures { result ≡ is_constant moments.now number }
{
    match moments {
        [] => true,
        [first, rest @ ..] => has_value(rest, number, value_at(first, number)),
    }
}

// Whether a name has this value in all of these scans.
fn has_value(moments: &[Moment], number: usize, value: u16) -> bool
    ensures { result ≡ has_value moments.now number value }
{
    for moment in moments {
        if value_at(moment, number) != value {
            return false;
        }
    }
    true
}

// Whether a name is drawn: all of a few are, and of many those that change.
fn is_drawn(recording: &Recording, number: usize) -> bool
    ensures { result ≡ is_drawn recording.now number }
{
    recording.names.len() <= FEW_NAMES || !is_constant(recording.moments.as_slice(), number)
}

// One more name below the others, where it is drawn.
fn push_lane(
    lanes: &mut Vec<Lane>,
    recording: &Recording,
    name: Name,
    number: usize,
) -> Result<(), Memory>
    ensures { OnOk result (lanes.new.items ≡ (
        if is_drawn recording.now number then with_lane lanes.old.items name number else lanes.old.items)) }
{
    if !is_drawn(recording, number) {
        return Ok(());
    }
    let row = lanes.len().min(u16::MAX as usize) as u16;
    lanes.push(Lane { name, number, row })?;
    Ok(())
}

// The names that are drawn: all of a few, and of many those that change.
fn lanes_of(alloc: Global, recording: &Recording) -> Result<Vec<Lane>, Memory>
    ensures { IfOk result (λ lanes. lanes.items ≡ lanes_of recording.now) }
{
    let mut lanes = Vec::new(alloc);
    let names = recording.names.as_slice();
    for number in 0..names.len() {
        push_lane(&mut lanes, recording, names[number], number)?;
    }
    Ok(lanes)
}

/// The expectations of a scan.
pub(crate) fn marks_at(alloc: Global, marks: &[Mark], scan: u32) -> Result<Vec<Mark>, Memory>
    ensures { IfOk result (λ list. list.items ≡ marks_at scan marks.now) }
{
    let mut list = Vec::new(alloc);
    for mark in marks {
        if mark.scan == scan {
            list.push(*mark)?;
        }
    }
    Ok(list)
}

// An expectation by its line, and whether it failed, after others.
fn add_mark(words: &mut Bytes, mark: &Mark) -> Result<(), Memory>
    ensures { OnOk result (words.new ≡ words.old ++ mark_text mark.now) }
{
    add_short(words, mark.line)?;
    words.extend_from_slice(if mark.failed { b" FAIL" } else { b"" })
}

// Further expectations by their lines, after others.
fn add_marks(words: &mut Bytes, marks: &[Mark]) -> Result<(), Memory>
    ensures { OnOk result (words.new ≡ words.old ++ flat_map further_text marks.now) }
{
    for mark in marks {
        words.extend_from_slice(b", ")?;
        add_mark(words, mark)?;
    }
    Ok(())
}

/// Expectations by their lines, as `line 23, 25 FAIL`.
pub(crate) fn words_of(alloc: Global, marks: &[Mark]) -> Result<Bytes, Memory>
    ensures { IfOk result (λ words. words ≡ marks_text marks.now) }
{
    let mut words = Bytes::new(alloc);
    if let [first, rest @ ..] = marks {
        words.extend_from_slice(b"line ")?;
        add_mark(&mut words, first)?;
        add_marks(&mut words, rest)?;
    }
    Ok(words)
}

// Whether one of some expectations failed.
fn fails(marks: &[Mark]) -> bool
    ensures { result ≡ fails marks.now }
{
    for mark in marks {
        if mark.failed {
            return true;
        }
    }
    false
}

// How expectations look: as one that failed, where one of them did.
fn marks_class(marks: &[Mark]) -> &'static [u8]
    ensures { result.now ≡ marks_class marks.now }
{
    if fails(marks) { b"fail" } else { b"pass" }
}

// These words above a scan, and an upright line.
fn add_turn(page: &mut Page, alloc: Global, words: &[u8], x: u32, bottom: u32)
    ensures { Adds page.old page.new
        (words_pieces (codes "happens") x 12 words.now ++ upright_pieces (codes "event") x bottom) }
{
    add_words(page, b"happens", x, 12, words);
    add_upright_path(page, alloc, b"event", x, bottom);
}

// What stands above a scan of what happens to the world.
fn add_event(page: &mut Page, alloc: Global, scan: &Scan<'_>, bottom: u32)
    ensures { Adds page.old page.new (event_pieces bottom scan.now) }
{
    let words = event_of(scan.moment);
    match (scan.moment.course, scan.moment.restarted) {
        (Course::Trips, _) => add_turn(page, alloc, words, scan.x, bottom),
        (Course::Down, true) => add_turn(page, alloc, words, scan.x, bottom),
        (Course::Down, false) => add_words(page, b"happens", scan.x, 12, words),
        (Course::Runs, true) => add_turn(page, alloc, words, scan.x, bottom),
        (Course::Runs, false) => (),
    }
}

// What stands above a scan of which these are expected, of which there is one at least.
fn add_expected(page: &mut Page, alloc: Global, marks: &[Mark], x: u32, bottom: u32)
    ensures { Adds page.old page.new (expected_pieces bottom x marks.now) }
{
    if marks.is_empty() {
        return;
    }
    match words_of(alloc, marks) {
        Ok(words) => {
            add_upright_path(page, alloc, b"mark", x, bottom);
            add_words(page, marks_class(marks), x, 26, words.as_slice());
        }
        Err(Memory) => page.spoil(),
    }
}

// What stands above a scan: what happens to the world, and what is expected.
fn add_scan(page: &mut Page, alloc: Global, marks: &[Mark], scan: &Scan<'_>, bottom: u32)
    ensures { Adds page.old page.new (scan_pieces bottom marks.now scan.now) }
{
    add_event(page, alloc, scan, bottom);
    match marks_at(alloc, marks, scan.moment.scan) {
        Ok(expected) => add_expected(page, alloc, expected.as_slice(), scan.x, bottom),
        Err(Memory) => page.spoil(),
    }
}

// What stands above scans.
fn add_scans(page: &mut Page, sheet: &Sheet<'_>, scans: &[Scan<'_>], bottom: u32)
    ensures { Adds page.old page.new (flat_map (scan_pieces bottom sheet.now.marks.now) scans.now) }
{
    for scan in scans {
        add_scan(page, sheet.alloc, sheet.marks, scan, bottom);
    }
}

// The lines of a picture, each with its name.
fn add_lanes(page: &mut Page, sheet: &Sheet<'_>, scans: &[Scan<'_>])
    ensures { Adds page.old page.new
        (flat_map (lane_pieces sheet.now.app.now scans.now) sheet.now.lanes.now) }
{
    for lane in sheet.lanes {
        add_lane(page, sheet.alloc, sheet.app, lane, scans);
    }
}

/// How high a picture of so many names is.
pub(crate) fn height_of(lanes: usize) -> u32
    ensures { result ≡ height_of lanes }
{
    (lanes.min(1000) as u32) * LANE + TOP + 20
}

// A picture with this front.
fn add_picture(page: &mut Page, sheet: &Sheet<'_>, front: Page, scans: &[Scan<'_>])
    ensures added { Adds page.old page.new
        (picture_pieces sheet.now.app.now sheet.now.marks.now sheet.now.lanes.now
        (record { front = front.pieces; scans = scans.now })) }
    ensures front { IsTrue page.new.whole → IsTrue front.whole }
{
    let bottom = height_of(sheet.lanes.len()).saturating_sub(18);
    page.join(front);
    add_scans(page, sheet, scans, bottom);
    add_lanes(page, sheet, scans);
    add_parts(page, &[Part::End(Tag::Svg)]);
}

// The pictures of a case, one below another.
fn add_pictures(page: &mut Page, sheet: &Sheet<'_>) -> Result<(), Memory>
    ensures { OnOk result (OnWhole page.old page.new (ShowsPictures sheet.now.app.now sheet.now.id.now
        sheet.now.marks.now sheet.now.lanes.now sheet.now.recording.now.moments.items)) }
{
    let moments = sheet.recording.moments.as_slice();
    let unit = unit_of(moments);
    let mut rest = moments;
    for picture in 0..moments.len() {
        if rest.is_empty() {
            return Ok(());
        }
        let first = scans_of(sheet.alloc, rest, sheet.marks, unit)?;
        let scans = first.as_slice();
        let front = front_of(sheet, picture.min(1_000_000) as u32, scans)?;
        add_picture(page, sheet, front, scans);
        let (_, later) = rest.split_at(scans.len());
        rest = later;
    }
    Ok(())
}

// What is said of names that are not drawn, if there are any.
fn names_left_out(sheet: &Sheet<'_>) -> &'static [u8]
    ensures { result.now ≡ names_left_out (length sheet.now.lanes.now) (length sheet.now.recording.now.names.items) }
{
    if sheet.lanes.len() < sheet.recording.names.len() {
        b" Of many names only those are drawn that change."
    } else {
        b""
    }
}

// What is said of scans that are not shown, if there are any that show a change.
fn scans_left_out(recording: &Recording) -> &'static [u8]
    ensures { result.now ≡ scans_left_out recording.now.is_cut }
{
    if recording.is_cut {
        b" Only the first 400 changes are shown."
    } else {
        b""
    }
}

// What stands below the pictures of a case: what of it is not drawn.
fn caption_of(sheet: &Sheet<'_>) -> Page
    ensures { IsTrue result.whole → result.pieces ≡
        caption_pieces sheet.now.recording.now (length sheet.now.lanes.now) }
{
    let mut page = Page::new(sheet.alloc);
    add_parts(
        &mut page,
        &[
            Part::Open(Tag::Figcaption),
            Part::Value(
                b"Inputs, outputs, instances and what is expected of others; scans in which nothing changes are left out.",
            ),
            Part::Value(names_left_out(sheet)),
            Part::Value(scans_left_out(sheet.recording)),
            Part::End(Tag::Figcaption),
            Part::End(Tag::Figure),
        ],
    );
    page
}

// The pictures of a case, and what changed in it.
fn add_sheet(page: &mut Page, sheet: &Sheet<'_>) -> Result<(), Memory>
    ensures { OnOk result (OnWhole page.old page.new (ShowsSheet sheet.now.app.now sheet.now.id.now
        sheet.now.recording.now sheet.now.marks.now sheet.now.lanes.now)) }
{
    add_parts(page, &[Part::Open(Tag::Figure)]);
    add_pictures(page, sheet)?;
    page.join(caption_of(sheet));
    add_changes(page, sheet);
    Ok(())
}

/// The timing diagram of a case that was run, and what changed in it in a table. Pictures are called by this word
/// within the page, and their number.
pub(crate) fn add_diagram(
    page: &mut Page,
    alloc: Global,
    run: &CaseRun<'_>,
    recording: &Recording,
    id: &[u8],
) -> Result<(), Memory>
    ensures { OnOk result (OnWhole page.old page.new (ShowsDiagram (ran_of run.now) id.now recording.now)) }
{
    let marks = marks_of(alloc, run.file, run.case, run.outcome.failures.as_slice())?;
    let lanes = lanes_of(alloc, recording)?;
    let sheet = Sheet {
        alloc,
        app: run.app,
        recording,
        marks: marks.as_slice(),
        lanes: lanes.as_slice(),
        id,
    };
    add_sheet(page, &sheet)
}
