// What a picture is drawn on: its frame, the lines of its scans and names, and the times below them.

ghost use Rattle.std.specs.Prelude.{◌≡◌, ◌++◌, ℕ, List, IfOk, IsTrue, OnOk, decimal, length, option_map};
ghost use Rattle.std.specs.List.{flat_map};
ghost use Rattle.ps_bench_report.specs.Ground.{bases_text, break_text, caption_of_times, frame_pieces, front_of};
ghost use Rattle.ps_bench_report.specs.Ground.{ground_pieces, last_of, side_of, ticks_text, time_of, time_pieces};
ghost use Rattle.ps_bench_report.specs.Paged.{Adds};
ghost use Rattle.ps_bench_report.specs.Picture.{path_pieces};
ghost use Rattle.ps_bench_report.specs.Sheets.{height_of};

use crate::diagram::{Sheet, height_of};
use crate::names::{Key, Tag};
use crate::page::Page;
use crate::parts::{Part, add_parts};
use crate::picture::{LEFT, TOP, add_base, add_path, add_upright, add_words, room_in};
use crate::scale::Scan;
use itoa::Buffer;
use ps_base::{Bytes, Memory};
use ps_bench_frame::pieces::add_short;
use ps_bench_names::Name;
use std::alloc::Global;

// How wide a picture is.
const WIDTH: u32 = 690;

// Numbers, each with words before it, and words after the last one, at the end of others.
fn add_numbered(words: &mut Bytes, numbers: &[(&[u8], u32)], end: &[u8]) -> Result<(), Memory>
    ensures { OnOk result (words.new ≡ words.old ++ flat_map (λ n. n.0.now ++ decimal n.1) numbers.now ++ end.now) }
{
    for (before, number) in numbers {
        words.extend_from_slice(*before)?;
        add_short(words, *number)?;
    }
    words.extend_from_slice(end)
}

// An upright line at the beginning of each scan.
fn ticks_of(alloc: Global, scans: &[Scan<'_>], bottom: u32) -> Result<Bytes, Memory>
    ensures { IfOk result (λ ticks. ticks ≡ ticks_text bottom scans.now) }
{
    let mut ticks = Bytes::new(alloc);
    for scan in scans {
        add_upright(&mut ticks, scan.x, TOP - 4, bottom)?;
    }
    Ok(ticks)
}

// The lines of FALSE below the lines of signals and pins, up to the right side of the last scan.
fn bases_of(sheet: &Sheet<'_>, scans: &[Scan<'_>]) -> Result<Bytes, Memory>
    ensures { IfOk result (λ bases. bases ≡ bases_text (side_of (last_of scans.now)) sheet.now.lanes.now) }
{
    let end = match scans.last() {
        Some(scan) => scan.end,
        None => LEFT,
    };
    let mut bases = Bytes::new(sheet.alloc);
    for lane in sheet.lanes {
        match lane.name {
            Name::Code(_) => (),
            Name::Signal(_) => add_base(&mut bases, lane.row, end)?,
            Name::Pin { .. } => add_base(&mut bases, lane.row, end)?,
        }
    }
    Ok(bases)
}

// The signs of breaks at the ends of scans.
fn breaks_of(alloc: Global, scans: &[Scan<'_>], bottom: u32) -> Result<Bytes, Memory>
    ensures { IfOk result (λ breaks. breaks ≡ flat_map (break_text bottom) scans.now) }
{
    let mut breaks = Bytes::new(alloc);
    for scan in scans {
        if scan.is_broken {
            let (x, y) = (scan.end.saturating_sub(20), bottom.saturating_add(4));
            add_numbered(&mut breaks, &[(b"M", x), (b" ", y)], b"l4 -9m4 0l-4 9")?;
        }
    }
    Ok(breaks)
}

// Lines of this class, if memory was there for them.
fn add_lines(page: &mut Page, class: &[u8], lines: Result<Bytes, Memory>)
    ensures { (text : List ℕ) → IfOk lines (λ made. made ≡ text) → Adds page.old page.new (path_pieces class.now text) }
{
    match lines {
        Ok(lines) => add_path(page, class, lines.as_slice()),
        Err(Memory) => page.spoil(),
    }
}

// The times of scans below the lines, where they have room.
fn add_times(page: &mut Page, scans: &[Scan<'_>], y: u32)
    ensures { Adds page.old page.new (flat_map (time_pieces y) scans.now) }
{
    for scan in scans {
        let mut digits = Buffer::new();
        let words = digits.format(scan.moment.now).as_bytes();
        let width = scan.end.saturating_sub(scan.x).saturating_add(6);
        if room_in(words, width).len() == words.len() {
            add_words(page, b"time", scan.x, y, words);
        }
    }
}

// What stands below the lines of a picture, and what they are drawn on.
fn add_ground(page: &mut Page, sheet: &Sheet<'_>, scans: &[Scan<'_>], bottom: u32)
    ensures { Adds page.old page.new (ground_pieces sheet.now.lanes.now scans.now bottom) }
{
    let below = bottom.saturating_add(14);
    add_lines(page, b"tick", ticks_of(sheet.alloc, scans, bottom));
    add_lines(page, b"base", bases_of(sheet, scans));
    add_lines(page, b"break", breaks_of(sheet.alloc, scans, bottom));
    add_words(page, b"name", LEFT - 8, 26, b"expected at");
    add_words(page, b"name", LEFT - 8, below, b"time in ms");
    add_times(page, scans, below);
}

// The time of a scan in ms, if there is one.
fn time_of(scan: Option<&Scan<'_>>) -> u32
    ensures { result ≡ time_of (option_map (λ s. s.now) scan.entry) }
{
    match scan {
        Some(scan) => scan.moment.now,
        None => 0,
    }
}

// The beginning of a picture of this height: what it is called within the page, and the part of it that is seen.
fn add_frame<'x>(page: &mut Page, height: u32, id: &'x [u8], view: &'x [u8])
    ensures { Adds page.old page.new (frame_pieces height id.now view.now) }
{
    add_parts(
        page,
        &[
            Part::Begin(Tag::Svg),
            Part::Attribute(Key::Role, b"img"),
            Part::Attribute(Key::LabelledBy, id),
            Part::Number(Key::Width, WIDTH),
            Part::Number(Key::Height, height),
            Part::Attribute(Key::ViewBox, view),
            Part::Inside,
        ],
    );
}

// What a picture shows, in words: its first time and its last one.
fn add_title<'x>(page: &mut Page, id: &'x [u8], first: &'x [u8], last: &'x [u8])
    ensures { Adds page.old page.new (caption_of_times id.now first.now last.now) }
{
    add_parts(
        page,
        &[
            Part::Begin(Tag::Title),
            Part::Attribute(Key::Id, id),
            Part::Inside,
            Part::Value(b"Timing diagram from "),
            Part::Value(first),
            Part::Value(b" ms to "),
            Part::Value(last),
            Part::Value(b" ms; the table below it says the same"),
            Part::End(Tag::Title),
        ],
    );
}

/// What stands in a picture before its scans and lines, by its number among those of the case.
pub(crate) fn front_of(sheet: &Sheet<'_>, number: u32, scans: &[Scan<'_>]) -> Result<Page, Memory>
    ensures { IfOk result (λ front. IsTrue front.whole → front.pieces
        ≡ front_of sheet.now.id.now number (height_of (length sheet.now.lanes.now)) sheet.now.lanes.now scans.now) }
{
    let height = height_of(sheet.lanes.len());
    let mut id = Bytes::from_slice(sheet.alloc, sheet.id)?;
    add_numbered(&mut id, &[(b"-", number)], b"")?;
    let mut view = Bytes::new(sheet.alloc);
    add_numbered(&mut view, &[(b"0 0 ", WIDTH), (b" ", height)], b"")?;
    let mut page = Page::new(sheet.alloc);
    add_frame(&mut page, height, id.as_slice(), view.as_slice());
    let (mut first, mut last) = (Buffer::new(), Buffer::new());
    let first = first.format(time_of(scans.first())).as_bytes();
    let last = last.format(time_of(scans.last())).as_bytes();
    add_title(&mut page, id.as_slice(), first, last);
    add_ground(&mut page, sheet, scans, height.saturating_sub(18));
    Ok(page)
}
