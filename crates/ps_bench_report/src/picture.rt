// Words, lines and bands of a picture.

ghost use Rattle.std.specs.Prelude.{◌≡◌, ◌++◌, IfOk, OnOk};
ghost use Rattle.ps_bench_report.specs.Paged.{Adds};
ghost use Rattle.ps_bench_report.specs.Picture.{band_class, band_pieces, base_text, bar_pieces, level_pieces, level_text};
ghost use Rattle.ps_bench_report.specs.Picture.{name_pieces, path_pieces, room_in, row_top, upright_text, words_pieces};

use crate::names::{Key, Tag};
use crate::page::Page;
use crate::parts::{Part, add_parts};
use ps_base::{Bytes, Memory};
use ps_text::{Span, add_start, add_step, line_of, merged};
use std::alloc::Global;

/// How far the lines of a picture are from one another.
pub(crate) const LANE: u32 = 24;

/// The upper side of the first line, below the words above the lines.
pub(crate) const TOP: u32 = 34;

/// The place of the first scan of a picture, after the names.
pub(crate) const LEFT: u32 = 140;

// How wide a letter of a picture is.
const LETTER: u32 = 6;

// The upper side of the line of this number, counted from 0.
fn row_top(row: u16) -> u32
    ensures { result ≡ row_top row }
{
    u32::from(row) * LANE + TOP
}

/// Words with their class, which may be none, at a place.
pub(crate) fn add_words<'x>(page: &mut Page, class: &'x [u8], x: u32, y: u32, words: &'x [u8])
    ensures { Adds page.old page.new (words_pieces class.now x y words.now) }
{
    add_parts(
        page,
        &[
            Part::Begin(Tag::Text),
            Part::Class(class),
            Part::Number(Key::X, x),
            Part::Number(Key::Y, y),
            Part::Inside,
            Part::Value(words),
            Part::End(Tag::Text),
        ],
    );
}

/// Lines with their class, which may be none.
pub(crate) fn add_path<'x>(page: &mut Page, class: &'x [u8], lines: &'x [u8])
    ensures { Adds page.old page.new (path_pieces class.now lines.now) }
{
    add_parts(
        page,
        &[
            Part::Begin(Tag::Path),
            Part::Class(class),
            Part::Attribute(Key::D, lines),
            Part::Alone,
        ],
    );
}

/// An upright line at the end of others.
pub(crate) fn add_upright(lines: &mut Bytes, x: u32, top: u32, bottom: u32) -> Result<(), Memory>
    ensures { OnOk result (lines.new ≡ lines.old ++ upright_text x top bottom) }
{
    add_start(lines, x, top)?;
    add_step(lines, b"V", bottom)
}

/// The name before the line of this number.
pub(crate) fn add_row_name(page: &mut Page, row: u16, name: &[u8])
    ensures { Adds page.old page.new (name_pieces row name.now) }
{
    add_words(page, b"name", LEFT - 8, row_top(row) + 16, name);
}

/// The line of FALSE below the line of this number, up to a right side, at the end of other lines.
pub(crate) fn add_base(lines: &mut Bytes, row: u16, end: u32) -> Result<(), Memory>
    ensures { OnOk result (lines.new ≡ lines.old ++ base_text row end) }
{
    add_start(lines, LEFT, row_top(row) + 21)?;
    add_step(lines, b"H", end)
}

// The line of a signal, by its values in scans side by side: high for TRUE.
fn level_of(alloc: Global, row: u16, spans: &[Span]) -> Result<Bytes, Memory>
    ensures { IfOk result (λ lines. lines ≡ level_text row spans.now) }
{
    let spans = merged(alloc, spans)?;
    let top = row_top(row);
    line_of(alloc, spans.as_slice(), top + 5, top + 19)
}

/// The line of a signal, by its values in scans side by side: high for TRUE.
pub(crate) fn add_level(page: &mut Page, alloc: Global, row: u16, spans: &[Span])
    ensures { Adds page.old page.new (level_pieces row spans.now) }
{
    match level_of(alloc, row, spans) {
        Ok(lines) => add_path(page, b"", lines.as_slice()),
        Err(Memory) => page.spoil(),
    }
}

// How a band of a code looks; most have no class of their own.
fn band_class(code: u16) -> &'static [u8]
    ensures { result.now ≡ band_class code }
{
    if code == 0 {
        b"idle"
    } else if code == 0x8000 {
        b"well"
    } else if code >= 0xC000 {
        b"error"
    } else {
        b""
    }
}

/// What of these words has room in a width: all of them, their first four letters, or nothing.
pub(crate) fn room_in(words: &[u8], width: u32) -> &[u8]
    ensures { result.now ≡ room_in words.now width }
{
    let letters = (width.saturating_sub(6) / LETTER) as usize;
    if words.len() <= letters {
        words
    } else if letters >= 4 && words.len() >= 4 {
        &words[..4]
    } else {
        &[]
    }
}

// The box of a code in scans side by side, with its words.
fn add_bar(page: &mut Page, row: u16, span: &Span, words: &[u8])
    ensures { Adds page.old page.new (bar_pieces row span.now words.now) }
{
    add_parts(
        page,
        &[
            Part::Begin(Tag::Rect),
            Part::Class(band_class(span.value)),
            Part::Number(Key::X, span.x),
            Part::Number(Key::Y, row_top(row) + 3),
            Part::Number(Key::Width, span.end.saturating_sub(span.x)),
            Part::Number(Key::Height, 18),
            Part::Inside,
            Part::Element(Tag::Title, words),
            Part::End(Tag::Rect),
        ],
    );
}

/// A band of a code in scans side by side: a box with its words, and what of them has room in it.
pub(crate) fn add_band(page: &mut Page, row: u16, span: &Span, words: &[u8])
    ensures { Adds page.old page.new (band_pieces row span.now words.now) }
{
    add_bar(page, row, span, words);
    let shown = room_in(words, span.end.saturating_sub(span.x));
    if !shown.is_empty() {
        let (x, y) = (span.x.saturating_add(4), row_top(row) + 16);
        add_words(page, b"", x, y, shown);
    }
}
