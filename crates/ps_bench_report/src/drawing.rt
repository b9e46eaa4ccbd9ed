// The lines, bands and words of a picture.

ghost use Rattle.std.specs.Prelude.{◌≡◌, IfOk, map};
ghost use Rattle.std.specs.List.{flat_map};
ghost use Rattle.ps_bench_report.specs.Paged.{Adds};
ghost use Rattle.ps_bench_report.specs.Diagram.{band_of, event_of, lane_pieces, span_of, upright_pieces, value_at, values_of};

use crate::page::Page;
use crate::picture::{TOP, add_band, add_level, add_path, add_row_name, add_upright};
use crate::recording::{Course, Moment};
use crate::scale::Scan;
use ps_base::{Bytes, Memory};
use ps_bench_names::Name;
use ps_bench_test::{add_name, add_value};
use ps_model::App;
use ps_text::{Span, merged};
use std::alloc::Global;

/// A name that is drawn: its number among the names of the case, and the number of its line in the picture.
#[derive(Clone, Copy)]
pub(crate) struct Lane {
    pub(crate) name: Name,
    pub(crate) number: usize,
    pub(crate) row: u16,
}

/// The value of a name of this number in a scan.
pub(crate) fn value_at(moment: &Moment, number: usize) -> u16
    ensures { result ≡ value_at moment.entry.now number }
{
    match moment.values.as_slice().get(number) {
        Some(value) => *value,
        None => 0,
    }
}

// The values of a name in scans side by side.
fn spans_of(alloc: Global, scans: &[Scan<'_>], number: usize) -> Result<Vec<Span>, Memory>
    ensures { IfOk result (λ spans. spans.items ≡ map (span_of number) scans.now) }
{
    let mut spans = Vec::new(alloc);
    for scan in scans {
        spans.push(Span {
            value: value_at(scan.moment, number),
            x: scan.x,
            end: scan.end,
        })?;
    }
    Ok(spans)
}

// The bands of an instance, by its codes in scans side by side.
fn add_bands(page: &mut Page, alloc: Global, app: &App, lane: &Lane, spans: &[Span])
    ensures { Adds page.old page.new (flat_map (band_of app.now lane.now) spans.now) }
{
    for span in spans {
        let mut words = Bytes::new(alloc);
        match add_value(&mut words, app, lane.name, span.value) {
            Ok(()) => add_band(page, lane.row, span, words.as_slice()),
            Err(Memory) => page.spoil(),
        }
    }
}

// What a name is in scans side by side: of an instance bands of its states, of all else a line that is high for TRUE.
fn add_values(page: &mut Page, alloc: Global, app: &App, lane: &Lane, spans: &[Span])
    ensures { Adds page.old page.new (values_of app.now lane.now spans.now lane.now.name) }
{
    match lane.name {
        Name::Code(_) => match merged(alloc, spans) {
            Ok(spans) => add_bands(page, alloc, app, lane, spans.as_slice()),
            Err(Memory) => page.spoil(),
        },
        Name::Signal(_) => add_level(page, alloc, lane.row, spans),
        Name::Pin { .. } => add_level(page, alloc, lane.row, spans),
    }
}

/// The line of a name over scans, with the name before it.
pub(crate) fn add_lane(page: &mut Page, alloc: Global, app: &App, lane: &Lane, scans: &[Scan<'_>])
    ensures { Adds page.old page.new (lane_pieces app.now scans.now lane.now) }
{
    let mut words = Bytes::new(alloc);
    match add_name(&mut words, app, lane.name) {
        Ok(()) => add_row_name(page, lane.row, words.as_slice()),
        Err(Memory) => page.spoil(),
    }
    match spans_of(alloc, scans, lane.number) {
        Ok(spans) => add_values(page, alloc, app, lane, spans.as_slice()),
        Err(Memory) => page.spoil(),
    }
}

/// An upright line of this class from the top to a bottom.
pub(crate) fn add_upright_path(page: &mut Page, alloc: Global, class: &[u8], x: u32, bottom: u32)
    ensures { Adds page.old page.new (upright_pieces class.now x bottom) }
{
    let mut lines = Bytes::new(alloc);
    match add_upright(&mut lines, x, TOP - 4, bottom) {
        Ok(()) => add_path(page, class, lines.as_slice()),
        Err(Memory) => page.spoil(),
    }
}

/// What happens to the world at a scan, in words; nothing where it runs on.
pub(crate) fn event_of(moment: &Moment) -> &'static [u8]
    ensures { result.now ≡ event_of moment.entry.now }
{
    match moment.course {
        Course::Trips => b"TRIP",
        Course::Down => b"down",
        Course::Runs => { if moment.restarted { b"restart" } else { b"" } }
    }
}
