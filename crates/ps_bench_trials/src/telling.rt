// The lines as text.

ghost use Rattle.std.specs.Prelude.{◌≡◌, ◌<◌, ◌++◌, OnOk, decimal, length, slice_index_or};
ghost use Rattle.ps_bench_trials.specs.Lines.{no_trial};
ghost use Rattle.ps_bench_trials.specs.Telling.{channel_text, column_text, columns_text, counts_text, is_of_trips};
ghost use Rattle.ps_bench_trials.specs.Telling.{latencies_text, line_text, name_text, outcome_text, region_text, tally_text};

use crate::tally::Tally;
use crate::{FLOORS, Line};
use itoa::Buffer;
use ps_base::{Bytes, Memory};

/// A number in decimal digits, at the end of a text.
pub fn add_number(text: &mut Bytes, number: u64) -> Result<(), Memory>
    ensures { OnOk result (text.new ≡ text.old ++ decimal number) }
{
    let mut digits = Buffer::new();
    text.extend_from_slice(digits.format(number).as_bytes())
}

// A word and a number after it.
fn add_worded(text: &mut Bytes, word: &[u8], number: u64) -> Result<(), Memory>
    ensures { OnOk result (text.new ≡ text.old ++ word.now ++ decimal number) }
{
    text.extend_from_slice(word)?;
    add_number(text, number)
}

// A column of a table; nothing where no trip is of it.
fn add_column(text: &mut Bytes, table: &[u64; 33], column: usize) -> Result<(), Memory>
    requires { column < 33 }
    ensures { OnOk result (text.new ≡ text.old ++ column_text table.now column) }
{
    let count = table[column];
    if count == 0 {
        return Ok(());
    }
    add_worded(text, b" ", u64::from(FLOORS[column]))?;
    add_worded(text, b":", count)
}

// The columns of a table.
fn add_columns(text: &mut Bytes, table: &[u64; 33]) -> Result<(), Memory>
    ensures { OnOk result (text.new ≡ text.old ++ columns_text table.now) }
{
    for column in 0..33 {
        add_column(text, table, column)?;
    }
    Ok(())
}

// The latencies of the trips of a line.
#[tactic(auto, unfolding(crate::specs::Telling::latencies_text))]
fn add_latencies(text: &mut Bytes, line: &Line) -> Result<(), Memory>
    ensures { OnOk result (text.new ≡ text.old ++ latencies_text line.now) }
{
    add_worded(text, b" sum ", line.sum)?;
    add_worded(text, b" largest ", u64::from(line.largest))?;
    text.extend_from_slice(b" table")?;
    add_columns(text, &line.table)
}

// Whether the line of a place counts trips.
pub(crate) fn is_of_trips(place: usize) -> bool
    ensures { result ≡ is_of_trips place }
{
    0 < place % 6 && place % 6 < 5
}

// The latencies of a line whose place is of trips; nothing of any other.
fn add_counts(text: &mut Bytes, line: &Line, place: usize) -> Result<(), Memory>
    ensures { OnOk result (text.new ≡ text.old ++ counts_text line.now place) }
{
    if is_of_trips(place) {
        add_latencies(text, line)
    } else {
        Ok(())
    }
}

// The word of a channel, by the place of a line.
pub(crate) fn channel_text(place: usize) -> &'static str
    ensures { result.now ≡ channel_text place }
{
    if place < 12 { "A " } else { "B " }
}

// The word of a region.
pub(crate) fn region_text(place: usize) -> &'static str
    ensures { result.now ≡ region_text place }
{
    if place % 12 < 6 { "code " } else { "memory " }
}

// The word of an outcome.
pub(crate) fn outcome_text(place: usize) -> &'static str
    ensures { result.now ≡ outcome_text place }
{
    match place % 6 {
        0 => "silent ",
        1 => "differ ",
        2 => "stuck ",
        3 => "trap ",
        4 => "report ",
        _ => "wrong ",
    }
}

// What a line is called.
#[tactic(auto, unfolding(crate::specs::Telling::name_text))]
fn add_name(text: &mut Bytes, place: usize) -> Result<(), Memory>
    ensures { OnOk result (text.new ≡ text.old ++ name_text place) }
{
    text.extend_from_slice(channel_text(place).as_bytes())?;
    text.extend_from_slice(region_text(place).as_bytes())?;
    text.extend_from_slice(outcome_text(place).as_bytes())
}

// The line of a place; nothing where it has no trial.
#[tactic(auto, unfolding(crate::specs::Telling::line_text))]
fn add_line(text: &mut Bytes, line: &Line, place: usize) -> Result<(), Memory>
    ensures { OnOk result (text.new ≡ text.old ++ line_text line.now place) }
{
    if line.count == 0 {
        return Ok(());
    }
    add_name(text, place)?;
    add_number(text, line.count)?;
    add_counts(text, line, place)?;
    text.extend_from_slice(b"\n")
}

// The line of a place.
fn line_at(lines: &[Line], place: usize) -> &Line
    requires { place < length lines.now }
    ensures { result.now ≡ slice_index_or lines.now place no_trial }
{
    &lines[place]
}

// All lines, those that have no trial left out.
fn add_lines(text: &mut Bytes, lines: &[Line]) -> Result<(), Memory>
    requires { length lines.now ≡ 24 }
    ensures { OnOk result (text.new ≡ text.old ++ tally_text lines.now) }
{
    for place in 0..24 {
        add_line(text, line_at(lines, place), place)?;
    }
    Ok(())
}

/// The lines of a tally, those that have no trial left out.
pub fn add_tally(text: &mut Bytes, tally: &Tally) -> Result<(), Memory>
    ensures { OnOk result (text.new ≡ text.old ++ tally_text tally.now) }
{
    add_lines(text, tally.as_slice())
}
