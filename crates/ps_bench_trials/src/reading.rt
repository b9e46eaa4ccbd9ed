// The counts of trials, read from the lines that tell them.

ghost use Rattle.std.specs.Prelude.{◌≡◌, ◌≤◌, ◌<◌, IfOk, IfSome, IsTrue, false, length, true};
ghost use Rattle.ps_bench_trials.specs.Plain.{ArePlain, IsPlain, of_count};
ghost use Rattle.ps_bench_trials.specs.Possible.{is_possible};
ghost use Rattle.ps_bench_trials.specs.Telling.{is_of_trips, tally_text};

use crate::possible::is_possible;
use crate::tally::Tally;
use crate::telling::{add_tally, channel_text, is_of_trips, outcome_text, region_text};
use crate::{FLOORS, Line};
use ps_base::{Bytes, Memory};
use std::alloc::Global;

// Something that was read at the beginning of a text, and what stands after it.
#[derive(Clone, Copy)]
struct Read<'a, T> {
    what: T,
    rest: &'a [u8],
}

// How many digits stand at the beginning of a text.
fn digit_count(text: &[u8]) -> usize
    ensures { result ≤ length text.now }
{
    match text.iter().position(|byte| !byte.is_ascii_digit()) {
        Some(place) => place,
        None => text.len(),
    }
}

// The number that digits mean, up to the largest.
fn number_of(digits: &[u8]) -> u64 {
    let mut number = 0u64;
    for digit in digits {
        number = number
            .saturating_mul(10)
            .saturating_add(u64::from(digit.saturating_sub(b'0')));
    }
    number
}

// A number.
fn read_number(text: &[u8]) -> Read<'_, u64> {
    let (digits, rest) = text.split_at(digit_count(text));
    Read {
        what: number_of(digits),
        rest,
    }
}

// What stands after a blank, a least latency and a colon.
fn behind_floor(text: &[u8], floor: u32) -> Option<&[u8]> {
    let said = read_number(text.strip_prefix(b" ")?);
    if said.what != u64::from(floor) {
        return None;
    }
    said.rest.strip_prefix(b":")
}

// The count of a column, 0 where its least latency does not stand there.
fn read_column(text: &[u8], floor: u32) -> Read<'_, u64> {
    match behind_floor(text, floor) {
        Some(text) => read_number(text),
        None => Read {
            what: 0,
            rest: text,
        },
    }
}

// The counts of all columns.
fn read_table(text: &[u8]) -> Read<'_, [u64; 33]> {
    let mut table = [0; 33];
    let mut rest = text;
    for column in 0..33 {
        let count = read_column(rest, FLOORS[column]);
        table[column] = count.what;
        rest = count.rest;
    }
    Read { what: table, rest }
}

// The latencies of a line of so many trips.
fn read_latencies(text: &[u8], count: u64) -> Option<Read<'_, Line>> {
    let sum = read_number(text.strip_prefix(b" sum ")?);
    let largest = read_number(sum.rest.strip_prefix(b" largest ")?);
    let table = read_table(largest.rest.strip_prefix(b" table")?);
    let line = Line {
        count,
        sum: sum.what,
        largest: u32::try_from(largest.what).ok()?,
        table: table.what,
    };
    Some(Read {
        what: line,
        rest: table.rest,
    })
}

// What stands after the name of the line of a place.
fn behind_name(text: &[u8], place: usize) -> Option<&[u8]> {
    let text = text.strip_prefix(channel_text(place).as_bytes())?;
    let text = text.strip_prefix(region_text(place).as_bytes())?;
    text.strip_prefix(outcome_text(place).as_bytes())
}

// The line of a place, without its end.
fn read_counts(text: &[u8], place: usize) -> Option<Read<'_, Line>>
    ensures { IfSome result (λ read. is_of_trips place ≡ false → read.what ≡ of_count read.what.count) }
{
    let count = read_number(behind_name(text, place)?);
    if is_of_trips(place) {
        return read_latencies(count.rest, count.what);
    }
    Some(Read {
        what: Line {
            count: count.what,
            ..Line::NONE
        },
        rest: count.rest,
    })
}

// Whether a line of a place is one that trials can have: of trips some have its latencies.
fn can_be(line: &Line, place: usize) -> bool
    ensures { IsTrue result → is_of_trips place ≡ true → is_possible line.now ≡ true }
{
    !is_of_trips(place) || is_possible(line)
}

// The line of a place, which has a trial; none where no such line stands there, or none that trials can have.
fn read_line(text: &[u8], place: usize) -> Option<Read<'_, Line>>
    ensures { IfSome result (λ read. IsPlain read.what place) }
{
    let counts = read_counts(text, place)?;
    if counts.what.count == 0 || !can_be(&counts.what, place) {
        return None;
    }
    let rest = counts.rest.strip_prefix(b"\n")?;
    Some(Read {
        what: counts.what,
        rest,
    })
}

// Puts the line of a place, where it stands at the beginning of a text, and says what stands after it.
fn put_line<'a>(tally: &mut Tally, place: usize, text: &'a [u8]) -> &'a [u8]
    requires { place < 24 }
    ensures { ArePlain tally.old → ArePlain tally.new }
{
    match read_line(text, place) {
        Some(line) => {
            tally.put(place, line.what);
            line.rest
        }
        None => text,
    }
}

/// The counts that lines seem to tell: a line that stands where it may not is passed over, with all after it.
pub fn seeming_tally(alloc: Global, text: &[u8]) -> Result<Tally, Memory>
    ensures { IfOk result ArePlain }
{
    let mut tally = Tally::new(alloc)?;
    let mut rest = text;
    for place in 0..24 {
        rest = put_line(&mut tally, place, rest);
    }
    Ok(tally)
}

/// The counts that a text tells, as `add_tally` writes them. None: it is another text.
pub fn read_tally(alloc: Global, text: &[u8]) -> Result<Option<Tally>, Memory>
    ensures told { IfOk result (λ read. IfSome read (λ tally. text.now ≡ tally_text tally)) }
    ensures plain { IfOk result (λ read. IfSome read ArePlain) }
{
    let tally = seeming_tally(alloc, text)?;
    let mut told = Bytes::new(alloc);
    add_tally(&mut told, &tally)?;
    if told.as_slice() == text {
        Ok(Some(tally))
    } else {
        Ok(None)
    }
}
