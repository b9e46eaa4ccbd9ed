// The whole text of what is told.

ghost use Rattle.std.specs.Prelude.{◌≡◌, ◌<◌, ◌++◌, IfOk, OnOk, Some, codes, decimal, drop, length, slice_get};
ghost use Rattle.std.specs.List.{flat_map, range_with_len};
ghost use Rattle.ps_bench_why.specs.Because.{IsToldAs, behind_text, head_text, indent_text, indents, json_behind, json_fact};
ghost use Rattle.ps_bench_why.specs.Because.{json_head, json_place, json_text, line_text, numbers_text, place_text};
ghost use Rattle.ps_bench_why.specs.Because.{reasons_text, told_at, tree_text};
ghost use Rattle.ps_bench_why.specs.Moments.{moment_of};

use crate::facts::{add_fact, add_number};
use crate::lines::lines_of;
use ps_base::{Bytes, Memory, Place};
use ps_cover::Format;
use ps_why::{Explanation, Fact, Line, Moment, Reasons};
use std::alloc::Global;

// How far a line is indented: at most as far as below forty others.
fn indents(depth: u32) -> u32
    ensures { result ≡ indents depth }
{
    if depth > 40 { 40 } else { depth }
}

// Puts the blanks before a line.
fn add_indent(text: &mut Bytes, depth: u32) -> Result<(), Memory>
    ensures { OnOk result (text.new ≡ text.old ++ indent_text depth) }
{
    let count = indents(depth);
    for n in 0..count {
        let _ = n;
        text.extend_from_slice(b"  ")?;
    }
    Ok(())
}

// Puts a fact by its number, if there is one.
fn add_told(text: &mut Bytes, m: &Moment<'_>, facts: &[Fact], n: u32) -> Result<(), Memory>
    ensures { OnOk result (text.new ≡ text.old ++ told_at (moment_of m.entry.now) (slice_get facts.now n)) }
{
    if (n as usize) < facts.len() {
        add_fact(text, m, facts[n as usize])?;
    }
    Ok(())
}

// Where the step stands that makes a fact, if one does.
fn place_at(places: &[Option<Place>], n: u32) -> Option<Place>
    ensures text { place_text (Some result) ≡ place_text (slice_get places.now n) }
    ensures json { json_place (Some result) ≡ json_place (slice_get places.now n) }
{
    if (n as usize) < places.len() {
        places[n as usize]
    } else {
        None
    }
}

// Puts where a step stands, if there is one.
fn add_place(text: &mut Bytes, place: Option<Place>) -> Result<(), Memory>
    ensures { OnOk result (text.new ≡ text.old ++ place_text (Some place)) }
{
    let Some(at) = place else {
        return Ok(());
    };
    text.extend_from_slice(b" (")?;
    add_number(text, at.line)?;
    text.extend_from_slice(b":")?;
    add_number(text, at.column)?;
    text.extend_from_slice(b")")
}

// Puts a line of the tree.
fn add_line(
    text: &mut Bytes,
    m: &Moment<'_>,
    facts: &[Fact],
    places: &[Option<Place>],
    line: Line,
) -> Result<(), Memory>
    ensures { OnOk result (text.new ≡ text.old ++ line_text (moment_of m.entry.now) facts.now places.now line) }
{
    add_indent(text, line.depth)?;
    add_told(text, m, facts, line.fact)?;
    add_place(text, place_at(places, line.fact))?;
    text.extend_from_slice(b"\n")
}

// Puts these lines.
fn add_lines(
    text: &mut Bytes,
    m: &Moment<'_>,
    facts: &[Fact],
    places: &[Option<Place>],
    lines: &[Line],
) -> Result<(), Memory>
    ensures { OnOk result (text.new ≡ text.old
        ++ flat_map (line_text (moment_of m.entry.now) facts.now places.now) lines.now) }
{
    for line in lines {
        add_line(text, m, facts, places, *line)?;
    }
    Ok(())
}

// Puts which scan stands before, and the end of the line.
fn add_behind(text: &mut Bytes, before: Option<u32>) -> Result<(), Memory>
    ensures { OnOk result (text.new ≡ text.old ++ behind_text before) }
{
    match before {
        Some(ms) => {
            text.extend_from_slice(b", behind the scan at ")?;
            add_number(text, ms)?;
            text.extend_from_slice(b":\n")
        }
        None => text.extend_from_slice(b", the first scan:\n"),
    }
}

// Puts which scan is meant.
fn add_head(text: &mut Bytes, m: &Moment<'_>) -> Result<(), Memory>
    ensures { OnOk result (text.new ≡ text.old ++ head_text (moment_of m.entry.now)) }
{
    text.extend_from_slice(b"At ")?;
    add_number(text, m.now)?;
    add_behind(text, m.before)
}

// The tree of an explanation.
fn tree(
    alloc: Global,
    m: &Moment<'_>,
    explanation: &Explanation,
    places: &[Option<Place>],
) -> Result<Bytes, Memory>
    ensures { IfOk result (λ text. IsToldAs (moment_of m.entry.now) explanation.now places.now Format.Text text) }
{
    let lines = lines_of(alloc, explanation)?;
    let mut text = Bytes::new(alloc);
    add_head(&mut text, m)?;
    let facts = explanation.facts.as_slice();
    add_lines(&mut text, m, facts, places, lines.as_slice())?;
    Ok(text)
}

// Puts the time of the scan before in JSON.
fn add_json_behind(text: &mut Bytes, before: Option<u32>) -> Result<(), Memory>
    ensures { OnOk result (text.new ≡ text.old ++ json_behind before) }
{
    match before {
        Some(ms) => add_number(text, ms),
        None => text.extend_from_slice(b"null"),
    }
}

// Puts which scan is meant in JSON.
fn add_json_head(text: &mut Bytes, m: &Moment<'_>) -> Result<(), Memory>
    ensures { OnOk result (text.new ≡ text.old ++ json_head (moment_of m.entry.now)) }
{
    text.extend_from_slice(b"{\"at\":")?;
    add_number(text, m.now)?;
    text.extend_from_slice(b",\"before\":")?;
    add_json_behind(text, m.before)?;
    text.extend_from_slice(b"}\n")
}

// Puts a comma and a number.
fn add_next(text: &mut Bytes, n: u32) -> Result<(), Memory>
    ensures { OnOk result (text.new ≡ text.old ++ (codes "," ++ decimal n)) }
{
    text.extend_from_slice(b",")?;
    add_number(text, n)
}

// Puts numbers, each after a comma.
fn add_others(text: &mut Bytes, numbers: &[u32]) -> Result<(), Memory>
    ensures { OnOk result (text.new ≡ text.old ++ flat_map (λ v. codes "," ++ decimal v) numbers.now) }
{
    for n in numbers {
        add_next(text, *n)?;
    }
    Ok(())
}

// Puts numbers with commas between them.
fn add_numbers(text: &mut Bytes, numbers: &[u32]) -> Result<(), Memory>
    ensures { OnOk result (text.new ≡ text.old ++ numbers_text numbers.now) }
{
    if numbers.is_empty() {
        return Ok(());
    }
    add_number(text, numbers[0])?;
    add_others(text, &numbers[1..])
}

// Puts the numbers of the reasons of a fact.
fn add_reasons(text: &mut Bytes, reasons: &[Reasons], n: usize) -> Result<(), Memory>
    ensures { OnOk result (text.new ≡ text.old ++ reasons_text (slice_get reasons.now n)) }
{
    if n < reasons.len() {
        add_numbers(text, reasons[n].facts.as_slice())?;
    }
    Ok(())
}

// Puts where a step stands in JSON, if there is one.
fn add_json_place(text: &mut Bytes, place: Option<Place>) -> Result<(), Memory>
    ensures { OnOk result (text.new ≡ text.old ++ json_place (Some place)) }
{
    let Some(at) = place else {
        return Ok(());
    };
    text.extend_from_slice(b",\"line\":")?;
    add_number(text, at.line)?;
    text.extend_from_slice(b",\"column\":")?;
    add_number(text, at.column)
}

// Puts a fact in JSON.
fn add_json_fact(
    text: &mut Bytes,
    m: &Moment<'_>,
    explanation: &Explanation,
    places: &[Option<Place>],
    n: u32,
) -> Result<(), Memory>
    ensures { OnOk result (text.new ≡ text.old
        ++ json_fact (moment_of m.entry.now) explanation.now places.now n) }
{
    text.extend_from_slice(b"{\"fact\":")?;
    add_number(text, n)?;
    text.extend_from_slice(b",\"told\":\"")?;
    add_told(text, m, explanation.facts.as_slice(), n)?;
    text.extend_from_slice(b"\"")?;
    add_json_place(text, place_at(places, n))?;
    text.extend_from_slice(b",\"because\":[")?;
    add_reasons(text, explanation.reasons.as_slice(), n as usize)?;
    text.extend_from_slice(b"]}\n")
}

// An explanation in JSON.
fn json(
    alloc: Global,
    m: &Moment<'_>,
    explanation: &Explanation,
    places: &[Option<Place>],
) -> Result<Bytes, Memory>
    ensures { IfOk result (λ text. text ≡ json_text (moment_of m.entry.now) explanation.now places.now) }
{
    let Ok(count) = u32::try_from(explanation.facts.len()) else {
        return Err(Memory);
    };
    let mut text = Bytes::new(alloc);
    add_json_head(&mut text, m)?;
    for n in 0..count {
        add_json_fact(&mut text, m, explanation, places, n)?;
    }
    Ok(text)
}

/// What is told of an explanation, with the places in the source of the steps that make its facts, if one does: in text
/// as a tree in which each fact stands once, below one of which it is a reason; in JSON an object a line for each fact,
/// with the numbers of its reasons, after one that says which scan is meant. `Err` comes only if memory runs out.
pub fn because(
    alloc: Global,
    moment: &Moment<'_>,
    explanation: &Explanation,
    places: &[Option<Place>],
    format: Format,
) -> Result<Bytes, Memory>
    ensures { IfOk result (IsToldAs (moment_of moment.entry.now) explanation.now places.now format) }
{
    match format {
        Format::Text => tree(alloc, moment, explanation, places),
        Format::Json => json(alloc, moment, explanation, places),
    }
}
