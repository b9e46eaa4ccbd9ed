// The lanes of a picture: a value in scans side by side.

ghost use Rattle.std.specs.Prelude.{◌≡◌, ◌∷◌, ◌++◌, List, Some, IfOk, OnOk, decimal, codes};
ghost use Rattle.ps_text.specs.Lanes.{height, line_text, merged, merged_from, onward, start_text, step_text};
ghost use Rattle.ps_text.specs.declared.lanes.Span.{Span as SpanOf};

use itoa::Buffer;
use ps_base::{Bytes, Memory};
use std::alloc::Global;

/// A value in a scan of a picture, or in several side by side, with their left and right side.
#[derive(Clone, Copy)]
pub struct Span {
    pub value: u16,
    pub x: u32,
    pub end: u32,
}

// One more span after those that are done, and one that may go on: the one that may go on then.
fn go_on(list: &mut Vec<Span>, last: Option<Span>, span: Span) -> Result<Span, Memory>
    ensures { IfOk result (λ next. (rest : List SpanOf) →
        list.new.items ++ merged_from (Some next) rest
        ≡ list.old.items ++ merged_from last (span ∷ rest)) }
{
    let before = match last {
        Some(before) => before,
        None => return Ok(span),
    };
    if before.value == span.value {
        return Ok(Span {
            value: before.value,
            x: before.x,
            end: span.end,
        });
    }
    list.push(before)?;
    Ok(span)
}

/// Spans side by side, of which those that follow one another with the same value are one.
pub fn merged(alloc: Global, spans: &[Span]) -> Result<Vec<Span>, Memory>
    ensures { IfOk result (λ list. list.items ≡ merged spans.now) }
{
    let mut list = Vec::new(alloc);
    let mut last: Option<Span> = None;
    for span in spans {
        last = Some(go_on(&mut list, last, *span)?);
    }
    if let Some(last) = last {
        list.push(last)?;
    }
    Ok(list)
}

/// A step of lines: a letter and a number.
pub fn add_step(lines: &mut Bytes, letter: &[u8], number: u32) -> Result<(), Memory>
    ensures { OnOk result (lines.new ≡ lines.old ++ step_text letter.now number) }
{
    let mut digits = Buffer::new();
    lines.extend_from_slice(letter)?;
    lines.extend_from_slice(digits.format(number).as_bytes())
}

// How high the line of a value is: one height for TRUE, and one for FALSE.
fn height(high: u32, low: u32, value: u16) -> u32
    ensures { result ≡ height high low value }
{
    if value == 0 { low } else { high }
}

/// The beginning of a line at a place.
pub fn add_start(lines: &mut Bytes, x: u32, y: u32) -> Result<(), Memory>
    ensures { OnOk result (lines.new ≡ lines.old ++ start_text x y) }
{
    add_step(lines, b"M", x)?;
    add_step(lines, b" ", y)
}

// A line goes to the height of a span, and along it.
fn add_onward(lines: &mut Bytes, high: u32, low: u32, span: &Span) -> Result<(), Memory>
    ensures { OnOk result (lines.new ≡ lines.old ++ onward high low span.now) }
{
    add_step(lines, b"V", height(high, low, span.value))?;
    add_step(lines, b"H", span.end)
}

/// The line of a signal over spans side by side: along each of them it has the height of its value.
pub fn line_of(alloc: Global, spans: &[Span], high: u32, low: u32) -> Result<Bytes, Memory>
    ensures { IfOk result (λ lines. lines ≡ line_text high low spans.now) }
{
    let mut lines = Bytes::new(alloc);
    if let Some(first) = spans.first() {
        add_start(&mut lines, first.x, height(high, low, first.value))?;
    }
    for span in spans {
        add_onward(&mut lines, high, low, span)?;
    }
    Ok(lines)
}
