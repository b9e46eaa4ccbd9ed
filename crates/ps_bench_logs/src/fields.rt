// The fields of a line, where they stand.

ghost use Rattle.std.specs.Prelude.{◌≡◌, ◌≤◌, ◌<◌, ◌+◌, ◌-◌, ℕ, List, length, drop, take, slice_set, IfSome, IfNone, IfOk};
ghost use Rattle.ps_bench_logs.specs.Fields.{fields_from, fields_of};
ghost use Rattle.ps_bench_logs.specs.Fields.Place.{begins, plain, quoted};
ghost use Rattle.ps_bench_logs.specs.Spans.{IsCut, IsFieldFrom, Steps, part_at, part_of};

use ps_base::Memory;
use std::alloc::Global;

/// Where a field stands in its line, without the quotation marks around it.
#[derive(Clone, Copy)]
pub(crate) struct Span {
    /// Its first byte.
    pub(crate) from: usize,
    /// How many bytes it has.
    pub(crate) size: usize,
}

// No byte.
const NOWHERE: Span = Span { from: 0, size: 0 };

// A field, and where it ends: at a comma, or at the end of its line.
#[derive(Clone, Copy)]
struct Field {
    span: Span,
    end: usize,
}

// What stands next between quotation marks.
#[derive(Clone, Copy)]
enum Step {
    // One byte of the field, which takes so many.
    Byte(usize),
    // The mark that closes the field.
    Close,
    // None of these.
    Broken,
}

// What the bytes begin with, between quotation marks.
fn quoted_step(bytes: &[u8]) -> Step
    ensures { Steps bytes.now result }
{
    if bytes.is_empty() {
        Step::Broken
    } else if bytes[0] != b'"' {
        Step::Byte(1)
    } else if bytes.len() == 1 || bytes[1] == b',' {
        Step::Close
    } else if bytes[1] == b'"' {
        Step::Byte(2)
    } else {
        Step::Broken
    }
}

// The field between quotation marks whose first byte stands at a place.
fn quoted_field(line: &[u8], at: usize) -> Option<Field>
    requires { at ≤ length line.now }
    ensures found { IfSome result (λ field. IsFieldFrom quoted line.now at field) }
    ensures none { IfNone result (fields_from quoted (drop at line.now) ≡ None) }
{
    let mut end = at;
    'steps: loop {
        match quoted_step(&line[end..]) {
            Step::Byte(size) => end += size,
            Step::Close => {
                let span = Span {
                    from: at,
                    size: end - at,
                };
                return Some(Field { span, end: end + 1 });
            }
            Step::Broken => return None,
        }
    }
}

// The field without quotation marks whose first byte stands at a place.
fn plain_field(line: &[u8], at: usize) -> Option<Field>
    requires { at ≤ length line.now }
    ensures found { IfSome result (λ field. IsFieldFrom plain line.now at field) }
    ensures none { IfNone result (fields_from plain (drop at line.now) ≡ None) }
{
    let mut end = at;
    'bytes: while end < line.len() && line[end] != b',' {
        if line[end] == b'"' {
            return None;
        }
        end += 1;
    }
    let span = Span {
        from: at,
        size: end - at,
    };
    Some(Field { span, end })
}

// The field that begins at a place.
fn field_at(line: &[u8], at: usize) -> Option<Field>
    requires { at ≤ length line.now }
    ensures found { IfSome result (λ field. IsFieldFrom begins line.now at field) }
    ensures none { IfNone result (fields_from begins (drop at line.now) ≡ None) }
{
    if at < line.len() && line[at] == b'"' {
        quoted_field(line, at + 1)
    } else {
        plain_field(line, at)
    }
}

// Puts a span in its place, if there is one.
fn put(spans: &mut [Span], place: usize, span: Span)
    ensures { spans.new ≡ slice_set spans.old place span }
{
    if place < spans.len() {
        spans[place] = span;
    }
}

/// How many fields a line has, each of which is put in its place as long as there is room. None: the line has not the
/// form of RFC 4180. It takes no memory.
pub(crate) fn cut(line: &[u8], spans: &mut [Span]) -> Option<usize>
    ensures cut { IfSome result (λ count. (fields : List (List ℕ)) × IsCut line.now spans.new count fields) }
    ensures none { IfNone result (fields_of line.now ≡ None) }
    ensures size { length spans.new ≡ length spans.old }
{
    let mut count = 0;
    let mut at = 0;
    'fields: loop {
        let field = field_at(line, at)?;
        put(spans, count, field.span);
        count += 1;
        if field.end == line.len() {
            return Some(count);
        }
        at = field.end + 1;
    }
}

/// Where the fields of a line stand, all of them. None: the line has not the form of RFC 4180.
pub(crate) fn cut_all(alloc: Global, line: &[u8]) -> Result<Option<Vec<Span>>, Memory>
    ensures cut { IfOk result (λ found. IfSome found (λ spans.
        (fields : List (List ℕ)) × IsCut line.now spans.items (length spans.items) fields)) }
    ensures none { IfOk result (λ found. IfNone found (fields_of line.now ≡ None)) }
{
    let Some(count) = cut(line, &mut []) else {
        return Ok(None);
    };
    let mut spans = vec![in alloc; NOWHERE; count]?;
    match cut(line, &mut spans) {
        Some(_) => Ok(Some(spans)),
        None => Ok(None),
    }
}

/// The bytes of a line at a span.
pub(crate) fn part_of(line: &[u8], span: Span) -> &[u8]
    ensures { result.now ≡ part_of line.now span }
{
    let rest = &line[span.from.min(line.len())..];
    &rest[..span.size.min(rest.len())]
}

/// The bytes of the field of this number, and none where there is none.
pub(crate) fn part_at<'a>(line: &'a [u8], spans: &[Span], k: usize) -> &'a [u8]
    ensures { result.now ≡ part_at line.now spans.now k }
{
    part_of(line, spans.get(k).copied().unwrap_or(NOWHERE))
}
