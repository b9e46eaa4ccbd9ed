// Where the header of a log names its columns.

ghost use Rattle.std.specs.Prelude.{◌≡◌, ◌<◌, ℕ, List, [], ◌∷◌, codes, length, IfErr, OnOk, Some};
ghost use Rattle.std.specs.List.{list_any, range_with_len};
ghost use Rattle.ps_model.specs.Network.{input_count};
ghost use Rattle.ps_bench_logs.specs.Header.{has_mark, is_named, names_column};
ghost use Rattle.ps_bench_logs.specs.Spans.{found_by, input_flaws, input_places, parts_named, parts_said, part_of, placed, time_part};
ghost use Rattle.ps_bench_logs.specs.declared.flaw.Flaw.{Flaw as FlawOf};

use crate::fields::{Span, part_at, part_of};
use crate::flaw::{Column, Flaw};
use ps_model::App;

// Whether there is a quotation mark among bytes.
fn has_mark(bytes: &[u8]) -> bool
    ensures { result ≡ has_mark bytes.now }
{
    bytes.iter().any(|b| *b == b'"')
}

// Whether a field of the header is a name, without letter case.
fn is_named(name: &[u8], field: &[u8]) -> bool
    ensures { result ≡ is_named name.now field.now }
{
    !has_mark(field) && field.eq_ignore_ascii_case(name)
}

// Whether a header has a column `@time`.
fn has_own_time(line: &[u8], spans: &[Span]) -> bool
    ensures { result ≡ list_any (λ span. is_named (codes "@time") (part_of line.now span)) spans.now }
{
    spans
        .iter()
        .any(|span| is_named(b"@time", part_of(line, *span)))
}

// What the column of the time is called.
fn time_name(line: &[u8], spans: &[Span]) -> &'static [u8]
    ensures { result.now ≡ time_part line.now spans.now }
{
    if has_own_time(line, spans) {
        b"@time"
    } else {
        b"time"
    }
}

// Whether a field of the header names a column, where that of the time is called so.
fn names_column(app: &App, time: &[u8], column: Column, field: &[u8]) -> bool
    requires { (i : ℕ) → column ≡ Column.Input i → i < input_count app.now }
    ensures { result ≡ names_column app.now time.now column field.now }
{
    match column {
        Column::Time => is_named(time, field),
        Column::Restart => is_named(b"@restart", field),
        Column::Input(i) => is_named(app.signal_name(i).as_bytes(), field)
            && !is_named(time, field),
    }
}

// What comes of a column that no field names.
fn missing(column: Column) -> Result<Option<usize>, Flaw>
    ensures { result ≡ placed column [] }
{
    match column {
        Column::Restart => Ok(None),
        Column::Time | Column::Input(_) => Err(Flaw::V2(column)),
    }
}

// Where the field of the header stands that names a column, or what is wrong with it.
fn place_of(
    app: &App,
    time: &[u8],
    line: &[u8],
    spans: &[Span],
    column: Column,
) -> Result<Option<usize>, Flaw>
    requires { (i : ℕ) → column ≡ Column.Input i → i < input_count app.now }
    ensures { result ≡ placed column (parts_named app.now time.now line.now spans.now column) }
{
    let mut place = None;
    for k in 0..spans.len() {
        if names_column(app, time, column, part_at(line, spans, k)) {
            if place.is_some() {
                return Err(Flaw::V1);
            }
            place = Some(k);
        }
    }
    match place {
        Some(k) => Ok(Some(k)),
        None => missing(column),
    }
}

// Finds where the fields stand that name inputs. An error: what is wrong with the first one that is not found.
fn find_inputs(
    app: &App,
    time: &[u8],
    line: &[u8],
    spans: &[Span],
    places: &mut [usize],
) -> Result<(), Flaw>
    requires { length places.old ≡ input_count app.now }
    ensures flaw { IfErr result (λ flaw. (more : List FlawOf)
        × (input_flaws (parts_named app.now time.now line.now spans.now) (range_with_len 0 (input_count app.now)) ≡ flaw ∷ more)) }
    ensures none { OnOk result (input_flaws (parts_named app.now time.now line.now spans.now) (range_with_len 0 (input_count app.now)) ≡ []) }
    ensures places { OnOk result
        (places.new ≡ input_places (parts_named app.now time.now line.now spans.now) (range_with_len 0 (input_count app.now))) }
{
    for i in 0..app.input_count() {
        match place_of(app, time, line, spans, Column::Input(i)) {
            Ok(place) => places[i as usize] = place.unwrap_or(0),
            Err(flaw) => return Err(flaw),
        }
    }
    Ok(())
}

/// The places of the time and of restarts, where all columns are found; those of the inputs are put aside.
pub(crate) fn find_columns(
    app: &App,
    line: &[u8],
    spans: &[Span],
    inputs: &mut [usize],
) -> Result<(usize, Option<usize>), Flaw>
    requires { length inputs.old ≡ input_count app.now }
    ensures { parts_said app.now line.now spans.now ≡ found_by (length spans.now) inputs.new result }
{
    let name = time_name(line, spans);
    let time = match place_of(app, name, line, spans, Column::Time) {
        Ok(place) => place.unwrap_or(0),
        Err(flaw) => return Err(flaw),
    };
    let restart = match place_of(app, name, line, spans, Column::Restart) {
        Ok(place) => place,
        Err(flaw) => return Err(flaw),
    };
    match find_inputs(app, name, line, spans, inputs) {
        Ok(()) => Ok((time, restart)),
        Err(flaw) => Err(flaw),
    }
}
