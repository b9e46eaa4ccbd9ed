// The lines of what was never seen.

ghost use Rattle.std.specs.Prelude.{◌≡◌, ◌++◌, OnOk, Some, slice_get};
ghost use Rattle.ps_cover.specs.Covering.{point_of};
ghost use Rattle.ps_cover.specs.Lines.{called_name, decision_line, json_decided, json_entered, json_had, json_taken};
ghost use Rattle.ps_cover.specs.Lines.{made_line, mark_line, missed_decisions, missed_mark, missed_values};
ghost use Rattle.ps_cover.specs.Lines.{never_decided, never_entered, never_had, never_taken, signal_label};
ghost use Rattle.ps_cover.specs.Lines.{state_line, unless, value_line, way_line};

use crate::format::Format;
use crate::guard::add_guard;
use crate::pieces::{add_code, add_number};
use crate::said::{Said, add_said};
use crate::{Exclusions, Point, called_kind, is_missed, seen_with};
use ps_base::{Bytes, Memory, Place};
use ps_model::{App, Kind, Step};
use ps_ways::{Way, ways};

// Puts a state that a block of this name never entered.
fn add_state_line(
    text: &mut Bytes,
    format: Format,
    name: &str,
    kind: Kind,
    way: &Way,
) -> Result<(), Memory>
    ensures { OnOk result (text.new ≡ text.old ++ state_line format name.now kind (Some way.now)) }
{
    match format {
        Format::Text => add_said(
            text,
            &[
                Said::Words(b"  never: "),
                Said::State(kind, way.state),
                Said::Words(b"\n"),
            ],
        ),
        Format::Json => add_said(
            text,
            &[
                Said::Words(b"{\"never\":\"state\",\"instance\":\""),
                Said::Name(name),
                Said::Words(b"\",\"state\":\""),
                Said::Code(way.state),
                Said::Words(b"\"}\n"),
            ],
        ),
    }
}

// Puts a way that a block never took, for a person.
fn add_never_taken(text: &mut Bytes, kind: Kind, place: usize, way: &Way) -> Result<(), Memory>
    ensures { OnOk result (text.new ≡ text.old ++ never_taken kind place way.now) }
{
    add_said(
        text,
        &[
            Said::Words(b"  never: "),
            Said::Code(way.next),
            Said::Words(b" from "),
            Said::State(kind, way.state),
            Said::Words(b": "),
            Said::Guard(kind, place, way),
            Said::Words(b"\n"),
        ],
    )
}

// Puts a way that a block never took, in JSON.
fn add_json_taken(
    text: &mut Bytes,
    name: &str,
    kind: Kind,
    place: usize,
    way: &Way,
) -> Result<(), Memory>
    ensures { OnOk result (text.new ≡ text.old ++ json_taken name.now kind place way.now) }
{
    text.extend_from_slice(b"{\"never\":\"way\",\"instance\":\"")?;
    text.extend_from_slice(name.as_bytes())?;
    text.extend_from_slice(b"\",\"from\":\"")?;
    add_code(text, way.state)?;
    text.extend_from_slice(b"\",\"to\":\"")?;
    add_code(text, way.next)?;
    text.extend_from_slice(b"\",\"guard\":")?;
    add_number(text, u64::from(way.number))?;
    text.extend_from_slice(b",\"when\":\"")?;
    add_guard(text, kind, place, way)?;
    text.extend_from_slice(b"\"}\n")
}

// Puts a way that a block of this name never took.
fn add_way_line(
    text: &mut Bytes,
    format: Format,
    name: &str,
    kind: Kind,
    place: usize,
    way: &Way,
) -> Result<(), Memory>
    ensures { OnOk result (text.new ≡ text.old ++ way_line format name.now kind place (Some way.now)) }
{
    match format {
        Format::Text => add_never_taken(text, kind, place, way),
        Format::Json => add_json_taken(text, name, kind, place, way),
    }
}

// Puts a mark that a call of a block of this name and kind never made.
fn add_made_line(
    text: &mut Bytes,
    format: Format,
    name: &str,
    kind: Kind,
    mark: usize,
) -> Result<(), Memory>
    ensures { OnOk result (text.new ≡ text.old ++ made_line format name.now kind mark) }
{
    let ways = ways(kind);
    if mark < ways.len() {
        let way = &ways[mark];
        return add_way_line(text, format, name, kind, mark, way);
    }
    let place = mark - ways.len();
    if place < ways.len() {
        let way = &ways[place];
        return add_state_line(text, format, name, kind, way);
    }
    Ok(())
}

// The name of the instance that a step calls; empty where it calls none.
fn called_name(app: &App, k: u16) -> &str
    ensures { result.now ≡ called_name app.now (slice_get app.now.steps k) }
{
    app.sound();
    if k >= app.step_count() {
        return "";
    }
    match app.step(k) {
        Step::Call { instance, .. } => app.instance_name(*instance),
        Step::Assign { .. } => "",
    }
}

// Puts a mark that the call of a step never made.
fn add_mark_line(
    text: &mut Bytes,
    app: &App,
    format: Format,
    k: u16,
    mark: usize,
) -> Result<(), Memory>
    ensures { OnOk result (text.new ≡ text.old ++ mark_line app.now format k mark) }
{
    add_made_line(text, format, called_name(app, k), called_kind(app, k), mark)
}

/// Puts a mark of step k that is not excluded and was not made; nothing of another point.
pub(crate) fn add_missed_mark(
    text: &mut Bytes,
    app: &App,
    exclusions: &Exclusions,
    format: Format,
    k: u16,
    point: &Point<'_>,
    shown: bool,
) -> Result<(), Memory>
    ensures { OnOk result (text.new ≡ text.old
        ++ missed_mark app.now exclusions.now.rows.items format k (point_of point.entry.now) shown) }
{
    match point {
        Point::Mark { step, mark } => {
            if *step == k && is_missed(exclusions.is_excluded(*step, *mark), shown) {
                add_mark_line(text, app, format, *step, *mark)?;
            }
            Ok(())
        }
        Point::Value { .. } | Point::Decides(_) => Ok(()),
    }
}

// The name of an input, output or local.
fn signal_label(app: &App, signal: u16) -> &str
    ensures { result.now ≡ signal_label app.now signal }
{
    if signal < app.declared_count() {
        app.signal_name(signal)
    } else {
        ""
    }
}

// Puts a value that a signal never had, unless it was seen.
fn add_value_line(
    text: &mut Bytes,
    app: &App,
    format: Format,
    signal: u16,
    value: bool,
    seen: bool,
) -> Result<(), Memory>
    ensures { OnOk result (text.new ≡ text.old ++ unless seen (value_line app.now format signal value)) }
{
    if seen {
        return Ok(());
    }
    let name = signal_label(app, signal);
    match format {
        Format::Text => add_said(
            text,
            &[
                Said::Words(b"  never "),
                Said::Truth(value),
                Said::Words(b": "),
                Said::Name(name),
                Said::Words(b"\n"),
            ],
        ),
        Format::Json => add_said(
            text,
            &[
                Said::Words(b"{\"never\":\"value\",\"signal\":\""),
                Said::Name(name),
                Said::Words(b"\",\"value\":"),
                Said::JsonTruth(value),
                Said::Words(b"}\n"),
            ],
        ),
    }
}

/// Puts the values that a signal never had; nothing of another point.
pub(crate) fn add_missed_values(
    text: &mut Bytes,
    app: &App,
    format: Format,
    point: &Point<'_>,
    off: bool,
    on: bool,
) -> Result<(), Memory>
    ensures { OnOk result (text.new ≡ text.old ++ missed_values app.now format (point_of point.entry.now) off on) }
{
    match point {
        Point::Value { signal } => {
            add_value_line(text, app, format, *signal, false, seen_with(false, off, on))?;
            add_value_line(text, app, format, *signal, true, seen_with(true, off, on))
        }
        Point::Mark { .. } | Point::Decides(_) => Ok(()),
    }
}

// Puts a value with which an operand never decided, for a person.
fn add_never_decided(
    text: &mut Bytes,
    at: Place,
    of_and: bool,
    place: usize,
    value: bool,
) -> Result<(), Memory>
    ensures { OnOk result (text.new ≡ text.old ++ never_decided at of_and place value) }
{
    add_said(
        text,
        &[
            Said::Words(b"  never decided "),
            Said::Truth(value),
            Said::Words(b": line "),
            Said::Number(at.line),
            Said::Words(b" column "),
            Said::Number(at.column),
            Said::Words(b", operand "),
            Said::Ordinal(place),
            Said::Words(b" of an "),
            Said::Joined(of_and),
            Said::Words(b"\n"),
        ],
    )
}

// Puts a value with which an operand never decided, in JSON.
fn add_json_decided(
    text: &mut Bytes,
    at: Place,
    of_and: bool,
    place: usize,
    value: bool,
) -> Result<(), Memory>
    ensures { OnOk result (text.new ≡ text.old ++ json_decided at of_and place value) }
{
    add_said(
        text,
        &[
            Said::Words(b"{\"never\":\"decision\",\"line\":"),
            Said::Number(at.line),
            Said::Words(b",\"column\":"),
            Said::Number(at.column),
            Said::Words(b",\"operand\":"),
            Said::Ordinal(place),
            Said::Words(b",\"of\":\""),
            Said::Joined(of_and),
            Said::Words(b"\",\"value\":"),
            Said::JsonTruth(value),
            Said::Words(b"}\n"),
        ],
    )
}

// Puts a value with which an operand never decided, unless it was seen.
fn add_decision_line(
    text: &mut Bytes,
    format: Format,
    at: Place,
    of_and: bool,
    place: usize,
    value: bool,
    seen: bool,
) -> Result<(), Memory>
    ensures { OnOk result (text.new ≡ text.old ++ unless seen (decision_line format at of_and place value)) }
{
    if seen {
        return Ok(());
    }
    match format {
        Format::Text => add_never_decided(text, at, of_and, place, value),
        Format::Json => add_json_decided(text, at, of_and, place, value),
    }
}

/// Puts the values with which an operand that stands at this place of the source never decided; nothing of another
/// point.
pub(crate) fn add_missed_decisions(
    text: &mut Bytes,
    format: Format,
    at: Place,
    point: &Point<'_>,
    off: bool,
    on: bool,
) -> Result<(), Memory>
    ensures { OnOk result (text.new ≡ text.old ++ missed_decisions format at (point_of point.entry.now) off on) }
{
    match point {
        Point::Decides(operand) => {
            let of_and = operand.of_and;
            let place = operand.place;
            add_decision_line(text, format, at, of_and, place, false, off)?;
            add_decision_line(text, format, at, of_and, place, true, on)
        }
        Point::Mark { .. } | Point::Value { .. } => Ok(()),
    }
}
