// The whole text of what was shown, and of what was not.

ghost use Rattle.std.specs.Prelude.{◌≡◌, ◌<◌, ◌++◌, IfOk, OnOk, Some, length, slice_get, slice_index_or};
ghost use Rattle.ps_cover.specs.Seen.{count_of, known_in, part_of};
ghost use Rattle.ps_cover.specs.Telling.{known_of};
ghost use Rattle.ps_cover.specs.Text.{counts_of, counts_text, coverage_text, decisions_at, decisions_text};
ghost use Rattle.ps_cover.specs.Text.{head_line, json_head, json_parts, json_sort, last_line, marks_at, missed_marks};
ghost use Rattle.ps_cover.specs.Text.{nowhere, place_of, said_head, said_parts, said_sort, sort_line, step_text};
ghost use Rattle.ps_cover.specs.Text.{steps_text, values_at, values_text};
ghost use Rattle.ps_model.specs.Network.{instance_count};

use crate::format::Format;
use crate::lines::{add_missed_decisions, add_missed_mark, add_missed_values};
use crate::said::{Said, add_said};
use crate::{Cover, Exclusions, Sort, Status, percent_of, tally};
use ps_base::{Bytes, Memory, Place};
use ps_model::{App, Step, kind_name};
use std::alloc::Global;

// How many were shown, how many are not excluded, and how many are.
#[derive(Clone, Copy)]
struct Counts {
    covered: usize,
    counted: usize,
    excluded: usize,
}

// Puts counts.
fn add_counts(text: &mut Bytes, format: Format, counts: Counts) -> Result<(), Memory>
    ensures { OnOk result (text.new ≡ text.old ++ counts_text format counts.covered counts.counted counts.excluded) }
{
    match format {
        Format::Text => add_said(
            text,
            &[
                Said::Count(counts.covered),
                Said::Words(b" of "),
                Said::Count(counts.counted),
                Said::Excluded(counts.excluded),
            ],
        ),
        Format::Json => add_said(
            text,
            &[
                Said::Words(b"{\"covered\":"),
                Said::Count(counts.covered),
                Said::Words(b",\"of\":"),
                Said::Count(counts.counted),
                Said::Words(b",\"excluded\":"),
                Said::Count(counts.excluded),
                Said::Words(b"}"),
            ],
        ),
    }
}

/// What is told of.
#[derive(Clone, Copy)]
pub struct Told<'a> {
    /// The application.
    pub app: &'a App,
    /// What is excluded of its steps.
    pub exclusions: &'a Exclusions,
    /// For each point of which it is known where it stands in the source of the application.
    pub places: &'a [Place],
    /// What was seen.
    pub cover: &'a Cover<'a>,
}

// How many points of a sort, and of a step or of all, have a status.
fn count_of(told: &Told<'_>, sort: Sort, step: Option<u16>, status: Status) -> usize
    ensures { result ≡ count_of (known_of told.entry.now) sort step status }
{
    tally(told.app, told.cover, told.exclusions, sort, step, status)
}

// The part of the points of a sort that are not excluded that was shown, in percent.
fn part_of(told: &Told<'_>, sort: Sort) -> u8
    ensures { result ≡ part_of (known_of told.entry.now) sort }
{
    percent_of(told.app, told.cover, told.exclusions, sort)
}

// Puts the counts of a sort, of a step or of all.
fn add_counts_of(
    text: &mut Bytes,
    told: &Told<'_>,
    format: Format,
    sort: Sort,
    step: Option<u16>,
) -> Result<(), Memory>
    ensures { OnOk result (text.new ≡ text.old ++ counts_of (known_of told.entry.now) format sort step) }
{
    let counts = Counts {
        covered: count_of(told, sort, step, Status::Covered),
        counted: count_of(told, sort, step, Status::Counted),
        excluded: count_of(told, sort, step, Status::Excluded),
    };
    add_counts(text, format, counts)
}

// Puts an instance with the states and the ways of its block, for a person.
fn add_said_head(text: &mut Bytes, told: &Told<'_>, step: u16, instance: u16) -> Result<(), Memory>
    requires { instance < instance_count told.now.app.now }
    ensures { OnOk result (text.new ≡ text.old ++ said_head (known_of told.entry.now) step instance) }
{
    add_said(
        text,
        &[
            Said::Name(told.app.instance_name(instance)),
            Said::Words(b" "),
            Said::Name(kind_name(told.app.instance_kind(instance))),
            Said::Words(b"  states "),
        ],
    )?;
    add_counts_of(text, told, Format::Text, Sort::States, Some(step))?;
    text.extend_from_slice(b"  ways ")?;
    add_counts_of(text, told, Format::Text, Sort::Ways, Some(step))?;
    text.extend_from_slice(b"\n")
}

// Puts an instance with the states and the ways of its block, in JSON.
fn add_json_head(text: &mut Bytes, told: &Told<'_>, step: u16, instance: u16) -> Result<(), Memory>
    requires { instance < instance_count told.now.app.now }
    ensures { OnOk result (text.new ≡ text.old ++ json_head (known_of told.entry.now) step instance) }
{
    add_said(
        text,
        &[
            Said::Words(b"{\"instance\":\""),
            Said::Name(told.app.instance_name(instance)),
            Said::Words(b"\",\"kind\":\""),
            Said::Name(kind_name(told.app.instance_kind(instance))),
            Said::Words(b"\",\"states\":"),
        ],
    )?;
    add_counts_of(text, told, Format::Json, Sort::States, Some(step))?;
    text.extend_from_slice(b",\"ways\":")?;
    add_counts_of(text, told, Format::Json, Sort::Ways, Some(step))?;
    text.extend_from_slice(b"}\n")
}

// Puts an instance with the states and the ways of its block.
fn add_head(
    text: &mut Bytes,
    told: &Told<'_>,
    format: Format,
    step: u16,
    instance: u16,
) -> Result<(), Memory>
    requires { instance < instance_count told.now.app.now }
    ensures { OnOk result (text.new ≡ text.old ++ head_line (known_of told.entry.now) format step instance) }
{
    match format {
        Format::Text => add_said_head(text, told, step, instance),
        Format::Json => add_json_head(text, told, step, instance),
    }
}

// Puts a mark of a step that was never made, where point n is one.
fn add_mark_at(
    text: &mut Bytes,
    told: &Told<'_>,
    format: Format,
    step: u16,
    n: usize,
) -> Result<(), Memory>
    requires { n < (known_of told.now).size }
    ensures { OnOk result (text.new ≡ text.old
        ++ marks_at (known_of told.entry.now) format step ((known_of told.entry.now).at n)) }
{
    let points = told.cover.points();
    let point = &points[n];
    let shown = told.cover.is_shown_at(n);
    add_missed_mark(text, told.app, told.exclusions, format, step, point, shown)
}

// Puts the marks that the call of a step never made.
fn add_missed_marks(
    text: &mut Bytes,
    told: &Told<'_>,
    format: Format,
    step: u16,
) -> Result<(), Memory>
    ensures { OnOk result (text.new ≡ text.old ++ missed_marks (known_of told.entry.now) format step) }
{
    for n in 0..told.cover.points().len() {
        add_mark_at(text, told, format, step, n)?;
    }
    Ok(())
}

// Puts what is told of a step: of one that calls an instance.
fn add_step(text: &mut Bytes, told: &Told<'_>, format: Format, k: u16) -> Result<(), Memory>
    requires { k < length told.now.app.now.steps }
    ensures { OnOk result (text.new ≡ text.old ++ step_text (known_of told.entry.now) format k
        (slice_get told.entry.now.app.now.steps k)) }
{
    told.app.sound();
    match told.app.step(k) {
        Step::Call { instance, .. } => {
            add_head(text, told, format, k, *instance)?;
            add_missed_marks(text, told, format, k)
        }
        Step::Assign { .. } => Ok(()),
    }
}

// Puts what is told of all steps.
fn add_steps(text: &mut Bytes, told: &Told<'_>, format: Format) -> Result<(), Memory>
    ensures { OnOk result (text.new ≡ text.old ++ steps_text (known_of told.entry.now) format) }
{
    for k in 0..told.app.step_count() {
        add_step(text, told, format, k)?;
    }
    Ok(())
}

// Puts the counts of a sort, of all, for a person.
fn add_said_sort(text: &mut Bytes, told: &Told<'_>, sort: Sort, word: &[u8]) -> Result<(), Memory>
    ensures { OnOk result (text.new ≡ text.old ++ said_sort (known_of told.entry.now) sort word.now) }
{
    add_said(text, &[Said::Words(word), Said::Words(b" ")])?;
    add_counts_of(text, told, Format::Text, sort, None)?;
    text.extend_from_slice(b"\n")
}

// Puts the counts of a sort, of all, in JSON.
fn add_json_sort(text: &mut Bytes, told: &Told<'_>, sort: Sort, word: &[u8]) -> Result<(), Memory>
    ensures { OnOk result (text.new ≡ text.old ++ json_sort (known_of told.entry.now) sort word.now) }
{
    add_said(
        text,
        &[Said::Words(b"{\""), Said::Words(word), Said::Words(b"\":")],
    )?;
    add_counts_of(text, told, Format::Json, sort, None)?;
    text.extend_from_slice(b"}\n")
}

// Puts the counts of a sort, of all.
fn add_sort(
    text: &mut Bytes,
    told: &Told<'_>,
    format: Format,
    sort: Sort,
    word: &[u8],
) -> Result<(), Memory>
    ensures { OnOk result (text.new ≡ text.old ++ sort_line (known_of told.entry.now) format sort word.now) }
{
    match format {
        Format::Text => add_said_sort(text, told, sort, word),
        Format::Json => add_json_sort(text, told, sort, word),
    }
}

// Puts the values that a signal never had, where point n is one.
fn add_value_at(text: &mut Bytes, told: &Told<'_>, format: Format, n: usize) -> Result<(), Memory>
    requires { n < (known_of told.now).size }
    ensures { OnOk result (text.new ≡ text.old
        ++ values_at (known_of told.entry.now) format ((known_of told.entry.now).at n)) }
{
    let points = told.cover.points();
    let point = &points[n];
    let off = told.cover.is_seen_at(n, false);
    let on = told.cover.is_seen_at(n, true);
    add_missed_values(text, told.app, format, point, off, on)
}

// Puts the values that signals never had.
fn add_values(text: &mut Bytes, told: &Told<'_>, format: Format) -> Result<(), Memory>
    ensures { OnOk result (text.new ≡ text.old ++ values_text (known_of told.entry.now) format) }
{
    for n in 0..told.cover.points().len() {
        add_value_at(text, told, format, n)?;
    }
    Ok(())
}

// Where a point stands in the source; line 0 where that is not known.
fn place_of(told: &Told<'_>, n: usize) -> Place
    ensures { result ≡ place_of (known_of told.entry.now) n }
{
    if n < told.places.len() {
        told.places[n]
    } else {
        Place { line: 0, column: 0 }
    }
}

// Puts the values with which an operand never decided, where point n is one.
fn add_decision_at(
    text: &mut Bytes,
    told: &Told<'_>,
    format: Format,
    n: usize,
) -> Result<(), Memory>
    requires { n < (known_of told.now).size }
    ensures { OnOk result (text.new ≡ text.old
        ++ decisions_at format (place_of (known_of told.entry.now) n) ((known_of told.entry.now).at n)) }
{
    let points = told.cover.points();
    let point = &points[n];
    let off = told.cover.is_seen_at(n, false);
    let on = told.cover.is_seen_at(n, true);
    add_missed_decisions(text, format, place_of(told, n), point, off, on)
}

// Puts the values with which operands never decided.
fn add_decisions(text: &mut Bytes, told: &Told<'_>, format: Format) -> Result<(), Memory>
    ensures { OnOk result (text.new ≡ text.old ++ decisions_text (known_of told.entry.now) format) }
{
    for n in 0..told.cover.points().len() {
        add_decision_at(text, told, format, n)?;
    }
    Ok(())
}

// The four percentages.
#[derive(Clone, Copy)]
struct Parts {
    states: u8,
    ways: u8,
    values: u8,
    decisions: u8,
}

// Puts the percentages for a person.
fn add_said_parts(text: &mut Bytes, parts: Parts) -> Result<(), Memory>
    ensures { OnOk result (text.new ≡ text.old
        ++ said_parts parts.states parts.ways parts.values parts.decisions) }
{
    add_said(
        text,
        &[
            Said::Words(b"states "),
            Said::Small(parts.states),
            Said::Words(b" %  ways "),
            Said::Small(parts.ways),
            Said::Words(b" %  values "),
            Said::Small(parts.values),
            Said::Words(b" %  decisions "),
            Said::Small(parts.decisions),
            Said::Words(b" %\n"),
        ],
    )
}

// Puts the percentages in JSON.
fn add_json_parts(text: &mut Bytes, parts: Parts) -> Result<(), Memory>
    ensures { OnOk result (text.new ≡ text.old
        ++ json_parts parts.states parts.ways parts.values parts.decisions) }
{
    add_said(
        text,
        &[
            Said::Words(b"{\"percent\":{\"states\":"),
            Said::Small(parts.states),
            Said::Words(b",\"ways\":"),
            Said::Small(parts.ways),
            Said::Words(b",\"values\":"),
            Said::Small(parts.values),
            Said::Words(b",\"decisions\":"),
            Said::Small(parts.decisions),
            Said::Words(b"}}\n"),
        ],
    )
}

// Puts the percentages.
fn add_last(text: &mut Bytes, told: &Told<'_>, format: Format) -> Result<(), Memory>
    ensures { OnOk result (text.new ≡ text.old ++ last_line (known_of told.entry.now) format) }
{
    let parts = Parts {
        states: part_of(told, Sort::States),
        ways: part_of(told, Sort::Ways),
        values: part_of(told, Sort::Values),
        decisions: part_of(told, Sort::Decisions),
    };
    match format {
        Format::Text => add_said_parts(text, parts),
        Format::Json => add_json_parts(text, parts),
    }
}

// Puts all that is told.
fn add_coverage(text: &mut Bytes, told: &Told<'_>, format: Format) -> Result<(), Memory>
    ensures { OnOk result (text.new ≡ text.old ++ coverage_text (known_of told.entry.now) format) }
{
    add_steps(text, told, format)?;
    add_sort(text, told, format, Sort::Values, b"values")?;
    add_values(text, told, format)?;
    add_sort(text, told, format, Sort::Decisions, b"decisions")?;
    add_decisions(text, told, format)?;
    add_last(text, told, format)
}

/// The text of what was shown of an application, and of what was not: for each instance, in the order of the calls, its
/// counts, and below them the ways and states that were never seen; the counts of values and of decisions, with what
/// was never seen of them; the percentages. An error means out of memory.
pub fn coverage_text(alloc: Global, told: &Told<'_>, format: Format) -> Result<Bytes, Memory>
    ensures { IfOk result (λ bytes. bytes ≡ coverage_text (known_of told.entry.now) format) }
{
    let mut text = Bytes::new(alloc);
    add_coverage(&mut text, told, format)?;
    Ok(text)
}
