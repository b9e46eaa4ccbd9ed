// The columns of a log, and its rows.

ghost use Rattle.std.specs.Prelude.{◌≡◌, IsTrue, length, IfOk};
ghost use Rattle.csv.specs.Reading.{strip_bom};
ghost use Rattle.ps_bench_logs.specs.Header.{header_said};
ghost use Rattle.ps_bench_logs.specs.Rows.{line_said};
ghost use Rattle.ps_bench_logs.specs.Saying.{are_parts, part_values, parts_said, restart_part, said_by};
ghost use Rattle.ps_bench_logs.specs.Spans.{part_at};
ghost use Rattle.ps_bench_names.specs.Names.{truth_of};

use crate::columns::find_columns;
use crate::fields::{Span, cut, cut_all, part_at};
use crate::flaw::Flaw;
use ps_base::Memory;
use ps_bench_names::truth_of;
use ps_model::{App, Bits};
use ps_trace::number;
use std::alloc::Global;
use std::marker::Model;

/// The columns of a log of an application. It has room for where the fields of a line stand.
///
/// Contracts see where the columns stand.
#[derive(Drop)]
pub struct Table {
    time: usize,
    restart: Option<usize>,
    inputs: Vec<usize>,
    spans: Vec<Span>,
}

impl Model for Table {
    ghost use Rattle.std.specs.Prelude.{length};
    ghost use Rattle.ps_bench_logs.specs.Header.{Columns};

    ghost Value = { Columns };

    ghost view = { λ t. record { width = length t.spans.items; time = t.time; restart = t.restart; inputs = t.inputs.items } };
}

/// What a line after the header says. The values of a scan are written aside.
#[derive(Clone, Copy)]
pub enum RowSays {
    /// Nothing: it is empty.
    Nothing,
    /// A scan.
    Scan {
        /// Its time in ms.
        now: u32,
        /// Whether it is the first one after a restart.
        is_restarted: bool,
    },
    /// It is refused.
    Broken(Flaw),
}

// A line, and where its fields stand.
#[derive(Clone, Copy)]
struct Parts<'a> {
    line: &'a [u8],
    spans: &'a [Span],
}

// The value at a place.
fn value_at(parts: Parts<'_>, place: usize) -> Option<bool>
    ensures { result ≡ truth_of (part_at parts.entry.line.now parts.entry.spans.now place) }
{
    truth_of(part_at(parts.line, parts.spans, place))
}

// Whether a row is the first after a restart, by the place of the column for it; None: there is no value.
fn restart_at(parts: Parts<'_>, restart: Option<usize>) -> Option<bool>
    ensures { result ≡ restart_part parts.entry.line.now parts.entry.spans.now restart }
{
    match restart {
        Some(place) => value_at(parts, place),
        None => Some(false),
    }
}

// Puts the values of the inputs, and says whether there is one for each.
fn fill(parts: Parts<'_>, places: &[usize], ins: &mut Bits) -> bool
    requires { length ins.old ≡ length places.now }
    ensures found { result ≡ are_parts parts.entry.line.now parts.entry.spans.now places.now }
    ensures values { IsTrue result → ins.new ≡ part_values parts.entry.line.now parts.entry.spans.now places.now }
    ensures size { length ins.new ≡ length ins.old }
{
    for (i, place) in places.iter().enumerate() {
        let Some(value) = value_at(parts, *place) else {
            return false;
        };
        ins.set(i, value);
    }
    true
}

// What the fields of a row say, where there are as many as columns, which stand at these places.
fn judge(
    parts: Parts<'_>,
    time: usize,
    restart: Option<usize>,
    inputs: &[usize],
    last: u32,
    ins: &mut Bits,
) -> RowSays
    requires { length ins.old ≡ length inputs.now }
    ensures says { parts_said parts.entry.line.now parts.entry.spans.now time restart inputs.now last ≡ said_by result ins.new }
    ensures size { length ins.new ≡ length ins.old }
{
    if !fill(parts, inputs, ins) {
        return RowSays::Broken(Flaw::V3);
    }
    let Some(now) = number(part_at(parts.line, parts.spans, time)) else {
        return RowSays::Broken(Flaw::V3);
    };
    match restart_at(parts, restart) {
        None => RowSays::Broken(Flaw::V3),
        Some(_) if now < last => RowSays::Broken(Flaw::V4),
        Some(is_restarted) => RowSays::Scan { now, is_restarted },
    }
}

// A line without a byte order mark before it.
#[tactic(auto, unfolding(csv::specs::Reading::strip_bom))]
fn unmarked(line: &[u8]) -> &[u8]
    ensures { result.now ≡ strip_bom line.now }
{
    match line {
        [0xEF, 0xBB, 0xBF, rest @ ..] => rest,
        _ => line,
    }
}

impl Table {
    /// The columns that a line names as the header of a log of an application, or what it is refused for: V1 where it
    /// has not the form or a column stands twice, V2 where one is missing; of these the first one, in the order time,
    /// restarts and inputs as they are declared.
    ///
    /// The time is the column `@time`, or where there is none the column `time`, which is no input's then. A byte order
    /// mark before the line does not count. Letter case of names does not count. The outer error: memory runs out.
    pub fn of_header(alloc: Global, app: &App, line: &[u8]) -> Result<Result<Table, Flaw>, Memory>
        ensures { IfOk result (λ said. header_said app.now line.now ≡ said) }
    {
        let line = unmarked(line);
        let Some(spans) = cut_all(alloc, line)? else {
            return Ok(Err(Flaw::V1));
        };
        let mut inputs = vec![in alloc; 0; app.input_count() as usize]?;
        match find_columns(app, line, &spans, &mut inputs) {
            Ok((time, restart)) => Ok(Ok(Table {
                time,
                restart,
                inputs,
                spans,
            })),
            Err(flaw) => Ok(Err(flaw)),
        }
    }

    /// What a line after the header says, where the scan before was at `last` ms: V1 where it has not the form or other
    /// fields than the header, V3 where a value of an input or of a restart is none, or the time no number of ms, and V4
    /// where that is less than the last one. It takes no memory.
    ///
    /// The values of a scan are put into `ins`, in order of declaration.
    pub fn read_row(&mut self, line: &[u8], last: u32, ins: &mut Bits) -> RowSays
        requires { length ins.old ≡ length self.old.inputs }
        ensures says { line_said self.old last line.now ≡ said_by result ins.new }
        ensures columns { self.new ≡ self.old }
        ensures size { length ins.new ≡ length ins.old }
    {
        if line.is_empty() {
            return RowSays::Nothing;
        }
        let width = self.spans.len();
        let Some(count) = cut(line, &mut self.spans) else {
            return RowSays::Broken(Flaw::V1);
        };
        if count != width {
            return RowSays::Broken(Flaw::V1);
        }
        let parts = Parts {
            line,
            spans: &self.spans,
        };
        judge(parts, self.time, self.restart, &self.inputs, last, ins)
    }
}
