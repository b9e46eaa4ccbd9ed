// A log is read, and the trace of its scans is written.

ghost use Rattle.std.specs.Prelude.{◌≡◌, ◌≤◌, ◌<◌, ℕ, List, IsTrue, Some, IsSome, IfOk, IsErrOf, OnOk, length};
ghost use Rattle.ps_bench_cases.specs.Writing.{Wrote};
ghost use Rattle.ps_lines.specs.Reader.{IsFresh, IsReading, begin_of, left, limits_of, name_of};
ghost use Rattle.ps_bench_logs.specs.Log.{at_line, items_of, log_from, log_lines, log_of};
ghost use Rattle.ps_bench_logs.specs.Rows.{line_said};
ghost use Rattle.ps_bench_logs.specs.declared.limits.TheConstants.{LARGEST_LOG, LONGEST_LOG_LINE};
ghost use Rattle.ps_model.specs.Network.{input_count};
ghost use Rattle.ps_outside.specs.Outside.{CountsStay, Rose};
ghost use Rattle.ps_bench_logs.specs.Lines.{IsHeader, LeavesRows, Took, restart_text, turn_of};
ghost use Rattle.ps_bench_logs.specs.Recording.{IsRead, Leaves, items_text, log_trace};

use crate::flaw::{Flaw, LogRefusal};
use crate::limits::{LARGEST_LOG, LONGEST_LOG_LINE};
use crate::table::{RowSays, Table};
use ps_base::Memory;
use ps_bench_cases::{ExpandFail, put, put_header, put_scan};
use ps_lines::{Got, Limits, LineReader};
use ps_model::{App, Bits};
use ps_outside::{Failed, Files, Sink};
use std::alloc::Global;

const LIMITS: Limits = Limits {
    longest: LONGEST_LOG_LINE,
    largest: LARGEST_LOG,
};

/// Why a log was not written as a trace to its end. What was written is a beginning of it.
#[derive(Clone, Copy)]
pub enum RecordFail {
    /// Out of memory.
    Memory,
    /// A read failed.
    Fault,
    /// A write failed.
    Unwritten,
    /// A line is refused. The trace of what stands before it was written.
    Refused(LogRefusal),
}

impl From<Memory> for RecordFail {
    ghost use Rattle.std.specs.Prelude.{◌≡◌};
    ghost use Rattle.ps_bench_logs.specs.declared.recording.RecordFail.TheVariants.{Memory as NoMemory};

    ghost from_gives = { λ _ fail. fail ≡ NoMemory };

    fn from(_memory: Memory) -> RecordFail {
        RecordFail::Memory
    }
}

impl From<ExpandFail> for RecordFail {
    ghost use Rattle.std.specs.Prelude.{◌≡◌};
    ghost use Rattle.ps_bench_logs.specs.Lines.{fail_of};

    ghost from_gives = { λ expand fail. fail ≡ fail_of expand };

    fn from(fail: ExpandFail) -> RecordFail {
        match fail {
            ExpandFail::Memory => RecordFail::Memory,
            ExpandFail::Fault => RecordFail::Unwritten,
        }
    }
}

// What a line is to a log.
#[derive(Clone, Copy)]
enum Turn {
    // One that is read.
    Row,
    // There is none any more.
    End,
    // It is refused.
    Broken,
}

// What a line is to a log, as it came.
fn turn_of(got: Got) -> Turn
    ensures { result ≡ turn_of got }
{
    match got {
        Got::Line | Got::LastLine => Turn::Row,
        Got::End => Turn::End,
        Got::TooLong | Got::TooLarge => Turn::Broken,
    }
}

// The refusal of a line.
fn refused(flaw: Flaw, line: u32) -> RecordFail
    ensures { result ≡ RecordFail.Refused (at_line flaw line) }
{
    RecordFail::Refused(LogRefusal { flaw, line })
}

// The line of a restart, where there is one.
fn restart_text(is_restarted: bool) -> &'static [u8]
    ensures { result.now ≡ restart_text is_restarted }
{
    if is_restarted { b"restart\n" } else { b"" }
}

// Writes a scan, and before it the restart after which it is the first.
fn put_row<S: Sink>(out: &mut S, now: u32, is_restarted: bool, ins: &Bits) -> Result<(), ExpandFail>
    ensures { Wrote S.tells S.taken S.faults (items_text (items_of now is_restarted ins.now)) out.old out.new result }
{
    match put(out, restart_text(is_restarted)) {
        Ok(()) => put_scan(out, u64::from(now), ins),
        Err(fail) => Err(fail),
    }
}

// Reads the line of this number, after the header, where the scan before was at `last` ms, and writes what it means.
// The time of the last scan after it.
fn take_row<S: Sink>(
    out: &mut S,
    table: &mut Table,
    line: &[u8],
    number: u32,
    last: u32,
    ins: &mut Bits,
) -> Result<u32, RecordFail>
    requires { length ins.old ≡ length table.old.inputs }
    ensures took { Took S.tells S.taken S.faults (line_said table.old last line.now) number last out.old out.new result }
    ensures columns { table.new ≡ table.old }
    ensures size { length ins.new ≡ length ins.old }
{
    match table.read_row(line, last, ins) {
        RowSays::Nothing => Ok(last),
        RowSays::Scan { now, is_restarted } => match put_row(out, now, is_restarted, ins) {
            Ok(()) => Ok(now),
            Err(fail) => Err(RecordFail::from(fail)),
        },
        RowSays::Broken(flaw) => Err(refused(flaw, number)),
    }
}

// Reads the lines after the header, and writes what they mean. It takes no memory.
fn put_rows<F: Files, S: Sink>(
    files: &mut F,
    out: &mut S,
    lines: &mut LineReader,
    table: &mut Table,
    ins: &mut Bits,
) -> Result<(), RecordFail>
    requires size { length ins.old ≡ length table.old.inputs }
    requires begun { 0 < begin_of lines.old }
    requires near { begin_of lines.old ≤ LARGEST_LOG }
    requires limited { (limits_of lines.old).largest ≡ LARGEST_LOG }
    ensures leaves { IsTrue (F.tells files.old) → IsTrue (S.tells out.old) → (text : List ℕ) →
        F.held files.old (name_of lines.old) ≡ Some text → IsReading lines.old text →
        LeavesRows (log_from table.old 2 0 (left lines.old text)) (S.taken out.old) (S.taken out.new) result }
    ensures fault { IsErrOf result RecordFail.Fault →
        Rose (F.faults files.old (name_of lines.old)) (F.faults files.new (name_of lines.old)) }
    ensures unwritten { IsErrOf result RecordFail.Unwritten → Rose (S.faults out.old) (S.faults out.new) }
    ensures reads { (other : List ℕ) → F.faults files.old other ≤ F.faults files.new other }
    ensures writes { S.faults out.old ≤ S.faults out.new }
    ensures telling { S.tells out.new ≡ S.tells out.old }
{
    let mut number = 2;
    let mut last = 0;
    'rows: loop {
        let got = match lines.next_line(files) {
            Ok(got) => got,
            Err(Failed) => return Err(RecordFail::Fault),
        };
        match turn_of(got) {
            Turn::Row => {}
            Turn::End => return Ok(()),
            Turn::Broken => return Err(refused(Flaw::V1, number)),
        }
        match take_row(out, table, lines.line(), number, last, ins) {
            Ok(now) => last = now,
            Err(fail) => return Err(fail),
        }
        number += 1;
    }
}

// Reads the header of a log, the first line of a reader of which nothing was read.
fn read_header<F: Files>(
    alloc: Global,
    files: &mut F,
    lines: &mut LineReader,
    app: &App,
) -> Result<Table, RecordFail>
    requires fresh { IsFresh (record { longest = LONGEST_LOG_LINE; largest = LARGEST_LOG }) lines.old }
    ensures header { IsTrue (F.tells files.old) → (text : List ℕ) → F.held files.old (name_of lines.old) ≡ Some text →
        IsHeader app.now (log_lines text) (left lines.new text) result }
    ensures reading { IsTrue (F.tells files.old) → (text : List ℕ) → F.held files.old (name_of lines.old) ≡ Some text →
        IsReading lines.new text }
    ensures found { IsTrue (F.tells files.old) → IsRead result → IsSome (F.held files.old (name_of lines.old)) }
    ensures begun { OnOk result (0 < begin_of lines.new) }
    ensures near { begin_of lines.new ≤ LARGEST_LOG }
    ensures limits { limits_of lines.new ≡ limits_of lines.old }
    ensures name { name_of lines.new ≡ name_of lines.old }
    ensures inputs { IfOk result (λ table. length table.inputs ≡ input_count app.now) }
    ensures written { ¬ IsErrOf result RecordFail.Unwritten }
    ensures fault { IsErrOf result RecordFail.Fault →
        Rose (F.faults files.old (name_of lines.old)) (F.faults files.new (name_of lines.old)) }
    ensures reads { (other : List ℕ) → F.faults files.old other ≤ F.faults files.new other }
    ensures kept { F.held files.new ≡ F.held files.old }
    ensures telling { F.tells files.new ≡ F.tells files.old }
{
    let got = match lines.next_line(files) {
        Ok(got) => got,
        Err(Failed) => return Err(RecordFail::Fault),
    };
    let Turn::Row = turn_of(got) else {
        return Err(refused(Flaw::V1, 1));
    };
    match Table::of_header(alloc, app, lines.line()) {
        Ok(Ok(table)) => Ok(table),
        Ok(Err(flaw)) => Err(refused(flaw, 1)),
        Err(Memory) => Err(RecordFail::Memory),
    }
}

/// Writes the trace of the log of this name for an application: the header with the inputs in order of declaration, and
/// a line for each scan and each restart. Columns stand in any order; those that are no input's are left out.
///
/// `Refused` comes at the first line that is refused, and the trace of what stands before it was written; nothing where
/// that is the header. V1: the form, a column that stands twice, or over 1,048,576 bytes in a line or 4,294,967,294 in
/// the log; V2: a column that is missing; V3: a value or a time that is none; V4: a time less than the one before.
/// `Fault` comes only where the files' count of the name rose in this call, `Unwritten` only where the output's did.
///
/// Memory does not grow with the log, and all of it is taken before the first line is written.
pub fn record<F: Files, S: Sink>(
    alloc: Global,
    files: &mut F,
    out: &mut S,
    app: &App,
    name: &str,
) -> Result<(), RecordFail>
    ensures leaves { IsTrue (F.tells files.old) → IsTrue (S.tells out.old) → (text : List ℕ) →
        F.held files.old name.now ≡ Some text →
        Leaves (log_trace app.now text) (log_of app.now text).end (S.taken out.old) (S.taken out.new) result }
    ensures found { IsTrue (F.tells files.old) → IsRead result → IsSome (F.held files.old name.now) }
    ensures fault { IsErrOf result RecordFail.Fault → Rose (F.faults files.old name.now) (F.faults files.new name.now) }
    ensures unwritten { IsErrOf result RecordFail.Unwritten → Rose (S.faults out.old) (S.faults out.new) }
    ensures reads { (other : List ℕ) → F.faults files.old other ≤ F.faults files.new other }
    ensures writes { S.faults out.old ≤ S.faults out.new }
    ensures telling { S.tells out.new ≡ S.tells out.old }
{
    let mut lines = LineReader::start(alloc, name, LIMITS)?;
    let mut table = match read_header(alloc, files, &mut lines, app) {
        Ok(table) => table,
        Err(fail) => return Err(fail),
    };
    let mut ins = Bits::all_false(alloc, usize::from(app.input_count()))?;
    match put_header(out, app) {
        Ok(()) => put_rows(files, out, &mut lines, &mut table, &mut ins),
        Err(fail) => Err(RecordFail::from(fail)),
    }
}
