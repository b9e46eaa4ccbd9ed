// The parts of the trace of cases.

ghost use Rattle.std.specs.Prelude.{◌≡◌, ◌<◌, ◌+◌, ◌++◌, ◌∷◌, ◌^◌, All, OnOk, length, fold, flat_map, decimal};
ghost use Rattle.ps_bench_names.specs.declared.name.Setting.{Setting};
ghost use Rattle.ps_bench_cases.specs.Meant.{times_of};
ghost use Rattle.ps_bench_cases.specs.Expanded.{header_line, value_text, scan_line, name_line, act_text, point_set};
ghost use Rattle.ps_bench_cases.specs.Expanded.{next_point};
ghost use Rattle.ps_bench_cases.specs.Expanded.{statements_text, SetInputs, end_point, case_text};
ghost use Rattle.ps_bench_cases.specs.Writing.{Wrote};

use crate::case::{Act, Case, Pace, Statement};
use crate::point::Point;
use itoa::Buffer;
use ps_base::Memory;
use ps_model::{App, Bits};
use ps_outside::{Sink, write_all};

/// Why a trace was not written to its end. What was written is a beginning of it.
#[derive(Clone, Copy)]
pub enum ExpandFail {
    /// Out of memory.
    Memory,
    /// A write failed.
    Fault,
}

impl From<Memory> for ExpandFail {
    ghost use Rattle.ps_bench_cases.specs.declared.expanding.ExpandFail.TheVariants.{Memory as NoMemory};

    ghost from_gives = { λ _ fail. fail ≡ NoMemory };

    fn from(_memory: Memory) -> ExpandFail {
        ExpandFail::Memory
    }
}

/// Writes a case that begins at this time in ms, after the statements before the first one: its name, and the lines of
/// its statements. The point is after it then. `Fault`: a write failed, and what was written is a beginning of it;
/// Memory: there was no room for the line of a fault.
pub fn put_case<S: Sink>(
    out: &mut S,
    point: &mut Point,
    base: u64,
    begin: &[Statement],
    case: &Case,
) -> Result<(), ExpandFail>
    requires inputs { SetInputs (length point.old.ins) (begin.now ++ case.now.statements) }
    requires base { base < 2 ^ 63 }
    ensures wrote { Wrote S.tells S.taken S.faults
        (case_text (length point.old.ins) base case.now.name (begin.now ++ case.now.statements))
        out.old out.new result }
    ensures point { OnOk result
        (point.new ≡ end_point (length point.old.ins) base (begin.now ++ case.now.statements)) }
{
    point.begin(base);
    put_name(out, case.name.as_str())?;
    put_statements(out, point, begin)?;
    put_statements(out, point, case.statements.as_slice())
}

// Statements.
fn put_statements<S: Sink>(
    out: &mut S,
    point: &mut Point,
    statements: &[Statement],
) -> Result<(), ExpandFail>
    requires inputs { SetInputs (length point.old.ins) statements.now }
    requires base { point.old.base < 2 ^ 63 }
    ensures wrote { Wrote S.tells S.taken S.faults (statements_text point.old statements.now) out.old out.new result }
    ensures point { OnOk result (point.new ≡ fold next_point point.old statements.now) }
{
    for statement in statements {
        put_statement(out, point, statement)?;
    }
    Ok(())
}

// A statement.
fn put_statement<S: Sink>(
    out: &mut S,
    point: &mut Point,
    statement: &Statement,
) -> Result<(), ExpandFail>
    requires inputs { All (λ (setting : Setting). setting.input < length point.old.ins) statement.now.settings }
    requires base { point.old.base < 2 ^ 63 }
    ensures wrote { Wrote S.tells S.taken S.faults
        (act_text (point_set point.old statement.now.settings) statement.now.act) out.old out.new result }
    ensures point { OnOk result (point.new ≡ next_point point.old statement.now) }
{
    point.set(statement.settings.as_slice());
    put_act(out, point, &statement.act)?;
    point.pass(&statement.act)?;
    Ok(())
}

// What a line does.
fn put_act<S: Sink>(out: &mut S, point: &Point, act: &Act) -> Result<(), ExpandFail>
    requires { point.now.base < 2 ^ 63 }
    ensures { Wrote S.tells S.taken S.faults (act_text point.now act.now) out.old out.new result }
{
    match act {
        Act::Scans(pace) => {
            if pace.count == 0 {
                return Ok(());
            }
            put_scans(out, point, pace)
        }
        Act::Restart => put(out, b"restart\n"),
        Act::Set | Act::Fault(_) | Act::Expect(_) => Ok(()),
    }
}

// The lines of the faults that wait, and the scans of a pace.
fn put_scans<S: Sink>(out: &mut S, point: &Point, pace: &Pace) -> Result<(), ExpandFail>
    requires { point.now.base < 2 ^ 63 }
    ensures { Wrote S.tells S.taken S.faults
        (point.now.held ++ flat_map (λ now. scan_line (point.now.base + now) point.now.ins) (times_of pace.now))
        out.old out.new result }
{
    put(out, point.held.as_slice())?;
    put_pace(out, point.base, &point.ins, pace)
}

// The scans of a pace, of a case that begins at this time.
fn put_pace<S: Sink>(out: &mut S, base: u64, ins: &Bits, pace: &Pace) -> Result<(), ExpandFail>
    requires { base < 2 ^ 63 }
    ensures { Wrote S.tells S.taken S.faults
        (flat_map (λ now. scan_line (base + now) ins.now) (times_of pace.now)) out.old out.new result }
{
    let mut now = pace.from.min(pace.upto);
    for k in 0..pace.count {
        now = now.saturating_add(pace.step).min(pace.upto);
        put_scan(out, base + u64::from(now), ins)?;
    }
    Ok(())
}

/// Writes the line of a scan at this time in ms, with these values of the inputs. `Fault`: a write failed.
pub fn put_scan<S: Sink>(out: &mut S, now: u64, ins: &Bits) -> Result<(), ExpandFail>
    ensures { Wrote S.tells S.taken S.faults (scan_line now ins.now) out.old out.new result }
{
    put_number(out, now)?;
    put_values(out, ins.as_slice())?;
    put(out, b"\n")
}

// A number.
fn put_number<S: Sink>(out: &mut S, number: u64) -> Result<(), ExpandFail>
    ensures { Wrote S.tells S.taken S.faults (decimal number) out.old out.new result }
{
    let mut digits = Buffer::new();
    put(out, digits.format(number).as_bytes())
}

// The values of the inputs.
fn put_values<S: Sink>(out: &mut S, ins: &[bool]) -> Result<(), ExpandFail>
    ensures { Wrote S.tells S.taken S.faults (flat_map value_text ins.now) out.old out.new result }
{
    for value in ins {
        put(out, value_text(*value))?;
    }
    Ok(())
}

// A value of an input.
fn value_text(value: bool) -> &'static [u8]
    ensures { result.now ≡ value_text value }
{
    if value { b" 1" } else { b" 0" }
}

// The name of a case.
fn put_name<S: Sink>(out: &mut S, name: &str) -> Result<(), ExpandFail>
    ensures { Wrote S.tells S.taken S.faults (name_line name.now) out.old out.new result }
{
    put(out, b"# case ")?;
    put(out, name.as_bytes())?;
    put(out, b"\n")
}

/// Writes the header: `time`, and the inputs in order of declaration. `Fault`: a write failed.
pub fn put_header<S: Sink>(out: &mut S, app: &App) -> Result<(), ExpandFail>
    ensures { Wrote S.tells S.taken S.faults (header_line app.now) out.old out.new result }
{
    put(out, b"time")?;
    put_inputs(out, app)?;
    put(out, b"\n")
}

// The names of the inputs.
fn put_inputs<S: Sink>(out: &mut S, app: &App) -> Result<(), ExpandFail>
    ensures { Wrote S.tells S.taken S.faults (flat_map (λ s. 32 ∷ s.name) app.now.inputs) out.old out.new result }
{
    app.sound();
    for i in 0..app.input_count() {
        put_input(out, app.signal_name(i))?;
    }
    Ok(())
}

// The name of an input, after a space.
fn put_input<S: Sink>(out: &mut S, name: &str) -> Result<(), ExpandFail>
    ensures { Wrote S.tells S.taken S.faults (32 ∷ name.now) out.old out.new result }
{
    put(out, b" ")?;
    put(out, name.as_bytes())
}

/// Writes a piece of the trace. `Fault`: the write failed, and a beginning of the piece was written.
pub fn put<S: Sink>(out: &mut S, piece: &[u8]) -> Result<(), ExpandFail>
    ensures { Wrote S.tells S.taken S.faults piece.now out.old out.new result }
{
    match write_all(out, piece) {
        Ok(()) => Ok(()),
        Err(_) => Err(ExpandFail::Fault),
    }
}
