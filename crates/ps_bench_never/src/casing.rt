// The case of a rule that is met.

ghost use Rattle.std.specs.Prelude.{◌≡◌, ◌-◌, ◌<◌, ◌++◌, ℕ, OnOk, codes, false, length, map, slice_index_or, []};
ghost use Rattle.std.specs.List.{filter, flat_map, list_any, range_with_len};
ghost use Rattle.ps_reach.specs.Tracing.{inputs_in};
ghost use Rattle.ps_bench_never.specs.Pieces.{condition_text};
ghost use Rattle.ps_bench_never.specs.Casing.{case_text, change_text, changes_text, expect_text, expected, gap_before};
ghost use Rattle.ps_bench_never.specs.Casing.{has_times, inputs_at, inputs_before, is_of_before, late_text, line_text, scan_text, set_text};

use crate::pieces::{add_condition, signal_text};
use ps_base::limits::LARGEST_TIME;
use ps_base::{Bytes, Memory};
use ps_bench_frame::pieces::{add_count, add_short};
use ps_bench_rules::Condition;
use ps_model::App;
use ps_reach::ScanInputs;

/// A signal with a value, as ` S_L=1`.
pub fn add_set(text: &mut Bytes, app: &App, i: u16, value: bool) -> Result<(), Memory>
    ensures { OnOk result (text.new ≡ text.old ++ set_text app.now i value) }
{
    text.extend_from_slice(b" ")?;
    text.extend_from_slice(signal_text(app, i))?;
    if value {
        text.extend_from_slice(b"=1")
    } else {
        text.extend_from_slice(b"=0")
    }
}

// An input that has another value than before takes it.
fn add_change(text: &mut Bytes, app: &App, i: u16, was: bool, is: bool) -> Result<(), Memory>
    ensures { OnOk result (text.new ≡ text.old ++ change_text app.now i was is) }
{
    if is != was {
        add_set(text, app, i, is)
    } else {
        Ok(())
    }
}

// A value of a list, and FALSE past it.
fn value_at(values: &[bool], i: usize) -> bool
    ensures { result ≡ slice_index_or values.now i false }
{
    if i < values.len() { values[i] } else { false }
}

// The inputs that have other values than before.
fn add_changes(text: &mut Bytes, app: &App, before: &[bool], values: &[bool]) -> Result<(), Memory>
    requires { length values.now < 65536 }
    ensures { OnOk result (text.new ≡ text.old ++ changes_text app.now before.now values.now) }
{
    for i in 0..values.len() {
        add_change(
            text,
            app,
            i as u16,
            value_at(before, i),
            value_at(values, i),
        )?;
    }
    Ok(())
}

// A scan so many ms after the one before.
fn add_scan(
    text: &mut Bytes,
    app: &App,
    gap: u32,
    before: &[bool],
    values: &[bool],
) -> Result<(), Memory>
    requires { length values.now < 65536 }
    ensures { OnOk result (text.new ≡ text.old ++ scan_text app.now gap before.now values.now) }
{
    text.extend_from_slice(b"  +")?;
    add_short(text, gap)?;
    add_changes(text, app, before, values)?;
    text.extend_from_slice(b"\n")
}

// Whether a condition is of the scan before, or is not.
fn is_of_before(before: bool, condition: &Condition) -> bool
    ensures { result ≡ is_of_before before condition.now }
{
    condition.before == before
}

// Whether some condition is.
fn some_of_before(before: bool, conditions: &[Condition]) -> bool
    ensures { result ≡ list_any (is_of_before before) conditions.now }
{
    for condition in conditions {
        if is_of_before(before, condition) {
            return true;
        }
    }
    false
}

// The conditions that are.
fn add_conditions(
    text: &mut Bytes,
    app: &App,
    before: bool,
    conditions: &[Condition],
) -> Result<(), Memory>
    ensures { OnOk result (text.new ≡ text.old ++ flat_map (condition_text app.now) (filter (is_of_before before) conditions.now)) }
{
    for condition in conditions {
        if is_of_before(before, condition) {
            add_condition(text, app, condition)?;
        }
    }
    Ok(())
}

// The conditions of the scan before, or those of the scan, as expectations.
fn add_expect(
    text: &mut Bytes,
    app: &App,
    before: bool,
    conditions: &[Condition],
) -> Result<(), Memory>
    ensures { OnOk result (text.new ≡ text.old ++ expect_text app.now before conditions.now) }
{
    if some_of_before(before, conditions) {
        text.extend_from_slice(b"  expect")?;
        add_conditions(text, app, before, conditions)?;
        text.extend_from_slice(b"\n")?;
    }
    Ok(())
}

// What is expected after a scan after which so many come.
fn add_expected(
    text: &mut Bytes,
    app: &App,
    conditions: &[Condition],
    left: usize,
) -> Result<(), Memory>
    ensures { OnOk result (text.new ≡ text.old ++ expected app.now conditions.now left) }
{
    match left {
        0 => add_expect(text, app, false, conditions),
        1 => add_expect(text, app, true, conditions),
        _ => Ok(()),
    }
}

// The inputs of the scan before; there are none before a first one.
fn inputs_before(scans: &[ScanInputs], i: usize) -> &[bool]
    requires { i < length scans.now }
    ensures { result.now ≡ inputs_before (map inputs_in scans.now) i }
{
    if i == 0 {
        &[]
    } else {
        scans[i - 1].values.as_slice()
    }
}

// The inputs of a scan.
fn inputs_at(scans: &[ScanInputs], i: usize) -> &[bool]
    requires { i < length scans.now }
    ensures { result.now ≡ inputs_at (map inputs_in scans.now) i }
{
    scans[i].values.as_slice()
}

// Scan i of these, and what is expected after it.
fn add_line(
    text: &mut Bytes,
    app: &App,
    every: u32,
    conditions: &[Condition],
    scans: &[ScanInputs],
    i: usize,
) -> Result<(), Memory>
    requires within { i < length scans.now }
    requires small { length (inputs_at (map inputs_in scans.now) i) < 65536 }
    ensures { OnOk result (text.new ≡ text.old ++ line_text app.now every conditions.now (map inputs_in scans.now) i) }
{
    let gap = if i == 0 { 0 } else { every };
    add_scan(text, app, gap, inputs_before(scans, i), inputs_at(scans, i))?;
    add_expected(text, app, conditions, scans.len() - 1 - i)
}

// All scans, with what is expected.
fn add_lines(
    text: &mut Bytes,
    app: &App,
    every: u32,
    conditions: &[Condition],
    scans: &[ScanInputs],
) -> Result<(), Memory>
    requires { (i : ℕ) → length (inputs_at (map inputs_in scans.now) i) < 65536 }
    ensures { OnOk result (text.new ≡ text.old ++ flat_map (line_text app.now every conditions.now (map inputs_in scans.now)) (range_with_len 0 (length scans.now))) }
{
    for i in 0..scans.len() {
        add_line(text, app, every, conditions, scans, i)?;
    }
    Ok(())
}

/// A case of this name: these scans, so many ms apart, and what is expected of the last one and of the one before it.
pub fn add_case(
    text: &mut Bytes,
    app: &App,
    name: &[u8],
    every: u32,
    conditions: &[Condition],
    scans: &[ScanInputs],
) -> Result<(), Memory>
    requires { (i : ℕ) → length (inputs_at (map inputs_in scans.now) i) < 65536 }
    ensures { OnOk result (text.new ≡ text.old ++ case_text app.now name.now every conditions.now (map inputs_in scans.now)) }
{
    text.extend_from_slice(b"case ")?;
    text.extend_from_slice(name)?;
    text.extend_from_slice(b"\n")?;
    add_lines(text, app, every, conditions, scans)
}

/// Whether the times of so many scans that come so many ms apart are those of a trace: the last one is not past the
/// largest time.
pub(crate) fn has_times(every: u32, scans: usize) -> bool
    ensures { result ≡ has_times every scans }
{
    match u64::from(every).checked_mul(scans.saturating_sub(1) as u64) {
        Some(last) => last <= u64::from(LARGEST_TIME),
        None => false,
    }
}

/// What is told of so many scans whose times are none of a trace.
pub(crate) fn add_late(text: &mut Bytes, scans: usize) -> Result<(), Memory>
    ensures { OnOk result (text.new ≡ text.old ++ late_text scans) }
{
    text.extend_from_slice(b": a shortest case has ")?;
    add_count(text, scans as u64, b"scan")?;
    text.extend_from_slice(b", whose times would pass 4294967295 ms\n")
}
