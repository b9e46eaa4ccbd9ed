// What is told of two applications.

ghost use Rattle.std.specs.Prelude.{◌≡◌, ◌+◌, ◌<◌, ◌≤◌, ◌++◌, ℕ, All, List, [], Option, Some, OnOk, IfOk, codes, count_by, false, length, map, slice_get, slice_index_or};
ghost use Rattle.std.specs.List.{flat_map, range_with_len};
ghost use Rattle.ps_model.specs.Network.{input_count};
ghost use Rattle.ps_bench_never.specs.Casing.{inputs_at, set_text};
ghost use Rattle.ps_pairs.specs.Answering.{IsOfOneRule};
ghost use Rattle.ps_pairs.specs.Outputs.{AsksOutputs};
ghost use Rattle.ps_pairs.specs.Promised.{HaveAsMany};
ghost use Rattle.ps_reach.specs.Asking.{at_first};
ghost use Rattle.ps_reach.specs.Promised.{SaysOfEach};
ghost use Rattle.ps_reach.specs.Reaching.{is_free, scan_count};
ghost use Rattle.ps_reach.specs.Telling.{inputs_from};
ghost use Rattle.ps_reach.specs.Tracing.{inputs_in};
ghost use Rattle.ps_search.specs.declared.answer.Found.{Found as FoundOf};
ghost use Rattle.ps_search.specs.declared.answer.Path.{Path as PathOf};
ghost use Rattle.ps_bench_never.specs.SameTelling.{IsSaid, alike, apart_text, counts_text, difference_case, expects_text, failing_text, fails_text};
ghost use Rattle.ps_bench_never.specs.SameTelling.{first_place, first_text, met_text, named_case, names_text, other_text, output_text, outputs_text};
ghost use Rattle.ps_bench_never.specs.SameTelling.{pairs_text, passing_text, place_text, remark_text, scans_text, shortage_text, unmet_text, value_text};
ghost use Rattle.ps_reach.specs.Comparing.{two_of};

use crate::casing::{add_late, has_times};
use crate::{add_case, add_set, signal_text};
use ps_base::{Bytes, Memory};
use ps_bench_frame::pieces::{add_count, add_shown};
use ps_model::App;
use ps_pairs::outputs_behind;
use ps_reach::{Asked, Behind, Compared, ScanInputs, inputs_of};
use ps_search::{End, Found, Path};
use std::alloc::Global;

// The names of both.
fn add_names(text: &mut Bytes, compared: &Compared<'_>) -> Result<(), Memory>
    ensures { OnOk result (text.new ≡ text.old ++ names_text (two_of compared.now)) }
{
    add_shown(text, compared.name)?;
    text.extend_from_slice(b" and ")?;
    add_shown(text, compared.other_name)
}

// So many pairs of states.
fn add_pairs(text: &mut Bytes, states: u32) -> Result<(), Memory>
    ensures { OnOk result (text.new ≡ text.old ++ pairs_text states) }
{
    text.extend_from_slice(b" have the same outputs (")?;
    add_count(text, u64::from(states), b"pair")
}

// So many scans.
fn add_scans(text: &mut Bytes, steps: u64) -> Result<(), Memory>
    ensures { OnOk result (text.new ≡ text.old ++ scans_text steps) }
{
    text.extend_from_slice(b" of states, ")?;
    add_count(text, steps, b"scan")?;
    text.extend_from_slice(b")\n")
}

// They have the same outputs, by so many pairs of states and scans.
fn add_counts(text: &mut Bytes, states: u32, steps: u64) -> Result<(), Memory>
    ensures { OnOk result (text.new ≡ text.old ++ counts_text states steps) }
{
    add_pairs(text, states)?;
    add_scans(text, steps)
}

// No output differs in any scan.
fn add_holds(text: &mut Bytes, compared: &Compared<'_>, found: &Found) -> Result<(), Memory>
    ensures { OnOk result (text.new ≡ text.old ++ unmet_text (two_of compared.now) found.now.states found.now.steps End.Whole) }
{
    text.extend_from_slice(b"HOLDS ")?;
    add_names(text, compared)?;
    add_counts(text, found.states, found.steps)
}

// So many pairs of states were not enough to look at longer runs.
fn add_shortage(text: &mut Bytes, most: u32, depth: u32) -> Result<(), Memory>
    ensures { OnOk result (text.new ≡ text.old ++ shortage_text most depth) }
{
    text.extend_from_slice(b": ")?;
    add_count(text, u64::from(most), b"pair")?;
    text.extend_from_slice(b" of states were not enough; none of up to ")?;
    add_count(text, u64::from(depth), b"scan")?;
    text.extend_from_slice(b"\n")
}

// No output differs in any of so few scans, and there were too many pairs of states to look further.
fn add_open(
    text: &mut Bytes,
    compared: &Compared<'_>,
    found: &Found,
    depth: u32,
) -> Result<(), Memory>
    ensures { OnOk result (text.new ≡ text.old
        ++ unmet_text (two_of compared.now) found.now.states found.now.steps (End.Limit depth)) }
{
    let _ = found;
    text.extend_from_slice(b"OPEN ")?;
    add_names(text, compared)?;
    add_shortage(text, compared.most, depth)
}

// What is told where no scan was found after which an output differs.
fn add_unmet(text: &mut Bytes, compared: &Compared<'_>, found: &Found) -> Result<(), Memory>
    ensures { OnOk result (text.new ≡ text.old
        ++ unmet_text (two_of compared.now) found.now.states found.now.steps found.now.end) }
{
    match found.end {
        End::Whole => add_holds(text, compared, found),
        End::Settled => Ok(()),
        End::Limit { depth } => add_open(text, compared, found, depth),
    }
}

/// Whether two values are the same.
pub(crate) fn alike(value: bool, other: bool) -> bool
    ensures { result ≡ alike value other }
{
    value == other
}

// The place of the first values that differ.
fn first_place(values: &[bool], others: &[bool]) -> usize
    requires { length others.now ≡ length values.now }
    ensures is { result ≡ first_place values.now others.now }
    ensures within { result ≤ length values.now }
{
    for i in 0..values.len() {
        if !alike(values[i], others[i]) {
            return i;
        }
    }
    values.len()
}

// A value of a list, and FALSE past it.
fn value_at(values: &[bool], i: usize) -> bool
    ensures { result ≡ slice_index_or values.now i false }
{
    if i < values.len() { values[i] } else { false }
}

// The name of an output, by its place among the outputs.
fn add_output(text: &mut Bytes, app: &App, place: usize) -> Result<(), Memory>
    requires { place ≤ length app.now.outputs }
    ensures { OnOk result (text.new ≡ text.old ++ output_text app.now place) }
{
    app.sound();
    text.extend_from_slice(signal_text(app, app.input_count() + place as u16))
}

// A value as 0 or 1.
fn add_value(text: &mut Bytes, value: bool) -> Result<(), Memory>
    ensures { OnOk result (text.new ≡ text.old ++ value_text value) }
{
    if value {
        text.extend_from_slice(b"1")
    } else {
        text.extend_from_slice(b"0")
    }
}

// An output with its value in the first application.
fn add_first(text: &mut Bytes, app: &App, value: bool, place: usize) -> Result<(), Memory>
    requires { place ≤ length app.now.outputs }
    ensures { OnOk result (text.new ≡ text.old ++ first_text app.now value place) }
{
    add_output(text, app, place)?;
    text.extend_from_slice(b" is ")?;
    add_value(text, value)?;
    text.extend_from_slice(b" in the first")
}

// Its value in the other.
fn add_other(text: &mut Bytes, value: bool) -> Result<(), Memory>
    ensures { OnOk result (text.new ≡ text.old ++ other_text value) }
{
    text.extend_from_slice(b" and ")?;
    add_value(text, value)?;
    text.extend_from_slice(b" in the other\n")
}

// The first output that differs, with its value in both.
fn add_place(
    text: &mut Bytes,
    app: &App,
    values: &[bool],
    others: &[bool],
    place: usize,
) -> Result<(), Memory>
    requires { place ≤ length app.now.outputs }
    ensures { OnOk result (text.new ≡ text.old ++ place_text app.now values.now others.now place) }
{
    add_first(text, app, value_at(values, place), place)?;
    add_other(text, value_at(others, place))
}

// On which of both the case fails.
fn add_fails(text: &mut Bytes, compared: &Compared<'_>) -> Result<(), Memory>
    ensures { OnOk result (text.new ≡ text.old ++ fails_text (two_of compared.now)) }
{
    text.extend_from_slice(b": it passes there and fails on ")?;
    add_shown(text, compared.other_name)?;
    text.extend_from_slice(b"\n")
}

// On which of both the case passes.
fn add_expects(text: &mut Bytes, compared: &Compared<'_>) -> Result<(), Memory>
    ensures { OnOk result (text.new ≡ text.old ++ expects_text (two_of compared.now)) }
{
    text.extend_from_slice(b"# it expects the outputs of ")?;
    add_shown(text, compared.name)
}

// For which of both the case is made.
fn add_remark(text: &mut Bytes, compared: &Compared<'_>) -> Result<(), Memory>
    ensures { OnOk result (text.new ≡ text.old ++ remark_text (two_of compared.now)) }
{
    add_expects(text, compared)?;
    add_fails(text, compared)
}

// Outputs with their values, in order.
fn add_values(text: &mut Bytes, app: &App, values: &[bool]) -> Result<(), Memory>
    ensures { OnOk result (text.new ≡ text.old
        ++ flat_map (λ o. set_text app.now (input_count app.now + o) (slice_index_or values.now o false))
        (range_with_len 0 (length app.now.outputs))) }
{
    app.sound();
    let first = app.input_count();
    for o in 0..app.output_count() {
        add_set(text, app, first + o, value_at(values, o as usize))?;
    }
    Ok(())
}

// The outputs as an expectation.
fn add_outputs(text: &mut Bytes, app: &App, values: &[bool]) -> Result<(), Memory>
    ensures { OnOk result (text.new ≡ text.old ++ outputs_text app.now values.now) }
{
    text.extend_from_slice(b"  expect")?;
    add_values(text, app, values)?;
    text.extend_from_slice(b"\n")
}

// The name of the case of a difference at an output.
fn case_name(alloc: Global, app: &App, place: usize) -> Result<Bytes, Memory>
    requires { place ≤ length app.now.outputs }
    ensures { IfOk result (λ name. name ≡ output_text app.now place ++ codes " is as it was") }
{
    let mut name = Bytes::new(alloc);
    add_output(&mut name, app, place)?;
    name.extend_from_slice(b" is as it was")?;
    Ok(name)
}

// These scans as a case, whose name says that an output is as it was.
fn add_named(
    text: &mut Bytes,
    alloc: Global,
    app: &App,
    every: u32,
    scans: &[ScanInputs],
    place: usize,
) -> Result<(), Memory>
    requires place { place ≤ length app.now.outputs }
    requires few { (i : ℕ) → length (inputs_at (map inputs_in scans.now) i) < 65536 }
    ensures { OnOk result (text.new ≡ text.old ++ named_case app.now every (map inputs_in scans.now) place) }
{
    let name = case_name(alloc, app, place)?;
    add_case(text, app, name.as_slice(), every, &[], scans)
}

// The scans of a run as a case, whose name says that an output is as it was.
fn add_run(
    text: &mut Bytes,
    alloc: Global,
    app: &App,
    asked: &Asked,
    path: &Path,
    place: usize,
) -> Result<(), Memory>
    requires says { SaysOfEach app.now asked.now }
    requires place { place ≤ length app.now.outputs }
    ensures { OnOk result (text.new ≡ text.old
        ++ named_case app.now asked.now.every (inputs_from app.now asked.now (at_first app.now) path.now.inputs.items) place) }
{
    app.sound();
    let scans = inputs_of(alloc, app, asked, path)?;
    add_named(text, alloc, app, asked.every, scans.as_slice(), place)
}

// The case of a difference at an output.
fn add_difference(
    text: &mut Bytes,
    alloc: Global,
    app: &App,
    asked: &Asked,
    path: &Path,
    values: &[bool],
    place: usize,
) -> Result<(), Memory>
    requires says { SaysOfEach app.now asked.now }
    requires place { place ≤ length app.now.outputs }
    ensures { OnOk result (text.new ≡ text.old ++ difference_case app.now asked.now path.now.inputs.items values.now place) }
{
    add_run(text, alloc, app, asked, path, place)?;
    add_outputs(text, app, values)
}

// An output differs after so many scans.
fn add_failing(text: &mut Bytes, compared: &Compared<'_>, scans: u64) -> Result<(), Memory>
    ensures { OnOk result (text.new ≡ text.old ++ failing_text (two_of compared.now) scans) }
{
    text.extend_from_slice(b"FAILS ")?;
    add_names(text, compared)?;
    text.extend_from_slice(b", in ")?;
    add_count(text, scans, b"scan")?;
    text.extend_from_slice(b": ")
}

// An output differs after the scans of a run, after which both have these outputs.
fn add_met(
    text: &mut Bytes,
    alloc: Global,
    compared: &Compared<'_>,
    asked: &Asked,
    path: &Path,
    behind: &Behind<'_>,
) -> Result<(), Memory>
    requires says { SaysOfEach compared.now.app.now asked.now }
    requires values { length behind.now.first.now ≡ length compared.now.app.now.outputs }
    requires others { length behind.now.other.now ≡ length behind.now.first.now }
    ensures { OnOk result (text.new ≡ text.old ++ met_text (two_of compared.now) asked.now path.now.inputs.items
        behind.now.first.now behind.now.other.now (first_place behind.now.first.now behind.now.other.now)) }
{
    let place = first_place(behind.first, behind.other);
    add_failing(text, compared, path.inputs.len() as u64)?;
    add_place(text, compared.app, behind.first, behind.other, place)?;
    add_remark(text, compared)?;
    add_difference(
        text,
        alloc,
        compared.app,
        asked,
        path,
        behind.expected(),
        place,
    )
}

// An output differs first after so many scans, whose times are none of a trace.
fn add_passing(text: &mut Bytes, compared: &Compared<'_>, scans: usize) -> Result<(), Memory>
    ensures { OnOk result (text.new ≡ text.old ++ passing_text (two_of compared.now) scans) }
{
    text.extend_from_slice(b"OPEN ")?;
    add_names(text, compared)?;
    add_late(text, scans)
}

// What is told where an output differs after the scans of a run, after which both have these outputs.
fn add_apart(
    text: &mut Bytes,
    alloc: Global,
    compared: &Compared<'_>,
    asked: &Asked,
    path: &Path,
    behind: &Behind<'_>,
) -> Result<(), Memory>
    requires says { SaysOfEach compared.now.app.now asked.now }
    requires values { length behind.now.first.now ≡ length compared.now.app.now.outputs }
    requires others { length behind.now.other.now ≡ length behind.now.first.now }
    ensures { OnOk result (text.new ≡ text.old ++ apart_text (two_of compared.now) asked.now path.now.inputs.items
        behind.now.first.now behind.now.other.now (first_place behind.now.first.now behind.now.other.now)) }
{
    let scans = path.inputs.len();
    if has_times(asked.every, scans) {
        add_met(text, alloc, compared, asked, path, behind)
    } else {
        add_passing(text, compared, scans)
    }
}

// What is told where the search found scans after which an output differs.
fn met(alloc: Global, compared: &Compared<'_>, asked: &Asked, path: &Path) -> Result<Bytes, Memory>
    requires says { SaysOfEach compared.now.app.now asked.now }
    requires few { count_by is_free asked.now.inputs.items ≤ 20 }
    requires many { HaveAsMany compared.now.app.now compared.now.other.now }
    requires outputs { AsksOutputs compared.now.app.now asked.now }
    requires numbers { All (λ a. a < scan_count asked.now) path.now.inputs.items }
    ensures { IfOk result (λ text. (found : FoundOf) → IsSaid (two_of compared.now) asked.now found (Some path.now) text) }
{
    let values = outputs_behind(alloc, compared.app, asked, path)?;
    let others = outputs_behind(alloc, compared.other, asked, path)?;
    let behind = Behind {
        first: values.as_slice(),
        other: others.as_slice(),
    };
    let mut text = Bytes::new(alloc);
    add_apart(&mut text, alloc, compared, asked, path, &behind)?;
    Ok(text)
}

// What is told where the search found none.
fn unmet(alloc: Global, compared: &Compared<'_>, found: &Found) -> Result<Bytes, Memory>
    ensures { IfOk result (λ text. text ≡ unmet_text (two_of compared.now) found.now.states found.now.steps found.now.end) }
{
    let mut text = Bytes::new(alloc);
    add_unmet(&mut text, compared, found)?;
    Ok(text)
}

/// What is told of two applications by what a search found of what is asked of both: `HOLDS` where no output differs in
/// any scan, `FAILS` with the first output that does and a shortest case, `OPEN` where its times would not fit into 32
/// bits and where there were too many pairs of states. An error means out of memory.
pub(crate) fn told(
    alloc: Global,
    compared: &Compared<'_>,
    asked: &Asked,
    found: &Found,
) -> Result<Bytes, Memory>
    requires says { SaysOfEach compared.now.app.now asked.now }
    requires few { count_by is_free asked.now.inputs.items ≤ 20 }
    requires many { HaveAsMany compared.now.app.now compared.now.other.now }
    requires outputs { AsksOutputs compared.now.app.now asked.now }
    requires run { IsOfOneRule asked.now found.now }
    ensures { IfOk result (λ text. (path : Option PathOf) × (slice_get found.now.paths.items 0 ≡ Some path)
        × IsSaid (two_of compared.now) asked.now found.now path text) }
{
    match &found.paths[0] {
        Some(path) => met(alloc, compared, asked, path),
        None => unmet(alloc, compared, found),
    }
}
