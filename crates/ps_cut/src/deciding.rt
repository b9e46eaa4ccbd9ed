// A run of a part that is one of the application.

ghost use Rattle.std.specs.Prelude.{◌≡◌, IfOk, IfSome, length, map};
ghost use Rattle.ps_reach.specs.Promised.{IsWitness};
ghost use Rattle.ps_reach.specs.Telling.{items_of, scans_at};
ghost use Rattle.ps_reach.specs.Tracing.{inputs_in};
ghost use Rattle.ps_cut.specs.Cutting.{IsCutOf};

use crate::cutting::Cut;
use crate::filling::inputs_of_whole;
use crate::part::Part;
use crate::proving::OfRule;
use crate::trying::tried;
use ps_base::Memory;
use ps_reach::{ScanInputs, inputs_of};
use ps_search::Path;
use std::alloc::Global;

// With how many fillings of the inputs that a part has not a run of it is tried.
const MOST_FILLINGS: u64 = 100;

// How many of these give each input one value in all scans, so that a case that is found has few changes.
const STEADY_FILLINGS: u64 = 60;

// A value that these numbers draw.
fn mixed(filling: u64, scan: u64, input: u64) -> bool {
    let place = scan.wrapping_mul(0x9e37_79b9_7f4a_7c15)
        ^ input.wrapping_mul(0xc2b2_ae3d_27d4_eb4f);
    let drawn = (place ^ filling).wrapping_mul(0xff51_afd7_ed55_8ccd);
    (drawn >> 40) % 2 == 1
}

// The value of an input in a scan by the number of a filling: 0 is FALSE everywhere, 1 is TRUE, the next ones give each
// input a value of its own, and others change it from scan to scan.
fn drawn(filling: u64, scan: u64, input: u64) -> bool {
    match filling {
        0 => false,
        1 => true,
        _ if filling < STEADY_FILLINGS => mixed(filling, 0, input),
        _ => mixed(filling, scan, input),
    }
}

// A value for each of so many inputs in a scan, by the number of a filling.
fn values_drawn(alloc: Global, count: u16, scan: u64, filling: u64) -> Result<Vec<bool>, Memory> {
    let mut values = Vec::with_capacity(alloc, usize::from(count))?;
    for input in 0..count {
        values.push(drawn(filling, scan, u64::from(input)))?;
    }
    Ok(values)
}

// The inputs of as many scans of an application, which has so many, as these of its part, with a filling.
fn wanted_scans(
    alloc: Global,
    part: &Part,
    of_part: &[ScanInputs],
    count: u16,
    filling: u64,
) -> Result<Vec<ScanInputs>, Memory>
    ensures { IfOk result (λ scans. length scans.items ≡ length of_part.now) }
{
    let mut scans = Vec::with_capacity(alloc, of_part.len())?;
    for k in 0..of_part.len() {
        let others = values_drawn(alloc, count, k as u64, filling)?;
        scans.push(inputs_of_whole(alloc, part, &of_part[k], others.as_slice())?)?;
    }
    Ok(scans)
}

/// A shortest run of the application whose last scan meets a rule, if a shortest one of a part of it is one of the
/// application with some of the values that the inputs can have that the part has not. `None` says nothing of the rule.
/// An error means out of memory.
pub(crate) fn run_of_whole(
    alloc: Global,
    of: &OfRule<'_, '_>,
    cut: &Cut,
    path: &Path,
) -> Result<Option<Vec<ScanInputs>>, Memory>
    requires is_cut { IsCutOf of.now.app.now of.now.asked.now of.now.rule cut.now }
    requires shortest { IsWitness cut.now.part.app cut.now.asked 0 (items_of cut.now.part.app cut.now.asked path.now.inputs.items) }
    ensures { IfOk result (λ run. IfSome run (λ run. IsWitness of.now.app.now of.now.asked.now of.now.rule
        (scans_at 0 of.now.asked.now.every (map inputs_in run.items)))) }
{
    of.app.sound();
    cut.part.app.sound();
    let of_part = inputs_of(alloc, &cut.part.app, &cut.asked, path)?;
    let count = of.app.input_count();
    for filling in 0..MOST_FILLINGS {
        let wanted = wanted_scans(alloc, &cut.part, of_part.as_slice(), count, filling)?;
        if let Some(run) = tried(alloc, of.app, of.asked, of.rule, wanted.as_slice())? {
            return Ok(Some(run));
        }
    }
    Ok(None)
}
