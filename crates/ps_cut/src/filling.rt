// The inputs of an application in a scan, from those of its part.

ghost use Rattle.std.specs.Prelude.{◌≡◌, IfOk};
ghost use Rattle.ps_cut.specs.Filling.{AreFilled, filled, is_value_of};

use crate::part::{Origin, Part};
use ps_base::Memory;
use ps_reach::ScanInputs;
use std::alloc::Global;

// Whether a signal of the part has the value of this signal of the application in each scan.
fn is_value_of(s: usize, origin: Origin) -> bool
    ensures { result ≡ is_value_of s origin }
{
    match origin {
        Origin::Now(signal) => usize::from(signal) == s,
        Origin::Before(_) => false,
    }
}

// The value of an input of the application: that of the first input of the part that has it, or else another one.
fn filled(origins: &[Origin], values: &[bool], s: usize, other: bool) -> bool
    ensures { result ≡ filled origins.now values.now s other }
{
    for r in 0..origins.len() {
        if r >= values.len() {
            return other;
        }
        if is_value_of(s, origins[r]) {
            return values[r];
        }
    }
    other
}

/// The inputs of the application in a scan that is to be like one of its part: an input that the part has too, has the
/// value that it has there, and any other one that of `filling`, which has a value for each input of the application.
/// An error means out of memory.
pub fn inputs_of_whole(
    alloc: Global,
    part: &Part,
    scan: &ScanInputs,
    filling: &[bool],
) -> Result<ScanInputs, Memory>
    ensures { IfOk result (λ inputs. AreFilled part.now.origins.items scan.now.values.items filling.now inputs.values.items) }
{
    let origins = part.origins.as_slice();
    let mut values = Vec::with_capacity(alloc, filling.len())?;
    for s in 0..filling.len() {
        values.push(filled(origins, scan.values.as_slice(), s, filling[s]))?;
    }
    Ok(ScanInputs { values })
}
