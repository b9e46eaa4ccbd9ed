// The order of refusals in a text.

use ps_base::{Memory, Refusal};
use ps_names::number;
use std::alloc::Global;

// These refusals in the order of their places, and at a place of their rules.
fn sorted(refusals: Vec<Refusal>) -> Result<Vec<Refusal>, Memory> {
    let mut sorted = refusals;
    sorted.sort_by_key(|refusal| (
        refusal.place.line,
        refusal.place.column,
        number(refusal.rule),
    ))?;
    Ok(sorted)
}

/// These refusals of one letter in the order of their places, and at a place of their rules, each once and without
/// this first one: a function block that is used more than once has its offences again in each copy.
pub fn in_order(
    alloc: Global,
    refusals: Vec<Refusal>,
    first: &Refusal,
) -> Result<Vec<Refusal>, Memory> {
    let all = sorted(refusals)?;
    let mut list = Vec::new(alloc);
    let mut last = *first;
    for refusal in &all {
        if *refusal != last && *refusal != *first {
            list.push(*refusal)?;
        }
        last = *refusal;
    }
    Ok(list)
}
