// What a check finds, in a list.

use ps_base::{Memory, Refusal};

/// Adds what a check found among some offences to a list, where it found something.
pub(crate) fn add(list: &mut Vec<Refusal>, found: Option<Refusal>) -> Result<(), Memory> {
    match found {
        Some(refusal) => Ok(list.push(refusal)?),
        None => Ok(()),
    }
}
