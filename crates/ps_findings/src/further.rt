// The refusals of a text after the first one.

use crate::flows::flows_in;
use crate::sources::{library_of, source_of};
use ps_base::{Fail, Memory, Refusal, Rule};
use ps_offences::{in_order, offences_of_blocks, offences_of_names};
use std::alloc::Global;

// All refusals of a text by the rules B; a failure where a rule L or P refuses it.
fn blocks_in(alloc: Global, text: &[u8]) -> Result<Vec<Refusal>, Fail> {
    match library_of(alloc, text) {
        Ok(library) => Ok(offences_of_blocks(alloc, &library)?),
        Err(fail) => Err(fail),
    }
}

// All refusals of a text by the rules N; a failure where a rule L, P or B refuses it.
fn names_in(alloc: Global, text: &[u8]) -> Result<Vec<Refusal>, Fail> {
    match source_of(alloc, text) {
        Ok(source) => Ok(offences_of_names(alloc, &source)?),
        Err(fail) => Err(fail),
    }
}

// What was found; nothing where another rule refuses the text.
fn found_in(alloc: Global, found: Result<Vec<Refusal>, Fail>) -> Result<Vec<Refusal>, Memory> {
    match found {
        Ok(list) => Ok(list),
        Err(Fail::Memory) => Err(Memory),
        Err(Fail::Refused(_)) => Ok(Vec::new(alloc)),
    }
}

/// The refusals of the letter of this first one that the application of a text has after it: of the rules S all, in
/// the order of statements and pins; of the rules B and N those of each declaration and statement, in the order of
/// their places. Of other letters none is known. It takes time in proportion to the text, but for the sort of what is
/// found.
pub fn further_refusals(
    alloc: Global,
    text: &[u8],
    first: &Refusal,
) -> Result<Vec<Refusal>, Memory> {
    match first.rule {
        Rule::B1 | Rule::B2 | Rule::B3 | Rule::B4 | Rule::B5 => {
            in_order(alloc, found_in(alloc, blocks_in(alloc, text))?, first)
        }
        Rule::N1
        | Rule::N2
        | Rule::N3
        | Rule::N4
        | Rule::N5
        | Rule::N6
        | Rule::N7
        | Rule::N8
        | Rule::N9
        | Rule::N10
        | Rule::N11
        | Rule::N12 => in_order(alloc, found_in(alloc, names_in(alloc, text))?, first),
        Rule::S1 | Rule::S2 | Rule::S3 | Rule::S4 => {
            found_in(alloc, flows_in(alloc, text, first))
        }
        _ => Ok(Vec::new(alloc)),
    }
}
