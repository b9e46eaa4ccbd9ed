// From the function blocks and the program of a text to its flat source.

ghost use Rattle.ps_accepted.specs.Flattening.{Flattens};

use ps_base::Fail;
use ps_derived::Library;
use ps_flatten::flatten;
use ps_offences::first_offence;
use ps_parser::Source;
use std::alloc::Global;

/// The flat source of a text with function blocks: its program, in which copies stand in the place of derived
/// instances.
///
/// It is Ok exactly where none of the rules B1 to B5 refuses the text, as `first_offence` says. Otherwise the answer is
/// the lowest rule that does, at the earliest of its places. A program without function blocks is its own flat source.
pub fn flat_source(alloc: Global, library: Library) -> Result<Source, Fail>
    ensures flattens { Flattens library result }
{
    match first_offence(alloc, &library)? {
        Some(refusal) => Err(Fail::Refused(refusal)),
        None => Ok(flatten(alloc, library)?),
    }
}
