// What is told of an application that is refused.

ghost use Rattle.std.specs.Prelude.{◌≡◌, ◌++◌, ℕ, List, IfOk};
ghost use Rattle.ps_base.specs.declared.failing.Refusal.{Refusal as RefusalOf};
ghost use Rattle.ps_text.specs.Also.{also_text};
ghost use Rattle.ps_message.specs.Message.{Says};

use crate::{detail_on, further_refusals};
use ps_base::{Bytes, Memory, Refusal};
use ps_message::message;
use ps_text::also_lines;
use std::alloc::Global;

// The most further refusals that are told.
const MOST_FURTHER: usize = 10;

// The lines of the refusals of an application after the first one.
fn further_on(alloc: Global, name: &[u8], source: &[u8], refusal: &Refusal) -> Result<Bytes, Memory>
    ensures { IfOk result (λ bytes. (further : List RefusalOf) × (more : ℕ)
        × (bytes ≡ also_text name.now source.now further more)) }
{
    let all = further_refusals(alloc, source, refusal)?;
    let told = all.len().min(MOST_FURTHER);
    let more = (all.len() - told).min(u32::MAX as usize) as u32;
    also_lines(alloc, name, source, &all[..told], more)
}

/// The message of a refusal of the application of this name and this text, and after it the lines of further refusals
/// of the same letter. An error means out of memory.
pub fn refusal_of_app(
    alloc: Global,
    name: &str,
    source: &[u8],
    refusal: &Refusal,
) -> Result<Bytes, Memory>
    ensures { IfOk result (λ bytes. (given first : List ℕ) × Says name.now source.now refusal.now given first
        × (further : List RefusalOf) × (more : ℕ) × (bytes ≡ first ++ also_text name.now source.now further more)) }
{
    let file = name.as_bytes();
    let words = detail_on(alloc, source, refusal)?;
    let mut bytes = message(alloc, file, source, refusal, words.as_slice())?;
    let further = further_on(alloc, file, source, refusal)?;
    bytes.extend_from_slice(further.as_slice())?;
    Ok(bytes)
}
