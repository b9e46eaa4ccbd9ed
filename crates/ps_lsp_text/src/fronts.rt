// What of a text decides of it.

ghost use Rattle.std.specs.Prelude.{◌≡◌, ◌+◌, take};
ghost use Rattle.ps_base.specs.declared.limits.TheConstants.{LARGEST_SOURCE};

use ps_base::limits::LARGEST_SOURCE;

/// The bytes that decide of a text: all of it, or one more than the largest source has.
#[tactic(auto, using(crate::proofs::Deciding::whole, crate::proofs::Deciding::front_of))]
pub(crate) fn front_of(text: &str) -> &[u8]
    ensures { result.now ≡ take (LARGEST_SOURCE + 1) text.now }
{
    let bytes = text.as_bytes();
    if bytes.len() <= LARGEST_SOURCE as usize {
        bytes
    } else {
        &bytes[..LARGEST_SOURCE as usize + 1]
    }
}
