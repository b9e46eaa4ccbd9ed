// From a text to its flat source, and to its application beside it.

ghost use Rattle.std.specs.Prelude.{List, ℕ, IfOk};
ghost use Rattle.ps_model.specs.Typing.{Accepted};
ghost use Rattle.ps_names.specs.Stands.{Stands};
ghost use Rattle.ps_accepted.specs.Answering.{IsFrontOf};
ghost use Rattle.ps_accepted.specs.Source.{IsProgram};
ghost use Rattle.ps_bench_frame.specs.Sourcing.{IsSourced};

use ps_accepted::accept_text;
use ps_base::Fail;
use ps_model::App;
use ps_parser::Source;
use std::alloc::Global;

/// The flat source of the text that begins with these bytes, and the accepted application that stands for it, by the
/// rules L, P, B, N and S, tried in this order. The bytes are all of the text, or one more than the largest source has.
pub(crate) fn sourced_text(alloc: Global, text: &[u8]) -> Result<(Source, App), Fail>
    ensures decides { (whole : List ℕ) → IsFrontOf text.now whole → IsSourced whole result }
    ensures program { IfOk result (λ r. IsProgram text.now r.0) }
    ensures stands { IfOk result (λ r. Stands r.0 r.1) }
    ensures accepted { IfOk result (λ r. Accepted r.1) }
{
    let accepted = accept_text(alloc, text)?;
    let (source, app, _) = accepted.into_sourced();
    Ok((source, app))
}
