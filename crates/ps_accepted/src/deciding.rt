// What the text of a source gives, from the bytes that decide of it.

ghost use Rattle.std.specs.Prelude.{◌≡◌, List, ℕ, IfOk};
ghost use Rattle.ps_names.specs.Stands.{Stands};
ghost use Rattle.ps_accepted.specs.Source.{IsProgram};
ghost use Rattle.ps_accepted.specs.Answering.{IsFrontOf, IsResolved, IsAcceptance, IsChecked, app_of, source_of};
ghost use Rattle.ps_accepted.specs.Demanding.{IsCheckedOf, IsDemanding};

use crate::accepting::{Accepted, accept_source, resolve_source};
use crate::demanding::{Demanded, demand_source};
use ps_base::Fail;
use ps_model::App;
use std::alloc::Global;

/// The application of the text that begins with these bytes, by the rules L, P, B and N, tried in this order. Where it
/// has function blocks, it is that of its flat source. The bytes are all of the text, or one more than the largest
/// source has.
pub fn resolve_text(alloc: Global, text: &[u8]) -> Result<App, Fail>
    ensures decides { (whole : List ℕ) → IsFrontOf text.now whole → IsResolved whole result }
{
    let (_, app) = resolve_source(alloc, text)?;
    Ok(app)
}

/// The accepted application of the text that begins with these bytes, by the rules L, P, B, N and S, tried in this
/// order, with its flat source and its certificate. The bytes are all of the text, or one more than the largest source
/// has.
pub fn accept_text(alloc: Global, text: &[u8]) -> Result<Accepted, Fail>
    ensures decides { (whole : List ℕ) → IsFrontOf text.now whole → IsAcceptance whole result }
    ensures checked { IfOk result IsChecked }
    ensures sourced { IfOk result (λ a. IsProgram text.now (source_of a) × Stands (source_of a) (app_of a)) }
{
    accept_source(alloc, text)
}

/// The accepted application of the text that begins with these bytes, by the rules L, P, B, N and S, with the lines of
/// what its outputs demand; or in the place of the lines the refusal by the rule M1, where a SAFEBOOL output has a
/// demand of over 1,000 leaves before it is made slim. The bytes are all of the text, or one more than the largest
/// source has.
pub fn demand_text(alloc: Global, text: &[u8]) -> Result<Demanded, Fail>
    ensures decides { (whole : List ℕ) → IsFrontOf text.now whole → IsDemanding whole result }
    ensures checked { IfOk result IsCheckedOf }
{
    demand_source(alloc, text)
}
