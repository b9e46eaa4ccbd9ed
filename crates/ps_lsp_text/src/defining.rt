// Where what stands at a place is declared.

ghost use Rattle.std.specs.Prelude.{◌≡◌, IfOk, Some, option_map};
ghost use Rattle.ps_lsp_text.specs.Defining.{IsDefined, IsDefinition};

use crate::looking::{is_dot, name_at, name_touched, width};
use crate::sight::{Asked, Sight};
use ps_base::{Memory, Place};
use std::alloc::Global;

/// Where a name is declared.
#[derive(Clone, Copy)]
pub struct Defined {
    /// Its place in the text that declares it.
    pub place: Place,
    /// How many bytes it has there.
    pub width: u32,
    /// Whether this is the text as it is, and not the last one that parsed.
    pub is_today: bool,
}

// The declaration of the name that is one of today's tokens.
fn declared_at(sight: &Sight, at: usize) -> Option<Defined>
    ensures { IsDefinition sight.now.today sight.now.earlier (Some at) result }
{
    if at >= 1 && is_dot(sight.today(), at - 1) {
        return None;
    }
    let declared = sight.declaration(name_at(sight.today(), at)?, at)?;
    let token = sight.tokens_with(declared).get(declared.at)?;
    Some(Defined {
        place: token.place,
        width: width(token),
        is_today: declared.is_today,
    })
}

/// Where the name at a place of a text is declared: in the text as it is, or else in the last one that parsed. Nothing
/// where no declared name stands there.
pub fn definition(alloc: Global, asked: Asked) -> Result<Option<Defined>, Memory>
    ensures { IfOk result (IsDefined asked.entry.text.now (option_map (λ text. text.now) asked.entry.parsed) asked.entry.place) }
{
    let sight = Sight::of(alloc, asked.text, asked.parsed)?;
    match name_touched(sight.today(), asked.place) {
        Some(at) => Ok(declared_at(&sight, at)),
        None => Ok(None),
    }
}
