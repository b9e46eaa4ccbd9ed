// How long a piece of a text is from a place on.

ghost use Rattle.std.specs.Prelude.{◌≡◌};
ghost use Rattle.ps_lsp_text.specs.Pieces.{is_same_place, plain_width, range_at, token_width, width_at};

use ps_base::Place;
use ps_lexer::Token;
use ps_text::{Range, cut_at, line_at, name_of, range_from};

// Whether two places are the same.
fn is_same_place(a: Place, b: Place) -> bool
    ensures { result ≡ is_same_place a b }
{
    a.line == b.line && a.column == b.column
}

// How many bytes the token has that begins at a place.
fn token_width(tokens: &[Token], place: Place) -> Option<u32>
    ensures { result ≡ token_width tokens.now place }
{
    'tokens: for token in tokens {
        if is_same_place(token.place, place) {
            return Some(token.upto.saturating_sub(token.from));
        }
    }
    None
}

// How many bytes stand out at a place without a token: those of the name there, or one; all of the line where the place
// is a line alone.
fn plain_width(text: &[u8], place: Place) -> u32
    ensures { result ≡ plain_width text.now place }
{
    let (_, back) = cut_at(line_at(text, place.line), place.column);
    let width = if place.column == 0 {
        back.len()
    } else {
        name_of(back).len().max(1)
    };
    width.min(u32::MAX as usize) as u32
}

// How many bytes stand out at a place: those of its token, or of what else stands there.
fn width_at(text: &[u8], tokens: &[Token], place: Place) -> u32
    ensures { result ≡ width_at text.now tokens.now place }
{
    match token_width(tokens, place) {
        Some(width) => width,
        None => plain_width(text, place),
    }
}

/// The piece of a text that a place is told by.
pub(crate) fn range_at(text: &[u8], tokens: &[Token], place: Place) -> Range
    ensures { result ≡ range_at text.now tokens.now place }
{
    range_from(text, place, width_at(text, tokens, place))
}
