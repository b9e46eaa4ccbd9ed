// Looks at the tokens of a text.

ghost use Rattle.std.specs.Prelude.{◌≡◌, ◌≤◌, ℕ, IfOk, length, take, option_map};
ghost use Rattle.ps_lexer.specs.Gaps.{place_after};
ghost use Rattle.ps_lsp_text.specs.Completing.{begins_before, tokens_before};
ghost use Rattle.ps_lsp_text.specs.Defining.{is_dot};
ghost use Rattle.ps_lsp_text.specs.Pieces.{AreTokensOf};
ghost use Rattle.ps_lsp_text.specs.Sections.{word_in};
ghost use Rattle.ps_lsp_text.specs.Looking.{AreSeen, form_in, name_in, name_touched, width_of, touches};

use ps_base::{Fail, Memory, Place};
use ps_lexer::{Form, Token, TokenList, Tokens, Word, lex};
use std::alloc::Global;

// How many bytes of a text stand before a place.
fn bytes_before(text: &[u8], place: Place) -> usize
    ensures within { result ≤ length text.now }
    ensures place { (at : ℕ) → at ≤ length text.now → place_after (take at text.now) ≡ place → result ≡ at }
{
    let mut line = 1u32;
    for i in 0..text.len() {
        if line == place.line {
            let behind = text.len() - i;
            return i + behind.min(place.column.saturating_sub(1) as usize);
        }
        if text[i] == b'\n' {
            line = line.saturating_add(1);
        }
    }
    text.len()
}

/// The tokens of a piece of a text; none where a rule L refuses it.
pub(crate) fn tokens_or_none(alloc: Global, piece: &[u8]) -> Result<TokenList, Memory>
    ensures are { IfOk result (AreTokensOf piece.now) }
{
    match lex(alloc, piece) {
        Ok(Tokens { list, end: _ }) => Ok(list),
        Err(Fail::Memory) => Err(Memory),
        Err(Fail::Refused(_)) => Ok(TokenList::new(alloc)),
    }
}

/// The tokens of a text: where a rule L refuses it, those before the place at which it does.
pub(crate) fn tokens_of(alloc: Global, text: &[u8]) -> Result<TokenList, Memory>
    ensures { IfOk result (AreSeen text.now) }
{
    match lex(alloc, text) {
        Ok(Tokens { list, end: _ }) => Ok(list),
        Err(Fail::Memory) => Err(Memory),
        Err(Fail::Refused(refusal)) => {
            tokens_or_none(alloc, &text[..bytes_before(text, refusal.place)])
        }
    }
}

/// The form of a token, if there is one.
pub(crate) fn form_at(tokens: &[Token], i: usize) -> Option<&Form>
    ensures { option_map (λ form. form.now) result ≡ form_in tokens.now i }
{
    match tokens.get(i) {
        Some(token) => Some(&token.form),
        None => None,
    }
}

/// The name at a place among the tokens, if there is one.
pub(crate) fn name_at(tokens: &[Token], i: usize) -> Option<&[u8]>
    ensures { option_map (λ name. name.now) result ≡ name_in tokens.now i }
{
    match form_at(tokens, i) {
        Some(Form::Name(name)) => Some(name.as_slice()),
        _ => None,
    }
}

/// The keyword at a place among the tokens, if there is one.
pub(crate) fn word_at(tokens: &[Token], i: usize) -> Option<Word>
    ensures { result ≡ word_in tokens.now i }
{
    match form_at(tokens, i) {
        Some(Form::Word(word)) => Some(*word),
        _ => None,
    }
}

/// Whether a token is a dot.
pub(crate) fn is_dot(tokens: &[Token], i: usize) -> bool
    ensures { result ≡ is_dot (form_in tokens.now i) }
{
    matches!(form_at(tokens, i), Some(Form::Dot))
}

/// How many bytes a token has.
pub(crate) fn width(token: &Token) -> u32
    ensures { result ≡ width_of token.now }
{
    token.upto.saturating_sub(token.from)
}

// Whether a place is in a token or right after it.
fn touches(token: &Token, place: Place) -> bool
    ensures { result ≡ touches place token.now }
{
    token.place.line == place.line
        && token.place.column <= place.column
        && place.column <= token.place.column.saturating_add(width(token))
}

/// The number of the name that a place is in or right after.
pub(crate) fn name_touched(tokens: &[Token], place: Place) -> Option<usize>
    ensures { result ≡ name_touched tokens.now place }
{
    for i in 0..tokens.len() {
        if touches(&tokens[i], place) && name_at(tokens, i).is_some() {
            return Some(i);
        }
    }
    None
}

// Whether a token begins before a place.
fn is_before(token: &Token, place: Place) -> bool
    ensures { result ≡ begins_before place token.now }
{
    token.place.line < place.line
        || (token.place.line == place.line && token.place.column < place.column)
}

/// How many tokens begin before a place.
pub(crate) fn tokens_before(tokens: &[Token], place: Place) -> usize
    ensures { result ≡ tokens_before tokens.now place }
{
    for i in 0..tokens.len() {
        if !is_before(&tokens[i], place) {
            return i;
        }
    }
    tokens.len()
}
