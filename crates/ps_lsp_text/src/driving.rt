// The statement that drives a name.

ghost use Rattle.std.specs.Prelude.{◌≡◌, ◌==◌, ◌||◌, ◌-◌, ◌≤◌, ℕ, List, true, false, IfSome, IfNone};
ghost use Rattle.ps_lsp_text.specs.Driving.{Drives, IsDriver, IsDriverTold, IsStatementEnd, ends_before};
ghost use Rattle.ps_lsp_text.specs.Looking.{form_in};
ghost use Rattle.ps_lsp_text.specs.Made.{Extends};

use crate::looking::{form_at, name_at};
use crate::made::MadeText;
use ps_lexer::{Form, Token, Word};
use ps_text::line_at;

// The most bytes of a statement that are shown.
const MOST_SHOWN: usize = 120;

// Whether a statement may begin at a token: after the one before it, or after a section.
fn may_begin(tokens: &[Token], at: usize) -> bool
    ensures { result ≡ (at == 0) || ends_before (form_in tokens.now (at - 1)) }
{
    at == 0
        || matches!(
            form_at(tokens, at.saturating_sub(1)),
            Some(Form::Semicolon | Form::Word(Word::EndVar))
        )
}

// Whether a token begins the statement that assigns a name, or the call of an instance.
fn drives(tokens: &[Token], at: usize, name: &[u8]) -> bool
    ensures yes { result ≡ true → Drives tokens.now name.now at }
    ensures no { result ≡ false → Drives tokens.now name.now at → ⊥ }
{
    let is_of = match name_at(tokens, at) {
        Some(other) => other.eq_ignore_ascii_case(name),
        None => false,
    };
    is_of
        && may_begin(tokens, at)
        && matches!(
            form_at(tokens, at.saturating_add(1)),
            Some(Form::Assign | Form::LeftBracket)
        )
}

// The number of the token with which the statement begins that drives a name, from a token on.
fn driver_from(tokens: &[Token], name: &[u8], from: usize) -> Option<usize>
    ensures some { IfSome result (IsDriver tokens.now name.now from) }
    ensures none { IfNone result ((at : ℕ) → from ≤ at → Drives tokens.now name.now at → ⊥) }
{
    for at in from..tokens.len() {
        if drives(tokens, at, name) {
            return Some(at);
        }
    }
    None
}

// Where the statement ends that begins at a token: before its semicolon, or with the text.
fn end_from(text: &[u8], tokens: &[Token], at: usize) -> usize
    ensures { IsStatementEnd text.now tokens.now at result }
{
    for i in at..tokens.len() {
        if matches!(tokens[i].form, Form::Semicolon) {
            return tokens[i].from as usize;
        }
    }
    text.len()
}

/// Tells in which line a name is driven, and by what, after other words: the assignment of a signal, or the call of an
/// instance, from a token on. Nothing where there is none. A statement of several lines is shown by its first one.
pub(crate) fn add_driver(
    words: &mut MadeText,
    text: &[u8],
    tokens: &[Token],
    name: &[u8],
    from: usize,
)
    ensures { (told : List ℕ) × IsDriverTold text.now tokens.now name.now from told × Extends words.old words.new told }
{
    let Some(at) = driver_from(tokens, name, from) else {
        return;
    };
    let Some(token) = tokens.get(at) else {
        return;
    };
    let begin = (token.from as usize).min(text.len());
    let end = end_from(text, tokens, at).min(text.len()).max(begin);
    words.add_number(b"\ndriven in line ", token.place.line);
    words.add(b": ");
    words.add_first(line_at(&text[begin..end], 1), MOST_SHOWN);
}
