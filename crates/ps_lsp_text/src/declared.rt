// Declarations and calls among tokens.

ghost use Rattle.std.specs.Prelude.{◌≡◌, ◌+◌, ◌-◌, ◌<◌, ℕ, true, false, length, min, IfSome, IfNone, option_map};
ghost use Rattle.ps_lsp_text.specs.Calls.{IsBracketBefore, closing, is_bracket, is_semicolon, opening};
ghost use Rattle.ps_lsp_text.specs.Declaring.{Declares, IsColonOf, IsDeclaration, IsTypeOf, IsUndeclared};
ghost use Rattle.ps_lsp_text.specs.Looking.{form_in};
ghost use Rattle.ps_lsp_text.specs.Outlining.{is_within};
ghost use Rattle.ps_lsp_text.specs.Sections.{IsSectionOf, opens_section, section_after};

use crate::looking::{form_at, name_at, word_at};
use ps_lexer::{Form, Token, Word};

// The most tokens of a list of names that are looked at.
const LONGEST_LIST: usize = 1_000;

// The colon after the names and commas from a token on.
fn colon_from(tokens: &[Token], from: usize) -> Option<usize>
    ensures some { IfSome result (IsColonOf tokens.now from) }
    ensures none { IfNone result ((colon : ℕ) → IsColonOf tokens.now from colon → ⊥) }
{
    for i in from..tokens.len().min(from.saturating_add(LONGEST_LIST)) {
        match form_at(tokens, i) {
            Some(Form::Name(_)) | Some(Form::Comma) => (),
            Some(Form::Colon) => return Some(i),
            _ => return None,
        }
    }
    None
}

/// The type of the declaration that a name is in, if it is in one.
pub(crate) fn declared_type(tokens: &[Token], at: usize) -> Option<&[u8]>
    ensures { IsTypeOf tokens.now at (option_map (λ name. name.now) result) }
{
    let colon = colon_from(tokens, at)?;
    name_at(tokens, colon.saturating_add(1))
}

// Whether a token declares a name.
fn declares(tokens: &[Token], at: usize, name: &[u8]) -> bool
    ensures yes { result ≡ true → Declares tokens.now name.now at }
    ensures no { result ≡ false → Declares tokens.now name.now at → ⊥ }
{
    match name_at(tokens, at) {
        Some(other) => other.eq_ignore_ascii_case(name) && colon_from(tokens, at).is_some(),
        None => false,
    }
}

/// The number of the name that declares a name: the last declaration of it up to a token, or else the first one of the
/// text. Names are without letter case.
pub(crate) fn declaration_of(tokens: &[Token], name: &[u8], upto: usize) -> Option<usize>
    ensures some { IfSome result (IsDeclaration tokens.now name.now upto) }
    ensures none { IfNone result (IsUndeclared tokens.now name.now) }
{
    let mut found = None;
    for i in 0..tokens.len() {
        if i > upto && found.is_some() {
            return found;
        }
        if declares(tokens, i, name) {
            found = Some(i);
        }
    }
    found
}

// Whether a keyword opens a section of names.
fn opens_section(word: Word) -> bool
    ensures { result ≡ opens_section word }
{
    matches!(word, Word::VarInput | Word::VarOutput | Word::Var)
}

/// Whether tokens stand in a section after a token, where it opens or ends one, and else what was.
pub(crate) fn is_in_section(tokens: &[Token], at: usize, was: bool) -> bool
    requires { at < length tokens.now }
    ensures { was ≡ is_within tokens.now at → result ≡ is_within tokens.now (at + 1) }
{
    match word_at(tokens, at) {
        Some(word) => opens_section(word),
        None => was,
    }
}

// The section in which tokens stand after a keyword, if there is one, and before it.
fn section_after(was: Option<Word>, word: Option<Word>) -> Option<Word>
    ensures { result ≡ section_after was word }
{
    match word {
        Some(Word::VarInput | Word::VarOutput | Word::Var) => word,
        Some(Word::EndVar) => None,
        _ => was,
    }
}

/// The section in which a token stands.
pub(crate) fn section_at(tokens: &[Token], at: usize) -> Option<Word>
    ensures { IsSectionOf tokens.now at result }
{
    let mut section = None;
    for i in 0..at.min(tokens.len()) {
        section = section_after(section, word_at(tokens, i));
    }
    section
}

// Whether a token is a semicolon.
fn is_semicolon(tokens: &[Token], i: usize) -> bool
    ensures { result ≡ is_semicolon (form_in tokens.now i) }
{
    matches!(form_at(tokens, i), Some(Form::Semicolon))
}

// Whether a token is a bracket that opens.
fn is_bracket(tokens: &[Token], i: usize) -> bool
    ensures { result ≡ is_bracket (form_in tokens.now i) }
{
    matches!(form_at(tokens, i), Some(Form::LeftBracket))
}

// How many brackets close from a token on that open before it, by how many do so from the next one on.
fn depth_before(tokens: &[Token], i: usize, depth: usize) -> usize
    ensures { result ≡ min (depth + closing (form_in tokens.now i)) 18446744073709551615 - opening (form_in tokens.now i) }
{
    match form_at(tokens, i) {
        Some(Form::RightBracket) => depth.saturating_add(1),
        Some(Form::LeftBracket) => depth.saturating_sub(1),
        _ => depth,
    }
}

/// The bracket that is open before a token, in its statement.
pub(crate) fn bracket_before(tokens: &[Token], at: usize) -> Option<usize>
    ensures some { IfSome result (IsBracketBefore tokens.now at) }
    ensures none { IfNone result ((bracket : ℕ) → IsBracketBefore tokens.now at bracket → ⊥) }
{
    let mut depth = 0usize;
    let mut i = at.min(tokens.len());
    while i > 0 {
        i -= 1;
        if is_semicolon(tokens, i) {
            return None;
        }
        if depth == 0 && is_bracket(tokens, i) {
            return Some(i);
        }
        depth = depth_before(tokens, i, depth);
    }
    None
}
