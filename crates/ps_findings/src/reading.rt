// Looks at the tokens of a text.

use ps_base::Place;
use ps_lexer::{Form, Token};

/// The form of a token, if there is one.
pub(crate) fn form_at(tokens: &[Token], i: usize) -> Option<&Form> {
    match tokens.get(i) {
        Some(token) => Some(&token.form),
        None => None,
    }
}

/// The name at a place among the tokens, if there is one.
pub(crate) fn name_at(tokens: &[Token], i: usize) -> Option<&[u8]> {
    match form_at(tokens, i) {
        Some(Form::Name(name)) => Some(name.as_slice()),
        _ => None,
    }
}

/// Whether a token is this name, without letter case.
pub(crate) fn is_named(tokens: &[Token], i: usize, name: &[u8]) -> bool {
    match name_at(tokens, i) {
        Some(other) => other.eq_ignore_ascii_case(name),
        None => false,
    }
}

/// How many brackets are open after a token, where so many were before it; 0 behind a semicolon or the last token.
pub(crate) fn depth_after(depth: usize, form: Option<&Form>) -> usize {
    match form {
        None | Some(Form::Semicolon) => 0,
        Some(Form::LeftBracket) => depth.saturating_add(1),
        Some(Form::RightBracket) => depth.saturating_sub(1),
        Some(_) => depth,
    }
}

/// Whether a token is a dot.
pub(crate) fn is_dot(tokens: &[Token], i: usize) -> bool {
    matches!(form_at(tokens, i), Some(Form::Dot))
}

/// The number of the token that begins at a place of the text, or how many tokens there are.
pub(crate) fn token_at(tokens: &[Token], place: Place) -> usize {
    for (i, token) in tokens.iter().enumerate() {
        if token.place == place {
            return i;
        }
    }
    tokens.len()
}

// The colon after the names and commas from a token on.
fn colon_from(tokens: &[Token], from: usize) -> Option<usize> {
    for i in from..tokens.len() {
        match form_at(tokens, i) {
            Some(Form::Name(_)) | Some(Form::Comma) => (),
            Some(Form::Colon) => return Some(i),
            _ => return None,
        }
    }
    None
}

/// The type with which the name that is a token is first declared in a text, without letter case.
pub(crate) fn typed_at(tokens: &[Token], i: usize) -> Option<&[u8]> {
    match name_at(tokens, i) {
        Some(name) => type_of(tokens, name),
        None => None,
    }
}

/// The type with which a name is first declared in a text, without letter case.
pub(crate) fn type_of<'a>(tokens: &'a [Token], name: &[u8]) -> Option<&'a [u8]> {
    for i in 0..tokens.len() {
        if is_named(tokens, i, name) {
            if let Some(colon) = colon_from(tokens, i) {
                return name_at(tokens, colon.saturating_add(1));
            }
        }
    }
    None
}
