// The BOOL values of a value.

use crate::reading::{depth_after, form_at, is_dot, name_at, type_of};
use crate::telling::Telling;
use ps_lexer::{Form, Token};

// As many tokens of a value as are looked at.
const MOST_TOKENS: usize = 200;

// Whether a name is that of an output which every block has and which is BOOL.
fn is_plain_output(name: &[u8]) -> bool {
    name.eq_ignore_ascii_case(b"Ready") || name.eq_ignore_ascii_case(b"Error")
}

// Whether a name is declared BOOL.
fn is_declared_bool(tokens: &[Token], name: &[u8]) -> bool {
    match type_of(tokens, name) {
        Some(ty) => ty.eq_ignore_ascii_case(b"BOOL"),
        None => false,
    }
}

// The name of a token that is a value or, where it stands after a dot, of an output.
fn value_at(tokens: &[Token], i: usize) -> Option<&[u8]> {
    if is_dot(tokens, i.saturating_add(1)) {
        return None;
    }
    name_at(tokens, i)
}

// Adds the name of a token to a list where its value is BOOL, with the name of its instance after a dot.
fn add_bool(telling: &mut Telling, tokens: &[Token], i: usize) {
    let head = b"of BOOL here: ";
    let Some(name) = value_at(tokens, i) else {
        return;
    };
    if i < 2 || !is_dot(tokens, i - 1) {
        if is_declared_bool(tokens, name) {
            telling.add_name(head, name);
        }
    } else if is_plain_output(name) || is_declared_bool(tokens, name) {
        if let Some(instance) = name_at(tokens, i - 2) {
            telling.add_name(head, instance);
            telling.add(b".");
            telling.add(name);
        }
    }
}

// The first token behind the value that begins at a token, or behind the tokens that are looked at.
fn end_of(tokens: &[Token], from: usize) -> usize {
    let end = from.saturating_add(MOST_TOKENS);
    let mut depth = 1usize;
    for i in from..end {
        let form = form_at(tokens, i);
        depth = depth_after(depth, form);
        if depth == 0 || (depth == 1 && matches!(form, Some(Form::Comma))) {
            return i;
        }
    }
    end
}

/// The BOOL values in the value after a target or a pin, as a list; nothing where there is none.
pub(crate) fn tell_bools(telling: &mut Telling, tokens: &[Token], target: usize) {
    let from = target.saturating_add(1);
    for i in from..end_of(tokens, from) {
        add_bool(telling, tokens, i);
    }
}
