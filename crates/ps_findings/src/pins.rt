// The pins of the kind of an instance.

use crate::reading::{form_at, is_dot, name_at, typed_at};
use crate::telling::Telling;
use ps_lexer::{Form, Token};
use ps_model::{Kind, input_count, kind_named, pin_count, pin_name};

/// The bracket that is open at a token.
pub(crate) fn bracket_before(tokens: &[Token], at: usize) -> Option<usize> {
    let mut depth = 0usize;
    for i in (0..at).rev() {
        match form_at(tokens, i) {
            Some(Form::Semicolon) => return None,
            Some(Form::RightBracket) => depth = depth.saturating_add(1),
            Some(Form::LeftBracket) if depth == 0 => return Some(i),
            Some(Form::LeftBracket) => depth = depth.saturating_sub(1),
            _ => (),
        }
    }
    None
}

/// The token before the bracket that is open at a token.
pub(crate) fn called_at(tokens: &[Token], at: usize) -> Option<usize> {
    match bracket_before(tokens, at) {
        Some(bracket) if bracket >= 1 => Some(bracket - 1),
        _ => None,
    }
}

// The kind of the instance whose name is a token.
fn kind_at(tokens: &[Token], i: usize) -> Option<Kind> {
    match typed_at(tokens, i) {
        Some(ty) => kind_named(ty),
        None => None,
    }
}

// The pins of a kind from a number up to another.
fn tell_pins(telling: &mut Telling, head: &[u8], kind: Kind, from: u8, upto: u8) {
    for j in from..upto {
        if j < pin_count(kind) {
            telling.add_name(head, pin_name(kind, j).as_bytes());
        }
    }
}

// The outputs of an instance of this name and kind, as they are read: `E.S_EStopOut`.
fn tell_outputs(telling: &mut Telling, instance: &[u8], kind: Kind) {
    for j in input_count(kind)..pin_count(kind) {
        telling.add_name(b"an instance is no value; its outputs are: ", instance);
        telling.add(b".");
        telling.add(pin_name(kind, j).as_bytes());
    }
}

// The inputs of the instance whose call is open at a token.
fn tell_inputs(telling: &mut Telling, tokens: &[Token], at: usize) {
    if let Some(instance) = called_at(tokens, at) {
        if let Some(kind) = kind_at(tokens, instance) {
            tell_pins(telling, b"its inputs are: ", kind, 0, input_count(kind));
        }
    }
}

/// The pins that could stand at a token: the outputs of an instance after its dot or at its name, and its inputs in
/// its call. Nothing where the token stands at none.
pub(crate) fn tell_kind(telling: &mut Telling, tokens: &[Token], at: usize) {
    if at >= 2 && is_dot(tokens, at - 1) {
        if let Some(kind) = kind_at(tokens, at - 2) {
            let inputs = input_count(kind);
            tell_pins(telling, b"its outputs are: ", kind, inputs, pin_count(kind));
        }
        return;
    }
    match (kind_at(tokens, at), name_at(tokens, at)) {
        (Some(kind), Some(instance)) => tell_outputs(telling, instance, kind),
        _ => tell_inputs(telling, tokens, at),
    }
}
