// The pins of function blocks of the text itself.

use crate::pins::called_at;
use crate::reading::{depth_after, form_at, is_dot, is_named, typed_at};
use crate::telling::Telling;
use ps_lexer::{Form, Token, Word};

// As many inputs of a function block as are looked for in a call.
const MOST_LOOKED_FOR: usize = 200;

// A walk over the tokens of a function block: whether the section at hand is wanted, and whether the names at hand are
// declared.
#[derive(Clone, Copy)]
struct Walk {
    is_wanted: bool,
    is_declared: bool,
}

// Before the first token.
const BEFORE: Walk = Walk {
    is_wanted: false,
    is_declared: false,
};

// The walk after a further token, where sections of a sort are wanted.
fn after(walk: Walk, form: &Form, sort: Word) -> Walk {
    match form {
        Form::Word(word) => Walk {
            is_wanted: *word == sort,
            is_declared: true,
        },
        Form::Colon => Walk {
            is_declared: false,
            ..walk
        },
        Form::Semicolon => Walk {
            is_declared: true,
            ..walk
        },
        _ => walk,
    }
}

// The name of a token where it is declared in a section that is wanted.
fn name_in(walk: Walk, form: &Form) -> Option<&[u8]> {
    match form {
        Form::Name(name) if walk.is_wanted && walk.is_declared => Some(name.as_slice()),
        _ => None,
    }
}

// These tokens up to the end of a function block.
fn up_to_end(tokens: &[Token]) -> &[Token] {
    for i in 0..tokens.len() {
        if is_named(tokens, i, b"END_FUNCTION_BLOCK") {
            return &tokens[..i];
        }
    }
    tokens
}

// The tokens of the function block of this name after its head.
fn body_of<'a>(tokens: &'a [Token], name: &[u8]) -> &'a [Token] {
    for from in 2..tokens.len() {
        if is_named(tokens, from - 2, b"FUNCTION_BLOCK") && is_named(tokens, from - 1, name) {
            return up_to_end(&tokens[from..]);
        }
    }
    &[]
}

// The tokens of the function block of an instance, whose name is a token; none where it is none of the text.
fn body_at(tokens: &[Token], instance: usize) -> &[Token] {
    match typed_at(tokens, instance) {
        Some(block) => body_of(tokens, block),
        None => &[],
    }
}

// Adds the names that a function block declares in sections of a sort.
fn tell_names(telling: &mut Telling, body: &[Token], sort: Word, head: &[u8]) {
    let mut walk = BEFORE;
    let mut front = head;
    for token in body {
        walk = after(walk, &token.form, sort);
        if let Some(name) = name_in(walk, &token.form) {
            telling.add(front);
            telling.add(name);
            front = b", ";
        }
    }
}

// Whether the call whose bracket is a token names a pin.
fn is_given(tokens: &[Token], bracket: usize, pin: &[u8]) -> bool {
    let mut depth = 1usize;
    for i in bracket.saturating_add(1)..tokens.len() {
        depth = depth_after(depth, form_at(tokens, i));
        if depth == 0 {
            return false;
        }
        let is_assigned = matches!(form_at(tokens, i), Some(Form::Assign));
        if depth == 1 && is_assigned && is_named(tokens, i - 1, pin) {
            return true;
        }
    }
    false
}

// Adds the inputs of a function block that the call of its instance leaves out. The instance is a token, and the
// bracket of the call is the next one. Of the inputs the first 200 are looked for.
fn tell_left_out(telling: &mut Telling, tokens: &[Token], instance: usize, body: &[Token]) {
    let mut walk = BEFORE;
    let mut count = 0usize;
    for token in body {
        walk = after(walk, &token.form, Word::VarInput);
        if let Some(name) = name_in(walk, &token.form) {
            if count < MOST_LOOKED_FOR && !is_given(tokens, instance.saturating_add(1), name) {
                telling.add_name(b"left out: ", name);
            }
            count = count.saturating_add(1);
        }
    }
}

// The inputs of the function block of an instance that its call leaves out, and then all its inputs.
fn tell_inputs(telling: &mut Telling, tokens: &[Token], instance: usize) {
    let body = body_at(tokens, instance);
    tell_left_out(telling, tokens, instance, body);
    if !telling.is_empty() {
        telling.add(b"; ");
    }
    tell_names(telling, body, Word::VarInput, b"its inputs are: ");
}

/// The outputs of the function block of an instance after its dot, and its inputs at its call or within it; nothing
/// where the token stands at none.
pub(crate) fn tell_pins(telling: &mut Telling, tokens: &[Token], at: usize) {
    if at >= 2 && is_dot(tokens, at - 1) {
        let body = body_at(tokens, at - 2);
        tell_names(telling, body, Word::VarOutput, b"its outputs are: ");
    } else if matches!(
        form_at(tokens, at.saturating_add(1)),
        Some(Form::LeftBracket)
    ) {
        tell_inputs(telling, tokens, at);
    } else if let Some(instance) = called_at(tokens, at) {
        let body = body_at(tokens, instance);
        tell_names(telling, body, Word::VarInput, b"its inputs are: ");
    } else {
        let body = body_at(tokens, at);
        tell_names(
            telling,
            body,
            Word::VarOutput,
            b"of an instance its outputs are read: ",
        );
    }
}

/// The outputs of the function block of an instance where the token is its name; nothing where it is none.
pub(crate) fn tell_outputs(telling: &mut Telling, tokens: &[Token], at: usize) {
    tell_names(
        telling,
        body_at(tokens, at),
        Word::VarOutput,
        b"an instance is no value; behind a dot its outputs are: ",
    );
}

// Whether a function block declares inputs.
fn has_inputs(body: &[Token]) -> bool {
    let mut walk = BEFORE;
    for token in body {
        walk = after(walk, &token.form, Word::VarInput);
        if name_in(walk, &token.form).is_some() {
            return true;
        }
    }
    false
}

/// That a literal at a pin of a function block of the text has to be a signal; empty where it stands at no such pin.
pub(crate) fn literal_told(tokens: &[Token], at: usize) -> &'static [u8] {
    match called_at(tokens, at) {
        Some(instance) if has_inputs(body_at(tokens, instance)) => {
            b"a function block of your own takes signals alone: give it an input, a local or an output"
        }
        _ => b"",
    }
}
