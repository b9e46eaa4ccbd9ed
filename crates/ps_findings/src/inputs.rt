// The names of a program's inputs.

use crate::lines::{is_blank, word_at};
use crate::telling::Telling;
use ps_lexer::{Form, Token, Word};

// As many words of a header as are looked at.
const MOST_WORDS: usize = 600;

// A walk over the tokens of a text: whether the program has begun, whether the section at hand has inputs, and whether
// the names at hand are declared.
#[derive(Clone, Copy)]
struct Walk {
    is_program: bool,
    is_inputs: bool,
    is_declared: bool,
}

// Before the first token.
const BEFORE: Walk = Walk {
    is_program: false,
    is_inputs: false,
    is_declared: false,
};

// The walk after a further token.
fn after(walk: Walk, form: &Form) -> Walk {
    match form {
        Form::Word(Word::Program) => Walk {
            is_program: true,
            ..walk
        },
        Form::Word(Word::VarInput) => Walk {
            is_inputs: walk.is_program,
            is_declared: true,
            ..walk
        },
        Form::Word(Word::EndVar) => Walk {
            is_inputs: false,
            ..walk
        },
        Form::Colon => Walk {
            is_declared: false,
            ..walk
        },
        Form::Semicolon => Walk {
            is_declared: true,
            ..walk
        },
        _ => walk,
    }
}

// The name of a token where it is declared as an input of the program.
fn input_in(walk: Walk, form: &Form) -> Option<&[u8]> {
    match form {
        Form::Name(name) if walk.is_inputs && walk.is_declared => Some(name.as_slice()),
        _ => None,
    }
}

/// The inputs that the program of a text declares and a header has not, as a list that begins so; nothing where there is
/// none.
pub(crate) fn tell_inputs(telling: &mut Telling, tokens: &[Token], header: &[u8], head: &[u8]) {
    let mut walk = BEFORE;
    for token in tokens {
        walk = after(walk, &token.form);
        if let Some(name) = input_in(walk, &token.form) {
            if !has_name(header, name, 1) {
                telling.add_name(head, name);
            }
        }
    }
}

// Whether a word of a line from a number on is this name, without letter case.
fn has_name(line: &[u8], name: &[u8], from: usize) -> bool {
    let mut number = 0usize;
    for word in line.split(is_blank) {
        if !word.is_empty() {
            if number >= from && word.eq_ignore_ascii_case(name) {
                return true;
            }
            number = number.saturating_add(1);
        }
    }
    false
}

/// The names of a header that stand in it twice, as a list; nothing where there is none.
pub(crate) fn tell_twice(telling: &mut Telling, header: &[u8]) {
    for i in 1..MOST_WORDS {
        match word_at(header, i) {
            Some(word) if has_name(header, word, i.saturating_add(1)) => {
                telling.add_name(b"twice in the header: ", word)
            }
            Some(_) => (),
            None => return,
        }
    }
}
