// Sources that stand in a list of tokens, and words of lines and numbers.

use crate::application::MOTOR;
use crate::fixtures::no_row;
use ps_base::{Fail, Rule};
use ps_lexer::lex;
use ps_parser::{Heads, parse, parse_from};
use ps_trace::{next_word, number};
use std::alloc::Global;

// A function block and a program.
const BOTH: &str = "FUNCTION_BLOCK F END_FUNCTION_BLOCK PROGRAM P a := b; END_PROGRAM";

// A number of a token of that text, whether a program is to begin there or a function block, and the number of the token
// after it, or 0; and the column at which P1 refuses it, or 0.
static SOURCES: [(u32, bool, u32, u32); 5] = [
    (0, false, 3, 0),
    (3, true, 10, 0),
    (0, true, 0, 1),
    (3, false, 0, 37),
    (10, true, 0, 66),
];

// What `read_from` gives where there is no such token, another refusal or no memory.
const NOTHING: (u32, u32) = (0, 0);

// The number of the token after the source that begins at this token of that text, and the column at which P1 refuses
// it; 0 for the one that there is not.
fn read_from(alloc: Global, at: u32, is_program: bool) -> (u32, u32) {
    let Ok(tokens) = lex(alloc, BOTH.as_bytes()) else {
        return NOTHING;
    };
    if at as usize > tokens.list.len() {
        return NOTHING;
    }
    let heads = if is_program {
        Heads::Program
    } else {
        Heads::Block
    };
    match parse_from(alloc, &tokens, at, heads) {
        Ok((_, next)) => (next, 0),
        Err(Fail::Refused(refusal)) if matches!(refusal.rule, Rule::P1) => (
            0,
            refusal.place.column,
        ),
        Err(_) => NOTHING,
    }
}

// The number of the first row of `SOURCES` that is not met, counted from 1; 0: there is none.
fn wrong_source(alloc: Global) -> usize {
    for row in 0..SOURCES.len() {
        let (at, is_program, next, column) = SOURCES[row];
        let found = read_from(alloc, at, is_program);
        if found.0 != next || found.1 != column {
            return row + 1;
        }
    }
    0
}

// Whether a text of a program is parsed.
fn is_parsed(alloc: Global, text: &str) -> bool {
    match lex(alloc, text.as_bytes()) {
        Ok(tokens) => parse(alloc, &tokens).is_ok(),
        Err(_) => false,
    }
}

// Whether words of two lines stand where they have to stand, and words are these numbers, or none.
fn are_words() -> bool {
    next_word(b" \tab c", 0) == Some((2, 4))
        && next_word(b" \tab c", 3) == Some((3, 4))
        && next_word(b"a \t", 1).is_none()
        && number(b"0042") == Some(42)
        && number(b"4294967295") == Some(4_294_967_295)
        && number(b"4294967296").is_none()
        && number(b"").is_none()
}

#[test]
fn sources(rt: HostRuntime) {
    no_row(&rt, wrong_source(rt.alloc()));
    assert!(rt; is_parsed(rt.alloc(), MOTOR) && are_words());
}
