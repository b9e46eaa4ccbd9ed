// What is told of a refusal besides its rule.

use crate::blocks::{literal_told, tell_outputs, tell_pins};
use crate::bytes::tell_byte;
use crate::faults::{tell_before, tell_fault};
use crate::grammar::tell_grammar;
use crate::inputs::{tell_inputs, tell_twice};
use crate::limits::{tell_blocks, tell_limits};
use crate::naming::{declared_told, signal_told, types_told};
use crate::pins::tell_kind;
use crate::reading::token_at;
use crate::telling::Telling;
use crate::times::tell_literal;
use crate::traces::{header_of, tell_count, tell_time, tell_time_before, tell_value};
use crate::values::tell_bools;
use ps_base::{Bytes, Memory, Refusal, Rule};
use ps_lexer::{Token, lex};
use ps_text::line_at;
use std::alloc::Global;

// The pins at a token: those of a kind of the profile, or else those of a function block of the text; of a signal,
// that it has none.
fn tell_any_pins(telling: &mut Telling, tokens: &[Token], at: usize) {
    tell_kind(telling, tokens, at);
    if telling.is_empty() {
        tell_pins(telling, tokens, at);
    }
    if telling.is_empty() {
        telling.add(signal_told(tokens, at));
    }
}

// What is told of a name that is not declared: the outputs of an instance of a function block of the text, or else
// where the name would be declared.
fn tell_undeclared(telling: &mut Telling, tokens: &[Token], at: usize) {
    tell_outputs(telling, tokens, at);
    if telling.is_empty() {
        telling.add(declared_told(tokens, at));
    }
}

// What the tokens of an application tell of its refusal.
fn tell_of_tokens(telling: &mut Telling, text: &[u8], tokens: &[Token], refusal: &Refusal) {
    let at = token_at(tokens, refusal.place);
    match refusal.rule {
        Rule::P1 => tell_grammar(telling, text, tokens, at),
        _ if at >= tokens.len() => (),
        Rule::N4 | Rule::B3 => tell_any_pins(telling, tokens, at),
        Rule::N2 => tell_undeclared(telling, tokens, at),
        Rule::N3 => telling.add(types_told(tokens, at)),
        Rule::N12 => telling.add(literal_told(tokens, at)),
        Rule::S1 | Rule::S2 => tell_bools(telling, tokens, at),
        _ => (),
    }
}

// What the bytes of a text tell of its refusal: of a byte, a TIME literal, or a line of a trace or fault file.
fn tell_of_line(telling: &mut Telling, text: &[u8], refusal: &Refusal) {
    let line = refusal.place.line;
    match refusal.rule {
        Rule::L1 => tell_byte(telling, text, &refusal.place),
        Rule::L3 => tell_literal(telling, text, &refusal.place),
        Rule::T4 => tell_count(telling, text, line),
        Rule::T5 => tell_value(telling, text, line),
        Rule::T6 => tell_time(telling, text, line),
        Rule::T7 => tell_time_before(telling, text, line),
        Rule::F1 => tell_fault(telling, line_at(text, line)),
        Rule::F2 | Rule::F4 => tell_before(telling, text, line),
        Rule::N11 => tell_limits(telling, text),
        Rule::B4 => tell_blocks(telling, text),
        _ => (),
    }
}

/// What a text tells of its refusal besides the rule. Of an application: at P1 what stands at the place and what may,
/// at N4 and B3 the pins of the block, at N2 those of an instance that stands as a value or where the name would be
/// declared, at N3 which types there are, at N12 where a literal may stand, at N11 and B4 which limit is passed and
/// how many were counted, at S1 and S2 the BOOL values that stand where a SAFEBOOL is asked. Of a byte or a TIME
/// literal what it is. Of a line of a trace or fault file the word that is wrong, or the line before it that it is
/// wrong beside. It is empty where it tells nothing.
pub fn detail_on(alloc: Global, text: &[u8], refusal: &Refusal) -> Result<Bytes, Memory> {
    let mut telling = Telling::new(alloc);
    match refusal.rule {
        Rule::P1 | Rule::B3 | Rule::N2 | Rule::N3 | Rule::N4 | Rule::N12 | Rule::S1 | Rule::S2 =>
            if let Some(tokens) = telling.found(lex(alloc, text)) {
                tell_of_tokens(&mut telling, text, tokens.list.as_slice(), refusal);
            },
        _ => tell_of_line(&mut telling, text, refusal),
    }
    telling.finish()
}

/// The inputs of the program of this text, in words; empty where it has none, or the text has no tokens.
pub fn inputs_told(alloc: Global, text: &[u8]) -> Result<Bytes, Memory> {
    let mut telling = Telling::new(alloc);
    if let Some(tokens) = telling.found(lex(alloc, text)) {
        let tokens = tokens.list.as_slice();
        tell_inputs(&mut telling, tokens, b"", b"the inputs are: ");
    }
    telling.finish()
}

/// The inputs of the program of this text that the header of a trace has not, or else the names that it has twice;
/// empty where there is none, or the text has no tokens.
pub fn header_told(alloc: Global, text: &[u8], trace: &[u8]) -> Result<Bytes, Memory> {
    let mut telling = Telling::new(alloc);
    if let Some(tokens) = telling.found(lex(alloc, text)) {
        let header = header_of(trace);
        let tokens = tokens.list.as_slice();
        tell_inputs(&mut telling, tokens, header, b"missing in the header: ");
        if telling.is_empty() {
            tell_twice(&mut telling, header);
        }
    }
    telling.finish()
}
