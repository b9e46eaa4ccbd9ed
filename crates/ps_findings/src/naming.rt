// Where a name would be declared, and which types there are.

use crate::pins::bracket_before;
use crate::reading::{form_at, is_dot, typed_at};
use ps_lexer::{Form, Token, Word};

// What is told of a name that is not declared, by what stands beside it.
fn wanted_at(tokens: &[Token], at: usize) -> &'static [u8] {
    let within = bracket_before(tokens, at).is_some();
    match form_at(tokens, at.saturating_add(1)) {
        Some(Form::LeftBracket) if !within => {
            b"it is called, so it is to be an instance: declare it in VAR, with a block as its type"
        }
        Some(Form::Dot) => {
            b"it stands before a dot, so it is to be an instance: declare it in VAR, with a block as its type"
        }
        Some(Form::Assign) if !within => {
            b"it is assigned, so it is to be an output or a local: declare it in VAR_OUTPUT or VAR, as SAFEBOOL or BOOL"
        }
        _ => {
            b"it is read: declare it in VAR_INPUT where the machine gives it, and else in VAR_OUTPUT or VAR and assign it"
        }
    }
}

/// Where the name that is a token would be declared, by how it is used; empty where the token is the name of a pin
/// after a dot.
pub(crate) fn declared_told(tokens: &[Token], at: usize) -> &'static [u8] {
    if at >= 1 && is_dot(tokens, at - 1) {
        return b"";
    }
    match typed_at(tokens, at) {
        Some(_) => {
            b"it is declared elsewhere in this text: each function block and the program see their own names alone"
        }
        None => wanted_at(tokens, at),
    }
}

/// That a name which is called or stands before a dot is a signal; empty where the token is none.
pub(crate) fn signal_told(tokens: &[Token], at: usize) -> &'static [u8] {
    match typed_at(tokens, at) {
        Some(ty) if ty.eq_ignore_ascii_case(b"BOOL") || ty.eq_ignore_ascii_case(b"SAFEBOOL") => {
            b"it is a signal: instances alone are called and have outputs behind a dot"
        }
        _ => b"",
    }
}

// The section in which a token stands.
fn section_at(tokens: &[Token], at: usize) -> Option<Word> {
    for i in (0..at).rev() {
        match form_at(tokens, i) {
            Some(Form::Word(word))
                if matches!(word, Word::VarInput | Word::VarOutput | Word::Var) => {
                return Some(*word);
            }
            _ => (),
        }
    }
    None
}

/// Which types there are in the section in which a token stands.
pub(crate) fn types_told(tokens: &[Token], at: usize) -> &'static [u8] {
    match section_at(tokens, at) {
        Some(Word::Var) => {
            b"SAFEBOOL, BOOL, or SF_ with Antivalent, EDM, EmergencyStop, EnableSwitch, Equivalent, ESPE, GuardLocking, GuardMonitoring, ModeSelector, OutControl, SafetyRequest, TwoHandControlTypeII or ..III"
        }
        _ => b"inputs and outputs are SAFEBOOL or BOOL; an instance of a block is declared in VAR",
    }
}
