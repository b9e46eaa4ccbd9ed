// What stands at a token, and what may stand there.

use crate::reading::{form_at, name_at};
use crate::telling::Telling;
use ps_lexer::{Form, Token, Word};
use ps_model::kind_named;

// Where among the declarations and statements of a text a token stands.
#[derive(Clone, Copy, PartialEq)]
enum Spot {
    Outside,
    Head,
    Declaration,
    Names,
    Comma,
    Type,
    Typed,
    Statement,
    Target,
    Pin,
    Named,
    Value,
    Valued,
    Dot,
    Closed,
}

// A walk through tokens: where it is, whether within a call, and how many brackets of a value are open.
#[derive(Clone, Copy)]
struct Walk {
    spot: Spot,
    is_call: bool,
    depth: u16,
}

// Whether a token is a keyword of function blocks, in any letter case.
fn is_keyword(form: &Form, keyword: &[u8]) -> bool {
    match form {
        Form::Name(name) => name.as_slice().eq_ignore_ascii_case(keyword),
        _ => false,
    }
}

// The spot after a token that stands among declarations; None where it does not fit.
fn declared(spot: Spot, form: &Form) -> Option<Spot> {
    match (spot, form) {
        (Spot::Declaration, Form::Name(_)) | (Spot::Comma, Form::Name(_)) => Some(Spot::Names),
        (Spot::Declaration, Form::Word(Word::EndVar)) => Some(Spot::Statement),
        (Spot::Names, Form::Comma) => Some(Spot::Comma),
        (Spot::Names, Form::Colon) => Some(Spot::Type),
        (Spot::Type, Form::Name(_)) => Some(Spot::Typed),
        (Spot::Typed, Form::Semicolon) => Some(Spot::Declaration),
        _ => None,
    }
}

// The spot after a token that stands outside, at a head or where a statement begins.
fn begun(spot: Spot, form: &Form) -> Option<Spot> {
    match (spot, form) {
        (Spot::Outside, Form::Word(Word::Program)) => Some(Spot::Head),
        (Spot::Outside, form) if is_keyword(form, b"FUNCTION_BLOCK") => Some(Spot::Head),
        (Spot::Head, Form::Name(_)) => Some(Spot::Statement),
        (Spot::Statement, Form::Word(Word::VarInput | Word::VarOutput | Word::Var)) => Some(
            Spot::Declaration,
        ),
        (Spot::Statement, Form::Word(Word::EndProgram)) => Some(Spot::Outside),
        (Spot::Statement, form) if is_keyword(form, b"END_FUNCTION_BLOCK") => Some(Spot::Outside),
        (Spot::Statement, Form::Name(_)) => Some(Spot::Target),
        _ => None,
    }
}

// The walk after a value, by the token that follows it.
fn behind_value(walk: Walk, form: &Form) -> Walk {
    match form {
        Form::Word(Word::And | Word::Or) => Walk {
            spot: Spot::Value,
            ..walk
        },
        Form::Dot => Walk {
            spot: Spot::Dot,
            ..walk
        },
        Form::RightBracket if walk.depth > 0 => Walk {
            depth: walk.depth.saturating_sub(1),
            ..walk
        },
        Form::RightBracket => Walk {
            spot: Spot::Closed,
            ..walk
        },
        Form::Comma => Walk {
            spot: Spot::Pin,
            ..walk
        },
        Form::Semicolon => Walk {
            spot: Spot::Statement,
            is_call: false,
            depth: 0,
        },
        _ => walk,
    }
}

// The walk after a token within a statement.
fn within(walk: Walk, form: &Form) -> Walk {
    match (walk.spot, form) {
        (Spot::Target, Form::Assign) => Walk {
            spot: Spot::Value,
            is_call: false,
            depth: 0,
        },
        (Spot::Target, Form::LeftBracket) => Walk {
            spot: Spot::Pin,
            is_call: true,
            depth: 0,
        },
        (Spot::Pin, Form::Name(_)) => Walk {
            spot: Spot::Named,
            ..walk
        },
        (Spot::Pin, Form::RightBracket) => Walk {
            spot: Spot::Closed,
            ..walk
        },
        (Spot::Named, Form::Assign) => Walk {
            spot: Spot::Value,
            ..walk
        },
        (Spot::Value, Form::LeftBracket) => Walk {
            depth: walk.depth.saturating_add(1),
            ..walk
        },
        (Spot::Value, Form::Name(_) | Form::Time(_) | Form::Word(Word::True | Word::False)) => {
            Walk {
                spot: Spot::Valued,
                ..walk
            }
        }
        (Spot::Dot, Form::Name(_)) => Walk {
            spot: Spot::Valued,
            ..walk
        },
        (Spot::Closed, Form::Semicolon) => Walk {
            spot: Spot::Statement,
            is_call: false,
            depth: 0,
        },
        (Spot::Valued, form) => behind_value(walk, form),
        _ => walk,
    }
}

// The walk after a further token.
fn after(walk: Walk, form: &Form) -> Walk {
    if let Some(spot) = declared(walk.spot, form) {
        return Walk {
            spot,
            is_call: false,
            depth: 0,
        };
    }
    match begun(walk.spot, form) {
        Some(spot) => Walk {
            spot,
            is_call: false,
            depth: 0,
        },
        None => within(walk, form),
    }
}

// What may stand after a value.
fn may_follow(walk: Walk) -> &'static [u8] {
    if walk.depth > 0 {
        b"AND, OR, or the bracket ) that closes the group"
    } else if walk.is_call {
        b"AND, OR, a comma and a further pin, or the bracket ) that ends the call"
    } else {
        b"AND, OR, or a semicolon"
    }
}

// What may stand where the walk is.
fn may_stand(walk: Walk) -> &'static [u8] {
    match walk.spot {
        Spot::Outside => b"PROGRAM or FUNCTION_BLOCK, and nothing behind END_PROGRAM",
        Spot::Head => b"a name",
        Spot::Declaration => b"a name to be declared, or END_VAR",
        Spot::Names => b"a comma and a further name, or a colon and the type",
        Spot::Comma => b"a further name",
        Spot::Type => b"a type: SAFEBOOL, BOOL, a block of docs/blocks.md or a function block",
        Spot::Typed => b"a semicolon",
        Spot::Statement =>
            b"VAR_INPUT, VAR_OUTPUT, VAR, a name that begins a statement, or the END_ of the text",
        Spot::Target => b":= and a value, or ( and the pins of a call",
        Spot::Pin => b"the name of a pin and :=",
        Spot::Named => b":= and what is at this pin; each pin of a call is named",
        Spot::Value => b"a signal, an output behind a dot, or a group in brackets",
        Spot::Valued => may_follow(walk),
        Spot::Dot => b"the name of an output",
        Spot::Closed => b"a semicolon",
    }
}

// The bytes of a text that are a token.
fn spelt<'a>(text: &'a [u8], token: &Token) -> &'a [u8] {
    text.get(token.from as usize..token.upto as usize)
        .unwrap_or(&[])
}

// Adds the token of this number as it is spelt, or that the text ends, and the token before it.
fn tell_found(telling: &mut Telling, text: &[u8], tokens: &[Token], at: usize) {
    match tokens.get(at) {
        Some(token) => telling.say(b"found ", spelt(text, token), b""),
        None => telling.add(b"the text ends"),
    }
    if at > 0 {
        if let Some(token) = tokens.get(at - 1) {
            telling.say(b" behind ", spelt(text, token), b"");
        }
    }
}

// Whether a program or function block begins at a token.
fn is_head(tokens: &[Token], at: usize) -> bool {
    match form_at(tokens, at) {
        Some(Form::Word(Word::Program)) => true,
        Some(form) => is_keyword(form, b"FUNCTION_BLOCK"),
        None => false,
    }
}

// Whether a word begins so, in any letter case.
fn begins(word: &[u8], front: &[u8]) -> bool {
    match word.get(..front.len()) {
        Some(bytes) => bytes.eq_ignore_ascii_case(front),
        None => false,
    }
}

// Whether the name of a kind stands before the colon of a declaration whose type stands before a token.
fn is_turned(tokens: &[Token], at: usize) -> bool {
    if at < 3 || !matches!(form_at(tokens, at - 2), Some(Form::Colon)) {
        return false;
    }
    match name_at(tokens, at - 3) {
        Some(name) => kind_named(name).is_some(),
        None => false,
    }
}

// What helps where a token stands after a name that looks like a keyword, or after a keyword that stands as a name.
fn remedy_behind(before: &Token, text: &[u8], form: Option<&Form>) -> &'static [u8] {
    match (&before.form, form) {
        (Form::Name(_), _) if begins(spelt(text, before), b"VAR_") => {
            b"the sections are VAR_INPUT, VAR_OUTPUT and VAR"
        }
        (Form::Name(_), _) if begins(spelt(text, before), b"END_") => {
            b"a section ends by END_VAR, and a text by END_FUNCTION_BLOCK or END_PROGRAM"
        }
        (Form::Word(_), Some(Form::Colon | Form::Comma | Form::Assign | Form::Dot)) => {
            b"a keyword is no name"
        }
        _ => b"",
    }
}

// Whether a keyword stands at a token as the name of a declaration does: a colon or a comma follows it.
fn is_keyword_named(tokens: &[Token], at: usize) -> bool {
    matches!(form_at(tokens, at), Some(Form::Word(_)))
        && matches!(
            form_at(tokens, at.saturating_add(1)),
            Some(Form::Colon | Form::Comma)
        )
}

// Whether nothing but a name may stand at a spot.
fn wants_name(spot: Spot) -> bool {
    matches!(spot, Spot::Head | Spot::Comma | Spot::Dot)
}

// What helps at a token, where more than what may stand there is to be said.
fn remedy(text: &[u8], tokens: &[Token], at: usize, walk: Walk) -> &'static [u8] {
    if is_keyword_named(tokens, at) && walk.spot == Spot::Declaration {
        return b"a keyword is no name";
    }
    if is_head(tokens, at) && walk.spot != Spot::Outside {
        return b"the function block or program before it has no END_FUNCTION_BLOCK or END_PROGRAM";
    }
    match tokens.get(at) {
        Some(token) if walk.spot == Spot::Value && spelt(text, token) == b"&".as_slice() => {
            return b"AND is written once, as & or AND";
        }
        Some(token) if matches!(token.form, Form::Word(_)) && wants_name(walk.spot) => {
            return b"a keyword is no name";
        }
        _ => (),
    }
    if at == 0 {
        return b"";
    }
    if walk.spot == Spot::Typed && is_turned(tokens, at) {
        return b"the name of an instance stands before the colon, and its block behind it, as E : SF_EDM;";
    }
    match tokens.get(at - 1) {
        Some(before) => remedy_behind(before, text, form_at(tokens, at)),
        None => b"",
    }
}

// The walk through these tokens.
fn walk_through(tokens: &[Token]) -> Walk {
    let mut walk = Walk {
        spot: Spot::Outside,
        is_call: false,
        depth: 0,
    };
    for token in tokens {
        walk = after(walk, &token.form);
    }
    walk
}

/// What stands at the token of this number, or that the text ends there, and what may stand there in its place.
pub(crate) fn tell_grammar(telling: &mut Telling, text: &[u8], tokens: &[Token], at: usize) {
    if tokens.is_empty() {
        telling.add(
            b"the file has no more than blanks and comments; an application begins with PROGRAM or FUNCTION_BLOCK and a name",
        );
        return;
    }
    let walk = walk_through(&tokens[..at.min(tokens.len())]);
    tell_found(telling, text, tokens, at);
    let said = remedy(text, tokens, at, walk);
    if said.is_empty() {
        telling.add(b"; here may stand: ");
        telling.add(may_stand(walk));
    } else {
        telling.add(b"; ");
        telling.add(said);
    }
}
