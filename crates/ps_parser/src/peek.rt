// What stands next among the tokens.

ghost use Rattle.std.specs.Prelude.{◌≡◌, ◌≢◌, IfSome, IfNone, Some, ◌∷◌, ℕ};
ghost use Rattle.ps_parser.specs.Names.{block_word};
ghost use Rattle.ps_parser.specs.Symbol.{Mark, Named, symbol, symbols, sign_at, is_named};
ghost use Rattle.ps_parser.specs.Spelt.{part_sign};
ghost use Rattle.ps_parser.specs.Phrase.{next, Stops, Reads, just};
ghost use Rattle.ps_parser.specs.Grammar.{is_part, is_literal, a_factor};
ghost use Rattle.ps_parser.specs.Parses.{Parses, stands_next};
ghost use Rattle.ps_parser.specs.SumView.{factor_tree};

use crate::expression::Factor;
use crate::section::Part;
use crate::sign::Sign;
use crate::stop::{Flaw, Stop};
use ps_base::{Bytes, Place};
use ps_lexer::{Form, Token, Word};

/// The keyword FUNCTION_BLOCK or END_FUNCTION_BLOCK that a name of the lexer is, in any letter case.
pub fn block_word(text: &[u8]) -> Option<Sign>
    ensures { result ≡ block_word text.now }
{
    if text.eq_ignore_ascii_case(b"FUNCTION_BLOCK") {
        Some(Sign::FunctionBlock)
    } else if text.eq_ignore_ascii_case(b"END_FUNCTION_BLOCK") {
        Some(Sign::EndFunctionBlock)
    } else {
        None
    }
}

/// The sign that a token is, if it is one.
pub fn sign_of(token: &Token) -> Option<Sign>
    ensures { result ≡ sign_at (symbol token.now) }
{
    match &token.form {
        Form::Word(Word::Program) => Some(Sign::Program),
        Form::Word(Word::EndProgram) => Some(Sign::EndProgram),
        Form::Word(Word::VarInput) => Some(Sign::VarInput),
        Form::Word(Word::VarOutput) => Some(Sign::VarOutput),
        Form::Word(Word::Var) => Some(Sign::Var),
        Form::Word(Word::EndVar) => Some(Sign::EndVar),
        Form::Word(Word::And) => Some(Sign::And),
        Form::Word(Word::Or) => Some(Sign::Or),
        Form::Word(Word::True) => None,
        Form::Word(Word::False) => None,
        Form::Name(text) => block_word(text.as_slice()),
        Form::Time(_) => None,
        Form::Assign => Some(Sign::Assign),
        Form::Colon => Some(Sign::Colon),
        Form::Semicolon => Some(Sign::Semicolon),
        Form::Comma => Some(Sign::Comma),
        Form::LeftBracket => Some(Sign::LeftBracket),
        Form::RightBracket => Some(Sign::RightBracket),
        Form::Dot => Some(Sign::Dot),
    }
}

/// The tokens after the sign, where it stands next.
pub fn behind<'a>(tokens: &'a [Token], sign: Sign) -> Option<&'a [Token]>
    ensures found { IfSome result (λ rest. symbols tokens.now ≡ Mark sign ∷ symbols rest.now) }
    ensures none { IfNone result (next (symbols tokens.now) ≢ Some (Mark sign)) }
{
    let (token, rest) = tokens.split_first()?;
    if sign_of(token) == Some(sign) {
        Some(rest)
    } else {
        None
    }
}

/// The tokens after the sign, which has to stand next.
pub fn expect<'a>(tokens: &'a [Token], sign: Sign) -> Result<&'a [Token], Stop<'a>>
    ensures { (limit : ℕ) → Parses (just (Mark sign)) limit (symbols tokens.now) (λ _. tt) (λ r. symbols r.now) result }
{
    match behind(tokens, sign) {
        Some(rest) => Ok(rest),
        None => Err(Stop::Refused(Flaw::Unexpected, tokens)),
    }
}

/// The text and the place of a name, and the tokens after it, where one stands next.
pub fn next_name(tokens: &[Token]) -> Option<(&Bytes, Place, &[Token])>
    ensures found { IfSome result (λ r. symbols tokens.now ≡ Named (record { text = r.0.now; place = r.1 }) ∷ symbols r.2.now) }
    ensures none { IfNone result (Stops is_named (symbols tokens.now)) }
{
    let (token, rest) = tokens.split_first()?;
    match &token.form {
        Form::Name(text) => match block_word(text.as_slice()) {
            None => Some((text, token.place, rest)),
            Some(_) => None,
        },
        Form::Word(Word::Program) => None,
        Form::Word(Word::EndProgram) => None,
        Form::Word(Word::VarInput) => None,
        Form::Word(Word::VarOutput) => None,
        Form::Word(Word::Var) => None,
        Form::Word(Word::EndVar) => None,
        Form::Word(Word::And) => None,
        Form::Word(Word::Or) => None,
        Form::Word(Word::True) => None,
        Form::Word(Word::False) => None,
        Form::Time(_) => None,
        Form::Assign => None,
        Form::Colon => None,
        Form::Semicolon => None,
        Form::Comma => None,
        Form::LeftBracket => None,
        Form::RightBracket => None,
        Form::Dot => None,
    }
}

/// The part of the section that begins here, and the tokens after the word, where one does.
pub fn next_part(tokens: &[Token]) -> Option<(Part, &[Token])>
    ensures found { IfSome result (λ r. symbols tokens.now ≡ Mark (part_sign r.0) ∷ symbols r.1.now) }
    ensures none { IfNone result (Stops is_part (symbols tokens.now)) }
{
    if let Some(rest) = behind(tokens, Sign::VarInput) {
        return Some((Part::Input, rest));
    }
    if let Some(rest) = behind(tokens, Sign::VarOutput) {
        return Some((Part::Output, rest));
    }
    let rest = behind(tokens, Sign::Var)?;
    Some((Part::Local, rest))
}

/// The literal that stands next, as a factor, and the tokens after it.
pub fn next_literal(tokens: &[Token]) -> Option<(Factor, &[Token])>
    ensures found { (limit : ℕ) → IfSome result (λ r. Reads a_factor limit (symbols tokens.now) (factor_tree r.0) (symbols r.1.now)) }
    ensures none { IfNone result (Stops is_literal (symbols tokens.now)) }
{
    let (token, rest) = tokens.split_first()?;
    let place = token.place;
    match &token.form {
        Form::Word(Word::True) => Some((Factor::Lit(true, place), rest)),
        Form::Word(Word::False) => Some((Factor::Lit(false, place), rest)),
        Form::Time(value) => Some((Factor::Time(*value, place), rest)),
        Form::Name(_) => None,
        Form::Word(Word::Program) => None,
        Form::Word(Word::EndProgram) => None,
        Form::Word(Word::VarInput) => None,
        Form::Word(Word::VarOutput) => None,
        Form::Word(Word::Var) => None,
        Form::Word(Word::EndVar) => None,
        Form::Word(Word::And) => None,
        Form::Word(Word::Or) => None,
        Form::Assign => None,
        Form::Colon => None,
        Form::Semicolon => None,
        Form::Comma => None,
        Form::LeftBracket => None,
        Form::RightBracket => None,
        Form::Dot => None,
    }
}

/// Whether a name stands next.
pub fn is_name_next(tokens: &[Token]) -> bool
    ensures { result ≡ stands_next is_named (symbols tokens.now) }
{
    match next_name(tokens) {
        Some(_) => true,
        None => false,
    }
}

/// Whether a section begins here.
pub fn is_part_next(tokens: &[Token]) -> bool
    ensures { result ≡ stands_next is_part (symbols tokens.now) }
{
    match next_part(tokens) {
        Some(_) => true,
        None => false,
    }
}
