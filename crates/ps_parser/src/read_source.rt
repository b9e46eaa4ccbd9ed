// Sources, from tokens.

ghost use Rattle.std.specs.Prelude.{◌≡◌, ◌-◌, ◌≤◌, ◌↔◌, length, drop, IsTrue, Some};
ghost use Rattle.ps_parser.specs.Symbol.{AllProper, Mark, symbols};
ghost use Rattle.ps_parser.specs.Phrase.{next};
ghost use Rattle.ps_parser.specs.Grammar.{a_source};
ghost use Rattle.ps_parser.specs.Spelt.{head_sign, foot_sign};
ghost use Rattle.ps_parser.specs.Parses.{Parses, rule_of};
ghost use Rattle.ps_parser.specs.Language.{Answers, place_at};
ghost use Rattle.ps_parser.specs.Parsing.{sources, AnswersFrom};

use crate::heads::Heads;
use crate::peek::{behind, expect};
use crate::read_expression::name;
use crate::read_section::sections;
use crate::read_statement::statements;
use crate::sign::Sign;
use crate::source::Source;
use crate::stop::{Flaw, Stop};
use ps_base::limits::MOST_GROUPS;
use ps_base::{Fail, Place, Refusal, Rule};
use ps_lexer::{Token, Tokens};
use std::alloc::Global;

// The word that begins a source.
fn head(heads: Heads) -> Sign
    ensures { result ≡ head_sign heads }
{
    match heads {
        Heads::Program => Sign::Program,
        Heads::Block => Sign::FunctionBlock,
    }
}

// The word that ends a source.
fn foot(heads: Heads) -> Sign
    ensures { result ≡ foot_sign heads }
{
    match heads {
        Heads::Program => Sign::EndProgram,
        Heads::Block => Sign::EndFunctionBlock,
    }
}

// A source between its two words.
fn source<'a>(
    alloc: Global,
    heads: Heads,
    tokens: &'a [Token],
) -> Result<(Source, &'a [Token]), Stop<'a>>
    requires { AllProper (symbols tokens.now) }
    ensures { Parses (a_source heads) MOST_GROUPS (symbols tokens.now) (λ r. r.0) (λ r. symbols r.1.now) result }
{
    let rest = expect(tokens, head(heads))?;
    let (name, rest) = name(alloc, rest)?;
    let (sections, rest) = sections(alloc, rest)?;
    let (statements, rest) = statements(alloc, rest)?;
    let rest = expect(rest, foot(heads))?;
    let source = Source {
        name,
        sections,
        statements,
    };
    Ok((source, rest))
}

// The rule that a flaw breaks.
fn rule(flaw: Flaw) -> Rule
    ensures { result ≡ rule_of flaw }
{
    match flaw {
        Flaw::Unexpected => Rule::P1,
        Flaw::TooDeep => Rule::P2,
    }
}

// The place of a token by its number, or the end of the text.
fn place(tokens: &Tokens, at: usize) -> Place
    ensures { result ≡ place_at (drop at tokens.now.list) tokens.now.end }
{
    if at < tokens.list.len() {
        tokens.list.at(at).place
    } else {
        tokens.end
    }
}

/// Whether the word that begins a source stands at the token with the number `at`: PROGRAM or FUNCTION_BLOCK, by
/// `heads`.
pub fn is_head_at(tokens: &Tokens, at: u32, heads: Heads) -> bool
    requires { at ≤ length tokens.now.list }
    ensures { IsTrue result ↔ (next (symbols (drop at tokens.now.list)) ≡ Some (Mark (head_sign heads))) }
{
    let all = tokens.list.as_slice();
    match behind(&all[at as usize..], head(heads)) {
        Some(_) => true,
        None => false,
    }
}

/// The source that begins at the token with the number `at`, between the words of `heads`, and the number of the token
/// after it. Its groups are nested at most `MOST_GROUPS` deep, and none of its names is FUNCTION_BLOCK or
/// END_FUNCTION_BLOCK in any letter case. Time is linear in the number of tokens.
///
/// Otherwise the refusal at the earliest token: P1 where no source goes on with it, whatever the depth of its groups,
/// or where the tokens end before the source does; P2 at the bracket of a group that is nested too deep. The place is
/// that of the token, or the end of the text. The grammar is a profile of structured text of IEC 61131-3.
pub fn parse_from(
    alloc: Global,
    tokens: &Tokens,
    at: u32,
    heads: Heads,
) -> Result<(Source, u32), Fail>
    requires { at ≤ length tokens.now.list }
    ensures { AnswersFrom heads tokens.now at result }
{
    let all = tokens.list.as_slice();
    match source(alloc, heads, &all[at as usize..]) {
        Ok((source, rest)) => Ok((source, (all.len() - rest.len()) as u32)),
        Err(Stop::Memory) => Err(Fail::Memory),
        Err(Stop::Refused(flaw, left)) => Err(Fail::Refused(Refusal {
            rule: rule(flaw),
            place: place(tokens, all.len() - left.len()),
        })),
    }
}

/// The program that the tokens spell, from PROGRAM to END_PROGRAM, with nothing after it. Its groups are nested at
/// most `MOST_GROUPS` deep. Time is linear in the number of tokens.
///
/// Otherwise the refusal P1 or P2 at the earliest token, as `parse_from` says; P1 also at the first token after
/// END_PROGRAM.
pub fn parse(alloc: Global, tokens: &Tokens) -> Result<Source, Fail>
    ensures { Answers (sources Heads.Program) tokens.now result }
{
    let (source, next) = parse_from(alloc, tokens, 0, Heads::Program)?;
    let next = next as usize;
    if next < tokens.list.len() {
        return Err(Fail::Refused(Refusal {
            rule: Rule::P1,
            place: place(tokens, next),
        }));
    }
    Ok(source)
}
