// Sections of declarations, from tokens.

ghost use Rattle.std.specs.Prelude.{ℕ};
ghost use Rattle.ps_parser.specs.Symbol.{symbols};
ghost use Rattle.ps_parser.specs.Grammar as grammar;
ghost use Rattle.ps_parser.specs.Parses.{Parses};

use crate::name::Names;
use crate::peek::{behind, expect, is_name_next, is_part_next, next_part};
use crate::read_expression::name;
use crate::section::{Declaration, Declarations, Section, Sections};
use crate::sign::Sign;
use crate::stop::{Flaw, Stop};
use ps_base::limits::MOST_GROUPS;
use ps_lexer::Token;
use std::alloc::Global;

// One name or more, with a comma between each two.
fn names<'a>(alloc: Global, tokens: &'a [Token]) -> Result<(Names, &'a [Token]), Stop<'a>>
    ensures { Parses grammar.names MOST_GROUPS (symbols tokens.now) (λ r. r.0) (λ r. symbols r.1.now) result }
{
    let (first, mut rest) = name(alloc, tokens)?;
    let mut names = Names::new(alloc);
    names.push(first)?;
    'each: while let Some(after) = behind(rest, Sign::Comma) {
        let (next, left) = name(alloc, after)?;
        names.push(next)?;
        rest = left;
    }
    Ok((names, rest))
}

// Names of one type: `names : name ;`.
fn declaration<'a>(
    alloc: Global,
    tokens: &'a [Token],
) -> Result<(Declaration, &'a [Token]), Stop<'a>>
    ensures { Parses grammar.a_declaration MOST_GROUPS (symbols tokens.now) (λ r. r.0) (λ r. symbols r.1.now) result }
{
    let (names, rest) = names(alloc, tokens)?;
    let rest = expect(rest, Sign::Colon)?;
    let (ty, rest) = name(alloc, rest)?;
    let rest = expect(rest, Sign::Semicolon)?;
    Ok((Declaration { names, ty }, rest))
}

// Declarations, as long as a name stands next.
fn declarations<'a>(
    alloc: Global,
    tokens: &'a [Token],
) -> Result<(Declarations, &'a [Token]), Stop<'a>>
    ensures { Parses grammar.declarations MOST_GROUPS (symbols tokens.now) (λ r. r.0) (λ r. symbols r.1.now) result }
{
    let mut declarations = Declarations::new(alloc);
    let mut rest = tokens;
    'each: while is_name_next(rest) {
        let (next, left) = declaration(alloc, rest)?;
        declarations.push(next)?;
        rest = left;
    }
    Ok((declarations, rest))
}

// A section up to its END_VAR.
fn section<'a>(alloc: Global, tokens: &'a [Token]) -> Result<(Section, &'a [Token]), Stop<'a>>
    ensures { Parses grammar.a_section MOST_GROUPS (symbols tokens.now) (λ r. r.0) (λ r. symbols r.1.now) result }
{
    let Some((part, rest)) = next_part(tokens) else {
        return Err(Stop::Refused(Flaw::Unexpected, tokens));
    };
    let (declarations, rest) = declarations(alloc, rest)?;
    let rest = expect(rest, Sign::EndVar)?;
    Ok((Section { part, declarations }, rest))
}

/// Sections, as long as one begins.
pub fn sections<'a>(alloc: Global, tokens: &'a [Token]) -> Result<(Sections, &'a [Token]), Stop<'a>>
    ensures { Parses grammar.sections MOST_GROUPS (symbols tokens.now) (λ r. r.0) (λ r. symbols r.1.now) result }
{
    let mut sections = Sections::new(alloc);
    let mut rest = tokens;
    'each: while is_part_next(rest) {
        let (next, left) = section(alloc, rest)?;
        sections.push(next)?;
        rest = left;
    }
    Ok((sections, rest))
}
