// Statements, from tokens.

ghost use Rattle.std.specs.Prelude.{ℕ};
ghost use Rattle.ps_parser.specs.Symbol.{symbols};
ghost use Rattle.ps_parser.specs.SumView.{sum_tree};
ghost use Rattle.ps_parser.specs.ArgumentView.{argument_tree};
ghost use Rattle.ps_parser.specs.StatementView.{statement_tree};
ghost use Rattle.ps_parser.specs.Grammar as grammar;
ghost use Rattle.ps_parser.specs.Parses.{Parses};

use crate::expression::Sum;
use crate::name::Name;
use crate::peek::{behind, expect, is_name_next};
use crate::read_expression::{name, sum};
use crate::sign::Sign;
use crate::statement::{Argument, Arguments, Statement, Statements, Target};
use crate::stop::Stop;
use ps_base::limits::MOST_GROUPS;
use ps_lexer::Token;
use std::alloc::Global;

// What an assignment gives its target: `:= sum ;`.
fn value<'a>(alloc: Global, tokens: &'a [Token]) -> Result<(Sum, &'a [Token]), Stop<'a>>
    ensures { Parses grammar.a_value MOST_GROUPS (symbols tokens.now) (λ r. sum_tree r.0) (λ r. symbols r.1.now) result }
{
    let rest = expect(tokens, Sign::Assign)?;
    let (value, rest) = sum(alloc, MOST_GROUPS, rest)?;
    let rest = expect(rest, Sign::Semicolon)?;
    Ok((value, rest))
}

// A pin after the dot, and what is assigned to it: `name := sum ;`.
fn pin_value<'a>(alloc: Global, tokens: &'a [Token]) -> Result<((Name, Sum), &'a [Token]), Stop<'a>>
    ensures { Parses grammar.pin_end MOST_GROUPS (symbols tokens.now) (λ r. (r.0.0, sum_tree r.0.1)) (λ r. symbols r.1.now) result }
{
    let (pin, rest) = name(alloc, tokens)?;
    let (value, rest) = value(alloc, rest)?;
    Ok(((pin, value), rest))
}

// An argument of a call: `name := sum`.
fn argument<'a>(alloc: Global, tokens: &'a [Token]) -> Result<(Argument, &'a [Token]), Stop<'a>>
    ensures { Parses grammar.an_argument MOST_GROUPS (symbols tokens.now) (λ r. argument_tree r.0) (λ r. symbols r.1.now) result }
{
    let (pin, rest) = name(alloc, tokens)?;
    let rest = expect(rest, Sign::Assign)?;
    let (value, left) = sum(alloc, MOST_GROUPS, rest)?;
    Ok((Argument { pin, value }, left))
}

// One argument or more, with a comma between each two.
fn some_arguments<'a>(
    alloc: Global,
    tokens: &'a [Token],
) -> Result<(Arguments, &'a [Token]), Stop<'a>>
    ensures { Parses grammar.arguments MOST_GROUPS (symbols tokens.now) (λ r. r.0) (λ r. symbols r.1.now) result }
{
    let (first, mut rest) = argument(alloc, tokens)?;
    let mut arguments = Arguments::new(alloc);
    arguments.push(first)?;
    'each: while let Some(after) = behind(rest, Sign::Comma) {
        let (next, left) = argument(alloc, after)?;
        arguments.push(next)?;
        rest = left;
    }
    Ok((arguments, rest))
}

// The arguments of a call, of which there may be none.
fn any_arguments<'a>(
    alloc: Global,
    tokens: &'a [Token],
) -> Result<(Arguments, &'a [Token]), Stop<'a>>
    ensures { Parses grammar.any_arguments MOST_GROUPS (symbols tokens.now) (λ r. r.0) (λ r. symbols r.1.now) result }
{
    if is_name_next(tokens) {
        return some_arguments(alloc, tokens);
    }
    Ok((Arguments::new(alloc), tokens))
}

// A call after its opening bracket: `arguments ) ;`.
fn call_end<'a>(alloc: Global, tokens: &'a [Token]) -> Result<(Arguments, &'a [Token]), Stop<'a>>
    ensures { Parses grammar.call_end MOST_GROUPS (symbols tokens.now) (λ r. (r.0, (tt, tt))) (λ r. symbols r.1.now) result }
{
    let (arguments, rest) = any_arguments(alloc, tokens)?;
    let rest = expect(rest, Sign::RightBracket)?;
    let rest = expect(rest, Sign::Semicolon)?;
    Ok((arguments, rest))
}

// An assignment or a call.
fn statement<'a>(alloc: Global, tokens: &'a [Token]) -> Result<(Statement, &'a [Token]), Stop<'a>>
    ensures { Parses grammar.a_statement MOST_GROUPS (symbols tokens.now) (λ r. statement_tree r.0) (λ r. symbols r.1.now) result }
{
    let (first, rest) = name(alloc, tokens)?;
    if let Some(after) = behind(rest, Sign::Dot) {
        let ((pin, value), left) = pin_value(alloc, after)?;
        return Ok((Statement::Assign(Target::Pin(first, pin), value), left));
    }
    if let Some(inside) = behind(rest, Sign::LeftBracket) {
        let (arguments, left) = call_end(alloc, inside)?;
        return Ok((Statement::Call(first, arguments), left));
    }
    let (value, left) = value(alloc, rest)?;
    Ok((Statement::Assign(Target::Name(first), value), left))
}

/// Statements, as long as a name stands next.
pub fn statements<'a>(
    alloc: Global,
    tokens: &'a [Token],
) -> Result<(Statements, &'a [Token]), Stop<'a>>
    ensures { Parses grammar.statements MOST_GROUPS (symbols tokens.now) (λ r. r.0) (λ r. symbols r.1.now) result }
{
    let mut statements = Statements::new(alloc);
    let mut rest = tokens;
    'each: while is_name_next(rest) {
        let (next, left) = statement(alloc, rest)?;
        statements.push(next)?;
        rest = left;
    }
    Ok((statements, rest))
}
