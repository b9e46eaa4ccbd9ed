// Names, targets and the values of assignments and arguments, from tokens.
//
// Only a group is read by recursion, and groups are nested at most `MOST_GROUPS` deep. Each token is read once, so the
// time is linear in their number.

ghost use Rattle.std.specs.Prelude.{◌≡◌, ℕ, ◌∷◌};
ghost use Rattle.ps_parser.specs.declared.sign.Sign.TheVariants.{LeftBracket};
ghost use Rattle.ps_parser.specs.Symbol.{Mark, symbols};
ghost use Rattle.ps_parser.specs.SumView.{factor_tree, product_tree, sum_tree};
ghost use Rattle.ps_parser.specs.Phrase.{Stops};
ghost use Rattle.ps_parser.specs.Grammar.{a_name, a_target, a_factor, a_product, a_sum, is_other};
ghost use Rattle.ps_parser.specs.Parses.{Parses};

use crate::expression::{Factor, Factors, Product, Products, Sum};
use crate::name::Name;
use crate::peek::{behind, expect, next_literal, next_name};
use crate::sign::Sign;
use crate::statement::Target;
use crate::stop::{Flaw, Stop};
use ps_base::Bytes;
use ps_lexer::Token;
use std::alloc::Global;

/// The name that stands next.
pub fn name<'a>(alloc: Global, tokens: &'a [Token]) -> Result<(Name, &'a [Token]), Stop<'a>>
    ensures { (limit : ℕ) → Parses a_name limit (symbols tokens.now) (λ r. r.0) (λ r. symbols r.1.now) result }
{
    let Some((text, place, rest)) = next_name(tokens) else {
        return Err(Stop::Refused(Flaw::Unexpected, tokens));
    };
    let text = Bytes::from_slice(alloc, text.as_slice())?;
    Ok((Name { text, place }, rest))
}

/// A name, or a name after a name and a dot.
pub fn target<'a>(alloc: Global, tokens: &'a [Token]) -> Result<(Target, &'a [Token]), Stop<'a>>
    ensures { (limit : ℕ) → Parses a_target limit (symbols tokens.now) (λ r. r.0) (λ r. symbols r.1.now) result }
{
    let (first, rest) = name(alloc, tokens)?;
    let Some(after) = behind(rest, Sign::Dot) else {
        return Ok((Target::Name(first), rest));
    };
    let (pin, rest) = name(alloc, after)?;
    Ok((Target::Pin(first, pin), rest))
}

/// A factor, in which groups are nested at most so deep.
#[cycle(expression)]
pub fn factor<'a>(
    alloc: Global,
    limit: u32,
    tokens: &'a [Token],
) -> Result<(Factor, &'a [Token]), Stop<'a>>
    ensures { Parses a_factor limit (symbols tokens.now) (λ r. factor_tree r.0) (λ r. symbols r.1.now) result }
{
    if let Some(inside) = behind(tokens, Sign::LeftBracket) {
        return group(alloc, limit, tokens, inside);
    }
    if let Some((literal, rest)) = next_literal(tokens) {
        return Ok((literal, rest));
    }
    operand(alloc, limit, tokens)
}

// A factor that is neither a group nor a literal.
fn operand<'a>(
    alloc: Global,
    limit: u32,
    tokens: &'a [Token],
) -> Result<(Factor, &'a [Token]), Stop<'a>>
    requires { Stops is_other (symbols tokens.now) }
    ensures { Parses a_factor limit (symbols tokens.now) (λ r. factor_tree r.0) (λ r. symbols r.1.now) result }
{
    let (target, rest) = target(alloc, tokens)?;
    match target {
        Target::Name(name) => Ok((Factor::Name(name), rest)),
        Target::Pin(name, pin) => Ok((Factor::Pin(name, pin), rest)),
    }
}

// A sum in brackets, where one more group is allowed. Its first token is the bracket, after which it goes on.
#[cycle(expression)]
fn group<'a>(
    alloc: Global,
    limit: u32,
    tokens: &'a [Token],
    inside: &'a [Token],
) -> Result<(Factor, &'a [Token]), Stop<'a>>
    requires { symbols tokens.now ≡ Mark LeftBracket ∷ symbols inside.now }
    ensures { Parses a_factor limit (symbols tokens.now) (λ r. factor_tree r.0) (λ r. symbols r.1.now) result }
{
    if limit == 0 {
        return Err(Stop::Refused(Flaw::TooDeep, tokens));
    }
    let (value, rest) = sum(alloc, limit - 1, inside)?;
    let rest = expect(rest, Sign::RightBracket)?;
    Ok((Factor::Group(value), rest))
}

// Factors joined by AND.
#[cycle(expression)]
fn product<'a>(
    alloc: Global,
    limit: u32,
    tokens: &'a [Token],
) -> Result<(Product, &'a [Token]), Stop<'a>>
    ensures { Parses a_product limit (symbols tokens.now) (λ r. product_tree r.0) (λ r. symbols r.1.now) result }
{
    let (first, mut rest) = factor(alloc, limit, tokens)?;
    let mut factors = Factors::new(alloc);
    factors.push(first)?;
    'each: while let Some(after) = behind(rest, Sign::And) {
        let (next, left) = factor(alloc, limit, after)?;
        factors.push(next)?;
        rest = left;
    }
    Ok((Product { factors }, rest))
}

/// Products joined by OR, in which groups are nested at most so deep.
#[cycle(expression)]
pub fn sum<'a>(
    alloc: Global,
    limit: u32,
    tokens: &'a [Token],
) -> Result<(Sum, &'a [Token]), Stop<'a>>
    ensures { Parses a_sum limit (symbols tokens.now) (λ r. sum_tree r.0) (λ r. symbols r.1.now) result }
{
    let (first, mut rest) = product(alloc, limit, tokens)?;
    let mut products = Products::new(alloc);
    products.push(first)?;
    'each: while let Some(after) = behind(rest, Sign::Or) {
        let (next, left) = product(alloc, limit, after)?;
        products.push(next)?;
        rest = left;
    }
    Ok((Sum { products }, rest))
}
