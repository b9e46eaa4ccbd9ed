// The text of a body under other names.

ghost use Rattle.std.specs.Prelude.{◌≡◌, IfOk, map};
ghost use Rattle.ps_parser.specs.SumView.{factor_tree, product_tree, sum_tree};
ghost use Rattle.ps_parser.specs.ArgumentView.{argument_tree};
ghost use Rattle.ps_parser.specs.StatementView.{statement_tree};
ghost use Rattle.ps_derived.specs.Renaming.{factor_renamed, product_renamed, sum_renamed, target_renamed};
ghost use Rattle.ps_derived.specs.Renaming.{argument_renamed, statement_renamed};
ghost use Rattle.ps_derived.specs.Dotted.{statement_inside};
ghost use Rattle.ps_derived.specs.Spelling.{as_declared};
ghost use Rattle.ps_flatten.specs.Laying.{renamed};

use crate::inside::inside;
use ps_base::{Bytes, Memory};
use ps_derived::{Scope, copy_of};
use ps_parser::{
    Argument, Arguments, Factor, Factors, Name, Product, Products, Statement, Statements, Sum,
    Target,
};
use std::alloc::Global;

/// What the names of a body become: names inside an instance, after its name and a dot; or the same names, spelt as
/// these declarations spell them.
#[derive(Clone, Copy)]
pub enum Renaming<'a> {
    Inside(&'a Name),
    AsDeclared(&'a Scope),
}

// A name spelt as its first declaration spells it, at its own place.
fn as_declared(alloc: Global, scope: &Scope, name: &Name) -> Result<Name, Memory>
    ensures { IfOk result (λ n. n ≡ as_declared scope.now name.now) }
{
    match scope.first(alloc, name)? {
        None => copy_of(alloc, name),
        Some(declared) => Ok(Name {
            text: Bytes::from_slice(alloc, declared.name.text.as_slice())?,
            place: name.place,
        }),
    }
}

// What a name becomes.
fn renamed(alloc: Global, renaming: &Renaming, name: &Name) -> Result<Name, Memory>
    ensures { IfOk result (λ n. n ≡ renamed renaming.now name.now) }
{
    match renaming {
        Renaming::Inside(instance) => inside(alloc, instance, name),
        Renaming::AsDeclared(scope) => as_declared(alloc, scope, name),
    }
}

// A sum under other names.
#[cycle(renamed)]
fn sum_renamed(alloc: Global, renaming: &Renaming, sum: &Sum) -> Result<Sum, Memory>
    ensures { IfOk result (λ s. sum_tree s ≡ sum_renamed (renamed renaming.now) (sum_tree sum.now)) }
{
    let mut products = Products::new(alloc);
    'each: for product in &sum.products.items {
        let one = product_renamed(alloc, renaming, product)?;
        products.push(one)?;
    }
    Ok(Sum { products })
}

// A product under other names.
#[cycle(renamed)]
fn product_renamed(alloc: Global, renaming: &Renaming, product: &Product) -> Result<Product, Memory>
    ensures { IfOk result (λ p. product_tree p ≡ product_renamed (renamed renaming.now) (product_tree product.now)) }
{
    let mut factors = Factors::new(alloc);
    'each: for factor in &product.factors.items {
        let one = factor_renamed(alloc, renaming, factor)?;
        factors.push(one)?;
    }
    Ok(Product { factors })
}

// A factor under other names.
#[cycle(renamed)]
fn factor_renamed(alloc: Global, renaming: &Renaming, factor: &Factor) -> Result<Factor, Memory>
    ensures { IfOk result (λ f. factor_tree f ≡ factor_renamed (renamed renaming.now) (factor_tree factor.now)) }
{
    match factor {
        Factor::Name(n) => Ok(Factor::Name(renamed(alloc, renaming, n)?)),
        Factor::Pin(n, q) => {
            let name = renamed(alloc, renaming, n)?;
            Ok(Factor::Pin(name, copy_of(alloc, q)?))
        }
        Factor::Lit(b, place) => { Ok(Factor::Lit(*b, *place)) }
        Factor::Time(t, place) => { Ok(Factor::Time(*t, *place)) }
        Factor::Group(s) => { Ok(Factor::Group(sum_renamed(alloc, renaming, s)?)) }
    }
}

// A target under other names.
fn target_renamed(alloc: Global, renaming: &Renaming, target: &Target) -> Result<Target, Memory>
    ensures { IfOk result (λ t. t ≡ target_renamed (renamed renaming.now) target.now) }
{
    match target {
        Target::Name(n) => Ok(Target::Name(renamed(alloc, renaming, n)?)),
        Target::Pin(n, q) => {
            let name = renamed(alloc, renaming, n)?;
            Ok(Target::Pin(name, copy_of(alloc, q)?))
        }
    }
}

// An argument under other names, of which the pin keeps its name.
fn argument_renamed(
    alloc: Global,
    renaming: &Renaming,
    argument: &Argument,
) -> Result<Argument, Memory>
    ensures { IfOk result (λ a. argument_tree a ≡ argument_renamed (renamed renaming.now) (argument_tree argument.now)) }
{
    Ok(Argument {
        pin: copy_of(alloc, &argument.pin)?,
        value: sum_renamed(alloc, renaming, &argument.value)?,
    })
}

// Arguments under other names.
fn arguments_renamed(
    alloc: Global,
    renaming: &Renaming,
    arguments: &[Argument],
) -> Result<Arguments, Memory>
    ensures { IfOk result (λ a. a ≡ map (argument_renamed (renamed renaming.now)) (map argument_tree arguments.now)) }
{
    let mut copies = Arguments::new(alloc);
    for argument in arguments {
        let one = argument_renamed(alloc, renaming, argument)?;
        copies.push(one)?;
    }
    Ok(copies)
}

// A statement under other names.
fn statement_renamed(
    alloc: Global,
    renaming: &Renaming,
    statement: &Statement,
) -> Result<Statement, Memory>
    ensures { IfOk result (λ s. statement_tree s ≡ statement_renamed (renamed renaming.now) (statement_tree statement.now)) }
{
    match statement {
        Statement::Assign(target, value) => {
            let target = target_renamed(alloc, renaming, target)?;
            let value = sum_renamed(alloc, renaming, value)?;
            Ok(Statement::Assign(target, value))
        }
        Statement::Call(name, arguments) => {
            let name = renamed(alloc, renaming, name)?;
            let arguments = arguments_renamed(alloc, renaming, arguments.as_slice())?;
            Ok(Statement::Call(name, arguments))
        }
    }
}

/// A statement inside an instance.
pub fn statement_inside(
    alloc: Global,
    instance: &Name,
    statement: &Statement,
) -> Result<Statement, Memory>
    ensures { IfOk result (λ s. statement_tree s ≡ statement_inside instance.now (statement_tree statement.now)) }
{
    statement_renamed(alloc, &Renaming::Inside(instance), statement)
}

/// Statements whose names are spelt as these declarations spell them.
pub fn statements_as_declared(
    alloc: Global,
    scope: &Scope,
    statements: &[Statement],
) -> Result<Statements, Memory>
    ensures { IfOk result (λ s. s ≡ map (statement_renamed (as_declared scope.now)) (map statement_tree statements.now)) }
{
    let mut written = Statements::new(alloc);
    for statement in statements {
        let one = statement_renamed(alloc, &Renaming::AsDeclared(scope), statement)?;
        written.push(one)?;
    }
    Ok(written)
}
