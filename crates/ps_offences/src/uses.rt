// What is read and assigned after a dot: B3.

ghost use Rattle.std.specs.Prelude.{◌≡◌, IfOk, map};
ghost use Rattle.std.specs.List.{flat_map};
ghost use Rattle.std.specs.Option.{option_copied};
ghost use Rattle.ps_parser.specs.SumView.{factor_tree, product_tree, sum_tree};
ghost use Rattle.ps_parser.specs.ArgumentView.{argument_tree};
ghost use Rattle.ps_parser.specs.StatementView.{statement_tree};
ghost use Rattle.ps_names.specs.Offences.{noted};
ghost use Rattle.ps_names.specs.Uses.{factor_uses, product_uses, sum_uses, argument_uses, statement_uses, target_use};
ghost use Rattle.ps_offences.specs.BlockRules.{misread, misdriven, misused};

use ps_base::{Memory, Refusal, Rule};
use ps_derived::{Interface, Interfaces, Scope};
use ps_names::{note, note_if};
use ps_parser::{Argument, Factor, Name, Product, Statement, Sum, Target};
use std::alloc::Global;

/// A body's declared names, and the function blocks that stand before it.
#[derive(Clone, Copy)]
pub struct Body<'a> {
    pub scope: &'a Scope,
    pub before: &'a Interfaces,
}

// Notes what is read after a dot, where the name before it is an instance of this function block.
fn note_read(
    alloc: Global,
    block: Option<&Interface>,
    pin: &Name,
    found: Option<Refusal>,
) -> Result<Option<Refusal>, Memory>
    ensures { IfOk result (λ r. r ≡ noted found (misread pin.now (option_copied block.entry))) }
{
    match block {
        None => Ok(found),
        Some(block) => {
            let is_output = block.declares_output(alloc, pin)?;
            Ok(note_if(found, !is_output, Rule::B3, pin.place))
        }
    }
}

// Notes a target after a dot, where the name before it is an instance of this function block.
fn note_driven(block: Option<&Interface>, pin: &Name, found: Option<Refusal>) -> Option<Refusal>
    ensures { result ≡ noted found (misdriven pin.now (option_copied block.entry)) }
{
    match block {
        None => found,
        Some(_) => note(found, Rule::B3, pin.place),
    }
}

// Notes the outputs that a sum reads wrongly.
#[cycle(uses)]
fn check_sum(
    alloc: Global,
    body: &Body,
    sum: &Sum,
    found: Option<Refusal>,
) -> Result<Option<Refusal>, Memory>
    ensures { IfOk result (λ r. r ≡ noted found (flat_map (misused body.now.before.now body.now.scope.now) (sum_uses (sum_tree sum.now)))) }
{
    let mut found = found;
    'each: for product in &sum.products.items {
        found = check_product(alloc, body, product, found)?;
    }
    Ok(found)
}

// Notes the outputs that a product reads wrongly.
#[cycle(uses)]
fn check_product(
    alloc: Global,
    body: &Body,
    product: &Product,
    found: Option<Refusal>,
) -> Result<Option<Refusal>, Memory>
    ensures { IfOk result (λ r. r ≡ noted found (flat_map (misused body.now.before.now body.now.scope.now) (product_uses (product_tree product.now)))) }
{
    let mut found = found;
    'each: for factor in &product.factors.items {
        found = check_factor(alloc, body, factor, found)?;
    }
    Ok(found)
}

// Notes the outputs that a factor reads wrongly.
#[cycle(uses)]
fn check_factor(
    alloc: Global,
    body: &Body,
    factor: &Factor,
    found: Option<Refusal>,
) -> Result<Option<Refusal>, Memory>
    ensures { IfOk result (λ r. r ≡ noted found (flat_map (misused body.now.before.now body.now.scope.now) (factor_uses (factor_tree factor.now)))) }
{
    match factor {
        Factor::Name(_) => Ok(found),
        Factor::Pin(n, q) => {
            let block = body.before.derived_of(alloc, body.scope, n)?;
            note_read(alloc, block, q, found)
        }
        Factor::Lit(_, _) => Ok(found),
        Factor::Time(_, _) => Ok(found),
        Factor::Group(s) => check_sum(alloc, body, s, found),
    }
}

// Notes the outputs that an argument in a call of this name reads wrongly.
fn check_argument(
    alloc: Global,
    body: &Body,
    name: &Name,
    argument: &Argument,
    found: Option<Refusal>,
) -> Result<Option<Refusal>, Memory>
    ensures { IfOk result (λ r. r ≡ noted found (flat_map (misused body.now.before.now body.now.scope.now) (argument_uses name.now (argument_tree argument.now)))) }
{
    check_sum(alloc, body, &argument.value, found)
}

// Notes the outputs that the arguments in a call of this name read wrongly.
fn check_arguments(
    alloc: Global,
    body: &Body,
    name: &Name,
    arguments: &[Argument],
    found: Option<Refusal>,
) -> Result<Option<Refusal>, Memory>
    ensures { IfOk result (λ r. r ≡ noted found (flat_map (misused body.now.before.now body.now.scope.now) (flat_map (argument_uses name.now) (map argument_tree arguments.now)))) }
{
    let mut found = found;
    for argument in arguments {
        found = check_argument(alloc, body, name, argument, found)?;
    }
    Ok(found)
}

// Notes a target after the dot of a derived instance.
fn check_target(
    alloc: Global,
    body: &Body,
    target: &Target,
    found: Option<Refusal>,
) -> Result<Option<Refusal>, Memory>
    ensures { IfOk result (λ r. r ≡ noted found (misused body.now.before.now body.now.scope.now (target_use target.now))) }
{
    match target {
        Target::Name(_) => Ok(found),
        Target::Pin(n, q) => {
            let block = body.before.derived_of(alloc, body.scope, n)?;
            Ok(note_driven(block, q, found))
        }
    }
}

// Notes what a statement reads and assigns wrongly.
fn check_statement(
    alloc: Global,
    body: &Body,
    statement: &Statement,
    found: Option<Refusal>,
) -> Result<Option<Refusal>, Memory>
    ensures { IfOk result (λ r. r ≡ noted found (flat_map (misused body.now.before.now body.now.scope.now) (statement_uses (statement_tree statement.now)))) }
{
    match statement {
        Statement::Assign(target, value) => {
            let found = check_target(alloc, body, target, found)?;
            check_sum(alloc, body, value, found)
        }
        Statement::Call(name, arguments) => {
            check_arguments(alloc, body, name, arguments.as_slice(), found)
        }
    }
}

/// Notes what statements read after the dot of a derived instance that is no output of it, and targets there (B3).
pub fn check_uses(
    alloc: Global,
    body: &Body,
    statements: &[Statement],
    found: Option<Refusal>,
) -> Result<Option<Refusal>, Memory>
    ensures { IfOk result (λ r. r ≡ noted found (flat_map (misused body.now.before.now body.now.scope.now) (flat_map statement_uses (map statement_tree statements.now)))) }
{
    let mut found = found;
    for statement in statements {
        found = check_statement(alloc, body, statement, found)?;
    }
    Ok(found)
}
