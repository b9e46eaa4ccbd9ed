// The rules that look at one use of a name: N2, N4, N6 and N12.

ghost use Rattle.std.specs.Prelude.{◌≡◌, IfOk, ◌∷◌, [], map};
ghost use Rattle.std.specs.List.{flat_map};
ghost use Rattle.ps_parser.specs.SumView.{factor_tree, product_tree, sum_tree};
ghost use Rattle.ps_parser.specs.ArgumentView.{argument_tree};
ghost use Rattle.ps_parser.specs.StatementView.{statement_tree};
ghost use Rattle.ps_names.specs.Names.{sort_of};
ghost use Rattle.ps_names.specs.Offences.{noted};
ghost use Rattle.ps_names.specs.Uses.{factor_uses, product_uses, sum_uses, value_uses, argument_uses, statement_uses};
ghost use Rattle.ps_names.specs.Uses.{target_use};
ghost use Rattle.ps_names.specs.Rules.{broken_by};
ghost use Rattle.ps_names.specs.Tables.{IndexesDeclared};

use crate::literal::literal_of;
use ps_base::{Memory, Refusal, Rule};
use ps_names::{
    Entry, Sort, Table, note, note_argument, note_call, note_drive, note_drive_pin, note_read,
    note_read_pin, sort_at,
};
use ps_parser::{Argument, Factor, Name, Product, Statement, Sum, Target};
use std::alloc::Global;

/// The declared names with their table.
#[derive(Clone, Copy)]
pub struct Names<'a> {
    pub table: &'a Table,
    pub entries: &'a [Entry],
}

/// What a name is, and None where it is not declared.
pub fn sort_of(alloc: Global, names: &Names, name: &Name) -> Result<Option<Sort>, Memory>
    requires { IndexesDeclared names.now.table.now names.now.entries.now }
    ensures { IfOk result (λ s. s ≡ sort_of names.now.entries.now name.now) }
{
    match names.table.place_of(alloc, name)? {
        Some(k) => Ok(sort_at(names.entries, k)),
        None => Ok(None),
    }
}

// What a sum breaks.
#[cycle(uses)]
fn check_sum(
    alloc: Global,
    names: &Names,
    sum: &Sum,
    found: Option<Refusal>,
) -> Result<Option<Refusal>, Memory>
    requires { IndexesDeclared names.now.table.now names.now.entries.now }
    ensures { IfOk result (λ r. r ≡ noted found (flat_map (broken_by names.now.entries.now) (sum_uses (sum_tree sum.now)))) }
{
    let mut found = found;
    'each: for product in &sum.products.items {
        found = check_product(alloc, names, product, found)?;
    }
    Ok(found)
}

// What a product breaks.
#[cycle(uses)]
fn check_product(
    alloc: Global,
    names: &Names,
    product: &Product,
    found: Option<Refusal>,
) -> Result<Option<Refusal>, Memory>
    requires { IndexesDeclared names.now.table.now names.now.entries.now }
    ensures { IfOk result (λ r. r ≡ noted found (flat_map (broken_by names.now.entries.now) (product_uses (product_tree product.now)))) }
{
    let mut found = found;
    'each: for factor in &product.factors.items {
        found = check_factor(alloc, names, factor, found)?;
    }
    Ok(found)
}

// What a factor breaks.
#[cycle(uses)]
fn check_factor(
    alloc: Global,
    names: &Names,
    factor: &Factor,
    found: Option<Refusal>,
) -> Result<Option<Refusal>, Memory>
    requires { IndexesDeclared names.now.table.now names.now.entries.now }
    ensures { IfOk result (λ r. r ≡ noted found (flat_map (broken_by names.now.entries.now) (factor_uses (factor_tree factor.now)))) }
{
    match factor {
        Factor::Name(n) => {
            let sort = sort_of(alloc, names, n)?;
            Ok(note_read(found, n, sort))
        }
        Factor::Pin(n, q) => {
            let sort = sort_of(alloc, names, n)?;
            Ok(note_read_pin(found, n, q, sort))
        }
        Factor::Lit(_, place) => Ok(note(found, Rule::N12, *place)),
        Factor::Time(_, place) => Ok(note(found, Rule::N12, *place)),
        Factor::Group(s) => check_sum(alloc, names, s, found),
    }
}

// What the value of an argument breaks: a literal alone breaks nothing.
fn check_value(
    alloc: Global,
    names: &Names,
    value: &Sum,
    found: Option<Refusal>,
) -> Result<Option<Refusal>, Memory>
    requires { IndexesDeclared names.now.table.now names.now.entries.now }
    ensures { IfOk result (λ r. r ≡ noted found (flat_map (broken_by names.now.entries.now) (value_uses (sum_tree value.now)))) }
{
    match literal_of(value) {
        Some(_) => Ok(found),
        None => check_sum(alloc, names, value, found),
    }
}

// What an argument of a call of this name breaks, where the name is of this sort.
fn check_argument(
    alloc: Global,
    names: &Names,
    name: &Name,
    argument: &Argument,
    found: Option<Refusal>,
) -> Result<Option<Refusal>, Memory>
    requires { IndexesDeclared names.now.table.now names.now.entries.now }
    ensures { IfOk result (λ r. r ≡ noted found (flat_map (broken_by names.now.entries.now) (argument_uses name.now (argument_tree argument.now)))) }
{
    let sort = sort_of(alloc, names, name)?;
    let found = note_argument(found, &argument.pin, sort);
    check_value(alloc, names, &argument.value, found)
}

// What the arguments of a call of this name break.
fn check_arguments(
    alloc: Global,
    names: &Names,
    name: &Name,
    arguments: &[Argument],
    found: Option<Refusal>,
) -> Result<Option<Refusal>, Memory>
    requires { IndexesDeclared names.now.table.now names.now.entries.now }
    ensures { IfOk result (λ r. r ≡ noted found (flat_map (broken_by names.now.entries.now) (flat_map (argument_uses name.now) (map argument_tree arguments.now)))) }
{
    let mut found = found;
    for argument in arguments {
        found = check_argument(alloc, names, name, argument, found)?;
    }
    Ok(found)
}

// What a target breaks.
fn check_target(
    alloc: Global,
    names: &Names,
    target: &Target,
    found: Option<Refusal>,
) -> Result<Option<Refusal>, Memory>
    requires { IndexesDeclared names.now.table.now names.now.entries.now }
    ensures { IfOk result (λ r. r ≡ noted found (broken_by names.now.entries.now (target_use target.now))) }
{
    match target {
        Target::Name(n) => {
            let sort = sort_of(alloc, names, n)?;
            Ok(note_drive(found, n, sort))
        }
        Target::Pin(n, q) => {
            let sort = sort_of(alloc, names, n)?;
            Ok(note_drive_pin(found, n, q, sort))
        }
    }
}

// What a statement breaks.
fn check_statement(
    alloc: Global,
    names: &Names,
    statement: &Statement,
    found: Option<Refusal>,
) -> Result<Option<Refusal>, Memory>
    requires { IndexesDeclared names.now.table.now names.now.entries.now }
    ensures { IfOk result (λ r. r ≡ noted found (flat_map (broken_by names.now.entries.now) (statement_uses (statement_tree statement.now)))) }
{
    match statement {
        Statement::Assign(target, value) => {
            let found = check_target(alloc, names, target, found)?;
            check_sum(alloc, names, value, found)
        }
        Statement::Call(name, arguments) => {
            let sort = sort_of(alloc, names, name)?;
            let found = note_call(found, name, sort);
            check_arguments(alloc, names, name, arguments.as_slice(), found)
        }
    }
}

/// Notes what the uses of names in these statements break: N2, N4, N6 and N12.
pub fn check_statements(
    alloc: Global,
    names: &Names,
    statements: &[Statement],
    found: Option<Refusal>,
) -> Result<Option<Refusal>, Memory>
    requires { IndexesDeclared names.now.table.now names.now.entries.now }
    ensures { IfOk result (λ r. r ≡ noted found (flat_map (broken_by names.now.entries.now) (flat_map statement_uses (map statement_tree statements.now)))) }
{
    let mut found = found;
    for statement in statements {
        found = check_statement(alloc, names, statement, found)?;
    }
    Ok(found)
}
