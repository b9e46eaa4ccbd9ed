// The names that values read.

ghost use Rattle.std.specs.Prelude.{◌≡◌, List, ◌++◌, OnOk, IfOk, map};
ghost use Rattle.std.specs.List.{flat_map};
ghost use Rattle.ps_parser.specs.declared.name.Name.{Name};
ghost use Rattle.ps_parser.specs.SumView.{factor_tree, product_tree, sum_tree};
ghost use Rattle.ps_parser.specs.ArgumentView.{argument_tree};
ghost use Rattle.ps_parser.specs.StatementView.{statement_tree};
ghost use Rattle.ps_names.specs.Uses.{read, read_names, factor_uses, product_uses, sum_uses, argument_uses};
ghost use Rattle.ps_names.specs.Uses.{statement_uses};
ghost use Rattle.ps_names.specs.Tables.{Has};

use ps_base::Memory;
use ps_names::Table;
use ps_parser::{Argument, Factor, Product, Statement, Sum};
use std::alloc::Global;

// Enters the names that a sum reads.
#[cycle(reads)]
fn enter_sum(alloc: Global, reads: &mut Table, sum: &Sum) -> Result<(), Memory>
    ensures { OnOk result ((ns : List Name) → Has reads.old ns → Has reads.new (ns ++ flat_map read (sum_uses (sum_tree sum.now)))) }
{
    'each: for product in &sum.products.items {
        enter_product(alloc, reads, product)?;
    }
    Ok(())
}

// Enters the names that a product reads.
#[cycle(reads)]
fn enter_product(alloc: Global, reads: &mut Table, product: &Product) -> Result<(), Memory>
    ensures { OnOk result ((ns : List Name) → Has reads.old ns → Has reads.new (ns ++ flat_map read (product_uses (product_tree product.now)))) }
{
    'each: for factor in &product.factors.items {
        enter_factor(alloc, reads, factor)?;
    }
    Ok(())
}

// Enters the names that a factor reads.
#[cycle(reads)]
fn enter_factor(alloc: Global, reads: &mut Table, factor: &Factor) -> Result<(), Memory>
    ensures { OnOk result ((ns : List Name) → Has reads.old ns → Has reads.new (ns ++ flat_map read (factor_uses (factor_tree factor.now)))) }
{
    match factor {
        Factor::Name(n) => {
            reads.enter(alloc, n, 0)?;
            Ok(())
        }
        Factor::Pin(_, _) => Ok(()),
        Factor::Lit(_, _) => Ok(()),
        Factor::Time(_, _) => Ok(()),
        Factor::Group(s) => enter_sum(alloc, reads, s),
    }
}

// Enters the names that the arguments of a call of a name read.
fn enter_arguments(alloc: Global, reads: &mut Table, arguments: &[Argument]) -> Result<(), Memory>
    ensures { OnOk result ((n : Name) (ns : List Name) → Has reads.old ns → Has reads.new (ns ++ flat_map read (flat_map (argument_uses n) (map argument_tree arguments.now)))) }
{
    for argument in arguments {
        enter_sum(alloc, reads, &argument.value)?;
    }
    Ok(())
}

// Enters the names that a statement reads.
fn enter_statement(alloc: Global, reads: &mut Table, statement: &Statement) -> Result<(), Memory>
    ensures { OnOk result ((ns : List Name) → Has reads.old ns → Has reads.new (ns ++ flat_map read (statement_uses (statement_tree statement.now)))) }
{
    match statement {
        Statement::Assign(_, value) => enter_sum(alloc, reads, value),
        Statement::Call(_, arguments) => enter_arguments(alloc, reads, arguments.as_slice()),
    }
}

/// The names that the values of these statements read.
pub fn read_names(alloc: Global, statements: &[Statement]) -> Result<Table, Memory>
    ensures { IfOk result (λ t. Has t (read_names (map statement_tree statements.now))) }
{
    let mut reads = Table::new(alloc);
    for statement in statements {
        enter_statement(alloc, &mut reads, statement)?;
    }
    Ok(reads)
}
