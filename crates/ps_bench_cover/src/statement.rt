// The places of the operands of a statement, in order.

ghost use Rattle.std.specs.Prelude.{◌≡◌, ◌++◌, ◌<◌, OnOk, Some, length, map, slice_get};
ghost use Rattle.std.specs.List.{flat_map};
ghost use Rattle.ps_base.specs.LetterCase.{is_same_name};
ghost use Rattle.ps_model.specs.Blocks.{Pin, block};
ghost use Rattle.ps_parser.specs.ArgumentView.{argument_tree};
ghost use Rattle.ps_parser.specs.StatementView.{statement_tree};
ghost use Rattle.ps_parser.specs.SumView.{factor_tree, factor_trees, product_tree, product_trees, sum_tree};
ghost use Rattle.ps_bench_cover.specs.Operands.{joined, of_and, of_or, pin_operands, place_of};
ghost use Rattle.ps_bench_cover.specs.Operands.{product_operands, statement_operands};
ghost use Rattle.ps_bench_cover.specs.Operands.{sum_operands, within_factor};

use crate::operand::{factor_place, product_place};
use ps_base::{Memory, Place};
use ps_model::{Kind, input_count, pin_name};
use ps_parser::{Argument, Factor, Factors, Name, Product, Products, Statement, Sum};

// Lists the factors of an AND; one that stands alone is none.
fn push_factors(factors: &Factors, places: &mut Vec<Place>) -> Result<(), Memory>
    ensures { OnOk result (places.new.items ≡ places.old.items
        ++ map place_of (map of_and (joined (factor_trees factors.now)))) }
{
    let count = factors.items.len();
    if count < 2 {
        return Ok(());
    }
    for factor in &factors.items {
        places.push(factor_place(factor))?;
    }
    Ok(())
}

// Lists the products of an OR; one that stands alone is none.
fn push_products(products: &Products, places: &mut Vec<Place>) -> Result<(), Memory>
    ensures { OnOk result (places.new.items ≡ places.old.items
        ++ map place_of (map of_or (joined (product_trees products.now)))) }
{
    let items = products.items.as_slice();
    if items.len() < 2 {
        return Ok(());
    }
    for product in items {
        places.push(product_place(product))?;
    }
    Ok(())
}

// Lists the operands within a factor.
#[cycle(listing)]
fn push_factor(factor: &Factor, places: &mut Vec<Place>) -> Result<(), Memory>
    ensures { OnOk result (places.new.items ≡ places.old.items
        ++ map place_of (within_factor (factor_tree factor.now))) }
{
    match factor {
        Factor::Group(sum) => push_sum(sum, places),
        Factor::Name(_) | Factor::Pin(_, _) | Factor::Lit(_, _) | Factor::Time(_, _) => Ok(()),
    }
}

// Lists the operands of a product, and those within it.
#[cycle(listing)]
fn push_product(product: &Product, places: &mut Vec<Place>) -> Result<(), Memory>
    ensures { OnOk result (places.new.items ≡ places.old.items
        ++ map place_of (product_operands (product_tree product.now))) }
{
    push_factors(&product.factors, places)?;
    'each: for factor in &product.factors.items {
        push_factor(factor, places)?;
    }
    Ok(())
}

// Lists the operands of a sum, and those within it.
#[cycle(listing)]
fn push_sum(sum: &Sum, places: &mut Vec<Place>) -> Result<(), Memory>
    ensures { OnOk result (places.new.items ≡ places.old.items
        ++ map place_of (sum_operands (sum_tree sum.now))) }
{
    push_products(&sum.products, places)?;
    'each: for product in &sum.products.items {
        push_product(product, places)?;
    }
    Ok(())
}

// Whether a name is this word but for letter case.
fn is_word(name: &Name, word: &[u8]) -> bool
    ensures { result ≡ is_same_name name.now.text word.now }
{
    name.text.as_slice().eq_ignore_ascii_case(word)
}

// Lists the operands of what these arguments give at a pin.
fn push_pin(arguments: &[Argument], pin: &str, places: &mut Vec<Place>) -> Result<(), Memory>
    ensures { OnOk result (places.new.items ≡ places.old.items
        ++ map place_of (pin_operands (map argument_tree arguments.now) pin.now)) }
{
    for argument in arguments {
        if is_word(&argument.pin, pin.as_bytes()) {
            return push_sum(&argument.value, places);
        }
    }
    Ok(())
}

// The name of input pin j of a kind.
fn input_name(kind: Kind, j: u8) -> &'static str
    requires { j < length (block kind).inputs }
    ensures { slice_get (map (λ (p : Pin). p.name) (block kind).inputs) j ≡ Some result.now }
{
    pin_name(kind, j)
}

// Lists the operands of the arguments of a call of this kind, pin by pin.
fn push_pins(kind: Kind, arguments: &[Argument], places: &mut Vec<Place>) -> Result<(), Memory>
    ensures { OnOk result (places.new.items ≡ places.old.items ++ map place_of
        (flat_map (λ (p : Pin). pin_operands (map argument_tree arguments.now) p.name) (block kind).inputs)) }
{
    for j in 0..input_count(kind) {
        push_pin(arguments, input_name(kind, j), places)?;
    }
    Ok(())
}

/// Lists the places of the operands of a statement after others: of each AND and OR, before those within it; of a call
/// of this kind pin by pin, in the order of its table. An operand stands where its first name does. An error: memory is
/// wanting.
pub(crate) fn push_statement(
    kind: Kind,
    statement: &Statement,
    places: &mut Vec<Place>,
) -> Result<(), Memory>
    ensures { OnOk result (places.new.items ≡ places.old.items
        ++ map place_of (statement_operands kind (statement_tree statement.now))) }
{
    match statement {
        Statement::Assign(_, value) => push_sum(value, places),
        Statement::Call(_, arguments) => push_pins(kind, arguments.as_slice(), places),
    }
}
