// Values without outputs of derived instances.

ghost use Rattle.std.specs.Prelude.{◌≡◌, ◌∷◌, ◌++◌, IfOk, map};
ghost use Rattle.std.specs.Option.{option_copied};
ghost use Rattle.ps_parser.specs.SumView.{factor_tree, product_tree, sum_tree};
ghost use Rattle.ps_parser.specs.ArgumentView.{argument_tree};
ghost use Rattle.ps_derived.specs.Bodies.{first_declared};
ghost use Rattle.ps_derived.specs.Spelling.{spelling};
ghost use Rattle.ps_derived.specs.Flat.{instance_of, output_read, factor_flat, product_flat, sum_flat, argument_flat};
ghost use Rattle.ps_flatten.specs.Laying.{blocks_seen, instance_seen};

use crate::inside::dotted;
use crate::laid::{Body, Instance, instance_of};
use ps_base::{Bytes, Memory};
use ps_derived::copy_of;
use ps_parser::{Argument, Arguments, Factor, Factors, Name, Product, Products, Sum};
use std::alloc::Global;

// The text of an output of a derived instance, spelt as both are declared.
fn output_text(alloc: Global, instance: &Instance, pin: &Name) -> Result<Bytes, Memory>
    ensures { IfOk result (λ t. t ≡ instance.now.name.now.text ++ 46 ∷ spelling pin.now (first_declared instance.now.block.laid.now.interface.scope pin.now)) }
{
    match instance.block.laid.interface.scope.first(alloc, pin)? {
        None => dotted(alloc, &instance.name.text, &pin.text),
        Some(declared) => dotted(alloc, &instance.name.text, &declared.name.text),
    }
}

// What is read after the dot of a name: of a derived instance a name with a dot, at the place of the instance's name.
fn output_flat(alloc: Global, body: &Body, name: &Name, pin: &Name) -> Result<Factor, Memory>
    ensures { IfOk result (λ f. factor_tree f ≡ output_read name.now pin.now (instance_of (blocks_seen body.now.blocks.now) body.now.scope.now name.now)) }
{
    match instance_of(alloc, body, name)? {
        None => Ok(Factor::Pin(copy_of(alloc, name)?, copy_of(alloc, pin)?)),
        Some(instance) => Ok(Factor::Name(Name {
            text: output_text(alloc, &instance, pin)?,
            place: name.place,
        })),
    }
}

/// A sum without outputs of derived instances.
#[cycle(flat)]
pub fn sum_flat(alloc: Global, body: &Body, sum: &Sum) -> Result<Sum, Memory>
    ensures { IfOk result (λ s. sum_tree s ≡ sum_flat (blocks_seen body.now.blocks.now) body.now.scope.now (sum_tree sum.now)) }
{
    let mut products = Products::new(alloc);
    'each: for product in &sum.products.items {
        let one = product_flat(alloc, body, product)?;
        products.push(one)?;
    }
    Ok(Sum { products })
}

// A product without outputs of derived instances.
#[cycle(flat)]
fn product_flat(alloc: Global, body: &Body, product: &Product) -> Result<Product, Memory>
    ensures { IfOk result (λ p. product_tree p ≡ product_flat (blocks_seen body.now.blocks.now) body.now.scope.now (product_tree product.now)) }
{
    let mut factors = Factors::new(alloc);
    'each: for factor in &product.factors.items {
        let one = factor_flat(alloc, body, factor)?;
        factors.push(one)?;
    }
    Ok(Product { factors })
}

// A factor without outputs of derived instances.
#[cycle(flat)]
fn factor_flat(alloc: Global, body: &Body, factor: &Factor) -> Result<Factor, Memory>
    ensures { IfOk result (λ f. factor_tree f ≡ factor_flat (blocks_seen body.now.blocks.now) body.now.scope.now (factor_tree factor.now)) }
{
    match factor {
        Factor::Name(n) => Ok(Factor::Name(copy_of(alloc, n)?)),
        Factor::Pin(n, q) => output_flat(alloc, body, n, q),
        Factor::Lit(b, place) => Ok(Factor::Lit(*b, *place)),
        Factor::Time(t, place) => Ok(Factor::Time(*t, *place)),
        Factor::Group(s) => Ok(Factor::Group(sum_flat(alloc, body, s)?)),
    }
}

// An argument of a call of a block of the standard.
fn argument_flat(alloc: Global, body: &Body, argument: &Argument) -> Result<Argument, Memory>
    ensures { IfOk result (λ a. argument_tree a ≡ argument_flat (blocks_seen body.now.blocks.now) body.now.scope.now (argument_tree argument.now)) }
{
    Ok(Argument {
        pin: copy_of(alloc, &argument.pin)?,
        value: sum_flat(alloc, body, &argument.value)?,
    })
}

/// The arguments of a call of a block of the standard.
pub fn arguments_flat(
    alloc: Global,
    body: &Body,
    arguments: &[Argument],
) -> Result<Arguments, Memory>
    ensures { IfOk result (λ a. a ≡ map (argument_flat (blocks_seen body.now.blocks.now) body.now.scope.now) (map argument_tree arguments.now)) }
{
    let mut written = Arguments::new(alloc);
    for argument in arguments {
        let one = argument_flat(alloc, body, argument)?;
        written.push(one)?;
    }
    Ok(written)
}
