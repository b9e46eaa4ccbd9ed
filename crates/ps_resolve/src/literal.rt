// Values that are one literal.

ghost use Rattle.std.specs.Prelude.{◌≡◌};
ghost use Rattle.ps_parser.specs.SumView.{factor_tree, product_tree, sum_tree};
ghost use Rattle.ps_resolve.specs.Literals.{literal_in_factor, literal_in_product, literal_of};

use ps_parser::{Factor, Product, Sum};

/// A Boolean literal, or a TIME literal with its value in ms.
#[derive(Clone, Copy)]
pub enum Literal {
    Bool(bool),
    Time(u32),
}

// The literal that a factor is.
fn literal_in_factor(factor: &Factor) -> Option<Literal>
    ensures { result ≡ literal_in_factor (factor_tree factor.now) }
{
    match factor {
        Factor::Lit(b, _) => Some(Literal::Bool(*b)),
        Factor::Time(t, _) => Some(Literal::Time(*t)),
        _ => None,
    }
}

// The literal that a product is.
fn literal_in_product(product: &Product) -> Option<Literal>
    ensures { result ≡ literal_in_product (product_tree product.now) }
{
    match product.factors.items.as_slice() {
        [factor] => literal_in_factor(factor),
        _ => None,
    }
}

/// The literal that is the whole value, where one is.
pub fn literal_of(sum: &Sum) -> Option<Literal>
    ensures { result ≡ literal_of (sum_tree sum.now) }
{
    match sum.products.items.as_slice() {
        [product] => literal_in_product(product),
        _ => None,
    }
}
