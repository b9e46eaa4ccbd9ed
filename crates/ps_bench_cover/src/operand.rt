// Where an operand is written.

ghost use Rattle.std.specs.Prelude.{◌≡◌};
ghost use Rattle.ps_parser.specs.SumView.{factor_tree, product_tree, sum_tree};
ghost use Rattle.ps_bench_cover.specs.Operands as operands;

use ps_base::Place;
use ps_parser::{Factor, Product, Sum};

// What stands nowhere.
const NOWHERE: Place = Place { line: 0, column: 0 };

/// Where a factor stands: where its first name does.
#[cycle(place)]
pub(crate) fn factor_place(factor: &Factor) -> Place
    ensures { result ≡ operands.factor_place (factor_tree factor.now) }
{
    match factor {
        Factor::Name(name) => name.place,
        Factor::Pin(name, _) => name.place,
        Factor::Lit(_, place) => *place,
        Factor::Time(_, place) => *place,
        Factor::Group(sum) => sum_place(sum),
    }
}

/// Where a product stands: where its first name does.
#[cycle(place)]
pub(crate) fn product_place(product: &Product) -> Place
    ensures { result ≡ operands.product_place (product_tree product.now) }
{
    for factor in &product.factors.items {
        return factor_place(factor);
    }
    NOWHERE
}

// Where a sum stands: where its first name does.
#[cycle(place)]
fn sum_place(sum: &Sum) -> Place
    ensures { result ≡ operands.sum_place (sum_tree sum.now) }
{
    for product in &sum.products.items {
        return product_place(product);
    }
    NOWHERE
}
