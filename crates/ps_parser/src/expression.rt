// The values of assignments and arguments: sums of products of factors.

ghost use Rattle.std.specs.Prelude.{◌≡◌, ◌<◌, [], ◌∷◌, ◌++◌, OnOk, length, Some, slice_get};
ghost use Rattle.ps_parser.specs.SumView.{factor_tree, factor_trees, product_tree, product_trees};

use crate::name::Name;
use ps_base::{Memory, Place};
use std::alloc::Global;

/// What stands between two ANDs: a name, a name after the name of an instance and a dot, a Boolean literal,
/// a TIME literal with its value in ms, or a sum in brackets. A literal has the place of its first byte.
#[derive(Drop)]
#[cycle(tree)]
pub enum Factor {
    Name(Name),
    Pin(Name, Name),
    Lit(bool, Place),
    Time(u32, Place),
    Group(Sum),
}

/// Factors in order. Contracts see them as a list of trees.
#[derive(Drop)]
#[cycle(tree)]
pub struct Factors {
    pub items: Vec<Factor>,
}

/// Factors joined by AND.
#[derive(Drop)]
#[cycle(tree)]
pub struct Product {
    pub factors: Factors,
}

/// Products in order. Contracts see them as a list of trees.
#[derive(Drop)]
#[cycle(tree)]
pub struct Products {
    pub items: Vec<Product>,
}

/// Products joined by OR.
#[derive(Drop)]
#[cycle(tree)]
pub struct Sum {
    pub products: Products,
}

impl Factors {
    /// No factors. It takes no memory.
    pub fn new(alloc: Global) -> Factors
        ensures { factor_trees result ≡ [] }
    {
        Factors {
            items: Vec::new(alloc),
        }
    }

    /// One more factor at the end.
    pub fn push(&mut self, factor: Factor) -> Result<(), Memory>
        ensures { OnOk result (factor_trees self.new ≡ factor_trees self.old ++ factor_tree factor ∷ []) }
    {
        self.items.push(factor)?;
        Ok(())
    }

    /// How many there are.
    pub fn len(&self) -> usize
        ensures { result ≡ length (factor_trees self.now) }
    {
        self.items.len()
    }

    /// The factor at a place of the list.
    pub fn at(&self, i: usize) -> &Factor
        requires { i < length (factor_trees self.now) }
        ensures { slice_get (factor_trees self.now) i ≡ Some (factor_tree result.now) }
    {
        &self.items[i]
    }
}

impl Products {
    /// No products. It takes no memory.
    pub fn new(alloc: Global) -> Products
        ensures { product_trees result ≡ [] }
    {
        Products {
            items: Vec::new(alloc),
        }
    }

    /// One more product at the end.
    pub fn push(&mut self, product: Product) -> Result<(), Memory>
        ensures { OnOk result (product_trees self.new ≡ product_trees self.old ++ product_tree product ∷ []) }
    {
        self.items.push(product)?;
        Ok(())
    }

    /// How many there are.
    pub fn len(&self) -> usize
        ensures { result ≡ length (product_trees self.now) }
    {
        self.items.len()
    }

    /// The product at a place of the list.
    pub fn at(&self, i: usize) -> &Product
        requires { i < length (product_trees self.now) }
        ensures { slice_get (product_trees self.now) i ≡ Some (product_tree result.now) }
    {
        &self.items[i]
    }
}
