// Boolean expressions over numbered signals.

ghost use Rattle.std.specs.Prelude.{◌≡◌, ◌<◌, ◌∷◌, ◌++◌, [], OnOk, length, slice_get, slice_index_or, false};
ghost use Rattle.ps_model.specs.Formula.{value};
ghost use Rattle.ps_model.specs.Exprs.{formula};

use ps_base::Memory;
use std::alloc::Global;

/// A Boolean expression of IEC 61131-3 over AND and OR: a signal by its number, or the AND or OR of its operands.
#[derive(Drop)]
#[cycle(expr)]
pub enum Expr {
    /// A signal, by its number.
    Signal(u16),
    /// TRUE where each operand is.
    And(Exprs),
    /// TRUE where an operand is.
    Or(Exprs),
}

/// The operands of an AND or OR, in order. Contracts read them by `items`.
#[derive(Drop)]
#[cycle(expr)]
pub struct Exprs {
    /// The operands.
    pub items: Vec<Expr>,
}

impl Exprs {
    /// No operands. It takes no memory.
    pub fn new(alloc: Global) -> Exprs
        ensures { result.items.items ≡ [] }
    {
        Exprs {
            items: Vec::new(alloc),
        }
    }

    /// One more operand at the end.
    pub fn push(&mut self, expr: Expr) -> Result<(), Memory>
        ensures { OnOk result (self.new.items.items ≡ self.old.items.items ++ expr ∷ []) }
    {
        self.items.push(expr)?;
        Ok(())
    }

    /// How many operands there are.
    pub fn len(&self) -> usize
        ensures { result ≡ length self.now.items.items }
    {
        self.items.len()
    }

    /// The operand at a place, counted from 0.
    pub fn at(&self, i: usize) -> &Expr
        requires { i < length self.now.items.items }
        ensures { slice_get self.now.items.items i ≡ Some result.now }
    {
        &self.items[i]
    }
}

/// The value of an expression over these values of the signals; a signal past their end is FALSE.
pub fn evaluate(e: &Expr, signals: &[bool]) -> bool
    ensures { result ≡ value (λ s. slice_index_or signals.now s false) (formula e.now) }
{
    match e {
        Expr::Signal(s) => {
            let s = *s as usize;
            if s < signals.len() { signals[s] } else { false }
        }
        Expr::And(es) => {
            for x in &es.items {
                if !evaluate(x, signals) {
                    return false;
                }
            }
            true
        }
        Expr::Or(es) => {
            for x in &es.items {
                if evaluate(x, signals) {
                    return true;
                }
            }
            false
        }
    }
}
