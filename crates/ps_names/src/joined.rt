// Operands joined by AND or OR.

ghost use Rattle.std.specs.Prelude.{◌≡◌, ◌≢◌, [], ◌∷◌, IfOk, IfErr, length, map};
ghost use Rattle.ps_model.specs.Exprs.{formula, operands};
ghost use Rattle.ps_names.specs.Stands.{all_joined, any_joined};

use ps_model::{Expr, Exprs};

// The item of a list of one, or the list.
fn single(items: Vec<Expr>) -> Result<Expr, Vec<Expr>>
    ensures one { IfOk result (λ e. items.items ≡ e ∷ []) }
    ensures same { IfErr result (λ v. v.items ≡ items.items) }
    ensures many { IfErr result (λ v. length v.items ≢ 1) }
{
    let mut items = items;
    if items.len() != 1 {
        return Err(items);
    }
    match items.pop() {
        Some(e) => Ok(e),
        None => Err(items),
    }
}

/// The one operand, or the AND of all.
pub fn all_of(items: Vec<Expr>) -> Expr
    ensures { formula result ≡ all_joined (operands (map formula items.items)) }
{
    match single(items) {
        Ok(e) => e,
        Err(items) => Expr::And(Exprs { items }),
    }
}

/// The one operand, or the OR of all.
pub fn any_of(items: Vec<Expr>) -> Expr
    ensures { formula result ≡ any_joined (operands (map formula items.items)) }
{
    match single(items) {
        Ok(e) => e,
        Err(items) => Expr::Or(Exprs { items }),
    }
}
