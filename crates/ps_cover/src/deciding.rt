// Which operand of an AND or an OR decides.

ghost use Rattle.std.specs.Prelude.{◌≡◌, ◌==◌, ◌||◌};
ghost use Rattle.ps_model.specs.Exprs.{formula};
ghost use Rattle.ps_cover.specs.Deciding.{is_and, is_value};

use ps_model::Expr;

/// Whether a value is this one.
pub fn is_value(b: bool, value: bool) -> bool
    ensures { result ≡ is_value b value }
{
    if b { value } else { !value }
}

/// Whether the operand at place j, of an AND or else of an OR, is the one at a place, or has a value that leaves the
/// decision to that one.
pub fn leaves_decision(of_and: bool, place: usize, j: usize, value: bool) -> bool
    ensures { result ≡ (j == place || is_value of_and value) }
{
    j == place || is_value(of_and, value)
}

/// Whether an expression is an AND.
pub fn is_and(e: &Expr) -> bool
    ensures { result ≡ is_and (formula e.now) }
{
    match e {
        Expr::And(_) => true,
        Expr::Or(_) => false,
        Expr::Signal(_) => false,
    }
}
