// Which operands are told.

ghost use Rattle.std.specs.Prelude.{◌≡◌, ◌++◌, false, slice_index_or, OnOk};
ghost use Rattle.ps_model.specs.Exprs.{formula};
ghost use Rattle.ps_why.specs.Reasons.{deciding};
ghost use Rattle.ps_why.specs.Telling.{HasItsValue};

use ps_base::Memory;
use ps_model::{Expr, evaluate};

/// Adds the signals by which an expression has its value: of an AND that is FALSE those of its FALSE operands, of one
/// that is TRUE those of all, of an OR the other way round; in order, and one that stands twice is added twice. The
/// value of each signal is given, as the step reads it; one past their end is FALSE. `Err` comes only where memory is
/// wanting.
pub fn tell_signals(e: &Expr, signals: &[bool], told: &mut Vec<u16>) -> Result<(), Memory>
    ensures has { OnOk result (HasItsValue signals.now told.new.items (formula e.now)) }
    ensures adds { OnOk result (told.new.items
        ≡ told.old.items ++ deciding (λ s. slice_index_or signals.now s false) (formula e.now)) }
{
    match e {
        Expr::Signal(s) => told.push(*s)?,
        Expr::And(es) | Expr::Or(es) => {
            let whole = evaluate(e, signals);
            for x in &es.items {
                if evaluate(x, signals) == whole {
                    tell_signals(x, signals, told)?;
                }
            }
        }
    }
    Ok(())
}
