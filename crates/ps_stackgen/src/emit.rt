// The code of expressions and of what stands at pins.

ghost use Rattle.std.specs.Prelude.{◌≡◌, ◌++◌, OnOk, map};
ghost use Rattle.ps_model.specs.Exprs.{formula, operands};
ghost use Rattle.ps_model.specs.Args.{actual};
ghost use Rattle.ps_stackvm.specs.Code.{bytes_of, expression_code, group_code, pin_code};
ghost use Rattle.ps_stackgen.specs.Written.{join_at};

use ps_base::Memory;
use ps_model::{Arg, Expr};
use ps_stackvm::Instruction;

/// Writes what stands at a Boolean pin: the code of a value, and a constant for all else. `free` is the pin's
/// value where nothing stands.
pub fn emit_pin(code: &mut Vec<u8>, free: bool, arg: &Arg) -> Result<(), Memory>
    ensures { OnOk result (code.new.items ≡ code.old.items ++ bytes_of (pin_code free (actual arg.now))) }
{
    match arg {
        Arg::Free => Instruction::Const(u8::from(free)).write(code),
        Arg::Lit(b) => Instruction::Const(u8::from(*b)).write(code),
        Arg::Time(_) => Instruction::Const(0).write(code),
        Arg::Value(e) => emit_expression(code, e),
    }
}

/// Writes the code of an expression, which leaves its value on the stack.
#[cycle(expr)]
pub fn emit_expression(code: &mut Vec<u8>, e: &Expr) -> Result<(), Memory>
    ensures { OnOk result (code.new.items ≡ code.old.items ++ bytes_of (expression_code (formula e.now))) }
{
    match e {
        Expr::Signal(s) => Instruction::Load(*s).write(code),
        Expr::And(es) => emit_group(code, Instruction::And, &es.items),
        Expr::Or(es) => emit_group(code, Instruction::Or, &es.items),
    }
}

// Writes the code of the operands of an AND or OR, each but the first joined to what stands there.
#[cycle(expr)]
fn emit_group(code: &mut Vec<u8>, join: Instruction, all: &[Expr]) -> Result<(), Memory>
    ensures { OnOk result (code.new.items ≡ code.old.items ++ bytes_of (group_code join (operands (map formula all.now)))) }
{
    for (place, e) in all.iter().enumerate() {
        emit_expression(code, e)?;
        emit_join(code, join, place)?;
    }
    Ok(())
}

// Writes the joining instruction after each operand but the first.
fn emit_join(code: &mut Vec<u8>, join: Instruction, place: usize) -> Result<(), Memory>
    ensures { OnOk result (code.new.items ≡ code.old.items ++ bytes_of (join_at join place)) }
{
    if place > 0 { join.write(code) } else { Ok(()) }
}
