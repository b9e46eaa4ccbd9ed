//! Rows written as bytes.

ghost use Rattle.std.specs.Prelude.{◌≡◌, ◌+◌, ◌<◌, ◌≤◌, ◌∷◌, ◌++◌, OnOk, map};
ghost use Rattle.std.specs.Int.{to_be_bytes, w16};
ghost use Rattle.ps_model.specs.Exprs.{formula, operands};
ghost use Rattle.ps_model.specs.Args.{actual};
ghost use Rattle.ps_model.specs.Values.{depth, deepest};
ghost use Rattle.ps_eqvm.specs.Code.{encoded, bytes_of, operand_at, expression_rows, group_rows, pin_rows, pin_operand};
ghost use Rattle.ps_eqvm.specs.Gates.{gate_row};
ghost use Rattle.ps_eqgen.specs.Written.{depth_at_pin};

use ps_base::Memory;
use ps_eqvm::layout::WORK_CELLS;
use ps_eqvm::{Gate, Opcode, constant, work_cell};
use ps_model::{Arg, Expr};

/// The operand that has the value of an expression which is placed at a level.
pub fn operand(e: &Expr, level: u8) -> u16
    requires { level + depth (formula e.now) ≤ WORK_CELLS }
    ensures { result ≡ operand_at level (formula e.now) }
{
    match e {
        Expr::Signal(s) => *s,
        Expr::And(_) | Expr::Or(_) => work_cell(level),
    }
}

/// Writes the row that gives a target an operand.
pub fn emit_gate(code: &mut Vec<u8>, gate: Gate, target: u16, operand: u16) -> Result<(), Memory>
    ensures { OnOk result (code.new.items ≡ code.old.items ++ encoded (gate_row gate target operand)) }
{
    emit_two(code, Opcode::Target(gate).byte(), target, operand)
}

// Writes a row of an opcode, a target and an operand.
fn emit_two(code: &mut Vec<u8>, opcode: u8, target: u16, operand: u16) -> Result<(), Memory>
    ensures { OnOk result (code.new.items ≡ code.old.items ++ opcode ∷ (to_be_bytes w16 target ++ to_be_bytes w16 operand)) }
{
    code.push(opcode)?;
    emit_word(code, target)?;
    emit_word(code, operand)
}

/// Writes a number of two bytes.
pub fn emit_word(code: &mut Vec<u8>, number: u16) -> Result<(), Memory>
    ensures { OnOk result (code.new.items ≡ code.old.items ++ to_be_bytes w16 number) }
{
    code.extend_from_slice(&number.to_be_bytes())?;
    Ok(())
}

/// Writes the rows that place an expression at a level. The work cells from that level on are enough for it.
#[cycle(expr)]
pub fn emit_expression(code: &mut Vec<u8>, e: &Expr, level: u8) -> Result<(), Memory>
    requires { level + depth (formula e.now) ≤ WORK_CELLS }
    ensures { OnOk result (code.new.items ≡ code.old.items ++ bytes_of (expression_rows level (formula e.now))) }
{
    match e {
        Expr::Signal(_) => Ok(()),
        Expr::And(es) => emit_group(code, Gate::All, &es.items, level),
        Expr::Or(es) => emit_group(code, Gate::Any, &es.items, level),
    }
}

// Writes the rows of the operands of an AND or OR: the first is set into the work cell of the level, and each later one
// joined to it.
#[cycle(expr)]
fn emit_group(code: &mut Vec<u8>, join: Gate, all: &[Expr], level: u8) -> Result<(), Memory>
    requires { level + 1 + deepest (operands (map formula all.now)) ≤ WORK_CELLS }
    ensures { OnOk result (code.new.items ≡ code.old.items ++ bytes_of (group_rows level (gate_row join) (operands (map formula all.now)))) }
{
    let mut gate = Gate::Set;
    for x in all {
        emit_expression(code, x, level + 1)?;
        emit_gate(code, gate, work_cell(level), operand(x, level + 1))?;
        gate = join;
    }
    Ok(())
}

/// Writes the rows that place what stands at a Boolean pin: those of a value, and none for all else.
pub fn emit_argument(code: &mut Vec<u8>, arg: &Arg, level: u8) -> Result<(), Memory>
    requires { level + depth_at_pin (actual arg.now) ≤ WORK_CELLS }
    ensures { OnOk result (code.new.items ≡ code.old.items ++ bytes_of (pin_rows level (actual arg.now))) }
{
    match arg {
        Arg::Value(e) => emit_expression(code, e, level),
        _ => Ok(()),
    }
}

/// The operand of what stands at a Boolean pin: that of a value which is placed at a level, and a constant for all
/// else. A TIME literal is FALSE there.
pub fn argument_operand(arg: &Arg, free: bool, level: u8) -> u16
    requires { level + depth_at_pin (actual arg.now) ≤ WORK_CELLS }
    ensures { result ≡ pin_operand free level (actual arg.now) }
{
    match arg {
        Arg::Free => constant(free),
        Arg::Lit(on) => constant(*on),
        Arg::Time(_) => constant(false),
        Arg::Value(e) => operand(e, level),
    }
}
