// The image of an application.

ghost use Rattle.std.specs.Prelude.{◌≡◌, ◌++◌, length, flat_map, IfOk, OnOk};
ghost use Rattle.std.specs.Int.{to_be_bytes, w16};
ghost use Rattle.ps_model.specs.declared.sizes.Sizes.{Sizes};
ghost use Rattle.ps_model.specs.Steps.{action};
ghost use Rattle.ps_model.specs.Blocks.{block};
ghost use Rattle.ps_model.specs.Budgets.{turns_b, IsCall};
ghost use Rattle.ps_model.specs.Scanning.{limit_of};
ghost use Rattle.ps_model.specs.Sized.{AreSizesOf};
ghost use Rattle.ps_model.specs.Typing.{Accepted};
ghost use Rattle.ps_model.specs.Values.{values_at_pin, values_of_step};
ghost use Rattle.ps_machine.specs.Keeping.{KeepsExactly};
ghost use Rattle.ps_eqvm.specs.Rows.{block_row};
ghost use Rattle.ps_eqvm.specs.Code.{encoded, bytes_of, pins_rows, pins_operands, step_rows, code_b};
ghost use Rattle.ps_eqvm.specs.Channel.{machine_b};
ghost use Rattle.ps_eqvm.specs.Stands.{StandsB};
ghost use Rattle.ps_eqgen.specs.Written.{block_head, AreShallow};

use crate::calls::call_limit;
use crate::emit::{
    argument_operand, emit_argument, emit_expression, emit_gate, emit_word, operand,
};
use crate::laws::{equation_code_is_short, equation_code_keeps_the_meaning};
use ps_base::Memory;
use ps_eqvm::{EquationImage, Gate, Opcode};
use ps_model::{App, Args, Kind, Step};
use ps_rows::{boolean_pins, free_value, number_of};
use std::alloc::Global;

/// The equation code of an accepted application: its steps in order, and LAST after them (profile). Run by
/// channel B, from cells that stand for any state, every scan ends Done in `turns_b` turns without a
/// trap, and its report is the meaning's. It takes memory for the code alone.
pub fn equation_image(alloc: Global, app: &App) -> Result<EquationImage, Memory>
    requires { Accepted app.now }
    ensures code { IfOk result (λ image. image ≡ code_b app.now) }
    ensures keeps { IfOk result (λ image. (sizes : Sizes) → AreSizesOf app.now sizes → KeepsExactly app.now (machine_b sizes image (turns_b app.now)) (StandsB app.now)) }
{
    equation_code_keeps_the_meaning(app);
    equation_code_is_short(app);
    let code = emit_application(alloc, app)?;
    Ok(EquationImage::of(code))
}

/// Writes the rows that place the Boolean pins of a call, in order: pin j at level j.
pub fn emit_pins(code: &mut Vec<u8>, kind: Kind, args: &Args) -> Result<(), Memory>
    requires arguments { length args.now ≡ length (block kind).inputs }
    requires shallow { AreShallow (flat_map values_at_pin args.now) }
    ensures { OnOk result (code.new.items ≡ code.old.items ++ bytes_of (pins_rows kind args.now)) }
{
    for j in 0..boolean_pins(kind) {
        emit_argument(code, args.at(j as usize), j)?;
    }
    Ok(())
}

// Writes the operands of the Boolean pins of a call, in order.
fn emit_operands(code: &mut Vec<u8>, kind: Kind, args: &Args) -> Result<(), Memory>
    requires arguments { length args.now ≡ length (block kind).inputs }
    requires shallow { AreShallow (flat_map values_at_pin args.now) }
    ensures { OnOk result (code.new.items ≡ code.old.items ++ flat_map (to_be_bytes w16) (pins_operands kind args.now)) }
{
    for j in 0..boolean_pins(kind) {
        let operand = argument_operand(args.at(j as usize), free_value(kind, j), j);
        emit_word(code, operand)?;
    }
    Ok(())
}

// Writes a BLOCK row up to its operands, of which there are so many. The limit is in ms.
fn emit_head(
    code: &mut Vec<u8>,
    instance: u16,
    kind: u8,
    first: u16,
    limit: u32,
    count: u8,
) -> Result<(), Memory>
    ensures { OnOk result (code.new.items ≡ code.old.items ++ block_head instance kind first limit count) }
{
    code.push(Opcode::Block.byte())?;
    emit_word(code, instance)?;
    code.push(kind)?;
    emit_word(code, first)?;
    code.extend_from_slice(&limit.to_be_bytes())?;
    code.push(count)?;
    Ok(())
}

/// Writes the BLOCK row of a call whose pins are placed: the instance and its kind, its first output signal, the limit
/// of the call, and the operands of the pins.
pub fn emit_block(
    code: &mut Vec<u8>,
    instance: u16,
    kind: Kind,
    first: u16,
    args: &Args,
) -> Result<(), Memory>
    requires arguments { length args.now ≡ length (block kind).inputs }
    requires shallow { AreShallow (flat_map values_at_pin args.now) }
    ensures { OnOk result (code.new.items ≡ code.old.items ++ encoded (block_row instance (block kind).number first (limit_of kind args.now) (pins_operands kind args.now))) }
{
    let number = number_of(kind);
    let limit = call_limit(kind, args);
    let count = boolean_pins(kind);
    emit_head(code, instance, number, first, limit, count)?;
    emit_operands(code, kind, args)
}

// Writes the rows of a step.
fn emit_step(code: &mut Vec<u8>, app: &App, step: &Step) -> Result<(), Memory>
    requires call { IsCall app.now (action step.now) }
    requires shallow { AreShallow (values_of_step (action step.now)) }
    ensures { OnOk result (code.new.items ≡ code.old.items ++ bytes_of (step_rows app.now (action step.now))) }
{
    match step {
        Step::Assign { target, value } => {
            emit_expression(code, value, 0)?;
            emit_gate(code, Gate::Set, *target, operand(value, 0))
        }
        Step::Call { instance, args } => {
            let kind = app.instance_kind(*instance);
            emit_pins(code, kind, args)?;
            emit_block(code, *instance, kind, app.first_pin(*instance), args)
        }
    }
}

// The code of an application.
fn emit_application(alloc: Global, app: &App) -> Result<Vec<u8>, Memory>
    ensures { IfOk result (λ code. code.items ≡ code_b app.now) }
{
    app.sound();
    let mut code = Vec::new(alloc);
    for k in 0..app.step_count() {
        emit_step(&mut code, app, app.step(k))?;
    }
    code.push(Opcode::Last.byte())?;
    Ok(code)
}
