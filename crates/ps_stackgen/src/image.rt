// The image of an application.

ghost use Rattle.std.specs.Prelude.{◌≡◌, ◌++◌, length, IfOk, OnOk};
ghost use Rattle.ps_model.specs.declared.sizes.Sizes.{Sizes};
ghost use Rattle.ps_model.specs.Steps.{action};
ghost use Rattle.ps_model.specs.Blocks.{block};
ghost use Rattle.ps_model.specs.Budgets.{turns_a, IsCall};
ghost use Rattle.ps_model.specs.Sized.{AreSizesOf};
ghost use Rattle.ps_model.specs.Typing.{Accepted};
ghost use Rattle.ps_machine.specs.Keeping.{KeepsExactly};
ghost use Rattle.ps_stackvm.specs.Code.{bytes_of, pins_code, step_code, code_a};
ghost use Rattle.ps_stackvm.specs.Channel.{machine_a};
ghost use Rattle.ps_stackvm.specs.Stands.{StandsA};

use crate::emit::{emit_expression, emit_pin};
use crate::laws::{stack_code_is_short, stack_code_keeps_the_meaning};
use ps_base::Memory;
use ps_machine::{call_limit, free_value};
use ps_model::{App, Args, Kind, Step, boolean_count, kind_number};
use ps_stackvm::{Instruction, StackImage};
use std::alloc::Global;

/// The stack code of an accepted application: its steps in order, and END after them (profile). Run by
/// channel A, from cells that stand for any state, every scan ends Done in `turns_a` turns without a
/// trap, and its report is the meaning's.
pub fn stack_image(alloc: Global, app: &App) -> Result<StackImage, Memory>
    requires { Accepted app.now }
    ensures code { IfOk result (λ image. image ≡ code_a app.now) }
    ensures keeps { IfOk result (λ image. (sizes : Sizes) → AreSizesOf app.now sizes → KeepsExactly app.now (machine_a sizes image (turns_a app.now)) (StandsA app.now)) }
{
    stack_code_keeps_the_meaning(app);
    stack_code_is_short(app);
    let code = emit_application(alloc, app)?;
    Ok(StackImage::of(code))
}

/// Writes the code of the Boolean pins of a call, in order.
pub fn emit_pins(code: &mut Vec<u8>, kind: Kind, args: &Args) -> Result<(), Memory>
    requires { length args.now ≡ length (block kind).inputs }
    ensures { OnOk result (code.new.items ≡ code.old.items ++ bytes_of (pins_code kind args.now)) }
{
    for j in 0..boolean_count(kind) {
        emit_pin(code, free_value(kind, j), args.at(j as usize))?;
    }
    Ok(())
}

// Writes the code of a step.
fn emit_step(code: &mut Vec<u8>, app: &App, step: &Step) -> Result<(), Memory>
    requires { IsCall app.now (action step.now) }
    ensures { OnOk result (code.new.items ≡ code.old.items ++ bytes_of (step_code app.now (action step.now))) }
{
    match step {
        Step::Assign { target, value } => {
            emit_expression(code, value)?;
            Instruction::Store(*target).write(code)
        }
        Step::Call { instance, args } => {
            let kind = app.instance_kind(*instance);
            emit_pins(code, kind, args)?;
            let call = Instruction::Call {
                instance: *instance,
                kind: kind_number(kind),
                first: app.first_pin(*instance),
                limit: call_limit(kind, args),
            };
            call.write(code)
        }
    }
}

// The code of an application.
fn emit_application(alloc: Global, app: &App) -> Result<Vec<u8>, Memory>
    ensures { IfOk result (λ code. code.items ≡ code_a app.now) }
{
    app.sound();
    let mut code = Vec::new(alloc);
    for k in 0..app.step_count() {
        emit_step(&mut code, app, app.step(k))?;
    }
    Instruction::End.write(&mut code)?;
    Ok(code)
}
