// The image of an application.

ghost use Rattle.std.specs.Prelude.{◌≡◌, ◌+◌, ◌*◌, ◌<◌, ◌^◌, ◌++◌, length, take, sum_by, IfOk, OnOk};
ghost use Rattle.ps_model.specs.declared.sizes.Sizes.{Sizes};
ghost use Rattle.ps_model.specs.Steps.{action};
ghost use Rattle.ps_model.specs.Blocks.{block};
ghost use Rattle.ps_model.specs.Budgets.{boolean_count, IsCall};
ghost use Rattle.ps_model.specs.Sized.{AreSizesOf};
ghost use Rattle.ps_model.specs.Typing.{Accepted};
ghost use Rattle.ps_machine.specs.Keeping.{Keeps};
ghost use Rattle.ps_decision.specs.Budget.{turns_c, count_at_pin, count_of_step};
ghost use Rattle.ps_decision.specs.Channel.{machine_c};
ghost use Rattle.ps_decision.specs.Code.{pins_rows, step_rows, code_c};
ghost use Rattle.ps_decision.specs.Rows.{bytes_of};
ghost use Rattle.ps_decision.specs.Stands.{StandsC};

use crate::emit::{emit_assigned, emit_pin};
use crate::laws::{decision_code_is_short, decision_code_keeps_the_meaning};
use crate::layout::FIRST_PIN;
use crate::row::Row;
use ps_base::Memory;
use ps_machine::{CodeImage, call_limit, free_value};
use ps_model::{App, Args, Kind, Step, boolean_count, kind_number};
use std::alloc::Global;

/// The decision code of an accepted application: its steps in order, and END after them (profile). Run by channel C,
/// from cells that stand for any state, every scan ends Done in at most `turns_c` turns without a trap, and its report
/// is the meaning's.
pub fn decision_image(alloc: Global, app: &App) -> Result<CodeImage, Memory>
    requires { Accepted app.now }
    ensures code { IfOk result (λ image. image ≡ code_c app.now) }
    ensures keeps { IfOk result (λ image. (sizes : Sizes) → AreSizesOf app.now sizes → Keeps app.now (machine_c sizes image (turns_c app.now)) (StandsC app.now)) }
{
    decision_code_keeps_the_meaning(app);
    decision_code_is_short(app);
    let code = emit_application(alloc, app)?;
    Ok(CodeImage::of(code))
}

// Writes the rows of the Boolean pins of a call, in order.
fn emit_pins(code: &mut Vec<u8>, kind: Kind, args: &Args) -> Result<(), Memory>
    requires args { length args.now ≡ length (block kind).inputs }
    requires room { length code.old.items + 11 * sum_by count_at_pin (take (boolean_count kind) args.now) < 2 ^ 32 }
    ensures { OnOk result (code.new.items ≡ code.old.items ++ bytes_of (pins_rows kind args.now (length code.old.items))) }
{
    for j in 0..boolean_count(kind) {
        let target = FIRST_PIN + u16::from(j);
        emit_pin(code, target, free_value(kind, j), args.at(j as usize))?;
    }
    Ok(())
}

// Writes the rows of a step.
fn emit_step(code: &mut Vec<u8>, app: &App, step: &Step) -> Result<(), Memory>
    requires call { IsCall app.now (action step.now) }
    requires room { length code.old.items + 11 * count_of_step app.now (action step.now) < 2 ^ 32 }
    ensures { OnOk result (code.new.items ≡ code.old.items ++ bytes_of (step_rows app.now (action step.now) (length code.old.items))) }
{
    match step {
        Step::Assign { target, value } => emit_assigned(code, *target, value),
        Step::Call { instance, args } => {
            let kind = app.instance_kind(*instance);
            emit_pins(code, kind, args)?;
            let call = Row::Call {
                instance: *instance,
                kind: kind_number(kind),
                first: app.first_pin(*instance),
                limit: call_limit(kind, args),
            };
            call.write(code)
        }
    }
}

// The code of an application.
fn emit_application(alloc: Global, app: &App) -> Result<Vec<u8>, Memory>
    ensures { IfOk result (λ code. code.items ≡ code_c app.now) }
{
    app.sound();
    let mut code = Vec::new(alloc);
    for k in 0..app.step_count() {
        emit_step(&mut code, app, app.step(k))?;
    }
    Row::End.write(&mut code)?;
    Ok(code)
}
