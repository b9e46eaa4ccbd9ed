// `image APP`.

ghost use Rattle.std.specs.Prelude.{◌≡◌, ◌≢◌, ◌∷◌, [], IfOk, length};
ghost use Rattle.ps_eqvm.specs.Channel.{blank_b};
ghost use Rattle.ps_eqvm.specs.Code.{code_b};
ghost use Rattle.ps_model.specs.Budgets.{turns_a, turns_b};
ghost use Rattle.ps_model.specs.Typing.{Accepted};
ghost use Rattle.ps_report.specs.Image.{image_part};
ghost use Rattle.ps_stackvm.specs.Channel.{blank_a};
ghost use Rattle.ps_stackvm.specs.Code.{code_a};
ghost use Rattle.ps_world.specs.Whole.{Setup, IsSetupOf};
ghost use Rattle.ps_top.specs.Calls.{Answers};
ghost use Rattle.ps_top.specs.Program as program;

use crate::Status;
use crate::accepting::accept_app;
use crate::call::Call;
use crate::saying::say_lines;
use ps_base::{Bytes, Memory};
use ps_eqgen::equation_image;
use ps_eqvm::EquationChannel;
use ps_model::{App, Channel, Region, Sizes};
use ps_report::image_text;
use ps_stackgen::stack_image;
use ps_stackvm::StackChannel;
use std::alloc::Global;

// Channel A's part of the text of an application's images.
fn stack_part(alloc: Global, app: &App, sizes: &Sizes) -> Result<Bytes, Memory>
    requires { Accepted app.now }
    ensures { IfOk result (λ text. text ≡ image_part Channel.A (code_a app.now) (length (blank_a sizes.now))
        (turns_a app.now)) }
{
    let image = stack_image(alloc, app)?;
    let channel = StackChannel::new(alloc, &image, sizes)?;
    let cells = channel.region_len(Region::Cells);
    image_text(alloc, Channel::A, image.as_slice(), cells, app.turns_a())
}

// Channel B's part.
fn equation_part(alloc: Global, app: &App, sizes: &Sizes) -> Result<Bytes, Memory>
    requires { Accepted app.now }
    ensures { IfOk result (λ text. text ≡ image_part Channel.B (code_b app.now) (length (blank_b sizes.now))
        (turns_b app.now)) }
{
    let image = equation_image(alloc, app)?;
    let channel = EquationChannel::new(alloc, &image, sizes)?;
    let cells = channel.region_len(Region::Cells);
    image_text(alloc, Channel::B, image.as_slice(), cells, app.turns_b())
}

// The text of an application's images.
fn both_parts(alloc: Global, app: &App) -> Result<Bytes, Memory>
    requires { Accepted app.now }
    ensures { IfOk result (λ text. (setup : Setup) × IsSetupOf app.now setup × (text ≡ program.image_lines setup)) }
{
    let sizes = Sizes::of(alloc, app)?;
    let mut text = stack_part(alloc, app, &sizes)?;
    let other = equation_part(alloc, app, &sizes)?;
    text.extend_from_slice(other.as_slice())?;
    Ok(text)
}

// `image APP`: the code of both channels of an accepted application, line by line.
pub(crate) fn image<C: Call>(call: &mut C, app: &str) -> Status
    ensures answers { Answers (program.image app.now) (app.now ∷ []) (C.seen call.old) (C.seen call.new) result }
    ensures no_usage { result ≢ Status.Usage }
{
    match accept_app(call, app) {
        Ok(app) => {
            match both_parts(call.alloc(), &app) {
                Ok(text) => say_lines(call, text.as_slice(), Status::Done),
                Err(Memory) => Status::Memory,
            }
        }
        Err(status) => status,
    }
}
