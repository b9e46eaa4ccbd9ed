// Laws of stack code.

ghost use Rattle.std.specs.Prelude.{◌≡◌, ◌<◌, ◌^◌, length};
ghost use Rattle.ps_model.specs.declared.sizes.Sizes.{Sizes};
ghost use Rattle.ps_model.specs.Budgets.{turns_a};
ghost use Rattle.ps_model.specs.Sized.{AreSizesOf};
ghost use Rattle.ps_model.specs.Typing.{Accepted};
ghost use Rattle.ps_machine.specs.Keeping.{Keeps, KeepsExactly};
ghost use Rattle.ps_stackvm.specs.Code.{network_code, code_a};
ghost use Rattle.ps_stackvm.specs.Channel.{machine_a};
ghost use Rattle.ps_stackvm.specs.Stands.{StandsA};

use ps_model::App;

/// Stack code keeps the meaning: from cells that stand for any state, a scan that is not earlier is
/// Running up to the last of exactly `turns_a` turns, which makes it Done, and none traps. After it the
/// cells stand for the state that solves the scan, and their report is its report. Cells of 0 stand for
/// the first state.
pub fn stack_code_keeps_the_meaning(app: &App)
    ensures exactly { Accepted app.now → (sizes : Sizes) → AreSizesOf app.now sizes → KeepsExactly app.now (machine_a sizes (code_a app.now) (turns_a app.now)) (StandsA app.now) }
    ensures keeps { Accepted app.now → (sizes : Sizes) → AreSizesOf app.now sizes → Keeps app.now (machine_a sizes (code_a app.now) (turns_a app.now)) (StandsA app.now) }
{
    app.sound();
}

/// The code of an accepted application has `turns_a` instructions, and less than 2^32 bytes.
pub fn stack_code_is_short(app: &App)
    ensures turns { Accepted app.now → length (network_code app.now) ≡ turns_a app.now }
    ensures bytes { Accepted app.now → length (code_a app.now) < 2 ^ 32 }
{
    app.sound();
}
