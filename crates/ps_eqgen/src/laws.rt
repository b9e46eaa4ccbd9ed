// Laws of equation code.

ghost use Rattle.std.specs.Prelude.{◌≡◌, ◌<◌, ◌^◌, length};
ghost use Rattle.ps_model.specs.declared.sizes.Sizes.{Sizes};
ghost use Rattle.ps_model.specs.Budgets.{turns_b};
ghost use Rattle.ps_model.specs.Sized.{AreSizesOf};
ghost use Rattle.ps_model.specs.Typing.{Accepted};
ghost use Rattle.ps_machine.specs.Keeping.{Keeps, KeepsExactly};
ghost use Rattle.ps_eqvm.specs.Code.{network_rows, code_b};
ghost use Rattle.ps_eqvm.specs.Channel.{machine_b};
ghost use Rattle.ps_eqvm.specs.Stands.{StandsB};

use ps_model::App;

/// Equation code keeps the meaning: from cells that stand for any state, a scan that is not earlier is
/// Running up to the last of exactly `turns_b` turns, which makes it Done, and none traps. After it the
/// cells stand for the state that solves the scan, and their report is its report. Cells of plain value
/// 0 stand for the first state. It computes nothing.
pub fn equation_code_keeps_the_meaning(app: &App)
    ensures exactly { Accepted app.now → (sizes : Sizes) → AreSizesOf app.now sizes → KeepsExactly app.now (machine_b sizes (code_b app.now) (turns_b app.now)) (StandsB app.now) }
    ensures keeps { Accepted app.now → (sizes : Sizes) → AreSizesOf app.now sizes → Keeps app.now (machine_b sizes (code_b app.now) (turns_b app.now)) (StandsB app.now) }
{
    app.sound();
}

/// The code of an accepted application has `turns_b` rows, and less than 2^32 bytes.
pub fn equation_code_is_short(app: &App)
    ensures turns { Accepted app.now → length (network_rows app.now) ≡ turns_b app.now }
    ensures bytes { Accepted app.now → length (code_b app.now) < 2 ^ 32 }
{
    app.sound();
}
