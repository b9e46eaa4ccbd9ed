//! Laws of decision code.

ghost use Rattle.std.specs.Prelude.{◌≡◌, ◌<◌, ◌^◌, length};
ghost use Rattle.ps_model.specs.declared.sizes.Sizes.{Sizes};
ghost use Rattle.ps_model.specs.Sized.{AreSizesOf};
ghost use Rattle.ps_model.specs.Typing.{Accepted};
ghost use Rattle.ps_machine.specs.Keeping.{Keeps};
ghost use Rattle.ps_decision.specs.Budget.{turns_c};
ghost use Rattle.ps_decision.specs.Channel.{machine_c};
ghost use Rattle.ps_decision.specs.Code.{network_rows, code_c};
ghost use Rattle.ps_decision.specs.Stands.{StandsC};

use ps_model::App;

/// Decision code keeps the meaning: from cells that stand for any state, a scan that is not earlier is Running up to
/// the last of at most `turns_c` turns, which makes it Done, and none traps. After it the cells stand for the state
/// that solves the scan, and their report is its report. Cells of 0 stand for the first state.
pub fn decision_code_keeps_the_meaning(app: &App)
    ensures { Accepted app.now → (sizes : Sizes) → AreSizesOf app.now sizes → Keeps app.now (machine_c sizes (code_c app.now) (turns_c app.now)) (StandsC app.now) }
{
    app.sound();
}

/// The code of an accepted application has `turns_c` rows, and less than 2^32 bytes.
pub fn decision_code_is_short(app: &App)
    ensures turns { Accepted app.now → length (network_rows app.now) ≡ turns_c app.now }
    ensures bytes { Accepted app.now → length (code_c app.now) < 2 ^ 32 }
{
    app.sound();
}
