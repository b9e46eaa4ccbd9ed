// What each safe output of a block demands of its pins.

ghost use Rattle.std.specs.Prelude.{◌≡◌, ◌<◌, length};
ghost use Rattle.ps_model.specs.Blocks.{block};
ghost use Rattle.ps_model.specs.Demand.{demand};

use crate::kind::Kind;

/// A part of a demand formula, which speaks of an input pin by its number.
#[derive(Clone, Copy)]
pub enum Need {
    /// The input pin is TRUE.
    On(u8),
    /// The input pin is FALSE.
    Off(u8),
}

/// The demand formula of safe output j of a kind: a conjunction over the kind's input pins (profile).
/// It is empty, and so always holds, for SF_ModeSelector alone.
#[tactic(auto, unfolding(crate::specs::Blocks::block))]
pub fn demand(kind: Kind, j: u8) -> &'static [Need]
    requires { j < length (block kind).outputs }
    ensures { result.now ≡ demand kind j }
{
    match (kind, j) {
        (Kind::ModeSelector, _) => &[],
        (Kind::EmergencyStop | Kind::Espe | Kind::Edm, _) => &[Need::On(1)],
        (Kind::Antivalent, _) => &[Need::On(1), Need::Off(2)],
        (Kind::GuardLocking, 0) => &[Need::On(1), Need::On(3)],
        (Kind::GuardLocking, _) => &[Need::On(2)],
        (Kind::EnableSwitch, _) => &[Need::On(1), Need::On(2), Need::On(3)],
        (Kind::SafetyRequest, 0) => &[Need::On(2), Need::Off(1)],
        (Kind::SafetyRequest, _) => &[Need::On(1)],
        _ => &[Need::On(1), Need::On(2)],
    }
}
