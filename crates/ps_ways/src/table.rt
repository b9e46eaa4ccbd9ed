// The ways of each kind, and which of them a step takes.

ghost use Rattle.std.specs.Prelude.{◌≡◌};
ghost use Rattle.ps_model.specs.Blocks.{block};
ghost use Rattle.ps_model.specs.Table.{row_at};
ghost use Rattle.ps_ways.specs.Stepping.{conditions_of};
ghost use Rattle.ps_ways.specs.Tables.{ways_of};
ghost use Rattle.ps_ways.specs.Ways.{first_rule, taken};

use crate::step::StepConditions;
use crate::way::Way;
use crate::{
    antivalent, edm, enable_switch, equivalent, guard_locking, guard_monitoring, modes,
    out_control, safety_request, stop, two_hand_three, two_hand_two,
};
use ps_model::Kind;

/// The ways of a kind, from 14 to 42: by state in the order of its transition table, and in each state in the order in
/// which its guards are tried.
pub fn ways(kind: Kind) -> &'static [Way]
    ensures { result.now ≡ ways_of kind }
{
    match kind {
        Kind::Equivalent => &equivalent::EQUIVALENT,
        Kind::Antivalent => &antivalent::ANTIVALENT,
        Kind::EmergencyStop | Kind::Espe => &stop::STOP,
        Kind::ModeSelector => &modes::MODES,
        Kind::TwoHandTwo => &two_hand_two::TWO_HAND_TWO,
        Kind::TwoHandThree => &two_hand_three::TWO_HAND_THREE,
        Kind::GuardMonitoring => &guard_monitoring::GUARD_MONITORING,
        Kind::GuardLocking => &guard_locking::GUARD_LOCKING,
        Kind::EnableSwitch => &enable_switch::ENABLE_SWITCH,
        Kind::SafetyRequest => &safety_request::SAFETY_REQUEST,
        Kind::OutControl => &out_control::OUT_CONTROL,
        Kind::Edm => &edm::EDM,
    }
}

// The number of the guard of the first of these ways that is of a state and holds, and 0 where none does.
fn taken_of(ways: &[Way], state: u16, step: &StepConditions) -> u8
    ensures { result ≡ taken ways.now state (conditions_of step.now) }
{
    for way in ways {
        if way.state == state && way.holds(step) {
            return way.number;
        }
    }
    0
}

/// The number of the guard by which a step leaves a state, or enters it anew, from 1 on; 0 where no guard of the state
/// holds, so that it stays, and of a code that is none of the kind's states. Activate is TRUE in the step and the state
/// is not Idle: these stand before all guards.
pub fn guard_taken(kind: Kind, state: u16, step: &StepConditions) -> u8
    ensures { result ≡ first_rule 1 (row_at (block kind).rows state).rules (conditions_of step.now) }
{
    taken_of(ways(kind), state, step)
}
