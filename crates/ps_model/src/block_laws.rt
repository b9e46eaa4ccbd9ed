// Laws of the blocks. Each function computes nothing: its contract is the law.

ghost use Rattle.ps_model.specs.BlockLaws.{StepsByKeptTime, CountsDown, GoesOn, Heals, OffWhereInactive, ErrorsExactly};
ghost use Rattle.ps_model.specs.BlockLaws.{StandsForOne, LoadsExactly, StepsAreKept, EachDemands};
ghost use Rattle.ps_model.specs.Demand.{Demands};
ghost use Rattle.ps_model.specs.declared.kind.Kind.TheVariants.{Equivalent, Antivalent, EmergencyStop, Espe};
ghost use Rattle.ps_model.specs.declared.kind.Kind.TheVariants.{ModeSelector, TwoHandTwo, TwoHandThree};
ghost use Rattle.ps_model.specs.declared.kind.Kind.TheVariants.{GuardMonitoring, GuardLocking, EnableSwitch};
ghost use Rattle.ps_model.specs.declared.kind.Kind.TheVariants.{SafetyRequest, OutControl, Edm};

/// SF_Equivalent: S_EquivalentOut needs S_ChannelA and S_ChannelB.
#[tactic(auto, unfolding(crate::specs::Blocks::next, crate::specs::Blocks::block))]
pub fn equivalent_demand()
    ensures { Demands Equivalent }
{}

/// SF_Antivalent: S_AntivalentOut needs S_ChannelNC and not S_ChannelNO.
#[tactic(auto, unfolding(crate::specs::Blocks::next, crate::specs::Blocks::block))]
pub fn antivalent_demand()
    ensures { Demands Antivalent }
{}

/// SF_EmergencyStop: S_EStopOut needs S_EStopIn.
#[tactic(auto, unfolding(crate::specs::Blocks::next, crate::specs::Blocks::block))]
pub fn emergency_stop_demand()
    ensures { Demands EmergencyStop }
{}

/// SF_ESPE: S_ESPE_Out needs S_ESPE_In.
#[tactic(auto, unfolding(crate::specs::Blocks::next, crate::specs::Blocks::block))]
pub fn espe_demand()
    ensures { Demands Espe }
{}

/// SF_ModeSelector: its outputs need nothing of the pins of their own step.
#[tactic(auto, unfolding(crate::specs::Blocks::next, crate::specs::Blocks::block))]
pub fn mode_selector_demand()
    ensures { Demands ModeSelector }
{}

/// SF_TwoHandControlTypeII: S_TwoHandOut needs S_Button1 and S_Button2.
#[tactic(auto, unfolding(crate::specs::Blocks::next, crate::specs::Blocks::block))]
pub fn two_hand_two_demand()
    ensures { Demands TwoHandTwo }
{}

/// SF_TwoHandControlTypeIII: S_TwoHandOut needs S_Button1 and S_Button2.
#[tactic(auto, unfolding(crate::specs::Blocks::next, crate::specs::Blocks::block))]
pub fn two_hand_three_demand()
    ensures { Demands TwoHandThree }
{}

/// SF_GuardMonitoring: S_GuardMonitoring needs S_GuardSwitch1 and S_GuardSwitch2.
#[tactic(auto, unfolding(crate::specs::Blocks::next, crate::specs::Blocks::block))]
pub fn guard_monitoring_demand()
    ensures { Demands GuardMonitoring }
{}

/// SF_GuardLocking: S_GuardLocked needs S_GuardMonitoring and S_GuardLock, S_UnlockGuard needs
/// S_SafetyActive.
#[tactic(auto, unfolding(crate::specs::Blocks::next, crate::specs::Blocks::block))]
pub fn guard_locking_demand()
    ensures { Demands GuardLocking }
{}

/// SF_EnableSwitch: S_EnableSwitchOut needs S_SafetyActive, S_EnableSwitchCh1 and
/// S_EnableSwitchCh2.
#[tactic(auto, unfolding(crate::specs::Blocks::next, crate::specs::Blocks::block))]
pub fn enable_switch_demand()
    ensures { Demands EnableSwitch }
{}

/// SF_SafetyRequest: S_SafetyActive needs S_Acknowledge and not S_OpMode, S_SafetyRequest needs
/// S_OpMode.
#[tactic(auto, unfolding(crate::specs::Blocks::next, crate::specs::Blocks::block))]
pub fn safety_request_demand()
    ensures { Demands SafetyRequest }
{}

/// SF_OutControl: S_OutControl needs S_SafeControl and ProcessControl.
#[tactic(auto, unfolding(crate::specs::Blocks::next, crate::specs::Blocks::block))]
pub fn out_control_demand()
    ensures { Demands OutControl }
{}

/// SF_EDM: S_EDM_Out needs S_OutControl.
#[tactic(auto, unfolding(crate::specs::Blocks::next, crate::specs::Blocks::block))]
pub fn edm_demand()
    ensures { Demands Edm }
{}

/// Each kind's outputs have their demand.
pub fn each_demands()
    ensures { EachDemands }
{
    equivalent_demand();
    antivalent_demand();
    emergency_stop_demand();
    espe_demand();
    mode_selector_demand();
    two_hand_two_demand();
    two_hand_three_demand();
    guard_monitoring_demand();
    guard_locking_demand();
    enable_switch_demand();
    safety_request_demand();
    out_control_demand();
    edm_demand();
}

/// An inactive step leads to Idle, code 0, and there each output of the block is FALSE.
pub fn off_where_inactive()
    ensures { OffWhereInactive }
{}

/// In each state of a kind Error is TRUE exactly where the code is Cxxx, and Ready exactly where it
/// is not that of Idle.
pub fn errors_exactly()
    ensures { ErrorsExactly }
{}

/// Sixteen bytes stand for at most one kept state of a kind.
pub fn stands_for_one()
    ensures { StandsForOne }
{}

/// Sixteen bytes load exactly where some kept state of the kind is stored so, and then that is what
/// is loaded.
pub fn loads_exactly()
    ensures { LoadsExactly }
{}

/// What a kind can keep, it can keep after each step.
pub fn steps_are_kept()
    ensures { StepsAreKept }
{}

/// A step at a time is the block's step, with the age that the kept time gives.
pub fn steps_by_kept_time()
    ensures { StepsByKeptTime }
{}

/// A kept time that says the age goes on to say it.
pub fn goes_on()
    ensures { GoesOn }
{}

/// A time that remains counts down as the age goes up.
pub fn counts_down()
    ensures { CountsDown }
{}

/// What channel B keeps after it was made anew from channel A or C stands for the same state.
pub fn heals()
    ensures { Heals }
{}
