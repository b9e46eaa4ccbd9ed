//! What is kept of an instance between its steps.

ghost use Rattle.std.specs.Prelude.{◌≡◌};
ghost use Rattle.ps_model.specs.Kept.{fresh, stepped_at};
ghost use Rattle.ps_model.specs.PinBits.{pin_of};
ghost use Rattle.ps_block.specs.Shown.{Shows};
ghost use Rattle.ps_scan.specs.Instances.{kept_instance, instance_of};

use ps_actuators::{Edm, EdmState, OutControl, OutControlState, SafetyRequest, SafetyRequestState};
use ps_block::{Outs, Pins, SafetyBlock};
use ps_guards::{GuardLocking, GuardLockingState, GuardMonitoring, GuardMonitoringState};
use ps_model::Kind;
use ps_operator::{
    EnableSwitch, EnableSwitchState, ModeSelector, ModeSelectorState, TwoHandThree,
    TwoHandThreeState, TwoHandTwo, TwoHandTwoState,
};
use ps_sensors::{Antivalent, ContactsState, EmergencyStop, Equivalent, Espe, StopState};

/// The state of an instance's block, by its kind.
#[derive(Clone, Copy)]
pub enum Instance {
    /// That of SF_Equivalent.
    Equivalent(ContactsState),
    /// That of SF_Antivalent.
    Antivalent(ContactsState),
    /// That of SF_EmergencyStop.
    EmergencyStop(StopState),
    /// That of SF_ESPE.
    Espe(StopState),
    /// That of SF_ModeSelector.
    ModeSelector(ModeSelectorState),
    /// That of SF_TwoHandControlTypeII.
    TwoHandTwo(TwoHandTwoState),
    /// That of SF_TwoHandControlTypeIII.
    TwoHandThree(TwoHandThreeState),
    /// That of SF_GuardMonitoring.
    GuardMonitoring(GuardMonitoringState),
    /// That of SF_GuardLocking.
    GuardLocking(GuardLockingState),
    /// That of SF_EnableSwitch.
    EnableSwitch(EnableSwitchState),
    /// That of SF_SafetyRequest.
    SafetyRequest(SafetyRequestState),
    /// That of SF_OutControl.
    OutControl(OutControlState),
    /// That of SF_EDM.
    Edm(EdmState),
}

impl Instance {
    /// An instance of a kind before its first step.
    pub fn fresh(kind: Kind) -> Instance
        ensures { instance_of result ≡ kept_instance kind fresh }
    {
        match kind {
            Kind::Equivalent => Instance::Equivalent(Equivalent::fresh()),
            Kind::Antivalent => Instance::Antivalent(Antivalent::fresh()),
            Kind::EmergencyStop => Instance::EmergencyStop(EmergencyStop::fresh()),
            Kind::Espe => Instance::Espe(Espe::fresh()),
            Kind::ModeSelector => Instance::ModeSelector(ModeSelector::fresh()),
            Kind::TwoHandTwo => Instance::TwoHandTwo(TwoHandTwo::fresh()),
            Kind::TwoHandThree => Instance::TwoHandThree(TwoHandThree::fresh()),
            Kind::GuardMonitoring => Instance::GuardMonitoring(GuardMonitoring::fresh()),
            Kind::GuardLocking => Instance::GuardLocking(GuardLocking::fresh()),
            Kind::EnableSwitch => Instance::EnableSwitch(EnableSwitch::fresh()),
            Kind::SafetyRequest => Instance::SafetyRequest(SafetyRequest::fresh()),
            Kind::OutControl => Instance::OutControl(OutControl::fresh()),
            Kind::Edm => Instance::Edm(Edm::fresh()),
        }
    }

    /// One step of the instance's block.
    pub fn step(&mut self, pins: Pins) -> Outs
        ensures moves { instance_of self.new ≡ kept_instance (instance_of self.old).kind (stepped_at (instance_of self.old).kind pins.limit (pin_of pins.bits) pins.now (instance_of self.old).kept) }
        ensures shows { Shows (instance_of self.old).kind result (instance_of self.new).kept }
    {
        match self {
            Instance::Equivalent(state) => Equivalent::step(state, pins),
            Instance::Antivalent(state) => Antivalent::step(state, pins),
            Instance::EmergencyStop(state) => EmergencyStop::step(state, pins),
            Instance::Espe(state) => Espe::step(state, pins),
            Instance::ModeSelector(state) => ModeSelector::step(state, pins),
            Instance::TwoHandTwo(state) => TwoHandTwo::step(state, pins),
            Instance::TwoHandThree(state) => TwoHandThree::step(state, pins),
            Instance::GuardMonitoring(state) => GuardMonitoring::step(state, pins),
            Instance::GuardLocking(state) => GuardLocking::step(state, pins),
            Instance::EnableSwitch(state) => EnableSwitch::step(state, pins),
            Instance::SafetyRequest(state) => SafetyRequest::step(state, pins),
            Instance::OutControl(state) => OutControl::step(state, pins),
            Instance::Edm(state) => Edm::step(state, pins),
        }
    }
}
