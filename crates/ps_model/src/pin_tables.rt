// The pin tables of the kinds, one line a pin: the Boolean input pins, the TIME pin where there is one, the safe
// outputs, Ready and Error. Names and types are those of PLCopen TC5, in the profile of this project.

ghost use Rattle.std.specs.Prelude.{◌≡◌, map};
ghost use Rattle.ps_model.specs.Pins.{pin_names, pin_rows};

use crate::kind::Kind;
use crate::pins::PinRow;

/// A pin of a kind: its name, as PLCopen TC5 spells it, and its row.
#[derive(Clone, Copy)]
pub(crate) struct Pin {
    /// The name, by which it is found without letter case.
    pub(crate) name: &'static str,
    /// The type, the direction and the free value.
    pub(crate) row: PinRow,
}

// A line of a table: a pin's name and the sort of its row.
macro_rules! pin {
    ($name:expr, $row:ident) => {
        Pin {
            name: $name,
            row: PinRow::$row,
        }
    };
}

/// The pins of a kind in order.
#[tactic(auto, unfolding(crate::specs::Blocks::block))]
pub(crate) fn pins(kind: Kind) -> &'static [Pin]
    ensures names { map (λ p. p.name.now) result.now ≡ pin_names kind }
    ensures rows { map (λ p. p.row) result.now ≡ pin_rows kind }
{
    match kind {
        Kind::Equivalent => &EQUIVALENT,
        Kind::Antivalent => &ANTIVALENT,
        Kind::EmergencyStop => &EMERGENCY_STOP,
        Kind::Espe => &ESPE,
        Kind::ModeSelector => &MODE_SELECTOR,
        Kind::TwoHandTwo => &TWO_HAND_TWO,
        Kind::TwoHandThree => &TWO_HAND_THREE,
        Kind::GuardMonitoring => &GUARD_MONITORING,
        Kind::GuardLocking => &GUARD_LOCKING,
        Kind::EnableSwitch => &ENABLE_SWITCH,
        Kind::SafetyRequest => &SAFETY_REQUEST,
        Kind::OutControl => &OUT_CONTROL,
        Kind::Edm => &EDM,
    }
}

// The pins of SF_Equivalent.
static EQUIVALENT: [Pin; 7] = [
    pin!("Activate", PLAIN_INPUT),
    pin!("S_ChannelA", SAFE_INPUT),
    pin!("S_ChannelB", SAFE_INPUT),
    pin!("DiscrepancyTime", TIME_INPUT),
    pin!("S_EquivalentOut", SAFE_OUTPUT),
    pin!("Ready", PLAIN_OUTPUT),
    pin!("Error", PLAIN_OUTPUT),
];

// The pins of SF_Antivalent.
static ANTIVALENT: [Pin; 7] = [
    pin!("Activate", PLAIN_INPUT),
    pin!("S_ChannelNC", SAFE_INPUT),
    pin!("S_ChannelNO", FREE_TRUE),
    pin!("DiscrepancyTime", TIME_INPUT),
    pin!("S_AntivalentOut", SAFE_OUTPUT),
    pin!("Ready", PLAIN_OUTPUT),
    pin!("Error", PLAIN_OUTPUT),
];

// The pins of SF_EmergencyStop.
static EMERGENCY_STOP: [Pin; 8] = [
    pin!("Activate", PLAIN_INPUT),
    pin!("S_EStopIn", SAFE_INPUT),
    pin!("S_StartReset", SAFE_INPUT),
    pin!("S_AutoReset", SAFE_INPUT),
    pin!("Reset", PLAIN_INPUT),
    pin!("S_EStopOut", SAFE_OUTPUT),
    pin!("Ready", PLAIN_OUTPUT),
    pin!("Error", PLAIN_OUTPUT),
];

// The pins of SF_ESPE.
static ESPE: [Pin; 8] = [
    pin!("Activate", PLAIN_INPUT),
    pin!("S_ESPE_In", SAFE_INPUT),
    pin!("S_StartReset", SAFE_INPUT),
    pin!("S_AutoReset", SAFE_INPUT),
    pin!("Reset", PLAIN_INPUT),
    pin!("S_ESPE_Out", SAFE_OUTPUT),
    pin!("Ready", PLAIN_OUTPUT),
    pin!("Error", PLAIN_OUTPUT),
];

// The pins of SF_ModeSelector.
static MODE_SELECTOR: [Pin; 25] = [
    pin!("Activate", PLAIN_INPUT),
    pin!("S_Mode0", SAFE_INPUT),
    pin!("S_Mode1", SAFE_INPUT),
    pin!("S_Mode2", SAFE_INPUT),
    pin!("S_Mode3", SAFE_INPUT),
    pin!("S_Mode4", SAFE_INPUT),
    pin!("S_Mode5", SAFE_INPUT),
    pin!("S_Mode6", SAFE_INPUT),
    pin!("S_Mode7", SAFE_INPUT),
    pin!("S_Unlock", SAFE_INPUT),
    pin!("S_SetMode", SAFE_INPUT),
    pin!("AutoSetMode", PLAIN_INPUT),
    pin!("Reset", PLAIN_INPUT),
    pin!("ModeMonitorTime", TIME_INPUT),
    pin!("S_Mode0Sel", SAFE_OUTPUT),
    pin!("S_Mode1Sel", SAFE_OUTPUT),
    pin!("S_Mode2Sel", SAFE_OUTPUT),
    pin!("S_Mode3Sel", SAFE_OUTPUT),
    pin!("S_Mode4Sel", SAFE_OUTPUT),
    pin!("S_Mode5Sel", SAFE_OUTPUT),
    pin!("S_Mode6Sel", SAFE_OUTPUT),
    pin!("S_Mode7Sel", SAFE_OUTPUT),
    pin!("S_AnyModeSel", SAFE_OUTPUT),
    pin!("Ready", PLAIN_OUTPUT),
    pin!("Error", PLAIN_OUTPUT),
];

// The pins of SF_TwoHandControlTypeII.
static TWO_HAND_TWO: [Pin; 6] = [
    pin!("Activate", PLAIN_INPUT),
    pin!("S_Button1", SAFE_INPUT),
    pin!("S_Button2", SAFE_INPUT),
    pin!("S_TwoHandOut", SAFE_OUTPUT),
    pin!("Ready", PLAIN_OUTPUT),
    pin!("Error", PLAIN_OUTPUT),
];

// The pins of SF_TwoHandControlTypeIII.
static TWO_HAND_THREE: [Pin; 6] = [
    pin!("Activate", PLAIN_INPUT),
    pin!("S_Button1", SAFE_INPUT),
    pin!("S_Button2", SAFE_INPUT),
    pin!("S_TwoHandOut", SAFE_OUTPUT),
    pin!("Ready", PLAIN_OUTPUT),
    pin!("Error", PLAIN_OUTPUT),
];

// The pins of SF_GuardMonitoring.
static GUARD_MONITORING: [Pin; 10] = [
    pin!("Activate", PLAIN_INPUT),
    pin!("S_GuardSwitch1", SAFE_INPUT),
    pin!("S_GuardSwitch2", SAFE_INPUT),
    pin!("S_StartReset", SAFE_INPUT),
    pin!("S_AutoReset", SAFE_INPUT),
    pin!("Reset", PLAIN_INPUT),
    pin!("DiscrepancyTime", TIME_INPUT),
    pin!("S_GuardMonitoring", SAFE_OUTPUT),
    pin!("Ready", PLAIN_OUTPUT),
    pin!("Error", PLAIN_OUTPUT),
];

// The pins of SF_GuardLocking.
static GUARD_LOCKING: [Pin; 12] = [
    pin!("Activate", PLAIN_INPUT),
    pin!("S_GuardMonitoring", SAFE_INPUT),
    pin!("S_SafetyActive", SAFE_INPUT),
    pin!("S_GuardLock", SAFE_INPUT),
    pin!("UnlockRequest", PLAIN_INPUT),
    pin!("S_StartReset", SAFE_INPUT),
    pin!("S_AutoReset", SAFE_INPUT),
    pin!("Reset", PLAIN_INPUT),
    pin!("S_GuardLocked", SAFE_OUTPUT),
    pin!("S_UnlockGuard", SAFE_OUTPUT),
    pin!("Ready", PLAIN_OUTPUT),
    pin!("Error", PLAIN_OUTPUT),
];

// The pins of SF_EnableSwitch.
static ENABLE_SWITCH: [Pin; 9] = [
    pin!("Activate", PLAIN_INPUT),
    pin!("S_SafetyActive", SAFE_INPUT),
    pin!("S_EnableSwitchCh1", SAFE_INPUT),
    pin!("S_EnableSwitchCh2", SAFE_INPUT),
    pin!("S_AutoReset", SAFE_INPUT),
    pin!("Reset", PLAIN_INPUT),
    pin!("S_EnableSwitchOut", SAFE_OUTPUT),
    pin!("Ready", PLAIN_OUTPUT),
    pin!("Error", PLAIN_OUTPUT),
];

// The pins of SF_SafetyRequest.
static SAFETY_REQUEST: [Pin; 9] = [
    pin!("Activate", PLAIN_INPUT),
    pin!("S_OpMode", SAFE_INPUT),
    pin!("S_Acknowledge", SAFE_INPUT),
    pin!("Reset", PLAIN_INPUT),
    pin!("MonitoringTime", TIME_INPUT),
    pin!("S_SafetyActive", SAFE_OUTPUT),
    pin!("S_SafetyRequest", SAFE_OUTPUT),
    pin!("Ready", PLAIN_OUTPUT),
    pin!("Error", PLAIN_OUTPUT),
];

// The pins of SF_OutControl.
static OUT_CONTROL: [Pin; 10] = [
    pin!("Activate", PLAIN_INPUT),
    pin!("S_SafeControl", SAFE_INPUT),
    pin!("ProcessControl", PLAIN_INPUT),
    pin!("StaticControl", PLAIN_INPUT),
    pin!("S_StartReset", SAFE_INPUT),
    pin!("S_AutoReset", SAFE_INPUT),
    pin!("Reset", PLAIN_INPUT),
    pin!("S_OutControl", SAFE_OUTPUT),
    pin!("Ready", PLAIN_OUTPUT),
    pin!("Error", PLAIN_OUTPUT),
];

// The pins of SF_EDM.
static EDM: [Pin; 10] = [
    pin!("Activate", PLAIN_INPUT),
    pin!("S_OutControl", SAFE_INPUT),
    pin!("S_EDM1", SAFE_INPUT),
    pin!("S_EDM2", SAFE_INPUT),
    pin!("S_StartReset", SAFE_INPUT),
    pin!("Reset", PLAIN_INPUT),
    pin!("MonitoringTime", TIME_INPUT),
    pin!("S_EDM_Out", SAFE_OUTPUT),
    pin!("Ready", PLAIN_OUTPUT),
    pin!("Error", PLAIN_OUTPUT),
];
