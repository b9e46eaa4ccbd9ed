// Laws: the rows of each kind decide as its table does, over the named conditions of any step. Each
// function computes nothing: its contract is the law.

ghost use Rattle.ps_model.specs.declared.kind.Kind.TheVariants.{Equivalent, Antivalent, EmergencyStop, Espe};
ghost use Rattle.ps_model.specs.declared.kind.Kind.TheVariants.{ModeSelector, TwoHandTwo, TwoHandThree};
ghost use Rattle.ps_model.specs.declared.kind.Kind.TheVariants.{GuardMonitoring, GuardLocking, EnableSwitch};
ghost use Rattle.ps_model.specs.declared.kind.Kind.TheVariants.{SafetyRequest, OutControl, Edm};
ghost use Rattle.ps_rows.specs.Decision.{RowsDecide};

/// The rows of SF_Equivalent.
pub fn equivalent_rows()
    ensures { RowsDecide Equivalent }
{}

/// The rows of SF_Antivalent.
pub fn antivalent_rows()
    ensures { RowsDecide Antivalent }
{}

/// The rows of SF_EmergencyStop.
pub fn emergency_stop_rows()
    ensures { RowsDecide EmergencyStop }
{}

/// The rows of SF_ESPE.
pub fn espe_rows()
    ensures { RowsDecide Espe }
{}

/// The rows of SF_ModeSelector.
pub fn mode_selector_rows()
    ensures { RowsDecide ModeSelector }
{}

/// The rows of SF_TwoHandControlTypeII.
pub fn two_hand_two_rows()
    ensures { RowsDecide TwoHandTwo }
{}

/// The rows of SF_TwoHandControlTypeIII.
pub fn two_hand_three_rows()
    ensures { RowsDecide TwoHandThree }
{}

/// The rows of SF_GuardMonitoring.
pub fn guard_monitoring_rows()
    ensures { RowsDecide GuardMonitoring }
{}

/// The rows of SF_GuardLocking.
pub fn guard_locking_rows()
    ensures { RowsDecide GuardLocking }
{}

/// The rows of SF_EnableSwitch.
pub fn enable_switch_rows()
    ensures { RowsDecide EnableSwitch }
{}

/// The rows of SF_SafetyRequest.
pub fn safety_request_rows()
    ensures { RowsDecide SafetyRequest }
{}

/// The rows of SF_OutControl.
pub fn out_control_rows()
    ensures { RowsDecide OutControl }
{}

/// The rows of SF_EDM.
pub fn edm_rows()
    ensures { RowsDecide Edm }
{}
