//! SF_GuardMonitoring (PLCopen TC5, in the profile of this project).

ghost use Rattle.std.specs.Prelude.{◌≡◌, true, false, IfSome, IfNone};
ghost use Rattle.ps_model.specs.Blocks.{next};
ghost use Rattle.ps_model.specs.PinBits.{pin_of};
ghost use Rattle.ps_model.specs.Stored.{is_state};
ghost use Rattle.ps_model.specs.declared.kind.Kind.TheVariants.{GuardMonitoring as GuardMonitoringKind};
ghost use Rattle.ps_block.specs.Seeing.{conditions_of};
ghost use Rattle.ps_guards.specs.GuardMonitoringStates.{code_of};

use ps_block::{Image, Outs, Pins, SafetyBlock, Seen};
use ps_model::Kind;

/// A state of the table, one for each DiagCode.
#[derive(Clone, Copy, PartialEq)]
pub enum Phase {
    Idle,
    Init,
    OpenGuardRequest,
    GuardOpened,
    WaitForSwitch2,
    WaitForSwitch1,
    GuardClosed,
    WaitForReset,
    Enabled,
    ResetError,
    DiscrepancyError1,
    DiscrepancyError2,
}

/// The state of a guard monitoring: the state of the table, the time in ms at which it was entered, and
/// the Reset of the last step.
#[derive(Clone, Copy)]
pub struct GuardMonitoringState {
    phase: Phase,
    since: u32,
    last_reset: bool,
}

impl Phase {
    // The DiagCode.
    #[tactic(auto, unfolding(ps_model::specs::Blocks::block))]
    fn code(self) -> u16
        ensures code { result ≡ code_of self }
        ensures state { is_state GuardMonitoringKind (code_of self) ≡ true }
    {
        match self {
            Phase::Idle => 0,
            Phase::Init => 0x8001,
            Phase::OpenGuardRequest => 0x8002,
            Phase::GuardOpened => 0x8012,
            Phase::WaitForSwitch2 => 0x8004,
            Phase::WaitForSwitch1 => 0x8014,
            Phase::GuardClosed => 0x8005,
            Phase::WaitForReset => 0x8003,
            Phase::Enabled => 0x8000,
            Phase::ResetError => 0xC001,
            Phase::DiscrepancyError1 => 0xC011,
            Phase::DiscrepancyError2 => 0xC012,
        }
    }

    // The state with a DiagCode, and None where the table has none.
    #[tactic(auto, unfolding(ps_model::specs::Blocks::block))]
    fn with_code(code: u16) -> Option<Phase>
        ensures some { IfSome result (λ p. code_of p ≡ code) }
        ensures state { IfSome result (λ p. is_state GuardMonitoringKind code ≡ true) }
        ensures none { IfNone result (is_state GuardMonitoringKind code ≡ false) }
    {
        Some(match code {
            0 => Phase::Idle,
            0x8001 => Phase::Init,
            0x8002 => Phase::OpenGuardRequest,
            0x8012 => Phase::GuardOpened,
            0x8004 => Phase::WaitForSwitch2,
            0x8014 => Phase::WaitForSwitch1,
            0x8005 => Phase::GuardClosed,
            0x8003 => Phase::WaitForReset,
            0x8000 => Phase::Enabled,
            0xC001 => Phase::ResetError,
            0xC011 => Phase::DiscrepancyError1,
            0xC012 => Phase::DiscrepancyError2,
            _ => return None,
        })
    }

    // The next state, by the table.
    #[tactic(auto, unfolding(ps_model::specs::Blocks::next, ps_model::specs::Blocks::block))]
    fn next(self, seen: Seen) -> Phase
        ensures { code_of result ≡ next GuardMonitoringKind (code_of self) (conditions_of seen 0) }
    {
        if !seen.pin(0) {
            return Phase::Idle;
        }
        let switch1 = seen.pin(1);
        let switch2 = seen.pin(2);
        let reset = seen.pin(5);
        match self {
            Phase::Idle => Phase::Init,
            Phase::Init => after_init(seen),
            Phase::GuardOpened => after_guard_opened(seen),
            Phase::WaitForSwitch2 => after_wait_for_switch2(seen),
            Phase::WaitForSwitch1 => after_wait_for_switch1(seen),
            Phase::GuardClosed => after_guard_closed(seen),
            Phase::WaitForReset => after_wait_for_reset(seen),
            Phase::OpenGuardRequest if !switch1 && !switch2 => Phase::GuardOpened,
            Phase::Enabled if !(switch1 && switch2) => Phase::OpenGuardRequest,
            Phase::ResetError if !reset => Phase::WaitForReset,
            Phase::DiscrepancyError1 | Phase::DiscrepancyError2 if !switch1 && !switch2 => {
                Phase::GuardOpened
            }
            _ => self,
        }
    }
}

// The next state after Init, where Activate is TRUE.
#[tactic(auto, unfolding(ps_model::specs::Blocks::next, ps_model::specs::Blocks::block))]
fn after_init(seen: Seen) -> Phase
    requires { pin_of seen.bits 0 ≡ true }
    ensures { code_of result ≡ next GuardMonitoringKind (code_of Phase.Init) (conditions_of seen 0) }
{
    let switch1 = seen.pin(1);
    let switch2 = seen.pin(2);
    let start = seen.pin(3);
    if switch1 && switch2 && start {
        return Phase::Enabled;
    }
    if switch1 && switch2 {
        return Phase::WaitForReset;
    }
    Phase::OpenGuardRequest
}

// The next state after GuardOpened, where Activate is TRUE.
#[tactic(auto, unfolding(ps_model::specs::Blocks::next, ps_model::specs::Blocks::block))]
fn after_guard_opened(seen: Seen) -> Phase
    requires { pin_of seen.bits 0 ≡ true }
    ensures { code_of result ≡ next GuardMonitoringKind (code_of Phase.GuardOpened) (conditions_of seen 0) }
{
    let switch1 = seen.pin(1);
    let switch2 = seen.pin(2);
    if switch1 && switch2 {
        return Phase::GuardClosed;
    }
    if switch1 {
        return Phase::WaitForSwitch2;
    }
    if switch2 {
        return Phase::WaitForSwitch1;
    }
    Phase::GuardOpened
}

// The next state after WaitForSwitch2, where Activate is TRUE.
#[tactic(auto, unfolding(ps_model::specs::Blocks::next, ps_model::specs::Blocks::block))]
fn after_wait_for_switch2(seen: Seen) -> Phase
    requires { pin_of seen.bits 0 ≡ true }
    ensures { code_of result ≡ next GuardMonitoringKind (code_of Phase.WaitForSwitch2) (conditions_of seen 0) }
{
    let switch1 = seen.pin(1);
    let switch2 = seen.pin(2);
    if seen.elapsed {
        return Phase::DiscrepancyError1;
    }
    if switch1 && switch2 {
        return Phase::GuardClosed;
    }
    if !switch1 && !switch2 {
        return Phase::GuardOpened;
    }
    if !switch1 {
        return Phase::OpenGuardRequest;
    }
    Phase::WaitForSwitch2
}

// The next state after WaitForSwitch1, where Activate is TRUE.
#[tactic(auto, unfolding(ps_model::specs::Blocks::next, ps_model::specs::Blocks::block))]
fn after_wait_for_switch1(seen: Seen) -> Phase
    requires { pin_of seen.bits 0 ≡ true }
    ensures { code_of result ≡ next GuardMonitoringKind (code_of Phase.WaitForSwitch1) (conditions_of seen 0) }
{
    let switch1 = seen.pin(1);
    let switch2 = seen.pin(2);
    if seen.elapsed {
        return Phase::DiscrepancyError2;
    }
    if switch1 && switch2 {
        return Phase::GuardClosed;
    }
    if !switch1 && !switch2 {
        return Phase::GuardOpened;
    }
    if !switch2 {
        return Phase::OpenGuardRequest;
    }
    Phase::WaitForSwitch1
}

// The next state after GuardClosed, where Activate is TRUE.
#[tactic(auto, unfolding(ps_model::specs::Blocks::next, ps_model::specs::Blocks::block))]
fn after_guard_closed(seen: Seen) -> Phase
    requires { pin_of seen.bits 0 ≡ true }
    ensures { code_of result ≡ next GuardMonitoringKind (code_of Phase.GuardClosed) (conditions_of seen 0) }
{
    let switch1 = seen.pin(1);
    let switch2 = seen.pin(2);
    let auto = seen.pin(4);
    if !(switch1 && switch2) {
        return Phase::OpenGuardRequest;
    }
    if auto {
        return Phase::Enabled;
    }
    Phase::WaitForReset
}

// The next state after WaitForReset, where Activate is TRUE.
#[tactic(auto, unfolding(ps_model::specs::Blocks::next, ps_model::specs::Blocks::block))]
fn after_wait_for_reset(seen: Seen) -> Phase
    requires { pin_of seen.bits 0 ≡ true }
    ensures { code_of result ≡ next GuardMonitoringKind (code_of Phase.WaitForReset) (conditions_of seen 0) }
{
    let switch1 = seen.pin(1);
    let switch2 = seen.pin(2);
    if !(switch1 && switch2) {
        return Phase::OpenGuardRequest;
    }
    if seen.edge {
        return Phase::Enabled;
    }
    if seen.static_reset {
        return Phase::ResetError;
    }
    Phase::WaitForReset
}

/// SF_GuardMonitoring (PLCopen TC5, in the profile of this project).
pub struct GuardMonitoring;

impl SafetyBlock for GuardMonitoring {
    ghost use Rattle.ps_guards.specs.GuardMonitoringStates.{kept_of};

    const KIND: Kind = Kind::GuardMonitoring;

    ghost KIND = { GuardMonitoringKind };

    type State = GuardMonitoringState;

    ghost kept = { kept_of };

    fn fresh() -> GuardMonitoringState {
        GuardMonitoringState {
            phase: Phase::Idle,
            since: 0,
            last_reset: false,
        }
    }

    #[inline(always)]
    fn step(state: &mut GuardMonitoringState, pins: Pins) -> Outs {
        let seen = Seen::at(pins, state.since).with_reset(5, state.last_reset);
        let phase = state.phase.next(seen);
        if phase != state.phase {
            state.since = pins.now;
        }
        state.phase = phase;
        state.last_reset = seen.pin(5);
        Outs::of(phase.code(), u16::from(phase == Phase::Enabled))
    }

    fn store(state: &GuardMonitoringState, into: &mut [u8; 16]) {
        let image = Image {
            code: state.phase.code(),
            last_reset: state.last_reset,
            last_auxiliary: false,
            mode: 0,
            time: state.since,
        };
        image.write(into);
    }

    fn load(from: &[u8; 16]) -> Option<GuardMonitoringState> {
        let image = Image::read(Kind::GuardMonitoring, from)?;
        let phase = Phase::with_code(image.code)?;
        Some(GuardMonitoringState {
            phase,
            since: image.time,
            last_reset: image.last_reset,
        })
    }
}
