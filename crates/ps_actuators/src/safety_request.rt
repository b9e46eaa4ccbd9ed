//! SF_SafetyRequest (PLCopen TC5, in the profile of this project).

ghost use Rattle.std.specs.Prelude.{◌≡◌, true, false, IfSome, IfNone};
ghost use Rattle.ps_model.specs.Blocks.{next};
ghost use Rattle.ps_model.specs.Stored.{is_state};
ghost use Rattle.ps_model.specs.declared.kind.Kind.TheVariants.{SafetyRequest as SafetyRequestKind};
ghost use Rattle.ps_block.specs.Seeing.{conditions_of};
ghost use Rattle.ps_actuators.specs.SafetyRequestStates.{code_of};

use ps_block::{Image, Outs, Pins, SafetyBlock, Seen};
use ps_model::Kind;

/// A state of the table, one for each DiagCode.
#[derive(Clone, Copy, PartialEq)]
pub enum Phase {
    Idle,
    Init,
    WaitForReset,
    Operation,
    WaitForAcknowledge,
    Safe,
    AcknowledgeLost,
    MonitoringError,
    ResetError2,
    ResetError3,
    WaitForOperation,
}

/// The state of a safety request: the state of the table, the time in ms at which it was entered, and the
/// Reset of the last step.
#[derive(Clone, Copy)]
pub struct SafetyRequestState {
    phase: Phase,
    since: u32,
    last_reset: bool,
}

impl Phase {
    // The DiagCode.
    #[tactic(auto, unfolding(ps_model::specs::Blocks::block))]
    fn code(self) -> u16
        ensures code { result ≡ code_of self }
        ensures state { is_state SafetyRequestKind (code_of self) ≡ true }
    {
        match self {
            Phase::Idle => 0,
            Phase::Init => 0x8001,
            Phase::WaitForReset => 0x8012,
            Phase::Operation => 0x8002,
            Phase::WaitForAcknowledge => 0x8003,
            Phase::Safe => 0x8000,
            Phase::AcknowledgeLost => 0xC002,
            Phase::MonitoringError => 0xC003,
            Phase::ResetError2 => 0xC004,
            Phase::ResetError3 => 0xC005,
            Phase::WaitForOperation => 0x8005,
        }
    }

    // The state with a DiagCode, and None where the table has none.
    #[tactic(auto, unfolding(ps_model::specs::Blocks::block))]
    fn with_code(code: u16) -> Option<Phase>
        ensures some { IfSome result (λ p. code_of p ≡ code) }
        ensures state { IfSome result (λ p. is_state SafetyRequestKind code ≡ true) }
        ensures none { IfNone result (is_state SafetyRequestKind code ≡ false) }
    {
        Some(match code {
            0 => Phase::Idle,
            0x8001 => Phase::Init,
            0x8012 => Phase::WaitForReset,
            0x8002 => Phase::Operation,
            0x8003 => Phase::WaitForAcknowledge,
            0x8000 => Phase::Safe,
            0xC002 => Phase::AcknowledgeLost,
            0xC003 => Phase::MonitoringError,
            0xC004 => Phase::ResetError2,
            0xC005 => Phase::ResetError3,
            0x8005 => Phase::WaitForOperation,
            _ => return None,
        })
    }

    // The next state, by the table.
    #[tactic(auto, unfolding(ps_model::specs::Blocks::next, ps_model::specs::Blocks::block))]
    fn next(self, seen: Seen) -> Phase
        ensures { code_of result ≡ next SafetyRequestKind (code_of self) (conditions_of seen 0) }
    {
        let activate = seen.pin(0);
        let operation = seen.pin(1);
        let acknowledge = seen.pin(2);
        let reset = seen.pin(3);
        match self {
            _ if !activate => Phase::Idle,
            Phase::Idle => Phase::Init,
            Phase::Init if operation => Phase::WaitForReset,
            Phase::Init => Phase::WaitForAcknowledge,
            Phase::WaitForReset if !operation => Phase::WaitForAcknowledge,
            Phase::WaitForReset if seen.edge => Phase::Operation,
            Phase::Operation if !operation => Phase::WaitForAcknowledge,
            Phase::WaitForAcknowledge if operation => Phase::WaitForReset,
            Phase::WaitForAcknowledge if acknowledge => Phase::Safe,
            Phase::WaitForAcknowledge if seen.elapsed => Phase::MonitoringError,
            Phase::Safe if !acknowledge => Phase::AcknowledgeLost,
            Phase::Safe if operation => Phase::Operation,
            Phase::AcknowledgeLost if seen.edge => Phase::WaitForOperation,
            Phase::AcknowledgeLost if seen.static_reset => Phase::ResetError2,
            Phase::MonitoringError if seen.edge => Phase::WaitForOperation,
            Phase::MonitoringError if seen.static_reset => Phase::ResetError3,
            Phase::ResetError2 if !reset => Phase::AcknowledgeLost,
            Phase::ResetError3 if !reset => Phase::MonitoringError,
            Phase::WaitForOperation if operation => Phase::WaitForReset,
            _ => self,
        }
    }
}

/// SF_SafetyRequest (PLCopen TC5, in the profile of this project).
pub struct SafetyRequest;

impl SafetyBlock for SafetyRequest {
    ghost use Rattle.ps_actuators.specs.SafetyRequestStates.{kept_of};

    const KIND: Kind = Kind::SafetyRequest;

    ghost KIND = { SafetyRequestKind };

    type State = SafetyRequestState;

    ghost kept = { kept_of };

    fn fresh() -> SafetyRequestState {
        SafetyRequestState {
            phase: Phase::Idle,
            since: 0,
            last_reset: false,
        }
    }

    #[inline(always)]
    fn step(state: &mut SafetyRequestState, pins: Pins) -> Outs {
        let seen = Seen::at(pins, state.since).with_reset(3, state.last_reset);
        let phase = state.phase.next(seen);
        if phase != state.phase {
            state.since = pins.now;
        }
        state.phase = phase;
        state.last_reset = seen.pin(3);
        let active = u16::from(phase == Phase::Safe);
        let request = u16::from(phase == Phase::Operation);
        Outs::of(phase.code(), active + 2 * request)
    }

    fn store(state: &SafetyRequestState, into: &mut [u8; 16]) {
        let image = Image {
            code: state.phase.code(),
            last_reset: state.last_reset,
            last_auxiliary: false,
            mode: 0,
            time: state.since,
        };
        image.write(into);
    }

    fn load(from: &[u8; 16]) -> Option<SafetyRequestState> {
        let image = Image::read(Kind::SafetyRequest, from)?;
        let phase = Phase::with_code(image.code)?;
        Some(SafetyRequestState {
            phase,
            since: image.time,
            last_reset: image.last_reset,
        })
    }
}
