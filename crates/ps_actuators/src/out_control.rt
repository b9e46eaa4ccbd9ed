//! SF_OutControl (PLCopen TC5, in the profile of this project).

ghost use Rattle.std.specs.Prelude.{◌≡◌, true, false, IfSome, IfNone};
ghost use Rattle.ps_model.specs.Blocks.{next};
ghost use Rattle.ps_model.specs.Stored.{is_state};
ghost use Rattle.ps_model.specs.declared.kind.Kind.TheVariants.{OutControl as OutControlKind};
ghost use Rattle.ps_block.specs.Seeing.{conditions_of};
ghost use Rattle.ps_actuators.specs.OutControlStates.{code_of};

use ps_block::{Image, Outs, Pins, SafetyBlock, Seen};
use ps_model::Kind;

/// A state of the table, one for each DiagCode.
#[derive(Clone, Copy, PartialEq)]
pub enum Phase {
    Idle,
    Init,
    WaitForSafeControl,
    WaitForReset,
    OutputDisabled,
    Enabled,
    ControlError,
    ResetError1,
    ResetError2,
}

/// The state of an output control: the state of the table, the time in ms at which it was entered, and the
/// Reset and the ProcessControl of the last step.
#[derive(Clone, Copy)]
pub struct OutControlState {
    phase: Phase,
    since: u32,
    last_reset: bool,
    last_process: bool,
}

impl Phase {
    // The DiagCode.
    #[tactic(auto, unfolding(ps_model::specs::Blocks::block))]
    fn code(self) -> u16
        ensures code { result ≡ code_of self }
        ensures state { is_state OutControlKind (code_of self) ≡ true }
    {
        match self {
            Phase::Idle => 0,
            Phase::Init => 0x8001,
            Phase::WaitForSafeControl => 0x8002,
            Phase::WaitForReset => 0x8003,
            Phase::OutputDisabled => 0x8010,
            Phase::Enabled => 0x8000,
            Phase::ControlError => 0xC010,
            Phase::ResetError1 => 0xC001,
            Phase::ResetError2 => 0xC002,
        }
    }

    // The state with a DiagCode, and None where the table has none.
    #[tactic(auto, unfolding(ps_model::specs::Blocks::block))]
    fn with_code(code: u16) -> Option<Phase>
        ensures some { IfSome result (λ p. code_of p ≡ code) }
        ensures state { IfSome result (λ p. is_state OutControlKind code ≡ true) }
        ensures none { IfNone result (is_state OutControlKind code ≡ false) }
    {
        Some(match code {
            0 => Phase::Idle,
            0x8001 => Phase::Init,
            0x8002 => Phase::WaitForSafeControl,
            0x8003 => Phase::WaitForReset,
            0x8010 => Phase::OutputDisabled,
            0x8000 => Phase::Enabled,
            0xC010 => Phase::ControlError,
            0xC001 => Phase::ResetError1,
            0xC002 => Phase::ResetError2,
            _ => return None,
        })
    }

    // The next state, by the table.
    #[tactic(auto, unfolding(ps_model::specs::Blocks::next, ps_model::specs::Blocks::block))]
    fn next(self, seen: Seen) -> Phase
        ensures { code_of result ≡ next OutControlKind (code_of self) (conditions_of seen 0) }
    {
        let activate = seen.pin(0);
        let safe = seen.pin(1);
        let process = seen.pin(2);
        let static_control = seen.pin(3);
        let start = seen.pin(4);
        let auto = seen.pin(5);
        let reset = seen.pin(6);
        match self {
            _ if !activate => Phase::Idle,
            Phase::Idle => Phase::Init,
            Phase::Init if !safe => Phase::WaitForSafeControl,
            Phase::Init if start || seen.edge => Phase::OutputDisabled,
            Phase::Init if seen.static_reset => Phase::ResetError1,
            Phase::WaitForSafeControl if safe && auto => Phase::OutputDisabled,
            Phase::WaitForSafeControl if safe => Phase::WaitForReset,
            Phase::WaitForReset if !safe => Phase::WaitForSafeControl,
            Phase::WaitForReset if seen.edge => Phase::OutputDisabled,
            Phase::WaitForReset if seen.static_reset => Phase::ResetError2,
            Phase::OutputDisabled | Phase::Enabled | Phase::ControlError if !safe =>
                Phase::WaitForSafeControl,
            Phase::OutputDisabled if process && (static_control || seen.rise) => Phase::Enabled,
            Phase::OutputDisabled if process => Phase::ControlError,
            Phase::Enabled | Phase::ControlError if !process => Phase::OutputDisabled,
            Phase::ResetError1 if !reset => Phase::Init,
            Phase::ResetError2 if !reset => Phase::WaitForReset,
            _ => self,
        }
    }
}

/// SF_OutControl (PLCopen TC5, in the profile of this project).
pub struct OutControl;

impl SafetyBlock for OutControl {
    ghost use Rattle.ps_actuators.specs.OutControlStates.{kept_of};

    const KIND: Kind = Kind::OutControl;

    ghost KIND = { OutControlKind };

    type State = OutControlState;

    ghost kept = { kept_of };

    fn fresh() -> OutControlState {
        OutControlState {
            phase: Phase::Idle,
            since: 0,
            last_reset: false,
            last_process: false,
        }
    }

    #[inline(always)]
    fn step(state: &mut OutControlState, pins: Pins) -> Outs {
        let seen = Seen::at(pins, state.since)
            .with_reset(6, state.last_reset)
            .with_auxiliary(2, state.last_process);
        let phase = state.phase.next(seen);
        if phase != state.phase {
            state.since = pins.now;
        }
        state.phase = phase;
        state.last_reset = seen.pin(6);
        state.last_process = seen.pin(2);
        Outs::of(phase.code(), u16::from(phase == Phase::Enabled))
    }

    fn store(state: &OutControlState, into: &mut [u8; 16]) {
        let image = Image {
            code: state.phase.code(),
            last_reset: state.last_reset,
            last_auxiliary: state.last_process,
            mode: 0,
            time: state.since,
        };
        image.write(into);
    }

    fn load(from: &[u8; 16]) -> Option<OutControlState> {
        let image = Image::read(Kind::OutControl, from)?;
        let phase = Phase::with_code(image.code)?;
        Some(OutControlState {
            phase,
            since: image.time,
            last_reset: image.last_reset,
            last_process: image.last_auxiliary,
        })
    }
}
