//! SF_EnableSwitch (PLCopen TC5, in the profile of this project).

ghost use Rattle.std.specs.Prelude.{◌≡◌, true, false, IfSome, IfNone};
ghost use Rattle.ps_model.specs.Blocks.{next};
ghost use Rattle.ps_model.specs.Stored.{is_state};
ghost use Rattle.ps_model.specs.declared.kind.Kind.TheVariants.{EnableSwitch as EnableSwitchKind};
ghost use Rattle.ps_block.specs.Seeing.{conditions_of};
ghost use Rattle.ps_operator.specs.EnableSwitchStates.{code_of};

use ps_block::{Image, Outs, Pins, SafetyBlock, Seen};
use ps_model::Kind;

/// A state of the table, one for each DiagCode.
#[derive(Clone, Copy, PartialEq)]
pub enum Phase {
    Idle,
    BasicOperation,
    SafeOperation,
    Position1,
    Enabled,
    Position3,
    OperationError1,
    OperationError2,
    OperationError3,
    OperationError4,
    ResetError1,
    ResetError2,
}

/// The state of an enable switch: the state of the table, the time in ms at which it was entered, and
/// the Reset of the last step.
#[derive(Clone, Copy)]
pub struct EnableSwitchState {
    phase: Phase,
    since: u32,
    last_reset: bool,
}

impl Phase {
    // The DiagCode.
    #[tactic(auto, unfolding(ps_model::specs::Blocks::block))]
    fn code(self) -> u16
        ensures code { result ≡ code_of self }
        ensures state { is_state EnableSwitchKind (code_of self) ≡ true }
    {
        match self {
            Phase::Idle => 0,
            Phase::BasicOperation => 0x8004,
            Phase::SafeOperation => 0x8005,
            Phase::Position1 => 0x8006,
            Phase::Enabled => 0x8000,
            Phase::Position3 => 0x8007,
            Phase::OperationError1 => 0xC010,
            Phase::OperationError2 => 0xC020,
            Phase::OperationError3 => 0xC030,
            Phase::OperationError4 => 0xC040,
            Phase::ResetError1 => 0xC001,
            Phase::ResetError2 => 0xC002,
        }
    }

    // The state with a DiagCode, and None where the table has none.
    #[tactic(auto, unfolding(ps_model::specs::Blocks::block))]
    fn with_code(code: u16) -> Option<Phase>
        ensures some { IfSome result (λ p. code_of p ≡ code) }
        ensures state { IfSome result (λ p. is_state EnableSwitchKind code ≡ true) }
        ensures none { IfNone result (is_state EnableSwitchKind code ≡ false) }
    {
        Some(match code {
            0 => Phase::Idle,
            0x8004 => Phase::BasicOperation,
            0x8005 => Phase::SafeOperation,
            0x8006 => Phase::Position1,
            0x8000 => Phase::Enabled,
            0x8007 => Phase::Position3,
            0xC010 => Phase::OperationError1,
            0xC020 => Phase::OperationError2,
            0xC030 => Phase::OperationError3,
            0xC040 => Phase::OperationError4,
            0xC001 => Phase::ResetError1,
            0xC002 => Phase::ResetError2,
            _ => return None,
        })
    }

    // The next state, by the table.
    #[tactic(auto, unfolding(ps_model::specs::Blocks::next, ps_model::specs::Blocks::block))]
    fn next(self, seen: Seen) -> Phase
        ensures { code_of result ≡ next EnableSwitchKind (code_of self) (conditions_of seen 0) }
    {
        let activate = seen.pin(0);
        let active = seen.pin(1);
        let ch1 = seen.pin(2);
        let ch2 = seen.pin(3);
        let auto = seen.pin(4);
        let reset = seen.pin(5);
        let position1 = !ch1 && ch2;
        let position2 = ch1 && ch2;
        let position3 = !ch2;
        match self {
            _ if !activate => Phase::Idle,
            Phase::Idle => Phase::BasicOperation,
            Phase::BasicOperation if active => Phase::SafeOperation,
            _ if !active => Phase::BasicOperation,
            Phase::SafeOperation if position1 => Phase::Position1,
            Phase::SafeOperation => Phase::OperationError1,
            Phase::Position1 if position2 => Phase::Enabled,
            Phase::Position1 if position3 => Phase::Position3,
            Phase::Enabled if position1 => Phase::Position1,
            Phase::Enabled if position3 => Phase::Position3,
            Phase::Position3 if position1 => Phase::Position1,
            Phase::Position3 if position2 => Phase::OperationError3,
            Phase::OperationError1 if position1 => Phase::OperationError2,
            Phase::OperationError2 if !position1 => Phase::OperationError1,
            Phase::OperationError2 if seen.static_reset => Phase::ResetError1,
            Phase::OperationError2 if auto || seen.edge => Phase::Position1,
            Phase::OperationError3 if !position2 => Phase::OperationError4,
            Phase::OperationError4 if position2 => Phase::OperationError3,
            Phase::OperationError4 if seen.static_reset => Phase::ResetError2,
            Phase::OperationError4 if (auto || seen.edge) && position1 => Phase::Position1,
            Phase::OperationError4 if auto || seen.edge => Phase::Position3,
            Phase::ResetError1 if !reset => Phase::OperationError2,
            Phase::ResetError2 if !reset => Phase::OperationError4,
            _ => self,
        }
    }
}

/// SF_EnableSwitch (PLCopen TC5, in the profile of this project).
pub struct EnableSwitch;

impl SafetyBlock for EnableSwitch {
    ghost use Rattle.ps_operator.specs.EnableSwitchStates.{kept_of};

    const KIND: Kind = Kind::EnableSwitch;

    ghost KIND = { EnableSwitchKind };

    type State = EnableSwitchState;

    ghost kept = { kept_of };

    fn fresh() -> EnableSwitchState {
        EnableSwitchState {
            phase: Phase::Idle,
            since: 0,
            last_reset: false,
        }
    }

    #[inline(always)]
    #[tactic(auto, unfolding(ps_model::specs::Blocks::block, ps_model::specs::Blocks::latched, ps_model::specs::Blocks::outs))]
    fn step(state: &mut EnableSwitchState, pins: Pins) -> Outs {
        let seen = Seen::at(pins, state.since).with_reset(5, state.last_reset);
        let phase = state.phase.next(seen);
        if phase != state.phase {
            state.since = pins.now;
        }
        state.phase = phase;
        state.last_reset = seen.pin(5);
        Outs::of(phase.code(), u16::from(phase == Phase::Enabled))
    }

    fn store(state: &EnableSwitchState, into: &mut [u8; 16]) {
        let image = Image {
            code: state.phase.code(),
            last_reset: state.last_reset,
            last_auxiliary: false,
            mode: 0,
            time: state.since,
        };
        image.write(into);
    }

    fn load(from: &[u8; 16]) -> Option<EnableSwitchState> {
        let image = Image::read(Kind::EnableSwitch, from)?;
        let phase = Phase::with_code(image.code)?;
        Some(EnableSwitchState {
            phase,
            since: image.time,
            last_reset: image.last_reset,
        })
    }
}
