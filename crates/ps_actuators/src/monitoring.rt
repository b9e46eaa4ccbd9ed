//! SF_EDM (PLCopen TC5, in the profile of this project).

ghost use Rattle.std.specs.Prelude.{◌≡◌, true, false, IfSome, IfNone, ◌≤◌};
ghost use Rattle.ps_model.specs.Blocks.{next};
ghost use Rattle.ps_model.specs.Stored.{is_state};
ghost use Rattle.ps_model.specs.declared.kind.Kind.TheVariants.{Edm as EdmKind};
ghost use Rattle.ps_block.specs.Seeing.{conditions_of};
ghost use Rattle.ps_model.specs.PinBits.{pin_of};
ghost use Rattle.ps_actuators.specs.EdmStates.{code_of};

use ps_block::{Image, Outs, Pins, SafetyBlock, Seen};
use ps_model::Kind;

/// A state of the table, one for each DiagCode.
#[derive(Clone, Copy, PartialEq)]
pub enum Phase {
    Idle,
    Init,
    OutputDisabled,
    Enabled,
    ResetError,
    EdmError11,
    ResetError11,
    EdmError12,
    ResetError12,
    EdmError13,
    ResetError13,
    EdmError21,
    ResetError21,
    EdmError22,
    ResetError22,
    EdmError23,
    ResetError23,
    EdmError31,
    ResetError31,
    EdmError32,
    ResetError32,
    EdmError33,
    ResetError33,
}

/// The state of an external device monitoring: the state of the table, the time in ms at which it was
/// entered or restarted, and the Reset of the last step.
#[derive(Clone, Copy)]
pub struct EdmState {
    phase: Phase,
    since: u32,
    last_reset: bool,
}

impl Phase {
    // The DiagCode.
    #[tactic(auto, unfolding(ps_model::specs::Blocks::block))]
    fn code(self) -> u16
        ensures code { result ≡ code_of self }
        ensures state { is_state EdmKind (code_of self) ≡ true }
    {
        match self {
            Phase::Idle => 0,
            Phase::Init => 0x8001,
            Phase::OutputDisabled => 0x8010,
            Phase::Enabled => 0x8000,
            Phase::ResetError => 0xC001,
            Phase::EdmError11 => 0xC010,
            Phase::ResetError11 => 0xC011,
            Phase::EdmError12 => 0xC020,
            Phase::ResetError12 => 0xC021,
            Phase::EdmError13 => 0xC030,
            Phase::ResetError13 => 0xC031,
            Phase::EdmError21 => 0xC040,
            Phase::ResetError21 => 0xC041,
            Phase::EdmError22 => 0xC050,
            Phase::ResetError22 => 0xC051,
            Phase::EdmError23 => 0xC060,
            Phase::ResetError23 => 0xC061,
            Phase::EdmError31 => 0xC070,
            Phase::ResetError31 => 0xC071,
            Phase::EdmError32 => 0xC080,
            Phase::ResetError32 => 0xC081,
            Phase::EdmError33 => 0xC090,
            Phase::ResetError33 => 0xC091,
        }
    }

    // The state with a DiagCode, and None where the table has none.
    #[tactic(auto, unfolding(ps_model::specs::Blocks::block))]
    fn with_code(code: u16) -> Option<Phase>
        ensures some { IfSome result (λ p. code_of p ≡ code) }
        ensures state { IfSome result (λ p. is_state EdmKind code ≡ true) }
        ensures none { IfNone result (is_state EdmKind code ≡ false) }
    {
        Some(match code {
            0 => Phase::Idle,
            0x8001 => Phase::Init,
            0x8010 => Phase::OutputDisabled,
            0x8000 => Phase::Enabled,
            0xC001 => Phase::ResetError,
            0xC010 => Phase::EdmError11,
            0xC011 => Phase::ResetError11,
            0xC020 => Phase::EdmError12,
            0xC021 => Phase::ResetError12,
            0xC030 => Phase::EdmError13,
            0xC031 => Phase::ResetError13,
            0xC040 => Phase::EdmError21,
            0xC041 => Phase::ResetError21,
            0xC050 => Phase::EdmError22,
            0xC051 => Phase::ResetError22,
            0xC060 => Phase::EdmError23,
            0xC061 => Phase::ResetError23,
            0xC070 => Phase::EdmError31,
            0xC071 => Phase::ResetError31,
            0xC080 => Phase::EdmError32,
            0xC081 => Phase::ResetError32,
            0xC090 => Phase::EdmError33,
            0xC091 => Phase::ResetError33,
            _ => return None,
        })
    }

    // The next state, by the table.
    #[tactic(auto, unfolding(ps_model::specs::Blocks::next, ps_model::specs::Blocks::block))]
    fn next(self, seen: Seen) -> Phase
        ensures { code_of result ≡ next EdmKind (code_of self) (conditions_of seen 0) }
    {
        let activate = seen.pin(0);
        let control = seen.pin(1);
        let edm1 = seen.pin(2);
        let edm2 = seen.pin(3);
        let start = seen.pin(4);
        let reset = seen.pin(5);
        match self {
            _ if !activate => Phase::Idle,
            Phase::Idle => Phase::Init,
            Phase::Init if start || seen.edge => Phase::OutputDisabled,
            Phase::Init if seen.static_reset => Phase::ResetError,
            Phase::ResetError if !reset => Phase::Init,
            Phase::OutputDisabled if control && edm1 && edm2 => Phase::Enabled,
            Phase::OutputDisabled if control && !edm1 && edm2 => Phase::EdmError21,
            Phase::OutputDisabled if control && edm1 && !edm2 => Phase::EdmError22,
            Phase::OutputDisabled if control => Phase::EdmError23,
            Phase::OutputDisabled if seen.elapsed && !edm1 && edm2 => Phase::EdmError11,
            Phase::OutputDisabled if seen.elapsed && edm1 && !edm2 => Phase::EdmError12,
            Phase::OutputDisabled if seen.elapsed && !edm1 && !edm2 => Phase::EdmError13,
            Phase::Enabled if !control => Phase::OutputDisabled,
            Phase::Enabled if seen.elapsed && edm1 && !edm2 => Phase::EdmError31,
            Phase::Enabled if seen.elapsed && !edm1 && edm2 => Phase::EdmError32,
            Phase::Enabled if seen.elapsed && edm1 && edm2 => Phase::EdmError33,
            Phase::OutputDisabled | Phase::Enabled | Phase::ResetError | Phase::Init => self,
            _ => self.next_in_error(seen),
        }
    }

    // The next state, by the table, of an active block in an error state.
    #[tactic(auto, unfolding(ps_model::specs::Blocks::next, ps_model::specs::Blocks::block))]
    fn next_in_error(self, seen: Seen) -> Phase
        requires active { pin_of seen.bits 0 ≡ true }
        requires error { 0xC010 ≤ code_of self }
        ensures { code_of result ≡ next EdmKind (code_of self) (conditions_of seen 0) }
    {
        let reset = seen.pin(5);
        match self {
            Phase::EdmError11
            | Phase::EdmError12
            | Phase::EdmError13
            | Phase::EdmError21
            | Phase::EdmError22
            | Phase::EdmError23
            | Phase::EdmError31
            | Phase::EdmError32
            | Phase::EdmError33
                if seen.edge => Phase::OutputDisabled,
            Phase::EdmError11 if seen.static_reset => Phase::ResetError11,
            Phase::EdmError12 if seen.static_reset => Phase::ResetError12,
            Phase::EdmError13 if seen.static_reset => Phase::ResetError13,
            Phase::EdmError21 if seen.static_reset => Phase::ResetError21,
            Phase::EdmError22 if seen.static_reset => Phase::ResetError22,
            Phase::EdmError23 if seen.static_reset => Phase::ResetError23,
            Phase::EdmError31 if seen.static_reset => Phase::ResetError31,
            Phase::EdmError32 if seen.static_reset => Phase::ResetError32,
            Phase::EdmError33 if seen.static_reset => Phase::ResetError33,
            Phase::ResetError11 if !reset => Phase::EdmError11,
            Phase::ResetError12 if !reset => Phase::EdmError12,
            Phase::ResetError13 if !reset => Phase::EdmError13,
            Phase::ResetError21 if !reset => Phase::EdmError21,
            Phase::ResetError22 if !reset => Phase::EdmError22,
            Phase::ResetError23 if !reset => Phase::EdmError23,
            Phase::ResetError31 if !reset => Phase::EdmError31,
            Phase::ResetError32 if !reset => Phase::EdmError32,
            Phase::ResetError33 if !reset => Phase::EdmError33,
            _ => self,
        }
    }
}

/// SF_EDM (PLCopen TC5, in the profile of this project).
pub struct Edm;

impl SafetyBlock for Edm {
    ghost use Rattle.ps_actuators.specs.EdmStates.{kept_of};

    const KIND: Kind = Kind::Edm;

    ghost KIND = { EdmKind };

    type State = EdmState;

    ghost kept = { kept_of };

    fn fresh() -> EdmState {
        EdmState {
            phase: Phase::Idle,
            since: 0,
            last_reset: false,
        }
    }

    #[inline(always)]
    fn step(state: &mut EdmState, pins: Pins) -> Outs {
        let seen = Seen::at(pins, state.since).with_reset(5, state.last_reset);
        let phase = state.phase.next(seen);
        if phase != state.phase || (phase == Phase::OutputDisabled && seen.pin(2) && seen.pin(3)) {
            state.since = pins.now;
        }
        state.phase = phase;
        state.last_reset = seen.pin(5);
        Outs::of(phase.code(), u16::from(phase == Phase::Enabled))
    }

    fn store(state: &EdmState, into: &mut [u8; 16]) {
        let image = Image {
            code: state.phase.code(),
            last_reset: state.last_reset,
            last_auxiliary: false,
            mode: 0,
            time: state.since,
        };
        image.write(into);
    }

    fn load(from: &[u8; 16]) -> Option<EdmState> {
        let image = Image::read(Kind::Edm, from)?;
        let phase = Phase::with_code(image.code)?;
        Some(EdmState {
            phase,
            since: image.time,
            last_reset: image.last_reset,
        })
    }
}
