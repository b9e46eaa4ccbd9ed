//! SF_EmergencyStop and SF_ESPE (PLCopen TC5, in the profile of this project), which share one table.

ghost use Rattle.std.specs.Prelude.{◌≡◌, true, false, IfSome, IfNone};
ghost use Rattle.ps_model.specs.Blocks.{next};
ghost use Rattle.ps_model.specs.Kept.{fresh};
ghost use Rattle.ps_model.specs.Stored.{is_state, Loads};
ghost use Rattle.ps_model.specs.declared.kind.Kind.TheVariants.{EmergencyStop as EmergencyStopKind, Espe as EspeKind};
ghost use Rattle.ps_block.specs.Seeing.{conditions_of};
ghost use Rattle.ps_block.specs.Stepping.{IsStep};
ghost use Rattle.ps_sensors.specs.Stop.{code_of};

use ps_block::{Image, Outs, Pins, SafetyBlock, Seen};
use ps_model::Kind;

/// A state of the table, one for each DiagCode.
#[derive(Clone, Copy, PartialEq)]
pub enum Phase {
    Idle,
    Init,
    WaitForIn1,
    WaitForReset1,
    Enabled,
    WaitForIn2,
    WaitForReset2,
    ResetError1,
    ResetError2,
}

/// The state of an emergency stop or of an ESPE: the state of the table, the time in ms at which it was
/// entered, and the Reset of the last step.
#[derive(Clone, Copy)]
pub struct StopState {
    phase: Phase,
    since: u32,
    last_reset: bool,
}

impl Phase {
    // The DiagCode.
    #[tactic(auto, unfolding(ps_model::specs::Blocks::block))]
    fn code(self) -> u16
        ensures code { result ≡ code_of self }
        ensures emergency_stop { is_state EmergencyStopKind (code_of self) ≡ true }
        ensures espe { is_state EspeKind (code_of self) ≡ true }
    {
        match self {
            Phase::Idle => 0,
            Phase::Init => 0x8001,
            Phase::WaitForIn1 => 0x8002,
            Phase::WaitForReset1 => 0x8003,
            Phase::Enabled => 0x8000,
            Phase::WaitForIn2 => 0x8004,
            Phase::WaitForReset2 => 0x8005,
            Phase::ResetError1 => 0xC001,
            Phase::ResetError2 => 0xC002,
        }
    }

    // The state with a DiagCode, and None where the table has none.
    #[tactic(auto, unfolding(ps_model::specs::Blocks::block))]
    fn with_code(code: u16) -> Option<Phase>
        ensures some { IfSome result (λ p. code_of p ≡ code) }
        ensures state_emergency_stop { IfSome result (λ p. is_state EmergencyStopKind code ≡ true) }
        ensures none_emergency_stop { IfNone result (is_state EmergencyStopKind code ≡ false) }
        ensures state_espe { IfSome result (λ p. is_state EspeKind code ≡ true) }
        ensures none_espe { IfNone result (is_state EspeKind code ≡ false) }
    {
        Some(match code {
            0 => Phase::Idle,
            0x8001 => Phase::Init,
            0x8002 => Phase::WaitForIn1,
            0x8003 => Phase::WaitForReset1,
            0x8000 => Phase::Enabled,
            0x8004 => Phase::WaitForIn2,
            0x8005 => Phase::WaitForReset2,
            0xC001 => Phase::ResetError1,
            0xC002 => Phase::ResetError2,
            _ => return None,
        })
    }

    // The next state, by the table.
    #[tactic(auto, unfolding(ps_model::specs::Blocks::next, ps_model::specs::Blocks::block))]
    fn next(self, seen: Seen) -> Phase
        ensures stop { code_of result ≡ next EmergencyStopKind (code_of self) (conditions_of seen 0) }
        ensures espe { code_of result ≡ next EspeKind (code_of self) (conditions_of seen 0) }
    {
        let activate = seen.pin(0);
        let input = seen.pin(1);
        let start = seen.pin(2);
        let auto = seen.pin(3);
        let reset = seen.pin(4);
        match self {
            _ if !activate => Phase::Idle,
            Phase::Idle => Phase::Init,
            Phase::Init if !start => Phase::WaitForIn1,
            Phase::Init if input => Phase::Enabled,
            Phase::WaitForIn1 if reset => Phase::ResetError1,
            Phase::WaitForIn1 if input => Phase::WaitForReset1,
            Phase::WaitForReset1 if !input => Phase::WaitForIn1,
            Phase::WaitForReset1 if seen.edge => Phase::Enabled,
            Phase::Enabled if !input => Phase::WaitForIn2,
            Phase::WaitForIn2 if reset => Phase::ResetError2,
            Phase::WaitForIn2 if input => Phase::WaitForReset2,
            Phase::WaitForReset2 if !input => Phase::WaitForIn2,
            Phase::WaitForReset2 if auto || seen.edge => Phase::Enabled,
            Phase::ResetError1 if !reset => Phase::WaitForIn1,
            Phase::ResetError2 if !reset => Phase::WaitForIn2,
            _ => self,
        }
    }
}

impl StopState {
    ghost use Rattle.ps_sensors.specs.Stop.{kept_of};

    // The state before the first scan.
    fn fresh() -> StopState
        ensures { kept_of result ≡ fresh }
    {
        StopState {
            phase: Phase::Idle,
            since: 0,
            last_reset: false,
        }
    }

    // One step, the same for both kinds.
    #[inline(always)]
    #[tactic(auto, unfolding(ps_model::specs::Blocks::block, ps_model::specs::Blocks::latched, ps_model::specs::Blocks::outs))]
    fn step(&mut self, pins: Pins) -> Outs
        ensures emergency_stop { IsStep EmergencyStopKind pins (kept_of self.old) (kept_of self.new) result }
        ensures espe { IsStep EspeKind pins (kept_of self.old) (kept_of self.new) result }
    {
        let seen = Seen::at(pins, self.since).with_reset(4, self.last_reset);
        let phase = self.phase.next(seen);
        if phase != self.phase {
            self.since = pins.now;
        }
        self.phase = phase;
        self.last_reset = seen.pin(4);
        Outs::of(phase.code(), u16::from(phase == Phase::Enabled))
    }

    // Writes the sixteen bytes.
    fn store(&self, into: &mut [u8; 16])
        ensures emergency_stop { Loads EmergencyStopKind into.new (kept_of self.now) }
        ensures espe { Loads EspeKind into.new (kept_of self.now) }
    {
        let image = Image {
            code: self.phase.code(),
            last_reset: self.last_reset,
            last_auxiliary: false,
            mode: 0,
            time: self.since,
        };
        image.write(into);
    }

    // The state that an image holds, and None exactly where its code is that of no state.
    fn from_image(image: Image) -> Option<StopState>
        ensures code { IfSome result (λ s. code_of s.phase ≡ image.code) }
        ensures time { IfSome result (λ s. s.since ≡ image.time) }
        ensures last_reset { IfSome result (λ s. s.last_reset ≡ image.last_reset) }
        ensures state_emergency_stop { IfSome result (λ s. is_state EmergencyStopKind image.code ≡ true) }
        ensures none_emergency_stop { IfNone result (is_state EmergencyStopKind image.code ≡ false) }
        ensures state_espe { IfSome result (λ s. is_state EspeKind image.code ≡ true) }
        ensures none_espe { IfNone result (is_state EspeKind image.code ≡ false) }
    {
        Some(StopState {
            phase: Phase::with_code(image.code)?,
            since: image.time,
            last_reset: image.last_reset,
        })
    }
}

/// SF_EmergencyStop (PLCopen TC5, in the profile of this project).
pub struct EmergencyStop;

impl SafetyBlock for EmergencyStop {
    ghost use Rattle.ps_sensors.specs.Stop.{kept_of};

    const KIND: Kind = Kind::EmergencyStop;

    ghost KIND = { EmergencyStopKind };

    type State = StopState;

    ghost kept = { kept_of };

    fn fresh() -> StopState {
        StopState::fresh()
    }

    #[inline(always)]
    fn step(state: &mut StopState, pins: Pins) -> Outs {
        state.step(pins)
    }

    fn store(state: &StopState, into: &mut [u8; 16]) {
        state.store(into);
    }

    #[tactic(auto, using(crate::proofs::SameStop::same_kept, ps_block::proofs::Loading::loads_from, ps_block::proofs::Loading::no_state, ps_block::proofs::Loading::not_last), unfolding(ps_model::specs::Blocks::block))]
    fn load(from: &[u8; 16]) -> Option<StopState> {
        StopState::from_image(Image::read(Kind::EmergencyStop, from)?)
    }
}

/// SF_ESPE (PLCopen TC5, in the profile of this project).
pub struct Espe;

impl SafetyBlock for Espe {
    ghost use Rattle.ps_sensors.specs.Stop.{kept_of};

    const KIND: Kind = Kind::Espe;

    ghost KIND = { EspeKind };

    type State = StopState;

    ghost kept = { kept_of };

    fn fresh() -> StopState {
        StopState::fresh()
    }

    #[inline(always)]
    fn step(state: &mut StopState, pins: Pins) -> Outs {
        state.step(pins)
    }

    fn store(state: &StopState, into: &mut [u8; 16]) {
        state.store(into);
    }

    #[tactic(auto, using(crate::proofs::SameStop::same_kept, ps_block::proofs::Loading::loads_from, ps_block::proofs::Loading::no_state, ps_block::proofs::Loading::not_last), unfolding(ps_model::specs::Blocks::block))]
    fn load(from: &[u8; 16]) -> Option<StopState> {
        StopState::from_image(Image::read(Kind::Espe, from)?)
    }
}
