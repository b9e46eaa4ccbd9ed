//! SF_TwoHandControlTypeIII.

ghost use Rattle.std.specs.Prelude.{◌≡◌, true, false, IfSome, IfNone};
ghost use Rattle.ps_model.specs.Blocks.{next};
ghost use Rattle.ps_model.specs.Stored.{is_state};
ghost use Rattle.ps_model.specs.declared.kind.Kind.TheVariants.{TwoHandThree as TwoHandThreeKind};
ghost use Rattle.ps_block.specs.Seeing.{conditions_of};
ghost use Rattle.ps_operator.specs.TwoHandThreeStates.{code_of};

use crate::two_hand::CommonPhase;
use ps_block::{Image, Outs, Pins, SafetyBlock, Seen};
use ps_model::Kind;

/// A state of the table, one for each DiagCode: those of type II, and three in which the second button came late or not
/// at all.
#[derive(Clone, Copy, PartialEq)]
pub enum Phase {
    Common(CommonPhase),
    TimeError1,
    TimeError2,
    TimeErrorBoth,
}

/// The state of a two-hand control of type III: the state of the table, and the time in ms at which it
/// was entered.
#[derive(Clone, Copy)]
pub struct TwoHandThreeState {
    phase: Phase,
    since: u32,
}

impl Phase {
    // The DiagCode.
    #[tactic(auto, unfolding(ps_model::specs::Blocks::block))]
    fn code(self) -> u16
        ensures code { result ≡ code_of self }
        ensures state { is_state TwoHandThreeKind (code_of self) ≡ true }
    {
        match self {
            Phase::Common(common) => common.code(),
            Phase::TimeError1 => 0xC004,
            Phase::TimeError2 => 0xC005,
            Phase::TimeErrorBoth => 0xC006,
        }
    }

    // The state with a DiagCode, and None where the table has none.
    #[tactic(auto, unfolding(ps_model::specs::Blocks::block))]
    fn with_code(code: u16) -> Option<Phase>
        ensures some { IfSome result (λ p. code_of p ≡ code) }
        ensures state { IfSome result (λ p. is_state TwoHandThreeKind code ≡ true) }
        ensures none { IfNone result (is_state TwoHandThreeKind code ≡ false) }
    {
        Some(match code {
            0xC004 => Phase::TimeError1,
            0xC005 => Phase::TimeError2,
            0xC006 => Phase::TimeErrorBoth,
            _ => Phase::Common(CommonPhase::with_code(code)?),
        })
    }

    // The next state, by the table: that of type II, but where the second button is late.
    #[tactic(auto, unfolding(ps_model::specs::Blocks::next, ps_model::specs::Blocks::block))]
    fn next(self, seen: Seen) -> Phase
        ensures { code_of result ≡ next TwoHandThreeKind (code_of self) (conditions_of seen 0) }
    {
        let b1 = seen.pin(1);
        let b2 = seen.pin(2);
        match self {
            _ if !seen.pin(0) => Phase::Common(CommonPhase::Idle),
            Phase::Common(common) if common.waits_for_second() && seen.elapsed => match (b1, b2) {
                (true, true) => Phase::TimeErrorBoth,
                (true, false) => Phase::TimeError1,
                (false, true) => Phase::TimeError2,
                (false, false) => Phase::Common(CommonPhase::Released),
            },
            Phase::Common(common) => Phase::Common(common.next(seen)),
            _ if b1 || b2 => self,
            _ => Phase::Common(CommonPhase::Released),
        }
    }
}

/// SF_TwoHandControlTypeIII (EN 574; PLCopen TC5, in the profile of this project).
pub struct TwoHandThree;

impl SafetyBlock for TwoHandThree {
    ghost use Rattle.ps_operator.specs.TwoHandThreeStates.{kept_of};

    const KIND: Kind = Kind::TwoHandThree;

    ghost KIND = { TwoHandThreeKind };

    type State = TwoHandThreeState;

    ghost kept = { kept_of };

    fn fresh() -> TwoHandThreeState {
        TwoHandThreeState {
            phase: Phase::Common(CommonPhase::Idle),
            since: 0,
        }
    }

    #[inline(always)]
    #[tactic(auto, unfolding(ps_model::specs::Blocks::block, ps_model::specs::Blocks::latched, ps_model::specs::Blocks::outs))]
    fn step(state: &mut TwoHandThreeState, pins: Pins) -> Outs {
        let seen = Seen::at(pins, state.since);
        let phase = state.phase.next(seen);
        if phase != state.phase {
            state.since = pins.now;
        }
        state.phase = phase;
        Outs::of(
            phase.code(),
            u16::from(phase == Phase::Common(CommonPhase::Enabled)),
        )
    }

    fn store(state: &TwoHandThreeState, into: &mut [u8; 16]) {
        let image = Image {
            code: state.phase.code(),
            last_reset: false,
            last_auxiliary: false,
            mode: 0,
            time: state.since,
        };
        image.write(into);
    }

    fn load(from: &[u8; 16]) -> Option<TwoHandThreeState> {
        let image = Image::read(Kind::TwoHandThree, from)?;
        let phase = Phase::with_code(image.code)?;
        Some(TwoHandThreeState {
            phase,
            since: image.time,
        })
    }
}
