//! SF_TwoHandControlTypeII.

ghost use Rattle.ps_model.specs.declared.kind.Kind.TheVariants.{TwoHandTwo as TwoHandTwoKind};

use crate::two_hand::CommonPhase;
use ps_block::{Image, Outs, Pins, SafetyBlock, Seen};
use ps_model::Kind;

/// The state of a two-hand control of type II: the state of the table, and the time in ms at which it
/// was entered.
#[derive(Clone, Copy)]
pub struct TwoHandTwoState {
    phase: CommonPhase,
    since: u32,
}

/// SF_TwoHandControlTypeII (EN 574; PLCopen TC5, in the profile of this project).
pub struct TwoHandTwo;

impl SafetyBlock for TwoHandTwo {
    ghost use Rattle.ps_operator.specs.TwoHandTwoStates.{kept_of};

    const KIND: Kind = Kind::TwoHandTwo;

    ghost KIND = { TwoHandTwoKind };

    type State = TwoHandTwoState;

    ghost kept = { kept_of };

    fn fresh() -> TwoHandTwoState {
        TwoHandTwoState {
            phase: CommonPhase::Idle,
            since: 0,
        }
    }

    #[inline(always)]
    #[tactic(auto, unfolding(ps_model::specs::Blocks::block, ps_model::specs::Blocks::latched, ps_model::specs::Blocks::outs))]
    fn step(state: &mut TwoHandTwoState, pins: Pins) -> Outs {
        let seen = Seen::at(pins, state.since);
        let phase = state.phase.next(seen);
        if phase != state.phase {
            state.since = pins.now;
        }
        state.phase = phase;
        Outs::of(phase.code(), u16::from(phase == CommonPhase::Enabled))
    }

    fn store(state: &TwoHandTwoState, into: &mut [u8; 16]) {
        let image = Image {
            code: state.phase.code(),
            last_reset: false,
            last_auxiliary: false,
            mode: 0,
            time: state.since,
        };
        image.write(into);
    }

    #[tactic(auto, using(crate::proofs::SameTwoHandTwoStates::same_kept, ps_block::proofs::Loading::loads_from, ps_block::proofs::Loading::no_state, ps_block::proofs::Loading::not_last), unfolding(ps_model::specs::Blocks::block))]
    fn load(from: &[u8; 16]) -> Option<TwoHandTwoState> {
        let image = Image::read(Kind::TwoHandTwo, from)?;
        let phase = CommonPhase::with_code(image.code)?;
        Some(TwoHandTwoState {
            phase,
            since: image.time,
        })
    }
}
