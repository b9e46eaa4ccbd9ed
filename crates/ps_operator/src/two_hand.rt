//! What both types of two-hand control have in common (EN 574): the states of type II, all of which type III has too.

ghost use Rattle.std.specs.Prelude.{◌≡◌, ◌&&◌, true, false, IfSome, IfNone, ◌≤◌, ◌≢◌};
ghost use Rattle.ps_model.specs.Blocks.{next};
ghost use Rattle.ps_model.specs.Stored.{is_state};
ghost use Rattle.ps_model.specs.declared.kind.Kind.TheVariants.{TwoHandTwo as TwoHandTwoKind};
ghost use Rattle.ps_model.specs.declared.kind.Kind.TheVariants.{TwoHandThree as TwoHandThreeKind};
ghost use Rattle.ps_block.specs.Seeing.{conditions_of};
ghost use Rattle.ps_model.specs.PinBits.{pin_of};
ghost use Rattle.ps_operator.specs.TwoHandStates.{code_of, waits_for_second};

use ps_block::Seen;

/// A state of the table of type II, one for each DiagCode.
#[derive(Clone, Copy, PartialEq)]
pub enum CommonPhase {
    Idle,
    Init,
    Released,
    Button1Actuated,
    Button2Actuated,
    Enabled,
    Button2Released,
    Button1Released,
    LockedOff,
    LockedOn,
    ErrorB1,
    ErrorB2,
    ErrorBoth,
}

impl CommonPhase {
    // The DiagCode.
    #[tactic(auto, unfolding(ps_model::specs::Blocks::block))]
    pub(crate) fn code(self) -> u16
        ensures code { result ≡ code_of self }
        ensures state_two { is_state TwoHandTwoKind (code_of self) ≡ true }
        ensures state_three { is_state TwoHandThreeKind (code_of self) ≡ true }
    {
        match self {
            CommonPhase::Idle => 0,
            CommonPhase::Init => 0x8001,
            CommonPhase::Released => 0x8004,
            CommonPhase::Button1Actuated => 0x8005,
            CommonPhase::Button2Actuated => 0x8006,
            CommonPhase::Enabled => 0x8000,
            CommonPhase::Button2Released => 0x8007,
            CommonPhase::Button1Released => 0x8008,
            CommonPhase::LockedOff => 0x8009,
            CommonPhase::LockedOn => 0x8019,
            CommonPhase::ErrorB1 => 0xC001,
            CommonPhase::ErrorB2 => 0xC002,
            CommonPhase::ErrorBoth => 0xC003,
        }
    }

    // The state with a DiagCode, and None where the table of type II has none.
    #[tactic(auto, unfolding(ps_model::specs::Blocks::block))]
    pub(crate) fn with_code(code: u16) -> Option<CommonPhase>
        ensures some { IfSome result (λ p. code_of p ≡ code) }
        ensures state_two { IfSome result (λ p. is_state TwoHandTwoKind code ≡ true) }
        ensures state_three { IfSome result (λ p. is_state TwoHandThreeKind code ≡ true) }
        ensures none { IfNone result (is_state TwoHandTwoKind code ≡ false) }
    {
        Some(match code {
            0 => CommonPhase::Idle,
            0x8001 => CommonPhase::Init,
            0x8004 => CommonPhase::Released,
            0x8005 => CommonPhase::Button1Actuated,
            0x8006 => CommonPhase::Button2Actuated,
            0x8000 => CommonPhase::Enabled,
            0x8007 => CommonPhase::Button2Released,
            0x8008 => CommonPhase::Button1Released,
            0x8009 => CommonPhase::LockedOff,
            0x8019 => CommonPhase::LockedOn,
            0xC001 => CommonPhase::ErrorB1,
            0xC002 => CommonPhase::ErrorB2,
            0xC003 => CommonPhase::ErrorBoth,
            _ => return None,
        })
    }

    // Whether one button is pressed and the other is to follow.
    pub(crate) fn waits_for_second(self) -> bool
        ensures { result ≡ waits_for_second self }
    {
        matches!(
            self,
            CommonPhase::Button1Actuated | CommonPhase::Button2Actuated
        )
    }

    // The next state, by the table of type II; type III has the same one but where the second button is late.
    #[tactic(auto, unfolding(ps_model::specs::Blocks::next, ps_model::specs::Blocks::block))]
    pub(crate) fn next(self, seen: Seen) -> CommonPhase
        ensures two { code_of result ≡ next TwoHandTwoKind (code_of self) (conditions_of seen 0) }
        ensures three { (waits_for_second self && seen.elapsed) ≡ false → code_of result ≡ next TwoHandThreeKind (code_of self) (conditions_of seen 0) }
    {
        let b1 = seen.pin(1);
        let b2 = seen.pin(2);
        let hands = (b1, b2);
        if !seen.pin(0) {
            return CommonPhase::Idle;
        }
        match self {
            CommonPhase::Idle => CommonPhase::Init,
            CommonPhase::Init => match hands {
                (true, true) => CommonPhase::ErrorBoth,
                (true, false) => CommonPhase::ErrorB1,
                (false, true) => CommonPhase::ErrorB2,
                (false, false) => CommonPhase::Released,
            },
            CommonPhase::ErrorB1 if b1 || b2 => CommonPhase::ErrorB1,
            CommonPhase::ErrorB2 if b1 || b2 => CommonPhase::ErrorB2,
            CommonPhase::ErrorBoth if b1 || b2 => CommonPhase::ErrorBoth,
            CommonPhase::ErrorB1 | CommonPhase::ErrorB2 | CommonPhase::ErrorBoth =>
                CommonPhase::Init,
            CommonPhase::LockedOff if b1 || b2 => CommonPhase::LockedOff,
            CommonPhase::LockedOn if b1 || b2 => CommonPhase::LockedOn,
            CommonPhase::LockedOff | CommonPhase::LockedOn => CommonPhase::Released,
            _ => self.next_in_work(seen),
        }
    }

    // The next state, by the table, of an active block that has seen both buttons released and is
    // neither locked nor in error.
    #[tactic(auto, unfolding(ps_model::specs::Blocks::next, ps_model::specs::Blocks::block))]
    fn next_in_work(self, seen: Seen) -> CommonPhase
        requires active { pin_of seen.bits 0 ≡ true }
        requires low { 0x8000 ≤ code_of self }
        requires high { code_of self ≤ 0x8008 }
        requires begun { code_of self ≢ 0x8001 }
        ensures two { code_of result ≡ next TwoHandTwoKind (code_of self) (conditions_of seen 0) }
        ensures three { (waits_for_second self && seen.elapsed) ≡ false → code_of result ≡ next TwoHandThreeKind (code_of self) (conditions_of seen 0) }
    {
        let hands = (seen.pin(1), seen.pin(2));
        match self {
            CommonPhase::Released => match hands {
                (true, true) => CommonPhase::Enabled,
                (true, false) => CommonPhase::Button1Actuated,
                (false, true) => CommonPhase::Button2Actuated,
                (false, false) => CommonPhase::Released,
            },
            CommonPhase::Button1Actuated => match hands {
                (true, true) => CommonPhase::Enabled,
                (true, false) => CommonPhase::Button1Actuated,
                (false, true) => CommonPhase::LockedOn,
                (false, false) => CommonPhase::Released,
            },
            CommonPhase::Button2Actuated => match hands {
                (true, true) => CommonPhase::Enabled,
                (true, false) => CommonPhase::LockedOn,
                (false, true) => CommonPhase::Button2Actuated,
                (false, false) => CommonPhase::Released,
            },
            CommonPhase::Enabled => match hands {
                (true, true) => CommonPhase::Enabled,
                (true, false) => CommonPhase::Button2Released,
                (false, true) => CommonPhase::Button1Released,
                (false, false) => CommonPhase::Released,
            },
            CommonPhase::Button2Released => match hands {
                (true, true) => CommonPhase::LockedOff,
                (true, false) => CommonPhase::Button2Released,
                (false, true) => CommonPhase::LockedOff,
                (false, false) => CommonPhase::Released,
            },
            CommonPhase::Button1Released => match hands {
                (true, true) => CommonPhase::LockedOff,
                (true, false) => CommonPhase::LockedOff,
                (false, true) => CommonPhase::Button1Released,
                (false, false) => CommonPhase::Released,
            },
            _ => self,
        }
    }
}
