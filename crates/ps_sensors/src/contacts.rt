//! SF_Equivalent and SF_Antivalent (PLCopen TC5, in the profile of this project), which share one table.

ghost use Rattle.std.specs.Prelude.{◌≡◌, true, false, IfSome, IfNone, not};
ghost use Rattle.ps_model.specs.Blocks.{next};
ghost use Rattle.ps_model.specs.Kept.{fresh};
ghost use Rattle.ps_model.specs.Stored.{is_state, Loads};
ghost use Rattle.ps_model.specs.declared.kind.Kind.TheVariants.{Equivalent as EquivalentKind};
ghost use Rattle.ps_model.specs.declared.kind.Kind.TheVariants.{Antivalent as AntivalentKind};
ghost use Rattle.ps_block.specs.Seeing.{conditions_of};
ghost use Rattle.ps_block.specs.Stepping.{IsStep};
ghost use Rattle.ps_model.specs.PinBits.{pin_of};
ghost use Rattle.ps_sensors.specs.Contacts.{code_of};

use ps_block::{Image, Outs, Pins, SafetyBlock, Seen};
use ps_model::Kind;

/// A state of the table, one for each DiagCode.
#[derive(Clone, Copy, PartialEq)]
pub enum Phase {
    Idle,
    Init,
    WaitForB,
    WaitForA,
    Enabled,
    FromActiveWait,
    Error1,
    Error2,
    Error3,
}

/// The state of a pair of contacts: the state of the table, and the time in ms at which it was entered.
#[derive(Clone, Copy)]
pub struct ContactsState {
    phase: Phase,
    since: u32,
}

impl Phase {
    // The DiagCode.
    #[tactic(auto, unfolding(ps_model::specs::Blocks::block))]
    fn code(self) -> u16
        ensures code { result ≡ code_of self }
        ensures equivalent { is_state EquivalentKind (code_of self) ≡ true }
        ensures antivalent { is_state AntivalentKind (code_of self) ≡ true }
    {
        match self {
            Phase::Idle => 0,
            Phase::Init => 0x8001,
            Phase::WaitForB => 0x8004,
            Phase::WaitForA => 0x8014,
            Phase::Enabled => 0x8000,
            Phase::FromActiveWait => 0x8005,
            Phase::Error1 => 0xC001,
            Phase::Error2 => 0xC002,
            Phase::Error3 => 0xC003,
        }
    }

    // The state with a DiagCode, and None where the table has none.
    #[tactic(auto, unfolding(ps_model::specs::Blocks::block))]
    fn with_code(code: u16) -> Option<Phase>
        ensures some { IfSome result (λ p. code_of p ≡ code) }
        ensures state_equivalent { IfSome result (λ p. is_state EquivalentKind code ≡ true) }
        ensures none_equivalent { IfNone result (is_state EquivalentKind code ≡ false) }
        ensures state_antivalent { IfSome result (λ p. is_state AntivalentKind code ≡ true) }
        ensures none_antivalent { IfNone result (is_state AntivalentKind code ≡ false) }
    {
        Some(match code {
            0 => Phase::Idle,
            0x8001 => Phase::Init,
            0x8004 => Phase::WaitForB,
            0x8014 => Phase::WaitForA,
            0x8000 => Phase::Enabled,
            0x8005 => Phase::FromActiveWait,
            0xC001 => Phase::Error1,
            0xC002 => Phase::Error2,
            0xC003 => Phase::Error3,
            _ => return None,
        })
    }

    // The next state, by the table; b is the second contact, the other way round where it is normally
    // open.
    #[tactic(auto, unfolding(ps_model::specs::Blocks::next, ps_model::specs::Blocks::block))]
    fn next(self, seen: Seen, b: bool) -> Phase
        ensures equivalent { b ≡ pin_of seen.bits 2 → code_of result ≡ next EquivalentKind (code_of self) (conditions_of seen 0) }
        ensures antivalent { b ≡ not (pin_of seen.bits 2) → code_of result ≡ next AntivalentKind (code_of self) (conditions_of seen 0) }
    {
        let activate = seen.pin(0);
        let a = seen.pin(1);
        let both = a && b;
        let none = !a && !b;
        match self {
            _ if !activate => Phase::Idle,
            Phase::Idle => Phase::Init,
            Phase::Init if both => Phase::Enabled,
            Phase::Init if a => Phase::WaitForB,
            Phase::Init if b => Phase::WaitForA,
            Phase::WaitForB if seen.elapsed => Phase::Error1,
            Phase::WaitForB if !a => Phase::Init,
            Phase::WaitForB if b => Phase::Enabled,
            Phase::WaitForA if seen.elapsed => Phase::Error2,
            Phase::WaitForA if !b => Phase::Init,
            Phase::WaitForA if a => Phase::Enabled,
            Phase::Enabled if none => Phase::Init,
            Phase::Enabled if !both => Phase::FromActiveWait,
            Phase::FromActiveWait if seen.elapsed => Phase::Error3,
            Phase::FromActiveWait if none => Phase::Init,
            Phase::Error1 | Phase::Error2 | Phase::Error3 if none => Phase::Init,
            _ => self,
        }
    }
}

impl ContactsState {
    ghost use Rattle.ps_sensors.specs.Contacts.{kept_of};

    // The state before the first scan.
    fn fresh() -> ContactsState
        ensures { kept_of result ≡ fresh }
    {
        ContactsState {
            phase: Phase::Idle,
            since: 0,
        }
    }

    // One step; b is the second contact, the other way round where it is normally open.
    #[inline(always)]
    #[tactic(auto, unfolding(ps_model::specs::Blocks::block, ps_model::specs::Blocks::latched, ps_model::specs::Blocks::outs))]
    fn step(&mut self, pins: Pins, b: bool) -> Outs
        ensures equivalent { b ≡ pin_of pins.bits 2 → IsStep EquivalentKind pins (kept_of self.old) (kept_of self.new) result }
        ensures antivalent { b ≡ not (pin_of pins.bits 2) → IsStep AntivalentKind pins (kept_of self.old) (kept_of self.new) result }
    {
        let phase = self.phase.next(Seen::at(pins, self.since), b);
        if phase != self.phase {
            self.since = pins.now;
        }
        self.phase = phase;
        Outs::of(phase.code(), u16::from(phase == Phase::Enabled))
    }

    // Writes the sixteen bytes.
    fn store(&self, into: &mut [u8; 16])
        ensures equivalent { Loads EquivalentKind into.new (kept_of self.now) }
        ensures antivalent { Loads AntivalentKind into.new (kept_of self.now) }
    {
        let image = Image {
            code: self.phase.code(),
            last_reset: false,
            last_auxiliary: false,
            mode: 0,
            time: self.since,
        };
        image.write(into);
    }

    // The state that an image holds, and None exactly where its code is that of no state.
    fn from_image(image: Image) -> Option<ContactsState>
        ensures code { IfSome result (λ s. code_of s.phase ≡ image.code) }
        ensures time { IfSome result (λ s. s.since ≡ image.time) }
        ensures state_equivalent { IfSome result (λ s. is_state EquivalentKind image.code ≡ true) }
        ensures none_equivalent { IfNone result (is_state EquivalentKind image.code ≡ false) }
        ensures state_antivalent { IfSome result (λ s. is_state AntivalentKind image.code ≡ true) }
        ensures none_antivalent { IfNone result (is_state AntivalentKind image.code ≡ false) }
    {
        Some(ContactsState {
            phase: Phase::with_code(image.code)?,
            since: image.time,
        })
    }
}

/// SF_Equivalent (PLCopen TC5, in the profile of this project).
pub struct Equivalent;

impl SafetyBlock for Equivalent {
    ghost use Rattle.ps_sensors.specs.Contacts.{kept_of};

    const KIND: Kind = Kind::Equivalent;

    ghost KIND = { EquivalentKind };

    type State = ContactsState;

    ghost kept = { kept_of };

    fn fresh() -> ContactsState {
        ContactsState::fresh()
    }

    #[inline(always)]
    fn step(state: &mut ContactsState, pins: Pins) -> Outs {
        state.step(pins, pins.at(2))
    }

    fn store(state: &ContactsState, into: &mut [u8; 16]) {
        state.store(into);
    }

    #[tactic(auto, using(crate::proofs::SameContacts::same_kept, ps_block::proofs::Loading::loads_from, ps_block::proofs::Loading::no_state, ps_block::proofs::Loading::not_last), unfolding(ps_model::specs::Blocks::block))]
    fn load(from: &[u8; 16]) -> Option<ContactsState> {
        ContactsState::from_image(Image::read(Kind::Equivalent, from)?)
    }
}

/// SF_Antivalent (PLCopen TC5, in the profile of this project).
pub struct Antivalent;

impl SafetyBlock for Antivalent {
    ghost use Rattle.ps_sensors.specs.Contacts.{kept_of};

    const KIND: Kind = Kind::Antivalent;

    ghost KIND = { AntivalentKind };

    type State = ContactsState;

    ghost kept = { kept_of };

    fn fresh() -> ContactsState {
        ContactsState::fresh()
    }

    #[inline(always)]
    fn step(state: &mut ContactsState, pins: Pins) -> Outs {
        state.step(pins, !pins.at(2))
    }

    fn store(state: &ContactsState, into: &mut [u8; 16]) {
        state.store(into);
    }

    #[tactic(auto, using(crate::proofs::SameContacts::same_kept, ps_block::proofs::Loading::loads_from, ps_block::proofs::Loading::no_state, ps_block::proofs::Loading::not_last), unfolding(ps_model::specs::Blocks::block))]
    fn load(from: &[u8; 16]) -> Option<ContactsState> {
        ContactsState::from_image(Image::read(Kind::Antivalent, from)?)
    }
}
