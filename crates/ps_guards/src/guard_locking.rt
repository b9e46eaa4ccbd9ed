//! SF_GuardLocking (PLCopen TC5, in the profile of this project).

ghost use Rattle.std.specs.Prelude.{◌≡◌, true, false, IfSome, IfNone};
ghost use Rattle.ps_model.specs.Blocks.{next};
ghost use Rattle.ps_model.specs.PinBits.{pin_of};
ghost use Rattle.ps_model.specs.Stored.{is_state};
ghost use Rattle.ps_model.specs.declared.kind.Kind.TheVariants.{GuardLocking as GuardLockingKind};
ghost use Rattle.ps_block.specs.Seeing.{conditions_of};
ghost use Rattle.ps_guards.specs.GuardLockingStates.{code_of};

use ps_block::{Image, Outs, Pins, SafetyBlock, Seen};
use ps_model::Kind;

/// A state of the table, one for each DiagCode.
#[derive(Clone, Copy, PartialEq)]
pub enum Phase {
    Idle,
    Init,
    Locked,
    WaitForReset,
    ClosedUnlocked,
    OpenUnlocked,
    WaitForOperator,
    SafetyReturn,
    ResetError1,
    ResetError2,
    ResetError3,
    SafetyLost,
}

/// The state of a guard locking: the state of the table, the time in ms at which it was entered, and the
/// Reset of the last step.
#[derive(Clone, Copy)]
pub struct GuardLockingState {
    phase: Phase,
    since: u32,
    last_reset: bool,
}

impl Phase {
    // The DiagCode.
    #[tactic(auto, unfolding(ps_model::specs::Blocks::block))]
    fn code(self) -> u16
        ensures code { result ≡ code_of self }
        ensures state { is_state GuardLockingKind (code_of self) ≡ true }
    {
        match self {
            Phase::Idle => 0,
            Phase::Init => 0x8001,
            Phase::Locked => 0x8000,
            Phase::WaitForReset => 0x8003,
            Phase::ClosedUnlocked => 0x8013,
            Phase::OpenUnlocked => 0x8012,
            Phase::WaitForOperator => 0x8011,
            Phase::SafetyReturn => 0x8014,
            Phase::ResetError1 => 0xC001,
            Phase::ResetError2 => 0xC002,
            Phase::ResetError3 => 0xC003,
            Phase::SafetyLost => 0xC004,
        }
    }

    // The state with a DiagCode, and None where the table has none.
    #[tactic(auto, unfolding(ps_model::specs::Blocks::block))]
    fn with_code(code: u16) -> Option<Phase>
        ensures some { IfSome result (λ p. code_of p ≡ code) }
        ensures state { IfSome result (λ p. is_state GuardLockingKind code ≡ true) }
        ensures none { IfNone result (is_state GuardLockingKind code ≡ false) }
    {
        Some(match code {
            0 => Phase::Idle,
            0x8001 => Phase::Init,
            0x8000 => Phase::Locked,
            0x8003 => Phase::WaitForReset,
            0x8013 => Phase::ClosedUnlocked,
            0x8012 => Phase::OpenUnlocked,
            0x8011 => Phase::WaitForOperator,
            0x8014 => Phase::SafetyReturn,
            0xC001 => Phase::ResetError1,
            0xC002 => Phase::ResetError2,
            0xC003 => Phase::ResetError3,
            0xC004 => Phase::SafetyLost,
            _ => return None,
        })
    }

    // The next state, by the table.
    #[tactic(auto, unfolding(ps_model::specs::Blocks::next, ps_model::specs::Blocks::block))]
    fn next(self, seen: Seen) -> Phase
        ensures { code_of result ≡ next GuardLockingKind (code_of self) (conditions_of seen 0) }
    {
        if !seen.pin(0) {
            return Phase::Idle;
        }
        let reset = seen.pin(7);
        match self {
            Phase::Idle => Phase::Init,
            Phase::Init => after_init(seen),
            Phase::Locked => after_locked(seen),
            Phase::WaitForReset => after_wait_for_reset(seen),
            Phase::ClosedUnlocked => after_closed_unlocked(seen),
            Phase::OpenUnlocked => after_open_unlocked(seen),
            Phase::WaitForOperator => after_wait_for_operator(seen),
            Phase::SafetyReturn => after_safety_return(seen),
            Phase::ResetError1 if !reset => Phase::SafetyReturn,
            Phase::ResetError2 if !reset => Phase::WaitForReset,
            Phase::ResetError3 if !reset => Phase::WaitForOperator,
            Phase::SafetyLost if seen.edge => Phase::SafetyReturn,
            _ => self,
        }
    }
}

// The next state after Init, where Activate is TRUE.
#[tactic(auto, unfolding(ps_model::specs::Blocks::next, ps_model::specs::Blocks::block))]
fn after_init(seen: Seen) -> Phase
    requires { pin_of seen.bits 0 ≡ true }
    ensures { code_of result ≡ next GuardLockingKind (code_of Phase.Init) (conditions_of seen 0) }
{
    let closed = seen.pin(1);
    let lock = seen.pin(3);
    let start = seen.pin(5);
    if closed && lock && start {
        return Phase::Locked;
    }
    if closed && lock {
        return Phase::WaitForReset;
    }
    Phase::SafetyReturn
}

// The next state after Locked, where Activate is TRUE.
#[tactic(auto, unfolding(ps_model::specs::Blocks::next, ps_model::specs::Blocks::block))]
fn after_locked(seen: Seen) -> Phase
    requires { pin_of seen.bits 0 ≡ true }
    ensures { code_of result ≡ next GuardLockingKind (code_of Phase.Locked) (conditions_of seen 0) }
{
    let closed = seen.pin(1);
    let safe = seen.pin(2);
    let lock = seen.pin(3);
    let request = seen.pin(4);
    if !(closed && lock) {
        return Phase::SafetyLost;
    }
    if request && safe {
        return Phase::ClosedUnlocked;
    }
    Phase::Locked
}

// The next state after WaitForReset, where Activate is TRUE.
#[tactic(auto, unfolding(ps_model::specs::Blocks::next, ps_model::specs::Blocks::block))]
fn after_wait_for_reset(seen: Seen) -> Phase
    requires { pin_of seen.bits 0 ≡ true }
    ensures { code_of result ≡ next GuardLockingKind (code_of Phase.WaitForReset) (conditions_of seen 0) }
{
    let closed = seen.pin(1);
    let safe = seen.pin(2);
    let lock = seen.pin(3);
    let request = seen.pin(4);
    if !closed || !lock {
        return Phase::SafetyLost;
    }
    if request && safe {
        return Phase::ClosedUnlocked;
    }
    if seen.edge {
        return Phase::Locked;
    }
    if seen.static_reset {
        return Phase::ResetError2;
    }
    Phase::WaitForReset
}

// The next state after ClosedUnlocked, where Activate is TRUE.
#[tactic(auto, unfolding(ps_model::specs::Blocks::next, ps_model::specs::Blocks::block))]
fn after_closed_unlocked(seen: Seen) -> Phase
    requires { pin_of seen.bits 0 ≡ true }
    ensures { code_of result ≡ next GuardLockingKind (code_of Phase.ClosedUnlocked) (conditions_of seen 0) }
{
    let closed = seen.pin(1);
    let safe = seen.pin(2);
    let request = seen.pin(4);
    if !safe {
        return Phase::SafetyReturn;
    }
    if !closed {
        return Phase::OpenUnlocked;
    }
    if !request {
        return Phase::WaitForOperator;
    }
    Phase::ClosedUnlocked
}

// The next state after OpenUnlocked, where Activate is TRUE.
#[tactic(auto, unfolding(ps_model::specs::Blocks::next, ps_model::specs::Blocks::block))]
fn after_open_unlocked(seen: Seen) -> Phase
    requires { pin_of seen.bits 0 ≡ true }
    ensures { code_of result ≡ next GuardLockingKind (code_of Phase.OpenUnlocked) (conditions_of seen 0) }
{
    let closed = seen.pin(1);
    let safe = seen.pin(2);
    if !safe {
        return Phase::SafetyReturn;
    }
    if closed {
        return Phase::ClosedUnlocked;
    }
    Phase::OpenUnlocked
}

// The next state after WaitForOperator, where Activate is TRUE.
#[tactic(auto, unfolding(ps_model::specs::Blocks::next, ps_model::specs::Blocks::block))]
fn after_wait_for_operator(seen: Seen) -> Phase
    requires { pin_of seen.bits 0 ≡ true }
    ensures { code_of result ≡ next GuardLockingKind (code_of Phase.WaitForOperator) (conditions_of seen 0) }
{
    let closed = seen.pin(1);
    let safe = seen.pin(2);
    let lock = seen.pin(3);
    let request = seen.pin(4);
    let auto = seen.pin(6);
    if !closed {
        return Phase::SafetyReturn;
    }
    if request && safe {
        return Phase::ClosedUnlocked;
    }
    if lock && (auto || seen.edge) {
        return Phase::Locked;
    }
    if seen.static_reset {
        return Phase::ResetError3;
    }
    Phase::WaitForOperator
}

// The next state after SafetyReturn, where Activate is TRUE.
#[tactic(auto, unfolding(ps_model::specs::Blocks::next, ps_model::specs::Blocks::block))]
fn after_safety_return(seen: Seen) -> Phase
    requires { pin_of seen.bits 0 ≡ true }
    ensures { code_of result ≡ next GuardLockingKind (code_of Phase.SafetyReturn) (conditions_of seen 0) }
{
    let closed = seen.pin(1);
    let safe = seen.pin(2);
    let lock = seen.pin(3);
    if closed && lock {
        return Phase::WaitForReset;
    }
    if safe && seen.edge && closed {
        return Phase::ClosedUnlocked;
    }
    if safe && seen.edge {
        return Phase::OpenUnlocked;
    }
    if seen.static_reset {
        return Phase::ResetError1;
    }
    Phase::SafetyReturn
}

/// SF_GuardLocking (PLCopen TC5, in the profile of this project).
pub struct GuardLocking;

impl SafetyBlock for GuardLocking {
    ghost use Rattle.ps_guards.specs.GuardLockingStates.{kept_of};

    const KIND: Kind = Kind::GuardLocking;

    ghost KIND = { GuardLockingKind };

    type State = GuardLockingState;

    ghost kept = { kept_of };

    fn fresh() -> GuardLockingState {
        GuardLockingState {
            phase: Phase::Idle,
            since: 0,
            last_reset: false,
        }
    }

    #[inline(always)]
    fn step(state: &mut GuardLockingState, pins: Pins) -> Outs {
        let seen = Seen::at(pins, state.since).with_reset(7, state.last_reset);
        let phase = state.phase.next(seen);
        if phase != state.phase {
            state.since = pins.now;
        }
        state.phase = phase;
        state.last_reset = seen.pin(7);
        let locked = u16::from(phase == Phase::Locked);
        let unlock = u16::from(phase == Phase::OpenUnlocked || phase == Phase::ClosedUnlocked);
        Outs::of(phase.code(), locked + 2 * unlock)
    }

    fn store(state: &GuardLockingState, into: &mut [u8; 16]) {
        let image = Image {
            code: state.phase.code(),
            last_reset: state.last_reset,
            last_auxiliary: false,
            mode: 0,
            time: state.since,
        };
        image.write(into);
    }

    fn load(from: &[u8; 16]) -> Option<GuardLockingState> {
        let image = Image::read(Kind::GuardLocking, from)?;
        let phase = Phase::with_code(image.code)?;
        Some(GuardLockingState {
            phase,
            since: image.time,
            last_reset: image.last_reset,
        })
    }
}
