// One step of an instance by its mask rows, with a timer that counts down.

ghost use Rattle.std.specs.Prelude.{◌≡◌, ◌<◌, ◌≤◌, ◌==◌, ◌&&◌, true, Some, IfSome, IfNone, bit_and, if◌then◌else◌};
ghost use Rattle.std.specs.List.{range_with_len};
ghost use Rattle.ps_model.specs.Blocks.{block, lowest_on};
ghost use Rattle.ps_model.specs.declared.kind.Kind.{Kind};
ghost use Rattle.ps_model.specs.declared.kind.Kind.TheVariants.{ModeSelector};
ghost use Rattle.ps_model.specs.Kept.{fresh, seen, stepped, counted_down};
ghost use Rattle.ps_model.specs.Stored.{bit, is_last, is_mode, IsKept};
ghost use Rattle.ps_model.specs.PinBits.{pin_of};
ghost use Rattle.ps_rows.specs.Decision.{decision};
ghost use Rattle.ps_rows.specs.Counted.{kept_of, mode_after};

use crate::last_pins::{is_on, last_pins, may_keep};
use crate::mask_row::{ANEW, LATCH};
use crate::table::next_of;
use crate::view::{BlockView, conditions_in, pin};
use ps_model::Kind;

/// What a channel keeps of an instance whose timer counts down (profile).
#[derive(Clone, Copy)]
pub struct CountedBlock {
    /// The DiagCode of the state.
    pub code: u16,
    /// Reset of the last step; FALSE for a kind without Reset.
    pub last_reset: bool,
    /// S_SetMode of SF_ModeSelector or ProcessControl of SF_OutControl of the last step; FALSE for
    /// other kinds.
    pub last_auxiliary: bool,
    /// The mode of SF_ModeSelector while one is latched, and 0 elsewhere.
    pub mode: u8,
    /// The time in ms that remains of the limit.
    pub remains: u32,
}

impl CountedBlock {
    /// Idle before the first step: everything is FALSE or 0, for any kind.
    #[tactic(auto, using(crate::proofs::Stepping::fresh_kept))]
    pub fn idle() -> CountedBlock
        ensures fresh { kept_of result ≡ fresh }
        ensures kept { (kind : Kind) → IsKept kind (kept_of result) }
    {
        CountedBlock {
            code: 0,
            last_reset: false,
            last_auxiliary: false,
            mode: 0,
            remains: 0,
        }
    }

    /// The block after a step with these Boolean pins (bit j is pin j) and this limit in ms, `passed`
    /// ms after the last one. The limit has elapsed where nothing remains.
    pub fn stepped(self, kind: Kind, bits: u32, limit: u32, passed: u32) -> CountedBlock
        requires { IsKept kind (kept_of self) }
        ensures counted { kept_of result ≡ counted_down kind limit (pin_of bits) passed (kept_of self) }
        ensures kept { IsKept kind (kept_of result) }
    {
        let remains = self.remains.saturating_sub(passed);
        match self.decided(kind, bits, remains) {
            // No state of the kind, which what is kept excludes.
            None => self,
            Some(decided) => self.after(kind, bits, limit, remains, decided),
        }
    }

    /// The same step of what may be nothing that the kind keeps, and None exactly where it is not: where
    /// the code is no state of the kind, a last input is TRUE that the kind lacks, or a mode stands where
    /// none is latched or is over 7.
    #[inline(always)]
    pub fn stepped_if_kept(
        self,
        kind: Kind,
        bits: u32,
        limit: u32,
        passed: u32,
    ) -> Option<CountedBlock>
        ensures was { IfSome result (λ after. IsKept kind (kept_of self)) }
        ensures counted { IfSome result (λ after. kept_of after ≡ counted_down kind limit (pin_of bits) passed (kept_of self)) }
        ensures kept { IfSome result (λ after. IsKept kind (kept_of after)) }
        ensures none { IfNone result (¬ (IsKept kind (kept_of self))) }
    {
        if !self.fits(kind) {
            return None;
        }
        let remains = self.remains.saturating_sub(passed);
        let decided = self.decided(kind, bits, remains)?;
        Some(self.after(kind, bits, limit, remains, decided))
    }

    // Whether the last inputs and the mode are what a kind can keep in this state.
    #[inline(always)]
    fn fits(self, kind: Kind) -> bool
        ensures { result ≡ (is_last (block kind).reset (bit self.last_reset) && is_last (block kind).auxiliary (bit self.last_auxiliary) && is_mode kind self.code self.mode) }
    {
        let pins = last_pins(kind);
        may_keep(self.last_reset, pins.reset)
            && may_keep(self.last_auxiliary, pins.auxiliary)
            && may_latch(kind, self.code, self.mode)
    }

    // What the rows of a kind decide: the next state and the action, and None exactly where the code
    // is no state.
    #[inline(always)]
    fn decided(self, kind: Kind, bits: u32, remains: u32) -> Option<(u16, u8)>
        requires { self.mode ≤ 7 }
        ensures { result ≡ decision kind self.code (seen kind (pin_of bits) (remains == 0) (kept_of self)) }
    {
        let view = BlockView {
            bits,
            last_reset: self.last_reset,
            last_aux: self.last_auxiliary,
            mode: self.mode,
            elapsed: remains == 0,
        };
        next_of(kind, self.code, conditions_in(kind, &view))
    }

    // The block after the step that the rows have decided.
    #[inline(always)]
    fn after(
        self,
        kind: Kind,
        bits: u32,
        limit: u32,
        remains: u32,
        decided: (u16, u8),
    ) -> CountedBlock
        requires kept { IsKept kind (kept_of self) }
        requires decides { Some decided ≡ decision kind self.code (seen kind (pin_of bits) (remains == 0) (kept_of self)) }
        ensures counted { kept_of result ≡ stepped kind (pin_of bits) (remains == 0) limit remains (kept_of self) }
        ensures kept { IsKept kind (kept_of result) }
    {
        let (code, action) = decided;
        let pins = last_pins(kind);
        CountedBlock {
            code,
            last_reset: is_on(bits, pins.reset),
            last_auxiliary: is_on(bits, pins.auxiliary),
            mode: mode_after(kind, action, code, bits, self.mode),
            remains: timer_after(action, limit, remains),
        }
    }
}

// Whether a kind has such a latched mode in a state.
#[inline(always)]
fn may_latch(kind: Kind, code: u16, mode: u8) -> bool
    ensures { result ≡ is_mode kind code mode }
{
    match (kind, code) {
        (Kind::ModeSelector, 0x8000 | 0x8004) => mode < 8,
        _ => mode == 0,
    }
}

// The mode after a step to the state with this code: that of SF_ModeSelector is latched, kept in 8000
// and 8004, and 0 elsewhere; that of other kinds is 0.
#[inline(always)]
fn mode_after(kind: Kind, action: u8, code: u16, bits: u32, mode: u8) -> u8
    ensures { result ≡ mode_after kind action code (pin_of bits) mode }
{
    match kind {
        Kind::ModeSelector => selected_mode(action, code, bits, mode),
        _ => 0,
    }
}

// The mode of SF_ModeSelector after a step.
#[inline(always)]
fn selected_mode(action: u8, code: u16, bits: u32, mode: u8) -> u8
    ensures { result ≡ mode_after ModeSelector action code (pin_of bits) mode }
{
    if action & LATCH == LATCH {
        lowest_mode(bits)
    } else if code == 0x8000 || code == 0x8004 {
        mode
    } else {
        0
    }
}

// The lowest TRUE mode, and mode 0 where none is TRUE.
fn lowest_mode(bits: u32) -> u8
    ensures { result ≡ lowest_on (range_with_len 0 8) (pin_of bits) }
{
    if pin(bits, 1) {
        0
    } else if pin(bits, 2) {
        1
    } else if pin(bits, 3) {
        2
    } else if pin(bits, 4) {
        3
    } else if pin(bits, 5) {
        4
    } else if pin(bits, 6) {
        5
    } else if pin(bits, 7) {
        6
    } else if pin(bits, 8) {
        7
    } else {
        0
    }
}

// The time that remains after a step: the limit where the timer begins anew.
#[inline(always)]
fn timer_after(action: u8, limit: u32, remains: u32) -> u32
    ensures { result ≡ (if bit_and action 1 == 1 then limit else remains) }
{
    if action & ANEW == ANEW {
        limit
    } else {
        remains
    }
}
