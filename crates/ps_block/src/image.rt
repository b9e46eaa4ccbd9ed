//! The sixteen bytes that keep a state.

ghost use Rattle.std.specs.Prelude.{◌≡◌, ◌<◌, ◌^◌, ◌&&◌, ◌==◌, drop, IfSome, IfNone};
ghost use Rattle.std.specs.List.{list_all};
ghost use Rattle.ps_model.specs.declared.kind.Kind.{Kind};
ghost use Rattle.ps_model.specs.Blocks.{block};
ghost use Rattle.ps_model.specs.Kept.{Kept};
ghost use Rattle.ps_model.specs.Stored.{Loads, stored, is_last, is_mode};

use ps_model::{Kind, auxiliary_pin, reset_pin};

/// What the sixteen bytes of an instance hold (profile). Bytes 0 and 1 are the DiagCode, 2 the last
/// Reset, 3 the last auxiliary input, 4 the latched mode, and 5 to 8 the time in ms at which the state
/// was entered or restarted; numbers are big-endian, and bytes 9 to 15 are 0.
#[derive(Clone, Copy)]
pub struct Image {
    pub code: u16,
    pub last_reset: bool,
    pub last_auxiliary: bool,
    pub mode: u8,
    pub time: u32,
}

// Whether a kind with this pin, or with none, has such a last input.
fn may_be_last(pin: Option<u8>, byte: u8) -> bool
    ensures { result ≡ is_last pin byte }
{
    match pin {
        Some(_) => byte <= 1,
        None => byte == 0,
    }
}

// Whether a kind has such last inputs.
fn may_have(kind: Kind, reset: u8, auxiliary: u8) -> bool
    ensures { result ≡ (is_last (block kind).reset reset && is_last (block kind).auxiliary auxiliary) }
{
    may_be_last(reset_pin(kind), reset) && may_be_last(auxiliary_pin(kind), auxiliary)
}

// Whether a kind has such a latched mode in a state.
fn may_latch(kind: Kind, code: u16, mode: u8) -> bool
    ensures { result ≡ is_mode kind code mode }
{
    if kind == Kind::ModeSelector && (code == 0x8000 || code == 0x8004) {
        mode < 8
    } else {
        mode == 0
    }
}

// Whether the bytes 9 to 15 are 0. The last eight bytes are one number, so this is one test.
fn ends_in_zeros(from: &[u8; 16]) -> bool
    ensures { result ≡ list_all (λ b. b == 0) (drop 9 from.now) }
{
    match from.last_chunk::<8>() {
        Some(last) => u64::from_be_bytes(*last) % (1 << 56) == 0,
        None => false,
    }
}

impl Image {
    ghost use Rattle.ps_block.specs.Images.{kept_of, Reads};

    /// Writes the sixteen bytes.
    pub fn write(self, into: &mut [u8; 16])
        ensures bytes { into.new ≡ stored (kept_of self) }
        ensures time { self.time < 2 ^ 32 }
    {
        let [c0, c1] = self.code.to_be_bytes();
        let [t0, t1, t2, t3] = self.time.to_be_bytes();
        let reset = u8::from(self.last_reset);
        let auxiliary = u8::from(self.last_auxiliary);
        *into = [
            c0, c1, reset, auxiliary, self.mode, t0, t1, t2, t3, 0, 0, 0, 0, 0, 0, 0,
        ];
    }

    /// What sixteen bytes hold, and None where no state of the kind stores so, whatever its code: where
    /// byte 2, 3 or 4 or one of the bytes 9 to 15 is not as the kind keeps it.
    pub fn read(kind: Kind, from: &[u8; 16]) -> Option<Image>
        ensures some { IfSome result (Reads kind from.now) }
        ensures none { IfNone result ((k : Kept) → ¬ (Loads kind from.now k)) }
    {
        let [c0, c1, reset, auxiliary, mode, t0, t1, t2, t3, ..] = *from;
        let code = u16::from_be_bytes([c0, c1]);
        if !may_have(kind, reset, auxiliary) {
            return None;
        }
        if !may_latch(kind, code, mode) {
            return None;
        }
        if !ends_in_zeros(from) {
            return None;
        }
        Some(Image {
            code,
            last_reset: reset == 1,
            last_auxiliary: auxiliary == 1,
            mode,
            time: u32::from_be_bytes([t0, t1, t2, t3]),
        })
    }
}
