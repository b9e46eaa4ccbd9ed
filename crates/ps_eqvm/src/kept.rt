// The sixteen bytes of an instance, as they are stored: each is 255 less its plain value.

ghost use Rattle.std.specs.Prelude.{◌≡◌, ℕ, ◌+◌, ◌-◌, ◌^◌, ◌<◌, ◌≤◌, IfSome, IfNone, length, slice_index, take, drop};
ghost use Rattle.std.specs.Prelude.{true};
ghost use Rattle.std.specs.Int.{w64, to_be_bytes};
ghost use Rattle.ps_model.specs.Stored.{stored};
ghost use Rattle.ps_rows.specs.Counted.{kept_of};
ghost use Rattle.ps_machine.specs.Bytes.{replaced};
ghost use Rattle.ps_eqvm.specs.Plain.{complement};
ghost use Rattle.ps_eqvm.specs.Instances.{sixteen_at, LoadAs, LoadNowhere};

use ps_machine::{number_in_four, number_in_two};
use ps_rows::CountedBlock;

// Whether the seven bytes that are stored from a place on are 0: whether each is stored as 255.
#[inline(always)]
fn are_zero(stored: &[u8], at: usize) -> bool
    requires { at + 7 ≤ length stored.now }
    ensures each { result ≡ true → (k : ℕ) → k < 7 → slice_index stored.now (at + k) ≡ 255 }
    ensures all { ((k : ℕ) → k < 7 → slice_index stored.now (at + k) ≡ 255) → result ≡ true }
{
    number_in_four(stored, at) == u32::MAX && number_in_four(stored, at + 3) == u32::MAX
}

/// What the sixteen bytes that are stored from a place on say, for any kind that can keep it. None
/// comes where they load for no kind: where byte 2 or 3 is neither 0 nor 1, or one of the bytes 9 to 15
/// is not 0.
#[inline(always)]
pub fn read(stored: &[u8], at: usize) -> Option<CountedBlock>
    requires { at + 16 ≤ length stored.now }
    ensures some { IfSome result (λ block. LoadAs (sixteen_at at stored.now) (kept_of block)) }
    ensures none { IfNone result (LoadNowhere (sixteen_at at stored.now)) }
{
    let last_reset = !stored[at + 2];
    let last_auxiliary = !stored[at + 3];
    if last_reset > 1 || last_auxiliary > 1 || !are_zero(stored, at + 9) {
        return None;
    }
    Some(CountedBlock {
        code: !number_in_two(stored, at),
        last_reset: last_reset == 1,
        last_auxiliary: last_auxiliary == 1,
        mode: !stored[at + 4],
        remains: !number_in_four(stored, at + 5),
    })
}

// The bytes 0 to 7 of what an instance keeps as one number, byte 0 the highest: the code, the last inputs, the mode and
// all of the time but its last byte.
#[inline(always)]
fn head(block: CountedBlock) -> u64
    ensures { to_be_bytes w64 (2 ^ 64 - 1 - result) ≡ complement (take 8 (stored (kept_of block))) }
{
    u64::from(block.code) * (1 << 48)
        + u64::from(block.last_reset) * (1 << 40)
        + u64::from(block.last_auxiliary) * (1 << 32)
        + u64::from(block.mode) * (1 << 24)
        + u64::from(block.remains / 256)
}

// The bytes 8 to 15 in the same way: the last byte of the time, and seven that are 0.
#[inline(always)]
fn tail(block: CountedBlock) -> u64
    ensures { to_be_bytes w64 (2 ^ 64 - 1 - result) ≡ complement (drop 8 (stored (kept_of block))) }
{
    u64::from(block.remains % 256) * (1 << 56)
}

// Writes a number in eight bytes at a place, the highest first.
#[inline(always)]
fn put_eight(bytes: &mut [u8], at: usize, number: u64)
    requires { at + 8 ≤ length bytes.old }
    ensures { bytes.new ≡ replaced bytes.old at (to_be_bytes w64 number) }
{
    for (i, byte) in number.to_be_bytes().iter().enumerate() {
        bytes[at + i] = *byte;
    }
}

/// The sixteen bytes that are stored from a place on become those of what an instance keeps.
#[inline(always)]
pub fn store(bytes: &mut [u8], at: usize, block: CountedBlock)
    requires { at + 16 ≤ length bytes.old }
    ensures { bytes.new ≡ replaced bytes.old at (complement (stored (kept_of block))) }
{
    put_eight(bytes, at, !head(block));
    put_eight(bytes, at + 8, !tail(block));
}
