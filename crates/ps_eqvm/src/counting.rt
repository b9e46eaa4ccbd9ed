// Bytes of signals and instances of another channel, as channel B stores them.

ghost use Rattle.std.specs.Prelude.{◌≡◌, ◌+◌, ◌*◌, ◌≤◌, length, take, drop};
ghost use Rattle.ps_model.specs.declared.sizes.Sizes.{Sizes};
ghost use Rattle.ps_machine.specs.Bytes.{replaced};
ghost use Rattle.ps_eqvm.specs.Plain.{complement};
ghost use Rattle.ps_eqvm.specs.Restoring.{counted, counted_block, counted_blocks};

use ps_machine::{number_in_four, number_in_two, replace};

// The sixteen bytes of an instance become as channel B keeps them: the time that remains of the limit stands in the
// place of the time since which the state is there. All times are in ms.
fn count_block(bytes: &mut [u8], limit: u32, now: u32)
    requires { length bytes.old ≡ 16 }
    ensures { bytes.new ≡ counted_block limit now bytes.old }
{
    let remaining = if number_in_two(bytes, 0) == 0 {
        0
    } else {
        limit.saturating_sub(now.saturating_sub(number_in_four(bytes, 5)))
    };
    replace(bytes, 5, &remaining.to_be_bytes());
}

// The same for instance i.
fn count_instance(blocks: &mut [u8], i: usize, limit: u32, now: u32)
    requires { 16 * i + 16 ≤ length blocks.old }
    ensures { blocks.new ≡ replaced blocks.old (16 * i) (counted_block limit now (take 16 (drop (16 * i) blocks.old))) }
{
    count_block(&mut blocks[16 * i..16 * i + 16], limit, now);
}

// The same for every instance, by its limit.
fn count_instances(blocks: &mut [u8], limits: &[u32], now: u32)
    requires { length blocks.old ≡ 16 * length limits.now }
    ensures { blocks.new ≡ counted_blocks limits.now now blocks.old }
{
    for (i, limit) in limits.iter().enumerate() {
        count_instance(blocks, i, *limit, now);
    }
}

// Plain bytes become as channel B stores them.
pub(crate) fn complement(bytes: &mut [u8])
    ensures { bytes.new ≡ complement bytes.old }
{
    for byte in bytes.iter_mut() {
        *byte = 255 - *byte;
    }
}

// Bytes of signals and instances, as channels A and C keep them, become as channel B stores them.
pub(crate) fn store_counted(bytes: &mut [u8], limits: &[u32], now: u32)
    requires { 16 * length limits.now ≤ length bytes.old }
    ensures { (z : Sizes) → length bytes.old ≡ z.signals + 16 * z.instances → length limits.now ≡ z.instances →
        bytes.new ≡ complement (counted z limits.now now bytes.old) }
{
    let signals = bytes.len() - 16 * limits.len();
    count_instances(&mut bytes[signals..], limits, now);
    complement(bytes);
}
