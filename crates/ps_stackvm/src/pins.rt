// Pins from the stack.

ghost use Rattle.std.specs.Prelude.{◌≡◌, ℕ, true, false, ◌+◌, ◌-◌, ◌≤◌, ◌<◌, length, drop, slice_index, IfSome, IfNone};
ghost use Rattle.std.specs.List.{list_any};
ghost use Rattle.ps_machine.specs.Bytes.{is_no_bit};
ghost use Rattle.ps_model.specs.PinBits.{pin_of};
ghost use Rattle.ps_stackvm.specs.Calling.{pins_in, topmost};

use crate::layout::{HEIGHT_AT, SIGNALS_AT, STACK_AT, STACK_SIZE};

// The pins that the last bytes give, at most eight: bit j is TRUE where byte j of them is 1. None where one of them is
// neither 0 nor 1. They are read as one number, with one test for all, and gathered by one multiplication, which puts
// the lowest bit of byte j at bit j of the highest byte.
fn few_pins(bytes: &[u8], count: u8) -> Option<u32>
    requires long { 8 ≤ length bytes.now }
    requires some { 1 ≤ count }
    requires few { count ≤ 8 }
    ensures some { IfSome result (λ bits. (j : ℕ) → pin_of bits j ≡ pins_in (drop (length bytes.now - count) bytes.now) j) }
    ensures short { IfSome result (λ bits. bits < 256) }
    ensures all { IfSome result (λ bits. list_any is_no_bit (drop (length bytes.now - count) bytes.now) ≡ false) }
    ensures none { IfNone result (list_any is_no_bit (drop (length bytes.now - count) bytes.now) ≡ true) }
{
    let Some(last) = bytes.last_chunk::<8>() else {
        unreachable!()
    };
    let number = u64::from_le_bytes(*last) >> (64 - 8 * u32::from(count));
    if number & 0xFEFE_FEFE_FEFE_FEFE != 0 {
        return None;
    }
    Some((number.wrapping_mul(0x0102_0408_1020_4080) >> 56) as u32)
}

// The same for more than eight bytes: the first eight of them, and those after.
fn more_pins(bytes: &[u8], count: u8) -> Option<u32>
    requires long { count ≤ length bytes.now }
    requires more { 9 ≤ count }
    requires few { count ≤ 16 }
    ensures some { IfSome result (λ bits. (j : ℕ) → pin_of bits j ≡ pins_in (drop (length bytes.now - count) bytes.now) j) }
    ensures all { IfSome result (λ bits. list_any is_no_bit (drop (length bytes.now - count) bytes.now) ≡ false) }
    ensures none { IfNone result (list_any is_no_bit (drop (length bytes.now - count) bytes.now) ≡ true) }
{
    let behind = count - 8;
    let low = few_pins(&bytes[..bytes.len() - behind as usize], 8)?;
    let high = few_pins(bytes, behind)?;
    Some(high * 256 + low)
}

// The pins that the topmost bytes of the stack give, so many of them.
pub(crate) fn pins_on_stack(cells: &[u8], count: u8) -> Option<u32>
    requires room { SIGNALS_AT ≤ length cells.now }
    requires low { slice_index cells.now HEIGHT_AT ≤ STACK_SIZE }
    requires tall { count ≤ slice_index cells.now HEIGHT_AT }
    requires some { 1 ≤ count }
    requires few { count ≤ 16 }
    ensures some { IfSome result (λ bits. (j : ℕ) → pin_of bits j ≡ pins_in (topmost count cells.now) j) }
    ensures all { IfSome result (λ bits. list_any is_no_bit (topmost count cells.now) ≡ false) }
    ensures none { IfNone result (list_any is_no_bit (topmost count cells.now) ≡ true) }
{
    let bytes = &cells[..STACK_AT + cells[HEIGHT_AT] as usize];
    if count <= 8 {
        few_pins(bytes, count)
    } else {
        more_pins(bytes, count)
    }
}
