// Pins from the pin cells.

ghost use Rattle.std.specs.Prelude.{◌≡◌, ℕ, true, false, ◌≤◌, length, IfSome, IfNone};
ghost use Rattle.std.specs.List.{list_any};
ghost use Rattle.ps_machine.specs.Bytes.{is_no_bit};
ghost use Rattle.ps_model.specs.PinBits.{pin_of};
ghost use Rattle.ps_stackvm.specs.Calling.{pins_in};
ghost use Rattle.ps_decision.specs.Cells.{pin_bytes};

use crate::layout::{PINS_AT, SIGNALS_AT};

// The pins that the first pin cells give, so many of them: bit j is TRUE where byte j of them is 1. None where one of
// them is neither 0 nor 1. The last is read first, and each moves those before it one place up.
pub(crate) fn pins_in_cells(cells: &[u8], count: u8) -> Option<u32>
    requires room { SIGNALS_AT ≤ length cells.now }
    requires few { count ≤ 13 }
    ensures some { IfSome result (λ bits. (j : ℕ) → pin_of bits j ≡ pins_in (pin_bytes count cells.now) j) }
    ensures all { IfSome result (λ bits. list_any is_no_bit (pin_bytes count cells.now) ≡ false) }
    ensures none { IfNone result (list_any is_no_bit (pin_bytes count cells.now) ≡ true) }
{
    let mut bits = 0;
    for k in 0..count {
        let byte = cells[PINS_AT + (count - 1 - k) as usize];
        if byte > 1 {
            return None;
        }
        bits = 2 * bits + u32::from(byte);
    }
    Some(bits)
}
