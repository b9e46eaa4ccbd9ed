// BLOCK: one step of an instance.

ghost use Rattle.std.specs.Prelude.{◌≡◌, ◌≢◌, ℕ, ◌+◌, ◌*◌, ◌<◌, ◌≤◌, Option, IfSome, IfNone, if◌then◌else◌, length};
ghost use Rattle.std.specs.Prelude.{false, true};
ghost use Rattle.std.specs.List.{list_any};
ghost use Rattle.ps_model.specs.Blocks.{output_count};
ghost use Rattle.ps_model.specs.Budgets.{boolean_count};
ghost use Rattle.ps_model.specs.Stored.{loaded};
ghost use Rattle.ps_machine.specs.Bytes.{instance_bytes};
ghost use Rattle.ps_model.specs.PinBits.{pin_of};
ghost use Rattle.ps_eqvm.specs.Plain.{IsSized};
ghost use Rattle.ps_eqvm.specs.Rows.{operands};
ghost use Rattle.ps_eqvm.specs.Acting.{after_block, block_as, trapped, after_step, pin_bytes, pins_on, is_missing};
ghost use Rattle.ps_eqvm.specs.Acting.{is_odd};
ghost use Rattle.ps_eqvm.specs.Pins.{Reads};
ghost use Rattle.ps_eqvm.specs.Finding.{found_of};

use crate::layout::{INSTANCE_SIZE, WORK_CELLS};
use crate::operand::Found;
use crate::plain::PlainCells;
use crate::trap::Trap;
use crate::words::with_bit;
use ps_machine::number_in_two;
use ps_model::Kind;
use ps_rows::{all_outputs, boolean_pins, kind_with_number};

/// What a look at the operands of a row finds.
#[derive(Clone, Copy)]
pub enum Pins {
    /// One of them is bad.
    Missing,
    /// None is bad, and a byte is neither 0 nor 1.
    Odd,
    /// Bit j is pin j.
    Bits(u32),
}

/// What a BLOCK row names beside its kind: the instance, its first output signal and its limit in ms.
/// `signals` is how many signals there are, and `next` is where the following row stands.
#[derive(Clone, Copy)]
pub struct Site {
    pub signals: u16,
    pub instance: u16,
    pub first: u16,
    pub limit: u32,
    pub next: u32,
}

// Of so many operands from a place of the code on, among so many signals, which bytes are 1: bit j is operand j. None
// comes where one of them is bad.
#[inline(always)]
fn ones_of(plain: &PlainCells, signals: u16, code: &[u8], from: usize, count: u8) -> Option<u32>
    requires sized { length plain.now.cells ≡ WORK_CELLS + signals }
    requires whole { from + 2 * count ≤ length code.now }
    requires few { count ≤ 32 }
    ensures some { IfSome result (λ bits. pin_of bits ≡ pins_on (pin_bytes signals plain.now.cells (operands code.now from count))) }
    ensures whole { IfSome result (λ bits. list_any is_missing (pin_bytes signals plain.now.cells (operands code.now from count)) ≡ false) }
    ensures none { IfNone result (list_any is_missing (pin_bytes signals plain.now.cells (operands code.now from count)) ≡ true) }
{
    let mut bits = 0;
    for j in 0..count {
        let on = plain.is_one(signals, number_in_two(code, from + 2 * j as usize))?;
        bits = with_bit(bits, j, on);
    }
    Some(bits)
}

// The pins that so many operands from a place of the code on give, among so many signals. A bad one counts before an
// odd one. Where all cells are even, no odd bit is looked at.
#[inline(always)]
fn pins_of(plain: &PlainCells, signals: u16, code: &[u8], from: usize, count: u8) -> Pins
    requires sized { length plain.now.cells ≡ WORK_CELLS + signals }
    requires whole { from + 2 * count ≤ length code.now }
    requires few { count ≤ 32 }
    ensures { Reads result (pin_bytes signals plain.now.cells (operands code.now from count)) }
{
    match ones_of(plain, signals, code, from, count) {
        None => Pins::Missing,
        Some(bits) => {
            if plain.are_even() || !has_odd(plain, signals, code, from, count) {
                Pins::Bits(bits)
            } else {
                Pins::Odd
            }
        }
    }
}

// Whether the operand was bad.
fn was_bad(found: Found) -> bool
    ensures { (byte : Option ℕ) → found ≡ found_of byte → result ≡ is_missing byte }
{
    match found {
        Found::Missing => true,
        Found::Odd => false,
        Found::Truth(_) => false,
    }
}

// Whether the operand was odd.
fn was_odd(found: Found) -> bool
    ensures { (byte : Option ℕ) → found ≡ found_of byte → result ≡ is_odd byte }
{
    match found {
        Found::Missing => false,
        Found::Odd => true,
        Found::Truth(_) => false,
    }
}

// Whether one of so many operands from a place of the code on is odd, among so many signals.
#[cold]
#[inline(never)]
fn has_odd(plain: &PlainCells, signals: u16, code: &[u8], from: usize, count: u8) -> bool
    requires sized { length plain.now.cells ≡ WORK_CELLS + signals }
    requires whole { from + 2 * count ≤ length code.now }
    ensures { result ≡ list_any is_odd (pin_bytes signals plain.now.cells (operands code.now from count)) }
{
    for j in 0..count {
        if was_odd(plain.find(signals, number_in_two(code, from + 2 * j as usize))) {
            return true;
        }
    }
    false
}

// Whether one of so many operands from a place of the code on is bad, among so many signals.
fn has_bad(plain: &PlainCells, signals: u16, code: &[u8], from: usize, count: u8) -> bool
    requires sized { length plain.now.cells ≡ WORK_CELLS + signals }
    requires whole { from + 2 * count ≤ length code.now }
    ensures { result ≡ list_any is_missing (pin_bytes signals plain.now.cells (operands code.now from count)) }
{
    for j in 0..count {
        if was_bad(plain.find(signals, number_in_two(code, from + 2 * j as usize))) {
            return true;
        }
    }
    false
}

/// BLOCK of an instance, of which there are so many, as the kind with a number, with so many operands
/// from a place of the code on. It is a part of its caller, all of it but for the traps, so that a number that
/// is a constant there leaves one kind's code.
#[inline(always)]
pub fn block(
    plain: &mut PlainCells,
    instances: u16,
    kind: u8,
    site: Site,
    code: &[u8],
    from: usize,
    count: u8,
)
    requires sized { IsSized site.signals instances plain.old }
    requires whole { from + 2 * count ≤ length code.now }
    ensures { plain.new ≡ after_block site.signals instances site.instance kind site.first site.limit (operands code.now from count) site.next plain.old }
{
    if site.instance >= instances {
        return plain.trap(Trap::NoInstance);
    }
    match kind_with_number(kind) {
        Some(kind) => block_as(plain, kind, site, code, from, count),
        None => plain.trap(Trap::NoInstance),
    }
}

// BLOCK of an instance that is there.
#[inline(always)]
fn block_as(plain: &mut PlainCells, kind: Kind, site: Site, code: &[u8], from: usize, count: u8)
    requires cells { length plain.old.cells ≡ WORK_CELLS + site.signals }
    requires blocks { INSTANCE_SIZE * site.instance + INSTANCE_SIZE ≤ length plain.old.blocks }
    requires whole { from + 2 * count ≤ length code.now }
    ensures { plain.new ≡ block_as site.signals site.instance site.first site.limit kind (pin_bytes site.signals plain.old.cells (operands code.now from count)) site.next plain.old }
{
    if u32::from(site.first) + u32::from(all_outputs(kind)) > u32::from(site.signals) {
        return plain.trap(Trap::OutOfRange);
    }
    if count != boolean_pins(kind) {
        return trap_miscount(plain, site.signals, code, from, count);
    }
    match pins_of(plain, site.signals, code, from, count) {
        Pins::Missing => plain.trap(Trap::OutOfRange),
        Pins::Odd => plain.trap(Trap::NotBoolean),
        Pins::Bits(bits) => step_as(plain, kind, bits, site),
    }
}

// BLOCK with a wrong number of operands: all of them are judged first.
#[cold]
#[inline(never)]
fn trap_miscount(plain: &mut PlainCells, signals: u16, code: &[u8], from: usize, count: u8)
    requires cells { length plain.old.cells ≡ WORK_CELLS + signals }
    requires whole { from + 2 * count ≤ length code.now }
    ensures { plain.new ≡ (if list_any is_missing (pin_bytes signals plain.old.cells (operands code.now from count)) then trapped Trap.OutOfRange plain.old else trapped Trap.PinCount plain.old) }
{
    if has_bad(plain, signals, code, from, count) {
        plain.trap(Trap::OutOfRange)
    } else {
        plain.trap(Trap::PinCount)
    }
}

// The step of an instance as a kind, with pins that are there.
#[inline(always)]
fn step_as(plain: &mut PlainCells, kind: Kind, bits: u32, site: Site)
    requires cells { length plain.old.cells ≡ WORK_CELLS + site.signals }
    requires blocks { INSTANCE_SIZE * site.instance + INSTANCE_SIZE ≤ length plain.old.blocks }
    requires outs { site.first + output_count kind ≤ site.signals }
    ensures { plain.new ≡ after_step site.instance site.first site.limit kind (pin_of bits) site.next (loaded kind (instance_bytes 0 site.instance plain.old.blocks)) plain.old }
{
    match plain.instance(site.instance as usize) {
        None => plain.trap(Trap::NotLoaded),
        Some(block) => match block.stepped_if_kept(kind, bits, site.limit, plain.passed()) {
            None => plain.trap(Trap::NotLoaded),
            Some(after) => plain.settle(kind, after, site.instance, site.first, site.next),
        },
    }
}
