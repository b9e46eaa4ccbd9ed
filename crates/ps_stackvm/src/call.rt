// CALL: one step of an instance.

ghost use Rattle.std.specs.Prelude.{◌≡◌, ◌≢◌, ℕ, ◌+◌, ◌*◌, ◌≤◌, if◌then◌else◌, true, false, length, slice_index};
ghost use Rattle.ps_model.specs.Blocks.{output_count};
ghost use Rattle.ps_model.specs.Budgets.{boolean_count};
ghost use Rattle.ps_model.specs.Stored.{loaded};
ghost use Rattle.ps_model.specs.PinBits.{pin_of};
ghost use Rattle.ps_stackvm.specs.Cells.{block_bytes, progress_of, trapped, with_pc};
ghost use Rattle.ps_stackvm.specs.Calling.{after_call, called_as, called_with, pins_in, topmost};

use crate::cells::{time, trap};
use crate::instance::step_instance;
use crate::layout::{HEIGHT_AT, INSTANCE_SIZE, SIGNALS_AT, STACK_SIZE};
use crate::pins::pins_on_stack;
use crate::trap::Trap;
use ps_actuators::{Edm, OutControl, SafetyRequest};
use ps_block::{Pins, SafetyBlock};
use ps_guards::{GuardLocking, GuardMonitoring};
use ps_machine::kind_by_number;
use ps_model::{Kind, boolean_count, output_count};
use ps_operator::{EnableSwitch, ModeSelector, TwoHandThree, TwoHandTwo};
use ps_sensors::{Antivalent, EmergencyStop, Equivalent, Espe};

// What a CALL names beside a kind: the instance, its first output signal and its limit in ms. `signals` is how many
// signals there are.
#[derive(Clone, Copy)]
pub(crate) struct Site {
    pub signals: u16,
    pub instance: u16,
    pub first: u16,
    pub limit: u32,
}

impl Site {
    // Where the sixteen bytes of the instance begin.
    fn place(self) -> usize
        ensures { result ≡ SIGNALS_AT + self.signals + INSTANCE_SIZE * self.instance }
    {
        SIGNALS_AT + self.signals as usize + INSTANCE_SIZE * self.instance as usize
    }
}

// Marks a trap, in place of a step.
fn refuse(cells: &mut [u8], reason: Trap) -> bool
    requires { SIGNALS_AT ≤ length cells.old }
    ensures step { result ≡ false }
    ensures cells { cells.new ≡ trapped reason cells.old }
    ensures ended { progress_of cells.new ≢ 0 }
{
    trap(cells, reason);
    false
}

// CALL of an instance, of which there are so many, as the kind with a number, in a scan that runs. Whether the instance
// was stepped: then the place of the next instruction is still to be written, and else there was a trap.
pub(crate) fn call(cells: &mut [u8], instances: u16, kind: u8, site: Site) -> bool
    requires room { SIGNALS_AT + site.signals + INSTANCE_SIZE * instances ≤ length cells.old }
    requires runs { progress_of cells.old ≡ 0 }
    ensures cells { (next : ℕ) → (if result then with_pc next cells.new else cells.new) ≡ after_call site.signals instances site.instance kind site.first site.limit next cells.old }
    ensures runs { result ≡ true → progress_of cells.new ≡ 0 }
    ensures ended { result ≡ false → progress_of cells.new ≢ 0 }
{
    if site.instance >= instances {
        return refuse(cells, Trap::NoInstance);
    }
    match kind_by_number(kind) {
        Some(kind) => call_as(cells, kind, site),
        None => refuse(cells, Trap::NoInstance),
    }
}

// CALL of an instance that is there.
fn call_as(cells: &mut [u8], kind: Kind, site: Site) -> bool
    requires room { SIGNALS_AT + site.signals + INSTANCE_SIZE * site.instance + 16 ≤ length cells.old }
    requires runs { progress_of cells.old ≡ 0 }
    ensures cells { (next : ℕ) → (if result then with_pc next cells.new else cells.new) ≡ called_as site.signals site.instance site.first site.limit next kind cells.old }
    ensures runs { result ≡ true → progress_of cells.new ≡ 0 }
    ensures ended { result ≡ false → progress_of cells.new ≢ 0 }
{
    match kind {
        Kind::Equivalent => call_block::<Equivalent>(cells, site),
        Kind::Antivalent => call_block::<Antivalent>(cells, site),
        Kind::EmergencyStop => call_block::<EmergencyStop>(cells, site),
        Kind::Espe => call_block::<Espe>(cells, site),
        Kind::ModeSelector => call_block::<ModeSelector>(cells, site),
        Kind::TwoHandTwo => call_block::<TwoHandTwo>(cells, site),
        Kind::TwoHandThree => call_block::<TwoHandThree>(cells, site),
        Kind::GuardMonitoring => call_block::<GuardMonitoring>(cells, site),
        Kind::GuardLocking => call_block::<GuardLocking>(cells, site),
        Kind::EnableSwitch => call_block::<EnableSwitch>(cells, site),
        Kind::SafetyRequest => call_block::<SafetyRequest>(cells, site),
        Kind::OutControl => call_block::<OutControl>(cells, site),
        Kind::Edm => call_block::<Edm>(cells, site),
    }
}

// The same as a block. What the site has is passed part by part, in registers: a struct would go through memory.
#[inline(always)]
fn call_block<B: SafetyBlock>(cells: &mut [u8], site: Site) -> bool
    requires room { SIGNALS_AT + site.signals + INSTANCE_SIZE * site.instance + 16 ≤ length cells.old }
    requires runs { progress_of cells.old ≡ 0 }
    ensures cells { (next : ℕ) → (if result then with_pc next cells.new else cells.new) ≡ called_as site.signals site.instance site.first site.limit next B.KIND cells.old }
    ensures runs { result ≡ true → progress_of cells.new ≡ 0 }
    ensures ended { result ≡ false → progress_of cells.new ≢ 0 }
{
    call_apart::<B>(cells, site.signals, site.instance, site.first, site.limit)
}

// The same, with a code of its own for each kind, in which the counts of pins and outputs are constants. It is kept out
// of the turn, so that the short instructions do not save the registers that a step of a block needs.
#[inline(never)]
#[tactic(auto, using(crate::proofs::Calls::has_pins))]
fn call_apart<B: SafetyBlock>(
    cells: &mut [u8],
    signals: u16,
    instance: u16,
    first: u16,
    limit: u32,
) -> bool
    requires room { SIGNALS_AT + signals + INSTANCE_SIZE * instance + 16 ≤ length cells.old }
    requires runs { progress_of cells.old ≡ 0 }
    ensures cells { (next : ℕ) → (if result then with_pc next cells.new else cells.new) ≡ called_as signals instance first limit next B.KIND cells.old }
    ensures runs { result ≡ true → progress_of cells.new ≡ 0 }
    ensures ended { result ≡ false → progress_of cells.new ≢ 0 }
{
    if u32::from(first) + u32::from(output_count(B::KIND)) > u32::from(signals) {
        return refuse(cells, Trap::NoSignal);
    }
    let count = boolean_count(B::KIND);
    if cells[HEIGHT_AT] > STACK_SIZE || cells[HEIGHT_AT] < count {
        return refuse(cells, Trap::StackHeight);
    }
    match pins_on_stack(cells, count) {
        Some(bits) => {
            let site = Site {
                signals,
                instance,
                first,
                limit,
            };
            step_block::<B>(cells, bits, site)
        }
        None => refuse(cells, Trap::NotBoolean),
    }
}

// The step of an instance as a block, with pins that are there. It pops them.
fn step_block<B: SafetyBlock>(cells: &mut [u8], bits: u32, site: Site) -> bool
    requires end { SIGNALS_AT + site.signals + INSTANCE_SIZE * site.instance + 16 ≤ length cells.old }
    requires outs { site.first + output_count B.KIND ≤ site.signals }
    requires low { slice_index cells.old HEIGHT_AT ≤ STACK_SIZE }
    requires tall { boolean_count B.KIND ≤ slice_index cells.old HEIGHT_AT }
    requires pins { (j : ℕ) → pin_of bits j ≡ pins_in (topmost (boolean_count B.KIND) cells.old) j }
    requires runs { progress_of cells.old ≡ 0 }
    ensures cells { (next : ℕ) → (if result then with_pc next cells.new else cells.new) ≡ called_with site.signals site.instance site.first site.limit next B.KIND (loaded B.KIND (block_bytes site.signals site.instance cells.old)) cells.old }
    ensures runs { result ≡ true → progress_of cells.new ≡ 0 }
    ensures ended { result ≡ false → progress_of cells.new ≢ 0 }
{
    let height = cells[HEIGHT_AT] - boolean_count(B::KIND);
    let pins = Pins {
        bits,
        limit: site.limit,
        now: time(cells),
    };
    let first = SIGNALS_AT + site.first as usize;
    if !step_instance::<B>(cells, site.place(), first, pins) {
        return refuse(cells, Trap::NoState);
    }
    cells[HEIGHT_AT] = height;
    true
}
