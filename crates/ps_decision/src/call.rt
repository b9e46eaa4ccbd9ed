// CALL: one step of an instance.

ghost use Rattle.std.specs.Prelude.{◌≡◌, ℕ, ◌+◌, ◌*◌, ◌≤◌, length};
ghost use Rattle.ps_model.specs.Blocks.{output_count};
ghost use Rattle.ps_model.specs.Budgets.{boolean_count};
ghost use Rattle.ps_model.specs.PinBits.{pin_of};
ghost use Rattle.ps_model.specs.Stored.{loaded};
ghost use Rattle.ps_stackvm.specs.Calling.{pins_in};
ghost use Rattle.ps_decision.specs.Cells.{block_bytes, pin_bytes};
ghost use Rattle.ps_decision.specs.Calling.{after_call, called_as, called_with};

use crate::cells::{set_offset, time, trap};
use crate::layout::{INSTANCE_SIZE, SIGNALS_AT};
use crate::pins::pins_in_cells;
use ps_actuators::{Edm, OutControl, SafetyRequest};
use ps_block::{Pins, SafetyBlock};
use ps_guards::{GuardLocking, GuardMonitoring};
use ps_machine::kind_by_number;
use ps_model::{Kind, boolean_count, output_count};
use ps_operator::{EnableSwitch, ModeSelector, TwoHandThree, TwoHandTwo};
use ps_sensors::{Antivalent, EmergencyStop, Equivalent, Espe};
use ps_stackvm::{Trap, step_instance};

// What a CALL names beside a kind: the instance, its first output signal and its limit in ms. `signals` is how many
// signals there are, and `next` is where the following row stands.
#[derive(Clone, Copy)]
pub(crate) struct Site {
    pub signals: u16,
    pub instance: u16,
    pub first: u16,
    pub limit: u32,
    pub next: u32,
}

impl Site {
    // Where the sixteen bytes of the instance begin.
    fn place(self) -> usize
        ensures { result ≡ SIGNALS_AT + self.signals + INSTANCE_SIZE * self.instance }
    {
        SIGNALS_AT + self.signals as usize + INSTANCE_SIZE * self.instance as usize
    }
}

// CALL of an instance, of which there are so many, as the kind with a number.
pub(crate) fn call(cells: &mut [u8], instances: u16, kind: u8, site: Site)
    requires { SIGNALS_AT + site.signals + INSTANCE_SIZE * instances ≤ length cells.old }
    ensures { cells.new ≡ after_call site.signals instances site.instance kind site.first site.limit site.next cells.old }
{
    if site.instance >= instances {
        return trap(cells, Trap::NoInstance);
    }
    match kind_by_number(kind) {
        Some(kind) => call_as(cells, kind, site),
        None => trap(cells, Trap::NoInstance),
    }
}

// CALL of an instance that is there.
fn call_as(cells: &mut [u8], kind: Kind, site: Site)
    requires { SIGNALS_AT + site.signals + INSTANCE_SIZE * site.instance + 16 ≤ length cells.old }
    ensures { cells.new ≡ called_as site.signals site.instance site.first site.limit site.next kind cells.old }
{
    match kind {
        Kind::Equivalent => call_block::<Equivalent>(cells, site),
        Kind::Antivalent => call_block::<Antivalent>(cells, site),
        Kind::EmergencyStop => call_block::<EmergencyStop>(cells, site),
        Kind::Espe => call_block::<Espe>(cells, site),
        Kind::ModeSelector => call_block::<ModeSelector>(cells, site),
        Kind::TwoHandTwo => call_block::<TwoHandTwo>(cells, site),
        Kind::TwoHandThree => call_block::<TwoHandThree>(cells, site),
        Kind::GuardMonitoring => call_block::<GuardMonitoring>(cells, site),
        Kind::GuardLocking => call_block::<GuardLocking>(cells, site),
        Kind::EnableSwitch => call_block::<EnableSwitch>(cells, site),
        Kind::SafetyRequest => call_block::<SafetyRequest>(cells, site),
        Kind::OutControl => call_block::<OutControl>(cells, site),
        Kind::Edm => call_block::<Edm>(cells, site),
    }
}

// The same as a block, with a code of its own for each kind, in which the counts of pins and outputs are constants.
#[inline(never)]
fn call_block<B: SafetyBlock>(cells: &mut [u8], site: Site)
    requires { SIGNALS_AT + site.signals + INSTANCE_SIZE * site.instance + 16 ≤ length cells.old }
    ensures { cells.new ≡ called_as site.signals site.instance site.first site.limit site.next B.KIND cells.old }
{
    if u32::from(site.first) + u32::from(output_count(B::KIND)) > u32::from(site.signals) {
        return trap(cells, Trap::NoSignal);
    }
    match pins_in_cells(cells, boolean_count(B::KIND)) {
        Some(bits) => step_block::<B>(cells, bits, site),
        None => trap(cells, Trap::NotBoolean),
    }
}

// The step of an instance as a block, with pins that are there. The row after follows.
fn step_block<B: SafetyBlock>(cells: &mut [u8], bits: u32, site: Site)
    requires end { SIGNALS_AT + site.signals + INSTANCE_SIZE * site.instance + 16 ≤ length cells.old }
    requires outs { site.first + output_count B.KIND ≤ site.signals }
    requires pins { (j : ℕ) → pin_of bits j ≡ pins_in (pin_bytes (boolean_count B.KIND) cells.old) j }
    ensures { cells.new ≡ called_with site.signals site.instance site.first site.limit site.next B.KIND (loaded B.KIND (block_bytes site.signals site.instance cells.old)) cells.old }
{
    let pins = Pins {
        bits,
        limit: site.limit,
        now: time(cells),
    };
    let first = SIGNALS_AT + site.first as usize;
    if !step_instance::<B>(cells, site.place(), first, pins) {
        return trap(cells, Trap::NoState);
    }
    set_offset(cells, site.next);
}
