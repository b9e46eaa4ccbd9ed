// The report that the cells hold.

ghost use Rattle.std.specs.Prelude.{◌≡◌, ◌+◌, ◌-◌, ◌*◌, ◌<◌, ◌≤◌, ◌==◌, ◌&&◌, not, true, false, Some, None, IfOk, length};
ghost use Rattle.std.specs.Prelude.{map, slice_index_or};
ghost use Rattle.std.specs.List.{list_all, range_with_len};
ghost use Rattle.ps_model.specs.declared.kind.Kind.TheVariants.{Equivalent};
ghost use Rattle.ps_model.specs.Blocks.{output_count};
ghost use Rattle.ps_machine.specs.Bytes.{is_no_bit};
ghost use Rattle.ps_machine.specs.Reporting.{output_byte, ready_byte, error_byte, diag_at, holds_report};
ghost use Rattle.ps_stackvm.specs.Readies.{AreReadies};
ghost use Rattle.ps_stackvm.specs.Turn.{report_a};

use crate::cells::number_at;
use crate::layout::{INSTANCE_SIZE, SIGNALS_AT};
use ps_base::Memory;
use ps_model::{Bits, Diag, Diags, Report, Sizes, output_count};
use std::alloc::Global;

// Of each instance the signal of its Ready: Error is the one after it.
#[tactic(auto, unfolding(ps_model::specs::Blocks::output_count))]
pub(crate) fn ready_signals(alloc: Global, sizes: &Sizes) -> Result<Vec<u16>, Memory>
    ensures { IfOk result (λ readies. AreReadies sizes.now readies.items) }
{
    let _signals = sizes.signals;
    let mut readies = Vec::new(alloc);
    for i in 0..sizes.instances as usize {
        let outputs = output_count(sizes.kinds.at(i)) as u16;
        readies.push(sizes.first_pins.at(i) + outputs - 2)?;
    }
    Ok(readies)
}

// The signal after the outputs of an instance: Ready and Error are the last two of them.
fn past_outputs(sizes: &Sizes, readies: &[u16], i: usize) -> usize
    requires instance { i < sizes.now.instances }
    requires readies { AreReadies sizes.now readies.now }
    ensures value { result ≡ slice_index_or sizes.now.first_pins i 0 + output_count (slice_index_or sizes.now.kinds i Equivalent) }
    ensures low { 2 ≤ result }
    ensures high { result ≤ sizes.now.signals }
{
    let _instances = sizes.instances;
    readies[i] as usize + 2
}

// Whether each output byte is 0 or 1.
fn outputs_hold(cells: &[u8], sizes: &Sizes) -> bool
    requires { SIGNALS_AT + sizes.now.signals ≤ length cells.now }
    ensures { result ≡ list_all (λ j. not (is_no_bit (output_byte sizes.now SIGNALS_AT cells.now j))) (range_with_len 0 sizes.now.outputs) }
{
    for j in 0..sizes.outputs as usize {
        let byte = cells[SIGNALS_AT + (sizes.inputs as usize + j)];
        if byte > 1 {
            return false;
        }
    }
    true
}

// Whether the Ready and the Error byte of an instance are 0 or 1. They stand side by side, and one test judges both.
fn diag_holds(cells: &[u8], sizes: &Sizes, readies: &[u16], i: usize) -> bool
    requires readies { AreReadies sizes.now readies.now }
    requires instance { i < sizes.now.instances }
    requires room { SIGNALS_AT + sizes.now.signals ≤ length cells.now }
    ensures { result ≡ (not (is_no_bit (ready_byte sizes.now SIGNALS_AT cells.now i)) && not (is_no_bit (error_byte sizes.now SIGNALS_AT cells.now i))) }
{
    let past = past_outputs(sizes, readies, i);
    let ready_and_error = [
        cells[SIGNALS_AT + (past - 2)],
        cells[SIGNALS_AT + (past - 1)],
    ];
    u16::from_le_bytes(ready_and_error) & 0xFEFE == 0
}

// Whether each Ready and Error byte is 0 or 1.
fn diags_hold(cells: &[u8], sizes: &Sizes, readies: &[u16]) -> bool
    requires readies { AreReadies sizes.now readies.now }
    requires room { SIGNALS_AT + sizes.now.signals ≤ length cells.now }
    ensures { result ≡ list_all (λ i. not (is_no_bit (ready_byte sizes.now SIGNALS_AT cells.now i)) && not (is_no_bit (error_byte sizes.now SIGNALS_AT cells.now i))) (range_with_len 0 sizes.now.instances) }
{
    for i in 0..sizes.instances as usize {
        if !diag_holds(cells, sizes, readies, i) {
            return false;
        }
    }
    true
}

// Whether the cells hold a report.
fn has_report(cells: &[u8], sizes: &Sizes, readies: &[u16]) -> bool
    requires readies { AreReadies sizes.now readies.now }
    requires room { SIGNALS_AT + sizes.now.signals ≤ length cells.now }
    ensures { result ≡ holds_report sizes.now SIGNALS_AT cells.now }
{
    outputs_hold(cells, sizes) && diags_hold(cells, sizes, readies)
}

// Writes the outputs of the report.
fn write_outputs(cells: &[u8], sizes: &Sizes, outs: &mut Bits)
    requires room { SIGNALS_AT + sizes.now.signals ≤ length cells.now }
    requires size { length outs.old ≡ sizes.now.outputs }
    ensures { outs.new ≡ map (λ j. output_byte sizes.now SIGNALS_AT cells.now j == 1) (range_with_len 0 sizes.now.outputs) }
{
    for j in 0..sizes.outputs as usize {
        outs.set(j, cells[SIGNALS_AT + (sizes.inputs as usize + j)] == 1);
    }
}

// What an instance says of itself.
fn diag(cells: &[u8], sizes: &Sizes, readies: &[u16], i: usize) -> Diag
    requires readies { AreReadies sizes.now readies.now }
    requires instance { i < sizes.now.instances }
    requires room { SIGNALS_AT + sizes.now.signals + INSTANCE_SIZE * sizes.now.instances ≤ length cells.now }
    ensures { result ≡ diag_at sizes.now SIGNALS_AT cells.now i }
{
    let past = past_outputs(sizes, readies, i);
    Diag {
        ready: cells[SIGNALS_AT + (past - 2)] == 1,
        error: cells[SIGNALS_AT + (past - 1)] == 1,
        code: number_at(
            cells,
            SIGNALS_AT + sizes.signals as usize + INSTANCE_SIZE * i,
        ),
    }
}

// Writes what the instances say of themselves.
fn write_diags(cells: &[u8], sizes: &Sizes, readies: &[u16], diags: &mut Diags)
    requires readies { AreReadies sizes.now readies.now }
    requires room { SIGNALS_AT + sizes.now.signals + INSTANCE_SIZE * sizes.now.instances ≤ length cells.now }
    requires size { length diags.old ≡ sizes.now.instances }
    ensures { diags.new ≡ map (diag_at sizes.now SIGNALS_AT cells.now) (range_with_len 0 sizes.now.instances) }
{
    for i in 0..sizes.instances as usize {
        diags.set(i, diag(cells, sizes, readies, i));
    }
}

// Writes the report that the cells hold into a report of the application's sizes: the value of each output, and Ready,
// Error and the DiagCode of each instance. False where an output, Ready or Error byte is neither 0 nor 1, and then the
// report is as before.
#[inline(always)]
pub(crate) fn read_report(cells: &[u8], sizes: &Sizes, readies: &[u16], into: &mut Report) -> bool
    requires readies { AreReadies sizes.now readies.now }
    requires room { SIGNALS_AT + sizes.now.signals + INSTANCE_SIZE * sizes.now.instances ≤ length cells.now }
    requires outs { length into.old.outs ≡ sizes.now.outputs }
    requires diags { length into.old.diags ≡ sizes.now.instances }
    ensures report { result ≡ true → report_a sizes.now cells.now ≡ Some into.new }
    ensures none { result ≡ false → report_a sizes.now cells.now ≡ None }
    ensures kept { result ≡ false → into.new ≡ into.old }
    ensures sized { (length into.new.outs ≡ length into.old.outs) × (length into.new.diags ≡ length into.old.diags) }
{
    if !has_report(cells, sizes, readies) {
        return false;
    }
    write_outputs(cells, sizes, &mut into.outs);
    write_diags(cells, sizes, readies, &mut into.diags);
    true
}
