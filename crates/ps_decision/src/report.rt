// The report that channel C's cells hold. Channel C reads it by itself, from the last field to the first: a vote is
// meant to be between three, and a reader that two channels used could make both say the same wrong thing.

ghost use Rattle.std.specs.Prelude.{◌≡◌, ◌+◌, ◌-◌, ◌*◌, ◌<◌, ◌≤◌, ◌==◌, ◌&&◌, not, true, false, Some, None};
ghost use Rattle.std.specs.Prelude.{length, map, slice_index, slice_index_or};
ghost use Rattle.std.specs.List.{list_all, range_with_len};
ghost use Rattle.ps_model.specs.declared.kind.Kind.TheVariants.{Equivalent};
ghost use Rattle.ps_model.specs.Blocks.{output_count};
ghost use Rattle.ps_machine.specs.Bytes.{is_no_bit};
ghost use Rattle.ps_machine.specs.Reporting.{output_byte, ready_byte, error_byte, diag_at};
ghost use Rattle.ps_decision.specs.Turn.{report_c};

use crate::cells::number_at;
use crate::layout::{INSTANCE_SIZE, SIGNALS_AT};
use ps_model::{Bits, Diag, Diags, Report, Sizes, safe_count};

// Whether the byte of a signal is 0 or 1.
fn holds(cells: &[u8], s: usize) -> bool
    requires { SIGNALS_AT + s < length cells.now }
    ensures { result ≡ not (is_no_bit (slice_index cells.now (SIGNALS_AT + s))) }
{
    cells[SIGNALS_AT + s] <= 1
}

// Whether the byte of a signal is 1.
fn is_on(cells: &[u8], s: usize) -> bool
    requires { SIGNALS_AT + s < length cells.now }
    ensures { result ≡ (slice_index cells.now (SIGNALS_AT + s) == 1) }
{
    cells[SIGNALS_AT + s] == 1
}

// The signal of an instance's Ready, which stands after its safe outputs. That of its Error is the next.
#[tactic(auto, using(std::proofs::lemmas::Option::get_or_from_slice_get), unfolding(ps_model::specs::Blocks::output_count))]
fn ready_signal(sizes: &Sizes, i: usize) -> usize
    requires { i < sizes.now.instances }
    ensures ready { result ≡
        slice_index_or sizes.now.first_pins i 0 + output_count (slice_index_or sizes.now.kinds i Equivalent) - 2 }
    ensures error { result + 1 ≡
        slice_index_or sizes.now.first_pins i 0 + output_count (slice_index_or sizes.now.kinds i Equivalent) - 1 }
    ensures high { result + 2 ≤ sizes.now.signals }
{
    sizes.first_pins.at(i) as usize + safe_count(sizes.kinds.at(i)) as usize
}

// Whether each output byte is 0 or 1.
fn outputs_hold(cells: &[u8], sizes: &Sizes) -> bool
    requires { SIGNALS_AT + sizes.now.signals ≤ length cells.now }
    ensures { result ≡
        list_all (λ j. not (is_no_bit (output_byte sizes.now SIGNALS_AT cells.now j)))
        (range_with_len 0 sizes.now.outputs) }
{
    let mut left = sizes.outputs as usize;
    while left > 0 {
        left -= 1;
        if !holds(cells, sizes.inputs as usize + left) {
            return false;
        }
    }
    true
}

// Whether the Ready and the Error byte of an instance are 0 or 1.
fn diag_holds(cells: &[u8], sizes: &Sizes, i: usize) -> bool
    requires instance { i < sizes.now.instances }
    requires room { SIGNALS_AT + sizes.now.signals ≤ length cells.now }
    ensures { result ≡
        (not (is_no_bit (ready_byte sizes.now SIGNALS_AT cells.now i))
        && not (is_no_bit (error_byte sizes.now SIGNALS_AT cells.now i))) }
{
    let ready = ready_signal(sizes, i);
    holds(cells, ready) && holds(cells, ready + 1)
}

// Whether each Ready and Error byte is 0 or 1.
fn diags_hold(cells: &[u8], sizes: &Sizes) -> bool
    requires { SIGNALS_AT + sizes.now.signals ≤ length cells.now }
    ensures { result ≡
        list_all (λ i. not (is_no_bit (ready_byte sizes.now SIGNALS_AT cells.now i))
        && not (is_no_bit (error_byte sizes.now SIGNALS_AT cells.now i)))
        (range_with_len 0 sizes.now.instances) }
{
    let mut left = sizes.instances as usize;
    while left > 0 {
        left -= 1;
        if !diag_holds(cells, sizes, left) {
            return false;
        }
    }
    true
}

// Writes the outputs of the report.
fn write_outputs(cells: &[u8], sizes: &Sizes, outs: &mut Bits)
    requires room { SIGNALS_AT + sizes.now.signals ≤ length cells.now }
    requires size { length outs.old ≡ sizes.now.outputs }
    ensures { outs.new ≡
        map (λ j. output_byte sizes.now SIGNALS_AT cells.now j == 1) (range_with_len 0 sizes.now.outputs) }
{
    let mut left = sizes.outputs as usize;
    while left > 0 {
        left -= 1;
        outs.set(left, is_on(cells, sizes.inputs as usize + left));
    }
}

// What an instance says of itself.
fn diag(cells: &[u8], sizes: &Sizes, i: usize) -> Diag
    requires instance { i < sizes.now.instances }
    requires room { SIGNALS_AT + sizes.now.signals + INSTANCE_SIZE * sizes.now.instances ≤ length cells.now }
    ensures { result ≡ diag_at sizes.now SIGNALS_AT cells.now i }
{
    let ready = ready_signal(sizes, i);
    let block = SIGNALS_AT + sizes.signals as usize + INSTANCE_SIZE * i;
    Diag {
        ready: is_on(cells, ready),
        error: is_on(cells, ready + 1),
        code: number_at(cells, block),
    }
}

// Writes what the instances say of themselves.
fn write_diags(cells: &[u8], sizes: &Sizes, diags: &mut Diags)
    requires room { SIGNALS_AT + sizes.now.signals + INSTANCE_SIZE * sizes.now.instances ≤ length cells.now }
    requires size { length diags.old ≡ sizes.now.instances }
    ensures { diags.new ≡ map (diag_at sizes.now SIGNALS_AT cells.now) (range_with_len 0 sizes.now.instances) }
{
    let mut left = sizes.instances as usize;
    while left > 0 {
        left -= 1;
        diags.set(left, diag(cells, sizes, left));
    }
}

// Writes the report that the cells hold into a report of the application's sizes. False where an output, Ready or Error
// byte is neither 0 nor 1, and then the report is as before.
pub(crate) fn read_report(cells: &[u8], sizes: &Sizes, into: &mut Report) -> bool
    requires room { SIGNALS_AT + sizes.now.signals + INSTANCE_SIZE * sizes.now.instances ≤ length cells.now }
    requires outs { length into.old.outs ≡ sizes.now.outputs }
    requires diags { length into.old.diags ≡ sizes.now.instances }
    ensures report { result ≡ true → report_c sizes.now cells.now ≡ Some into.new }
    ensures none { result ≡ false → report_c sizes.now cells.now ≡ None }
    ensures kept { result ≡ false → into.new ≡ into.old }
    ensures sized { (length into.new.outs ≡ length into.old.outs) × (length into.new.diags ≡ length into.old.diags) }
{
    if !diags_hold(cells, sizes) || !outputs_hold(cells, sizes) {
        return false;
    }
    write_diags(cells, sizes, &mut into.diags);
    write_outputs(cells, sizes, &mut into.outs);
    true
}
