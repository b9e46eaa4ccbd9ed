// The report that the cells hold.

ghost use Rattle.std.specs.Prelude.{◌≡◌, ◌+◌, ◌-◌, ◌*◌, ◌<◌, ◌≤◌, ◌==◌, ◌&&◌, not, IfOk, length, map, slice_index};
ghost use Rattle.std.specs.Prelude.{slice_index_or, true};
ghost use Rattle.std.specs.List.{list_all, range_with_len};
ghost use Rattle.ps_model.specs.declared.kind.Kind.TheVariants.{Equivalent};
ghost use Rattle.ps_model.specs.Blocks.{output_count};
ghost use Rattle.ps_machine.specs.Bytes.{is_no_bit};
ghost use Rattle.ps_machine.specs.Reporting.{output_byte, ready_byte, error_byte, diag_at, holds_report};
ghost use Rattle.ps_eqvm.specs.Bits.{AreEven};
ghost use Rattle.ps_eqvm.specs.Plain.{plain_bytes, IsSized};
ghost use Rattle.ps_eqvm.specs.Readies.{AreReadies};

use crate::layout::SIGNALS_AT;
use crate::plain::PlainCells;
use ps_base::Memory;
use ps_model::{Bits, Diag, Diags, Sizes};
use ps_rows::all_outputs;
use std::alloc::Global;

/// Of each instance the signal of its Ready: Error is the one after it.
#[tactic(auto, unfolding(ps_model::specs::Blocks::output_count))]
pub fn ready_signals(alloc: Global, sizes: &Sizes) -> Result<Vec<u16>, Memory>
    ensures { IfOk result (λ readies. AreReadies sizes.now readies.items) }
{
    let _signals = sizes.signals;
    let mut readies = Vec::new(alloc);
    for i in 0..sizes.instances {
        let outputs = u16::from(all_outputs(sizes.kinds.at(i as usize)));
        readies.push(sizes.first_pins.at(i as usize) + outputs - 2)?;
    }
    Ok(readies)
}

// The signal after the outputs of an instance: Ready and Error are the last two of them.
fn past_outputs(sizes: &Sizes, readies: &[u16], i: u16) -> usize
    requires instance { i < sizes.now.instances }
    requires readies { AreReadies sizes.now readies.now }
    ensures value { result ≡ slice_index_or sizes.now.first_pins i 0 + output_count (slice_index_or sizes.now.kinds i Equivalent) }
    ensures low { 2 ≤ result }
    ensures high { result ≤ sizes.now.signals }
{
    let _instances = sizes.instances;
    readies[i as usize] as usize + 2
}

// Whether the byte of a signal is 0 or 1; `even` says it of all signals.
fn holds(plain: &PlainCells, sizes: &Sizes, even: bool, s: usize) -> bool
    requires sized { IsSized sizes.now.signals sizes.now.instances plain.now }
    requires signal { s < sizes.now.signals }
    requires even { even ≡ true → AreEven sizes.now.signals (plain_bytes plain.now) }
    ensures { result ≡ not (is_no_bit (slice_index (plain_bytes plain.now) (SIGNALS_AT + s))) }
{
    let _signals = sizes.signals;
    even || plain.signal(s as u16).is_some()
}

// Whether the byte of a signal is 1.
fn is_on(plain: &PlainCells, sizes: &Sizes, s: usize) -> bool
    requires sized { IsSized sizes.now.signals sizes.now.instances plain.now }
    requires signal { s < sizes.now.signals }
    ensures { result ≡ (slice_index (plain_bytes plain.now) (SIGNALS_AT + s) == 1) }
{
    let _signals = sizes.signals;
    plain.is_on(s as u16)
}

// Whether the Ready and the Error byte of an instance are 0 or 1.
fn diag_holds(plain: &PlainCells, sizes: &Sizes, readies: &[u16], even: bool, i: u16) -> bool
    requires sized { IsSized sizes.now.signals sizes.now.instances plain.now }
    requires readies { AreReadies sizes.now readies.now }
    requires instance { i < sizes.now.instances }
    requires even { even ≡ true → AreEven sizes.now.signals (plain_bytes plain.now) }
    ensures { result ≡ (not (is_no_bit (ready_byte sizes.now SIGNALS_AT (plain_bytes plain.now) i)) && not (is_no_bit (error_byte sizes.now SIGNALS_AT (plain_bytes plain.now) i))) }
{
    let past = past_outputs(sizes, readies, i);
    holds(plain, sizes, even, past - 2) && holds(plain, sizes, even, past - 1)
}

// Whether each output byte is 0 or 1.
fn outputs_hold(plain: &PlainCells, sizes: &Sizes, even: bool) -> bool
    requires sized { IsSized sizes.now.signals sizes.now.instances plain.now }
    requires even { even ≡ true → AreEven sizes.now.signals (plain_bytes plain.now) }
    ensures { result ≡ list_all (λ j. not (is_no_bit (output_byte sizes.now SIGNALS_AT (plain_bytes plain.now) j))) (range_with_len 0 sizes.now.outputs) }
{
    for j in 0..sizes.outputs {
        if !holds(plain, sizes, even, sizes.inputs as usize + j as usize) {
            return false;
        }
    }
    true
}

// Whether each Ready and Error byte is 0 or 1.
fn diags_hold(plain: &PlainCells, sizes: &Sizes, readies: &[u16], even: bool) -> bool
    requires sized { IsSized sizes.now.signals sizes.now.instances plain.now }
    requires readies { AreReadies sizes.now readies.now }
    requires even { even ≡ true → AreEven sizes.now.signals (plain_bytes plain.now) }
    ensures { result ≡ list_all (λ i. not (is_no_bit (ready_byte sizes.now SIGNALS_AT (plain_bytes plain.now) i)) && not (is_no_bit (error_byte sizes.now SIGNALS_AT (plain_bytes plain.now) i))) (range_with_len 0 sizes.now.instances) }
{
    for i in 0..sizes.instances {
        if !diag_holds(plain, sizes, readies, even, i) {
            return false;
        }
    }
    true
}

/// Whether the cells hold a report.
pub fn has_report(plain: &PlainCells, sizes: &Sizes, readies: &[u16]) -> bool
    requires sized { IsSized sizes.now.signals sizes.now.instances plain.now }
    requires readies { AreReadies sizes.now readies.now }
    ensures { result ≡ holds_report sizes.now SIGNALS_AT (plain_bytes plain.now) }
{
    let even = plain.are_even();
    outputs_hold(plain, sizes, even) && diags_hold(plain, sizes, readies, even)
}

/// Writes the outputs of the report.
pub fn write_outputs(plain: &PlainCells, sizes: &Sizes, outs: &mut Bits)
    requires sized { IsSized sizes.now.signals sizes.now.instances plain.now }
    requires size { length outs.old ≡ sizes.now.outputs }
    ensures { outs.new ≡ map (λ j. output_byte sizes.now SIGNALS_AT (plain_bytes plain.now) j == 1) (range_with_len 0 sizes.now.outputs) }
{
    for j in 0..sizes.outputs {
        outs.set(
            j as usize,
            is_on(plain, sizes, sizes.inputs as usize + j as usize),
        );
    }
}

// What an instance says of itself.
fn diag(plain: &PlainCells, sizes: &Sizes, readies: &[u16], i: u16) -> Diag
    requires sized { IsSized sizes.now.signals sizes.now.instances plain.now }
    requires readies { AreReadies sizes.now readies.now }
    requires instance { i < sizes.now.instances }
    ensures { result ≡ diag_at sizes.now SIGNALS_AT (plain_bytes plain.now) i }
{
    let past = past_outputs(sizes, readies, i);
    Diag {
        ready: is_on(plain, sizes, past - 2),
        error: is_on(plain, sizes, past - 1),
        code: plain.code(sizes.signals, i as usize),
    }
}

/// Writes what the instances say of themselves.
pub fn write_diags(plain: &PlainCells, sizes: &Sizes, readies: &[u16], diags: &mut Diags)
    requires sized { IsSized sizes.now.signals sizes.now.instances plain.now }
    requires readies { AreReadies sizes.now readies.now }
    requires size { length diags.old ≡ sizes.now.instances }
    ensures { diags.new ≡ map (diag_at sizes.now SIGNALS_AT (plain_bytes plain.now)) (range_with_len 0 sizes.now.instances) }
{
    for i in 0..sizes.instances {
        diags.set(i as usize, diag(plain, sizes, readies, i));
    }
}
