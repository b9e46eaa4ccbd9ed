//! One step of an instance in the cells of a machine. The CALLs of channels A and C make it by this one function, each
//! in its own cells, with pins and a time that it reads by itself.

ghost use Rattle.std.specs.Prelude.{◌≡◌, ◌+◌, ◌≤◌, true, false, None, IfSome, IfNone, length, map, take, drop};
ghost use Rattle.ps_model.specs.Blocks.{output_count};
ghost use Rattle.ps_model.specs.BlockLaws.{AreBytes};
ghost use Rattle.ps_model.specs.Stored.{loaded};
ghost use Rattle.ps_machine.specs.Bytes.{bit, replaced};
ghost use Rattle.ps_block.specs.Shown.{shown};
ghost use Rattle.ps_stackvm.specs.Stepping.{IsStepInBytes, HasStepped};

use crate::cells::byte_of;
use ps_block::{Outs, Pins, SafetyBlock};
use ps_model::block_laws::loads_exactly;
use ps_model::safe_count;

/// Steps an instance as a block with these pins. Its sixteen bytes stand at `place`: what they load to is stepped and
/// stored there. From `first` on the outputs are written, a byte 0 or 1 each: safe outputs in order, Ready, Error.
/// False where the sixteen bytes are of no state of the block's kind, and then nothing is written.
pub fn step_instance<B: SafetyBlock>(
    cells: &mut [u8],
    place: usize,
    first: usize,
    pins: Pins,
) -> bool
    requires bytes { place + 16 ≤ length cells.old }
    requires outs { first + output_count B.KIND ≤ length cells.old }
    ensures stepped { result ≡ true → HasStepped B.KIND pins place first cells.old cells.new }
    ensures none { result ≡ false → loaded B.KIND (take 16 (drop place cells.old)) ≡ None }
    ensures kept { result ≡ false → cells.new ≡ cells.old }
{
    match step_here::<B>(&mut cells[place..place + 16], pins) {
        Some(outs) => {
            put_outputs(cells, first, safe_count(B::KIND), outs);
            true
        }
        None => false,
    }
}

// A step of a block whose sixteen bytes are these: load, step, store. None where they load for no state, and then they
// stay.
fn step_here<B: SafetyBlock>(bytes: &mut [u8], pins: Pins) -> Option<Outs>
    requires { length bytes.old ≡ 16 }
    ensures steps { IfSome result (IsStepInBytes B.KIND pins bytes.old bytes.new) }
    ensures none { IfNone result (loaded B.KIND bytes.old ≡ None) }
    ensures kept { IfNone result (bytes.new ≡ bytes.old) }
{
    loads_exactly();
    let Some(block) = bytes.as_mut_array::<16>() else {
        unreachable!()
    };
    match B::load(block) {
        Some(mut state) => {
            let outs = B::step(&mut state, pins);
            B::store(&state, block);
            Some(outs)
        }
        None => {
            are_bytes(block);
            None
        }
    }
}

// The values of sixteen bytes are below 256.
fn are_bytes(bytes: &[u8; 16])
    ensures { AreBytes bytes.now }
{
    for byte in bytes {
        let _value = *byte;
    }
}

// One byte for each of n safe outputs, for Ready and for Error, from a place on.
fn put_outputs(cells: &mut [u8], at: usize, n: u8, outs: Outs)
    requires few { n ≤ 16 }
    requires room { at + n + 2 ≤ length cells.old }
    ensures { cells.new ≡ replaced cells.old at (map bit (shown n outs)) }
{
    let behind = at + n as usize;
    for j in 0..n {
        cells[at + j as usize] = byte_of((outs.safe >> j) & 1 == 1);
    }
    cells[behind] = byte_of(outs.diag.ready);
    cells[behind + 1] = byte_of(outs.diag.error);
}
