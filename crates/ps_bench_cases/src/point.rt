// How a trace of cases stands between two lines of a case.

ghost use Rattle.std.specs.Prelude.{◌≡◌, ◌<◌, ◌≤◌, ◌+◌, ◌++◌, ◌∷◌, ◌/◌, ◌%◌, ◌^◌, [], ℕ, All, IfOk, OnOk};
ghost use Rattle.std.specs.Prelude.{decimal, length, slice_index};
ghost use Rattle.hex.specs.Hex.{encode_lower, lower_digits};
ghost use Rattle.ps_bench_names.specs.declared.name.Setting.{Setting};
ghost use Rattle.ps_bench_cases.specs.Meant.{set_by, time_at};
ghost use Rattle.ps_bench_cases.specs.Expanded.{turn_text, region_text, fault_line, begin_point, point_set, point_after};
ghost use Rattle.ps_bench_cases.specs.HeldBytes.{IsAdded};

use crate::case::{Act, Pace};
use crate::held::Held;
use itoa::Buffer;
use ps_base::Memory;
use ps_bench_names::Setting;
use ps_model::{Bits, Channel, Fault, Region};
use std::alloc::Global;

/// How the trace stands between two lines of a case.
pub struct Point {
    /// When the case begins, in ms.
    pub base: u64,
    /// The time of its last scan within the case, in ms.
    pub time: u32,
    /// The values of the inputs.
    pub ins: Bits,
    /// The lines of the faults of its next scan.
    pub held: Held,
}

impl Drop for Point {
    // One call for whoever owns one, in place of a walk through all that it holds.
    fn drop(self) {
        let Point {
            base: _,
            time: _,
            ins: _,
            held: _,
        } = self;
    }
}

impl Point {
    /// With so many inputs, before the first case. There is room for so many bytes of the lines of faults. `Err`:
    /// memory runs out.
    pub fn new(alloc: Global, inputs: usize, room: usize) -> Result<Point, Memory>
        ensures { IfOk result (λ point. point ≡ begin_point inputs 0) }
    {
        Ok(Point {
            base: 0,
            time: 0,
            ins: Bits::all_false(alloc, inputs)?,
            held: Held::with_room(alloc, room)?,
        })
    }

    // A case begins at this time.
    pub(crate) fn begin(&mut self, base: u64)
        ensures { self.new ≡ begin_point (length self.old.ins) base }
    {
        self.base = base;
        self.time = 0;
        self.ins.clear();
        self.held.clear();
    }

    // The inputs are set.
    pub(crate) fn set(&mut self, settings: &[Setting])
        requires { All (λ (setting : Setting). setting.input < length self.old.ins) settings.now }
        ensures { self.new ≡ point_set self.old settings.now }
    {
        for setting in settings {
            self.ins.set(usize::from(setting.input), setting.value);
        }
    }

    // A line does this. It takes no memory where there is room for the line of a fault.
    pub(crate) fn pass(&mut self, act: &Act) -> Result<(), Memory>
        ensures { OnOk result (self.new ≡ point_after self.old act.now) }
    {
        match act {
            Act::Scans(pace) => {
                if pace.count > 0 {
                    self.time = last_time(pace);
                    self.held.clear();
                }
                Ok(())
            }
            Act::Fault(fault) => hold(&mut self.held, fault),
            Act::Set | Act::Restart | Act::Expect(_) => Ok(()),
        }
    }
}

// The time of the last scan of a pace.
fn last_time(pace: &Pace) -> u32
    ensures { result ≡ time_at pace.now pace.now.count }
{
    let span = u64::from(pace.count) * u64::from(pace.step);
    let time = u64::from(pace.from) + span;
    time.min(u64::from(pace.upto)) as u32
}

/// Room enough for the line of a fault, in bytes: twice its bytes, and all else.
pub fn room_of(fault: &Fault) -> usize {
    fault
        .bytes
        .as_slice()
        .len()
        .saturating_mul(2)
        .saturating_add(64)
}

// The line of a fault, after others.
pub(crate) fn hold(lines: &mut Held, fault: &Fault) -> Result<(), Memory>
    ensures { OnOk result (lines.new ≡ lines.old ++ fault_line fault.now) }
{
    let whole = lines.add(true, b"# fault ");
    let whole = hold_turn(lines, whole, fault.turn);
    let whole = lines.add(whole, region_text(fault.channel, fault.region));
    let whole = hold_number(lines, whole, fault.at);
    let whole = lines.add(whole, b" ");
    let whole = hold_bytes(lines, whole, fault.bytes.as_slice());
    if lines.add(whole, b"\n") {
        Ok(())
    } else {
        Err(Memory)
    }
}

// Bytes by two small hexadecimal digits each, if all before them are there.
fn hold_bytes(lines: &mut Held, whole: bool, bytes: &[u8]) -> bool
    ensures { IsAdded whole lines.old (encode_lower bytes.now) lines.new result }
{
    let mut done = whole;
    for byte in bytes {
        done = lines.add(done, &hex_digits(*byte));
    }
    done
}

// The two small hexadecimal digits of a byte.
fn hex_digits(byte: u8) -> [u8; 2]
    ensures { result ≡ slice_index lower_digits (byte / 16) ∷ slice_index lower_digits (byte % 16) ∷ [] }
{
    let digits = b"0123456789abcdef";
    [
        digits[usize::from(byte / 16)],
        digits[usize::from(byte % 16)],
    ]
}

// The turn of a fault, where it strikes before one, if all before it is there.
fn hold_turn(lines: &mut Held, whole: bool, turn: u32) -> bool
    ensures { IsAdded whole lines.old (turn_text turn) lines.new result }
{
    if turn == 0 {
        return whole;
    }
    let whole = lines.add(whole, b"turn ");
    let whole = hold_number(lines, whole, turn);
    lines.add(whole, b" ")
}

// A number, if all before it is there.
fn hold_number(lines: &mut Held, whole: bool, number: u32) -> bool
    ensures { IsAdded whole lines.old (decimal number) lines.new result }
{
    let mut digits = Buffer::new();
    lines.add(whole, digits.format(number).as_bytes())
}

// The words of a channel and a region.
fn region_text(channel: Channel, region: Region) -> &'static [u8]
    ensures { result.now ≡ region_text channel region }
{
    match (channel, region) {
        (Channel::A, Region::Code) => b"A code ",
        (Channel::A, Region::Cells) => b"A memory ",
        (Channel::B, Region::Code) => b"B code ",
        (Channel::B, Region::Cells) => b"B memory ",
    }
}
