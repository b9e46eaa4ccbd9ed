// The writer of value changes.

ghost use Rattle.std.specs.Prelude.{◌≡◌, ◌+◌, ◌*◌, ◌≤◌, ◌<◌, ◌++◌, vec_len, IsTrue, IfOk, OnOk, OnErr, IfErr, length};
ghost use Rattle.std.specs.Prelude.{map, take, false, true};
ghost use Rattle.ps_outside.specs.Outside.{Rose};
ghost use Rattle.ps_bench_waves.specs.declared.identifier.TheConstants.{MOST_WIRES};
ghost use Rattle.ps_bench_waves.specs.declared.change.TheConstants.{CHANGE_ROOM};
ghost use Rattle.ps_bench_waves.specs.declared.dump.TheConstants.{SCAN_ROOM};
ghost use Rattle.ps_bench_waves.specs.Values.{held, is_same};
ghost use Rattle.ps_bench_waves.specs.Text.{changed_text, changes, lines_text, scan_text};

use crate::change::{CHANGE_ROOM, put_change};
use crate::room::{put, put_byte, put_number};
use crate::{MOST_WIRES, Value, written};
use ps_base::Memory;
use ps_outside::{Sink, Stopped, write_all};
use std::alloc::Global;

// The bytes that suffice for a scan beside its changes: `#`, a time, two line feeds, and the words around a first dump.
const SCAN_ROOM: usize = 32;

/// The writer of the value changes of a list of wires. It keeps the last value of each wire, and all memory that its
/// scans use is taken by `new`.
pub struct Dump {
    // the last values, and whether there was a scan
    last: Vec<Value>,
    begun: bool,
    // room for the text of a scan
    text: Vec<u8>,
    ghost few: { vec_len last ≤ MOST_WIRES },
    ghost room: { SCAN_ROOM + CHANGE_ROOM * vec_len last ≤ vec_len text },
}

impl Drop for Dump {
    // One call for whoever owns one, in place of a walk through all that it holds.
    fn drop(self) {
        let Dump {
            last: _,
            begun: _,
            text: _,
        } = self;
    }
}

impl Dump {
    ghost use Rattle.ps_bench_waves.specs.DumpWriter.{wire_count, has_begun, last_of};

    /// The writer for so many wires, before the first scan. `Err` comes if memory runs out, and for more than
    /// 830,584 wires, which have no identifiers.
    pub fn new(alloc: Global, wires: usize) -> Result<Dump, Memory>
        ensures wires { IfOk result (λ dump. wire_count dump ≡ wires) }
        ensures fresh { IfOk result (λ dump. has_begun dump ≡ false) }
    {
        if wires > MOST_WIRES {
            return Err(Memory);
        }
        let last = vec![in alloc; Value::Bit(false); wires]?;
        let text = vec![in alloc; 0; SCAN_ROOM + CHANGE_ROOM * wires]?;
        Ok(Dump {
            last,
            begun: false,
            text,
        })
    }

    /// Writes a scan at a time in ms, with a value for each wire: `#TIME`, and then a line for each wire whose value is
    /// not that of the scan before; in the first scan a line for each wire, between `$dumpvars` and `$end`. It takes no
    /// memory, and writes by one `write_all`.
    ///
    /// `Stopped` comes only where the output's count rose in this call, with the number of bytes that were taken.
    pub fn put_scan<S: Sink>(
        &mut self,
        out: &mut S,
        now: u32,
        values: &[Value],
    ) -> Result<(), Stopped>
        requires { length values.now ≡ wire_count self.old }
        ensures whole { IsTrue (S.tells out.old) → OnOk result (S.taken out.new ≡ S.taken out.old
            ++ scan_text (has_begun self.old) (last_of self.old) now (map held values.now)) }
        ensures part { IsTrue (S.tells out.old) → IfErr result (λ stop. S.taken out.new ≡ S.taken out.old
            ++ take stop.taken (scan_text (has_begun self.old) (last_of self.old) now (map held values.now))) }
        ensures begun { has_begun self.new ≡ true }
        ensures last { last_of self.new ≡ map held values.now }
        ensures wires { wire_count self.new ≡ wire_count self.old }

        ensures stopped { OnErr result (Rose (S.faults out.old) (S.faults out.new)) }
        ensures exact { OnOk result (S.faults out.new ≡ S.faults out.old) }
        ensures counts { S.faults out.old ≤ S.faults out.new }
        ensures telling { S.tells out.new ≡ S.tells out.old }
    {
        let end = put_scan(&mut self.text, self.begun, &self.last, now, values);
        self.last.copy_from_slice(values);
        self.begun = true;
        write_all(out, &self.text[..end])
    }
}

// Puts the text of a scan at the beginning.
fn put_scan(text: &mut [u8], begun: bool, last: &[Value], now: u32, values: &[Value]) -> usize
    requires wires { length values.now ≡ length last.now }
    requires few { length values.now ≤ MOST_WIRES }
    requires room { SCAN_ROOM + CHANGE_ROOM * length values.now ≤ length text.old }
    ensures bytes { take result text.new ≡ scan_text begun (map held last.now) now (map held values.now) }
    ensures end { result ≤ length text.new }
    ensures len { length text.new ≡ length text.old }
{
    let at = put_byte(text, 0, b'#');
    let at = put_number(text, at, now);
    let at = put_byte(text, at, b'\n');
    put_lines(text, at, begun, last, values)
}

// Puts the lines of a scan.
fn put_lines(text: &mut [u8], at: usize, begun: bool, last: &[Value], values: &[Value]) -> usize
    requires wires { length values.now ≡ length last.now }
    requires few { length values.now ≤ MOST_WIRES }
    requires room { at + (15 + CHANGE_ROOM * length values.now) ≤ length text.old }
    ensures bytes { take result text.new ≡ take at text.old
        ++ lines_text begun (map held last.now) (map held values.now) }
    ensures end { result ≤ at + (15 + CHANGE_ROOM * length values.now) }
    ensures len { length text.new ≡ length text.old }
{
    if begun {
        return put_changes(text, at, false, last, values);
    }
    let at = put(text, at, b"$dumpvars\n");
    let at = put_changes(text, at, true, last, values);
    put(text, at, b"$end\n")
}

// Puts the lines of the wires whose values are not the last ones, or of all.
fn put_changes(text: &mut [u8], at: usize, all: bool, last: &[Value], values: &[Value]) -> usize
    requires wires { length values.now ≡ length last.now }
    requires few { length values.now ≤ MOST_WIRES }
    requires room { at + CHANGE_ROOM * length values.now ≤ length text.old }
    ensures bytes { take result text.new ≡ take at text.old ++ changes all 0 (map held last.now) (map held values.now) }
    ensures end { result ≤ at + CHANGE_ROOM * length values.now }
    ensures len { length text.new ≡ length text.old }
{
    let mut end = at;
    for wire in 0..values.len() {
        end = put_changed(text, end, all, wire, last[wire], values[wire]);
    }
    end
}

// Whether a bit stays as it was, where a wire has no line in any case. Most wires are such bits in most scans.
fn is_bit_that_stays(all: bool, before: Value, value: Value) -> bool
    ensures { result ≡ true → (all ≡ false) × (is_same (held before) (held value) ≡ true) }
{
    match (before, value) {
        (Value::Bit(before), Value::Bit(value)) => !all && before == value,
        _ => false,
    }
}

// Puts the line of a wire whose value is not the last one, or of any.
fn put_changed(
    text: &mut [u8],
    at: usize,
    all: bool,
    wire: usize,
    before: Value,
    value: Value,
) -> usize
    requires wire { wire < MOST_WIRES }
    requires room { at + CHANGE_ROOM ≤ length text.old }
    ensures bytes { take result text.new ≡ take at text.old ++ changed_text all wire (held before) (held value) }
    ensures end { result ≤ at + CHANGE_ROOM }
    ensures len { length text.new ≡ length text.old }
{
    if is_bit_that_stays(all, before, value) {
        return at;
    }
    match written(all, before, value) {
        Some(value) => put_change(text, at, wire, value),
        None => at,
    }
}
