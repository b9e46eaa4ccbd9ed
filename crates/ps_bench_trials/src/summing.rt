// What campaigns wrote, read again and added.

ghost use Rattle.std.specs.Prelude.{◌≡◌, IfErr, IfOk, IfSome, IsTrue, OnOk};
ghost use Rattle.ps_bench_trials.specs.Plain.{ArePlain};
ghost use Rattle.ps_bench_trials.specs.Sums.{Adds, IsFlaw, IsTold, text_of};

use crate::refusal::SumRule;
use crate::total_telling::add_totals;
use crate::{Tally, read_tally, seeming_tally};
use ps_base::{Bytes, Memory};
use std::alloc::Global;

/// As many bytes as a file that is added may have: a head and all lines have fewer.
pub const LARGEST_SUM: u32 = 65_536;

/// What a campaign wrote.
pub struct Totals {
    /// What names the application.
    pub app: Bytes,
    /// What names the trace.
    pub trace: Bytes,
    /// What is counted of its trials.
    pub tally: Tally,
}

impl Drop for Totals {
    // One call for whoever owns one, in place of a walk through all that it holds.
    fn drop(self) {
        let Totals {
            app: _,
            trace: _,
            tally: _,
        } = self;
    }
}

// What a text seems to tell: what stands where the two names and the lines of counts would stand.
#[derive(Clone, Copy)]
struct Parts<'a> {
    app: &'a [u8],
    trace: &'a [u8],
    lines: &'a [u8],
}

// Whether bytes are a name: 64 small hexadecimal digits.
fn is_name(bytes: &[u8]) -> bool {
    for byte in bytes {
        if !(byte.is_ascii_digit() || (b'a' <= *byte && *byte <= b'f')) {
            return false;
        }
    }
    bytes.len() == 64
}

// What stands in a text after so many bytes; nothing where it ends before.
fn behind(text: &[u8], bytes: usize) -> &[u8] {
    text.get(bytes..).unwrap_or(&[])
}

// Its first 64 bytes; all where it has fewer.
fn first_64(text: &[u8]) -> &[u8] {
    text.get(..64).unwrap_or(text)
}

// The parts of a text: a name stands after `application `, the other one after its line and `trace `, and the lines
// of counts after both.
fn parts_of(text: &[u8]) -> Parts<'_> {
    let trace = behind(text, 83);
    Parts {
        app: first_64(behind(text, 12)),
        trace: first_64(trace),
        lines: behind(trace, 65),
    }
}

// What the parts of a text tell, if they tell anything.
fn seeming_totals(alloc: Global, parts: &Parts<'_>) -> Result<Option<Totals>, Memory>
    ensures { IfOk result (λ read. IfSome read (λ totals. ArePlain totals.tally)) }
{
    match read_tally(alloc, parts.lines)? {
        Some(tally) => Ok(Some(Totals {
            app: Bytes::from_slice(alloc, parts.app)?,
            trace: Bytes::from_slice(alloc, parts.trace)?,
            tally,
        })),
        None => Ok(None),
    }
}

// Whether a text tells just this.
fn is_told(alloc: Global, totals: &Totals, text: &[u8]) -> Result<bool, Memory>
    ensures { IfOk result (λ told. IsTrue told → text.now ≡ text_of totals.now) }
{
    let mut told = Bytes::new(alloc);
    add_totals(
        &mut told,
        totals.app.as_slice(),
        totals.trace.as_slice(),
        &totals.tally,
    )?;
    Ok(told.as_slice() == text)
}

/// What a text tells, as `add_totals` writes it. None: it is another text.
pub fn read_totals(alloc: Global, text: &[u8]) -> Result<Option<Totals>, Memory>
    ensures told { IfOk result (λ read. IfSome read (IsTold text.now)) }
{
    let parts = parts_of(text);
    if !is_name(parts.app) || !is_name(parts.trace) {
        return Ok(None);
    }
    let totals = match seeming_totals(alloc, &parts)? {
        Some(totals) => totals,
        None => return Ok(None),
    };
    if is_told(alloc, &totals, text)? {
        Ok(Some(totals))
    } else {
        Ok(None)
    }
}

// The line of a text, counted from 1, that is the first in which it differs from another one.
fn differing_line(text: &[u8], other: &[u8]) -> u32 {
    let mut line: u32 = 1;
    for place in 0..text.len() {
        if place >= other.len() || text[place] != other[place] {
            return line;
        }
        if text[place] == b'\n' {
            line = line.saturating_add(1);
        }
    }
    line
}

/// The line, counted from 1, in which a text is the first time not as a campaign would write what it seems to tell.
pub(crate) fn flawed_line(alloc: Global, text: &[u8]) -> Result<u32, Memory> {
    let parts = parts_of(text);
    if !is_name(parts.app) {
        return Ok(1);
    }
    let tally = seeming_tally(alloc, parts.lines)?;
    let mut told = Bytes::new(alloc);
    add_totals(&mut told, parts.app, parts.trace, &tally)?;
    let line = differing_line(text, told.as_slice());
    Ok(if is_name(parts.trace) {
        line
    } else {
        line.min(2)
    })
}

impl Totals {
    /// Adds the counts of others of the same application and the same trace. An error is the rule U2 or U3, and then
    /// nothing changed. It takes no memory.
    pub fn add(&mut self, more: &Totals) -> Result<(), SumRule>
        ensures adds { OnOk result (Adds self.old more.now self.new) }
        ensures kept { IfErr result (λ rule. self.new ≡ self.old) }
        ensures flaw { IfErr result (λ rule. IsFlaw rule self.old more.now) }
    {
        if more.app.as_slice() != self.app.as_slice() {
            return Err(SumRule::U2);
        }
        if more.trace.as_slice() != self.trace.as_slice() {
            return Err(SumRule::U3);
        }
        self.tally.add(&more.tally);
        Ok(())
    }
}
