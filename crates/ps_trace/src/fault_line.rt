// The lines of a fault file.

ghost use Rattle.std.specs.Prelude.{◌≡◌, ◌≤◌, ◌-◌, ◌∷◌, length, take, drop, IfOk};
ghost use Rattle.ps_trace.specs.Words.{number_of, words};
ghost use Rattle.ps_trace.specs.Faults.{above_zero, bytes_said, fault_said, first_of, line_of_parts, others_of};
ghost use Rattle.ps_trace.specs.Faults.{region_of, target_said};

use crate::target::{FaultLine, Target};
use crate::words::{next_word, number};
use ps_base::limits::MOST_FAULT_BYTES;
use ps_base::{Bytes, Memory};
use ps_model::Region;
use std::alloc::Global;

// The parts of the fault that a line is, whose first word stands from `from` to `upto`. None: it does not have the form
// of one.
pub(crate) fn read_fault<W: Target>(
    alloc: Global,
    line: &[u8],
    from: usize,
    upto: usize,
) -> Result<Option<FaultLine<W>>, Memory>
    requires ordered { from ≤ upto }
    requires within { upto ≤ length line.now }
    ensures { IfOk result (λ fault. fault ≡ fault_said W.named_by (take (upto - from) (drop from line.now) ∷ words (drop upto line.now))) }
{
    if &line[from..upto] != b"before".as_slice() {
        return Ok(None);
    }
    let (scan, next) = take_word(line, upto);
    let scan = count(scan);
    let (third, behind) = take_word(line, next);
    if third != b"turn".as_slice() {
        return read_target(alloc, line, next, scan, Some(0));
    }
    let (turn, next) = take_word(line, behind);
    read_target(alloc, line, next, scan, count(turn))
}

// Who is struck, the region, the offset and the bytes of a fault, which stand from `at` on.
fn read_target<W: Target>(
    alloc: Global,
    line: &[u8],
    at: usize,
    scan: Option<u32>,
    turn: Option<u32>,
) -> Result<Option<FaultLine<W>>, Memory>
    requires { at ≤ length line.now }
    ensures { IfOk result (λ fault. fault ≡ target_said W.named_by scan turn (words (drop at line.now))) }
{
    let (who, next) = take_word(line, at);
    let (region, next) = take_word(line, next);
    let (offset, next) = take_word(line, next);
    let (bytes, next) = take_word(line, next);
    if bytes.is_empty() || next_word(line, next).is_some() {
        return Ok(None);
    }
    let bytes = read_bytes(alloc, bytes)?;
    Ok(fault_line(
        scan,
        turn,
        W::named(who),
        region_named(region),
        number(offset),
        bytes,
    ))
}

// A fault line, where each of its parts is right.
fn fault_line<W: Target>(
    scan: Option<u32>,
    turn: Option<u32>,
    who: Option<W>,
    region: Option<Region>,
    at: Option<u32>,
    bytes: Option<Bytes>,
) -> Option<FaultLine<W>>
    ensures { result ≡ line_of_parts scan turn who region at bytes }
{
    Some(FaultLine {
        scan: scan?,
        turn: turn?,
        who: who?,
        region: region?,
        at: at?,
        bytes: bytes?,
    })
}

// The next word of a line, empty where there is none, and the place after it.
fn take_word(line: &[u8], at: usize) -> (&[u8], usize)
    requires { at ≤ length line.now }
    ensures within { result.1 ≤ length line.now }
    ensures first { result.0.now ≡ first_of (words (drop at line.now)) }
    ensures others { words (drop result.1 line.now) ≡ others_of (words (drop at line.now)) }
{
    match next_word(line, at) {
        Some((from, upto)) => (&line[from..upto], upto),
        None => (&line[at..at], line.len()),
    }
}

// A number from 1 on.
fn count(word: &[u8]) -> Option<u32>
    ensures { result ≡ above_zero (number_of word.now) }
{
    match number(word) {
        Some(0) => None,
        other => other,
    }
}

fn region_named(word: &[u8]) -> Option<Region>
    ensures { result ≡ region_of word.now }
{
    if word == b"code".as_slice() {
        Some(Region::Code)
    } else if word == b"memory".as_slice() {
        Some(Region::Cells)
    } else {
        None
    }
}

// The bytes that a word is: 1 to MOST_FAULT_BYTES of them, by two hexadecimal digits of either case each.
fn read_bytes(alloc: Global, word: &[u8]) -> Result<Option<Bytes>, Memory>
    ensures { IfOk result (λ bytes. bytes ≡ bytes_said word.now) }
{
    let mut bytes = [0u8; MOST_FAULT_BYTES as usize];
    if word.is_empty() || word.len() > 2 * bytes.len() {
        return Ok(None);
    }
    let half = &mut bytes[..word.len() / 2];
    match hex::decode_to_slice(word, half) {
        Ok(()) => Ok(Some(Bytes::from_slice(alloc, half)?)),
        Err(_) => Ok(None),
    }
}
