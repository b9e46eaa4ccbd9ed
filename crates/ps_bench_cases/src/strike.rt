// The fault that a line asks for.

ghost use Rattle.std.specs.Prelude.{◌≡◌, ◌≤◌, length, drop, Ok, IfOk};
ghost use Rattle.std.specs.Option.{ok_or};
ghost use Rattle.ps_trace.specs.Words.{words};
ghost use Rattle.ps_trace.specs.Faults.{channel_of, region_of, bytes_said};
ghost use Rattle.ps_bench_names.specs.Words.{counted};
ghost use Rattle.ps_bench_cases.specs.Line.{strike_of, struck_said, target_said, fault_said};
ghost use Rattle.ps_bench_cases.specs.declared.rule.CaseRule.TheVariants.{K1};
ghost use Rattle.ps_bench_cases.specs.Parts.{both};

use crate::deed::Deed;
use crate::numbers::{count_said, number_said};
use crate::parts::both;
use crate::rule::CaseRule;
use ps_base::limits::MOST_FAULT_BYTES;
use ps_base::{Bytes, Memory};
use ps_bench_names::{is_none_left, take_word};
use ps_model::{Channel, Fault, Region};
use ps_trace::Target;
use std::alloc::Global;

// A fault, perhaps before a turn.
pub(crate) fn fault_said(
    alloc: Global,
    line: &[u8],
    at: usize,
) -> Result<Result<Deed, CaseRule>, Memory>
    requires { at ≤ length line.now }
    ensures { IfOk result (λ deed. deed ≡ fault_said (counted (words (drop at line.now)))) }
{
    let (word, next) = take_word(line, at);
    if word == b"turn".as_slice() {
        let (turn, next) = take_word(line, next);
        target_said(alloc, line, next, count_said(turn))
    } else {
        target_said(alloc, line, at, Ok(0))
    }
}

// A channel, a region, an offset and bytes.
fn target_said(
    alloc: Global,
    line: &[u8],
    at: usize,
    turn: Result<u32, CaseRule>,
) -> Result<Result<Deed, CaseRule>, Memory>
    requires { at ≤ length line.now }
    ensures { IfOk result (λ deed. deed ≡ target_said turn (counted (words (drop at line.now)))) }
{
    let (channel, next) = take_word(line, at);
    let (region, next) = take_word(line, next);
    let (offset, next) = take_word(line, next);
    let (bytes, next) = take_word(line, next);
    if is_none_left(line, next) {
        struck_said(alloc, turn, channel, region, offset, bytes)
    } else {
        Ok(Err(CaseRule::K1))
    }
}

// The words of a channel, a region, an offset and bytes.
fn struck_said(
    alloc: Global,
    turn: Result<u32, CaseRule>,
    channel: &[u8],
    region: &[u8],
    offset: &[u8],
    bytes: &[u8],
) -> Result<Result<Deed, CaseRule>, Memory>
    ensures { IfOk result (λ deed. deed ≡ struck_said turn channel.now region.now offset.now bytes.now) }
{
    let bytes = bytes_said(alloc, bytes)?;
    let place = both(number_said(offset), bytes);
    let place = both(region_said(region), place);
    Ok(strike_of(both(turn, both(channel_said(channel), place))))
}

// The parts of a fault: turn, channel, region, offset and bytes.
type Parts = (u32, (Channel, (Region, (u32, Bytes))));

// The fault of these parts, whose scan is not yet known.
fn strike_of(parts: Result<Parts, CaseRule>) -> Result<Deed, CaseRule>
    ensures { result ≡ strike_of parts }
{
    match parts {
        Ok((turn, (channel, (region, (at, bytes))))) => Ok(Deed::Fault(Fault {
            scan: 0,
            turn,
            channel,
            region,
            at,
            bytes,
        })),
        Err(rule) => Err(rule),
    }
}

// The channel that a word names.
fn channel_said(word: &[u8]) -> Result<Channel, CaseRule>
    ensures { result ≡ ok_or (channel_of word.now) K1 }
{
    Channel::named(word).ok_or(CaseRule::K1)
}

// The region that a word names.
fn region_said(word: &[u8]) -> Result<Region, CaseRule>
    ensures { result ≡ ok_or (region_of word.now) K1 }
{
    if word == b"code".as_slice() {
        Ok(Region::Code)
    } else if word == b"memory".as_slice() {
        Ok(Region::Cells)
    } else {
        Err(CaseRule::K1)
    }
}

// The bytes that a word is: 1 to MOST_FAULT_BYTES of them, by two hexadecimal digits of either case each.
fn bytes_said(alloc: Global, word: &[u8]) -> Result<Result<Bytes, CaseRule>, Memory>
    ensures { IfOk result (λ bytes. bytes ≡ ok_or (bytes_said word.now) K1) }
{
    let mut bytes = [0u8; MOST_FAULT_BYTES as usize];
    if word.is_empty() || word.len() > 2 * bytes.len() {
        return Ok(Err(CaseRule::K1));
    }
    let half = &mut bytes[..word.len() / 2];
    match hex::decode_to_slice(word, half) {
        Ok(()) => Ok(Ok(Bytes::from_slice(alloc, half)?)),
        Err(_) => Ok(Err(CaseRule::K1)),
    }
}
