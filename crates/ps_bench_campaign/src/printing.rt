// The faults of trials, each as a line of a fault file.

ghost use Rattle.std.specs.Prelude.{◌≡◌, ◌++◌, OnOk, decimal};
ghost use Rattle.hex.specs.Hex.{encode_lower};
ghost use Rattle.ps_bench_campaign.specs.Printing.{fault_text, faults_text};
ghost use Rattle.ps_bench_cases.specs.Expanded.{region_text, turn_text};
ghost use Rattle.ps_bench_trials.specs.Faults.{fault_by};
ghost use Rattle.ps_bench_trials.specs.Trials.{trial_of};

use crate::trials::{Campaign, Codes};
use ps_base::{Bytes, Memory};
use ps_bench_frame::pieces::add_short;
use ps_bench_trials::{Room, draw_trial, fault_of};
use ps_model::{Channel, Fault, Region};
use std::alloc::Global;

// The words of a channel and a region.
fn region_text(channel: Channel, region: Region) -> &'static [u8]
    ensures { result.now ≡ region_text channel region }
{
    match (channel, region) {
        (Channel::A, Region::Code) => b"A code ",
        (Channel::A, Region::Cells) => b"A memory ",
        (Channel::B, Region::Code) => b"B code ",
        (Channel::B, Region::Cells) => b"B memory ",
    }
}

// A number between two pieces.
fn add_between(text: &mut Bytes, before: &[u8], number: u32, behind: &[u8]) -> Result<(), Memory>
    ensures { OnOk result (text.new ≡ text.old ++ before.now ++ decimal number ++ behind.now) }
{
    text.extend_from_slice(before)?;
    add_short(text, number)?;
    text.extend_from_slice(behind)
}

// Bytes in hexadecimal digits.
fn add_digits(alloc: Global, text: &mut Bytes, bytes: &[u8]) -> Result<(), Memory>
    ensures { OnOk result (text.new ≡ text.old ++ encode_lower bytes.now) }
{
    let digits = hex::encode(alloc, bytes)?;
    text.extend_from_slice(digits.as_bytes())
}

// The turn of a fault, where it strikes before one.
fn add_turn(text: &mut Bytes, turn: u32) -> Result<(), Memory>
    ensures { OnOk result (text.new ≡ text.old ++ turn_text turn) }
{
    if turn == 0 {
        return Ok(());
    }
    add_between(text, b"turn ", turn, b" ")
}

// The line of a fault: when it strikes, what it strikes, and what stands there then.
fn add_fault(alloc: Global, text: &mut Bytes, fault: &Fault) -> Result<(), Memory>
    ensures { OnOk result (text.new ≡ text.old ++ fault_text fault.now) }
{
    let region = region_text(fault.channel, fault.region);
    add_between(text, b"before ", fault.scan, b" ")?;
    add_turn(text, fault.turn)?;
    add_between(text, region, fault.at, b" ")?;
    add_digits(alloc, text, fault.bytes.as_slice())?;
    text.extend_from_slice(b"\n")
}

// The line of the fault of the trial of a number.
fn add_numbered(
    alloc: Global,
    text: &mut Bytes,
    codes: &Codes,
    room: &Room,
    number: u64,
) -> Result<(), Memory>
    ensures { OnOk result (text.new ≡ text.old
        ++ fault_text (fault_by codes.now.a codes.now.b (trial_of room.now number))) }
{
    let trial = draw_trial(number, room);
    let fault = fault_of(alloc, &trial, codes.a.as_slice(), codes.b.as_slice())?;
    add_fault(alloc, text, &fault)
}

/// The lines of the faults of the trials of a campaign, in the order of their numbers, where these are the codes of
/// both channels and what may be struck.
pub(crate) fn add_faults(
    alloc: Global,
    text: &mut Bytes,
    codes: &Codes,
    room: &Room,
    asked: &Campaign,
) -> Result<(), Memory>
    ensures { OnOk result (text.new ≡ text.old
        ++ faults_text codes.now.a codes.now.b room.now asked.now.from asked.now.count) }
{
    for done in 0..asked.count {
        add_numbered(
            alloc,
            text,
            codes,
            room,
            u64::from(asked.from) + u64::from(done),
        )?;
    }
    Ok(())
}
