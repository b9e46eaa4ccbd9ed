// What is told of a refusal.

ghost use Rattle.std.specs.Prelude.{◌≡◌, IfOk, IsTrue};
ghost use Rattle.ps_edge.specs.Hearing.{listener_seen};
ghost use Rattle.ps_edge.specs.Spoken.{most_of};
ghost use Rattle.ps_edge.specs.Telling.{IsOfOther, IsOfRefusal, source_of};

use crate::known::KnownListener;
use crate::spoken::Spoken;
use ps_accepted::accept_text;
use ps_base::{Bytes, Fail, Memory, Refusal, Rule};
use ps_findings::{
    RegionSizes, detail_on, dirty_told, header_told, inputs_told, past_told, refusal_of_app,
};
use ps_message::message;
use ps_top::{Left, Words};
use ps_vote::{Seat, VoteSizes, VoteWorld};
use std::alloc::Global;

// The text of the application that is left, or nothing.
fn source_in(left: &Left) -> &[u8]
    ensures { result.now ≡ source_of left.now.text }
{
    match &left.text {
        Some(text) => text.as_slice(),
        None => &[],
    }
}

// The letter of a seat that is dirty, or a blank.
fn mark(world: &VoteWorld, seat: Seat, letter: u8) -> u8 {
    if world.is_dirty(seat) { letter } else { b' ' }
}

// What is told of a fault that came while another seat was dirty, or after one of another channel.
fn fault_told(alloc: Global, left: &Left, text: &[u8], refusal: &Refusal) -> Result<Bytes, Memory> {
    match &left.votes {
        Some(world) => {
            let seats = [
                mark(world, Seat::A, b'A'),
                mark(world, Seat::B, b'B'),
                mark(world, Seat::C, b'C'),
            ];
            dirty_told(alloc, text, refusal.place.line, &seats)
        }
        None => detail_on(alloc, text, refusal),
    }
}

// The lengths of the regions of an application of this text; nothing where it is refused.
fn sizes_of(alloc: Global, source: &[u8]) -> Result<Option<VoteSizes>, Memory> {
    match accept_text(alloc, source) {
        Ok(accepted) => {
            let (app, _) = accepted.into_parts();
            Ok(Some(VoteWorld::build(alloc, &app)?.sizes()))
        }
        Err(Fail::Memory) => Err(Memory),
        Err(Fail::Refused(_)) => Ok(None),
    }
}

// The lengths of the regions of a channel.
fn regions(channel: u8, code: u32, memory: u32) -> RegionSizes {
    RegionSizes {
        channel,
        code,
        memory,
    }
}

// What is told of a fault whose bytes pass the end of its region.
fn region_told(
    alloc: Global,
    source: &[u8],
    text: &[u8],
    refusal: &Refusal,
) -> Result<Bytes, Memory> {
    let Some(sizes) = sizes_of(alloc, source)? else {
        return Ok(Bytes::new(alloc));
    };
    let channels = [
        regions(b'A', sizes.code[0], sizes.cells[0]),
        regions(b'B', sizes.code[1], sizes.cells[1]),
        regions(b'C', sizes.code[2], sizes.cells[2]),
    ];
    past_told(alloc, text, refusal.place.line, &channels)
}

// What is told of a refusal of a text besides its rule: where a trace has not the inputs of the application, what these
// are; which seat was dirty; how long a region is; or what the line tells.
fn told_on(alloc: Global, left: &Left, text: &[u8], refusal: &Refusal) -> Result<Bytes, Memory> {
    match refusal.rule {
        Rule::T2 => inputs_told(alloc, source_in(left)),
        Rule::T3 => header_told(alloc, source_in(left), text),
        Rule::F3 => region_told(alloc, source_in(left), text, refusal),
        Rule::F4 => fault_told(alloc, left, text, refusal),
        _ => detail_on(alloc, text, refusal),
    }
}

// The message of a refusal of another text of this name, which is read for its line.
fn refusal_of_other<L: KnownListener>(
    alloc: Global,
    name: &str,
    left: &Left,
    spoken: Spoken,
    refusal: &Refusal,
    listener: &L,
) -> Result<Bytes, Memory>
    ensures { IsTrue (L.tells listener.now) → IfOk result (IsOfOther (most_of spoken)
        (listener_seen L.quiet L.heard L.reads L.unread L.room listener.now) name.now refusal.now) }
{
    let text = listener.first_of(alloc, name, spoken.most());
    let words = told_on(alloc, left, text.as_slice(), refusal)?;
    message(
        alloc,
        name.as_bytes(),
        text.as_slice(),
        refusal,
        words.as_slice(),
    )
}

// The message of the refusal that is left; empty where none is, or no word names its text.
pub(crate) fn refusal_on<L: KnownListener>(
    alloc: Global,
    words: &Words,
    left: &Left,
    listener: &L,
) -> Result<Bytes, Memory>
    ensures { IsTrue (L.tells listener.now) → IfOk result (IsOfRefusal words.now
        (listener_seen L.quiet L.heard L.reads L.unread L.room listener.now) left.now) }
{
    let Some(refusal) = &left.refusal else {
        return Ok(Bytes::new(alloc));
    };
    let spoken = Spoken::by_rule(refusal.rule);
    let Some(name) = spoken.name_in(words) else {
        return Ok(Bytes::new(alloc));
    };
    match spoken {
        Spoken::App => refusal_of_app(alloc, name, source_in(left), refusal),
        _ => refusal_of_other(alloc, name, left, spoken, refusal, listener),
    }
}
