// What is told of a call: why it did not do all, and the notes on an application that `check` accepts.

ghost use Rattle.std.specs.Prelude.{◌≡◌, IsTrue, IfOk, OnErr};
ghost use Rattle.ps_edge.specs.Heard.{IsHeard};
ghost use Rattle.ps_edge.specs.Hearing.{listener_seen};
ghost use Rattle.ps_edge.specs.Spoken.{named};
ghost use Rattle.ps_edge.specs.Telling.{Carries, IsOfBadInput, IsOfField, IsOfTrip, IsOfUnread, IsTold};
ghost use Rattle.ps_edge.specs.Telling.{message_bytes, takes_memory, unread_told};

use crate::again::again_on;
use crate::asking::usage_on;
use crate::known::KnownListener;
use crate::noting::{comments_on, done_on};
use crate::refusing::refusal_on;
use crate::spoken::Spoken;
use ps_base::{Bytes, Memory};
use ps_findings::field_told;
use ps_message::{Listener, NO_MEMORY, UNWRITTEN, trip_message, unread_message};
use ps_top::{Left, Status, Trip, Words};
use std::alloc::Global;

// What is told of a call.
#[derive(Drop)]
pub(crate) enum Message {
    // The same words for every such call, which take no memory.
    Fixed(&'static str),
    // Words on this call, or none.
    Written(Bytes),
}

impl Message {
    // Its bytes.
    fn bytes(&self) -> &[u8]
        ensures { result.now ≡ message_bytes self.now }
    {
        match self {
            Message::Fixed(text) => text.as_bytes(),
            Message::Written(bytes) => bytes.as_slice(),
        }
    }
}

// The name of the first field that differs in a trip, and its values, by the text of the application that is left;
// empty where none is.
fn field_of(alloc: Global, left: &Left, trip: &Trip) -> Result<Bytes, Memory>
    ensures { IfOk result (IsOfField left.now.text trip.entry.now) }
{
    match &left.text {
        Some(text) => field_told(alloc, text.as_slice(), trip.cause, trip.values),
        None => Ok(Bytes::new(alloc)),
    }
}

// The message of the first scan that tripped, as it is left, and the lines on comments of the run; empty where none
// tripped.
fn trip_on<L: KnownListener>(
    alloc: Global,
    words: &Words,
    left: &Left,
    listener: &L,
) -> Result<Bytes, Memory>
    ensures { IsTrue (L.tells listener.now) → IfOk result (IsOfTrip words.now
        (listener_seen L.quiet L.heard L.reads L.unread L.room listener.now) left.now) }
{
    match (&left.trip, Spoken::Trace.name_in(words)) {
        (Some(trip), Some(name)) => {
            let field = field_of(alloc, left, trip)?;
            let mut bytes = trip_message(
                alloc,
                name.as_bytes(),
                trip.now,
                trip.cause,
                field.as_slice(),
            )?;
            let comments = comments_on(alloc, words, listener)?;
            bytes.extend_from_slice(comments.as_slice())?;
            Ok(bytes)
        }
        _ => Ok(Bytes::new(alloc)),
    }
}

// The message of a text of a call that cannot be read; empty where it can, or none is named.
fn unread_in<L: KnownListener>(
    alloc: Global,
    words: &Words,
    spoken: Spoken,
    listener: &L,
) -> Result<Bytes, Memory>
    ensures { IsTrue (L.tells listener.now) →
        IfOk result (λ bytes. bytes ≡ unread_told (L.unread listener.now) (named words.now spoken)) }
{
    let Some(name) = spoken.name_in(words) else {
        return Ok(Bytes::new(alloc));
    };
    match listener.reason(name) {
        Some(why) => unread_message(alloc, name.as_bytes(), why),
        None => Ok(Bytes::new(alloc)),
    }
}

// The message of the first text of a call that cannot be read, in the order in which they are read. A certificate has
// the place of a trace.
fn unread_on<L: KnownListener>(alloc: Global, words: &Words, listener: &L) -> Result<Bytes, Memory>
    ensures { IsTrue (L.tells listener.now) → IfOk result (IsOfUnread words.now (L.unread listener.now)) }
{
    let of_app = unread_in(alloc, words, Spoken::App, listener)?;
    if of_app.len() > 0 {
        return Ok(of_app);
    }
    let of_faults = unread_in(alloc, words, Spoken::Faults, listener)?;
    if of_faults.len() > 0 {
        return Ok(of_faults);
    }
    unread_in(alloc, words, Spoken::Trace, listener)
}

// The message of the refusal that is left, and after it that of the seat that was outvoted again.
fn bad_input_on<L: KnownListener>(
    alloc: Global,
    words: &Words,
    left: &Left,
    listener: &L,
) -> Result<Bytes, Memory>
    ensures { IsTrue (L.tells listener.now) → IfOk result (IsOfBadInput words.now
        (listener_seen L.quiet L.heard L.reads L.unread L.room listener.now) left.now) }
{
    let mut bytes = refusal_on(alloc, words, left, listener)?;
    let again = again_on(alloc, words, left)?;
    bytes.extend_from_slice(again.as_slice())?;
    Ok(bytes)
}

// What is told of a call that ended so.
fn message_on<L: KnownListener>(
    alloc: Global,
    words: &Words,
    status: Status,
    left: &Left,
    listener: &L,
) -> Result<Message, Memory>
    ensures told { IsTrue (L.tells listener.now) → IfOk result (Carries (IsTold words.now
        (listener_seen L.quiet L.heard L.reads L.unread L.room listener.now) left.now status)) }
    ensures memory { OnErr result (IsTrue (takes_memory words.now status)) }
{
    match status {
        Status::Done => Ok(Message::Written(done_on(alloc, words, left, listener)?)),
        Status::Refused => Ok(Message::Written(refusal_on(alloc, words, left, listener)?)),
        Status::BadInput => Ok(Message::Written(bad_input_on(alloc, words, left, listener)?)),
        Status::Usage => usage_on(alloc, words),
        Status::Tripped => Ok(Message::Written(trip_on(alloc, words, left, listener)?)),
        Status::ReadFault => Ok(Message::Written(unread_on(alloc, words, listener)?)),
        Status::WriteFault => Ok(Message::Fixed(UNWRITTEN)),
        Status::Memory => Ok(Message::Fixed(NO_MEMORY)),
    }
}

/// Tells a listener why a call did not do all: the message of a refusal, or why there is none. Where `check` accepted
/// an application it tells the notes on it. A message for which there is no memory is left out, and nothing is told
/// where `is_closed`: nobody reads the output any more.
pub(crate) fn tell<L: KnownListener>(
    alloc: Global,
    words: &Words,
    status: Status,
    left: &Left,
    is_closed: bool,
    listener: &mut L,
)
    ensures told { IsTrue (L.tells listener.old) →
        (let who = listener_seen L.quiet L.heard L.reads L.unread L.room listener.old in
        IsHeard is_closed (IsTold words.now who left.now status) (takes_memory words.now status) who (L.heard listener.new)) }
    ensures telling { L.tells listener.new ≡ L.tells listener.old }
{
    if is_closed || listener.is_quiet() {
        return;
    }
    if let Ok(message) = message_on(alloc, words, status, left, listener) {
        listener.hear_all(message.bytes());
    }
}
