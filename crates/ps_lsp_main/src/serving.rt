// From the beginning of a stream to its end.

ghost use Rattle.std.specs.Prelude.{◌≡◌, [], IfErr, IfOk, IsTrue, OnErr, OnOk};
ghost use Rattle.ps_lsp_rpc.specs.Sending.{Continues};
ghost use Rattle.ps_lsp_text.specs.Stages.{ended_by, stage_of};
ghost use Rattle.ps_lsp_main.specs.Endings.{Goes, Leads, ending_in, status_of};
ghost use Rattle.ps_lsp_main.specs.Streaming.{EndsWith, HandsOn, HandsOnNext, IsFailed, IsShort, Serves, ServesFrame};
ghost use Rattle.ps_lsp_main.specs.Streaming.{ServesNext, ServesStream};
ghost use Rattle.ps_lsp_main.specs.declared.serving.Ending.{Ending as EndingOf};

use ps_lsp_rpc::{Frame, Incoming, Unsent, read_frame, send_reply};
use ps_lsp_text::Server;
use ps_outside::{Output, ReadFail};
use std::alloc::Global;

/// How a server ended.
#[derive(Clone, Copy)]
pub(crate) enum Ending {
    /// It was told to exit, after it was asked to shut down.
    Exit,
    /// It was told to exit without, or its input ended.
    Broken,
    /// Its input could not be read.
    Unread,
    /// Its output could not be written.
    Unwritten,
    /// Memory ran out.
    Memory,
}

impl Ending {
    /// The number with which the program exits: 0 after a shutdown, 1 without one, and else that of the other
    /// programs for the same failure.
    pub(crate) fn number(self) -> u8
        ensures { result ≡ status_of self }
    {
        match self {
            Ending::Exit => 0,
            Ending::Broken => 1,
            Ending::Unread => 5,
            Ending::Unwritten => 6,
            Ending::Memory => 7,
        }
    }
}

/// Writes what comes of a message with this body: its answer, once where it asks for one, and then a notice, where
/// there is one; and hands all of it on.
pub(crate) fn serve_one<O: Output>(
    alloc: Global,
    server: &mut Server,
    body: &[u8],
    out: &mut O,
) -> Result<(), Ending>
    ensures serves { IsTrue (O.tells out.old) →
        OnOk result (Serves server.old server.new body.now (O.taken out.old) (O.taken out.new)) }
    ensures goes { OnOk result (Goes body.now (stage_of server.old) (stage_of server.new)) }
    ensures handed_on { OnOk result (O.held_back out.new ≡ []) }
    ensures short { IfErr result IsShort }
    ensures begun { IsTrue (O.tells out.old) → OnErr result (Continues (O.taken out.old) (O.taken out.new)) }
    ensures telling { O.tells out.new ≡ O.tells out.old }
{
    let Ok(reply) = server.reply(alloc, body) else {
        return Err(Ending::Memory);
    };
    match send_reply(alloc, out, &reply) {
        Ok(()) => Ok(()),
        Err(Unsent::Unwritten) => Err(Ending::Unwritten),
        Err(Unsent::Memory) => Err(Ending::Memory),
    }
}

// How a server ended, if it did.
fn ending_of(server: &Server) -> Option<Ending>
    ensures { result ≡ ending_in (ended_by (stage_of server.now)) }
{
    match server.ended() {
        Some(true) => Some(Ending::Exit),
        Some(false) => Some(Ending::Broken),
        None => None,
    }
}

// Serves what is read; how the server ended after it, if it did.
fn serve_frame<O: Output>(
    alloc: Global,
    server: &mut Server,
    frame: &Frame,
    out: &mut O,
) -> Result<Option<Ending>, Ending>
    ensures served { IsTrue (O.tells out.old) →
        OnOk result (ServesFrame frame.now server.old server.new (O.taken out.old) (O.taken out.new)) }
    ensures leads { IfOk result (Leads frame.now (stage_of server.old) (stage_of server.new)) }
    ensures hands_on { OnOk result (HandsOn (O.held_back out.old) (O.held_back out.new)) }
    ensures short { IfErr result IsShort }
    ensures begun { IsTrue (O.tells out.old) → OnErr result (Continues (O.taken out.old) (O.taken out.new)) }
    ensures telling { O.tells out.new ≡ O.tells out.old }
{
    match frame {
        Frame::Message(body) => {
            serve_one(alloc, server, body.as_slice(), out)?;
            Ok(ending_of(server))
        }
        // what has no length has no body that is JSON either
        Frame::Headless => {
            serve_one(alloc, server, &[], out)?;
            Ok(ending_of(server))
        }
        Frame::TooLong => {
            serve_one(alloc, server, &[], out)?;
            Ok(Some(Ending::Broken))
        }
        Frame::End | Frame::Cut => Ok(Some(Ending::Broken)),
    }
}

// Reads the next message and serves it; how the server ended, if it did.
fn serve_next<I: Incoming, O: Output>(
    alloc: Global,
    server: &mut Server,
    input: &mut I,
    out: &mut O,
) -> Result<Option<Ending>, Ending>
    ensures served { IfOk result (λ ending. ServesNext (I.tells input.old) (O.tells out.old) server.old server.new ending
        (I.ahead input.old) (I.ahead input.new) (O.taken out.old) (O.taken out.new)) }
    ensures fails { IfErr result (λ ending. IsFailed ending × EndsWith (I.tells input.old) (O.tells out.old) ending
        (I.ahead input.old) (I.ahead input.new) (O.taken out.old) (O.taken out.new)) }
    ensures hands_on { HandsOnNext result (O.held_back out.old) (O.held_back out.new) }
    ensures reading { I.tells input.new ≡ I.tells input.old }
    ensures writing { O.tells out.new ≡ O.tells out.old }
{
    match read_frame(alloc, input) {
        Ok(frame) => serve_frame(alloc, server, &frame, out),
        Err(ReadFail::Fault) => Err(Ending::Unread),
        Err(ReadFail::Memory) => Err(Ending::Memory),
    }
}

/// Serves the messages of a stream, one after the other, until one tells it to exit or the stream ends. Each message
/// that is read is answered by just its answer and its notice, in the order of the messages, but for the last one where
/// the output fails or memory runs out.
pub(crate) fn serve<I: Incoming, O: Output>(alloc: Global, input: &mut I, out: &mut O) -> Ending
    ensures { ServesStream (I.tells input.old) (O.tells out.old) result (I.ahead input.old) (I.ahead input.new)
        (O.taken out.old) (O.taken out.new) (O.held_back out.old) (O.held_back out.new) }
{
    let mut server = Server::new(alloc);
    'messages: for _ in 0..u64::MAX {
        match serve_next(alloc, &mut server, input, out) {
            Ok(None) => (),
            Ok(Some(ending)) => return ending,
            Err(ending) => return ending,
        }
    }
    Ending::Unread
}

/// Serves the messages of a stream, and says the number with which the program exits: 0 after `exit` that follows
/// `shutdown`, 1 after one that does not and at the end of the input, 5 where the input cannot be read, 6 where the
/// output cannot be written, and 7 if memory runs out.
pub(crate) fn exit_of_stream<I: Incoming, O: Output>(
    alloc: Global,
    input: &mut I,
    out: &mut O,
) -> u8
    ensures exits { (ending : EndingOf) × (result ≡ status_of ending)
        × ServesStream (I.tells input.old) (O.tells out.old) ending (I.ahead input.old) (I.ahead input.new)
        (O.taken out.old) (O.taken out.new) (O.held_back out.old) (O.held_back out.new) }
{
    serve(alloc, input, out).number()
}
