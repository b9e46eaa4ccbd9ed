// Reading of a message.

ghost use Rattle.std.specs.Prelude.{◌≡◌, ◌≤◌, ◌<◌, ◌++◌, [], ℕ, List, IsTrue, true, false, length, take, IfOk};
ghost use Rattle.ps_lsp_rpc.specs.Frames.{Gives, IsHeadOf, SaysFirst, Tells, is_whole};
ghost use Rattle.ps_lsp_rpc.specs.Streams.{TakesUpTo};

use crate::heads::length_said;
use crate::incoming::Incoming;
use ps_base::Bytes;
use ps_outside::ReadFail;
use std::alloc::Global;

/// The largest body of a message, in bytes.
pub const LARGEST_MESSAGE: u32 = 16_777_216;
/// The longest head of a message, in bytes.
pub const LONGEST_HEAD: usize = 4_096;

// The end of the last line of a head, and the empty line.
const HEAD_END: [u8; 4] = [13, 10, 13, 10];

/// What is read of a stream.
#[derive(Drop)]
pub enum Frame {
    /// The body of a message.
    Message(Bytes),
    /// The stream ends where a message may begin.
    End,
    /// A head that says no length. The stream goes on after it.
    Headless,
    /// A head that does not end, or a body of over `LARGEST_MESSAGE` bytes: what follows cannot be told apart.
    TooLong,
    /// The stream ends within a message.
    Cut,
}

// Whether a head ends with an empty line.
fn is_whole(head: &[u8]) -> bool
    ensures { result ≡ is_whole head.now }
{
    head.ends_with(&HEAD_END)
}

// The bytes up to the first empty line, and with it; or as many as a head may have, or as there are.
#[tactic(auto, using(crate::proofs::Taking::first_more, crate::proofs::Taking::head_ended, crate::proofs::Taking::head_full))]
fn take_head<I: Incoming>(alloc: Global, input: &mut I) -> Result<Bytes, ReadFail>
    ensures head { IsTrue (I.tells input.old) → IfOk result (λ head. IsHeadOf (I.ahead input.old) head (I.ahead input.new)) }
    ensures telling { I.tells input.new ≡ I.tells input.old }
{
    let mut bytes = Bytes::new(alloc);
    'head: while bytes.len() < LONGEST_HEAD && !is_whole(bytes.as_slice()) {
        match input.next_byte()? {
            Some(byte) => bytes.push(byte)?,
            None => return Ok(bytes),
        }
    }
    Ok(bytes)
}

// As many bytes, or as there are.
fn take_bytes<I: Incoming>(alloc: Global, input: &mut I, count: usize) -> Result<Bytes, ReadFail>
    ensures taken { IsTrue (I.tells input.old) → IfOk result (TakesUpTo count (I.ahead input.old) (I.ahead input.new)) }
    ensures few { IfOk result (λ bytes. length bytes ≤ count) }
    ensures telling { I.tells input.new ≡ I.tells input.old }
{
    let mut bytes = Bytes::new(alloc);
    'bytes: while bytes.len() < count {
        match input.next_byte()? {
            Some(byte) => bytes.push(byte)?,
            None => return Ok(bytes),
        }
    }
    Ok(bytes)
}

// The body of the length that a head says.
fn take_body<I: Incoming>(alloc: Global, input: &mut I, count: u32) -> Result<Frame, ReadFail>
    ensures body { IsTrue (I.tells input.old) → (head : List ℕ) → is_whole head ≡ true → SaysFirst head count →
        IfOk result (Tells head (I.ahead input.old) (I.ahead input.new)) }
    ensures telling { I.tells input.new ≡ I.tells input.old }
{
    if count > LARGEST_MESSAGE {
        return Ok(Frame::TooLong);
    }
    let body = take_bytes(alloc, input, count as usize)?;
    if body.len() == count as usize {
        Ok(Frame::Message(body))
    } else {
        Ok(Frame::Cut)
    }
}

// What there is in place of a message where a head does not end.
fn endless(head: &[u8]) -> Frame
    ensures { (behind left : List ℕ) → is_whole head.now ≡ false → length head.now ≤ LONGEST_HEAD →
        (length head.now < LONGEST_HEAD → behind ≡ []) → Tells head.now behind left result }
{
    if head.is_empty() {
        Frame::End
    } else if head.len() < LONGEST_HEAD {
        Frame::Cut
    } else {
        Frame::TooLong
    }
}

/// Reads a message: the one at the front of the stream, where one stands there, and else why there is none. Lines of
/// the head other than the length are left out. It takes at most `LONGEST_HEAD` bytes of a head and `LARGEST_MESSAGE`
/// of a body, and returns for any bytes. An error: a read fails, or memory runs out.
pub fn read_frame<I: Incoming>(alloc: Global, input: &mut I) -> Result<Frame, ReadFail>
    ensures gives { IsTrue (I.tells input.old) → IfOk result (Gives (I.ahead input.old) (I.ahead input.new)) }
    ensures telling { I.tells input.new ≡ I.tells input.old }
{
    let head = take_head(alloc, input)?;
    if !is_whole(head.as_slice()) {
        return Ok(endless(head.as_slice()));
    }
    match length_said(head.as_slice()) {
        Some(length) => take_body(alloc, input, length),
        None => Ok(Frame::Headless),
    }
}
