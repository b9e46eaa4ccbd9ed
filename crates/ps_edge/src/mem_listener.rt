// A listener in memory.

ghost use Rattle.std.specs.Prelude.{◌≡◌, ◌≤◌, ◌++◌, [], true, IfOk, vec_len, vec_capacity};
ghost use Rattle.ps_edge.specs.Hearing.{IsFirst, heard_of};

use crate::known::KnownListener;
use ps_base::{Bytes, Memory};
use ps_message::{Listener, Unread};
use std::alloc::Global;
use std::collections::BTreeMap;

/// A listener in memory, which tells what it heard. It reads texts of its own, and every other name is missing.
pub struct MemListener {
    texts: BTreeMap<String, Bytes>,
    heard: Vec<u8>,
    room: usize,
    is_quiet: bool,
    ghost fits: { vec_len heard ≤ room },
    ghost kept: { room ≤ vec_capacity heard },
}

impl Drop for MemListener {
    // One call for whoever owns one, in place of a walk through all that it holds.
    fn drop(self) {
        let MemListener {
            texts: _,
            heard: _,
            room: _,
            is_quiet: _,
        } = self;
    }
}

impl MemListener {
    ghost use Rattle.ps_edge.specs.Listening.{listener_of, reads_in, unread_in};

    /// A listener that reads these texts, by their names, and has room for `room` bytes in all, the memory for which it
    /// takes here. It asks for no messages, or for all.
    pub fn new(
        alloc: Global,
        texts: BTreeMap<String, Bytes>,
        room: u32,
        is_quiet: bool,
    ) -> Result<MemListener, Memory>
        ensures { IfOk result (λ listener. listener_of listener ≡
            record { quiet = is_quiet; heard = []; reads = reads_in texts; unread = unread_in texts; room = room }) }
    {
        let heard = Vec::with_capacity(alloc, room as usize)?;
        Ok(MemListener {
            texts,
            heard,
            room: room as usize,
            is_quiet,
        })
    }

    /// What it heard.
    pub fn heard(&self) -> &[u8]
        ensures { result.now ≡ (listener_of self.now).heard }
    {
        &self.heard
    }
}

impl Listener for MemListener {
    ghost use Rattle.ps_edge.specs.Listening.{listener_of};

    ghost tells = { λ _. true };

    ghost quiet = { λ l. (listener_of l).quiet };

    ghost heard = { λ l. (listener_of l).heard };

    fn is_quiet(&self) -> bool {
        self.is_quiet
    }

    fn text_of(&self, alloc: Global, name: &str, most: u32) -> Bytes {
        self.first_of(alloc, name, most)
    }

    fn why_unread(&self, name: &str) -> Option<Unread> {
        self.reason(name)
    }

    fn hear(&mut self, text: &str) {
        self.hear_all(text.as_bytes());
    }
}

impl KnownListener for MemListener {
    ghost use Rattle.ps_edge.specs.Listening.{listener_of};

    ghost reads = { λ l. (listener_of l).reads };

    ghost unread = { λ l. (listener_of l).unread };

    ghost room = { λ l. (listener_of l).room };

    fn first_of(&self, alloc: Global, name: &str, most: u32) -> Bytes {
        match self.texts.get(name) {
            Some(text) => first_bytes(alloc, text.as_slice(), most),
            None => Bytes::new(alloc),
        }
    }

    fn reason(&self, name: &str) -> Option<Unread> {
        match self.texts.get(name) {
            Some(_) => None,
            None => Some(Unread::Missing),
        }
    }

    fn hear_all(&mut self, bytes: &[u8])
        ensures heard { (listener_of self.new).heard ≡
            (listener_of self.old).heard ++ heard_of (listener_of self.old).room bytes.now }
    {
        if bytes.len() <= self.room - self.heard.len() {
            match self.heard.extend_from_slice(bytes) {
                Ok(()) => (),
                Err(_) => unreachable!(),
            }
        }
    }
}

// The first bytes of a text, or none where memory is out.
fn first_bytes(alloc: Global, text: &[u8], most: u32) -> Bytes
    ensures { IsFirst most text.now result }
{
    let count = text.len().min(most as usize);
    match Bytes::from_slice(alloc, &text[..count]) {
        Ok(bytes) => bytes,
        Err(Memory) => Bytes::new(alloc),
    }
}
