// Who is told of a call while it runs.

ghost use Rattle.std.specs.Prelude.{[], None, false};

use ps_base::Bytes;
use ps_edge::KnownListener;
use ps_message::{Listener, Unread};
use std::alloc::Global;

/// Who is told of a call while it runs: in words, of what a command meets, and how far a search has come.
#[derive(Drop)]
pub struct Onlookers<N, W> {
    /// Who hears what a command meets.
    pub hearer: N,
    /// Who watches a search.
    pub observer: W,
}

/// Nobody, for a command of which no messages are asked for.
#[derive(Clone, Copy)]
pub struct Nobody;

impl Listener for Nobody {
    ghost tells = { λ _. false };

    ghost quiet = { λ _. false };

    ghost heard = { λ _. [] };

    fn is_quiet(&self) -> bool {
        true
    }

    fn text_of(&self, alloc: Global, _name: &str, _most: u32) -> Bytes {
        Bytes::new(alloc)
    }

    fn why_unread(&self, _name: &str) -> Option<Unread> {
        None
    }

    fn hear(&mut self, _text: &str) {}
}

impl KnownListener for Nobody {
    ghost reads = { λ _ _. [] };

    ghost unread = { λ _ _. None };

    ghost room = { λ _. 0 };

    fn first_of(&self, alloc: Global, _name: &str, _most: u32) -> Bytes {
        Bytes::new(alloc)
    }

    fn reason(&self, _name: &str) -> Option<Unread> {
        None
    }

    fn hear_all(&mut self, _bytes: &[u8]) {}
}
