// Odd comments, while they are found.

ghost use Rattle.std.specs.Prelude.{◌≡◌, ◌≤◌, ◌∷◌, [], IfOk, IsTrue, true, vec_len};

use ps_base::{Memory, Place};
use ps_notes::{OddComment, Oddity};
use std::alloc::Global;

// The most odd comments that are told.
const MOST_ODD: usize = 20;

/// The odd comments that were found, at most one of a line, and whether memory sufficed for them.
#[derive(Drop)]
pub(crate) struct Odd {
    list: Vec<OddComment>,
    last: u32,
    is_whole: bool,
    ghost few: { vec_len list ≤ 20 },
}

impl Odd {
    ghost use Rattle.ps_findings.specs.Comments.{odd_at};
    ghost use Rattle.ps_findings.specs.Walking.{HasAdded, told};

    /// None. It takes no memory.
    pub(crate) fn new(alloc: Global) -> Odd
        ensures none { result.list.items ≡ [] }
        ensures last { result.last ≡ 0 }
        ensures whole { result.is_whole ≡ true }
    {
        Odd {
            list: Vec::new(alloc),
            last: 0,
            is_whole: true,
        }
    }

    /// What is odd at a place, if something is.
    pub(crate) fn add(&mut self, found: Option<Oddity>, place: Place)
        ensures { HasAdded (odd_at place found) self.old self.new }
    {
        if let Some(what) = found {
            self.push(what, place);
        }
    }

    // One more, unless its line has one or there are enough.
    fn push(&mut self, what: Oddity, place: Place)
        ensures { HasAdded (record { what = what; place = place } ∷ []) self.old self.new }
    {
        if self.last < place.line && self.list.len() < MOST_ODD {
            self.last = place.line;
            if self.list.push(OddComment { what, place }).is_err() {
                self.is_whole = false;
            }
        }
    }

    /// All of them. An error means out of memory.
    pub(crate) fn finish(self) -> Result<Vec<OddComment>, Memory>
        ensures { IfOk result (λ list. IsTrue self.is_whole × (list.items ≡ told self [])) }
    {
        if self.is_whole {
            Ok(self.list)
        } else {
            Err(Memory)
        }
    }
}
