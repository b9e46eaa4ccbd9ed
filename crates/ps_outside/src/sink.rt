// An output that takes bytes.

ghost use Rattle.std.specs.Prelude.{◌≡◌, ◌≤◌, ◌<◌, ◌++◌, [], ℕ, List, Bool, IsTrue, length, take, IfOk, OnOk, OnErr};
ghost use Rattle.std.specs.Prelude.{IfErr};
ghost use Rattle.ps_outside.specs.Outside.{Rose};

use crate::Failed;

/// An output that takes bytes.
///
/// Contracts know of the sink whether it tells its bytes and, where it does, those that it took. It has a count
/// of faults, which never falls. It is a u64 that begins at 0 and stays at its largest value.
pub trait Sink {
    /// Whether the sink tells its bytes. No call changes it.
    ghost tells: { Self → Bool };

    /// The bytes that it took, where it tells them.
    ghost taken: { Self → List ℕ };

    /// How often writes have failed.
    ghost faults: { Self → ℕ };

    /// Takes the first bytes of a piece, at least one of a piece that is not empty, and says how many.
    ///
    /// `Failed` comes only where the count rose in this call; nothing was then taken. A write that succeeds leaves
    /// the count as it was.
    fn write(&mut self, piece: &[u8]) -> Result<usize, Failed>
        ensures some { 0 < length piece.now → IfOk result (λ n. 0 < n) }
        ensures fits { IfOk result (λ n. n ≤ length piece.now) }
        ensures bytes { IsTrue (tells self.old) →
            IfOk result (λ n. taken self.new ≡ taken self.old ++ take n piece.now) }
        ensures failed { OnErr result (Rose (faults self.old) (faults self.new)) }
        ensures exact { OnOk result (faults self.new ≡ faults self.old) }
        ensures unchanged { IsTrue (tells self.old) → OnErr result (taken self.new ≡ taken self.old) }

        ensures counts { faults self.old ≤ faults self.new }
        ensures telling { tells self.new ≡ tells self.old };
}

/// An output that may hold bytes back, up to its end.
pub trait Output: Sink {
    /// The bytes that it took and has not handed on.
    ghost held_back: { Self → List ℕ };

    /// Hands on what is held back. A failure counts as a write that failed.
    fn finish(&mut self) -> Result<(), Failed>
        ensures handed_on { OnOk result (held_back self.new ≡ []) }
        ensures failed { OnErr result (Rose (Self.faults self.old) (Self.faults self.new)) }
        ensures exact { OnOk result (Self.faults self.new ≡ Self.faults self.old) }
        ensures counts { Self.faults self.old ≤ Self.faults self.new }
        ensures kept { Self.taken self.new ≡ Self.taken self.old }
        ensures telling { Self.tells self.new ≡ Self.tells self.old };

    /// Whether the last write, or the last handing on, failed since nobody reads the output any more, as after `|
    /// head`.
    fn is_closed(&self) -> bool;
}

/// A write of a whole piece that stopped after this many of its bytes, which were taken.
#[derive(Clone, Copy)]
pub struct Stopped {
    pub taken: usize,
}

/// Writes all of a piece, by as many writes as it needs. It takes no memory.
///
/// `Stopped` comes only where the sink's count rose in this call, at the one write that failed. Where all is written
/// the count is as it was.
#[inline(always)]
pub fn write_all<S: Sink>(out: &mut S, piece: &[u8]) -> Result<(), Stopped>
    ensures whole { IsTrue (S.tells out.old) → OnOk result (S.taken out.new ≡ S.taken out.old ++ piece.now) }
    ensures part { IsTrue (S.tells out.old) →
        IfErr result (λ stop. S.taken out.new ≡ S.taken out.old ++ take stop.taken piece.now) }
    ensures within { IfErr result (λ stop. stop.taken ≤ length piece.now) }
    ensures stopped { OnErr result (Rose (S.faults out.old) (S.faults out.new)) }
    ensures exact { OnOk result (S.faults out.new ≡ S.faults out.old) }

    ensures counts { S.faults out.old ≤ S.faults out.new }
    ensures telling { S.tells out.new ≡ S.tells out.old }
{
    let mut done = 0;
    while done < piece.len() {
        match out.write(&piece[done..]) {
            Ok(n) => done += n,
            Err(Failed) => return Err(Stopped { taken: done }),
        }
    }
    Ok(())
}
