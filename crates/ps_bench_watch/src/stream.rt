// A stream of bytes.

ghost use Rattle.std.specs.Prelude.{◌≡◌, ◌≤◌, ◌<◌, ◌++◌, [], ℕ, List, Bool, IsTrue, Ok, length, take, IfOk, OnOk};
ghost use Rattle.std.specs.Prelude.{OnErr};
ghost use Rattle.ps_outside.specs.Outside.{Rose};

use ps_outside::Failed;

/// A stream of bytes that is read forward only.
///
/// Contracts know of it whether it tells its bytes and, where it does, those that are still to come. It has a count of
/// faults, which never falls. It is a u64 that begins at 0 and stays at its largest value.
pub trait Stream {
    /// Whether the stream tells its bytes. No call changes it.
    ghost tells: { Self → Bool };

    /// The bytes that are still to come, where it tells them.
    ghost coming: { Self → List ℕ };

    /// How often reads have failed.
    ghost faults: { Self → ℕ };

    /// Reads the next bytes into the first places of `buf`, as many as are there, and says how many; where none is
    /// there it waits for the first one.
    ///
    /// Ok(0) for a buffer that is not empty comes only at the end. `Failed` comes only where the count rose in this
    /// call; nothing was then read. A read that succeeds leaves the count as it was.
    fn read_some(&mut self, buf: &mut [u8]) -> Result<usize, Failed>
        ensures fits { IfOk result (λ n. n ≤ length buf.new) }
        ensures gives { IsTrue (tells self.old) →
            IfOk result (λ n. coming self.old ≡ take n buf.new ++ coming self.new) }
        ensures end { IsTrue (tells self.old) → 0 < length buf.new → result ≡ Ok 0 → coming self.new ≡ [] }
        ensures unread { IsTrue (tells self.old) → OnErr result (coming self.new ≡ coming self.old) }
        ensures failed { OnErr result (Rose (faults self.old) (faults self.new)) }
        ensures exact { OnOk result (faults self.new ≡ faults self.old) }

        ensures counts { faults self.old ≤ faults self.new }
        ensures telling { tells self.new ≡ tells self.old };
}
