// Files that are read by name.

ghost use Rattle.std.specs.Prelude.{◌≡◌, ◌≤◌, ℕ, List, Bool, IsTrue, Option, Some, IsSome, length, IfOk, OnOk, OnErr};
ghost use Rattle.ps_outside.specs.Outside.{Rose, Reads, CountsStay};

/// A read or a write that failed.
#[derive(Clone, Copy)]
pub struct Failed;

/// Files, read by name.
///
/// Contracts know of the files whether they tell their bytes and, where they do, the bytes that are held under
/// each name. For each name there is a count of faults, which never falls. It is a u64 that begins at 0 and
/// stays at its largest value.
pub trait Files {
    /// Whether the files tell their bytes. No call changes it.
    ghost tells: { Self → Bool };

    /// The bytes that are held under each name, where the files tell them. No read changes them.
    ghost held: { Self → List ℕ → Option (List ℕ) };

    /// How often reads of each name have failed.
    ghost faults: { Self → List ℕ → ℕ };

    /// Reads bytes of a file, from the offset `at` on, into the first places of `buf`, and says how many.
    ///
    /// Ok(0) for a buffer that is not empty comes exactly where `at` is at or past the end. `Failed` comes only
    /// where the name's count rose in this call; reading a name that is not held is such a failure. A read that
    /// succeeds leaves every count as it was.
    fn read_at(&mut self, name: &str, at: u64, buf: &mut [u8]) -> Result<usize, Failed>
        ensures fits { IfOk result (λ n. n ≤ length buf.new) }
        ensures found { IsTrue (tells self.old) → OnOk result (IsSome (held self.old name.now)) }
        ensures bytes { IsTrue (tells self.old) → (text : List ℕ) → held self.old name.now ≡ Some text →
            IfOk result (λ n. Reads text at n buf.new) }
        ensures failed { OnErr result (Rose (faults self.old name.now) (faults self.new name.now)) }
        ensures exact { OnOk result (CountsStay (faults self.old) (faults self.new)) }

        ensures counts { (other : List ℕ) → faults self.old other ≤ faults self.new other }
        ensures kept { held self.new ≡ held self.old }
        ensures telling { tells self.new ≡ tells self.old };
}
