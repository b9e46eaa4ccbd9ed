// Laws of columns.

ghost use Rattle.std.specs.Prelude.{◌≡◌, ℕ, List, length, take, true};
ghost use Rattle.std.specs.List.{sum_by};
ghost use Rattle.std.specs.Str.{IsCharBoundary};
ghost use Rattle.ps_text.specs.Columns.{IsOffsetOf, units};

/// Columns in bytes and in code units are inverse of each other: from a place between characters to its column, and
/// from this column to an offset, one comes to that place again.
pub fn columns_are_inverse()
    ensures { (line : List ℕ) (place offset : ℕ) → IsCharBoundary line place →
        IsOffsetOf line (units (take place line)) offset → offset ≡ place }
{}
