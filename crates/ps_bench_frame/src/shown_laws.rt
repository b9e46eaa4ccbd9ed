//! What holds of every name from outside that is told.

ghost use Rattle.std.specs.Prelude.{◌≡◌, ◌==◌, ◌&&◌, not, ℕ, List, IsTrue, IsUtf8};
ghost use Rattle.std.specs.List.{list_all};
ghost use Rattle.std.specs.Str.{chars};
ghost use Rattle.ps_bench_frame.specs.Pieces.{is_of_line, shown};
ghost use Rattle.ps_bench_frame.specs.Reading.{name_read};

/// A name stays in its line: what stands for it has no line feed, no carriage return, no other control character, and
/// none at which a reader of lines may end a line.
pub fn names_stay_in_their_line()
    ensures { (name : List ℕ) → IsUtf8 name → IsTrue (list_all is_of_line (chars (shown name))) }
{}

/// A reader gets the name back of what stands for it, so names that differ are told as names that differ.
pub fn names_are_read_back()
    ensures { (name : List ℕ) → IsUtf8 name → name_read (shown name) ≡ name }
{}

/// A name without a backslash, all characters of which may stand in a line, stands as it is.
pub fn plain_names_stay()
    ensures { (name : List ℕ) → IsUtf8 name →
        IsTrue (list_all (λ c. is_of_line c && not (c == 92)) (chars name)) → shown name ≡ name }
{}
