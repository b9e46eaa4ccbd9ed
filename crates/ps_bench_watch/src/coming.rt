// What comes next of a stream.

ghost use Rattle.std.specs.Prelude.{◌≡◌, ◌≢◌, ◌≤◌, ◌<◌, ℕ, true, false};
ghost use Rattle.ps_bench_watch.specs.Coming.{behind, told_number};

/// What came next of a stream.
#[derive(Clone, Copy)]
pub enum Came {
    /// A line that a line feed ends.
    Line,
    /// The last line, which the stream's end ends.
    LastLine,
    /// A line that is longer than the limit. Nothing is said of what stands after its first bytes.
    TooLong,
    /// The stream's end.
    End,
}

/// Whether a line of so many bytes, without its line feed, is longer than the limit.
pub fn is_too_long(bytes: usize, longest: u32) -> bool
    ensures long { result ≡ true → longest < bytes }
    ensures kept { result ≡ false → bytes ≤ longest }
{
    bytes > longest as usize
}

/// What the end of a stream makes of the bytes that are held, of which there are so many and among which no line feed
/// stands: the last line, unless there are none.
pub fn at_end(held: usize) -> Came
    ensures none { held ≡ 0 → result ≡ Came.End }
    ensures some { 0 < held → result ≡ Came.LastLine }
{
    if held == 0 { Came::End } else { Came::LastLine }
}

/// Whether there is no line any more.
pub fn is_end(came: Came) -> bool
    ensures end { result ≡ true → came ≡ Came.End }
    ensures more { result ≡ false → came ≢ Came.End }
{
    matches!(came, Came::End)
}

/// The number of the line after one, up to the largest one of 32 bits.
pub fn number_behind(number: u32, came: Came) -> u32
    ensures { (n : ℕ) → number ≡ told_number n → result ≡ told_number (behind came n) }
{
    match came {
        Came::Line => number.saturating_add(1),
        Came::LastLine | Came::TooLong | Came::End => number,
    }
}
