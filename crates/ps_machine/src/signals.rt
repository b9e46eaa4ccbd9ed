// The signals before a scan and after it.

ghost use Rattle.std.specs.Prelude.{◌≡◌, false, slice_index_or};

/// The signals before a scan and after it.
#[derive(Clone, Copy)]
pub struct Signals<'a> {
    /// The value of each signal before the scan.
    pub before: &'a [bool],
    /// The value of each signal after it.
    pub behind: &'a [bool],
}

/// A value of a list, by its place from 0 on; FALSE past its end.
pub fn bit_at(bits: &[bool], i: usize) -> bool
    ensures { result ≡ slice_index_or bits.now i false }
{
    if i < bits.len() { bits[i] } else { false }
}
