// What a wire is called, and what it has.

use ps_base::Label;

/// What a wire has.
#[derive(Clone, Copy)]
pub enum Shape {
    /// A bit.
    Bit,
    /// Sixteen bits, as a DiagCode.
    Code,
    /// A count, of 64 bits.
    Count,
    /// Words.
    Words,
}

/// A wire: the scope that it stands in, what it is called there, and what it has.
#[derive(Drop)]
pub struct Wire {
    /// The names of its scopes from the outermost one on, with a dot between two of them; no name: it stands in none.
    pub scope: Label,
    /// Its name.
    pub name: Label,
    /// What it has.
    pub shape: Shape,
}
