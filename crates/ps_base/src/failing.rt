// Why a call gives no answer: memory runs out, or a rule refuses a text.

ghost use Rattle.std.specs.Prelude.{◌≡◌};
ghost use Rattle.ps_base.specs.declared.failing.Fail.TheVariants.{Memory as NoMemory};

use std::alloc::{AllocError, AllocFailed};
use thiserror::Error;

/// Out of memory. It is an answer of its own, merged with no other.
#[derive(Clone, Copy, Debug, PartialEq)]
pub struct Memory;

impl From<AllocError> for Memory {
    fn from(_error: AllocError) -> Memory {
        Memory
    }
}

impl<T: Drop> From<AllocFailed<T>> for Memory {
    fn from(_error: AllocFailed<T>) -> Memory {
        Memory
    }
}

/// A place in a text: line and column, both counted from 1; a column counts bytes after the last line feed.
/// Where a rule names a line alone, the column is 0.
#[derive(Clone, Copy, Debug, PartialEq)]
pub struct Place {
    pub line: u32,
    pub column: u32,
}

/// The rules by which a text is refused. The order of the variants has no meaning.
///
/// L: tokens; P: grammar; N: names, drivers and limits; S: SAFEBOOL flow; C: the text of a certificate;
/// O: objections to a certificate; T: traces; F: fault files; M: demand formulas; B: function blocks.
#[derive(Clone, Copy, Debug, PartialEq)]
pub enum Rule {
    L1,
    L2,
    L3,
    L4,
    L5,
    P1,
    P2,
    N1,
    N2,
    N3,
    N4,
    N5,
    N6,
    N7,
    N8,
    N9,
    N10,
    N11,
    N12,
    S1,
    S2,
    S3,
    S4,
    C1,
    C2,
    O1,
    O2,
    O3,
    O4,
    O5,
    T1,
    T2,
    T3,
    T4,
    T5,
    T6,
    T7,
    T8,
    T9,
    F1,
    F2,
    F3,
    F4,
    F5,
    M1,
    B1,
    B2,
    B3,
    B4,
    B5,
}

/// A text is refused: by this rule, at this place.
#[derive(Clone, Copy, Debug, PartialEq)]
pub struct Refusal {
    pub rule: Rule,
    pub place: Place,
}

/// Why a text has no answer.
#[derive(Clone, Copy, Debug, PartialEq, Error)]
pub enum Fail {
    #[error("memory is wanting")]
    Memory,
    #[error("a rule refuses the text")]
    Refused(Refusal),
}

impl From<Memory> for Fail {
    ghost from_gives = { λ _ fail. fail ≡ NoMemory };

    fn from(_memory: Memory) -> Fail {
        Fail::Memory
    }
}

impl From<AllocError> for Fail {
    ghost from_gives = { λ _ fail. fail ≡ NoMemory };

    fn from(_error: AllocError) -> Fail {
        Fail::Memory
    }
}

impl<T: Drop> From<AllocFailed<T>> for Fail {
    ghost from_gives = { λ _ fail. fail ≡ NoMemory };

    fn from(_error: AllocFailed<T>) -> Fail {
        Fail::Memory
    }
}
