// Why a phrase is not read.

use ps_base::Memory;
use ps_lexer::Token;
use std::alloc::{AllocError, AllocFailed};

/// What is wrong with a token: none of the language goes on with it, or it opens a group that is nested too deep.
#[derive(Clone, Copy)]
pub enum Flaw {
    Unexpected,
    TooDeep,
}

/// Why a phrase was not read: memory runs out, or a token is refused, with the tokens from the refused one on.
#[derive(Drop)]
pub enum Stop<'a> {
    Memory,
    Refused(Flaw, &'a [Token]),
}

impl From<Memory> for Stop<'_> {
    ghost use Rattle.std.specs.Prelude.{◌≡◌};
    ghost use Rattle.ps_parser.specs.declared.stop.Stop.TheVariants.{Memory as NoMemory};

    ghost from_gives = { λ _ e. e ≡ NoMemory };

    fn from(_memory: Memory) -> Self {
        Stop::Memory
    }
}

impl From<AllocError> for Stop<'_> {
    ghost use Rattle.std.specs.Prelude.{◌≡◌};
    ghost use Rattle.ps_parser.specs.declared.stop.Stop.TheVariants.{Memory as NoMemory};

    ghost from_gives = { λ _ e. e ≡ NoMemory };

    fn from(_error: AllocError) -> Self {
        Stop::Memory
    }
}

impl<T: Drop> From<AllocFailed<T>> for Stop<'_> {
    ghost use Rattle.std.specs.Prelude.{◌≡◌};
    ghost use Rattle.ps_parser.specs.declared.stop.Stop.TheVariants.{Memory as NoMemory};

    ghost from_gives = { λ _ e. e ≡ NoMemory };

    fn from(_error: AllocFailed<T>) -> Self {
        Stop::Memory
    }
}
