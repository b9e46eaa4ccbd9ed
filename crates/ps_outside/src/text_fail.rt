// Why a text gave nothing.

ghost use Rattle.std.specs.Prelude.{◌≡◌};
ghost use Rattle.ps_outside.specs.declared.text_fail.TextFail.TheVariants.{Memory as NoMemory, Fault as IsFault};

use crate::{Failed, ReadFail};
use ps_base::{Fail, Memory, Refusal};
use std::alloc::{AllocError, AllocFailed};
use thiserror::Error;

/// Why a text gave nothing.
#[derive(Clone, Copy, Debug, Error)]
pub enum TextFail {
    /// There was no memory for what it gives.
    #[error("memory is wanting")]
    Memory,
    /// A read of its file failed.
    #[error("a file could not be read")]
    Fault,
    /// A rule refuses it.
    #[error("a rule refuses the text")]
    Refused(Refusal),
}

impl From<Memory> for TextFail {
    ghost from_gives = { λ _ fail. fail ≡ NoMemory };

    fn from(_memory: Memory) -> TextFail {
        TextFail::Memory
    }
}

impl From<AllocError> for TextFail {
    ghost from_gives = { λ _ fail. fail ≡ NoMemory };

    fn from(_error: AllocError) -> TextFail {
        TextFail::Memory
    }
}

impl<T: Drop> From<AllocFailed<T>> for TextFail {
    ghost from_gives = { λ _ fail. fail ≡ NoMemory };

    fn from(_error: AllocFailed<T>) -> TextFail {
        TextFail::Memory
    }
}

impl From<Failed> for TextFail {
    ghost from_gives = { λ _ fail. fail ≡ IsFault };

    fn from(_failed: Failed) -> TextFail {
        TextFail::Fault
    }
}

impl From<ReadFail> for TextFail {
    ghost use Rattle.ps_outside.specs.Failing.{of_read};

    ghost from_gives = { λ why fail. fail ≡ of_read why };

    fn from(why: ReadFail) -> TextFail {
        match why {
            ReadFail::Memory => TextFail::Memory,
            ReadFail::Fault => TextFail::Fault,
        }
    }
}

impl From<Fail> for TextFail {
    ghost use Rattle.ps_outside.specs.Failing.{of_rules};

    ghost from_gives = { λ why fail. fail ≡ of_rules why };

    fn from(why: Fail) -> TextFail {
        match why {
            Fail::Memory => TextFail::Memory,
            Fail::Refused(refusal) => TextFail::Refused(refusal),
        }
    }
}
