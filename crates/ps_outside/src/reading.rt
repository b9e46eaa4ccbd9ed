// A file's bytes, read whole up to a bound.

ghost use Rattle.std.specs.Prelude.{◌≡◌, ◌≤◌, ℕ, List, IsTrue, Some, IsSome, take, IfOk, OnOk, IsErrOf};
ghost use Rattle.ps_outside.specs.Outside.{Rose, CountsStay};
ghost use Rattle.ps_outside.specs.declared.reading.ReadFail.TheVariants.{Memory as NoMemory, Fault as IsFault};

use crate::{Failed, Files};
use ps_base::{Bytes, Memory};
use std::alloc::Global;
use thiserror::Error;

/// Why a file's bytes were not read.
#[derive(Clone, Copy, Debug, Error)]
pub enum ReadFail {
    #[error("memory is wanting")]
    Memory,
    #[error("a file could not be read")]
    Fault,
}

impl From<Memory> for ReadFail {
    ghost from_gives = { λ _ fail. fail ≡ NoMemory };

    fn from(_memory: Memory) -> ReadFail {
        ReadFail::Memory
    }
}

impl From<Failed> for ReadFail {
    ghost from_gives = { λ _ fail. fail ≡ IsFault };

    fn from(_failed: Failed) -> ReadFail {
        ReadFail::Fault
    }
}

/// The bytes that are held under a name, or the first `most` of them where there are more.
///
/// It reads at least once, also where `most` is 0, and goes on after a read that gave less than was asked for.
/// `Fault` comes only where the files' count of the name rose in this call, at the one read that failed; every other
/// answer leaves the counts as they were.
pub fn read_upto<F: Files>(
    alloc: Global,
    files: &mut F,
    name: &str,
    most: u32,
) -> Result<Bytes, ReadFail>
    ensures found { IsTrue (F.tells files.old) → OnOk result (IsSome (F.held files.old name.now)) }
    ensures bytes { IsTrue (F.tells files.old) → (text : List ℕ) → F.held files.old name.now ≡ Some text →
        IfOk result (λ bytes. bytes ≡ take most text) }
    ensures fault { IsErrOf result ReadFail.Fault → Rose (F.faults files.old name.now) (F.faults files.new name.now) }
    ensures exact { ¬ IsErrOf result ReadFail.Fault → CountsStay (F.faults files.old) (F.faults files.new) }

    ensures counts { (other : List ℕ) → F.faults files.old other ≤ F.faults files.new other }
    ensures kept { F.held files.new ≡ F.held files.old }
    ensures telling { F.tells files.new ≡ F.tells files.old }
{
    let most = most as usize;
    let mut bytes = Bytes::new(alloc);
    let mut piece = [0u8; 4096];
    'pieces: loop {
        let want = piece.len().min(most - bytes.len());
        let n = files.read_at(name, bytes.len() as u64, &mut piece[..want])?;
        bytes.extend_from_slice(&piece[..n])?;
        if n == 0 || bytes.len() == most {
            return Ok(bytes);
        }
    }
}
