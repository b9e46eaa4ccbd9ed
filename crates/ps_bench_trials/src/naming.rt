// The name of a text: its SHA-256.

ghost use Rattle.std.specs.Prelude.{◌≡◌, ◌≤◌, ℕ, List, IsTrue, IfOk, IsErrOf};
ghost use Rattle.hex.specs.Hex.{encode_lower};
ghost use Rattle.ps_outside.specs.Outside.{Rose};
ghost use Rattle.ps_bench_trials.specs.Naming.{Names, digest_text};
ghost use Rattle.sha2.specs.Sha256.{sha256};

use ps_base::limits::LARGEST_TRACE;
use ps_base::{Bytes, Memory};
use ps_outside::{Files, ReadFail, read_upto};
use sha2::{Digest, Sha256};
use std::alloc::Global;

// The SHA-256 of some bytes.
fn digest_of(bytes: &[u8]) -> [u8; 32]
    ensures { result ≡ sha256 bytes.now }
{
    Sha256::digest(bytes)
}

// The SHA-256 of some bytes, in 64 small hexadecimal digits.
fn digits_of(alloc: Global, bytes: &[u8]) -> Result<Bytes, Memory>
    ensures { IfOk result (λ digits. digits ≡ encode_lower (sha256 bytes.now)) }
{
    let digits = hex::encode(alloc, digest_of(bytes))?;
    Bytes::from_slice(alloc, digits.as_bytes())
}

/// The SHA-256 of a text, in 64 small hexadecimal digits; of one that is larger than the largest trace, that of its
/// beginning of this size.
pub fn digest_of_text(alloc: Global, text: &[u8]) -> Result<Bytes, Memory>
    ensures { IfOk result (λ name. name ≡ digest_text text.now) }
{
    let size = (LARGEST_TRACE as usize).min(text.len());
    digits_of(alloc, &text[..size])
}

// The same of some bytes, where memory that is wanting is why a file has no name.
fn name_of(alloc: Global, bytes: &[u8]) -> Result<Bytes, ReadFail>
    ensures name { IfOk result (λ digits. digits ≡ encode_lower (sha256 bytes.now)) }
    ensures memory { ¬ IsErrOf result ReadFail.Fault }
{
    match digits_of(alloc, bytes) {
        Ok(digits) => Ok(digits),
        Err(Memory) => Err(ReadFail::Memory),
    }
}

/// The SHA-256 of the text that is held under a name, in 64 small hexadecimal digits; of a text that is larger than the
/// largest trace, that of its beginning of this size. It takes memory for the text.
///
/// `Fault` comes only where the files' count of the name rose in this call.
pub fn name_of_file<F: Files>(alloc: Global, files: &mut F, name: &str) -> Result<Bytes, ReadFail>
    ensures names { IsTrue (F.tells files.old) → IfOk result (Names (F.held files.old name.now)) }
    ensures fault { IsErrOf result ReadFail.Fault → Rose (F.faults files.old name.now) (F.faults files.new name.now) }
    ensures reads { (other : List ℕ) → F.faults files.old other ≤ F.faults files.new other }
    ensures kept { F.held files.new ≡ F.held files.old }
    ensures reading { F.tells files.new ≡ F.tells files.old }
{
    match read_upto(alloc, files, name, LARGEST_TRACE) {
        Ok(bytes) => name_of(alloc, bytes.as_slice()),
        Err(fail) => Err(fail),
    }
}
