// A stream of bytes that is read forward.

ghost use Rattle.std.specs.Prelude.{◌≡◌, [], Bool, ℕ, List, IsTrue, IfOk, true, false, drop};
ghost use Rattle.ps_lsp_rpc.specs.Streams.{TakesByte};

use ps_base::Bytes;
use ps_outside::Failed;
use std::io::{BufReader, Read};
use std::marker::Model;

/// A stream of bytes that is read forward.
///
/// Contracts know of it whether it tells its bytes and, where it does, those that are ahead.
pub trait Incoming {
    /// Whether the stream tells its bytes. No call changes it.
    ghost tells: { Self → Bool };

    /// The bytes that are ahead, where it tells them.
    ghost ahead: { Self → List ℕ };

    /// The next byte, or None at the end of the stream.
    fn next_byte(&mut self) -> Result<Option<u8>, Failed>
        ensures taken { IsTrue (tells self.old) → IfOk result (TakesByte (ahead self.old) (ahead self.new)) }
        ensures telling { tells self.new ≡ tells self.old };
}

/// A stream of the system, over a buffered reader. It never tells its bytes.
#[derive(Drop)]
pub struct SystemIncoming<R: Read + Drop> {
    reader: BufReader<R>,
}

impl<R: Read + Drop> SystemIncoming<R> {
    /// The stream of this reader. It takes no memory.
    pub fn new(reader: BufReader<R>) -> SystemIncoming<R> {
        SystemIncoming { reader }
    }
}

impl<R: Read + Drop> Incoming for SystemIncoming<R> {
    ghost tells = { λ _. false };

    ghost ahead = { λ _. [] };

    fn next_byte(&mut self) -> Result<Option<u8>, Failed> {
        let mut byte = [0u8; 1];
        match self.reader.read(&mut byte) {
            Ok(0) => Ok(None),
            Ok(_) => Ok(Some(byte[0])),
            Err(_) => Err(Failed),
        }
    }
}

/// A stream in memory. It always tells its bytes, and reading it never fails.
#[derive(Drop)]
pub struct MemIncoming {
    bytes: Bytes,
    from: usize,
}

impl Model for MemIncoming {
    ghost use Rattle.std.specs.Prelude.{List, ℕ, drop};

    ghost Value = { List ℕ };

    ghost view = { λ m. drop m.from m.bytes };
}

impl MemIncoming {
    /// The stream of these bytes. It takes no memory.
    pub fn new(bytes: Bytes) -> MemIncoming
        ensures { result ≡ bytes }
    {
        MemIncoming { bytes, from: 0 }
    }
}

impl Incoming for MemIncoming {
    ghost tells = { λ _. true };

    ghost ahead = { λ m. m };

    fn next_byte(&mut self) -> Result<Option<u8>, Failed> {
        let all = self.bytes.as_slice();
        if self.from < all.len() {
            let byte = all[self.from];
            self.from += 1;
            Ok(Some(byte))
        } else {
            Ok(None)
        }
    }
}
