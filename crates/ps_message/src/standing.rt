// Who reads the standard error of a system.

ghost use Rattle.std.specs.Prelude.{[], false};

use crate::Unread;
use crate::listening::Listener;
use ps_base::Bytes;
use ps_outside::{DiskFiles, read_upto};
use std::alloc::Global;
use std::fs::File;
use std::io::{Eprint, ErrorKind, Read, Seek, SeekFrom};
use std::rt::Env;
use std::{env, io, rt};

// The variable of the environment that asks for no messages, by the value 1.
const QUIET: &str = "PLCSAFE_QUIET";

/// Who reads the standard error of a system. It asks for no messages where the environment has PLCSAFE_QUIET=1. What
/// it hears, no contract says.
#[derive(Drop)]
pub struct StandardError<'a, R: Env + rt::Files + Eprint + AllocGlobal> {
    system: &'a R,
}

impl<'a, R: Env + rt::Files + Eprint + AllocGlobal> StandardError<'a, R> {
    /// Who reads the standard error of this system. It takes no memory.
    pub fn new(system: &'a R) -> StandardError<'a, R> {
        StandardError { system }
    }
}

impl<'a, R: Env + rt::Files + Eprint + AllocGlobal> Listener for StandardError<'a, R> {
    ghost tells = { λ _. false };

    ghost quiet = { λ _. false };

    ghost heard = { λ _. [] };

    fn is_quiet(&self) -> bool {
        match env::var(self.system, QUIET) {
            Ok(value) => value.as_str() == "1",
            Err(_) => false,
        }
    }

    fn text_of(&self, alloc: Global, name: &str, most: u32) -> Bytes {
        let mut files = DiskFiles::new(self.system);
        match read_upto(alloc, &mut files, name, most) {
            Ok(text) => text,
            Err(_) => Bytes::new(alloc),
        }
    }

    fn why_unread(&self, name: &str) -> Option<Unread> {
        match try_file(self.system, name) {
            Ok(()) => None,
            Err(error) => Some(reason(error.kind())),
        }
    }

    // A failure is nobody's concern.
    fn hear(&mut self, text: &str) {
        match self.system.eprint(text) {
            Ok(()) | Err(_) => (),
        }
    }
}

// Reads a byte of a file, as a call begins with it.
fn try_file<R: rt::Files>(system: &R, name: &str) -> io::Result<()> {
    let mut file = File::open(system, name)?;
    file.seek(SeekFrom::Start(0))?;
    let mut first = [0u8; 1];
    file.read(&mut first)?;
    Ok(())
}

// Why a file cannot be read, by the kind of the error.
fn reason(kind: ErrorKind) -> Unread {
    match kind {
        ErrorKind::NotFound | ErrorKind::NotADirectory => Unread::Missing,
        ErrorKind::IsADirectory => Unread::Folder,
        ErrorKind::PermissionDenied => Unread::Forbidden,
        ErrorKind::NotSeekable => Unread::Unplaced,
        _ => Unread::Failed,
    }
}
