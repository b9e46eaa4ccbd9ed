// The numbers with which the program exits.

ghost use Rattle.std.specs.Prelude.{◌≡◌, OnOk, OnErr};
ghost use Rattle.ps_edge.specs.Exit.{exit_number, number_without_words};

use ps_outside::Failed;
use ps_top::Status;
use std::io::ErrorKind;

/// The exit status where the system does not give the words.
pub const NO_WORDS: u8 = 8;

/// The exit status of a status: 0 to 7, in the order of `Status`.
pub fn exit_code(status: Status) -> u8
    ensures { result ≡ exit_number status }
{
    match status {
        Status::Done => 0,
        Status::Refused => 1,
        Status::Usage => 2,
        Status::BadInput => 3,
        Status::Tripped => 4,
        Status::ReadFault => 5,
        Status::WriteFault => 6,
        Status::Memory => 7,
    }
}

/// The exit status where there are no words, by the kind of the error: that of running out of memory, or else `NO_WORDS`.
pub fn exit_code_without_words(kind: ErrorKind) -> u8
    ensures { result ≡ number_without_words kind }
{
    match kind {
        ErrorKind::OutOfMemory => exit_code(Status::Memory),
        _ => NO_WORDS,
    }
}

/// How a run ended whose output was flushed at the end: a flush that failed is a write that failed.
pub fn ended(status: Status, flushed: Result<(), Failed>) -> Status
    ensures same { OnOk flushed (result ≡ status) }
    ensures write_fault { OnErr flushed (result ≡ Status.WriteFault) }
{
    match flushed {
        Ok(()) => status,
        Err(Failed) => Status::WriteFault,
    }
}
