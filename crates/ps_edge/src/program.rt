// All that the program does, over the system.

ghost use Rattle.std.specs.Prelude.{◌≡◌, ◌≢◌, ◌⊎◌, ◌≤◌, ℕ, List, []};
ghost use Rattle.std.specs.declared.io.ErrorKind.{ErrorKind as KindOf};
ghost use Rattle.ps_edge.specs.Exit.{exit_number, number_without_words};
ghost use Rattle.ps_edge.specs.System.{ExitsWith};
ghost use Rattle.ps_words.specs.Command as asked;
ghost use Rattle.ps_words.specs.Command.Command.{NotTaken};

use crate::call::exit_of_call;
use crate::exit::exit_code;
use crate::given::words_given;
use crate::telling::tell;
use ps_message::StandardError;
use ps_outside::{DiskFiles, StdSink};
use ps_top::{Left, Status, Words};
use std::io::{BufWriter, Eprint, Print};
use std::rt::Env;
use std::{env, io, rt};

/// Does what the words ask, over the files and the standard output of the system, and says the number with which the
/// program exits. Where it does not do all it tells why on standard error, after what the standard output has, and
/// where `check` accepts an application, the notes on it.
pub fn exit_of_words<R: Env + rt::Files + Print + Eprint + AllocGlobal>(
    system: &R,
    words: &Words,
) -> u8
    ensures in_range { result ≤ 7 }

    // The number is that of the status with which the call ended, over files and an output that tell no bytes.
    ensures does { ExitsWith words.now result }

    // Usage comes exactly where the words are not taken, unless the output fails or memory runs out.
    ensures usage { result ≡ exit_number Status.Usage → asked.command_of words.now ≡ NotTaken }
    ensures not_taken { asked.command_of words.now ≡ NotTaken →
        (result ≡ exit_number Status.Usage) ⊎ (result ≡ exit_number Status.WriteFault)
        ⊎ (result ≡ exit_number Status.Memory) }

    // A file that could not be read is one that the words name.
    ensures read_fault { result ≡ exit_number Status.ReadFault → asked.names_of (asked.command_of words.now) ≢ [] }
{
    let alloc = system.alloc();
    let mut listener = StandardError::new(system);
    match BufWriter::new(alloc, io::writer(system)) {
        Ok(out) => {
            let mut files = DiskFiles::new(system);
            let mut sink = StdSink::new(out);
            exit_of_call(alloc, words, &mut files, &mut sink, &mut listener)
        }
        Err(_) => {
            tell(
                alloc,
                words,
                Status::Memory,
                &Left::new(),
                false,
                &mut listener,
            );
            exit_code(Status::Memory)
        }
    }
}

/// Does all that the program does, and says the number with which it exits: 0 to 7, or 8 where there are no words.
pub fn exit_of_program<R: Env + rt::Files + Print + Eprint + AllocGlobal>(system: &R) -> u8
    ensures in_range { result ≤ 8 }

    // The number is that of a call with the words that the system gives, or where it gives none, that of the error.
    ensures does { ((words : List (List ℕ)) × ExitsWith words result)
        ⊎ ((kind : KindOf) × (result ≡ number_without_words kind)) }
{
    match words_given(system.alloc(), env::args(system)) {
        Ok(words) => exit_of_words(system, &words),
        Err(number) => number,
    }
}
