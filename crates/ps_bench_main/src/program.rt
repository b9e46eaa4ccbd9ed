// All that the program does, over the system.

ghost use Rattle.std.specs.Prelude.{◌≤◌};

use crate::call::exit_of_call;
use crate::onlookers::Onlookers;
use crate::progress::ProgressLine;
use ps_bench_frame::{Status, exit_code};
use ps_bench_watch::StdStream;
use ps_edge::words_given;
use ps_message::{Listener, StandardError};
use ps_outside::{DiskFiles, StdSink};
use ps_words::Words;
use std::io::{BufWriter, Eprint, Input, Print};
use std::rt::{Clock, Env};
use std::{env, io, rt};

// Does what the words ask, over the files, the standard input and the standard output of the system.
fn exit_of_words<R: Env + rt::Files + Input + Print + Eprint + Clock + AllocGlobal>(
    system: &R,
    words: &Words,
    is_terminal: bool,
) -> u8
    ensures in_range { result ≤ 7 }
{
    let alloc = system.alloc();
    let mut listener = StandardError::new(system);
    let line = ProgressLine::new(system, is_terminal && !listener.is_quiet());
    let mut onlookers = Onlookers {
        hearer: StandardError::new(system),
        observer: line,
    };
    match BufWriter::new(alloc, io::writer(system)) {
        Ok(out) => {
            let mut files = DiskFiles::new(system);
            let mut input = StdStream::new(system.reader());
            let mut sink = StdSink::new(out);
            exit_of_call(
                alloc,
                words,
                &mut files,
                &mut input,
                &mut sink,
                &mut onlookers,
                &mut listener,
            )
        }
        Err(_) => exit_code(Status::Memory),
    }
}

/// Does all that the program does, and says the number with which it exits: 0 to 7, or 8 where there are no words. Where
/// standard error is a terminal, it tells there how far a search has come, unless no messages are asked for.
pub fn exit_of_program<R: Env + rt::Files + Input + Print + Eprint + Clock + AllocGlobal>(
    system: &R,
    is_terminal: bool,
) -> u8
    ensures in_range { result ≤ 8 }
{
    match words_given(system.alloc(), env::args(system)) {
        Ok(words) => exit_of_words(system, &words, is_terminal),
        Err(number) => number,
    }
}
