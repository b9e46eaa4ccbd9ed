// The server over standard input and standard output.

use crate::serving::{Ending, exit_of_stream};
use ps_lsp_rpc::SystemIncoming;
use ps_outside::StdSink;
use std::io;
use std::io::{BufReader, BufWriter, Input, Print};

/// Serves the messages of standard input on standard output, and says the number with which the program exits.
pub(crate) fn exit_of_server<R: Input + Print + AllocGlobal>(system: &R) -> u8 {
    let alloc = system.alloc();
    let Ok(reader) = BufReader::new(alloc, system.reader()) else {
        return Ending::Memory.number();
    };
    let Ok(writer) = BufWriter::new(alloc, io::writer(system)) else {
        return Ending::Memory.number();
    };
    let mut input = SystemIncoming::new(reader);
    let mut out = StdSink::new(writer);
    exit_of_stream(alloc, &mut input, &mut out)
}
