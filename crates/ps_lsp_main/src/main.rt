//! The program `plcsafe-lsp`: a language server for applications, over standard input and standard output. Each message
//! of the stream is read, answered and written, up to the end.
//!
//! `serving` serves one message, and goes on to the end of the stream; `system` is the edge over standard input and
//! standard output.
#![tactic(auto)]

mod serving;
mod system;

use std::process::ExitCode;
use system::exit_of_server;

fn main(rt: HostRuntime) -> ExitCode {
    ExitCode::from(exit_of_server(&rt))
}
