//! The program `plcsafe-bench`: over any files, any input, any output, whoever listens to why a call did not do
//! all, and whoever watches a search; and over the system's files, its standard input and its standard output.
//!
//! `call` is one call, from its words to the exit status of the program, `program` makes it over the system,
//! `onlookers` is who is told of a call while it runs, and `progress` shows on a terminal how far a search has come.
#![tactic(auto)]

mod call;
mod onlookers;
mod program;
mod progress;

use program::exit_of_program;
use std::io::IsTerminal;
use std::process::ExitCode;

fn main(rt: HostRuntime) -> ExitCode {
    ExitCode::from(exit_of_program(&rt, rt.stderr().is_terminal()))
}
