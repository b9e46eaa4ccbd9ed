//! The edge of the program: all that lies between the words that the system gives and the number with which the
//! program exits.
//!
//! `call` is one call of the program, over any files, any output and whoever is told: `exit_of_call`. `given` takes
//! the words that come after the program's name, and `exit` has the numbers. `telling` is what a listener is told: of
//! a refusal (`refusing`), of an application that is accepted and of comments (`noting`), of a seat that was healed in
//! vain (`again`), and of words that are not taken (`asking`); `spoken` which word of a call names the text that a rule
//! speaks of. `program` makes the call over the files and the outputs of the system, and is all that `main` calls.
//!
//! `known` has what contracts know of a listener and an output beside what every one promises. `mem_listener` is a
//! listener in memory, and `laws` says what a call does in memory, where all is known.
#![tactic(auto)]

mod again;
mod asking;
mod call;
mod exit;
mod given;
mod known;
pub mod laws;
mod mem_listener;
mod noting;
mod program;
mod refusing;
mod spoken;
mod telling;

pub use call::exit_of_call;
pub use exit::{NO_WORDS, ended, exit_code, exit_code_without_words};
pub use given::words_given;
pub use known::{KnownListener, KnownOutput};
pub use mem_listener::MemListener;
pub use program::{exit_of_program, exit_of_words};
