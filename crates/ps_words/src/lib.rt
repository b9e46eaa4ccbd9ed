//! The words of a call, and which command of the program they are.
//!
//! - `words`: the list of words.
//! - `command`: which form of a command they have, with the line of usage for words that have none.
//! - `parsing`: has `clap` read the words. `command_line`: which command they are then, with a refusal for words that
//!   are none.
#![tactic(auto)]

mod command;
mod command_line;
mod parsing;
mod words;

pub use command::{Command, USAGE, form_of, plain_texts};
pub use command_line::command_of;
pub use words::Words;
