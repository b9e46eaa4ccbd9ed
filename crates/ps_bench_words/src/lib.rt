//! The words of a call of `plcsafe-bench`, and what they ask.
//!
//! `forms` is the table of the commands, and `command` makes of it what `clap` is asked to read; `pages` has the pages
//! that help and the version show; `reading` reads what was given to a command, and `asking` says what the words ask of
//! the program.
#![tactic(auto)]

mod asking;
mod command;
mod forms;
mod pages;
mod reading;

pub use asking::{Asked, Format, Layout, asked_of, texts_of};
pub use ps_cover::Format as Output;
