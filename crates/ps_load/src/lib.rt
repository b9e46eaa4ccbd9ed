//! The texts that a load runs over, as files that hold them without memory.
//!
//! `texts` makes their bytes where they are read: the application is a constant, and the lines of the trace are counted
//! out. `files` holds both under their names.
#![tactic(auto)]

mod files;
mod texts;

pub use files::LoadFiles;
