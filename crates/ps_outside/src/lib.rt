//! The outside world: files that are read by name, and an output that takes bytes.
//!
//! `files` and `sink` have the two traits and what every implementation of them promises; `reading` reads a file whole
//! and `write_all` a piece; `text_fail` says why a text gave nothing. `mem_files` and `mem_sink` stand in memory, with
//! failures that are chosen beforehand, and `disk` is the thin edge over the system's files and a writer of the
//! standard library.
#![tactic(auto)]

mod disk;
mod files;
mod mem_files;
mod mem_sink;
mod reading;
mod sink;
mod text_fail;

pub use disk::{DiskFiles, StdSink};
pub use files::{Failed, Files};
pub use mem_files::MemFiles;
pub use mem_sink::MemSink;
pub use reading::{ReadFail, read_upto};
pub use sink::{Output, Sink, Stopped, write_all};
pub use text_fail::TextFail;
