//! The lines of a file that is read in pieces.
//!
//! A line ends with a line feed or with the end of the text, and no line begins at the end of the text. A carriage
//! return directly before the line feed is dropped, but counts in the length of the line.
//!
//! `reader` has the reader of lines, which takes all its memory at the start, and `feeds` the search for a line feed,
//! sixteen bytes at a time.
#![tactic(auto)]

mod feeds;
mod reader;

pub use feeds::line_feed;
pub use reader::{Got, Limits, LineReader, stripped};
