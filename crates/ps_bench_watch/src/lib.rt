//! `watch`, `trace` and `live` of the program `plcsafe-bench`, over any files, any stream and any output.
//!
//! `watch` and `trace`:
//!
//! - `watching`: `watch APP TRACE [NAME..]`. `naming`: what its names stand for. `player`: who makes a run and writes
//!   it.
//! - `wires`: what the wires of a run are called, whose value changes ps_bench_waves writes.
//! - `tracing`: `trace APP CSV`.
//! - `laws`: a reader of each format gives the scans of a run back, and `trace` the trace of a run that was logged.
//!
//! Streams, which are read forward only, and whose readers take all their memory at the start:
//!
//! - `stream`: what every stream promises: some bytes, the end, or a failure. `std_stream`: the thin edge over a reader
//!   of the standard library, as standard input is one. `mem_stream`: a stream in memory, which gives its bytes in
//!   pieces and fails where that is chosen beforehand.
//! - `coming`: what a line is by its length, what the stream's end makes of the bytes that are held, and the line's
//!   number.
//! - `lines`: the reader of the lines of a stream, each of which is given as soon as it is there; it reads on only
//!   while no whole line is there.
//! - `feed`: stands after the header of a trace that comes so, and gives what each line says as soon as the line is
//!   there, by the definitions that hold for the trace of a file. It has no limit of bytes.
//!
//! `live`:
//!
//! - `answering`: the loop over the lines of a stream, which hands on what is said of each before the next one is read.
//! - `saying`: how what was written is handed on, how a refusal is reported, and how a run ended.
//! - `teller`: who makes the scans of an application in both channels, and writes of them report lines, or by name.
//! - `living`: a run of a stream. `running`: `live APP [--names]`.
//! - `live_laws`: what is written of lines is what `run` and `fault`, or by name `watch`, write of a trace with these
//!   lines; and if a file can have the bytes of a stream, both have the same lines.
#![tactic(auto)]

mod answering;
mod coming;
mod feed;
pub mod laws;
mod lines;
pub mod live_laws;
mod living;
mod mem_stream;
mod naming;
mod player;
mod running;
mod saying;
mod std_stream;
mod stream;
mod teller;
mod tracing;
mod watching;
mod wires;

pub use coming::{Came, at_end, is_end, is_too_long, number_behind};
pub use mem_stream::MemStream;
pub use running::{Asked as LiveAsked, live};
pub use saying::{Ending, ending_of, hand_on, tell_refusal};
pub use std_stream::StdStream;
pub use stream::Stream;
pub use tracing::{Asked as TraceAsked, trace};
pub use watching::{Asked as WatchAsked, watch};
