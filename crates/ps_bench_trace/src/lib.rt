//! What a run is made of beside its application, over any files: a trace, or cases of a case file in its place, and the
//! faults that strike.
//!
//! - `playing` is what a word means in the place of a trace, made ready to be run; `expansion` the trace of cases, held
//!   in memory.
//! - `following` does the items of the trace that a word means, where nothing is written.
//! - `opening` is how a command comes to a trace and to the faults of a file.
#![tactic(auto)]

mod expansion;
mod following;
mod opening;
mod playing;

pub use expansion::Expansion;
pub use following::follow_play;
pub use opening::{open_faults, open_trace, refuse_input};
pub use playing::{Play, open_play, read_play};
