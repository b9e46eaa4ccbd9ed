//! The world of two channels: the scans of an application made out of single events, with a comparator and restarts.
//!
//! - `world`: `World`, two seats with channel A and channel B. Each call that changes it is its event of `world_step`,
//!   and `make_scan` is the events of one scan in the order of a run. `field`: the values of single fields of reports.
//! - `laws`: what holds over every list of events, and over the runs of the program: channels are apart, released is
//!   right, trips exactly, stays down, bounded turns, and no trip without a Spoil.
//!
//! No definition of a world or of its laws looks into a compiler or a table: they are over any two machines, and the
//! laws hold of every two that keep an application's meaning and give reports of its sizes.
#![tactic(auto)]

mod field;
pub mod laws;
mod world;

pub use world::World;
