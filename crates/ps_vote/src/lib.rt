//! The world of three seats: the scans of an application made out of single events in channels A, B and C, with a vote
//! of two out of three, and seats that are rebuilt from another.
//!
//! - `seat`: the seats, what a vote answers, and which seats are dirty.
//! - `world`: `VoteWorld`, three seats of `ps_machine`. Each call that changes it is its event of `world_step`.
//! - `scans`: `VoteWorld::make_scan`, the events of one scan in the order of the commands `vote` and `heal`.
//! - `faults`, `fault_file`: the faults that strike seats, and their files.
//! - `limits`: the limits of an application's instances, by which a seat is rebuilt from another.
//! - `laws`: what holds over every list of events: a spoiled seat is outvoted, and so is each of several that are
//!   healed one before the other; and over the runs of the program.
//!
//! No law looks into a compiler or a table: they are over any three machines that keep an application's meaning.
#![tactic(auto)]

mod fault_file;
mod faults;
pub mod laws;
mod limits;
mod scans;
mod seat;
mod world;

pub use fault_file::{read_heal_faults, read_vote_faults};
pub use faults::{VoteFault, VoteFaults};
pub use seat::{DirtySeats, Seat, Vote, VoteSizes};
pub use world::VoteWorld;
