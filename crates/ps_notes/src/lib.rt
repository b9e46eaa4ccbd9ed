//! The notes of an application: places where it is accepted, and most likely not meant so, as a block whose Activate is
//! free.
//!
//! - `note`: what a note says, by the numbers of what it is about, where it is told, and what is odd in a comment.
//!   `readers`: the first step that reads each signal.
//! - `pins`: the notes of a pin. `calls`: those of several pins of a call. `noting`: the list of all notes.
//!
//! A note is no refusal: the application means what it means, and nothing that is proved of it rests on notes.
#![tactic(auto)]

mod calls;
mod note;
mod noting;
mod pins;
mod readers;

pub use note::{Note, OddComment, Oddity, Placed};
pub use noting::notes;
