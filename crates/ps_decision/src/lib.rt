//! Channel C: a machine that runs decision code, on any bytes, and the compiler of that code. Where channel A computes
//! a value on a stack, channel C goes on at one place or at another.
//!
//! - `channel`: the channel, with its code and its cells; `cells` and `layout` are its cells.
//! - `turn`: one turn, by `fetch`, `act` and `call`; `pins` is what a call takes from the pin cells.
//! - `report` is the report that the cells hold. The step of an instance is that of channel A, from its crate.
//! - `row`: the rows of decision code; the traps are those of channel A.
//! - `image`: the code of an application; `emit` writes the rows of its values, and `budget` counts them.
//! - `laws`: what the code promises, and how long it is.
//!
//! What the bytes are and what a turn does is defined in specs/, for any code and any cells.
#![tactic(auto)]

mod act;
mod budget;
mod call;
mod cells;
mod channel;
mod emit;
mod fetch;
mod image;
pub mod laws;
pub mod layout;
mod pins;
mod report;
mod row;
mod turn;

pub use budget::turns_c;
pub use channel::DecisionChannel;
pub use image::decision_image;
pub use ps_machine::CodeImage as DecisionImage;
pub use row::Row;
