//! What the thirteen kinds of function blocks (PLCopen TC5, in the profile of this project) have in common: one step by
//! a contract, and the sixteen bytes that keep a state.
//!
//! - `block`: the trait of a block, its pins and what it shows.
//! - `image`: the sixteen bytes.
//! - `seen`: what the guards of a table see.
//! - `laws`: the laws of every block.
#![tactic(auto)]

mod block;
mod image;
pub mod laws;
mod seen;

pub use block::{Outs, Pins, SafetyBlock};
pub use image::Image;
pub use seen::Seen;
