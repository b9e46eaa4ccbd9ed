//! The compiler of channel A: from an accepted application to stack code, which keeps its meaning.
//!
//! - `image`: the code of an application; `emit` writes the code of its expressions and pins.
//! - `laws`: what the code promises, and how long it is.
#![tactic(auto)]

mod emit;
mod image;
pub mod laws;

pub use image::stack_image;
