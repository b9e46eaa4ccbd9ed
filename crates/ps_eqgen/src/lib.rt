//! The compiler of channel B: from an accepted application to equation code (profile).
//!
//! - `image`: the image of an application, step by step. `emit`: rows written as bytes.
//! - `calls`: the limit of a call. `sizes`: the sizes of an application, counted for channel B.
//! - `laws`: equation code keeps the meaning, and it is short.
#![tactic(auto)]

mod calls;
mod emit;
mod image;
pub mod laws;
mod sizes;

pub use image::equation_image;
pub use sizes::equation_sizes;
