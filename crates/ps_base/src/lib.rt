//! The words that all crates share: running out of memory, places and refusals, lists of bytes, and the limits.
#![tactic(auto)]

mod failing;
pub mod limits;
mod lists;

pub use failing::{Fail, Memory, Place, Refusal, Rule};
pub use lists::{Bytes, Label};
