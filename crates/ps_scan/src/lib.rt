//! The plain evaluator: the scans of an application, one after another, by its steps in order, each instance by the
//! step of its block. No scan allocates.
//!
//! - `scanner`: what is kept between scans, and a scan. `steps`: the steps of a scan.
//! - `instance`: the state of an instance's block, by its kind, and its step.
//! - `pins`: the pins of a call, and what its step shows.
#![tactic(auto)]

mod instance;
mod pins;
mod scanner;
mod steps;

pub use instance::Instance;
pub use pins::{MOST_OUTPUTS, pin_bits, shown_values, write_at};
pub use scanner::Scanner;
