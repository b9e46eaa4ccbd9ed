//! What a person reads on standard error of a call of `plcsafe-bench` that stopped.
//!
//! `telling` says it to whoever listens, `advising` has what is said of a case file that is refused, `ruled` what of a
//! rules file, `logged` what of a log, and `summed` what of a file of counts.
#![tactic(auto)]

mod advising;
mod logged;
mod ruled;
mod summed;
mod telling;

pub use telling::{Names, tell, tell_any_times, tell_no_name};
