//! `test` and `expand` of the program `plcsafe-bench`, over any files, any output, and whoever listens, and the results
//! of cases as text in one of three forms: in lines for a person, as TAP, or as the XML of JUnit.
//!
//! - `testing` is `test APP CASES..`, `expanding` is `expand APP CASES`.
//! - `laws` has what holds of what is reported.
//! - `telling` is what a person reads on standard error of a case that expects nothing.
//!
//! The results of cases:
//!
//! - `outcome`: a case that was run, whether it passed, and how many were reported.
//! - `report`: what stands before, for and after each file and each case, in lines (`lines`), as TAP (`tap`), or as
//!   JUnit (`junit`).
//! - `failing`: the failures of a case, each in a sentence.
//! - `naming`: names and values of an application in words, as a check has them. `placing`: statements by their lines.
#![tactic(auto)]

mod expanding;
mod failing;
mod junit;
pub mod laws;
mod lines;
mod naming;
mod outcome;
mod placing;
pub mod report;
mod tap;
mod telling;
mod testing;

pub use expanding::expand;
pub use naming::{add_name, add_value};
pub use outcome::{CaseRun, Tally};
pub use placing::from_line;
pub use testing::{Asked as TestAsked, outcome_of, test};
