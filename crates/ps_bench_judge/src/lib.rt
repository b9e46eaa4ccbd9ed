//! A case of a case file is run in a world of its own, and judged: which of its expectations hold of what is seen of
//! its scans.
//!
//! What is seen:
//!
//! - `seen`: a scan's time, what the comparator said of it, the report that was released, and the signals before and
//!   after it, as the networks mean them.
//! - `values`: the value of a name in a scan. Outputs, Ready, Error and DiagCodes are those that were released, and all
//!   other values what the networks mean.
//!
//! The judge:
//!
//! - `checks`: whether a check holds in what is seen of a scan.
//! - `watch`: an expectation whose window is open.
//! - `judge`: all of a case, scan by scan; it keeps no scans.
//! - `passed`: which cases passed, how many failed, and which lines are from a line on.
//!
//! The run:
//!
//! - `rig`: a world made anew with the plain evaluator beside it, and what is seen of its last scan.
//! - `run`: the lines of a case, one after another, and its judge.
#![tactic(auto)]

mod checks;
mod judge;
mod passed;
mod rig;
mod run;
mod seen;
mod values;
mod watch;

pub use checks::{Failure, Why, first_broken, holds, value_shown};
pub use judge::Judge;
pub use passed::{failed_behind, has_passed, is_from};
pub use run::{CaseOutcome, run_case};
pub use seen::{Seen, is_stopped, is_trip};
pub use values::value_of;
