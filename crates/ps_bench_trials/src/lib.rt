//! The trials of a campaign: which fault each makes, what it comes to, the counts of all of them, and the totals of
//! several campaigns.
//!
//! Trials:
//!
//! - `drawing`: what is drawn for trial i from its number alone, by a generator that is seeded with i. `fault`: the
//!   fault of a run that the trial makes. `byte`: the byte that the fault leaves.
//! - `step`: a scan or a restart of the course that a trial runs. `times`: when the scan is that it strikes.
//! - `mark`: where the run without a fault stands between two steps, and whether a run stands there.
//!
//! Counts, by channel, region and outcome, with the latencies of trips:
//!
//! - `outcome`: what a trial comes to. `line`: the counts of a line, which take one trial more, or those of another
//!   line.
//! - `tally`: the counts of all lines, which take one trial more, or those of another tally.
//! - `telling`: the lines as text. `possible`: whether some trips have the latencies of a line. `reading`: the lines that
//!   a text says.
//! - `laws`: trials are counted in parts and in any order.
//!
//! Totals:
//!
//! - `naming`: names a text, and what a file holds, by its SHA-256. `total_telling`: writes a head, which names the
//!   application and the trace so, and the lines of a tally.
//! - `summing`: reads them again, and adds those of several campaigns. `adding`: adds those of several files.
//!   `refusal`: why one is not added.
//! - `sum_laws`: files are added in any order.
#![tactic(auto)]

mod adding;
mod byte;
mod drawing;
mod fault;
pub mod laws;
mod line;
mod mark;
mod naming;
mod outcome;
mod possible;
mod reading;
mod refusal;
mod step;
pub mod sum_laws;
mod summing;
mod tally;
mod telling;
mod times;
mod total_telling;

pub use adding::{SumStop, sum_files};
pub use byte::byte_left;
pub use drawing::{Room, Trial, draw_trial};
pub use fault::fault_of;
pub use line::{FLOORS, Line};
pub use mark::Mark;
pub use naming::{digest_of_text, name_of_file};
pub use outcome::{Outcome, ended_by, latency_in, place_of};
pub use reading::{read_tally, seeming_tally};
pub use refusal::{SumRefusal, SumRule};
pub use step::Step;
pub use summing::{LARGEST_SUM, Totals, read_totals};
pub use tally::Tally;
pub use telling::{add_number, add_tally};
pub use times::struck_at;
pub use total_telling::add_totals;
