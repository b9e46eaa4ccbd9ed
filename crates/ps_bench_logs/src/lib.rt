//! Recorded logs: CSV (RFC 4180) with a column for the time and one for each input of an application; and the traces of
//! their scans.
//!
//! - `flaw` has why a log has no answer, and what its columns are.
//! - `fields` is where the fields of a line stand.
//! - `columns` is where the header names its columns.
//! - `table` has the columns that a header names, and reads a row by them.
//! - `limits` has the limits of a log.
//! - `recording` reads a log line by line and writes the trace of its scans.
//! - `laws` has what holds of every such trace.
#![tactic(auto)]

mod columns;
mod fields;
mod flaw;
mod laws;
pub mod limits;
mod recording;
mod table;

pub use flaw::{Column, Flaw, LogRefusal};
pub use laws::recorded_trace_is_read;
pub use recording::{RecordFail, record};
pub use table::{RowSays, Table};
