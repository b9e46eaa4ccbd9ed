//! Traces and fault files, read line by line.
#![tactic(auto)]

mod channels;
mod copying;
mod fault_file;
mod fault_line;
mod faults;
mod header;
mod heading;
mod plain_line;
mod scan_line;
mod target;
mod trace;
mod words;

pub use channels::read_faults;
pub use fault_file::read_faults_of;
pub use faults::Faults;
pub use header::{HeaderSays, read_header};
pub use ps_outside::TextFail as TraceFail;
pub use scan_line::{LineSays, read_line};
pub use target::{FaultLine, Target};
pub use trace::{Next, TraceReader, TraceStop, at_line, fill};
pub use words::{next_word, number};
