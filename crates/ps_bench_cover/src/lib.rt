//! `cover` of the program `plcsafe-bench`, over any files, any output, and whoever listens.
//!
//! - `accounting` is `cover APP TRACE..`. `adding` takes the traces, one after another, each begun anew.
//! - What a trace shows: `covering` keeps it as its scans are taken. `running`: a trace that is begun anew, and one more
//!   of a reader. `nothing`: an output that takes nothing.
//! - Where the operands stand that decide: `operand`: where an operand is written. `statement`: all operands of a
//!   statement, in order. `listing`: those of a source. `places`: the place of each point of an application. `laws`:
//!   each place is that of the operand that decides.
//! - Beginnings of cases for ways that were never taken: what a guard asks for where that is an input, and the rest in
//!   words. They are lines that a case file takes, and need not take the way. `asked`: the input of which a condition
//!   asks something. `ideas`: the lines.
#![tactic(auto)]

mod accounting;
mod adding;
mod asked;
mod covering;
mod ideas;
pub mod laws;
mod listing;
mod nothing;
mod operand;
mod places;
mod running;
mod statement;

pub use accounting::{Asked as CoverAsked, cover};
pub use places::operand_places;
pub use running::add_trace;
