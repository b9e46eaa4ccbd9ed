//! What a set of traces has shown of an application: the states that its blocks entered and the ways that they took,
//! the values of its signals, and the operands that decided. And what one block can do alone: the states and the ways
//! that some run of it takes, if some pins have one value in every scan and all else is any, the time too.
//!
//! What traces show:
//!
//! - `point`: what a scan may show. `listing`: all that scans of an application may show.
//! - `cover`: what the scans so far have shown. `block`: the block of a call, step by step, and the marks of its steps.
//! - `deciding`: whether an operand leaves the decision to another one. `clock`: the ms that passed since the scan
//!   before.
//! - `tallying`: how many points were shown. `missing`: what was seen with a value, and what was missed.
//!
//! What one block can do alone:
//!
//! - `fixed`: pins that have one value in every scan.
//! - `key`: a state of a block without its time, and a step of it. `marks`: which ways and states a step is of.
//! - `alone`: a block alone, as a system that is searched. `trying`: what the search of a block without times tries.
//! - `excluding`: which marks no run of a block alone makes, for each call.
//!
//! The report of all that: counts, percentages, and each state, way, value and decision that was never seen.
//!
//! - `format`: how it is written. `pieces`: pieces of it. `said`: several of them, one after another. `guard`: what the
//!   guard of a way asks.
//! - `lines`: the lines of what was never seen. `text`: the whole.
//! - `coverage_laws`: what it says is so of the traces.
//!
//! - `laws`: what is excluded is never made nor shown, and the counts are those of the definitions.
#![tactic(auto)]

mod alone;
mod block;
mod clock;
mod cover;
pub mod coverage_laws;
mod deciding;
mod excluding;
mod fixed;
mod format;
mod guard;
mod key;
pub mod laws;
mod lines;
mod listing;
mod marks;
mod missing;
mod pieces;
mod point;
mod said;
mod tallying;
mod text;
mod trying;

pub use alone::excluded_marks;
pub use clock::Clock;
pub use cover::Cover;
pub use deciding::{is_and, is_value, leaves_decision};
pub use excluding::Exclusions;
pub use fixed::{allows, are_same, is_on};
pub use format::Format;
pub use guard::add_condition;
pub use missing::{is_missed, seen_with};
pub use point::{Decision, Point};
pub use tallying::{Sort, Status, called_kind, percent, percent_of, tally};
pub use text::{Told, coverage_text};
pub use trying::{does_close, input_count, passed_if};
