//! The guards and states of the block kinds as data, and their words. For each state there are the ways that leave it,
//! each with the number of its guard in the kind's transition table, the next state, and what it asks of a step.
//!
//! Ways:
//!
//! - `way`: a way, and whether what it asks holds. `step`: what the guards of a step see.
//! - `equivalent` to `edm`: the ways of each kind, as a static that the definitions import.
//! - `table`: the ways by kind, and which of them a step takes.
//! - `moving`: a step of a block, with the guard by which it leaves its state. `taken`: the ways and states that a step
//!   is of.
//! - `laws`: the ways are those of the transition tables.
//!
//! Conditions of guards in words, one table for all kinds: "S_GuardSwitch1 is TRUE", "Reset does not rise",
//! "DiscrepancyTime has elapsed".
//!
//! - `condition`: what a literal of a guard asks, and whether it holds.
//! - `words`: its words, which are a subject and what is said of it, or what is waited for, with a blank between them.
//! - `condition_laws`: no two conditions of a kind have the same words.
//!
//! States in words, which are those of docs/blocks.md:
//!
//! - `state_table`: the words of each kind's states. `state_naming`: the words of a code of a kind.
//! - `state_laws`: no two states of a kind have the same words.
#![tactic(auto)]

mod antivalent;
mod condition;
pub mod condition_laws;
mod edm;
mod enable_switch;
mod equivalent;
mod guard_locking;
mod guard_monitoring;
pub mod laws;
mod modes;
mod moving;
mod out_control;
mod safety_request;
mod state_laws;
mod state_naming;
mod state_table;
mod step;
mod stop;
mod table;
mod taken;
mod two_hand_three;
mod two_hand_two;
mod way;
mod words;

pub use condition::Condition;
pub use moving::{Moved, moved_by, number_taken};
pub use state_laws::states_have_words_of_their_own;
pub use state_naming::state_words;
pub use step::{LastStep, StepConditions};
pub use table::{guard_taken, ways};
pub use taken::Taken;
pub use way::{Ask, Literal, Way};
pub use words::{awaited_of, subject_of, told_of};
