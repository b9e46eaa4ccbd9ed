//! What a safe output demands of the inputs of its own scan: a formula that an engineer reads, and that holds whenever
//! the output is TRUE. `S_Ram needs S_EStop AND S_G1 AND S_G2 AND S_L AND S_R`, say. What a block demands of its pins
//! is ps_model's (PLCopen TC5); here it is composed over the steps of an application.
//!
//! Formulas:
//!
//! - `demand`: the formulas. `join`: the words that join their parts. `text`: writes one.
//! - `counting`: counts the leaves of a formula before anything is built.
//! - `wanted`: how long the formula of each signal is needed. `table`: what the passes keep.
//!
//! How they are built:
//!
//! - `slimming`: builds those that are needed, step by step, and makes each slim as it goes, unless it is Large by the
//!   count of its leaves. `releasing`: lets go what is no longer needed. `joining`: joins slim parts.
//! - `answer`: where a formula is asked for. `lines`: writes those of all safe outputs.
//! - `laws`: a safe signal is TRUE only if its demand holds, in each scan of each run, and to make a formula slim
//!   changes nothing.
#![tactic(auto)]

mod answer;
pub mod counting;
pub mod demand;
pub mod join;
mod joining;
pub mod laws;
mod lines;
mod releasing;
mod slimming;
pub mod table;
pub mod text;
pub mod wanted;

pub use crate::demand::{Demand, DemandFail, Demands, MOST_LEAVES};
pub use crate::text::demand_text;
pub use answer::demand_of;
pub use lines::{NoLines, demand_lines};
