//! Why a value is what it is in a scan: facts of the scan, each of which rests on others, down to the inputs of the
//! scan and what was before it.
//!
//! Facts, and the small rules by which they are picked:
//!
//! - `fact`: what can be said. `demands`: which pin a safe output lacks.
//! - `operands`: which operands of a formula are named. `reading`: what a step reads of a signal.
//! - `guards`: what is said of the guards of a state. `pins`: what is said of the pins of a call.
//! - `call`: what is seen of an instance in a scan. `moment`: a scan, and since when its states have been.
//!
//! The search for what a fact rests on:
//!
//! - `scene`: what is seen of a scan. `keeping`: what is seen of an instance from scan to scan.
//! - `scene_reading`: what a step reads, and what the guards see in a call.
//! - `signals`, `pin_reasons`, `asks`, `states`: on what a fact of each sort rests.
//! - `explaining`: all that a fact rests on. `steps`: which step makes a fact.
//! - `questions`: what is asked of a scan, and its answer.
//! - `laws`: what is said is enough, and it is so.
//!
//! How it is laid out:
//!
//! - `lines`: lines with facts, one below another.
//! - `driving`: the step that drives a signal, by which a line has its place in the source.
//! - `ending`: which ways end a state that stays, which is what it waits for.
#![tactic(auto)]

mod asks;
mod call;
mod demands;
mod driving;
mod ending;
mod explaining;
mod fact;
mod guards;
mod keeping;
pub mod laws;
mod lines;
mod moment;
mod operands;
mod pin_reasons;
mod pins;
mod questions;
mod reading;
mod scene;
mod scene_reading;
mod signals;
mod states;
mod steps;

pub use call::{CallScene, has_elapsed};
pub use demands::tell_denial;
pub use driving::step_of_driver;
pub use ending::{is_end, is_error};
pub use explaining::{Explanation, Reasons, explain};
pub use fact::Fact;
pub use guards::tell_guards;
pub use keeping::{Stepped, step_instance, step_instances};
pub use lines::{Line, first_lines};
pub use moment::Moment;
pub use operands::tell_signals;
pub use pins::{tell_modes, tell_pin};
pub use questions::{Question, answer};
pub use reading::signal_fact;
pub use scene::Scene;
pub use steps::step_of;
