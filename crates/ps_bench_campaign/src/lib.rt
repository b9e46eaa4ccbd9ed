//! `campaign` and `sum` of the program `plcsafe-bench`, over any files, any output, and whoever listens.
//!
//! - `reading` reads the course of a trace, with the report that each of its scans has without a fault, and `recorder`
//!   takes it step by step; `recording` does so for what a word means.
//! - `trialing` is the run of a trace with one fault, beside the reports of the run without it; `marks` is where it may
//!   begin and end. `trials` is one trial after another, counted.
//! - `campaigning` is `campaign APP TRACE FROM COUNT`, `telling` the text of the trials, and `printing` their faults as
//!   lines of a fault file.
//! - `summing` is `sum FILE..`. `laws`: no trial is wrong, and parts of the trials sum up to all of them.
#![tactic(auto)]

mod campaigning;
pub mod laws;
mod marks;
mod printing;
mod reading;
mod recorder;
mod recording;
mod summing;
mod telling;
mod trialing;
mod trials;

pub use campaigning::{Asked as CampaignAsked, campaign};
pub use reading::read_course;
pub use recorder::Course;
pub use summing::sum;
pub use trials::{Campaign, Codes, codes_of, room_of, run_campaign};
