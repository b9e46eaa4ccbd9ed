//! `why` of the program `plcsafe-bench`, over any files, any output, and whoever listens: why something of a scan is
//! so, as text and as JSON.
//!
//! The command:
//!
//! - `explaining`: `why APP TRACE TIME NAME`. `walking`: finds the scan. `reasoning`: what is said of it.
//! - `looping`: the loop over the scans of a trace up to a time: of the last scan at or before it the values of all
//!   signals before it and after it, what is seen of each instance, and since when each instance was and is in its
//!   state. `walker`: what is kept of a run from scan to scan.
//! - `placing`: where in the source the steps stand that make facts.
//! - `missing`: what a person reads if no scan is at or before the time.
//!
//! The text:
//!
//! - `naming`: the names of an application.
//! - `facts`: a fact in words. `waiting`: what a state waits for that stays.
//! - `lines`: in which order facts are written, and how deep each stands.
//! - `telling`: the whole text.
#![tactic(auto)]

mod explaining;
mod facts;
mod lines;
mod looping;
mod missing;
mod naming;
mod placing;
mod reasoning;
mod telling;
mod waiting;
mod walker;
mod walking;

pub use explaining::{Asked as WhyAsked, why};
pub use lines::lines_of;
pub use telling::because;
