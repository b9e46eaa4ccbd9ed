//! Parts of an application that decide a rule: some of its steps and instances, where what the others leave has become
//! inputs that may have any value. What holds of all runs of a part holds of all runs of the application.
//!
//! - `part`: a part, and where its signals have their values from.
//! - `copies`: whether a step of a part is one of the whole. `checking`: whether an application is a part of another.
//! - `asks`: whether what is asked of a part is what is asked of the whole.
//! - `cutting`: the part that a rule needs. `needs`: what it has. `layout`: the numbers of its signals and instances.
//!   `question`: what is asked of it. `writing`: its text, from which it is read. Only `checking` and `asks` have to be
//!   right for what is proved of it.
//! - `filling`: the inputs of the application in a scan, from those of its part.
//! - `proving`: whether a rule holds by a part.
//! - `trying`: whether a run of the application ends by meeting a rule. `moment`: what a rule asks of a scan.
//! - `deciding`: a run of a part that is one of the application.
//! - `laws`: what holds of a part holds of the application.
#![tactic(auto)]

mod asks;
mod checking;
mod copies;
mod cutting;
mod deciding;
mod filling;
pub mod laws;
mod layout;
mod moment;
mod needs;
mod part;
mod proving;
mod question;
mod trying;
mod writing;

pub use asks::asks_of_part;
pub use checking::is_part_of;
pub use cutting::{Cut, cut_for};
pub use filling::inputs_of_whole;
pub use part::{Claim, Origin, Part};
pub use proving::{Decided, OfRule, Proof, decide, holds_at_any_times};
pub use trying::{ends_meeting, tried};
