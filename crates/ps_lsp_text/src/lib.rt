//! The language server as a function of messages, which reads and writes nothing: the texts that are open in an editor,
//! what is found in each, what stands at a place of it, and what the server answers and sends by that.
//!
//! - `server`: the methods. `asking`: what a message says. `fronts`: what of a text decides of it.
//! - `published`: what the editor is sent of what is found in a text. `shown`: what stands at a place.
//! - `texts`: the texts that are open, each under its name, with the last one of its name that parsed.
//!
//! Found in a text, as an editor shows it: its refusals, and the notes if it is accepted.
//!
//! - `finding`: what a finding is. `spans`: how long a piece is from a place on.
//! - `finding_all`: finds them. `demanding`: what an output demands.
//!
//! At a place: what stands there, what may be written there, where it is declared, and what the text declares. These
//! look at the tokens of now, so that a text which is being written has answers too, and if these declare a name no
//! more or not yet, at those of the last text that parsed.
//!
//! - `looking`: looks at tokens. `declared`: at declarations and calls. `sight`: at both texts.
//! - `hovering`, `completing`, `defining`, `listing`: the answers.
//! - `described`: describes kinds and pins. `driving`: what drives a name.
//!
//! `made`: texts, lists and objects of JSON that are being made, and note if memory ran out.
#![tactic(auto)]

mod asking;
mod completing;
mod declared;
mod defining;
mod demanding;
mod described;
mod driving;
mod finding;
mod finding_all;
mod fronts;
mod hovering;
mod listing;
mod looking;
mod made;
mod published;
mod server;
mod shown;
mod sight;
mod spans;
mod texts;

pub use completing::{Item, Sort, completions};
pub use defining::{Defined, definition};
pub use demanding::demand_told;
pub use finding::{Finding, Findings, What};
pub use finding_all::{MOST_FINDINGS, findings_in};
pub use hovering::{Hovered, hover};
pub use listing::{Symbol, symbols};
pub use server::{Server, Stage};
pub use sight::Asked;
pub use texts::{MOST_TEXTS, Texts};
