//! The accepted application of a text: what each command does, from the bytes of a source on, before it does its own.
//!
//! - `flattening`: tries the rules B on a text with function blocks before it is laid flat.
//! - `accepting`: takes a text through the rules, letter by letter, to an application with a certificate that was
//!   checked. `demanding`: goes on to the demands of its outputs, by the rule M1.
//! - `deciding`: what of this is public: what the bytes that decide of a text give.
//! - `reading`: reads these bytes by the name of the text's file, alone or with what they give.
//! - `laws`: a text has one reading.
#![tactic(auto)]

mod accepting;
mod deciding;
mod demanding;
mod flattening;
pub mod laws;
mod reading;

pub use accepting::Accepted;
pub use deciding::{accept_text, demand_text, resolve_text};
pub use demanding::Demanded;
pub use flattening::flat_source;
pub use reading::{read_accepted, read_demanded, read_resolved, read_source};
