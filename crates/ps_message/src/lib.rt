//! Messages for people on standard error: of a text that is refused, the notes of an accepted one, and why a call did
//! not do all; and who hears them. The message of a refusal says where, by which rule, what is wrong, the line with a
//! caret under the place, and what helps:
//!
//! ```text
//! motor.st:4:15: N2: S_3 is not declared
//!     S_O := S_1 OR S_3;
//!                   ^
//! declare it in VAR_INPUT, VAR_OUTPUT or VAR, or spell it as it is declared (docs/refusals.md, N2)
//! ```
//!
//! Texts:
//!
//! - `advice`: the table of what is said of each rule. `hints`: what was most likely meant if bytes of another
//!   language, or of another kind of text, stand at the place. `hint`: what is said of it instead.
//! - `writing`: the whole message of a refusal, and what it says without the place.
//! - `noted`: the line of a note of an application that is accepted, and that of an odd comment; and both without the
//!   place.
//! - `statuses`: the messages of calls that end without a refusal.
//!
//! Listeners:
//!
//! - `listening`: whoever can hear a message. `standing`: the standard error of a system.
#![tactic(auto)]

pub mod advice;
mod hint;
mod hints;
mod listening;
mod noted;
mod standing;
mod statuses;
mod writing;

pub use advice::{Advice, advice_on};
pub use listening::{Listener, hear_bytes};
pub use noted::{LONGEST_NOTE, note_line, odd_line, plain_note, plain_odd};
pub use standing::StandardError;
pub use statuses::{
    NO_MEMORY, UNWRITTEN, Unread, again_message, trip_message, unread_message, usage_message,
};
pub use writing::{LONGEST_MESSAGE, advised_message, message, plain_message};
