//! What is known of a refusal beside its rule, for the message that a person reads: the pins of a kind if a pin is
//! wrong, the BOOL values if a SAFEBOOL is asked for, the inputs of the program, what may stand at a token, and which
//! word of a line is wrong; and where in the text a note belongs. These are words and no judgement: a text of which
//! nothing more is known has none.
//!
//! By the place of the refusal:
//!
//! - `lines`: looks at lines and words. `faults`, `traces`: what is wrong in a line of a fault file, of a trace.
//!   `times`, `bytes`: in a TIME literal, and at a byte. `grammar`: what stands at a token, and what may.
//! - `seats`: which seat was dirty. `regions`: where a fault passes the end of a region. `usage`: what is said of the
//!   words of a call. `fields`: the names and values of the fields of a report.
//!
//! By what the text declares:
//!
//! - `reading`: looks at tokens. `values`: the BOOL values of a value. `pins`: the pins of a kind. `blocks`: the pins
//!   of function blocks of the text. `inputs`: the names of inputs. `naming`: where a name would be declared, and which
//!   types there are.
//! - `sources`: the flat source of a text. `limits`: which limit it passes, and `sizes` how large
//!   it is. `flows`: all that SAFEBOOL flow refuses.
//!
//! Together:
//!
//! - `telling`: what is told, while it is written.
//! - `detail`: what is said of a refusal. `further`: what is refused after the first refusal.
//! - `refusing`: the message of an application that is refused, with the lines of further refusals.
//! - `places`: where notes belong. `comments`: comments that are shown otherwise than they are read, and `odds`
//!   while they are found.
#![tactic(auto)]

mod blocks;
mod bytes;
mod comments;
mod detail;
mod faults;
mod fields;
mod flows;
mod further;
mod grammar;
mod inputs;
mod limits;
mod lines;
mod naming;
mod odds;
mod pins;
mod places;
mod reading;
mod refusing;
mod regions;
mod seats;
mod sizes;
mod sources;
mod telling;
mod times;
mod traces;
mod usage;
mod values;

pub use comments::{odd_comments, odd_lines};
pub use detail::{detail_on, header_told, inputs_told};
pub use fields::field_told;
pub use further::further_refusals;
pub use places::placed_notes;
pub use refusing::refusal_of_app;
pub use regions::{RegionSizes, past_told};
pub use seats::dirty_told;
pub use usage::{HELP, VERSION, right_words, wrong_words};
