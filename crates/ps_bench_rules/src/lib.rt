//! Rules files: how scans come, and what must never be.
//!
//! - `rules` has what a file says: how scans come, which inputs are fixed or follow a signal, and rules with their
//!   conditions, in lists (`lists`). `flaw` has why it has no answer.
//! - `line` and `words` read the parts of a line, settings and conditions, and `parts` puts together what is right and
//!   what breaks a rule of the form.
//! - `draft` is a file as far as it was read, `taking` what a line does to it, and `reading` reads it, within `limits`.
#![tactic(auto)]

mod draft;
mod flaw;
pub mod limits;
mod line;
mod lists;
mod parts;
mod reading;
mod rules;
mod taking;
mod words;

pub use flaw::{Flaw, RulesFail, RulesRefusal};
pub use lists::{Conditions, Follows, Rules};
pub use reading::read_rules;
pub use rules::{Condition, Follow, Pace, Purpose, Rule, RulesFile};
