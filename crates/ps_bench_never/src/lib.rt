//! `never` and `same` of the program `plcsafe-bench`, over any files, any output, and whoever listens: that no scan
//! meets the rules of a file, and that two applications have the same outputs in every scan; or a shortest case in
//! which that is not so.
//!
//! What is asked, of one application or of two:
//!
//! - `wanted`: which inputs are read by a step, by a rule, or by an input that follows. `ruling`: what is asked, as the
//!   search takes it.
//! - `pieces`: names and values. `casing`: the case of a rule that is met.
//!
//! `never`, whether the scans of the rules file come so many ms apart or at any times:
//!
//! - `telling`: the whole text if scans come so many ms apart. `answering`: the answer then.
//! - `single`: a file with one of its rules alone. `by_part`: a rule that holds by a part of the application.
//! - `searching`: the searches of rules whose scans come some ms apart. `telling_any`: the text of what they found.
//!   `answering_any`: the answer to any rules file.
//! - `forbidding`: `never APP RULES`.
//! - `laws`: a case at a number of ms is one at any times.
//!
//! `same`:
//!
//! - `likeness`: whether two applications have the same inputs and outputs.
//! - `same_telling`: the whole text. `same_answering`: the answer to a rules file.
//! - `comparing`: `same APP OTHER`. `messages`: what a person reads of applications that are not compared.
//! - `same_laws`: the output that is named differs.
#![tactic(auto)]

mod answering;
mod answering_any;
mod by_part;
mod casing;
mod comparing;
mod forbidding;
pub mod laws;
mod likeness;
mod messages;
mod pieces;
mod ruling;
mod same_answering;
pub mod same_laws;
mod same_telling;
mod searching;
mod single;
mod telling;
mod telling_any;
mod wanted;

pub use answering::{NeverFail, Told, answer_every, asked_if_few};
pub use answering_any::answer;
pub use casing::{add_case, add_set};
pub use comparing::{Asked as SameAsked, same};
pub use forbidding::{Asked as NeverAsked, at_least_one, never, refuse_rules, write_told};
pub use likeness::{Unlike, first_unlike};
pub use pieces::signal_text;
pub use ruling::{asked_of, inputs_of_two};
pub use same_answering::{SameFail, Told as SameTold, answer as answer_same};
