//! What the words of a line name: signals, instances and pins of an application, and values of theirs.
//!
//! - `words` has the words of a line that count, and pieces of them; `titles` what may be the name of a case or of a
//!   rule.
//! - `name` has whose value is looked at and what inputs take, and `names` what a word names, and which value it is.
#![tactic(auto)]

mod name;
mod names;
mod titles;
mod words;

pub use name::{Name, Setting, Settings, Values};
pub use names::{input_named, name_of, signal_named, truth_of, value_of, values_of};
pub use titles::is_case_name;
pub use words::{
    before_blanks, behind_blanks, cut, is_digits, is_none_left, next_counted, take_word,
};
