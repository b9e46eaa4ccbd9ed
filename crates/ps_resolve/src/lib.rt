//! Resolution: from a source to the application that it stands for, or to the first offence against the rules N on
//! names, drivers and limits (profile, after IEC 61131-3).
//!
//! Rooms: `declared` lists the declared names; `uses`, `drivers` and `limits` try the rules, with
//! `reads` for the names that are read; `numbers`, `parts` and `steps`, with `literal`, build the application;
//! `resolution` puts them together. The checks are public one by one, each with the offences that it looks for, for
//! whoever lists more of them than the first.
#![tactic(auto)]

mod declared;
mod drivers;
mod limits;
mod literal;
mod numbers;
mod parts;
mod reads;
mod resolution;
mod steps;
mod uses;

pub use declared::declared_names;
pub use drivers::{
    calls, check_called, check_calls, check_driven, check_types, note_called, note_target, targets,
};
pub use limits::check_limits;
pub use reads::read_names;
pub use resolution::resolve;
pub use uses::{Names, check_statements};
