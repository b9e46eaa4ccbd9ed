//! Texts with function blocks: from the tokens of a text to its library, exactly by the grammar.
//!
//! Rooms: `library` has the tree, the function blocks of a text in order and its program; `read_library` reads it;
//! `declared` lists what a body declares, and `scope` finds it by name; `interface` has what bodies see of function
//! blocks; `sizes` decides the `limits` of the flat source; `laws` says that tokens have one answer. What a reader
//! believes stands in specs: `Texts`, `Bodies`, `Interfaces`, `Renaming`, `Dotted`, `Spelling`, `Flat`, `Limits` and
//! `Giving`.
#![tactic(auto)]

mod declared;
mod interface;
pub mod laws;
mod library;
mod limits;
mod read_library;
mod scope;
mod sizes;

pub use declared::{Declared, copy_of};
pub use interface::{Interface, Interfaces};
pub use library::{Library, Sources};
pub use read_library::parse_library;
pub use scope::Scope;
pub use sizes::is_within_limits;
