//! The parser: from the tokens of a text to its source tree, exactly by the grammar.
//!
//! Rooms: `source`, `section`, `statement`, `expression` and `name` have the tree that the calls above take; `heads`
//! and `sign` its words; `read_source`, `read_section`, `read_statement` and `read_expression` read it, one function
//! for each phrase of the grammar, with `peek` for what stands next and `stop` for why nothing is read; `laws` says
//! that tokens have one answer. What a reader believes stands in specs: `Names`, `Tree`, `Symbol`, `Spelt`, `Whole`,
//! `Parsing`, `Places`.
#![tactic(auto)]

mod expression;
mod heads;
pub mod laws;
mod name;
mod peek;
mod read_expression;
mod read_section;
mod read_source;
mod read_statement;
mod section;
mod sign;
mod source;
mod statement;
mod stop;

pub use expression::{Factor, Factors, Product, Products, Sum};
pub use heads::Heads;
pub use name::{Name, Names};
pub use read_source::{is_head_at, parse, parse_from};
pub use section::{Declaration, Declarations, Part, Section, Sections};
pub use source::Source;
pub use statement::{Argument, Arguments, Statement, Statements, Target};
