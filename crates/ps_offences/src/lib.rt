//! The rules B on function blocks, and all that the rules N and B refuse in a text, piece by piece, for whoever reports
//! more of it than the first offence.
//!
//! The rules B on a text, whose first offence refuses it:
//!
//! - `tally`: counts names.
//! - `naming`, `types`, `uses`, `calls`, `counts`: the rules B1, B2, B3 and B5 on a body. Each check is public, with
//!   the offences that it looks for, for whoever lists more of them than the first.
//! - `rules`: all of them, and B4, on a text.
//! - `laws`: what holds if no rule is broken.
//!
//! Further offences:
//!
//! - `names`: the offences of a source against the rules N. `blocks`: those of a text against the rules B.
//! - `adding`: puts what a check finds into a list. `order`: brings a list into the order of the text.
//!
//! A check that looks at a statement or a declaration gives the first offence of it; so a list has each of these pieces
//! that breaks a rule, and of one statement not every offence. What a reader believes is in specs/: `BlockRules`.
#![tactic(auto)]

mod adding;
mod blocks;
mod calls;
mod counts;
pub mod laws;
mod names;
mod naming;
mod order;
mod rules;
mod tally;
mod types;
mod uses;

pub use blocks::offences_of_blocks;
pub use calls::check_calls;
pub use counts::{calls_of, check_count, declared_of};
pub use names::offences_of_names;
pub use naming::{check_kinds, check_names};
pub use order::in_order;
pub use rules::{check_size, first_offence};
pub use tally::Tally;
pub use types::check_types;
pub use uses::{Body, check_uses};
