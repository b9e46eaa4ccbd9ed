//! The lexer: from the bytes of a text to its tokens, after the lexical part of IEC 61131-3 in the project's profile.
//!
//! Rooms: `token` has the tokens that the calls above take; `scanner` finds them, the longest at each place; `time`
//! reads the value of a TIME literal; `laws` says that a text has one token list or one refusal. What a reader believes
//! stands in specs: `Spelling`, `TimeLiterals`, `Shapes`, `Gaps` and `Reading`.
#![tactic(auto)]

pub mod laws;
mod scanner;
mod time;
mod token;

pub use scanner::lex;
pub use token::{Form, Token, TokenList, Tokens, Word};
