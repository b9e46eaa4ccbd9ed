//! Names and the rules N on them (profile, after IEC 61131-3): what a source declares, where it breaks a rule, and the
//! application that it stands for. Most of this is definitions; `ps_resolve` computes by them.
//!
//! Declared names:
//!
//! - `entry`: what a declared name is. `table`: where a name is declared first, found without letter case by one hash.
//! - `repeats`: notes names that come again, and makes the table of the declared names.
//!
//! One use of a name, by the sort of the name:
//!
//! - `sorts`: what is broken if a name of a sort is read, assigned, called or given an argument (N2, N4, N6); the pins
//!   of a kind.
//! - `driven`: what a declared name breaks by its type, or as it is assigned, read and called (N3, N8, N10).
//! - `outputs`: the place of an output. `joined`: the AND or OR of operands.
//!
//! Offences:
//!
//! - `offence`: the order of offences, of which a refusal names the first.
//! - `laws`: a source that breaks no rule stands for one application, and this keeps its invariant.
#![tactic(auto)]

mod driven;
mod entry;
mod joined;
pub mod laws;
mod offence;
mod outputs;
mod repeats;
mod sorts;
mod table;

pub use driven::{check_type, note_uncalled, note_undriven};
pub use entry::{Entry, Sort, TypeNamed};
pub use joined::{all_of, any_of};
pub use offence::{is_before, note, note_if, number};
pub use outputs::output_at;
pub use repeats::{index, note_again};
pub use sorts::{
    note_argument, note_call, note_drive, note_drive_pin, note_read, note_read_pin, pin_of, sort_at,
};
pub use table::Table;
