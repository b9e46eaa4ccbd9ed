//! The loop over the scans and restarts of a trace: who performs them, and who takes what comes of them. It knows
//! nothing of sources, of the words of a command, or of the status that a program ends with.
//!
//! A `Runner` has a `Performer` and a `Taker`, and `do_items` does the items of a trace with them, in order, without
//! memory: the performer makes each scan and its report, and then the taker is lent the performer, and may write of
//! what came of it.
//!
//! | Performer | Makes a scan by | Its verdict |
//! |---|---|---|
//! | `StruckWorld` | a world of two channels that faults strike | released, tripped or down |
//! | `StruckSeats` | a world of three seats that faults strike | the vote |
//! | `Evaluated` | the plain evaluator, with the states before and after the last scan | none |
//! | `Watched<P>` | P, with the evaluator beside it | that of P |
//!
//! - `items`: the loop, and what cuts it short.
//! - `performing`: what a performer is.
//! - `striking`, `seats`: the two worlds that the faults of a list strike.
//! - `watching`: the evaluator alone, and beside another performer.
//! - `taking`: what a taker is, and the lines of a run, which a `LineBuffer` writes.
//! - `counting`: `Counter`, which counts what is released and writes nothing.
#![tactic(auto)]

mod counting;
mod items;
mod performing;
mod seats;
mod striking;
mod taking;
mod watching;

pub use counting::Counter;
pub use items::{Cut, Runner, do_items};
pub use performing::Performer;
pub use seats::{Again, StruckSeats, at_line};
pub use striking::{StruckWorld, Trip};
pub use taking::Taker;
pub use watching::{Evaluated, Watched};
