//! The program `plcsafe`, over any files and any output.
//!
//! `program` has the call that does all that the program does, by the definition `text`. A command works on a `Call`:
//! the files, the output and what is left after (`left`), as one value. One room for each command: `checking`,
//! `certifying`, `verifying`, `imaging`, `loading`, `demanding`, `running`, `voting`. `accepting` is how they come to
//! an application; `running` has the body of all that run a trace, whoever performs its scans and takes what comes of
//! them; `saying` writes answers.
#![tactic(auto)]

mod accepting;
mod call;
mod certifying;
mod checking;
mod demanding;
mod imaging;
pub mod laws;
mod left;
mod loading;
mod program;
mod running;
mod saying;
mod verifying;
mod voting;

pub use call::Call;
pub use left::{Leaving, Left};
pub use program::top;
pub use ps_runs::{Again, Trip};
pub use ps_words::Words;

/// How a call of the program ended.
#[derive(Clone, Copy)]
pub enum Status {
    /// All was done.
    Done,
    /// The source is refused, by a rule L, P, B, N or S, or for `demand` by the rule M1.
    Refused,
    /// The words are not taken.
    Usage,
    /// The certificate is refused, by a rule C or O, or the fault file, by a rule F, or the trace, by a rule T.
    BadInput,
    /// A scan tripped, and the trace was read to its end.
    Tripped,
    /// A file could not be read.
    ReadFault,
    /// The output could not be written.
    WriteFault,
    /// Out of memory.
    Memory,
}
