//! What the commands of the program `plcsafe-bench` share, over any files and any output.
//!
//! - `sourcing` is how a command comes to an application, by one reading of its file: with its text, and with the source
//!   that it stands for, if places of the source are to be shown; `program` leads from a text to source and application.
//! - `opening` is how it comes to the cases of a file, and how a call ends that gets no application.
//! - `held` is a text that was read once, as files that hold it.
//! - `meant` is what a word means that stands in the place of a trace.
//! - `ending` has the exit statuses of the program, and why a call stops.
//! - `refusing` is the line of a case file, a rules file, a log or a file of counts that is refused, and how a call
//!   ends that refuses a log.
//! - `pieces` has pieces of what the commands write, and how a name from outside stands in a line; `shown_laws` has what
//!   holds of every such name.
//! - `call` is the call as one value: files, output and whoever listens. `answering` is how it ends: a command gives an
//!   answer, or why it stops, and `finish` writes the last text, or the line of the refusal.
//! - `following` does the items of a trace of which only is kept what comes of them: nothing is written.
#![tactic(auto)]

mod answering;
mod call;
mod ending;
mod following;
mod held;
mod meant;
mod opening;
pub mod pieces;
mod program;
mod refusing;
pub mod shown_laws;
mod sourcing;

pub use answering::{Answer, finish};
pub use call::{Call, CallOver};
pub use ending::{Input, InputStop, Status, Stop, exit_code};
pub use following::follow;
pub use held::{HeldText, copy_from};
pub use meant::{Part, Word, word_of};
pub use opening::{Opened, open_cases, open_written_cases, refuse_app};
pub use refusing::{
    add_refusal, log_refused_line, refuse_log, refused_line, rules_refused_line, sum_refused_line,
};
pub use sourcing::{Sourced, open_app, open_sourced};
