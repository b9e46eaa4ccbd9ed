//! Messages of JSON-RPC 2.0 over a stream of bytes, as the Language Server Protocol has them: how they are read, what
//! they ask, the one answer to each, and how it is written.
//!
//! `incoming` has the trait of a stream that is read forward, the stream of the system, and one in memory; `heads`
//! reads the length in a head, `reading` a message, and `writing` writes one. `request` reads what a message asks,
//! `answering` has its answers, and `sending` writes them. `laws` says which messages are read.
#![tactic(auto)]

mod answering;
mod heads;
mod incoming;
pub mod laws;
mod reading;
mod request;
mod sending;
mod writing;

pub use answering::{Code, Outcome, answer};
pub use heads::MOST_LINES;
pub use incoming::{Incoming, MemIncoming, SystemIncoming};
pub use reading::{Frame, LARGEST_MESSAGE, LONGEST_HEAD, read_frame};
pub use request::Request;
pub use sending::{Reply, Unsent, send_reply};
pub use writing::write_frame;
