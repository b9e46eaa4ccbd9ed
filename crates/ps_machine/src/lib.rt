//! What the machines of all channels have in common. A machine runs compiled code over cells, in turns; here is what it
//! means that a machine keeps an application's meaning, for any number of machines, and the seats of a world that
//! machines take.
//!
//! Machines:
//!
//! - `machine`: the trait of a machine, over which worlds of channels are written, and that of one which can become
//!   what another is.
//! - `image`: compiled code. `frame`: what a channel has whose cells are kept byte by byte.
//! - `bytes`: bytes at places of a region, and what a progress byte says.
//! - `calls`: what a call of a block becomes in code, for the channels that look it up in the tables.
//! - `laws`: what is read after bytes were replaced.
//!
//! Seats:
//!
//! - `seat`: a machine with its code as compiled, its turn count and its budget, all of which lie outside every region
//!   that a fault can reach. It is generic over the machine, so worlds of two and of three channels are made of the
//!   same seats.
//!
//! What the steps of an application read in a scan, by the values of its signals before the scan and after it:
//!
//! - `signals`: these values.
//! - `reading`: whether a signal has its value of this scan already at a step, and what the step reads of it and of a
//!   value.
//! - `pins`: which step calls an instance, and what it reads at the input pins.
//! - `trying`: which signals a state of a search has therefore, and how many scans are tried from it.
//!
//! In specs/ a reader finds a machine (Machines), its channel as callers see it (StoredChannel), its own events
//! (Channels), and the promise of a compiler (Keeping).
#![tactic(auto)]

mod bytes;
mod calls;
mod frame;
mod image;
pub mod laws;
mod machine;
mod pins;
mod reading;
mod seat;
mod signals;
mod trying;

pub use bytes::{number_in_four, number_in_two, overwrite, progress_of_byte, replace};
pub use calls::{call_limit, free_value, kind_by_number};
pub use frame::Frame;
pub use image::CodeImage;
pub use machine::{ScanMachine, TwinMachine};
pub use pins::{call_step, input_pin, read_pin, read_pins};
pub use reading::{is_new, read_signal, read_value};
pub use seat::{Failing, Seat};
pub use signals::{Signals, bit_at};
pub use trying::{is_read_old, scan_count};
