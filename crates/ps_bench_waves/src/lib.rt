//! What is seen of the scans of a run, by name: as lines in a text, CSV or JSON, as changes, and as waveforms, which
//! are a value change dump (VCD) after IEEE 1364, with string variables, which are an extension of GTKWave.
//!
//! Lines by name:
//!
//! - `format`: the formats. `telling`, `rows`: their lines.
//! - `shown`: what stands for a name, and how its value is shown. `key`: what stands for it in a line of a format.
//! - `names`: what is watched if no names are given. `head`: what stands before the first scan.
//! - `field`: a value that is watched, with the one after the scan before. `column`: a name that is watched, with its
//!   values. `line`: a line in room that was taken before.
//! - `marks`: what marks the next scan of a run. `count`: the number of a scan.
//! - `watcher`: who watches the scans and writes their lines, a taker of ps_runs.
//! - `watching`: the loop over the scans of a trace with who watches them.
//!
//! Waveforms:
//!
//! - `wire`: what a wire is called, and what it has. `value`: what it has in a scan, and whether that is written.
//!   `identifier`: what it is called in a dump.
//! - `parts`: what the wires of a run are about. `reads`: how their values are come by.
//! - `header`: the declarations of a list of wires.
//! - `dump`: the writer of the value changes, a scan after the other; `room` and `change` are its parts.
//! - `dumper`: who writes what the wires have in each scan, a taker of ps_runs.
//! - `laws`: a reader gives back what was written.
#![tactic(auto)]

mod change;
mod column;
mod count;
mod dump;
mod dumper;
mod field;
mod format;
mod head;
mod header;
mod identifier;
mod key;
mod laws;
mod line;
mod marks;
mod names;
mod parts;
mod reads;
mod room;
mod rows;
mod shown;
mod telling;
mod value;
mod watcher;
mod watching;
mod wire;

pub use count::Count;
pub use dump::Dump;
pub use dumper::Dumper;
pub use field::Field;
pub use format::Format;
pub use head::head_of;
pub use header::header_of;
pub use identifier::{Identifier, MOST_WIRES};
pub use key::key_of;
pub use laws::{identifiers_are_unique, read_back, wires_are_declared};
pub use line::Line;
pub use marks::Marks;
pub use names::{all_names, default_names, main_names};
pub use parts::{Part, parts_of};
pub use shown::{label_of, put_digit, put_field, put_json_value, put_truth, put_value};
pub use value::{LONGEST_WORDS, Value, shortened, written};
pub use watcher::Watcher;
pub use watching::watch_items;
pub use wire::{Shape, Wire};
