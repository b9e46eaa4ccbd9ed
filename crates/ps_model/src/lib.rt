//! The model of an application: its types, the tables of its blocks, and what a scan of it means. No bytes of code and
//! no cells of a machine occur here; everything above is proved against this crate. `docs/model.md` is a way through
//! its definitions.
//!
//! Its rooms:
//!
//! - Blocks (PLCopen TC5): `kind` has the kinds by number and by name, `pins` their pins, `demands` what a safe output
//!   needs of them, `block_laws` what is proved of every kind.
//! - Applications: `app` is an accepted text as a value, made of what is declared (`named`), of steps (`step`) over
//!   expressions (`expr`) and of the list of their nodes (`node`). `driver` is what drives a signal, `typing` asks for
//!   the types of signals and pins, `sizes` says where the outputs stand, `budget` how many turns a channel needs.
//! - Scans: `report` has a scan's inputs, its report and where two reports first differ, `values` the lists that they
//!   are made of, `laws` the laws of every application: exactly one state solves a scan, and a safe value is TRUE only
//!   where its skeleton is.
//! - Channels: `channel` has the words of the machines and of the worlds over them.
#![tactic(auto)]

mod app;
pub mod block_laws;
mod budget;
mod channel;
mod demands;
mod driver;
mod expr;
mod kind;
pub mod laws;
mod named;
mod node;
mod pin_tables;
mod pins;
mod report;
mod sizes;
mod step;
mod typing;
mod values;

pub use app::App;
pub use budget::{
    boolean_count, equation_rows, equation_rows_of_step, instructions, instructions_of_step,
};
pub use channel::{Cause, Channel, Fault, ImageSizes, OutOfRegion, Progress, Region, Verdict};
pub use demands::{Need, demand};
pub use driver::Driver;
pub use expr::{Expr, Exprs, evaluate};
pub use kind::{
    Kind, Ty, auxiliary_pin, fixed_limit, kind_name, kind_named, kind_number, kind_numbered,
    output_count, reset_pin, safe_count,
};
pub use named::{Instance, Instances, Signal, Signals};
pub use node::{Node, Shape, node_count, write_nodes};
pub use pins::{PinRow, input_count, pin_count, pin_name, pin_named, pin_row};
pub use ps_base::{Bytes, Fail, Label, Memory, Place, Refusal, Rule, limits};
pub use report::{Diag, Diags, Report, Scan};
pub use sizes::Sizes;
pub use step::{Arg, Args, Step, Steps};
pub use typing::{input_type, is_safe};
pub use values::{Bits, FirstPins, Kinds};
