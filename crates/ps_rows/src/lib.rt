//! Channel B's tables of the function blocks (profile): the mask rows by which it finds the next state
//! of a block, and its own numbers of pins, outputs and limits. Channels A and C step typed states
//! instead and stand on none of this.
//!
//! - `mask_row`: a row, the place of a state's rows, and the search for the first that fits.
//! - `equivalent` to `edm`: the rows of each kind, as a static that the definitions import.
//! - `table`: the rows by kind. `view`: the conditions that they are masks over.
//! - `step`: one step of a block whose timer counts down. `last_pins`: the pins that a kind remembers.
//! - `kinds`: the numbers of each kind.
//! - `laws`: the rows of each kind decide as its transition table does.
//!
//! A step is made a part of its caller (`inline(always)`): where that has a code of its own for each kind,
//! as the machine of channel B has, only the rows of the kind are left in it.
#![tactic(auto)]

mod edm;
mod enable_switch;
mod equivalent;
mod guard_locking;
mod guard_monitoring;
mod kinds;
mod last_pins;
pub mod laws;
mod mask_row;
mod modes;
mod out_control;
mod safety_request;
mod step;
mod stop;
mod table;
mod two_hand_three;
mod two_hand_two;
mod view;

pub use kinds::{
    all_outputs, boolean_pins, free_value, kind_with_number, number_of, own_limit, safe_outputs,
};
pub use mask_row::{MaskRow, RowRange};
pub use step::CountedBlock;
pub use table::{next_of, row, row_count, state_rows};
pub use view::{BlockView, conditions};
