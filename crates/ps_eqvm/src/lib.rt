//! Channel B: a machine that runs equation code (profile), over cells that are kept as words of bits.
//!
//! - `channel`: the channel with its calls, as a machine of any world; `own_sizes`: its copy of the sizes.
//! - `layout`, `opcode`, `operand`, `trap`: the numbers of the cells, the rows and the traps, which its
//!   compiler takes from here.
//! - `turn`, `gates`, `block`, `outputs`: one row, by its kind. `report`: the report of the cells.
//! - `counting`: bytes of another channel, from which this one is restored, as it stores them.
//! - `plain`, `cells`, `words`, `instances`, `kept`: the cells and how they are stored.
#![tactic(auto)]

mod block;
mod cells;
mod channel;
mod counting;
mod gates;
mod instances;
mod kept;
pub mod layout;
mod opcode;
mod operand;
mod outputs;
mod own_sizes;
mod plain;
mod report;
mod trap;
mod turn;
mod words;

pub use channel::EquationChannel;
pub use opcode::{Gate, Opcode};
pub use operand::{constant, work_cell};
pub use ps_machine::CodeImage as EquationImage;
pub use trap::Trap;
