//! Channel A: a machine that runs stack code, on any bytes. It steps each instance as a typed block.
//!
//! - `channel`: the channel, with its code and its cells; `cells` and `layout` are its cells.
//! - `turn`: one turn and a run of them, by `fetch`, `stack` and `call`; a run keeps the `head` of the cells apart;
//!   `pins` is what a call takes from the stack.
//! - `instance`: the step of an instance in the cells; channel C has it too.
//! - `report`: the report that the cells hold.
//! - `instruction` and `trap`: the instructions and the traps with their numbers.
//!
//! What the bytes are and what a turn does is defined in specs/, for any code and any cells.
#![tactic(auto)]

mod call;
mod cells;
mod channel;
mod fetch;
mod head;
mod instance;
mod instruction;
pub mod layout;
mod pins;
mod report;
mod stack;
mod trap;
mod turn;

pub use channel::StackChannel;
pub use instance::step_instance;
pub use instruction::Instruction;
pub use ps_machine::CodeImage as StackImage;
pub use trap::Trap;
