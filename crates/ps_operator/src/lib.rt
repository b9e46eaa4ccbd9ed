//! The blocks of an operator (PLCopen TC5, in the profile of this project).
//!
//! - `mode_selector`: SF_ModeSelector.
//! - `two_hand_two`, `two_hand_three`: SF_TwoHandControlTypeII and SF_TwoHandControlTypeIII, and `two_hand`: what both
//!   have in common.
//! - `enable_switch`: SF_EnableSwitch.
#![tactic(auto)]

mod enable_switch;
mod mode_selector;
mod two_hand;
mod two_hand_three;
mod two_hand_two;

pub use enable_switch::{EnableSwitch, EnableSwitchState};
pub use mode_selector::{ModeSelector, ModeSelectorState};
pub use two_hand_three::{TwoHandThree, TwoHandThreeState};
pub use two_hand_two::{TwoHandTwo, TwoHandTwoState};
