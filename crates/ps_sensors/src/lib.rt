//! The blocks of sensors (PLCopen TC5, in the profile of this project).
//!
//! - `contacts`: SF_Equivalent and SF_Antivalent.
//! - `stop`: SF_EmergencyStop and SF_ESPE.
#![tactic(auto)]

mod contacts;
mod stop;

pub use contacts::{Antivalent, ContactsState, Equivalent};
pub use stop::{EmergencyStop, Espe, StopState};
