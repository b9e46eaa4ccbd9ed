//! The blocks of actuators (PLCopen TC5, in the profile of this project).
//!
//! - `safety_request`: SF_SafetyRequest.
//! - `out_control`: SF_OutControl.
//! - `monitoring`: SF_EDM.
#![tactic(auto)]

mod monitoring;
mod out_control;
mod safety_request;

pub use monitoring::{Edm, EdmState};
pub use out_control::{OutControl, OutControlState};
pub use safety_request::{SafetyRequest, SafetyRequestState};
