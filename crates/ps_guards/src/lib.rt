//! The blocks of guards (PLCopen TC5, in the profile of this project).
//!
//! - `guard_monitoring`: SF_GuardMonitoring.
//! - `guard_locking`: SF_GuardLocking.
#![tactic(auto)]

mod guard_locking;
mod guard_monitoring;

pub use guard_locking::{GuardLocking, GuardLockingState};
pub use guard_monitoring::{GuardMonitoring, GuardMonitoringState};
