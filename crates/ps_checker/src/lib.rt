//! The checker of certificates: whether the lines of a certificate derive an application, or the first objection.
//!
//! It trusts no maker of a certificate: of ps_flow it takes the type `Certificate` alone. Rooms: `checking` tries the
//! lines and the literals, `covering` the obligations; `objection` has the answers; `laws` says that what was derived
//! passes.
#![tactic(auto)]

mod checking;
mod covering;
pub mod laws;
mod objection;

pub use checking::check;
pub use objection::{Checked, Objection};
