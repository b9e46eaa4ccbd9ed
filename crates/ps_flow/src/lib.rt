//! SAFEBOOL flow: which applications are accepted (PLCopen TC5), the certificate of each, and the text of a
//! certificate.
//!
//! Rooms: `flow` derives an application; `certificate` has the lines that it gives, and `refusal` why it gives none;
//! `text` writes a certificate and `reading` reads one; `laws` says what holds of all answers.
#![tactic(auto)]

mod certificate;
mod flow;
pub mod laws;
mod reading;
mod refusal;
mod text;

pub use certificate::{CertLine, Certificate, LineRule, Premises};
pub use flow::derive;
pub use reading::read_certificate;
pub use refusal::{FlowFail, FlowRefusal};
pub use text::write_certificate;
