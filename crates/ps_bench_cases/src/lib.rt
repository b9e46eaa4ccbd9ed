//! Case files: what a tester sets and what he expects; and the traces and faults of their cases.
//!
//! What a file says:
//!
//! - `case`: statements, their scans, faults and expectations, in lists (`lists`). `rule`: why a file has no answer.
//! - `line`: reads a line: the numbers and settings that its words are (`numbers`, `settings`), checks (`checks`), what
//!   it asks for (`deed`, `deeds`) and faults (`strike`). `parts`: puts together what is right and what breaks a rule.
//! - `settling`: what a line does after the lines before it (`stand`). `draft`: a file as far as it was read, with
//!   bytes that keep their room (`held`). `measured`: the room that its trace has left (`room`).
//! - `reading`: reads a file, within `limits`. `laws`: what holds of all case files.
//!
//! Its trace:
//!
//! - `expanding`: the parts of a trace: the header and a case. `point`: how the trace stands between two lines of a
//!   case.
//! - `whole`: one trace of all cases, or of one of them. `alone`: the case that has a line.
//! - `struck`: the faults that strike a case.
#![tactic(auto)]

mod alone;
mod case;
mod checks;
mod deed;
mod deeds;
mod draft;
mod expanding;
mod held;
pub mod laws;
pub mod limits;
mod line;
mod lists;
mod measured;
mod numbers;
mod parts;
mod point;
mod reading;
mod room;
mod rule;
mod settings;
mod settling;
mod stand;
mod strike;
mod struck;
mod whole;

pub use alone::case_with_line;
pub use case::{Act, Case, CaseFile, Check, Expectation, Pace, Statement, Window};
pub use expanding::{ExpandFail, put, put_case, put_header, put_scan};
pub use held::Held;
pub use lists::{Cases, Checks, Statements};
pub use point::{Point, room_of};
pub use reading::read_cases;
pub use rule::{CaseRefusal, CaseRule, CasesFail};
pub use struck::faults_of;
pub use whole::{expand, expand_alone};
