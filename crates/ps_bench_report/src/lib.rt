//! `report` of the program `plcsafe-bench`, over any files and any output: one page in HTML, which is a list of pieces
//! and written at its end, with a recording of the run of each case, which is drawn.
//!
//! Markup:
//!
//! - `names`: the elements and attributes that a page may have, which are the program's own.
//! - `page`: the pieces, and a page that is made of them. `parts`: several pieces at once.
//! - `writing`: the text of a page, with its values as ps_text writes them. `picture`: words, lines and bands of a
//!   picture.
//!
//! Recording:
//!
//! - `marks`: what a case expects, by its scans, and what is shown of it by name.
//! - `recording`: the scans that are shown, and who takes them. `filming`: who takes the scans of a run, and the loop over
//!   them. `playing`: the run of a case of which it is kept what is shown of it, and what it shows of the application.
//!
//! Drawing:
//!
//! - `scale`: where scans stand in a picture. `ground`: what a picture is drawn on. `drawing`: its lines, bands and words.
//! - `diagram`: the timing diagram of a case. `changes`: what changed in it, in a table.
//!
//! The report:
//!
//! - `tables`: head, tables, texts and foot of a report.
//! - `texts` are the parts that are texts: source, notes, demands, coverage and what is claimed.
//! - `running` runs the cases of files, with a row for the result of each. `showing` is the part of a case.
//! - `reporting` is `report APP CASES..`.
#![tactic(auto)]

mod changes;
mod diagram;
mod drawing;
mod filming;
mod ground;
mod marks;
mod names;
mod page;
mod parts;
mod picture;
mod playing;
mod recording;
mod reporting;
mod running;
mod scale;
mod showing;
mod tables;
mod texts;
mod writing;

pub use reporting::{Asked as ReportAsked, report};
