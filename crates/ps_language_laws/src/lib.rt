//! The laws of the language: the program always has an answer, and only one; and what it says of a text is what the
//! text means.
//!
//! - `laws`: a text has tokens or a refusal, tokens a spelling or a refusal, an application no breach or a first one, a
//!   certificate a derivation or a first objection; so every source has a reading and every certificate a judgement,
//!   and for any words and any texts, if the names that are asked for are held, there is exactly one answer. An
//!   accepted text leaves one map of its names in each scan, and the lines of `run` and `fault` are the reports of
//!   these maps.
//! - `nested_laws`: by names a source means what its application means; nested is flat; paths are apart.
//!
//! What a text means by its names is in specs/: the equations of a scan with names in the place of numbers, and with
//! what stands before a statement given. So they are said once, for an application and for the copies of function
//! blocks in a text.
//!
//! - `Paths`, `Reading` and `Equations`: what a body reads, and what holds of its statements in the copy at a path.
//! - `TextScans`: what a scan of a program leaves. `ByName`: a state of an application as a map of names.
//! - `Nested`: the equations of a scan of a text with function blocks, by paths of instance names; it does not speak of
//!   the flat source. `Runs`: what runs of scans mean. `Maps`: which maps are alike, and what they report.
//! - `Texts`: what is claimed of an accepted text by its own names.
#![tactic(auto)]

pub mod laws;
pub mod nested_laws;
