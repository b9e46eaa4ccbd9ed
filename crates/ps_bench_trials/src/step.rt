// A scan or a restart of a course.

use ps_model::{Report, Scan};

/// What comes next in a course.
#[derive(Drop)]
pub enum Step {
    /// A scan, with the report that it has without a fault.
    Scanned(Scan, Report),
    /// All begins anew.
    Anew,
}
