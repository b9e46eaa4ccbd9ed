// What is seen of a scan.

use crate::CallScene;
use ps_machine::Signals;

/// What is seen of a scan: its signals and its instances, by their numbers.
#[derive(Clone, Copy)]
pub struct Scene<'a> {
    /// The value of each signal before the scan and after it.
    pub signals: Signals<'a>,
    /// What is seen of each instance.
    pub calls: &'a [CallScene],
}
