// What is seen of an instance in a scan.

ghost use Rattle.std.specs.Prelude.{◌≡◌, ◌==◌, ◌-◌};

use ps_ways::LastStep;

/// What is seen of an instance in a scan.
#[derive(Clone, Copy)]
pub struct CallScene {
    /// The number of the step that calls it.
    pub step: u16,
    /// The DiagCode of its state before the scan.
    pub from: u16,
    /// What it had kept of its last step.
    pub last: LastStep,
    /// Whether the limit of the state before has elapsed.
    pub elapsed: bool,
    /// The DiagCode of its state after the scan.
    pub code: u16,
    /// The latched mode after the scan, from 0 to 7.
    pub mode: u8,
}

impl CallScene {
    /// Whether it was idle before the scan.
    pub fn was_idle(&self) -> bool
        ensures { result ≡ (self.now.from == 0) }
    {
        self.from == 0
    }
}

/// Whether a limit has elapsed of which so many ms remained at the scan before, when so many ms have passed since.
pub fn has_elapsed(remains: u32, passed: u32) -> bool
    ensures { result ≡ (remains - passed == 0) }
{
    remains.saturating_sub(passed) == 0
}
