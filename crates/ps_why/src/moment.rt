// A scan of which something is told.

ghost use Rattle.std.specs.Prelude.{◌≡◌, slice_index_or};

use crate::call::CallScene;
use ps_model::App;

/// The scan of which something is told.
#[derive(Clone, Copy)]
pub struct Moment<'a> {
    /// The application.
    pub app: &'a App,
    /// The time of the scan in ms.
    pub now: u32,
    /// That of the scan before. None: the scan is the first one, or the first after a restart.
    pub before: Option<u32>,
    /// Since when each instance was in its state before the scan, in ms; of a first scan it says nothing.
    pub since_before: &'a [u32],
    /// Since when each instance is in its state after the scan, in ms.
    pub since: &'a [u32],
    /// The state of each instance before the scan and after it.
    pub calls: &'a [CallScene],
}

// The number at a place; 0 past the end.
fn number_at(numbers: &[u32], i: u16) -> u32
    ensures { result ≡ slice_index_or numbers.now i 0 }
{
    if (i as usize) < numbers.len() {
        numbers[i as usize]
    } else {
        0
    }
}

impl Moment<'_> {
    /// Since when an instance is in its state after the scan, in ms; 0 of one that there is not.
    pub fn begun(&self, i: u16) -> u32
        ensures { result ≡ slice_index_or self.entry.now.since.now i 0 }
    {
        number_at(self.since, i)
    }

    /// Since when it was in its state before the scan, in ms; 0 of one that there is not.
    pub fn begun_before(&self, i: u16) -> u32
        ensures { result ≡ slice_index_or self.entry.now.since_before.now i 0 }
    {
        number_at(self.since_before, i)
    }
}
