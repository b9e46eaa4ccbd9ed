// What is seen of a scan.

ghost use Rattle.std.specs.Prelude.{◌≡◌};
ghost use Rattle.ps_bench_judge.specs.Moments.{is_stopped, moment_of, trips};

use ps_machine::Signals;
use ps_model::{Report, Verdict};

/// What is seen of a scan.
#[derive(Clone, Copy)]
pub struct Seen<'a> {
    /// Its time in ms.
    pub now: u32,
    /// What the comparator said of it.
    pub verdict: Verdict,
    /// The report that was released.
    pub report: &'a Report,
    /// The value of each signal after the scan before, as the networks mean it.
    pub before: &'a [bool],
    /// The value of each signal after this scan, as the networks mean it.
    pub signals: &'a [bool],
}

impl<'a> Seen<'a> {
    // The signals before the scan and after it.
    pub(crate) fn both(&self) -> Signals<'a>
        ensures before { result.before.now ≡ (moment_of self.entry.now).before }
        ensures behind { result.behind.now ≡ (moment_of self.entry.now).signals }
    {
        Signals {
            before: self.before,
            behind: self.signals,
        }
    }
}

/// Whether a scan tripped, or the world is down since an earlier one.
pub fn is_stopped(verdict: Verdict) -> bool
    ensures { result ≡ is_stopped verdict }
{
    match verdict {
        Verdict::Released => false,
        Verdict::Tripped(_) | Verdict::Down => true,
    }
}

/// Whether a scan tripped.
pub fn is_trip(verdict: Verdict) -> bool
    ensures { result ≡ trips verdict }
{
    match verdict {
        Verdict::Tripped(_) => true,
        Verdict::Released | Verdict::Down => false,
    }
}
