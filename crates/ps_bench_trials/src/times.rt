// When the scans of a course are.

ghost use Rattle.std.specs.Prelude.{◌≡◌};
ghost use Rattle.ps_bench_trials.specs.Steps.{items_in};
ghost use Rattle.ps_bench_trials.specs.Times.{time_in};

use crate::drawing::Trial;
use crate::step::Step;

// The time of the scan of this number, counted from 1; 0 where there is none.
fn time_in(steps: &[Step], number: u32) -> u32
    ensures { result ≡ time_in number (items_in steps.now) }
{
    let mut left = number;
    for step in steps {
        if let Step::Scanned(scan, _) = step {
            if left == 1 {
                return scan.now;
            }
            left = left.saturating_sub(1);
        }
    }
    0
}

/// The time of the scan that a trial strikes; 0 where the steps have no such scan.
pub fn struck_at(steps: &[Step], trial: &Trial) -> u32
    ensures { result ≡ time_in trial.now.scan (items_in steps.now) }
{
    time_in(steps, trial.scan)
}
