// What a step reads of a signal.

ghost use Rattle.std.specs.Prelude.{◌≡◌};
ghost use Rattle.ps_why.specs.Reading.{fact_of_signal};

use crate::fact::Fact;

/// The fact that a signal has a value in this scan, or had it before the scan.
pub fn signal_fact(in_this_scan: bool, signal: u16, value: bool) -> Fact
    ensures { result ≡ fact_of_signal in_this_scan signal value }
{
    if in_this_scan {
        Fact::SignalIs { signal, value }
    } else {
        Fact::SignalWas { signal, value }
    }
}
