// How what is said of a stream's lines is handed on, and how a run over them ends.

ghost use Rattle.std.specs.Prelude.{◌≡◌, ◌≤◌, ◌++◌, [], IsTrue, IfErr, OnOk, OnErr, take};
ghost use Rattle.ps_outside.specs.Outside.{Rose};
ghost use Rattle.ps_bench_watch.specs.Ending.{ending_by};
ghost use Rattle.ps_report.specs.Short.{refusal_text};

use ps_base::Refusal;
use ps_outside::{Failed, Output, Stopped, write_all};
use ps_report::refusal_line;

/// How a run ended whose lines were all answered.
#[derive(Clone, Copy)]
pub enum Ending {
    /// No scan tripped.
    Released,
    /// A scan tripped.
    Tripped,
}

/// How a run ended, by whether a scan of it tripped.
pub fn ending_of(trips: bool) -> Ending
    ensures { result ≡ ending_by trips }
{
    if trips {
        Ending::Tripped
    } else {
        Ending::Released
    }
}

/// Hands on what was written: after it nothing is held back.
pub fn hand_on<O: Output>(out: &mut O) -> Result<(), Failed>
    ensures handed_on { OnOk result (O.held_back out.new ≡ []) }
    ensures kept { O.taken out.new ≡ O.taken out.old }
    ensures unwritten { OnErr result (Rose (O.faults out.old) (O.faults out.new)) }
    ensures all_written { OnOk result (O.faults out.new ≡ O.faults out.old) }
    ensures counts { O.faults out.old ≤ O.faults out.new }
    ensures telling { O.tells out.new ≡ O.tells out.old }
{
    out.finish()
}

/// Writes the line of a refusal.
pub fn tell_refusal<O: Output>(out: &mut O, refusal: Refusal) -> Result<(), Stopped>
    ensures whole { IsTrue (O.tells out.old) →
        OnOk result (O.taken out.new ≡ O.taken out.old ++ refusal_text refusal) }
    ensures part { IsTrue (O.tells out.old) →
        IfErr result (λ stop. O.taken out.new ≡ O.taken out.old ++ take stop.taken (refusal_text refusal)) }
    ensures unwritten { OnErr result (Rose (O.faults out.old) (O.faults out.new)) }
    ensures all_written { OnOk result (O.faults out.new ≡ O.faults out.old) }
    ensures counts { O.faults out.old ≤ O.faults out.new }
    ensures telling { O.tells out.new ≡ O.tells out.old }
{
    write_all(out, refusal_line(&refusal).as_slice())
}
