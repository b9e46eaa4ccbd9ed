// Who writes the value changes of a run.

ghost use Rattle.std.specs.Prelude.{◌≡◌, IfOk, map, length, false};
ghost use Rattle.ps_bench_judge.specs.Moments.{moment_of};
ghost use Rattle.ps_bench_waves.specs.Counts.{first_count};
ghost use Rattle.ps_bench_waves.specs.DumpWriter.{has_begun};
ghost use Rattle.ps_bench_waves.specs.Values.{held};
ghost use Rattle.ps_bench_waves.specs.Reads.{read_held};

use crate::parts::Part;
use crate::reads::{Read, reads_of, value_of_read};
use crate::{Count, Dump, Value};
use ps_base::Memory;
use ps_bench_judge::Seen;
use ps_model::{App, Report, Verdict};
use ps_outside::{Sink, Stopped};
use ps_runs::{StruckWorld, Taker, Watched};
use std::alloc::Global;

/// Who writes the value changes of a run, of which parts are watched. It keeps the values of the last scan, and no
/// other.
pub struct Dumper {
    // what each wire is about
    pub(crate) parts: Vec<Part>,
    // how it is come by
    pub(crate) reads: Vec<Read>,
    // room for the values of a scan
    pub(crate) values: Vec<Value>,
    pub(crate) dump: Dump,
    // the next scan
    pub(crate) next: Count,
}

impl Drop for Dumper {
    // One call for whoever owns one, in place of a walk through all that it holds.
    fn drop(self) {
        let Dumper {
            parts: _,
            reads: _,
            values: _,
            dump: _,
            next: _,
        } = self;
    }
}

// Puts what the wires have in a scan.
fn put_values(app: &App, count: Count, seen: &Seen<'_>, reads: &[Read], values: &mut [Value])
    requires { length values.old ≡ length reads.now }
    ensures values { map held values.new ≡ map (read_held app.now count (moment_of seen.entry.now)) reads.now }
    ensures len { length values.new ≡ length reads.now }
{
    for wire in 0..reads.len() {
        values[wire] = value_of_read(app, count, seen, reads[wire]);
    }
}

impl Dumper {
    ghost use Rattle.ps_bench_waves.specs.Dumping.{IsDumperFor, TakesValues};

    /// Who writes the value changes of these parts, before the first scan of an application. It takes all memory that it will use.
    pub fn new(alloc: Global, app: &App, parts: Vec<Part>) -> Result<Dumper, Memory>
        ensures fits { IfOk result (IsDumperFor app.now) }
        ensures parts { IfOk result (λ d. d.parts ≡ parts) }
        ensures fresh { IfOk result (λ d. has_begun d.dump ≡ false) }
        ensures next { IfOk result (λ d. d.next ≡ first_count) }
    {
        let wires = parts.len();
        let reads = reads_of(alloc, app, parts.as_slice())?;
        Ok(Dumper {
            parts,
            reads,
            values: vec![in alloc; Value::Bit(false); wires]?,
            dump: Dump::new(alloc, wires)?,
            next: Count::first(),
        })
    }

    // Takes what the wires have in a scan.
    fn take_values(&mut self, app: &App, seen: &Seen<'_>)
        requires { IsDumperFor app.now self.old }
        ensures takes { TakesValues app.now self.old (moment_of seen.entry.now) self.new }
        ensures fits { IsDumperFor app.now self.new }
    {
        put_values(
            app,
            self.next,
            seen,
            self.reads.as_slice(),
            self.values.as_mut_slice(),
        );
        self.next = self.next.next();
    }
}

impl Taker<Watched<StruckWorld>> for Dumper {
    ghost use Rattle.ps_bench_waves.specs.Dumping.{IsDumperFor, dumper_said, dumper_takes};

    ghost fits = { IsDumperFor };

    ghost said = { dumper_said };

    ghost takes = { dumper_takes };

    fn take_scan<S: Sink>(
        &mut self,
        app: &App,
        now: u32,
        verdict: Verdict,
        report: &Report,
        performer: &Watched<StruckWorld>,
        out: &mut S,
    ) -> Result<(), Stopped> {
        let seen = Seen {
            now,
            verdict,
            report,
            before: performer.evaluator.signals_before(),
            signals: performer.evaluator.signals(),
        };
        self.take_values(app, &seen);
        self.dump.put_scan(out, now, self.values.as_slice())
    }

    fn take_restart<S: Sink>(
        &mut self,
        _app: &App,
        _performer: &Watched<StruckWorld>,
        _out: &mut S,
    ) -> Result<(), Stopped> {
        self.next = self.next.anew();
        Ok(())
    }
}
