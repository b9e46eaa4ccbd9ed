// The rig of a case: a world of its own with the plain evaluator beside it, and what is seen of the last scan.

ghost use Rattle.std.specs.Prelude.{◌≡◌, ◌≤◌, ◌<◌, All, IfOk, false, length, replicate};
ghost use Rattle.ps_model.specs.Meaning.Item.{scan as scan_item};
ghost use Rattle.ps_model.specs.Network.{input_count, instance_count, signal_count};
ghost use Rattle.ps_model.specs.Typing.{Accepted};
ghost use Rattle.ps_trace.specs.FaultOrder.{AreInOrder, AreOfOneChannel};
ghost use Rattle.ps_runs.specs.Outcomes.{performed};
ghost use Rattle.ps_runs.specs.Performing.{IsStruckWorldFor, Performs};
ghost use Rattle.ps_runs.specs.Watching.{Evaluates, IsWatchedFor};
ghost use Rattle.ps_bench_cases.specs.Meant.{set_by};
ghost use Rattle.ps_bench_judge.specs.Moments.{moment_of};
ghost use Rattle.ps_bench_judge.specs.Rigs.{IsFirst, IsRigFor, RigScans, RigRestarts, seen_in};

use crate::Seen;
use ps_base::Memory;
use ps_bench_names::Setting;
use ps_model::{App, Bits, Report, Scan, Verdict};
use ps_runs::{Performer, StruckWorld, Watched};
use ps_trace::Faults;
use ps_world::World;
use std::alloc::Global;

// A world of an application with the plain evaluator beside it, the inputs as they are set, and what is seen of the
// last scan, which stays through a restart.
pub(crate) struct Rig {
    // the world, which the faults of the case strike, and the evaluator
    pub(crate) performer: Watched<StruckWorld>,
    // the inputs as they are set, and the time of the last scan in ms
    pub(crate) scan: Scan,
    // what the comparator said of the last scan
    pub(crate) verdict: Verdict,
    // the report that it released
    pub(crate) report: Report,
    // the value of each signal after the scan before the last one, as the networks mean it
    pub(crate) before: Vec<bool>,
    // the value of each signal after the last one, as the networks mean it
    pub(crate) signals: Vec<bool>,
}

impl Drop for Rig {
    // One call for whoever owns one, in place of a walk through all that it holds.
    fn drop(self) {
        let Rig {
            performer: _,
            scan: _,
            verdict: _,
            report: _,
            before: _,
            signals: _,
        } = self;
    }
}

// So many signals, each FALSE.
fn false_signals(alloc: Global, app: &App) -> Result<Vec<bool>, Memory>
    ensures { IfOk result (λ signals. signals.items ≡ replicate (signal_count app.now) false) }
{
    Ok(vec![in alloc; false; app.signal_count() as usize]?)
}

// Gives inputs values.
fn put_settings(ins: &mut Bits, settings: &[Setting])
    requires { All (λ s. s.input < length ins.old) settings.now }
    ensures { ins.new ≡ set_by ins.old settings.now }
{
    for setting in settings {
        ins.set(setting.input as usize, setting.value);
    }
}

// Makes a scan by a world of two channels, which refuses none, and by the evaluator beside it.
fn perform(
    performer: &mut Watched<StruckWorld>,
    app: &App,
    scan: &Scan,
    report: &mut Report,
) -> Verdict
    requires fits { IsWatchedFor IsStruckWorldFor app.now performer.old }
    requires due { performer.old.performer.world.state.last ≤ scan.now.now }
    requires inputs { length scan.now.ins ≡ input_count app.now }
    requires outputs { length report.old.outs ≡ length app.now.outputs }
    requires diagnoses { length report.old.diags ≡ instance_count app.now }
    ensures performs { Performs app.now performer.old.performer (scan_item scan.entry.now.now scan.entry.now.ins)
        (performed scan.entry.now.now result report.new) performer.new.performer }
    ensures evaluates { Evaluates app.now performer.old.evaluator scan.entry.now.now scan.entry.now.ins
        performer.new.meant performer.new.evaluator }
    ensures fits { IsWatchedFor IsStruckWorldFor app.now performer.new }
    ensures due { performer.new.performer.world.state.last ≤ scan.entry.now.now }
    ensures outputs { length report.new.outs ≡ length app.now.outputs }
    ensures diagnoses { length report.new.diags ≡ instance_count app.now }
{
    match performer.perform_scan(app, scan, report) {
        Ok(verdict) => verdict,
        Err(_) => Verdict::Down,
    }
}

impl Rig {
    // A rig before its first scan, in a world made anew, which these faults will strike. It takes all memory that its
    // scans will use.
    pub(crate) fn build(alloc: Global, app: &App, faults: Faults) -> Result<Rig, Memory>
        requires accepted { Accepted app.now }
        requires ordered { AreInOrder faults }
        requires one_channel { AreOfOneChannel faults }
        ensures fits { IfOk result (IsRigFor app.now) }
        ensures first { IfOk result (IsFirst app.now faults) }
    {
        let world = StruckWorld::new(World::build(alloc, app)?, faults);
        Ok(Rig {
            performer: Watched::new(alloc, app, world)?,
            scan: Scan::for_app(alloc, app)?,
            verdict: Verdict::Released,
            report: Report::for_app(alloc, app)?,
            before: false_signals(alloc, app)?,
            signals: false_signals(alloc, app)?,
        })
    }

    // What is seen of the last scan.
    pub(crate) fn seen(&self) -> Seen<'_>
        ensures { moment_of result ≡ seen_in self.now }
    {
        Seen {
            now: self.scan.now,
            verdict: self.verdict,
            report: &self.report,
            before: self.before.as_slice(),
            signals: self.signals.as_slice(),
        }
    }

    // Gives inputs values.
    pub(crate) fn set(&mut self, settings: &[Setting])
        requires { All (λ s. s.input < length self.old.scan.ins) settings.now }
        ensures { self.new ≡ record self.old {
          scan = record { now = self.old.scan.now; ins = set_by self.old.scan.ins settings.now };
        } }
    {
        put_settings(&mut self.scan.ins, settings);
    }

    // Makes a scan at a time in ms, with the inputs as they are set. It takes no memory.
    pub(crate) fn make_scan(&mut self, app: &App, now: u32)
        requires fits { IsRigFor app.now self.old }
        requires due { self.old.scan.now ≤ now }
        ensures fits { IsRigFor app.now self.new }
        ensures makes { RigScans app.now now self.old self.new }
    {
        self.scan.now = now;
        self.verdict = perform(&mut self.performer, app, &self.scan, &mut self.report);
        let evaluator = &self.performer.evaluator;
        self.before
            .as_mut_slice()
            .copy_from_slice(evaluator.signals_before());
        self.signals
            .as_mut_slice()
            .copy_from_slice(evaluator.signals());
    }

    // Begins anew, as before the first scan. What is seen of the last scan stays, and so does the time.
    pub(crate) fn restart(&mut self, app: &App)
        requires { IsRigFor app.now self.old }
        ensures fits { IsRigFor app.now self.new }
        ensures restarts { RigRestarts app.now self.old self.new }
    {
        self.performer.perform_restart(app);
    }
}
