// What is kept of a run from scan to scan.

ghost use Rattle.std.specs.Prelude.{◌≡◌, ◌<◌, ◌≤◌, ℕ, IfOk, None, Some, is_none, length, map, option_map, replicate};
ghost use Rattle.std.specs.Prelude.{slice_get};
ghost use Rattle.ps_cover.specs.Clock.{since};
ghost use Rattle.ps_model.specs.Meaning.{Past, last, last_time, nothing, old_state, passed};
ghost use Rattle.ps_model.specs.Network.{input_count, instance_count};
ghost use Rattle.ps_model.specs.Scanning.{Solves, State};
ghost use Rattle.ps_why.specs.Keeping.{AreKept, StandFor};
ghost use Rattle.ps_why.specs.declared.keeping.Stepped.{Stepped as SteppedOf};
ghost use Rattle.ps_runs.specs.Watching.{IsEvaluatorFor, StandsAt};
ghost use Rattle.ps_bench_why.specs.Looking.{IsLook};
ghost use Rattle.ps_bench_why.specs.Scanned.{begun};
ghost use Rattle.ps_bench_why.specs.Walking.{AreNoted, IsWalkerFor, StandsBehind, latest, noted, renewed};
ghost use Rattle.ps_bench_why.specs.declared.walker.Since.{Since as SinceOf};

use ps_base::Memory;
use ps_machine::Signals;
use ps_model::{App, Report, Scan};
use ps_rows::CountedBlock;
use ps_runs::{Evaluated, Performer};
use ps_why::{CallScene, Stepped, step_instance, step_instances};
use std::alloc::Global;

/// Since when an instance is in its state, in ms.
#[derive(Clone, Copy)]
pub struct Since {
    /// In that before the last scan; of a first scan it says nothing.
    pub before: u32,
    /// In that after the last scan.
    pub behind: u32,
}

/// The times of a scan and of the one before it, in ms.
#[derive(Clone, Copy)]
pub struct LastScan {
    /// Of the scan.
    pub now: u32,
    /// Of the one before. None: the scan is the first one, or the first after a restart.
    pub before: Option<u32>,
}

/// What is kept of a run from scan to scan, and what is seen of the last scan. No scan takes memory.
pub struct Walker {
    pub(crate) evaluator: Evaluated,
    pub(crate) kept: Vec<Stepped>,
    pub(crate) since: Vec<Since>,
    // room for a scan that is read
    pub(crate) scan: Scan,
    // room for its report
    pub(crate) report: Report,
    // the time of the scan before the next one; None: the next one is a first one
    pub(crate) before: Option<u32>,
    // the last scan, if there was one
    pub(crate) last: Option<LastScan>,
}

impl Drop for Walker {
    // One call for whoever owns one, in place of a walk through all that it holds.
    fn drop(self) {
        let Walker {
            evaluator: _,
            kept: _,
            since: _,
            scan: _,
            report: _,
            before: _,
            last: _,
        } = self;
    }
}

// The ms that passed since the scan before, if there is one.
fn passed(before: Option<u32>, now: u32) -> u32
    ensures { result ≡ since before now }
{
    match before {
        Some(before) => now.saturating_sub(before),
        None => 0,
    }
}

// Whether no scan was before.
fn is_first(before: Option<u32>) -> bool
    ensures { result ≡ is_none before }
{
    before.is_none()
}

// Since when an instance is in its state after a scan at this time.
fn noted(call: &CallScene, now: u32, first: bool, since: Since) -> Since
    ensures { result ≡ noted call.now now first since }
{
    let behind = if first || call.from != call.code {
        now
    } else {
        since.behind
    };
    Since {
        before: since.behind,
        behind,
    }
}

// Notes of each instance since when it is in its state after a scan at this time.
fn note_all(kept: &[Stepped], now: u32, first: bool, since: &mut [Since])
    requires { length since.old ≡ length kept.now }
    ensures each { (i : ℕ) (seen : SteppedOf) (was : SinceOf) → slice_get kept.now i ≡ Some seen →
        slice_get since.old i ≡ Some was → slice_get since.new i ≡ Some (noted seen.call now first was) }
    ensures len { length since.new ≡ length since.old }
{
    for i in 0..since.len() {
        since[i] = noted(&kept[i].call, now, first, since[i]);
    }
}

// An instance before the first scan: its block is Idle.
fn renewed(stepped: Stepped) -> Stepped
    ensures { result ≡ renewed stepped }
{
    Stepped {
        call: stepped.call,
        block: CountedBlock::idle(),
    }
}

// Each instance as before the first scan.
fn renew(kept: &mut [Stepped])
    ensures anew { (i : ℕ) → slice_get kept.new i ≡ option_map renewed (slice_get kept.old i) }
    ensures len { length kept.new ≡ length kept.old }
{
    for i in 0..kept.len() {
        kept[i] = renewed(kept[i]);
    }
}

// Each instance at its step. What is seen of a scan says nothing yet.
fn first_kept(alloc: Global, app: &App) -> Result<Vec<Stepped>, Memory>
    ensures { IfOk result (λ kept. AreKept app.now kept.items) }
{
    let mut kept = Vec::with_capacity(alloc, app.instance_count() as usize)?;
    let none = Signals {
        before: &[],
        behind: &[],
    };
    for i in 0..app.instance_count() {
        kept.push(step_instance(app, i, CountedBlock::idle(), 0, &none))?;
    }
    Ok(kept)
}

// For each instance that it is in its state since 0.
fn first_since(alloc: Global, app: &App) -> Result<Vec<Since>, Memory>
    ensures { IfOk result (λ since. since.items ≡ replicate (instance_count app.now) (record { before = 0; behind = 0 })) }
{
    let since = Since {
        before: 0,
        behind: 0,
    };
    Ok(vec![in alloc; since; app.instance_count() as usize]?)
}

impl Walker {
    /// Before the first scan. It takes all memory that the scans will use.
    pub fn new(alloc: Global, app: &App) -> Result<Walker, Memory>
        ensures fits { IfOk result (IsWalkerFor app.now) }
        ensures stands { IfOk result (StandsBehind app.now nothing) }
        ensures noted { IfOk result (λ w. AreNoted (λ i. 0) w.since.items) }
        ensures none { IfOk result (λ w. w.last ≡ None) }
        ensures due { IfOk result (λ w. latest w ≡ 0) }
    {
        Ok(Walker {
            evaluator: Evaluated::new(alloc, app)?,
            kept: first_kept(alloc, app)?,
            since: first_since(alloc, app)?,
            scan: Scan::for_app(alloc, app)?,
            report: Report::for_app(alloc, app)?,
            before: None,
            last: None,
        })
    }

    // Begins anew where the next scan is a first one.
    fn begin(&mut self, app: &App)
        requires { IsWalkerFor app.now self.old }
        ensures fits { IsWalkerFor app.now self.new }
        ensures stands { (past : Past) → StandsBehind app.now past self.old →
            StandsAt app.now past self.new.evaluator }
        ensures kept { (past : Past) → StandsBehind app.now past self.old →
            StandFor app.now (old_state app.now past) self.new.kept.items }
        ensures due { latest self.new ≤ latest self.old }
        ensures since { self.new.since.items ≡ self.old.since.items }
        ensures scan { self.new.scan ≡ self.old.scan }
        ensures before { self.new.before ≡ self.old.before }
    {
        match self.before {
            None => {
                self.evaluator.perform_restart(app);
                renew(self.kept.as_mut_slice());
            }
            Some(_) => {}
        }
    }

    /// Makes the scan that was read.
    pub(crate) fn take(&mut self, app: &App)
        requires fits { IsWalkerFor app.now self.old }
        requires due { latest self.old ≤ self.old.scan.now }
        ensures fits { IsWalkerFor app.now self.new }
        ensures due { latest self.new ≤ self.old.scan.now }
        ensures look { (past : Past) (before : ℕ → ℕ) (v : State) → StandsBehind app.now past self.old →
            AreNoted before self.old.since.items → last_time past ≤ self.old.scan.now →
            Solves app.now (old_state app.now past) self.old.scan.ins (passed past self.old.scan.now) v →
            IsLook app.now (record { past = past; now = self.old.scan.now; ins = self.old.scan.ins; new = v; before = before })
            self.new }
        ensures stands { (past : Past) (v : State) → StandsBehind app.now past self.old →
            last_time past ≤ self.old.scan.now →
            Solves app.now (old_state app.now past) self.old.scan.ins (passed past self.old.scan.now) v →
            StandsBehind app.now (last self.old.scan.now v) self.new }
    {
        app.sound();
        self.begin(app);
        let now = self.scan.now;
        let passed = passed(self.before, now);
        let first = is_first(self.before);
        let _ = self
            .evaluator
            .perform_scan(app, &self.scan, &mut self.report);
        let signals = Signals {
            before: self.evaluator.signals_before(),
            behind: self.evaluator.signals(),
        };
        step_instances(app, passed, &signals, self.kept.as_mut_slice());
        note_all(self.kept.as_slice(), now, first, self.since.as_mut_slice());
        self.last = Some(LastScan {
            now,
            before: self.before,
        });
        self.before = Some(now);
    }

    /// The times of the last scan; None: there was none.
    pub fn last(&self) -> Option<LastScan>
        ensures { result ≡ self.now.last }
    {
        self.last
    }

    /// The value of each signal before the last scan, in the order of their numbers.
    pub fn signals_before(&self) -> &[bool]
        ensures { result.now ≡ self.now.evaluator.before.signals }
    {
        self.evaluator.signals_before()
    }

    /// The value of each signal after the last scan, in the order of their numbers.
    pub fn signals_behind(&self) -> &[bool]
        ensures { result.now ≡ self.now.evaluator.behind.signals }
    {
        self.evaluator.signals()
    }

    /// What is seen of each instance in the last scan, in the order of their numbers. `Err` comes only where memory is
    /// wanting.
    pub fn calls(&self, alloc: Global) -> Result<Vec<CallScene>, Memory>
        ensures { IfOk result (λ calls. calls.items ≡ map (λ (s : SteppedOf). s.call) self.now.kept.items) }
    {
        let mut calls = Vec::with_capacity(alloc, self.kept.len())?;
        for stepped in &self.kept {
            calls.push(stepped.call)?;
        }
        Ok(calls)
    }

    /// Since when each instance is in its state, in the order of their numbers.
    pub fn since(&self) -> &[Since]
        ensures { result.now ≡ self.now.since.items }
    {
        self.since.as_slice()
    }
}
