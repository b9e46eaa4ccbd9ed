//! What is kept between the scans of an application, and a scan.

ghost use Rattle.std.specs.Prelude.{◌≡◌, ◌+◌, ◌<◌, ◌≤◌, ℕ, length, map, false, replicate, slice_index_or, IfOk};
ghost use Rattle.std.specs.List.{range_with_len};
ghost use Rattle.ps_model.specs.Network.{instance_count, signal_count};
ghost use Rattle.ps_scan.specs.Instances.{instance_of};
ghost use Rattle.ps_scan.specs.Cells.{first_instances};

use crate::steps::do_steps;
use crate::{Instance, write_at};
use ps_base::Memory;
use ps_block::{Outs, Pins};
use ps_model::{App, Bits, Report};
use std::alloc::Global;
use std::marker::Model;

// Each instance of an application before its first step.
fn fresh_instances(alloc: Global, app: &App) -> Result<Vec<Instance>, Memory>
    ensures { IfOk result (λ instances. map instance_of instances.items ≡ first_instances app.now.instances) }
{
    let mut instances = Vec::with_capacity(alloc, app.instance_count() as usize)?;
    for i in 0..app.instance_count() {
        instances.push(Instance::fresh(app.instance_kind(i)))?;
    }
    Ok(instances)
}

// So many signals, each FALSE.
fn false_signals(alloc: Global, app: &App) -> Result<Vec<bool>, Memory>
    ensures { IfOk result (λ signals. signals.items ≡ replicate (signal_count app.now) false) }
{
    Ok(vec![in alloc; false; app.signal_count() as usize]?)
}

// Makes every signal FALSE.
fn clear(signals: &mut [bool])
    ensures each { (s : ℕ) → s < length signals.new → slice_index_or signals.new s false ≡ false }
    ensures len { length signals.new ≡ length signals.old }
{
    for s in 0..signals.len() {
        signals[s] = false;
    }
}

// Makes each instance of an application as it is before its first step.
fn renew(app: &App, instances: &mut [Instance])
    requires { length instances.old ≡ instance_count app.now }
    ensures instances { map instance_of instances.new ≡ first_instances app.now.instances }
    ensures len { length instances.new ≡ length instances.old }
{
    for i in 0..app.instance_count() {
        instances[i as usize] = Instance::fresh(app.instance_kind(i));
    }
}

// Writes what the outputs of an application are.
fn put_outputs(outs: &mut Bits, signals: &[bool], first: usize)
    requires room { first + length outs.old ≤ length signals.now }
    ensures { outs.new ≡ map (λ s. slice_index_or signals.now s false) (range_with_len first (length outs.old)) }
{
    for j in 0..outs.len() {
        outs.set(j, signals[first + j]);
    }
}

/// What an application keeps between its scans: a value of each signal and a state of each instance. All memory that
/// its scans use is taken by `new`.
pub struct Scanner {
    signals: Vec<bool>,
    instances: Vec<Instance>,
}

impl Drop for Scanner {
    // One call for whoever owns one, in place of a walk through all that it holds.
    fn drop(self) {
        let Scanner {
            signals: _,
            instances: _,
        } = self;
    }
}

impl Model for Scanner {
    ghost use Rattle.std.specs.Prelude.{map};
    ghost use Rattle.ps_scan.specs.Instances.{instance_of};
    ghost use Rattle.ps_scan.specs.Cells.{Cells};

    ghost Value = { Cells };

    ghost view = { λ s. record { signals = s.signals.items; instances = map instance_of s.instances.items } };
}

impl Scanner {
    ghost use Rattle.std.specs.Prelude.{◌≡◌, ◌≢◌, ◌+◌, ◌-◌, ◌<◌, ◌≤◌, ◌&&◌, ℕ, cond, nat_le, nat_lt, IfOk, length, slice_set, slice_index_or, false};
    ghost use Rattle.ps_model.specs.Network.{input_count, instance_count};
    ghost use Rattle.ps_model.specs.Meaning.{Past, nothing, last_time};
    ghost use Rattle.ps_model.specs.Kept.{stepped_at};
    ghost use Rattle.ps_model.specs.PinBits.{pin_of};
    ghost use Rattle.ps_block.specs.Shown.{Shows};
    ghost use Rattle.ps_scan.specs.Instances.{kept_instance};
    ghost use Rattle.ps_scan.specs.Cells.{IsFor, signal_at, instance_at, kept_at};
    ghost use Rattle.ps_scan.specs.Scan.{CellsStand, IsScan};

    /// A scanner of an application before its first scan. It takes all memory that its scans will use.
    pub fn new(alloc: Global, app: &App) -> Result<Scanner, Memory>
        ensures sizes { IfOk result (IsFor app.now) }
        ensures first { IfOk result (CellsStand app.now nothing) }
    {
        Ok(Scanner {
            signals: false_signals(alloc, app)?,
            instances: fresh_instances(alloc, app)?,
        })
    }

    /// Begins anew: every signal FALSE and every instance Idle, as before the first scan. It takes no memory.
    pub fn restart(&mut self, app: &App)
        requires sizes { IsFor app.now self.old }
        ensures sizes { IsFor app.now self.new }
        ensures first { CellsStand app.now nothing self.new }
    {
        clear(self.signals.as_mut_slice());
        renew(app, self.instances.as_mut_slice());
    }

    /// Becomes as another scanner of the same application is. It takes no memory.
    pub fn copy_from(&mut self, other: &Scanner)
        requires signals { length self.old.signals ≡ length other.now.signals }
        requires instances { length self.old.instances ≡ length other.now.instances }
        ensures { self.new ≡ other.now }
    {
        self.signals
            .as_mut_slice()
            .copy_from_slice(other.signals.as_slice());
        self.instances
            .as_mut_slice()
            .copy_from_slice(other.instances.as_slice());
    }

    /// The value of every signal after the last scan, in the order of their numbers.
    pub fn signals(&self) -> &[bool]
        ensures { result.now ≡ self.now.signals }
    {
        self.signals.as_slice()
    }

    /// Sets a signal.
    pub(crate) fn set_signal(&mut self, s: usize, value: bool)
        requires { s < length self.old.signals }
        ensures { self.new ≡ record self.old { signals = slice_set self.old.signals s value } }
    {
        self.signals[s] = value;
    }

    /// Writes values to neighbouring signals.
    pub(crate) fn write(&mut self, at: usize, values: &[bool])
        requires room { at + length values.now ≤ length self.old.signals }
        ensures each { (s : ℕ) → signal_at self.new s ≡ cond (nat_le at s && nat_lt s (at + length values.now)) (slice_index_or values.now (s - at) false) (signal_at self.old s) }
        ensures len { length self.new.signals ≡ length self.old.signals }
        ensures instances { self.new.instances ≡ self.old.instances }
    {
        write_at(self.signals.as_mut_slice(), at, values);
    }

    /// One step of an instance.
    pub(crate) fn step(&mut self, i: usize, pins: Pins) -> Outs
        requires { i < length self.old.instances }
        ensures signals { self.new.signals ≡ self.old.signals }
        ensures len { length self.new.instances ≡ length self.old.instances }
        ensures other { (j : ℕ) → j ≢ i → instance_at self.new j ≡ instance_at self.old j }
        ensures moves { instance_at self.new i ≡ kept_instance (instance_at self.old i).kind (stepped_at (instance_at self.old i).kind pins.limit (pin_of pins.bits) pins.now (kept_at self.old i)) }
        ensures shows { Shows (instance_at self.old i).kind result (kept_at self.new i) }
    {
        self.instances[i].step(pins)
    }

    /// A scan at a time in ms, with one value for each input. The report is that of the state that solves the equations
    /// of the scan. It takes no memory.
    pub fn scan(&mut self, app: &App, now: u32, ins: &[bool], report: &mut Report)
        requires sizes { IsFor app.now self.old }
        requires inputs { length ins.now ≡ input_count app.now }
        requires outputs { length report.old.outs ≡ length app.now.outputs }
        requires diagnoses { length report.old.diags ≡ instance_count app.now }
        ensures sizes { IsFor app.now self.new }
        ensures outputs { length report.new.outs ≡ length app.now.outputs }
        ensures diagnoses { length report.new.diags ≡ instance_count app.now }
        ensures solves { (past : Past) → CellsStand app.now past self.old → last_time past ≤ now → IsScan app.now past now ins.now report.new self.new }
    {
        app.sound();
        self.write(0, ins);
        do_steps(app, now, self, &mut report.diags);
        put_outputs(&mut report.outs, self.signals(), app.input_count() as usize);
    }
}
