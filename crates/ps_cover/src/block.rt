// The block of a call, step by step, and the marks of its steps.

ghost use Rattle.std.specs.Prelude.{◌≡◌, ℕ, option_map, slice_get};
ghost use Rattle.ps_ways.specs.Marks.{made};
ghost use Rattle.ps_cover.specs.Blocks.{called_in};
ghost use Rattle.ps_cover.specs.Covers.{idle_call, idle_step};
ghost use Rattle.ps_cover.specs.Covering.{AreCalls, AreScanned, IsCallKept};

use ps_machine::{Signals, call_limit, read_pins};
use ps_model::{App, Kind, Step};
use ps_rows::CountedBlock;
use ps_ways::{Moved, Taken, moved_by};

/// A step of an application, with the block that it calls, if it calls one.
#[derive(Clone, Copy)]
pub struct Called {
    /// The number of the step.
    pub step: u16,
    /// The block after the last scan; Idle where there was none, and where the step assigns.
    pub moved: Moved,
}

/// Whether a step of a block of this kind makes a mark.
pub(crate) fn makes(kind: Kind, moved: &Moved, mark: usize) -> bool
    ensures { result ≡ made kind moved.now.from moved.now.number moved.now.block.code mark }
{
    let taken = Taken {
        kind,
        from: moved.from,
        number: moved.number,
        to: moved.block.code,
    };
    taken.makes(mark)
}

impl Called {
    /// A step before the first scan.
    pub(crate) fn idle(step: u16) -> Called
        ensures { result ≡ idle_step step }
    {
        Called {
            step,
            moved: Moved {
                from: 0,
                number: 0,
                block: CountedBlock::idle(),
            },
        }
    }

    /// The call after a scan, before which so many ms passed.
    fn scanned(self, app: &App, signals: &Signals<'_>, passed: u32) -> Called
        requires { IsCallKept app.now (slice_get app.now.steps self.step) self }
        ensures scans { result ≡ called_in app.now signals.entry.now passed self }
        ensures kept { IsCallKept app.now (slice_get app.now.steps self.step) result }
    {
        app.sound();
        if self.step >= app.step_count() {
            return self;
        }
        match app.step(self.step) {
            Step::Assign { .. } => self,
            Step::Call { instance, args } => {
                let kind = app.instance_kind(*instance);
                let bits = read_pins(app, self.step, kind, args, signals);
                Called {
                    step: self.step,
                    moved: moved_by(kind, call_limit(kind, args), bits, passed, self.moved.block),
                }
            }
        }
    }
}

/// The calls after a scan with these signals, before which so many ms passed.
pub(crate) fn scan_calls(app: &App, signals: &Signals<'_>, passed: u32, calls: &mut [Called])
    requires { AreCalls app.now calls.old }
    ensures scans { AreScanned app.now signals.entry.now passed calls.old calls.new }
    ensures kept { AreCalls app.now calls.new }
{
    for k in 0..calls.len() {
        calls[k] = calls[k].scanned(app, signals, passed);
    }
}

/// The calls before the first scan.
pub(crate) fn begin_calls(_app: &App, calls: &mut [Called])
    requires { AreCalls _app.now calls.old }
    ensures anew { (k : ℕ) → slice_get calls.new k ≡ option_map idle_call (slice_get calls.old k) }
    ensures kept { AreCalls _app.now calls.new }
{
    for k in 0..calls.len() {
        calls[k] = Called::idle(calls[k].step);
    }
}
