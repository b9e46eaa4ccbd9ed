//! The steps of a scan.

ghost use Rattle.std.specs.Prelude.{◌≡◌, ◌+◌, ◌<◌, ◌≤◌, ℕ, List, length, slice_get, Some};
ghost use Rattle.ps_model.specs.declared.report.Diag.{Diag};
ghost use Rattle.ps_model.specs.Action.{Action, assigns, calls};
ghost use Rattle.ps_model.specs.Blocks.{block};
ghost use Rattle.ps_model.specs.Exprs.{formula};
ghost use Rattle.ps_model.specs.Network.{signal_count, instance_count, kind_at};
ghost use Rattle.ps_model.specs.Running.{Interim, done, exec};
ghost use Rattle.ps_scan.specs.Cells.{IsFor};
ghost use Rattle.ps_scan.specs.Midway.{Midway};

use crate::scanner::Scanner;
use crate::{pin_bits, shown_values};
use ps_block::Pins;
use ps_machine::call_limit;
use ps_model::{App, Args, Diags, Expr, Step, evaluate, safe_count};

// Assigns the value of an expression: step k does so.
fn assign(app: &App, k: u16, target: usize, value: &Expr, w: &mut Scanner)
    requires sizes { IsFor app.now w.old }
    requires step { slice_get app.now.steps k ≡ Some (assigns target (formula value.now)) }
    ensures sizes { IsFor app.now w.new }
    ensures done { (t dt now : ℕ) (ds : List Diag) (m : Interim) → Midway app.now t dt now k w.old ds m →
        Midway app.now t dt now (k + 1) w.new ds (done app.now dt (assigns target (formula value.now)) m) }
{
    app.sound();
    let value = evaluate(value, w.signals());
    w.set_signal(target, value);
}

// Calls an instance: step k does so.
fn call(app: &App, k: u16, i: u16, args: &Args, now: u32, w: &mut Scanner, diags: &mut Diags)
    requires sizes { IsFor app.now w.old }
    requires step { slice_get app.now.steps k ≡ Some (calls i args.now) }
    requires diagnoses { length diags.old ≡ instance_count app.now }
    ensures sizes { IsFor app.now w.new }
    ensures diagnoses { length diags.new ≡ instance_count app.now }
    ensures done { (t dt : ℕ) (m : Interim) → t ≤ now → Midway app.now t dt now k w.old diags.old m →
        Midway app.now t dt now (k + 1) w.new diags.new (done app.now dt (calls i args.now) m) }
{
    app.sound();
    let kind = app.instance_kind(i);
    let pins = Pins {
        bits: pin_bits(kind, args, w.signals()),
        limit: call_limit(kind, args),
        now,
    };
    let outs = w.step(i as usize, pins);
    let count = safe_count(kind) as usize;
    let values = shown_values(outs, count);
    w.write(app.first_pin(i) as usize, &values[..count + 2]);
    diags.set(i as usize, outs.diag);
}

// Does step k.
fn do_step(app: &App, k: u16, now: u32, w: &mut Scanner, diags: &mut Diags)
    requires place { k < length app.now.steps }
    requires sizes { IsFor app.now w.old }
    requires diagnoses { length diags.old ≡ instance_count app.now }
    ensures sizes { IsFor app.now w.new }
    ensures diagnoses { length diags.new ≡ instance_count app.now }
    ensures done { (t dt : ℕ) (m : Interim) (a : Action) → slice_get app.now.steps k ≡ Some a → t ≤ now → Midway app.now t dt now k w.old diags.old m →
        Midway app.now t dt now (k + 1) w.new diags.new (done app.now dt a m) }
{
    match app.step(k) {
        Step::Assign { target, value } => assign(app, k, *target as usize, value, w),
        Step::Call { instance, args } => call(app, k, *instance, args, now, w, diags),
    }
}

/// Does all steps of a scan at a time in ms.
pub(crate) fn do_steps(app: &App, now: u32, w: &mut Scanner, diags: &mut Diags)
    requires sizes { IsFor app.now w.old }
    requires diagnoses { length diags.old ≡ instance_count app.now }
    ensures sizes { IsFor app.now w.new }
    ensures diagnoses { length diags.new ≡ instance_count app.now }
    ensures done { (t dt : ℕ) (m : Interim) → t ≤ now → Midway app.now t dt now 0 w.old diags.old m →
        Midway app.now t dt now (length app.now.steps) w.new diags.new (exec app.now dt app.now.steps m) }
{
    for k in 0..app.step_count() {
        do_step(app, k, now, w, diags);
    }
}
