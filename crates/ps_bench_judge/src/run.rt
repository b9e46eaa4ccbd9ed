// The run of a case in a world of its own.

ghost use Rattle.std.specs.Prelude.{◌≡◌, ◌≤◌, ◌<◌, ◌+◌, ◌++◌, ◌∷◌, All, List, IfOk, OnOk, length, map, min};
ghost use Rattle.ps_model.specs.Typing.{Accepted};
ghost use Rattle.ps_bench_cases.specs.Meant.{set_by, time_at, times_in, times_made, times_of, whole_case};
ghost use Rattle.ps_bench_cases.specs.Runnable.{IsRunnable};
ghost use Rattle.ps_bench_judge.specs.CaseRuns.{IsJudged, PassesExactly, Task, makes, tasks_by, tasks_from};
ghost use Rattle.ps_bench_judge.specs.Rigs.{Goes, IsRigFor, RiseFrom, SetsInputs, last_of, set_through};

use crate::rig::Rig;
use crate::{Failure, Judge};
use ps_base::Memory;
use ps_bench_cases::{Act, Case, CaseFile, Pace, Statement, faults_of};
use ps_model::App;
use std::alloc::Global;

/// What came of a case.
#[derive(Drop)]
pub struct CaseOutcome {
    /// How many scans it made, 4,294,967,295 at most.
    pub scans: u32,
    /// Its failures, in the order in which they were found. It passes where there are none.
    pub failures: Vec<Failure>,
}

// The time of a scan of a pace in ms, by its number, counted from 1.
fn time_at(pace: &Pace, k: u32) -> u32
    ensures { result ≡ time_at pace.now k }
{
    let time = u64::from(pace.from) + u64::from(k) * u64::from(pace.step);
    time.min(u64::from(pace.upto)) as u32
}

// Makes a scan at a time in ms, and shows it to the judge with its line.
fn make_scan(
    app: &App,
    line: u32,
    now: u32,
    rig: &mut Rig,
    judge: &mut Judge<'_>,
) -> Result<(), Memory>
    requires fits { IsRigFor app.now rig.old }
    requires due { rig.old.scan.now ≤ now }
    ensures fits { OnOk result (IsRigFor app.now rig.new) }
    ensures scan { OnOk result (rig.new.scan ≡ record { now = now; ins = rig.old.scan.ins }) }
    ensures goes { OnOk result ((later : List Task) →
        Goes app.now (makes line now rig.old.scan.ins ∷ later) rig.old judge.old later rig.new judge.new) }
{
    app.sound();
    rig.make_scan(app, now);
    judge.scan(app, line, &rig.seen())
}

// Makes the scans of a pace.
fn make_scans(
    app: &App,
    line: u32,
    pace: &Pace,
    rig: &mut Rig,
    judge: &mut Judge<'_>,
) -> Result<(), Memory>
    requires fits { IsRigFor app.now rig.old }
    requires rising { RiseFrom rig.old.scan.now (times_of pace.now) }
    ensures fits { OnOk result (IsRigFor app.now rig.new) }
    ensures scan { OnOk result (rig.new.scan ≡ record {
      now = last_of rig.old.scan.now (times_of pace.now);
      ins = rig.old.scan.ins;
    }) }
    ensures goes { OnOk result ((later : List Task) →
        Goes app.now (map (λ now. makes line now rig.old.scan.ins) (times_of pace.now) ++ later) rig.old judge.old
        later rig.new judge.new) }
{
    for k in 0..pace.count {
        make_scan(app, line, time_at(pace, k + 1), rig, judge)?;
    }
    Ok(())
}

// Does what a line asks for once its inputs are set. Faults strike by themselves.
fn do_act<'a>(
    app: &App,
    line: u32,
    act: &'a Act,
    rig: &mut Rig,
    judge: &mut Judge<'a>,
) -> Result<(), Memory>
    requires fits { IsRigFor app.now rig.old }
    requires rising { RiseFrom rig.old.scan.now (times_made act.now) }
    ensures fits { OnOk result (IsRigFor app.now rig.new) }
    ensures scan { OnOk result (rig.new.scan ≡ record {
      now = last_of rig.old.scan.now (times_made act.now);
      ins = rig.old.scan.ins;
    }) }
    ensures goes { OnOk result ((later : List Task) →
        Goes app.now (tasks_by line rig.old.scan.ins act.now ++ later) rig.old judge.old later rig.new judge.new) }
{
    match act {
        Act::Scans(pace) => make_scans(app, line, pace, rig, judge),
        Act::Restart => {
            rig.restart(app);
            Ok(())
        }
        Act::Expect(expectation) => judge.expect(app, line, expectation, &rig.seen()),
        Act::Set | Act::Fault(_) => Ok(()),
    }
}

// Does what a line says.
fn do_statement<'a>(
    app: &App,
    statement: &'a Statement,
    rig: &mut Rig,
    judge: &mut Judge<'a>,
) -> Result<(), Memory>
    requires fits { IsRigFor app.now rig.old }
    requires inputs { SetsInputs app.now statement.now }
    requires rising { RiseFrom rig.old.scan.now (times_made statement.now.act) }
    ensures fits { OnOk result (IsRigFor app.now rig.new) }
    ensures scan { OnOk result (rig.new.scan ≡ record {
      now = last_of rig.old.scan.now (times_made statement.now.act);
      ins = set_by rig.old.scan.ins statement.now.settings;
    }) }
    ensures goes { OnOk result ((later : List Task) →
        Goes app.now
        (tasks_by statement.now.line (set_by rig.old.scan.ins statement.now.settings) statement.now.act ++ later)
        rig.old judge.old later rig.new judge.new) }
{
    rig.set(statement.settings.as_slice());
    do_act(app, statement.line, &statement.act, rig, judge)
}

// Does what statements say.
fn do_statements<'a>(
    app: &App,
    statements: &'a [Statement],
    rig: &mut Rig,
    judge: &mut Judge<'a>,
) -> Result<(), Memory>
    requires fits { IsRigFor app.now rig.old }
    requires inputs { All (SetsInputs app.now) statements.now }
    requires rising { RiseFrom rig.old.scan.now (times_in statements.now) }
    ensures fits { OnOk result (IsRigFor app.now rig.new) }
    ensures scan { OnOk result (rig.new.scan ≡ record {
      now = last_of rig.old.scan.now (times_in statements.now);
      ins = set_through rig.old.scan.ins statements.now;
    }) }
    ensures goes { OnOk result ((later : List Task) →
        Goes app.now (tasks_from rig.old.scan.ins statements.now ++ later) rig.old judge.old later rig.new judge.new) }
{
    for statement in statements {
        do_statement(app, statement, rig, judge)?;
    }
    Ok(())
}

// How many scans a line makes.
fn scans_by(act: &Act) -> u32
    ensures { result ≡ length (times_made act.now) }
{
    match act {
        Act::Scans(pace) => pace.count,
        Act::Set | Act::Restart | Act::Fault(_) | Act::Expect(_) => 0,
    }
}

// How many scans statements make, with so many before, 4,294,967,295 at most.
fn count_scans(statements: &[Statement], before: u32) -> u32
    ensures { result ≡ min (before + length (times_in statements.now)) 4294967295 }
{
    let mut count = before;
    for statement in statements {
        count = count.saturating_add(scans_by(&statement.act));
    }
    count
}

/// Runs a case of a case file in a world made anew, and judges it: what the file begins with, and then its own lines.
///
/// The case can be run: its times do not fall, its faults come in order and strike one channel, and it sets inputs
/// alone. All memory is taken at the beginning, but for open expectations and failures: it does not grow with the
/// number of scans. `Memory`: memory runs out.
pub fn run_case(
    alloc: Global,
    app: &App,
    file: &CaseFile,
    case: &Case,
) -> Result<CaseOutcome, Memory>
    requires accepted { Accepted app.now }
    requires runnable { IsRunnable app.now (whole_case file.now case.now) }
    ensures judged { IfOk result (λ r. IsJudged app.now (whole_case file.now case.now) r.failures.items) }
    ensures passes { IfOk result (λ r. PassesExactly app.now (whole_case file.now case.now) r.failures.items) }
    ensures scans { IfOk result (λ r. r.scans ≡ min (length (times_in (whole_case file.now case.now))) 4294967295) }
{
    let begin = file.begin.as_slice();
    let own = case.statements.as_slice();
    let mut rig = Rig::build(alloc, app, faults_of(alloc, begin, own)?)?;
    let mut judge = Judge::new(alloc);
    do_statements(app, begin, &mut rig, &mut judge)?;
    do_statements(app, own, &mut rig, &mut judge)?;
    Ok(CaseOutcome {
        scans: count_scans(own, count_scans(begin, 0)),
        failures: judge.finish(alloc, rig.scan.now)?,
    })
}
