//! The plain evaluator as a performer: alone, and beside another one.

ghost use Rattle.std.specs.Prelude.{◌≡◌, ◌≤◌, ℕ, Bool, List, IfOk, length};
ghost use Rattle.ps_model.specs.Meaning.{nothing};
ghost use Rattle.ps_model.specs.Network.{input_count, instance_count};
ghost use Rattle.ps_runs.specs.Watching.{IsEvaluatorFor, IsWatchedFor, Evaluates, StandsAt};

use crate::performing::Performer;
use ps_base::{Memory, Refusal};
use ps_model::{App, Report, Scan};
use ps_scan::Scanner;
use std::alloc::Global;

/// The plain evaluator, with the states before and after the last scan.
///
/// As a performer it makes each scan by the application's equations, refuses none, and answers nothing beside the
/// report.
#[derive(Drop)]
pub struct Evaluated {
    // the state that the last scan started from; anything where there was none
    pub(crate) before: Scanner,
    // the state after the last scan or restart; at first that before the first scan
    pub(crate) behind: Scanner,
    // the time of the last scan in ms; 0 where there is none since the start or a restart
    pub(crate) last: u32,
}

impl Evaluated {
    /// The evaluator of an application before its first scan. It takes all memory that its scans will use.
    pub fn new(alloc: Global, app: &App) -> Result<Evaluated, Memory>
        ensures fits { IfOk result (IsEvaluatorFor app.now) }
        ensures first { IfOk result (StandsAt app.now nothing) }
    {
        Ok(Evaluated {
            before: Scanner::new(alloc, app)?,
            behind: Scanner::new(alloc, app)?,
            last: 0,
        })
    }

    /// The value of every signal before the last scan, in the order of their numbers.
    pub fn signals_before(&self) -> &[bool]
        ensures { result.now ≡ self.now.before.signals }
    {
        self.before.signals()
    }

    /// The value of every signal after the last scan or restart, in the order of their numbers.
    pub fn signals(&self) -> &[bool]
        ensures { result.now ≡ self.now.behind.signals }
    {
        self.behind.signals()
    }

    // Makes a scan, with its report. It takes no memory.
    fn scan(&mut self, app: &App, scan: &Scan, report: &mut Report)
        requires fits { IsEvaluatorFor app.now self.old }
        requires inputs { length scan.now.ins ≡ input_count app.now }
        requires outputs { length report.old.outs ≡ length app.now.outputs }
        requires diagnoses { length report.old.diags ≡ instance_count app.now }
        ensures evaluates { Evaluates app.now self.old scan.entry.now.now scan.entry.now.ins report.new self.new }
        ensures time { self.new.last ≡ scan.entry.now.now }
        ensures fits { IsEvaluatorFor app.now self.new }
        ensures outputs { length report.new.outs ≡ length app.now.outputs }
        ensures diagnoses { length report.new.diags ≡ instance_count app.now }
    {
        self.before.copy_from(&self.behind);
        self.behind.scan(app, scan.now, scan.ins.as_slice(), report);
        self.last = scan.now;
    }

    // Begins anew. It takes no memory.
    fn restart(&mut self, app: &App)
        requires fits { IsEvaluatorFor app.now self.old }
        ensures first { StandsAt app.now nothing self.new }
        ensures fits { IsEvaluatorFor app.now self.new }
    {
        self.behind.restart(app);
        self.last = 0;
    }
}

impl Performer for Evaluated {
    type Verdict = ();

    ghost use Rattle.ps_runs.specs.Watching.{IsEvaluatorFor, EvaluatesAs};

    ghost fits = { IsEvaluatorFor };

    ghost earliest = { λ e. e.last };

    ghost performs = { EvaluatesAs };

    fn perform_scan(&mut self, app: &App, scan: &Scan, report: &mut Report) -> Result<(), Refusal> {
        self.scan(app, scan, report);
        Ok(())
    }

    fn perform_restart(&mut self, app: &App) {
        self.restart(app);
    }
}

/// A performer with the plain evaluator beside it: the verdicts and the reports are the performer's, and whoever
/// takes them is lent the evaluator's states too.
#[derive(Drop)]
pub struct Watched<P> {
    /// The performer that is watched.
    pub performer: P,
    /// The evaluator beside it.
    pub evaluator: Evaluated,
    /// The report of the last scan that the evaluator made, which is what the report is meant to be.
    pub meant: Report,
}

impl<P: Performer + Drop> Watched<P> {
    /// A performer before its first scan, with the evaluator beside it. It takes all memory that the evaluator's
    /// scans will use.
    pub fn new(alloc: Global, app: &App, performer: P) -> Result<Watched<P>, Memory>
        requires { P.fits app.now performer }
        ensures fits { IfOk result (IsWatchedFor P.fits app.now) }
        ensures performer { IfOk result (λ w. w.performer ≡ performer) }
        ensures first { IfOk result (λ w. StandsAt app.now nothing w.evaluator) }
    {
        Ok(Watched {
            performer,
            evaluator: Evaluated::new(alloc, app)?,
            meant: Report::for_app(alloc, app)?,
        })
    }
}

impl<P: Performer> Performer for Watched<P> {
    type Verdict = P::Verdict;

    ghost use Rattle.ps_runs.specs.Watching.{IsWatchedFor, Watches};

    ghost fits = { IsWatchedFor P.fits };

    ghost earliest = { λ w. P.earliest w.performer };

    ghost performs = { Watches P.performs };

    fn perform_scan(
        &mut self,
        app: &App,
        scan: &Scan,
        report: &mut Report,
    ) -> Result<P::Verdict, Refusal> {
        self.evaluator.scan(app, scan, &mut self.meant);
        self.performer.perform_scan(app, scan, report)
    }

    fn perform_restart(&mut self, app: &App) {
        self.evaluator.restart(app);
        self.performer.perform_restart(app);
    }
}
