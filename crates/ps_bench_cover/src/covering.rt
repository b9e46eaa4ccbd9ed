// What the scans of a trace show, as the loop over them takes it.

use ps_cover::Cover;
use ps_machine::Signals;
use ps_model::{App, Report};
use ps_outside::{Sink, Stopped};
use ps_runs::{Evaluated, Taker};

/// What the scans so far have shown, as the loop over a trace takes them.
#[derive(Drop)]
pub(crate) struct Shown<'a> {
    /// What was shown.
    pub(crate) cover: Cover<'a>,
}

/// The scans of the plain evaluator: each is taken, and nothing is written.
impl Taker<Evaluated> for Shown<'_> {
    ghost use Rattle.std.specs.Prelude.{[]};
    ghost use Rattle.ps_cover.specs.Covers.{IsCoverFor};
    ghost use Rattle.ps_bench_cover.specs.Taking.{cover_takes};

    ghost fits = { λ net t. IsCoverFor net t.cover };

    ghost said = { λ _ _ _ _. [] };

    ghost takes = { λ net old e o new. cover_takes net old.cover e o new.cover };

    fn take_scan<S: Sink>(
        &mut self,
        app: &App,
        now: u32,
        _verdict: (),
        _report: &Report,
        performer: &Evaluated,
        _out: &mut S,
    ) -> Result<(), Stopped> {
        let signals = Signals {
            before: performer.signals_before(),
            behind: performer.signals(),
        };
        self.cover.take(app, now, &signals);
        Ok(())
    }

    fn take_restart<S: Sink>(
        &mut self,
        app: &App,
        _performer: &Evaluated,
        _out: &mut S,
    ) -> Result<(), Stopped> {
        self.cover.begin_anew(app);
        Ok(())
    }
}
