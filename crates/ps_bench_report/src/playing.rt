// The run of a case of which it is kept what is shown of it, and what it shows.

ghost use Rattle.std.specs.Prelude.{◌≡◌, ◌≢◌, List, IfOk, IsSomeAnd, OnOk, false};
ghost use Rattle.ps_bench_cases.specs.Legible.{IsLegible};
ghost use Rattle.ps_bench_cases.specs.Meant.{faults_in, whole_case};
ghost use Rattle.ps_bench_cases.specs.Runnable.{IsRunnable};
ghost use Rattle.ps_bench_cases.specs.Alone.{alone};
ghost use Rattle.ps_model.specs.Network.{input_count};
ghost use Rattle.ps_model.specs.Typing.{Accepted};
ghost use Rattle.ps_bench_report.specs.Played.{IsKeptOf, KeepsItems};
ghost use Rattle.ps_bench_report.specs.Marks.{names_shown};
ghost use Rattle.ps_bench_report.specs.Recorder.{IsFresh};
ghost use Rattle.ps_bench_report.specs.Recording.{film_of};
ghost use Rattle.ps_bench_names.specs.declared.name.Name.{Name as NameOf};
ghost use Rattle.ps_trace.specs.FaultOrder.{AreInOrder, AreOfOneChannel};
ghost use Rattle.ps_trace.specs.Reading.{IsReadingTrace, input_count_of, items_left};
ghost use Rattle.ps_trace.specs.Scans.End.{whole};

use crate::filming::{Both, Kept, record_items};
use crate::marks::{marks_of, names_shown};
use crate::recording::Recorder;
use ps_base::Memory;
use ps_bench_cases::laws::expanded_trace_is_read;
use ps_bench_cases::{Case, CaseFile, faults_of};
use ps_bench_trace::Expansion;
use ps_cover::Cover;
use ps_model::App;
use ps_outside::TextFail;
use ps_runs::{Runner, StruckWorld, Watched};
use ps_trace::{Faults, TraceReader};
use ps_world::World;
use std::alloc::Global;

// Runs a trace that is held in memory from its first scan on, with these faults, and gives what is kept of it. None:
// it is refused, which a trace that is whole is not.
fn record_trace<'a>(
    alloc: Global,
    app: &'a App,
    trace: &mut TraceReader,
    text: &mut Expansion,
    faults: Faults,
    recorder: Recorder,
) -> Result<Option<Kept<'a>>, Memory>
    requires accepted { Accepted app.now }
    requires ordered { AreInOrder faults }
    requires one_channel { AreOfOneChannel faults }
    requires inputs { input_count_of trace.old ≡ input_count app.now }
    ensures records { IsReadingTrace trace.old text.old → (items_left trace.old text.old).end ≡ whole →
        (names : List NameOf) → IsFresh names recorder →
        IfOk result (λ got. IsSomeAnd got (KeepsItems app.now names (items_left trace.old text.old).items faults)) }
{
    let world = StruckWorld::new(World::build(alloc, app)?, faults);
    let performer = Watched::new(alloc, app, world)?;
    let cover = Cover::new(alloc, app)?;
    let mut runner = Runner::for_app(alloc, app, performer, Both { recorder, cover })?;
    match record_items(app, trace, &mut runner, text) {
        Ok(()) => finished(runner),
        Err(_) => Ok(None),
    }
}

// What was kept of a run that is done.
fn finished<'a>(runner: Runner<Watched<StruckWorld>, Both<'a>>) -> Result<Option<Kept<'a>>, Memory>
    ensures film { IfOk result (λ got. IsSomeAnd got (λ kept. film_of kept.recording ≡ film_of runner.entry.taker.recorder.recording)) }
    ensures cover { IfOk result (λ got. IsSomeAnd got (λ kept. kept.cover ≡ runner.entry.taker.cover)) }
    ensures wanting { OnOk result (runner.entry.taker.recorder.is_wanting ≡ false) }
{
    let Runner { taker, .. } = runner;
    match taker.finish() {
        Ok(kept) => Ok(Some(kept)),
        Err(Memory) => Err(Memory),
    }
}

// What is kept of a trace that is not begun: nothing, unless memory runs out.
fn not_begun<'a>(why: TextFail) -> Result<Option<Kept<'a>>, Memory>
    ensures { OnOk result (why ≢ TextFail.Memory) }
{
    match why {
        TextFail::Refused(_) => Ok(None),
        TextFail::Fault => Ok(None),
        TextFail::Memory => Err(Memory),
    }
}

/// Runs a case of a case file in a world of its own, and gives what is shown of it, and what it shows. None: its trace is
/// refused, which one that is read as it was written is not. `Memory`: memory runs out.
pub(crate) fn record_case<'a>(
    alloc: Global,
    app: &'a App,
    file: &CaseFile,
    case: &Case,
) -> Result<Option<Kept<'a>>, Memory>
    requires accepted { Accepted app.now }
    requires runnable { IsRunnable app.now (whole_case file.now case.now) }
    // Where its trace is read as it was written the case is shown, by the run that it means.
    ensures records { IsLegible app.now (alone file.now case.now) →
        IfOk result (λ got. IsSomeAnd got (IsKeptOf app.now (whole_case file.now case.now))) }
{
    app.sound();
    expanded_trace_is_read();
    let mut text = Expansion::of_one(alloc, app, file, case)?;
    let faults = faults_of(alloc, file.begin.as_slice(), case.statements.as_slice())?;
    let recorder = Recorder::new(
        alloc,
        names_shown(alloc, app, file, case)?,
        marks_of(alloc, file, case, &[])?,
    );
    match TraceReader::start(alloc, &mut text, "", app) {
        Ok(mut trace) => record_trace(alloc, app, &mut trace, &mut text, faults, recorder),
        Err(why) => not_begun(why),
    }
}
