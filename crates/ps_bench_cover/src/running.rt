// What the scans of one trace show, begun anew, and added to what others have shown.

ghost use Rattle.std.specs.Prelude.{◌≡◌, ◌≤◌, ◌∷◌, ◌++◌, [], ℕ, List, IsTrue, IfOk, OnOk, Some, Ok, Err};
ghost use Rattle.ps_base.specs.declared.failing.Refusal.{Refusal as RefusalOf};
ghost use Rattle.ps_cover.specs.Applying.{ScanStep, scans_of};
ghost use Rattle.ps_cover.specs.Covers.{IsCoverFor};
ghost use Rattle.ps_cover.specs.Tallied.{IsWhole, KnowsTraces};
ghost use Rattle.ps_cover.specs.declared.cover.Cover.{Cover as CoverOf};
ghost use Rattle.ps_model.specs.Meaning.{Meaning, nothing};
ghost use Rattle.ps_model.specs.Network.{input_count};
ghost use Rattle.ps_model.specs.Scanning.{State};
ghost use Rattle.ps_runs.specs.Cutting.{TellsFailures};
ghost use Rattle.ps_runs.specs.Running.{Fits};
ghost use Rattle.ps_runs.specs.Watching.{IsEvaluatorFor};
ghost use Rattle.ps_bench_cover.specs.Taking.{IsBegun};
ghost use Rattle.ps_trace.specs.Reading.{IsReadingTrace, file_of, input_count_of, items_left};
ghost use Rattle.ps_trace.specs.Scans.End.{whole, refused};

use crate::covering::Shown;
use crate::nothing::Nothing;
use ps_base::Memory;
use ps_cover::Cover;
use ps_model::App;
use ps_outside::Files;
use ps_runs::{Cut, Evaluated, Runner, do_items};
use ps_trace::TraceReader;
use std::alloc::Global;

/// A trace that is begun anew: the evaluator in the first state, and a cover that has seen nothing.
pub(crate) fn begun(alloc: Global, app: &App) -> Result<Runner<Evaluated, Shown<'_>>, Memory>
    ensures fits { IfOk result (Fits (IsEvaluatorFor app.now) (λ t. IsCoverFor app.now t.cover) app.now) }
    ensures begins { IfOk result (λ runner. IsBegun app.now runner.performer runner.taker.cover) }
{
    let cover = Cover::new(alloc, app)?;
    let performer = Evaluated::new(alloc, app)?;
    Runner::for_app(alloc, app, performer, Shown { cover })
}

/// Does the items of one more trace, begun anew, and adds what their scans show. It takes its memory before the first.
///
/// Where the trace is not done to its end nothing is added.
pub fn add_trace<F: Files>(
    alloc: Global,
    app: &App,
    trace: &mut TraceReader,
    files: &mut F,
    total: &mut Cover<'_>,
) -> Result<Result<(), Cut>, Memory>
    requires { input_count_of trace.old ≡ input_count app.now }
    // Where all was done, what was known after some traces is known after these and this one.
    ensures adds { IsTrue (F.tells files.old) → (text : List ℕ) →
        F.held files.old (file_of trace.old) ≡ Some text → IsReadingTrace trace.old text →
        (traces : List (List ScanStep)) (first : CoverOf) → IsWhole app.now first →
        KnowsTraces app.now traces first total.old →
        (states : List State) → Meaning app.now (items_left trace.old text).items states →
        IfOk result (λ ran. OnOk ran (KnowsTraces app.now
        (traces ++ scans_of app.now nothing (items_left trace.old text).items states ∷ []) first total.new)) }
    // All was done only of a trace that is whole.
    ensures whole { IsTrue (F.tells files.old) → (text : List ℕ) →
        F.held files.old (file_of trace.old) ≡ Some text → IsReadingTrace trace.old text →
        IfOk result (λ ran. OnOk ran ((items_left trace.old text).end ≡ whole)) }
    // A refusal is that of the trace.
    ensures refuses { IsTrue (F.tells files.old) → (text : List ℕ) →
        F.held files.old (file_of trace.old) ≡ Some text → IsReadingTrace trace.old text →
        (refusal : RefusalOf) → result ≡ Ok (Err (Cut.Refused refusal)) →
        (items_left trace.old text).end ≡ refused refusal }
    ensures failures { IfOk result (TellsFailures (file_of trace.old) (F.faults files.old) (F.faults files.new) 0 0) }
    ensures reads { (other : List ℕ) → F.faults files.old other ≤ F.faults files.new other }
    ensures kept { F.held files.new ≡ F.held files.old }
    ensures reading { F.tells files.new ≡ F.tells files.old }
{
    app.sound();
    let mut runner = begun(alloc, app)?;
    match do_items(app, trace, &mut runner, files, &mut Nothing {}) {
        Ok(()) => {
            total.join(&runner.taker.cover);
            Ok(Ok(()))
        }
        Err(cut) => Ok(Err(cut)),
    }
}
