// The scan that a time picks of what a word means in the place of a trace.

ghost use Rattle.std.specs.Prelude.{◌≡◌, ◌≤◌, ℕ, List, IsTrue, Some, None, Ok, Err, IfOk, IfErr, IfNone, IfSome, IsErrOf, OnOk};
ghost use Rattle.ps_bench_trace.specs.Refusing.{RefusesHeld, RefusesWord, StopsAtTrace, StopsAtWord};
ghost use Rattle.ps_base.specs.declared.failing.Refusal.{Refusal as RefusalOf};
ghost use Rattle.ps_bench_frame.specs.Ending.{IsOfRun, IsUnread};
ghost use Rattle.ps_bench_frame.specs.Meant.{file_meant};
ghost use Rattle.ps_bench_frame.specs.Opening.{source};
ghost use Rattle.ps_bench_frame.specs.Stopping.{Took};
ghost use Rattle.ps_bench_why.specs.Walked.{IsBegun, WalksHeld, WalksWord};
ghost use Rattle.ps_bench_why.specs.Walking.{IsWalkerFor};
ghost use Rattle.ps_outside.specs.Outside.{Rose};
ghost use Rattle.ps_report.specs.Short.{refusal_text};
ghost use Rattle.ps_bench_messages.specs.Remarking.{RemarksIf};
ghost use Rattle.ps_bench_trace.specs.Playing.{LacksCase, trace_held};
ghost use Rattle.ps_bench_trace.specs.Remarking.{TellsNoCase};
ghost use Rattle.ps_edge.specs.Hearing.{listener_seen};

use crate::looping::{Met, walk_up_to};
use crate::walker::Walker;
use ps_base::Memory;
use ps_bench_frame::{Input, InputStop, Opened, Stop, word_of};
use ps_bench_trace::{Expansion, Play, open_play, open_trace, refuse_input};
use ps_edge::KnownListener;
use ps_model::App;
use ps_outside::{Files, Output};
use ps_trace::TraceStop;
use std::alloc::Global;

/// A walker before the first scan. It takes all memory that the scans will use.
pub(crate) fn begun(alloc: Global, app: &App) -> Result<Walker, Memory>
    ensures { IfOk result (IsBegun app.now) }
{
    Walker::new(alloc, app)
}

// Why a call stops whose trace was cut short.
fn stop_behind<O: Output>(out: &mut O, why: TraceStop) -> Stop
    ensures refuses { (refusal : RefusalOf) → result ≡ Stop.Input (InputStop.Refused Input.Trace refusal) →
        (why ≡ TraceStop.Refused refusal)
        × Took (refusal_text refusal) (O.tells out.old) (O.taken out.old) (O.taken out.new) }
    ensures of_run { IsOfRun result }
    ensures unread { IsUnread result → why ≡ TraceStop.Fault }
    ensures unwritten { result ≡ Stop.Unwritten → Rose (O.faults out.old) (O.faults out.new) }
    ensures writes { O.faults out.old ≤ O.faults out.new }
    ensures telling { O.tells out.new ≡ O.tells out.old }
{
    match why {
        TraceStop::Refused(refusal) => refuse_input(out, Input::Trace, refusal),
        TraceStop::Fault => Stop::Input(InputStop::Unread(Input::Trace)),
    }
}

// Makes the scans of the trace of this name up to a time.
fn walk_named<F: Files, O: Output>(
    alloc: Global,
    files: &mut F,
    out: &mut O,
    app: &App,
    name: &str,
    time: u32,
    walker: &mut Walker,
) -> Result<Met, Stop>
    requires { IsBegun app.now walker.old }
    ensures walks { IsTrue (F.tells files.old) →
        OnOk result (WalksHeld app.now (F.held files.old name.now) time walker.new) }
    ensures fits { OnOk result (IsWalkerFor app.now walker.new) }
    ensures stops { IfErr result (λ stop. StopsAtTrace
        (λ refusal. IsTrue (F.tells files.old) → RefusesHeld app.now (F.held files.old name.now) refusal) stop
        (O.tells out.old) (O.taken out.old) (O.taken out.new)) }
    ensures unsaid { OnOk result (O.taken out.new ≡ O.taken out.old) }
    ensures unread { IfErr result (λ stop. IsUnread stop →
        Rose (F.faults files.old name.now) (F.faults files.new name.now)) }
    ensures unwritten { IsErrOf result Stop.Unwritten → Rose (O.faults out.old) (O.faults out.new) }
    ensures reads { (other : List ℕ) → F.faults files.old other ≤ F.faults files.new other }
    ensures writes { O.faults out.old ≤ O.faults out.new }
    ensures telling { O.tells out.new ≡ O.tells out.old }
{
    app.sound();
    let mut trace = match open_trace(alloc, files, out, name, app) {
        Ok(trace) => trace,
        Err(stop) => return Err(stop),
    };
    match walk_up_to(app, &mut trace, time, walker, files) {
        Ok(met) => Ok(met),
        Err(why) => Err(stop_behind(out, why)),
    }
}

// Makes the scans up to a time of the trace of these cases, or else of the file that a word names.
fn walk_play<F: Files, O: Output>(
    alloc: Global,
    files: &mut F,
    out: &mut O,
    app: &App,
    word: &str,
    cases: Option<Expansion>,
    time: u32,
    walker: &mut Walker,
) -> Result<Met, Stop>
    requires { IsBegun app.now walker.old }
    ensures walks { IsTrue (F.tells files.old) → OnOk result (WalksHeld app.now
        (trace_held cases (F.held files.old (file_meant word.now))) time walker.new) }
    ensures fits { OnOk result (IsWalkerFor app.now walker.new) }
    ensures stops { IfErr result (λ stop. StopsAtTrace
        (λ refusal. IsTrue (F.tells files.old) →
        RefusesHeld app.now (trace_held cases (F.held files.old (file_meant word.now))) refusal) stop
        (O.tells out.old) (O.taken out.old) (O.taken out.new)) }
    ensures unsaid { OnOk result (O.taken out.new ≡ O.taken out.old) }
    ensures unread { IfErr result (λ stop. IsUnread stop →
        Rose (F.faults files.old (file_meant word.now)) (F.faults files.new (file_meant word.now))) }
    ensures unwritten { IsErrOf result Stop.Unwritten → Rose (O.faults out.old) (O.faults out.new) }
    ensures reads { (other : List ℕ) → F.faults files.old other ≤ F.faults files.new other }
    ensures writes { O.faults out.old ≤ O.faults out.new }
    ensures telling { O.tells out.new ≡ O.tells out.old }
{
    let word = word_of(word);
    match cases {
        Some(mut cases) => walk_named(alloc, &mut cases, out, app, word.file, time, walker),
        None => walk_named(alloc, files, out, app, word.file, time, walker),
    }
}

/// Makes the scans up to a time of what a word means in the place of a trace. None: no case has the line of the word,
/// which the listener was told. A trace or a case file that is refused ends it: its line is written.
pub(crate) fn walk_word<F: Files, O: Output, L: KnownListener>(
    alloc: Global,
    files: &mut F,
    out: &mut O,
    listener: &mut L,
    opened: &Opened,
    word: &str,
    time: u32,
    walker: &mut Walker,
) -> Result<Option<Met>, Stop>
    requires { IsBegun opened.now.app walker.old }
    ensures walks { IsTrue (F.tells files.old) → IfOk result (λ got. IfSome got (λ met. WalksWord
        (source opened.now.app opened.now.sizes (F.tells files.old) (F.held files.old)) word.now time walker.new)) }
    ensures fits { IfOk result (λ got. IfSome got (λ met. IsWalkerFor opened.now.app walker.new)) }
    ensures lacks { IfOk result (λ got. IfNone got (LacksCase
        (source opened.now.app opened.now.sizes (F.tells files.old) (F.held files.old)) word.now)) }
    ensures stops { IfErr result (λ stop. StopsAtWord
        (source opened.now.app opened.now.sizes (F.tells files.old) (F.held files.old)) word.now stop
        (O.tells out.old) (O.taken out.old) (O.taken out.new)) }
    ensures unsaid { OnOk result (O.taken out.new ≡ O.taken out.old) }
    ensures unread { IfErr result (λ stop. IsUnread stop →
        Rose (F.faults files.old (file_meant word.now)) (F.faults files.new (file_meant word.now))) }
    ensures unwritten { IsErrOf result Stop.Unwritten → Rose (O.faults out.old) (O.faults out.new) }
    ensures reads { (other : List ℕ) → F.faults files.old other ≤ F.faults files.new other }
    ensures writes { O.faults out.old ≤ O.faults out.new }
    ensures telling { O.tells out.new ≡ O.tells out.old }
    ensures told { IsTrue (L.tells listener.old) → RemarksIf (result ≡ Ok None) (TellsNoCase
        (source opened.now.app opened.now.sizes (F.tells files.old) (F.held files.old)) word.now)
        (listener_seen L.quiet L.heard L.reads L.unread L.room listener.old) (L.heard listener.new) }
    ensures stays { IfOk result (λ got. IfSome got (λ met. listener.new ≡ listener.old)) }
    ensures listening { L.tells listener.new ≡ L.tells listener.old }
{
    match open_play(alloc, files, out, listener, opened, word) {
        Ok(Some(play)) => {
            let Play { cases, faults: _ } = play;
            match walk_play(alloc, files, out, &opened.app, word, cases, time, walker) {
                Ok(met) => Ok(Some(met)),
                Err(stop) => Err(stop),
            }
        }
        Ok(None) => Ok(None),
        Err(stop) => Err(stop),
    }
}
