// One call of the program, from its words to the number with which it exits.

ghost use Rattle.std.specs.Prelude.{◌≡◌, ◌≢◌, ◌⊎◌, ◌≤◌, ◌∷◌, [], ℕ, Bool, false, List, Any, Ok, Err, IfOk, IfErr};
ghost use Rattle.std.specs.Prelude.{◌++◌, IsErrOf, IsTrue, OnErr, map, option_map};
ghost use Rattle.ps_bench_words.specs.Asking as asking;
ghost use Rattle.ps_bench_words.specs.Asking.{Asks};
ghost use Rattle.ps_bench_words.specs.Seen.{asked_seen, seen};
ghost use Rattle.ps_bench_cover.specs.Asking as covering;
ghost use Rattle.ps_bench_cover.specs.Asking.{AnswersCover, StopsCover};
ghost use Rattle.ps_bench_frame.specs.Meant.{file_meant};
ghost use Rattle.ps_bench_frame.specs.Opening.{IsOfApp, source};
ghost use Rattle.ps_bench_never.specs.SameAsking.{AnswersSame, StopsSame, files_of};
ghost use Rattle.ps_bench_test.specs.Stopping.{StopsTesting};
ghost use Rattle.ps_bench_test.specs.Testing.{AreRanFiles, FileRan, test_status, test_text};
ghost use Rattle.ps_model.specs.Network.{Network};
ghost use Rattle.ps_model.specs.declared.channel.ImageSizes.{ImageSizes};
ghost use Rattle.ps_bench_watch.specs.LiveAsking.{fed};
ghost use Rattle.ps_bench_main.specs.Answering.{Answers, IsAnswered, IsCutOff, IsUnreadBy, Stops};
ghost use Rattle.ps_bench_main.specs.Hearing.{HearsDone, HearsMeanwhile, HearsStop, IsToldMeanwhile, names_asked};
ghost use Rattle.ps_bench_messages.specs.Telling.{IsTold, named_by};
ghost use Rattle.ps_edge.specs.Heard.{IsHeard};
ghost use Rattle.ps_edge.specs.Hearing.{listener_seen};
ghost use Rattle.ps_bench_frame.specs.Ending.{IsUnread, exit_number, stop_status};
ghost use Rattle.ps_bench_frame.specs.Stopping.{Took, TookNothing, TookSome};
ghost use Rattle.ps_bench_frame.specs.declared.ending.Status.{Status as StatusOf};
ghost use Rattle.ps_outside.specs.Outside.{Rose};
ghost use Rattle.ps_bench_watch.specs.Tracing.{AnswersTrace, StopsTrace};

use crate::onlookers::{Nobody, Onlookers};
use ps_base::Memory;
use ps_bench_campaign::{Campaign, CampaignAsked, campaign, sum};
use ps_bench_cover::{CoverAsked, cover};
use ps_bench_frame::{Status, Stop, exit_code};
use ps_bench_messages::{Names, tell};
use ps_bench_never::{NeverAsked, SameAsked, never, same};
use ps_bench_report::{ReportAsked, report};
use ps_bench_test::{TestAsked, expand, test};
use ps_bench_watch::{LiveAsked, Stream, TraceAsked, WatchAsked, live, trace, watch};
use ps_bench_why::{WhyAsked, why};
use ps_bench_words::{Asked, asked_of, texts_of};
use ps_edge::{KnownListener, KnownOutput};
use ps_message::{Listener, NO_MEMORY};
use ps_outside::{Files, Output, write_all};
use ps_search::Observer;
use ps_words::Words;
use std::alloc::Global;

// Writes the trace of a log.
fn do_trace<F: Files, O: Output>(
    alloc: Global,
    files: &mut F,
    out: &mut O,
    asked: &TraceAsked<'_>,
) -> Result<Status, Stop>
    ensures answers { IfOk result (λ status. (status ≡ StatusOf.Done)
        × AnswersTrace asked.now.app.now asked.now.log.now (F.tells files.old) (F.held files.old)
        (O.tells out.old) (O.taken out.old) (O.taken out.new)) }
    ensures stops { IfErr result (λ stop. StopsTrace asked.now.app.now asked.now.log.now (F.tells files.old) (F.held files.old)
        (O.tells out.old) (O.taken out.old) (O.taken out.new) stop) }
    ensures unread { IfErr result (λ stop. IsUnread stop → Any (λ (name : List ℕ).
        Rose (F.faults files.old name) (F.faults files.new name)) (asked.now.app.now ∷ asked.now.log.now ∷ [])) }
    ensures unwritten { IsErrOf result Stop.Unwritten → Rose (O.faults out.old) (O.faults out.new) }
    ensures writes { O.faults out.old ≤ O.faults out.new }
    ensures telling { O.tells out.new ≡ O.tells out.old }
{
    match trace(alloc, files, out, asked) {
        Ok(()) => Ok(Status::Done),
        Err(stop) => Err(stop),
    }
}

// Writes a page.
fn do_page<O: Output>(out: &mut O, text: &str) -> Result<Status, Stop>
    ensures answers { IfOk result (λ status. (status ≡ StatusOf.Done)
        × Took text.now (O.tells out.old) (O.taken out.old) (O.taken out.new)) }
    ensures stops { IfErr result (λ stop. (stop ≡ Stop.Unwritten)
        × TookSome text.now (O.tells out.old) (O.taken out.old) (O.taken out.new)) }
    ensures unwritten { OnErr result (Rose (O.faults out.old) (O.faults out.new)) }
    ensures writes { O.faults out.old ≤ O.faults out.new }
    ensures telling { O.tells out.new ≡ O.tells out.old }
{
    match write_all(out, text.as_bytes()) {
        Ok(()) => Ok(Status::Done),
        Err(_) => Err(Stop::Unwritten),
    }
}

// Runs cases. Who asks for no messages is told nothing.
fn do_test<F: Files, O: Output, L: Listener>(
    alloc: Global,
    files: &mut F,
    out: &mut O,
    listener: &mut L,
    asked: &TestAsked<'_>,
) -> Result<Status, Stop>
    ensures ran { IfOk result (λ status. (net : Network) × (sizes : ImageSizes)
        × IsOfApp (source net sizes (F.tells files.old) (F.held files.old)) asked.now.app.now
        × (fs : List FileRan)
        × AreRanFiles (source net sizes (F.tells files.old) (F.held files.old)) asked.now.app.now
        (seen asked.now.cases.now) fs
        × (status ≡ test_status fs)
        × (IsTrue (O.tells out.old) → O.taken out.new ≡ O.taken out.old ++ test_text asked.now.format fs)) }
    ensures stops { IfErr result (λ stop. StopsTesting (F.tells files.old) (F.held files.old)
        asked.now.app.now (seen asked.now.cases.now) asked.now.format stop
        (O.tells out.old) (O.taken out.old) (O.taken out.new)) }
    ensures unread { IfErr result (λ stop. IsUnread stop →
        Any (λ (name : List ℕ). Rose (F.faults files.old name) (F.faults files.new name))
        (asked.now.app.now ∷ seen asked.now.cases.now)) }
    ensures unwritten { IsErrOf result Stop.Unwritten → Rose (O.faults out.old) (O.faults out.new) }
    ensures writes { O.faults out.old ≤ O.faults out.new }
    ensures telling { O.tells out.new ≡ O.tells out.old }
    ensures quiet { IsTrue (L.tells listener.old) → IsTrue (L.quiet listener.old) →
        L.heard listener.new ≡ L.heard listener.old }
{
    if listener.is_quiet() {
        let mut nobody = Nobody;
        test(alloc, files, out, &mut nobody, asked)
    } else {
        test(alloc, files, out, listener, asked)
    }
}

// Writes what traces show. Who asks for no messages is told nothing.
fn do_cover<F: Files, O: Output, L: Listener>(
    alloc: Global,
    files: &mut F,
    out: &mut O,
    listener: &mut L,
    asked: &CoverAsked<'_>,
) -> Result<Status, Stop>
    ensures answers { IfOk result (AnswersCover asked.now.app.now (covering.wanted_by asked.now)
        (F.tells files.old) (F.held files.old) (O.tells out.old) (O.taken out.old) (O.taken out.new)) }
    ensures stops { IfErr result (StopsCover asked.now.app.now (covering.wanted_by asked.now)
        (F.tells files.old) (F.held files.old) (O.tells out.old) (O.taken out.old) (O.taken out.new)) }
    ensures unread { IfErr result (λ stop. IsUnread stop →
        Any (λ (name : List ℕ). Rose (F.faults files.old name) (F.faults files.new name))
        (asked.now.app.now ∷ map (λ word. file_meant word.now) asked.now.traces.now)) }
    ensures unwritten { IsErrOf result Stop.Unwritten → Rose (O.faults out.old) (O.faults out.new) }
    ensures writes { O.faults out.old ≤ O.faults out.new }
    ensures telling { O.tells out.new ≡ O.tells out.old }
    ensures quiet { IsTrue (L.tells listener.old) → IsTrue (L.quiet listener.old) →
        L.heard listener.new ≡ L.heard listener.old }
{
    if listener.is_quiet() {
        let mut nobody = Nobody;
        cover(alloc, files, out, &mut nobody, asked)
    } else {
        cover(alloc, files, out, listener, asked)
    }
}

// Compares two applications. Who asks for no messages is told nothing.
fn do_same<F: Files, O: Output, L: KnownListener, W: Observer>(
    alloc: Global,
    files: &mut F,
    out: &mut O,
    listener: &mut L,
    asked: &SameAsked<'_>,
    observer: &mut W,
) -> Result<Status, Stop>
    ensures answers { IfOk result (AnswersSame asked.now.app.now asked.now.other.now
        (option_map (λ n. n.now) asked.now.rules) asked.now.states
        (F.tells files.old) (F.held files.old) (O.tells out.old) (O.taken out.old) (O.taken out.new)) }
    ensures stops { IfErr result (StopsSame asked.now.app.now asked.now.other.now
        (option_map (λ n. n.now) asked.now.rules) asked.now.states
        (F.tells files.old) (F.held files.old) (O.tells out.old) (O.taken out.old) (O.taken out.new)) }
    ensures unread { IfErr result (λ stop. IsUnread stop →
        Any (λ (name : List ℕ). Rose (F.faults files.old name) (F.faults files.new name))
        (files_of asked.now.app.now asked.now.other.now (option_map (λ n. n.now) asked.now.rules))) }
    ensures unwritten { IsErrOf result Stop.Unwritten → Rose (O.faults out.old) (O.faults out.new) }
    ensures writes { O.faults out.old ≤ O.faults out.new }
    ensures telling { O.tells out.new ≡ O.tells out.old }
    ensures quiet { IsTrue (L.tells listener.old) → IsTrue (L.quiet listener.old) →
        L.heard listener.new ≡ L.heard listener.old }
{
    if listener.is_quiet() {
        let mut nobody = Nobody;
        same(alloc, files, out, &mut nobody, asked, observer)
    } else {
        same(alloc, files, out, listener, asked, observer)
    }
}

// Does what is asked. Of words that are not taken nothing is done.
fn do_asked<F: Files, I: Stream, O: Output, L: KnownListener, W: Observer>(
    alloc: Global,
    asked: &Asked<'_>,
    files: &mut F,
    input: &mut I,
    out: &mut O,
    listener: &mut L,
    observer: &mut W,
) -> Result<Status, Stop>
    ensures answers { IfOk result (λ status.
        Answers (asked_seen asked.now) (fed (I.tells input.old) (I.coming input.old) (I.coming input.new))
        (F.tells files.old) (F.held files.old) status
        (O.tells out.old) (O.taken out.old) (O.taken out.new)) }
    ensures stops { IfErr result (λ stop.
        Stops (asked_seen asked.now) (fed (I.tells input.old) (I.coming input.old) (I.coming input.new))
        (F.tells files.old) (F.held files.old) stop
        (O.tells out.old) (O.taken out.old) (O.taken out.new)) }
    ensures unread { IfErr result (λ stop. IsUnread stop → IsUnreadBy (asked_seen asked.now)
        (F.faults files.old) (F.faults files.new) (I.faults input.old) (I.faults input.new)) }
    ensures unwritten { IsErrOf result Stop.Unwritten → Rose (O.faults out.old) (O.faults out.new) }
    ensures writes { O.faults out.old ≤ O.faults out.new }
    ensures telling { O.tells out.new ≡ O.tells out.old }
    ensures hears { IsTrue (L.tells listener.old) →
        HearsMeanwhile (asked_seen asked.now) (F.tells files.old) (F.held files.old) result
        (listener_seen L.quiet L.heard L.reads L.unread L.room listener.old) (L.heard listener.new) }
{
    match asked {
        Asked::Test { app, cases, format } => {
            let asked = TestAsked {
                app: *app,
                cases: cases.as_slice(),
                format: *format,
            };
            do_test(alloc, files, out, listener, &asked)
        }
        Asked::Expand { app, cases } => {
            expand(alloc, files, out, *app, *cases)?;
            Ok(Status::Done)
        }
        Asked::Watch {
            app,
            trace,
            names,
            faults,
            layout,
        } => {
            let asked = WatchAsked {
                app: *app,
                trace: *trace,
                names: names.as_slice(),
                faults: *faults,
                layout: *layout,
            };
            watch(alloc, files, out, listener, &asked)
        }
        Asked::Trace { app, csv } => {
            let asked = TraceAsked {
                app: *app,
                log: *csv,
            };
            do_trace(alloc, files, out, &asked)
        }
        Asked::Why {
            app,
            trace,
            time,
            name,
            output,
        } => {
            let asked = WhyAsked {
                app: *app,
                trace: *trace,
                time: *time,
                name: *name,
                format: *output,
            };
            why(alloc, files, out, listener, &asked)
        }
        Asked::Cover {
            app,
            traces,
            output,
            least,
            ideas,
        } => {
            let asked = CoverAsked {
                app: *app,
                traces: traces.as_slice(),
                format: *output,
                least: *least,
                ideas: *ideas,
            };
            do_cover(alloc, files, out, listener, &asked)
        }
        Asked::Never { app, rules, states } => {
            let asked = NeverAsked {
                app: *app,
                rules: *rules,
                states: *states,
            };
            never(alloc, files, out, &asked, observer)
        }
        Asked::Same {
            app,
            other,
            rules,
            states,
        } => {
            let asked = SameAsked {
                app: *app,
                other: *other,
                rules: *rules,
                states: *states,
            };
            do_same(alloc, files, out, listener, &asked, observer)
        }
        Asked::Campaign {
            app,
            trace,
            from,
            count,
            channel,
            print,
        } => {
            let asked = CampaignAsked {
                app: *app,
                trace: *trace,
                trials: Campaign {
                    from: *from,
                    count: *count,
                    channel: *channel,
                },
                print: *print,
            };
            campaign(alloc, files, out, listener, &asked)
        }
        Asked::Sum { files: names } => sum(alloc, files, out, names.as_slice()),
        Asked::Report { app, cases, title } => {
            let asked = ReportAsked {
                app: *app,
                cases: cases.as_slice(),
                title: *title,
            };
            report(alloc, files, out, &asked)
        }
        Asked::Live { app, names } => {
            let asked = LiveAsked {
                app: *app,
                names: *names,
            };
            live(alloc, files, input, out, &asked)
        }
        Asked::Page { text } => do_page(out, *text),
        Asked::NotTaken { .. } => Ok(Status::Usage),
    }
}

// The names of the files that are asked of, for messages.
fn names_in<'a>(asked: &'a Asked<'a>) -> Names<'a>
    ensures { named_by result ≡ names_asked (asked_seen asked.now) }
{
    match asked {
        Asked::Test { app, cases, .. } => Names {
            cases: cases.as_slice(),
            ..Names::of_app(*app)
        },
        Asked::Expand { app, cases } => Names {
            cases: std::slice::from_ref(cases),
            ..Names::of_app(*app)
        },
        Asked::Watch {
            app,
            trace,
            faults,
            ..
        } => Names {
            trace: *trace,
            faults: faults.unwrap_or(""),
            ..Names::of_app(*app)
        },
        Asked::Trace { app, csv } => Names {
            log: *csv,
            ..Names::of_app(*app)
        },
        Asked::Why { app, trace, .. } => Names {
            trace: *trace,
            ..Names::of_app(*app)
        },
        Asked::Cover { app, traces, .. } => Names {
            traces: traces.as_slice(),
            ..Names::of_app(*app)
        },
        Asked::Never { app, rules, .. } => Names {
            rules: *rules,
            ..Names::of_app(*app)
        },
        Asked::Same {
            app,
            other,
            rules,
            ..
        } => Names {
            other: *other,
            rules: rules.unwrap_or(""),
            ..Names::of_app(*app)
        },
        Asked::Campaign { app, trace, .. } => Names {
            trace: *trace,
            ..Names::of_app(*app)
        },
        Asked::Sum { files } => Names {
            traces: files.as_slice(),
            ..Names::of_app("")
        },
        Asked::Report { app, cases, .. } => Names {
            cases: cases.as_slice(),
            ..Names::of_app(*app)
        },
        Asked::Live { app, .. } => Names::of_app(*app),
        Asked::Page { .. } | Asked::NotTaken { .. } => Names::of_app(""),
    }
}

// How a call ended whose output was to hand on the rest at its end: a handing on that failed is a write that failed.
fn finished<O: Output>(done: Result<Status, Stop>, out: &mut O) -> Result<Status, Stop>
    ensures done { IfOk result (λ status. done ≡ Ok status) }
    ensures stopped { IfErr result (λ stop. (done ≡ Err stop) ⊎ (stop ≡ Stop.Unwritten)) }
    ensures unwritten { OnErr result ((done ≡ result) ⊎ Rose (O.faults out.old) (O.faults out.new)) }
    ensures writes { O.faults out.old ≤ O.faults out.new }
    ensures kept { O.taken out.new ≡ O.taken out.old }
    ensures telling { O.tells out.new ≡ O.tells out.old }
    ensures handed_on { (O.held_back out.new ≡ []) ⊎ (result ≡ Err Stop.Unwritten) }
{
    match out.finish() {
        Ok(()) => done,
        Err(_) => Err(Stop::Unwritten),
    }
}

// Tells what is wrong with words that are not taken; of all else nothing.
fn tell_done<L: KnownListener>(asked: &Asked<'_>, listener: &mut L)
    ensures told { IsTrue (L.tells listener.old) → HearsDone (asked_seen asked.now)
        (listener_seen L.quiet L.heard L.reads L.unread L.room listener.old) (L.heard listener.new) }
    ensures telling { L.tells listener.new ≡ L.tells listener.old }
{
    if let Asked::NotTaken { text } = asked {
        if !listener.is_quiet() {
            listener.hear_all(text.as_str().as_bytes());
        }
    }
}

// The status of a call that stopped, and tells why unless nobody reads the output any more.
fn stopped<O: KnownOutput, L: KnownListener>(
    alloc: Global,
    out: &O,
    listener: &mut L,
    names: &Names<'_>,
    stop: Stop,
) -> Status
    ensures status { result ≡ stop_status stop }
    ensures unanswered { ¬ IsAnswered result }
    ensures told { IsTrue (L.tells listener.old) → (is_closed : Bool)
        × (IsTrue (O.tells out.now) → is_closed ≡ O.closed out.now)
        × (let who = listener_seen L.quiet L.heard L.reads L.unread L.room listener.old in
        IsHeard is_closed (IsTold who (named_by names.now) stop) false who (L.heard listener.new)) }
    ensures telling { L.tells listener.new ≡ L.tells listener.old }
{
    tell(alloc, listener, names, stop, out.is_unread());
    stop.status()
}

// Does what is asked, has the output hand on what it holds back, and tells why it stopped, where it did.
fn end_asked<F: Files, I: Stream, O: KnownOutput, L: KnownListener, N: KnownListener, W: Observer>(
    alloc: Global,
    asked: &Asked<'_>,
    files: &mut F,
    input: &mut I,
    out: &mut O,
    onlookers: &mut Onlookers<N, W>,
    listener: &mut L,
) -> Status
    ensures answers { IsAnswered result →
        Answers (asked_seen asked.now) (fed (I.tells input.old) (I.coming input.old) (I.coming input.new))
        (F.tells files.old) (F.held files.old) result
        (O.tells out.old) (O.taken out.old) (O.taken out.new) }
    ensures heard { IsAnswered result → IsTrue (L.tells listener.old) → HearsDone (asked_seen asked.now)
        (listener_seen L.quiet L.heard L.reads L.unread L.room listener.old) (L.heard listener.new) }
    ensures cut_off { ¬ IsAnswered result →
        IsCutOff (asked_seen asked.now) (fed (I.tells input.old) (I.coming input.old) (I.coming input.new))
        (F.tells files.old) (F.held files.old) result
        (O.tells out.old) (O.taken out.old) (O.taken out.new)
        (λ stop. IsTrue (L.tells listener.old) → (is_closed : Bool)
        × (IsTrue (O.tells out.new) → is_closed ≡ O.closed out.new) × HearsStop is_closed (asked_seen asked.now)
        (listener_seen L.quiet L.heard L.reads L.unread L.room listener.old) (L.heard listener.new) stop) }
    ensures unread { result ≡ StatusOf.ReadFault → IsUnreadBy (asked_seen asked.now)
        (F.faults files.old) (F.faults files.new) (I.faults input.old) (I.faults input.new) }
    ensures unwritten { result ≡ StatusOf.WriteFault → Rose (O.faults out.old) (O.faults out.new) }
    ensures handed_on { result ≢ StatusOf.WriteFault → O.held_back out.new ≡ [] }
    ensures telling { L.tells listener.new ≡ L.tells listener.old }
    ensures meanwhile { IsTrue (N.tells onlookers.old.hearer) → IsToldMeanwhile (asked_seen asked.now)
        (F.tells files.old) (F.held files.old) result
        (listener_seen N.quiet N.heard N.reads N.unread N.room onlookers.old.hearer) (N.heard onlookers.new.hearer) }
    ensures quiet { IsTrue (N.tells onlookers.old.hearer) → IsTrue (N.quiet onlookers.old.hearer) →
        N.heard onlookers.new.hearer ≡ N.heard onlookers.old.hearer }
{
    let observer = &mut onlookers.observer;
    let done = do_asked(
        alloc,
        asked,
        files,
        input,
        out,
        &mut onlookers.hearer,
        observer,
    );
    match finished(done, out) {
        Ok(status) => {
            tell_done(asked, listener);
            status
        }
        Err(stop) => stopped(alloc, out, listener, &names_in(asked), stop),
    }
}

// Does what the words ask. An error means out of memory before anything was done.
fn do_words<F: Files, I: Stream, O: KnownOutput, L: KnownListener, N: KnownListener, W: Observer>(
    alloc: Global,
    words: &Words,
    files: &mut F,
    input: &mut I,
    out: &mut O,
    onlookers: &mut Onlookers<N, W>,
    listener: &mut L,
) -> Result<Status, Memory>
    ensures answers { IfOk result (λ status. IsAnswered status → (asked : asking.Asked) × Asks words.now asked
        × Answers asked (fed (I.tells input.old) (I.coming input.old) (I.coming input.new))
        (F.tells files.old) (F.held files.old) status
        (O.tells out.old) (O.taken out.old) (O.taken out.new)
        × (IsTrue (L.tells listener.old) → HearsDone asked
        (listener_seen L.quiet L.heard L.reads L.unread L.room listener.old) (L.heard listener.new))) }
    ensures cut_off { IfOk result (λ status. ¬ IsAnswered status → (asked : asking.Asked) × Asks words.now asked
        × IsCutOff asked (fed (I.tells input.old) (I.coming input.old) (I.coming input.new))
        (F.tells files.old) (F.held files.old) status
        (O.tells out.old) (O.taken out.old) (O.taken out.new)
        (λ stop. IsTrue (L.tells listener.old) → (is_closed : Bool)
        × (IsTrue (O.tells out.new) → is_closed ≡ O.closed out.new) × HearsStop is_closed asked
        (listener_seen L.quiet L.heard L.reads L.unread L.room listener.old) (L.heard listener.new) stop)
        × (status ≡ StatusOf.ReadFault → IsUnreadBy asked
        (F.faults files.old) (F.faults files.new) (I.faults input.old) (I.faults input.new))) }
    ensures unwritten { IfOk result (λ status. status ≡ StatusOf.WriteFault →
        Rose (O.faults out.old) (O.faults out.new)) }
    ensures handed_on { IfOk result (λ status. status ≢ StatusOf.WriteFault → O.held_back out.new ≡ []) }
    ensures nothing { OnErr result ((out.new ≡ out.old) × (listener.new ≡ listener.old)) }
    ensures telling { L.tells listener.new ≡ L.tells listener.old }
    ensures meanwhile { IfOk result (λ status. IsTrue (N.tells onlookers.old.hearer) →
        (asked : asking.Asked) × Asks words.now asked
        × IsToldMeanwhile asked (F.tells files.old) (F.held files.old) status
        (listener_seen N.quiet N.heard N.reads N.unread N.room onlookers.old.hearer) (N.heard onlookers.new.hearer)) }
    ensures unheard { OnErr result (onlookers.new ≡ onlookers.old) }
    ensures quiet { IsTrue (N.tells onlookers.old.hearer) → IsTrue (N.quiet onlookers.old.hearer) →
        N.heard onlookers.new.hearer ≡ N.heard onlookers.old.hearer }
{
    let texts = texts_of(alloc, words)?;
    let asked = asked_of(alloc, texts.as_slice())?;
    Ok(end_asked(alloc, &asked, files, input, out, onlookers, listener))
}

// The status of a call for which there is no memory before anything was done, and tells of it.
fn without_memory<L: KnownListener>(listener: &mut L) -> Status
    ensures status { result ≡ StatusOf.Memory }
    ensures told { IsTrue (L.tells listener.old) →
        (let who = listener_seen L.quiet L.heard L.reads L.unread L.room listener.old in
        IsHeard false (λ text. text ≡ NO_MEMORY.now) false who (L.heard listener.new)) }
    ensures telling { L.tells listener.new ≡ L.tells listener.old }
{
    if !listener.is_quiet() {
        listener.hear_all(NO_MEMORY.as_bytes());
    }
    Status::Memory
}

/// Does what the words ask, and says the number with which the program exits: all that the program does, over any
/// files, any input, any output, whoever is told of it while it runs, and whoever is told in words at its end why it did
/// not do all.
///
/// `words` are those after the program's name. The number is that of a status, 0 to 7. Nothing is told at the end of an
/// output that nobody reads any more.
pub fn exit_of_call<
    F: Files,
    I: Stream,
    O: KnownOutput,
    L: KnownListener,
    N: KnownListener,
    W: Observer,
>(
    alloc: Global,
    words: &Words,
    files: &mut F,
    input: &mut I,
    out: &mut O,
    onlookers: &mut Onlookers<N, W>,
    listener: &mut L,
) -> u8
    // The number is that of a status. Where nothing stopped the call, the status and what was written are those of what
    // the words ask: of `test`, 0 exactly where every case passed, and else 4; of `never`, 0 where every rule holds,
    // of `cover` where no less was shown than was asked for, and of `live` where no scan tripped; of help and the
    // version, the page of those words. Where the call did not do all, why it stopped and what was written up to there
    // are those of what the words ask, unless memory was out before that; of a file or an input that could not be
    // read, and of an output that could not be written, the count rose. What the listener hears is the message of that
    // very stop, by whether somebody still reads the output, or what is wrong with words that are not taken; of a call
    // that nothing stopped it hears nothing else.
    ensures does { (status : StatusOf) × (result ≡ exit_number status)
        × (IsAnswered status → (asked : asking.Asked) × Asks words.now asked
        × Answers asked (fed (I.tells input.old) (I.coming input.old) (I.coming input.new))
        (F.tells files.old) (F.held files.old) status
        (O.tells out.old) (O.taken out.old) (O.taken out.new)
        × (IsTrue (L.tells listener.old) → HearsDone asked
        (listener_seen L.quiet L.heard L.reads L.unread L.room listener.old) (L.heard listener.new)))
        × (¬ IsAnswered status →
        ((status ≡ StatusOf.Memory) × TookNothing (O.tells out.old) (O.taken out.old) (O.taken out.new)
        × (IsTrue (L.tells listener.old) →
        (let who = listener_seen L.quiet L.heard L.reads L.unread L.room listener.old in
        IsHeard false (λ text. text ≡ NO_MEMORY.now) false who (L.heard listener.new))))
        ⊎ ((asked : asking.Asked) × Asks words.now asked
        × IsCutOff asked (fed (I.tells input.old) (I.coming input.old) (I.coming input.new))
        (F.tells files.old) (F.held files.old) status
        (O.tells out.old) (O.taken out.old) (O.taken out.new)
        (λ stop. IsTrue (L.tells listener.old) → (is_closed : Bool)
        × (IsTrue (O.tells out.new) → is_closed ≡ O.closed out.new) × HearsStop is_closed asked
        (listener_seen L.quiet L.heard L.reads L.unread L.room listener.old) (L.heard listener.new) stop)
        × (status ≡ StatusOf.ReadFault → IsUnreadBy asked
        (F.faults files.old) (F.faults files.new) (I.faults input.old) (I.faults input.new))))
        × (status ≡ StatusOf.WriteFault → Rose (O.faults out.old) (O.faults out.new)) }

    // Whatever was taken is handed on, unless a write failed; a call for which memory is out before it does anything
    // leaves the output as it was.
    ensures handed_on { result ≢ exit_number Status.WriteFault →
        (O.held_back out.new ≡ []) ⊎ ((result ≡ exit_number Status.Memory) × (out.new ≡ out.old)) }

    // What who hears a command hears is what it remarks, by what the words ask and how that ended: that a word names
    // nothing, that no case has a line, or that no scan is at or before a time, and of all else nothing; of `test`,
    // `cover` and `same` it is left open.
    ensures meanwhile { IsTrue (N.tells onlookers.old.hearer) →
        ((result ≡ exit_number Status.Memory) × (onlookers.new ≡ onlookers.old))
        ⊎ ((status : StatusOf) × (result ≡ exit_number status) × (asked : asking.Asked) × Asks words.now asked
        × IsToldMeanwhile asked (F.tells files.old) (F.held files.old) status
        (listener_seen N.quiet N.heard N.reads N.unread N.room onlookers.old.hearer) (N.heard onlookers.new.hearer)) }

    // Who hears what a command meets, and asks for no messages, hears none.
    ensures quiet { IsTrue (N.tells onlookers.old.hearer) → IsTrue (N.quiet onlookers.old.hearer) →
        N.heard onlookers.new.hearer ≡ N.heard onlookers.old.hearer }
    ensures telling { L.tells listener.new ≡ L.tells listener.old }
{
    match do_words(alloc, words, files, input, out, onlookers, listener) {
        Ok(status) => exit_code(status),
        Err(Memory) => exit_code(without_memory(listener)),
    }
}
