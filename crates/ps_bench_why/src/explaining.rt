// `why APP TRACE TIME NAME`: why something has its value.

ghost use Rattle.std.specs.Prelude.{◌≡◌, ◌≤◌, ◌∷◌, [], ℕ, List, Any, IsTrue, IfOk, IfErr, IsErrOf, Some, Ok};
ghost use Rattle.ps_bench_frame.specs.Ending.{IsUnread};
ghost use Rattle.ps_bench_frame.specs.Meant.{file_meant};
ghost use Rattle.ps_bench_frame.specs.Opening.{Source, source};
ghost use Rattle.ps_bench_frame.specs.Stopping.{Took, TookSome};
ghost use Rattle.ps_bench_why.specs.Asking.{AnswersIn, AnswersWhy, IsTold, StopsWhy, wanted_by};
ghost use Rattle.ps_bench_why.specs.Reasoned.{question_of};
ghost use Rattle.ps_bench_why.specs.Remarking.{HearsWhy, TellsNoScan, TellsNoTime, TellsNothing};
ghost use Rattle.ps_bench_why.specs.Walked.{IsBegun, WalksWord};
ghost use Rattle.ps_bench_why.specs.Walking.{IsWalkerFor};
ghost use Rattle.ps_bench_messages.specs.Remarking.{RemarksIf};
ghost use Rattle.ps_edge.specs.Hearing.{listener_seen};
ghost use Rattle.ps_outside.specs.Outside.{Rose};
ghost use Rattle.ps_bench_frame.specs.Sourcing.{IsSourceOf};
ghost use Rattle.ps_bench_names.specs.Names.{IsNameOf, name_of};

use crate::looping::Met;
use crate::missing::tell_no_scan;
use crate::reasoning::{question_of, reasoned};
use crate::walker::Walker;
use crate::walking::{begun, walk_word};
use ps_base::Memory;
use ps_bench_frame::{Sourced, Status, Stop, open_sourced};
use ps_bench_messages::tell_no_name;
use ps_bench_names::{Name, name_of};
use ps_cover::Format;
use ps_edge::KnownListener;
use ps_outside::{Files, Output, write_all};
use std::alloc::Global;

/// What `why` is asked.
#[derive(Clone, Copy)]
pub struct Asked<'a> {
    /// The name of the application.
    pub app: &'a str,
    /// The word in the place of a trace.
    pub trace: &'a str,
    /// The last scan at or before this time is meant, in ms.
    pub time: u32,
    /// What is asked about: a signal, an instance, or INSTANCE.PIN.
    pub name: &'a str,
    /// How it is written.
    pub format: Format,
}

// Writes a text, all of which is told.
fn write_told<O: Output>(out: &mut O, text: &[u8]) -> Result<Status, Stop>
    ensures all { IfOk result (λ status. (status ≡ Status.Done)
        × Took text.now (O.tells out.old) (O.taken out.old) (O.taken out.new)) }
    ensures some { IfErr result (λ stop. (stop ≡ Stop.Unwritten)
        × TookSome text.now (O.tells out.old) (O.taken out.old) (O.taken out.new)) }
    ensures unwritten { IsErrOf result Stop.Unwritten → Rose (O.faults out.old) (O.faults out.new) }
    ensures writes { O.faults out.old ≤ O.faults out.new }
    ensures telling { O.tells out.new ≡ O.tells out.old }
{
    match write_all(out, text) {
        Ok(()) => Ok(Status::Done),
        Err(_) => Err(Stop::Unwritten),
    }
}

// Writes why it is so what a name asks, in the scan that was found; where none was, the listener is told.
fn tell_found<O: Output, L: KnownListener>(
    alloc: Global,
    out: &mut O,
    listener: &mut L,
    sourced: &Sourced,
    asked: &Asked<'_>,
    name: Name,
    walker: &Walker,
    met: Met,
) -> Result<Status, Stop>
    requires fits { IsWalkerFor sourced.now.opened.app walker.now }
    requires of { IsNameOf sourced.now.opened.app name }
    ensures answers { (from : Source) → from.net ≡ sourced.now.opened.app →
        name_of sourced.now.opened.app asked.now.name.now ≡ Some name →
        (IsTrue from.tells → WalksWord from asked.now.trace.now asked.now.time walker.now) →
        (IsTrue from.tells → IsSourceOf from.held asked.now.app.now sourced.now.source) →
        AnswersIn from asked.now.app.now (wanted_by asked.now)
        (O.tells out.old) (O.taken out.old) (O.taken out.new) result }
    ensures read { IfErr result (λ stop. ¬ IsUnread stop) }
    ensures unwritten { IsErrOf result Stop.Unwritten → Rose (O.faults out.old) (O.faults out.new) }
    ensures writes { O.faults out.old ≤ O.faults out.new }
    ensures telling { O.tells out.new ≡ O.tells out.old }
    ensures told { IsTrue (L.tells listener.old) → (from : Source) →
        (IsTrue from.tells → WalksWord from asked.now.trace.now asked.now.time walker.now) →
        RemarksIf (result ≡ Ok Status.Usage) (TellsNoScan (wanted_by asked.now) from)
        (listener_seen L.quiet L.heard L.reads L.unread L.room listener.old) (L.heard listener.new) }
    ensures listening { L.tells listener.new ≡ L.tells listener.old }
{
    let Some(times) = walker.last() else {
        tell_no_scan(alloc, listener, asked.trace, asked.time, met);
        return Ok(Status::Usage);
    };
    let app = &sourced.opened.app;
    let question = question_of(app, name);
    match reasoned(
        alloc,
        app,
        &sourced.source,
        walker,
        times,
        question,
        asked.format,
    ) {
        Ok(text) => write_told(out, text.as_slice()),
        Err(Memory) => Err(Stop::NoMemory),
    }
}

// Writes why it is so what a name of an application asks.
fn why_named<F: Files, O: Output, L: KnownListener>(
    alloc: Global,
    files: &mut F,
    out: &mut O,
    listener: &mut L,
    sourced: &Sourced,
    asked: &Asked<'_>,
    name: Name,
) -> Result<Status, Stop>
    requires named { name_of sourced.now.opened.app asked.now.name.now ≡ Some name }
    requires of { IsNameOf sourced.now.opened.app name }
    requires source { IsTrue (F.tells files.old) →
        IsSourceOf (F.held files.old) asked.now.app.now sourced.now.source }
    ensures answers { AnswersIn
        (source sourced.now.opened.app sourced.now.opened.sizes (F.tells files.old) (F.held files.old))
        asked.now.app.now (wanted_by asked.now) (O.tells out.old) (O.taken out.old) (O.taken out.new) result }
    ensures unread { IfErr result (λ stop. IsUnread stop →
        Rose (F.faults files.old (file_meant asked.now.trace.now)) (F.faults files.new (file_meant asked.now.trace.now))) }
    ensures unwritten { IsErrOf result Stop.Unwritten → Rose (O.faults out.old) (O.faults out.new) }
    ensures reads { (other : List ℕ) → F.faults files.old other ≤ F.faults files.new other }
    ensures writes { O.faults out.old ≤ O.faults out.new }
    ensures telling { O.tells out.new ≡ O.tells out.old }
    ensures told { IsTrue (L.tells listener.old) → RemarksIf (result ≡ Ok Status.Usage)
        (TellsNoTime (wanted_by asked.now)
        (source sourced.now.opened.app sourced.now.opened.sizes (F.tells files.old) (F.held files.old)))
        (listener_seen L.quiet L.heard L.reads L.unread L.room listener.old) (L.heard listener.new) }
    ensures listening { L.tells listener.new ≡ L.tells listener.old }
{
    let opened = &sourced.opened;
    let mut walker = match begun(alloc, &opened.app) {
        Ok(walker) => walker,
        Err(Memory) => return Err(Stop::NoMemory),
    };
    match walk_word(
        alloc,
        files,
        out,
        listener,
        opened,
        asked.trace,
        asked.time,
        &mut walker,
    ) {
        Ok(Some(met)) => tell_found(alloc, out, listener, sourced, asked, name, &walker, met),
        Ok(None) => Ok(Status::Usage),
        Err(stop) => Err(stop),
    }
}

// Writes why it is so what is asked of an application.
fn why_app<F: Files, O: Output, L: KnownListener>(
    alloc: Global,
    files: &mut F,
    out: &mut O,
    listener: &mut L,
    sourced: &Sourced,
    asked: &Asked<'_>,
) -> Result<Status, Stop>
    requires { IsTrue (F.tells files.old) → IsSourceOf (F.held files.old) asked.now.app.now sourced.now.source }
    ensures answers { AnswersIn
        (source sourced.now.opened.app sourced.now.opened.sizes (F.tells files.old) (F.held files.old))
        asked.now.app.now (wanted_by asked.now) (O.tells out.old) (O.taken out.old) (O.taken out.new) result }
    ensures unread { IfErr result (λ stop. IsUnread stop →
        Rose (F.faults files.old (file_meant asked.now.trace.now)) (F.faults files.new (file_meant asked.now.trace.now))) }
    ensures unwritten { IsErrOf result Stop.Unwritten → Rose (O.faults out.old) (O.faults out.new) }
    ensures reads { (other : List ℕ) → F.faults files.old other ≤ F.faults files.new other }
    ensures writes { O.faults out.old ≤ O.faults out.new }
    ensures telling { O.tells out.new ≡ O.tells out.old }
    ensures told { IsTrue (L.tells listener.old) → RemarksIf (result ≡ Ok Status.Usage)
        (TellsNothing asked.now.app.now (wanted_by asked.now)
        (source sourced.now.opened.app sourced.now.opened.sizes (F.tells files.old) (F.held files.old)))
        (listener_seen L.quiet L.heard L.reads L.unread L.room listener.old) (L.heard listener.new) }
    ensures listening { L.tells listener.new ≡ L.tells listener.old }
{
    match name_of(&sourced.opened.app, asked.name.as_bytes()) {
        Some(name) => why_named(alloc, files, out, listener, sourced, asked, name),
        None => {
            tell_no_name(alloc, listener, asked.app, asked.name);
            Ok(Status::Usage)
        }
    }
}

/// `why APP TRACE TIME NAME`: writes why a signal, a pin or the state of an instance of the application is as it is in
/// the last scan of the trace at or before the time, down to inputs of that scan and what was before it. A value that is
/// assigned, and what a call makes, is told with line and column of that statement in the source. In the place of a
/// trace may stand a case file, for the trace of all of its cases, or a case file and a line of it, for the case that
/// has this line. What is after that scan is not read.
///
/// The status is Done. It is Usage where the name is none of the application, the line of the word is in no case, or no
/// scan is at or before the time: that is told, and nothing is written. Where the application, the case file, or the
/// trace up to the time is refused, the line of the refusal is written in the place of all else.
///
/// A file that cannot be read is one of the two, whose count of the files rose in this call; `Unwritten` comes only
/// where the output's count rose.
pub fn why<F: Files, O: Output, L: KnownListener>(
    alloc: Global,
    files: &mut F,
    out: &mut O,
    listener: &mut L,
    asked: &Asked<'_>,
) -> Result<Status, Stop>
    ensures answers { IfOk result (AnswersWhy asked.now.app.now (wanted_by asked.now)
        (F.tells files.old) (F.held files.old) (O.tells out.old) (O.taken out.old) (O.taken out.new)) }
    ensures stops { IfErr result (StopsWhy asked.now.app.now (wanted_by asked.now)
        (F.tells files.old) (F.held files.old) (O.tells out.old) (O.taken out.old) (O.taken out.new)) }
    ensures unread { IfErr result (λ stop. IsUnread stop →
        Any (λ (name : List ℕ). Rose (F.faults files.old name) (F.faults files.new name))
        (asked.now.app.now ∷ file_meant asked.now.trace.now ∷ [])) }
    ensures unwritten { IsErrOf result Stop.Unwritten → Rose (O.faults out.old) (O.faults out.new) }
    ensures writes { O.faults out.old ≤ O.faults out.new }
    ensures telling { O.tells out.new ≡ O.tells out.old }
    ensures told { IsTrue (L.tells listener.old) → HearsWhy asked.now.app.now (wanted_by asked.now)
        (F.tells files.old) (F.held files.old) result
        (listener_seen L.quiet L.heard L.reads L.unread L.room listener.old) (L.heard listener.new) }
    ensures listening { L.tells listener.new ≡ L.tells listener.old }
{
    match open_sourced(alloc, files, out, asked.app) {
        Ok(sourced) => why_app(alloc, files, out, listener, &sourced, asked),
        Err(stop) => Err(stop),
    }
}
