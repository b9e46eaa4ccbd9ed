// `cover APP TRACE..`: what traces show of an application, and what they do not.

ghost use Rattle.std.specs.Prelude.{◌≡◌, ◌≤◌, ◌∷◌, ◌++◌, [], ℕ, List, Any, IsTrue, IfOk, IfErr, IsErrOf, OnOk, map, nat_lt};
ghost use Rattle.ps_bench_frame.specs.Answering.{EndsBy};
ghost use Rattle.ps_bench_frame.specs.Coming.{OfApp};
ghost use Rattle.ps_bench_frame.specs.Ending.{IsUnread};
ghost use Rattle.ps_bench_frame.specs.Leaving.{Leaves, OnlyReads};
ghost use Rattle.ps_bench_frame.specs.Meant.{file_meant};
ghost use Rattle.ps_bench_frame.specs.Opening.{source_of_call};
ghost use Rattle.ps_bench_frame.specs.Seen.{texts_of};
ghost use Rattle.ps_cover.specs.Seen.{part_of};
ghost use Rattle.ps_cover.specs.Telling.{known_of};
ghost use Rattle.ps_model.specs.Typing.{Accepted};
ghost use Rattle.ps_outside.specs.Outside.{Rose};
ghost use Rattle.ps_bench_frame.specs.Sourcing.{IsSourceOf};
ghost use Rattle.ps_bench_cover.specs.Asking.{AnswersCover, StopsCover, cover_text, ideas_asked};
ghost use Rattle.ps_bench_cover.specs.Asking.{is_less, status_of, wanted_by};
ghost use Rattle.ps_bench_cover.specs.Coming.{CoverOf};
ghost use Rattle.ps_bench_cover.specs.Telling.{TellsKept};

use crate::adding::add_words;
use crate::ideas::add_ideas;
use crate::places::operand_places;
use ps_base::{Bytes, Memory};
use ps_bench_frame::{Answer, Call, CallOver, Sourced, Status, Stop, finish};
use ps_cover::{Cover, Exclusions, Format, Sort, Told, coverage_text, percent_of};
use ps_message::Listener;
use ps_outside::{Files, Output};
use std::alloc::Global;

/// What `cover` is asked.
#[derive(Clone, Copy)]
pub struct Asked<'a> {
    /// The name of the application.
    pub app: &'a str,
    /// The words in the place of traces, in order.
    pub traces: &'a [&'a str],
    /// How it is written.
    pub format: Format,
    /// The least of each of the four percentages, if one is asked for.
    pub least: Option<u32>,
    /// Whether ideas are told for ways that were never taken; in JSON none are.
    pub ideas: bool,
}

// The part of the points of a sort that are not excluded that was shown, in percent.
fn part_of(told: &Told<'_>, sort: Sort) -> u8
    ensures { result ≡ part_of (known_of told.entry.now) sort }
{
    percent_of(told.app, told.cover, told.exclusions, sort)
}

// Whether a part is less than a percentage.
fn is_below(told: &Told<'_>, sort: Sort, least: u32) -> bool
    ensures { result ≡ nat_lt (part_of (known_of told.entry.now) sort) least }
{
    u32::from(part_of(told, sort)) < least
}

// Whether one of the four parts is less than a percentage.
fn is_less(told: &Told<'_>, least: u32) -> bool
    ensures { result ≡ is_less (known_of told.entry.now) least }
{
    is_below(told, Sort::States, least)
        || is_below(told, Sort::Ways, least)
        || is_below(told, Sort::Values, least)
        || is_below(told, Sort::Decisions, least)
}

// Failed where a least percentage is asked for and one of the four is less.
fn status_of(told: &Told<'_>, least: Option<u32>) -> Status
    ensures { result ≡ status_of least (known_of told.entry.now) }
{
    match least {
        Some(least) if is_less(told, least) => Status::Failed,
        _ => Status::Done,
    }
}

// Puts ideas for ways that were never taken, where they are asked for; none in JSON.
fn add_asked_ideas(text: &mut Bytes, told: &Told<'_>, asked: &Asked<'_>) -> Result<(), Memory>
    ensures { OnOk result (text.new ≡ text.old
        ++ ideas_asked asked.now.ideas asked.now.format (known_of told.entry.now)) }
{
    match asked.format {
        Format::Text if asked.ideas => add_ideas(text, told),
        _ => Ok(()),
    }
}

// All that is told.
fn cover_text(alloc: Global, told: &Told<'_>, asked: &Asked<'_>) -> Result<Bytes, Memory>
    ensures { IfOk result (λ text. text ≡ cover_text (wanted_by asked.now) (known_of told.entry.now)) }
{
    let mut text = coverage_text(alloc, told, asked.format)?;
    add_asked_ideas(&mut text, told, asked)?;
    Ok(text)
}

// What is told of what traces have shown of an application, with what is excluded and the places of its source.
fn answer_of(
    alloc: Global,
    sourced: &Sourced,
    asked: &Asked<'_>,
    cover: &Cover<'_>,
) -> Result<Answer, Memory>
    requires { Accepted sourced.now.opened.app }
    ensures { IfOk result (TellsKept sourced.now.opened.app sourced.now.source cover.entry.now (wanted_by asked.now)) }
{
    let app = &sourced.opened.app;
    let exclusions = Exclusions::new(alloc, app)?;
    let places = operand_places(alloc, app, &sourced.source, cover.points())?;
    let told = Told {
        app,
        exclusions: &exclusions,
        places: places.as_slice(),
        cover,
    };
    let text = cover_text(alloc, &told, asked)?;
    Ok(Answer {
        text,
        status: status_of(&told, asked.least),
    })
}

// What is answered where a word means no case: nothing is written.
fn usage(alloc: Global) -> Answer
    ensures text { result.text ≡ [] }
    ensures status { result.status ≡ Status.Usage }
{
    Answer {
        text: Bytes::new(alloc),
        status: Status::Usage,
    }
}

// Takes the traces, and tells what they have shown of an application.
fn cover_app<C: Call>(call: &mut C, sourced: &Sourced, asked: &Asked<'_>) -> Result<Answer, Stop>
    requires accepted { Accepted sourced.now.opened.app }
    requires source { IsTrue (texts_of (C.seen call.old)).tells →
        IsSourceOf (texts_of (C.seen call.old)).held asked.now.app.now sourced.now.source }
    ensures comes { CoverOf (source_of_call sourced.now.opened.app sourced.now.opened.sizes (C.seen call.old))
        asked.now.app.now (wanted_by asked.now) result }
    ensures reads { OnlyReads (map (λ word. file_meant word.now) asked.now.traces.now)
        (C.seen call.old) (C.seen call.new) result }
{
    let opened = &sourced.opened;
    let mut total = match Cover::new(call.alloc(), &opened.app) {
        Ok(total) => total,
        Err(Memory) => return Err(Stop::NoMemory),
    };
    match add_words(call, opened, asked.traces, &mut total) {
        Ok(true) => match answer_of(call.alloc(), sourced, asked, &total) {
            Ok(answer) => Ok(answer),
            Err(Memory) => Err(Stop::NoMemory),
        },
        Ok(false) => Ok(usage(call.alloc())),
        Err(stop) => Err(stop),
    }
}

// What traces show of the application of a name.
fn cover_in<C: Call>(call: &mut C, asked: &Asked<'_>) -> Result<Answer, Stop>
    ensures comes { OfApp (λ from. CoverOf from asked.now.app.now (wanted_by asked.now)) (texts_of (C.seen call.old))
        asked.now.app.now result }
    ensures reads { OnlyReads (asked.now.app.now ∷ map (λ word. file_meant word.now) asked.now.traces.now)
        (C.seen call.old) (C.seen call.new) result }
{
    match call.open_sourced(asked.app) {
        Ok(sourced) => cover_app(call, &sourced, asked),
        Err(stop) => Err(stop),
    }
}

// The same, and how the call ends by that.
fn cover_to_end<C: Call>(call: &mut C, asked: &Asked<'_>) -> Result<Status, Stop>
    ensures ends { EndsBy (OfApp (λ from. CoverOf from asked.now.app.now (wanted_by asked.now))
        (texts_of (C.seen call.old)) asked.now.app.now)
        (C.seen call.old).out.tells (C.seen call.old).out.taken (C.seen call.new).out.taken result }
    ensures leaves { Leaves (asked.now.app.now ∷ map (λ word. file_meant word.now) asked.now.traces.now)
        (C.seen call.old) (C.seen call.new) result }
    ensures files { (C.seen call.new).loans.files ≡ (C.seen call.old).loans.files }
    ensures out { (C.seen call.new).loans.out ≡ (C.seen call.old).loans.out }
{
    let came = cover_in(call, asked);
    finish(call, came)
}

/// `cover APP TRACE..`: writes of each instance of the application the states and ways, and of all the values and
/// decisions, that the scans of the traces have shown, each trace from the first state on, and by name what they have
/// not; with the four percentages at the end. In the place of a trace may stand a case file, for the trace of all of
/// its cases, or a case file and a line of it, for the case that has this line; faults of cases change nothing. Ideas,
/// where they are asked for, stand after the text.
///
/// The status is Done, or Failed where a least percentage is asked for and one of the four is less. It is Usage where
/// the line of a word is in no case: that is told, and nothing is written. Where the application is refused, or the
/// first trace or case file of those that are, the line of the refusal is written in the place of all else.
///
/// A file that cannot be read is one of those whose count of the files rose in this call; `Unwritten` comes only where
/// the output's count rose.
pub fn cover<F: Files, O: Output, L: Listener>(
    alloc: Global,
    files: &mut F,
    out: &mut O,
    listener: &mut L,
    asked: &Asked<'_>,
) -> Result<Status, Stop>
    ensures answers { IfOk result (AnswersCover asked.now.app.now (wanted_by asked.now)
        (F.tells files.old) (F.held files.old) (O.tells out.old) (O.taken out.old) (O.taken out.new)) }
    ensures stops { IfErr result (StopsCover asked.now.app.now (wanted_by asked.now)
        (F.tells files.old) (F.held files.old) (O.tells out.old) (O.taken out.old) (O.taken out.new)) }
    ensures unread { IfErr result (λ stop. IsUnread stop →
        Any (λ (name : List ℕ). Rose (F.faults files.old name) (F.faults files.new name))
        (asked.now.app.now ∷ map (λ word. file_meant word.now) asked.now.traces.now)) }
    ensures unwritten { IsErrOf result Stop.Unwritten → Rose (O.faults out.old) (O.faults out.new) }
    ensures writes { O.faults out.old ≤ O.faults out.new }
    ensures telling { O.tells out.new ≡ O.tells out.old }
{
    let mut call = CallOver {
        alloc,
        files,
        out,
        listener,
    };
    let ended = cover_to_end(&mut call, asked);
    let CallOver {
        alloc: _,
        files: _,
        out: _,
        listener: _,
    } = call;
    ended
}
