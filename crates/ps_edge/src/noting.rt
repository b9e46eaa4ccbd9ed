// What is told of an application that `check` accepts, and of comments that are shown otherwise than they are read.

ghost use Rattle.std.specs.Prelude.{◌≡◌, IfOk, IsTrue, slice_get};
ghost use Rattle.ps_edge.specs.Hearing.{listener_seen};
ghost use Rattle.ps_edge.specs.Telling.{AreNotes, AreNotesOn, AreOfDone, AreOfRun, AreOfWholeRun, AreOnComments};
ghost use Rattle.ps_edge.specs.Telling.{asks_check, asks_run, notes_text, odds_text};

use crate::again::again_on;
use crate::known::KnownListener;
use crate::spoken::Spoken;
use ps_base::{Bytes, Memory};
use ps_findings::{odd_comments, odd_lines, placed_notes};
use ps_message::{note_line, odd_line};
use ps_model::App;
use ps_notes::{OddComment, Placed};
use ps_parser::Source;
use ps_top::{Left, Words};
use std::alloc::Global;

// As many bytes of a trace or fault file as are looked at for comments.
const MOST_LOOKED_AT: u32 = 262_144;

// Whether the words are those of `check`.
fn asks_check(words: &Words) -> bool
    ensures { result ≡ asks_check (slice_get words.now 0) }
{
    words.len() > 0 && words.at(0).as_str() == "check"
}

// Whether the words are those of a command that runs a trace.
fn asks_run(words: &Words) -> bool
    ensures { result ≡ asks_run (slice_get words.now 0) }
{
    if words.len() == 0 {
        return false;
    }
    let command = words.at(0).as_str();
    command == "run" || command == "fault" || command == "vote" || command == "heal"
}

// The lines of notes of an application from a file of this name.
fn note_lines(alloc: Global, name: &[u8], app: &App, placed: &[Placed]) -> Result<Bytes, Memory>
    ensures { IfOk result (λ bytes. bytes ≡ notes_text name.now app.now placed.now) }
{
    let mut lines = Bytes::new(alloc);
    for note in placed {
        let line = note_line(alloc, name, app, note)?;
        lines.extend_from_slice(line.as_slice())?;
    }
    Ok(lines)
}

// The lines of odd comments of a text from a file of this name.
fn odd_text(alloc: Global, name: &[u8], odds: &[OddComment]) -> Result<Bytes, Memory>
    ensures { IfOk result (λ bytes. bytes ≡ odds_text name.now odds.now) }
{
    let mut lines = Bytes::new(alloc);
    for odd in odds {
        let line = odd_line(alloc, name, odd)?;
        lines.extend_from_slice(line.as_slice())?;
    }
    Ok(lines)
}

// The lines on an application of this text and flat source from a file of this name.
fn lines_on(
    alloc: Global,
    name: &[u8],
    text: &[u8],
    source: &Source,
    app: &App,
) -> Result<Bytes, Memory>
    ensures { IfOk result (AreNotesOn name.now app.now source.now text.now) }
{
    let placed = placed_notes(alloc, source, app)?;
    let odds = odd_comments(alloc, text)?;
    let mut lines = note_lines(alloc, name, app, placed.as_slice())?;
    let further = odd_text(alloc, name, odds.as_slice())?;
    lines.extend_from_slice(further.as_slice())?;
    Ok(lines)
}

// The notes on an application that `check` accepted; empty where none is left.
fn notes_on(alloc: Global, words: &Words, left: &Left) -> Result<Bytes, Memory>
    ensures { IfOk result (AreNotes words.now left.now) }
{
    match (
        &left.app,
        &left.source,
        &left.text,
        Spoken::App.name_in(words),
    ) {
        (Some(app), Some(source), Some(text), Some(name)) => {
            lines_on(alloc, name.as_bytes(), text.as_slice(), source, app)
        }
        _ => Ok(Bytes::new(alloc)),
    }
}

// The lines on the comments of a text of a run; empty where it has no odd one.
fn comments_of<L: KnownListener>(
    alloc: Global,
    words: &Words,
    spoken: Spoken,
    listener: &L,
) -> Result<Bytes, Memory>
    ensures { IsTrue (L.tells listener.now) → IfOk result (AreOnComments words.now
        (listener_seen L.quiet L.heard L.reads L.unread L.room listener.now) spoken) }
{
    match spoken.name_in(words) {
        Some(name) => {
            let text = listener.first_of(alloc, name, MOST_LOOKED_AT);
            let odds = odd_lines(alloc, text.as_slice())?;
            odd_text(alloc, name.as_bytes(), odds.as_slice())
        }
        None => Ok(Bytes::new(alloc)),
    }
}

// The lines on the comments of the first text of a run, the trace or the fault file, that has odd ones; empty where
// there is none, or the words are of no run.
pub(crate) fn comments_on<L: KnownListener>(
    alloc: Global,
    words: &Words,
    listener: &L,
) -> Result<Bytes, Memory>
    ensures { IsTrue (L.tells listener.now) → IfOk result (AreOfRun words.now
        (listener_seen L.quiet L.heard L.reads L.unread L.room listener.now)) }
{
    if !asks_run(words) {
        return Ok(Bytes::new(alloc));
    }
    let lines = comments_of(alloc, words, Spoken::Trace, listener)?;
    if lines.len() > 0 {
        return Ok(lines);
    }
    comments_of(alloc, words, Spoken::Faults, listener)
}

// What is told of a run that did all: of a seat that was outvoted again, and the lines on comments.
fn run_on<L: KnownListener>(
    alloc: Global,
    words: &Words,
    left: &Left,
    listener: &L,
) -> Result<Bytes, Memory>
    ensures { IsTrue (L.tells listener.now) → IfOk result (AreOfWholeRun words.now
        (listener_seen L.quiet L.heard L.reads L.unread L.room listener.now) left.now) }
{
    let mut lines = again_on(alloc, words, left)?;
    let comments = comments_on(alloc, words, listener)?;
    lines.extend_from_slice(comments.as_slice())?;
    Ok(lines)
}

// What is told of a call that did all.
pub(crate) fn done_on<L: KnownListener>(
    alloc: Global,
    words: &Words,
    left: &Left,
    listener: &L,
) -> Result<Bytes, Memory>
    ensures { IsTrue (L.tells listener.now) → IfOk result (AreOfDone words.now
        (listener_seen L.quiet L.heard L.reads L.unread L.room listener.now) left.now) }
{
    if asks_check(words) {
        notes_on(alloc, words, left)
    } else {
        run_on(alloc, words, left, listener)
    }
}
