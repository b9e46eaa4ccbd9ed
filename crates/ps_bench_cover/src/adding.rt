// The traces that are named, one after another: what their scans show is added up.

ghost use Rattle.std.specs.Prelude.{◌∷◌, [], map};
ghost use Rattle.ps_bench_frame.specs.Leaving.{OnlyReads};
ghost use Rattle.ps_bench_frame.specs.Meant.{file_meant};
ghost use Rattle.ps_bench_frame.specs.Opening.{source_of_call};
ghost use Rattle.ps_bench_frame.specs.Seen.{texts_of};
ghost use Rattle.ps_cover.specs.Tallied.{IsWhole};
ghost use Rattle.ps_bench_cover.specs.Coming.{ComesOfTrace, ComesOfWord, ComesOfWords};

use crate::running::begun;
use ps_base::Memory;
use ps_bench_frame::{Call, Opened, Stop};
use ps_bench_trace::{Expansion, Play, follow_play, read_play};
use ps_cover::Cover;
use ps_model::App;

// Adds what the scans show of the trace of these cases, or else of the file that a word names.
fn add_play<C: Call>(
    call: &mut C,
    app: &App,
    word: &str,
    cases: Option<Expansion>,
    total: &mut Cover<'_>,
) -> Result<(), Stop>
    ensures comes { ComesOfTrace app.now cases word.now (texts_of (C.seen call.old)) total.old total.new result }
    ensures reads { OnlyReads (file_meant word.now ∷ []) (C.seen call.old) (C.seen call.new) result }
{
    app.sound();
    let mut runner = match begun(call.alloc(), app) {
        Ok(runner) => runner,
        Err(Memory) => return Err(Stop::NoMemory),
    };
    match follow_play(call, app, word, cases, &mut runner) {
        Ok(()) => {
            total.join(&runner.taker.cover);
            Ok(())
        }
        Err(stop) => Err(stop),
    }
}

// Adds what the scans show of what a word means in the place of a trace, and says whether it means one: FALSE where no
// case has the line of the word, which is told.
fn add_word<C: Call>(
    call: &mut C,
    opened: &Opened,
    word: &str,
    total: &mut Cover<'_>,
) -> Result<bool, Stop>
    ensures comes { ComesOfWord (source_of_call opened.now.app opened.now.sizes (C.seen call.old)) word.now
        total.old total.new result }
    ensures reads { OnlyReads (file_meant word.now ∷ []) (C.seen call.old) (C.seen call.new) result }
{
    match read_play(call, opened, word) {
        Ok(Some(play)) => {
            let Play { cases, faults: _ } = play;
            match add_play(call, &opened.app, word, cases, total) {
                Ok(()) => Ok(true),
                Err(stop) => Err(stop),
            }
        }
        Ok(None) => Ok(false),
        Err(stop) => Err(stop),
    }
}

/// Adds what the scans of the traces show that these words mean, in order, each begun anew. FALSE: the line of a word
/// is in no case of its file, which is told. A trace or a case file that is refused ends it, and the stop has the place
/// of the word.
pub(crate) fn add_words<C: Call>(
    call: &mut C,
    opened: &Opened,
    words: &[&str],
    total: &mut Cover<'_>,
) -> Result<bool, Stop>
    requires { IsWhole opened.now.app total.old }
    ensures comes { ComesOfWords (source_of_call opened.now.app opened.now.sizes (C.seen call.old))
        (map (λ word. word.now) words.now) total.old total.new result }
    ensures reads { OnlyReads (map (λ word. file_meant word.now) words.now) (C.seen call.old) (C.seen call.new) result }
{
    let mut place = 0;
    for word in words {
        match add_word(call, opened, *word, total) {
            Ok(true) => place += 1,
            Ok(false) => return Ok(false),
            Err(stop) => return Err(stop.at_place(place)),
        }
    }
    Ok(true)
}
