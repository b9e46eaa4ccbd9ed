// The loop over the lines of a trace that comes as a stream.

ghost use Rattle.std.specs.Prelude.{◌≡◌, ◌≢◌, ◌≤◌, IsTrue, Err, OnOk, true, false};
ghost use Rattle.ps_lines.specs.Lines.{HasNoLineFeed};
ghost use Rattle.ps_model.specs.Network.{input_count};
ghost use Rattle.ps_runs.specs.Running.{Fits};
ghost use Rattle.ps_bench_watch.specs.Feeding.{inputs_of_feed, last_of, lines_left, waiting};
ghost use Rattle.ps_bench_watch.specs.Answering.{AnswersLines, DoesFed, due_by};
ghost use Rattle.ps_bench_watch.specs.Leaving.{HandsOn, IsHandedOn, Leaves, side};

use crate::feed::{Fed, Feed};
use crate::{Stream, hand_on};
use ps_model::App;
use ps_outside::{Failed, Output};
use ps_runs::{Cut, Performer, Runner, Taker};

/// Does the items of a trace that are to come of a stream, in order, and hands on what is said of each before it reads
/// on. It takes no memory, and ends at the stream's end, after 18,446,744,073,709,551,615 lines, or where it is cut
/// short.
///
/// `Refused` comes where a line is refused, or the performer refuses a scan; `Unread` where a read failed: all that
/// comes of each whole line that was read was then handed on. `Unwritten` comes where a write failed.
pub(crate) fn answer_lines<I: Stream, O: Output, P: Performer, T: Taker<P>>(
    app: &App,
    feed: &mut Feed,
    runner: &mut Runner<P, T>,
    input: &mut I,
    out: &mut O,
) -> Result<(), Cut>
    requires fits { Fits (P.fits app.now) (T.fits app.now) app.now runner.old }
    requires due { P.earliest runner.old.performer ≤ last_of feed.old }
    requires inputs { inputs_of_feed feed.old ≡ input_count app.now }
    ensures answers { IsTrue (I.tells input.old) → AnswersLines (P.performs app.now) (T.said app.now) (T.takes app.now)
        feed.old runner.old.performer runner.new.performer runner.old.taker runner.new.taker
        (lines_left feed.old (I.coming input.old)) (lines_left feed.new (I.coming input.new))
        (O.tells out.old) (O.taken out.old) (O.taken out.new) result }
    ensures all_came { result ≡ Err Cut.Unread → HasNoLineFeed (waiting feed.new) }
    ensures leaves { Leaves (result ≡ Err Cut.Unread) (result ≡ Err Cut.Unwritten)
        (I.faults input.old) (I.faults input.new)
        (side (O.held_back out.old) (O.faults out.old) (O.tells out.old))
        (side (O.held_back out.new) (O.faults out.new) (O.tells out.new)) }
{
    'lines: for _count in 0..u64::MAX {
        let fed = match feed.next_item(input, &mut runner.scan) {
            Ok(fed) => fed,
            Err(stop) => return Err(Cut::from(stop)),
        };
        if is_over(fed) {
            return Ok(());
        }
        match answer_fed(app, fed, runner, out) {
            Ok(()) => {}
            Err(cut) => return Err(cut),
        }
    }
    Ok(())
}

// Whether there is no line any more.
fn is_over(fed: Fed) -> bool
    ensures over { result ≡ true → fed ≡ Fed.End }
    ensures more { result ≡ false → fed ≢ Fed.End }
{
    matches!(fed, Fed::End)
}

// Does what a line gave, and hands on what is said of it.
fn answer_fed<O: Output, P: Performer, T: Taker<P>>(
    app: &App,
    fed: Fed,
    runner: &mut Runner<P, T>,
    out: &mut O,
) -> Result<(), Cut>
    requires fits { Fits (P.fits app.now) (T.fits app.now) app.now runner.old }
    requires due { fed ≡ Fed.Scan → P.earliest runner.old.performer ≤ runner.old.scan.now }
    ensures does { DoesFed (P.performs app.now) (T.said app.now) (T.takes app.now) fed runner.old.scan
        runner.old.performer runner.new.performer runner.old.taker runner.new.taker
        (O.tells out.old) (O.taken out.old) (O.taken out.new) result }
    ensures fits { OnOk result (Fits (P.fits app.now) (T.fits app.now) app.now runner.new) }
    ensures due { P.earliest runner.new.performer ≤ due_by fed (P.earliest runner.old.performer) runner.old.scan.now }
    ensures hands_on { HandsOn result
        (side (O.held_back out.old) (O.faults out.old) (O.tells out.old))
        (side (O.held_back out.new) (O.faults out.new) (O.tells out.new)) }
{
    match fed {
        Fed::Nothing | Fed::End => Ok(()),
        Fed::Scan => {
            let done = runner.do_scan(app, out);
            hand_on_done(out, done)
        }
        Fed::Restart => {
            let done = runner.do_restart(app, out);
            hand_on_done(out, done)
        }
    }
}

// Hands on what was written of an item, where it was done.
fn hand_on_done<O: Output>(out: &mut O, done: Result<(), Cut>) -> Result<(), Cut>
    ensures kept { O.taken out.new ≡ O.taken out.old }
    ensures handed { IsHandedOn done result
        (side (O.held_back out.old) (O.faults out.old) (O.tells out.old))
        (side (O.held_back out.new) (O.faults out.new) (O.tells out.new)) }
{
    match done {
        Ok(()) => match hand_on(out) {
            Ok(()) => Ok(()),
            Err(Failed) => Err(Cut::Unwritten),
        },
        Err(cut) => Err(cut),
    }
}
