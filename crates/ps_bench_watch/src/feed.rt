// The reader of a trace that comes as a stream.

ghost use Rattle.std.specs.Prelude.{◌≡◌, ◌≢◌, ◌≤◌, ◌<◌, ◌+◌, ◌∷◌, [], ℕ, List, IsTrue, Ok, Err, None, length, min};
ghost use Rattle.std.specs.Prelude.{vec_len, IfOk, OnOk, OnErr, IsErrOf};
ghost use Rattle.ps_base.specs.declared.failing.Refusal.{Refusal};
ghost use Rattle.ps_base.specs.declared.failing.Rule.{Rule};
ghost use Rattle.ps_model.specs.Network.{input_count};
ghost use Rattle.ps_outside.specs.Outside.{Rose};
ghost use Rattle.ps_bench_watch.specs.Reading.{line_of};
ghost use Rattle.ps_lines.specs.Lines.{HasNoLineFeed};
ghost use Rattle.ps_trace.specs.Header.{input_names};
ghost use Rattle.ps_trace.specs.HeaderSays.{IsSized, header_by};
ghost use Rattle.ps_trace.specs.Scans.{at_line, number_after, said_of};
ghost use Rattle.ps_trace.specs.Trace.{line_said};
ghost use Rattle.ps_trace.specs.Trace.Said.{breaks};
ghost use Rattle.ps_trace.specs.Words.{fields};
ghost use Rattle.ps_bench_watch.specs.Came.{IsLine, header_came, is_last, line_came};
ghost use Rattle.ps_bench_watch.specs.Saying.{IsBroken, Says};
ghost use Rattle.ps_bench_watch.specs.Coming.{told_number};

use crate::lines::StreamLines;
use crate::{Came, Stream, is_end, number_behind};
use ps_base::limits::LONGEST_TRACE_LINE;
use ps_base::{Memory, Rule};
use ps_model::{App, Scan};
use ps_outside::Failed;
use ps_trace::{HeaderSays, LineSays, TraceFail, TraceStop, at_line, fill, read_header, read_line};
use std::alloc::Global;

/// What a line of a stream gives.
#[derive(Clone, Copy)]
pub(crate) enum Fed {
    /// It is skipped.
    Nothing,
    /// A restart.
    Restart,
    /// A scan.
    Scan,
    /// There is no line any more.
    End,
}

/// A reader of the trace of an application that comes as a stream, after its header. All memory that it uses is taken
/// by `start`.
pub(crate) struct Feed {
    lines: StreamLines,
    // for each input the place of its value on a scan line, and the values of a line
    places: Vec<usize>,
    values: Vec<bool>,
    // the number of the next line, which stays at its largest value
    number: u32,
    // the time of the last scan
    last: u32,
    // whether the line that came last was the stream's last one
    ended: bool,
    ghost one_each: { vec_len values ≡ vec_len places },
}

impl Drop for Feed {
    // One call for whoever owns one, in place of a walk through all that it holds.
    fn drop(self) {
        let Feed {
            lines: _,
            places: _,
            values: _,
            number: _,
            last: _,
            ended: _,
        } = self;
    }
}

impl Feed {
    ghost use Rattle.ps_bench_watch.specs.Feeding.{Breaks, Gives, IsBehind, IsHeadless};
    ghost use Rattle.ps_bench_watch.specs.Feeding.{inputs_of_feed, last_of, lines_left, waiting};
    ghost use Rattle.ps_bench_watch.specs.Streaming.{fed_lines};

    /// A reader of the trace of an application that this stream gives, after its header.
    ///
    /// `Refused` comes exactly where the header is refused, or a line before it, or there is no header (T1, at the
    /// line one past the number of line feeds). `Fault` comes only where the stream's count rose; every other answer
    /// leaves the count as it was. A number of a line is told up to 4,294,967,295.
    pub(crate) fn start<S: Stream>(
        alloc: Global,
        input: &mut S,
        app: &App,
    ) -> Result<Feed, TraceFail>
        ensures begins { IsTrue (S.tells input.old) → IfOk result (λ feed.
            IsBehind app.now (fed_lines (S.coming input.old)) feed (lines_left feed (S.coming input.new))) }
        ensures refuses { IsTrue (S.tells input.old) → (refusal : Refusal) → result ≡ Err (TraceFail.Refused refusal) →
            IsHeadless app.now (fed_lines (S.coming input.old)) refusal }
        ensures sizes { IfOk result (λ feed. inputs_of_feed feed ≡ input_count app.now) }
        ensures fresh { IfOk result (λ feed. last_of feed ≡ 0) }
        ensures fault { IsErrOf result TraceFail.Fault → Rose (S.faults input.old) (S.faults input.new) }
        ensures exact { ¬ IsErrOf result TraceFail.Fault → S.faults input.new ≡ S.faults input.old }

        ensures counts { S.faults input.old ≤ S.faults input.new }
        ensures telling { S.tells input.new ≡ S.tells input.old }
    {
        let mut lines = match StreamLines::start(alloc, LONGEST_TRACE_LINE) {
            Ok(lines) => lines,
            Err(Memory) => return Err(TraceFail::Memory),
        };
        let mut number = 1;
        'lines: for _ in 0..u64::MAX {
            let came = match lines.next_line(input) {
                Ok(came) => came,
                Err(Failed) => return Err(TraceFail::Fault),
            };
            match header_of(alloc, &lines, came, app) {
                Ok(HeaderSays::Nothing) => number = number_behind(number, came),
                Ok(HeaderSays::Broken(rule)) => return Err(TraceFail::Refused(at_line(
                    rule, number,
                ))),
                Ok(HeaderSays::Places(places)) => {
                    let values = match vec![in alloc; false; places.len()] {
                        Ok(values) => values,
                        Err(_) => return Err(TraceFail::Memory),
                    };
                    return Ok(Feed {
                        lines,
                        places,
                        values,
                        number: number_behind(number, came),
                        last: 0,
                        ended: is_last(came),
                    });
                }
                Err(Memory) => return Err(TraceFail::Memory),
            }
        }
        Err(TraceFail::Memory)
    }

    /// What the next line gives, as soon as it is there. It takes no memory.
    ///
    /// With `Fed::Scan` the scan stands in `into`; with every other answer `into` is as before. `Fault` comes only
    /// where the stream's count rose in this call, at the one read that failed: every whole line that was read has
    /// come, and a later call goes on with the same line. Every other answer leaves the count as it was.
    pub(crate) fn next_item<S: Stream>(
        &mut self,
        input: &mut S,
        into: &mut Scan,
    ) -> Result<Fed, TraceStop>
        requires sizes { length into.old.ins ≡ inputs_of_feed self.old }
        ensures gives { IsTrue (S.tells input.old) → IfOk result (λ fed. Gives fed self.old self.new into.old into.new
            (lines_left self.old (S.coming input.old)) (lines_left self.new (S.coming input.new))) }
        ensures refuses { IsTrue (S.tells input.old) → (refusal : Refusal) → result ≡ Err (TraceStop.Refused refusal) →
            Breaks self.old (lines_left self.old (S.coming input.old)) refusal }
        ensures same_line { IsTrue (S.tells input.old) → IsErrOf result TraceStop.Fault →
            lines_left self.new (S.coming input.new) ≡ lines_left self.old (S.coming input.old) }
        ensures all_came { IsErrOf result TraceStop.Fault → HasNoLineFeed (waiting self.new) }
        ensures fits { length into.new.ins ≡ length into.old.ins }
        ensures rises { OnOk result (last_of self.old ≤ last_of self.new) }
        ensures time { result ≡ Ok Fed.Scan → last_of self.new ≡ into.new.now }
        ensures same_time { OnErr result (last_of self.new ≡ last_of self.old) }
        ensures places { self.new.places ≡ self.old.places }
        ensures fault { IsErrOf result TraceStop.Fault → Rose (S.faults input.old) (S.faults input.new) }
        ensures exact { ¬ IsErrOf result TraceStop.Fault → S.faults input.new ≡ S.faults input.old }

        ensures counts { S.faults input.old ≤ S.faults input.new }
        ensures telling { S.tells input.new ≡ S.tells input.old }
    {
        if self.ended {
            return Ok(Fed::End);
        }
        let came = match self.lines.next_line(input) {
            Ok(came) => came,
            Err(Failed) => return Err(TraceStop::Fault),
        };
        if is_end(came) {
            return Ok(Fed::End);
        }
        match came {
            Came::TooLong => Err(TraceStop::Refused(at_line(Rule::T8, self.number))),
            Came::Line | Came::LastLine | Came::End => self.take_line(came, into),
        }
    }

    // What the line that came last gives, and the next number.
    fn take_line(&mut self, came: Came, into: &mut Scan) -> Result<Fed, TraceStop>
        requires sizes { length into.old.ins ≡ inputs_of_feed self.old }
        requires line { IsLine came }
        ensures says { IfOk result (λ fed. Says fed self.old.places.items self.old.last self.new.last into.old into.new
            (said_of (length self.old.places.items) self.old.last (line_came came (line_of self.old.lines)))) }
        ensures breaks { (refusal : Refusal) → result ≡ Err (TraceStop.Refused refusal) →
            IsBroken (length self.old.places.items) self.old.last self.old.number
            (line_came came (line_of self.old.lines)) refusal }
        ensures shown { OnOk result ((number : ℕ) → self.old.number ≡ told_number number →
            self.new.number ≡ told_number (number_after (line_came came (line_of self.old.lines)) number)) }
        ensures ended { OnOk result (self.new.ended ≡ is_last came) }
        ensures no_fault { ¬ IsErrOf result TraceStop.Fault }
        ensures fits { length into.new.ins ≡ length into.old.ins }
        ensures rises { OnOk result (self.old.last ≤ self.new.last) }
        ensures time { result ≡ Ok Fed.Scan → self.new.last ≡ into.new.now }
        ensures same_time { OnErr result (self.new.last ≡ self.old.last) }
        ensures lines { self.new.lines ≡ self.old.lines }
        ensures places { self.new.places ≡ self.old.places }
    {
        match self.read_item(into) {
            Ok(fed) => {
                self.number = number_behind(self.number, came);
                self.ended = is_last(came);
                Ok(fed)
            }
            Err(rule) => Err(TraceStop::Refused(at_line(rule, self.number))),
        }
    }

    // What the line that came last gives, or the rule that refuses it.
    fn read_item(&mut self, into: &mut Scan) -> Result<Fed, Rule>
        requires sizes { length into.old.ins ≡ inputs_of_feed self.old }
        ensures says { IfOk result (λ fed. Says fed self.old.places.items self.old.last self.new.last into.old into.new
            (line_said (length self.old.places.items) self.old.last (fields (line_of self.old.lines)))) }
        ensures breaks { (rule : Rule) → result ≡ Err rule →
            line_said (length self.old.places.items) self.old.last (fields (line_of self.old.lines)) ≡ breaks rule }
        ensures fits { length into.new.ins ≡ length into.old.ins }
        ensures rises { OnOk result (self.old.last ≤ self.new.last) }
        ensures time { result ≡ Ok Fed.Scan → self.new.last ≡ into.new.now }
        ensures same_time { OnErr result (self.new.last ≡ self.old.last) }
        ensures lines { self.new.lines ≡ self.old.lines }
        ensures places { self.new.places ≡ self.old.places }
        ensures number { self.new.number ≡ self.old.number }
        ensures ended { self.new.ended ≡ self.old.ended }
    {
        match read_line(self.lines.line(), self.last, &mut self.values) {
            LineSays::Nothing => Ok(Fed::Nothing),
            LineSays::Restart => Ok(Fed::Restart),
            LineSays::Scan(now) => {
                self.last = now;
                fill(into, now, &self.places, &self.values);
                Ok(Fed::Scan)
            }
            LineSays::Broken(rule) => Err(rule),
        }
    }
}

// What came of a stream says as a header.
fn header_of(
    alloc: Global,
    lines: &StreamLines,
    came: Came,
    app: &App,
) -> Result<HeaderSays, Memory>
    ensures says { IfOk result (λ says. header_by says ≡ header_came (input_names app.now) came (line_of lines.now)) }
    ensures sized { IfOk result (IsSized (input_count app.now)) }
{
    match came {
        Came::Line | Came::LastLine => read_header(alloc, lines.line(), app),
        Came::TooLong => Ok(HeaderSays::Broken(Rule::T8)),
        Came::End => Ok(HeaderSays::Broken(Rule::T1)),
    }
}

// Whether a line is the stream's last one.
fn is_last(came: Came) -> bool
    ensures { result ≡ is_last came }
{
    matches!(came, Came::LastLine)
}
