// What a command answers, and how a call ends by that.

ghost use Rattle.std.specs.Prelude.{◌≡◌, IfOk};
ghost use Rattle.ps_report.specs.Short.{refusal_text};
ghost use Rattle.ps_bench_frame.specs.Answering.{Ends, EndsWith, WritesEnd, end_of, input_stop_text, stop_text};

use crate::call::Call;
use crate::ending::{InputStop, Status, Stop};
use crate::refusing::{log_refused_line, refused_line, rules_refused_line, sum_refused_line};
use ps_base::{Bytes, Memory, Refusal};
use ps_report::refusal_line;
use std::alloc::Global;

/// What a command answers that nothing stopped.
pub struct Answer {
    /// What is written at its end.
    pub text: Bytes,
    /// How it ends.
    pub status: Status,
}

impl Drop for Answer {
    // One call for whoever owns one, in place of a walk through all that it holds.
    fn drop(self) {
        let Answer { text: _, status: _ } = self;
    }
}

// The line of a refusal by a rule of a text.
fn text_line(alloc: Global, refusal: &Refusal) -> Result<Bytes, Memory>
    ensures { IfOk result (λ line. line ≡ refusal_text refusal.now) }
{
    let mut text = Bytes::new(alloc);
    text.extend_from_slice(refusal_line(refusal).as_slice())?;
    Ok(text)
}

// The line of a refusal of what a run is made of; nothing where a call stops for another reason.
fn input_stop_line(alloc: Global, why: InputStop) -> Result<Bytes, Memory>
    ensures { IfOk result (λ line. line ≡ input_stop_text why) }
{
    match why {
        InputStop::Refused(_, refusal) | InputStop::OtherRefused(refusal) => text_line(
            alloc, &refusal,
        ),
        InputStop::RulesRefused(refusal) => rules_refused_line(alloc, refusal),
        InputStop::LogRefused(refusal) => log_refused_line(alloc, refusal),
        InputStop::SumRefused(refusal) => sum_refused_line(alloc, refusal),
        InputStop::Unlike | InputStop::Unread(_) => Ok(Bytes::new(alloc)),
    }
}

// The line of a refusal; nothing where a call stops for another reason.
fn stop_line(alloc: Global, stop: Stop) -> Result<Bytes, Memory>
    ensures { IfOk result (λ line. line ≡ stop_text stop) }
{
    match stop {
        Stop::App(refusal) => text_line(alloc, &refusal),
        Stop::Cases(_, refusal) => refused_line(alloc, refusal),
        Stop::Input(why) => input_stop_line(alloc, why),
        Stop::UnreadApp | Stop::UnreadCases(_) | Stop::Unwritten | Stop::NoMemory => Ok(Bytes::new(
            alloc,
        )),
    }
}

// Writes the last text of a call, which ends so.
fn write_end<C: Call>(call: &mut C, text: &[u8], end: Result<Status, Stop>) -> Result<Status, Stop>
    ensures ends { EndsWith text.now end (C.seen call.old).out.tells (C.seen call.old).out.taken
        (C.seen call.new).out.taken result }
    ensures leaves { WritesEnd end (C.seen call.old) (C.seen call.new) result }
{
    if text.is_empty() {
        return end;
    }
    match call.write(text) {
        Ok(()) => end,
        Err(_) => Err(Stop::Unwritten),
    }
}

/// Ends a call that came to this: its text is written, or the line of the refusal at which it stops.
pub fn finish<C: Call>(call: &mut C, came: Result<Answer, Stop>) -> Result<Status, Stop>
    ensures ends { Ends came (C.seen call.old).out.tells (C.seen call.old).out.taken (C.seen call.new).out.taken result }
    ensures leaves { WritesEnd (end_of came) (C.seen call.old) (C.seen call.new) result }
{
    match came {
        Ok(answer) => write_end(call, answer.text.as_slice(), Ok(answer.status)),
        Err(stop) => match stop_line(call.alloc(), stop) {
            Ok(line) => write_end(call, line.as_slice(), Err(stop)),
            Err(Memory) => Err(Stop::NoMemory),
        },
    }
}
