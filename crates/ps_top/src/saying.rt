// Short answers, answers of several lines, and how a call ends that gets no text.

ghost use Rattle.std.specs.Prelude.{◌≡◌, ◌≢◌, ◌<◌, ◌≤◌, ◌-◌, ◌++◌, IsTrue, IsErr, IfErr, OnOk, drop, length};
ghost use Rattle.std.specs.Prelude.{slice_index, take};
ghost use Rattle.ps_report.specs.Short.{refusal_text};
ghost use Rattle.ps_top.specs.Asking.{worked};
ghost use Rattle.ps_top.specs.Calls.{LeavesRefusal, SaysAnswer, Writes};
ghost use Rattle.ps_top.specs.Lines.{IsLineOf};
ghost use Rattle.ps_top.specs.Meets.{IsCut};
ghost use Rattle.ps_top.specs.Program.{answer};
ghost use Rattle.ps_top.specs.Refusing.{Fails, SaysNone};

use crate::Status;
use crate::call::Call;
use crate::left::Leaving;
use ps_base::{Fail, Refusal};
use ps_outside::{Stopped, TextFail};
use ps_report::refusal_line;

// Gives one line as the whole answer, with this status.
pub(crate) fn say<C: Call>(call: &mut C, line: &[u8], status: Status) -> Status
    requires { ¬ IsCut status }
    ensures says { SaysAnswer (answer line.now status) (C.seen call.old) (C.seen call.new) result }
    ensures left { (C.seen call.new).left ≡ (C.seen call.old).left }
{
    match call.write(line) {
        Ok(()) => status,
        Err(_) => Status::WriteFault,
    }
}

// Gives the line of a refusal as the whole answer, with this status, and leaves the refusal.
pub(crate) fn say_refused<C: Call>(call: &mut C, refusal: &Refusal, status: Status) -> Status
    requires { ¬ IsCut status }
    ensures says { SaysAnswer (answer (refusal_text refusal.now) status) (C.seen call.old) (C.seen call.new) result }
    ensures worked { worked (C.seen call.new).left ≡ worked (C.seen call.old).left }
    ensures refuses { LeavesRefusal (C.seen call.new).left (C.seen call.new).out result }
{
    call.leave(Leaving::Refusal(*refusal));
    say(call, refusal_line(refusal).as_slice(), status)
}

// Ends a call that gets no text: its refusal is said, with this status, and left; a failed read and running out of memory are
// told by the status alone.
pub(crate) fn fail<C: Call>(call: &mut C, why: TextFail, status: Status) -> Status
    requires no_cut { ¬ IsCut status }
    requires no_usage { status ≢ Status.Usage }
    ensures fails { Fails status why (C.seen call.old) (C.seen call.new) result }
    ensures worked { worked (C.seen call.new).left ≡ worked (C.seen call.old).left }
    ensures refuses { LeavesRefusal (C.seen call.new).left (C.seen call.new).out result }
    ensures no_usage { result ≢ Status.Usage }
{
    match why {
        TextFail::Refused(refusal) => say_refused(call, &refusal, status),
        TextFail::Memory => Status::Memory,
        TextFail::Fault => Status::ReadFault,
    }
}

// Ends a call whose source gives nothing by the rules: its refusal is said and left, and of running out of memory the status
// tells.
pub(crate) fn say_none<C: Call>(call: &mut C, why: Fail) -> Status
    ensures says { SaysNone why (C.seen call.old) (C.seen call.new) result }
    ensures worked { worked (C.seen call.new).left ≡ worked (C.seen call.old).left }
    ensures refuses { LeavesRefusal (C.seen call.new).left (C.seen call.new).out result }
    ensures no_usage { result ≢ Status.Usage }
{
    match why {
        Fail::Refused(refusal) => say_refused(call, &refusal, Status::Refused),
        Fail::Memory => Status::Memory,
    }
}

// Gives a text of lines as the whole answer, with this status. Each line is written by itself.
pub(crate) fn say_lines<C: Call>(call: &mut C, text: &[u8], status: Status) -> Status
    requires { ¬ IsCut status }
    ensures says { SaysAnswer (answer text.now status) (C.seen call.old) (C.seen call.new) result }
    ensures left { (C.seen call.new).left ≡ (C.seen call.old).left }
{
    let mut done = 0;
    'lines: while done < text.len() {
        let end = line_end(text, done);
        match write_line(call, text, done, end) {
            Ok(()) => done = end,
            Err(_) => return Status::WriteFault,
        }
    }
    status
}

// Writes one whole line of a text, by one write.
fn write_line<C: Call>(call: &mut C, text: &[u8], from: usize, upto: usize) -> Result<(), Stopped>
    requires { IsLineOf text.now from upto }
    ensures whole { IsTrue (C.seen call.old).out.tells →
        OnOk result ((C.seen call.new).out.taken ≡ (C.seen call.old).out.taken ++
        take (upto - from) (drop from text.now)) }
    ensures part { IsTrue (C.seen call.old).out.tells → IfErr result (λ stop.
        (C.seen call.new).out.taken ≡ (C.seen call.old).out.taken ++
        take stop.taken (take (upto - from) (drop from text.now))) }
    ensures within { IfErr result (λ stop. stop.taken ≤ upto - from) }
    ensures writes { Writes (IsErr result) (C.seen call.old) (C.seen call.new) }
    ensures left { (C.seen call.new).left ≡ (C.seen call.old).left }
{
    call.write(&text[from..upto])
}

// The place after the line that begins at a place: after its line feed, or the end of the text.
fn line_end(text: &[u8], from: usize) -> usize
    requires within { from < length text.now }
    requires begins { 0 < from → slice_index text.now (from - 1) ≡ 10 }
    ensures { IsLineOf text.now from result }
{
    for i in from..text.len() {
        if text[i] == b'\n' {
            return i + 1;
        }
    }
    text.len()
}
