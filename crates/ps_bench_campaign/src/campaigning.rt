// `campaign APP TRACE FROM COUNT`: what the faults of trials come to.

ghost use Rattle.std.specs.Prelude.{◌≡◌, ◌≤◌, ◌∷◌, [], ℕ, List, Any, Some, Ok, IsTrue, IfOk, IfErr, IsErrOf};
ghost use Rattle.ps_bench_frame.specs.Ending.{IsUnread};
ghost use Rattle.ps_bench_frame.specs.Meant.{file_meant};
ghost use Rattle.ps_bench_frame.specs.Opening.{Source, source};
ghost use Rattle.ps_bench_frame.specs.Stopping.{Took, TookSome};
ghost use Rattle.ps_bench_campaign.specs.Asking.{AnswersCampaign, AnswersIn, StopsCampaign, wanted_by};
ghost use Rattle.ps_bench_campaign.specs.Leaving.{Leaves, LeavesOutput, sides};
ghost use Rattle.ps_bench_campaign.specs.Remarking.{HearsCampaign};
ghost use Rattle.ps_bench_messages.specs.Remarking.{RemarksIf};
ghost use Rattle.ps_edge.specs.Hearing.{listener_seen};
ghost use Rattle.ps_model.specs.Typing.{Accepted};
ghost use Rattle.ps_model.specs.declared.channel.Fault.{Fault as FaultOf};
ghost use Rattle.ps_outside.specs.Outside.{Rose};
ghost use Rattle.ps_bench_trials.specs.Naming.{Names};
ghost use Rattle.ps_bench_trace.specs.Playing.{MeansPlay};
ghost use Rattle.ps_bench_trace.specs.Remarking.{TellsNoCase};

use crate::recording::record_play;
use crate::telling::campaign_text;
use crate::trials::Campaign;
use ps_base::{Bytes, Memory};
use ps_bench_frame::{Opened, Status, Stop, open_app};
use ps_bench_trace::{Expansion, Play, open_play};
use ps_bench_trials::digest_of_text;
use ps_edge::KnownListener;
use ps_outside::{Files, Output, write_all};
use std::alloc::Global;

/// What `campaign` is asked.
#[derive(Clone, Copy)]
pub struct Asked<'a> {
    /// The name of the application.
    pub app: &'a str,
    /// The word in the place of a trace.
    pub trace: &'a str,
    /// Which trials are made.
    pub trials: Campaign,
    /// Whether their faults are written, as lines of a fault file.
    pub print: bool,
}

/// Writes a text, all of which is told.
pub(crate) fn write_told<O: Output>(out: &mut O, text: &[u8]) -> Result<Status, Stop>
    ensures all { IfOk result (λ status. (status ≡ Status.Done)
        × Took text.now (O.tells out.old) (O.taken out.old) (O.taken out.new)) }
    ensures some { IfErr result (λ stop. (stop ≡ Stop.Unwritten)
        × TookSome text.now (O.tells out.old) (O.taken out.old) (O.taken out.new)) }
    ensures leaves { LeavesOutput (O.tells out.old) (O.tells out.new) (O.faults out.old) (O.faults out.new) result }
{
    match write_all(out, text) {
        Ok(()) => Ok(Status::Done),
        Err(_) => Err(Stop::Unwritten),
    }
}

// Makes the trials over the trace of these cases, or else of the file that the word for the trace names. `name` names the
// application.
fn campaign_play<F: Files, O: Output>(
    alloc: Global,
    files: &mut F,
    out: &mut O,
    opened: &Opened,
    asked: &Asked<'_>,
    name: &Bytes,
    cases: Option<Expansion>,
) -> Result<Status, Stop>
    requires accepted { Accepted opened.now.app }
    requires named { IsTrue (F.tells files.old) → Names (F.held files.old asked.now.app.now) name.now }
    requires means { (brought : List FaultOf) × MeansPlay
        (source opened.now.app opened.now.sizes (F.tells files.old) (F.held files.old))
        asked.now.trace.now cases brought }
    ensures answers { AnswersIn (source opened.now.app opened.now.sizes (F.tells files.old) (F.held files.old))
        asked.now.app.now (wanted_by asked.now) (O.tells out.old) (O.taken out.old) (O.taken out.new) result }
    ensures leaves { Leaves
        (Rose (F.faults files.old (file_meant asked.now.trace.now)) (F.faults files.new (file_meant asked.now.trace.now)))
        (sides (F.faults files.old) (O.tells out.old) (O.faults out.old))
        (sides (F.faults files.new) (O.tells out.new) (O.faults out.new)) result }
    ensures done { IfOk result (λ status. status ≡ Status.Done) }
{
    let recorded = match record_play(alloc, files, out, &opened.app, asked.trace, cases) {
        Ok(recorded) => recorded,
        Err(stop) => return Err(stop),
    };
    match campaign_text(alloc, &opened.app, asked, name.as_slice(), &recorded) {
        Ok(text) => write_told(out, text.as_slice()),
        Err(Memory) => Err(Stop::NoMemory),
    }
}

// Makes the trials on an application, over what the word for the trace means.
fn campaign_app<F: Files, O: Output, L: KnownListener>(
    alloc: Global,
    files: &mut F,
    out: &mut O,
    listener: &mut L,
    opened: &Opened,
    asked: &Asked<'_>,
) -> Result<Status, Stop>
    requires accepted { Accepted opened.now.app }
    requires text { IsTrue (F.tells files.old) → F.held files.old asked.now.app.now ≡ Some opened.now.text }
    ensures answers { AnswersIn (source opened.now.app opened.now.sizes (F.tells files.old) (F.held files.old))
        asked.now.app.now (wanted_by asked.now) (O.tells out.old) (O.taken out.old) (O.taken out.new) result }
    ensures leaves { Leaves (Any (λ (name : List ℕ). Rose (F.faults files.old name) (F.faults files.new name))
        (asked.now.app.now ∷ file_meant asked.now.trace.now ∷ []))
        (sides (F.faults files.old) (O.tells out.old) (O.faults out.old))
        (sides (F.faults files.new) (O.tells out.new) (O.faults out.new)) result }
    ensures told { IsTrue (L.tells listener.old) → RemarksIf (result ≡ Ok Status.Usage) (TellsNoCase
        (source opened.now.app opened.now.sizes (F.tells files.old) (F.held files.old)) asked.now.trace.now)
        (listener_seen L.quiet L.heard L.reads L.unread L.room listener.old) (L.heard listener.new) }
    ensures listening { L.tells listener.new ≡ L.tells listener.old }
{
    let name = match digest_of_text(alloc, opened.text.as_slice()) {
        Ok(name) => name,
        Err(Memory) => return Err(Stop::NoMemory),
    };
    match open_play(alloc, files, out, listener, opened, asked.trace) {
        Ok(Some(play)) => {
            let Play { cases, faults: _ } = play;
            campaign_play(alloc, files, out, opened, asked, &name, cases)
        }
        Ok(None) => Ok(Status::Usage),
        Err(stop) => Err(stop),
    }
}

/// `campaign APP TRACE FROM COUNT`: makes COUNT trials on the application, numbered from FROM on, each a run of the
/// trace with the one fault that is drawn from its number, and writes how many of them were silent and how many
/// tripped, by channel, region and cause, with the latencies. No trial is wrong, which `none_is_wrong` of this crate
/// says. In the place of a trace may stand a case file, for the trace of all of its cases, or a case file and a line of
/// it, for the case that has this line; faults of cases do not strike. Where the faults are to be written, they stand
/// before all else.
///
/// The status is Done. It is Usage where the line of the word is in no case: that is told, and nothing is written.
/// Where the application, the case file or the trace is refused, the line of the refusal is written in the place of all
/// else. Memory is taken for the trace, for at most 65 worlds and for the faults that are written; nothing is written
/// before all is there.
///
/// A file that cannot be read is one of the two, whose count of the files rose in this call; `Unwritten` comes only
/// where the output's count rose.
pub fn campaign<F: Files, O: Output, L: KnownListener>(
    alloc: Global,
    files: &mut F,
    out: &mut O,
    listener: &mut L,
    asked: &Asked<'_>,
) -> Result<Status, Stop>
    ensures answers { IfOk result (AnswersCampaign asked.now.app.now (wanted_by asked.now)
        (F.tells files.old) (F.held files.old) (O.tells out.old) (O.taken out.old) (O.taken out.new)) }
    ensures stops { IfErr result (StopsCampaign asked.now.app.now (wanted_by asked.now)
        (F.tells files.old) (F.held files.old) (O.tells out.old) (O.taken out.old) (O.taken out.new)) }
    ensures unread { IfErr result (λ stop. IsUnread stop →
        Any (λ (name : List ℕ). Rose (F.faults files.old name) (F.faults files.new name))
        (asked.now.app.now ∷ file_meant asked.now.trace.now ∷ [])) }
    ensures unwritten { IsErrOf result Stop.Unwritten → Rose (O.faults out.old) (O.faults out.new) }
    ensures writes { O.faults out.old ≤ O.faults out.new }
    ensures telling { O.tells out.new ≡ O.tells out.old }
    ensures told { IsTrue (L.tells listener.old) → HearsCampaign asked.now.app.now (wanted_by asked.now)
        (F.tells files.old) (F.held files.old) result
        (listener_seen L.quiet L.heard L.reads L.unread L.room listener.old) (L.heard listener.new) }
    ensures listening { L.tells listener.new ≡ L.tells listener.old }
{
    match open_app(alloc, files, out, asked.app) {
        Ok(opened) => campaign_app(alloc, files, out, listener, &opened, asked),
        Err(stop) => Err(stop),
    }
}
