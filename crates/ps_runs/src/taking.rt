//! What takes what comes of each item of a trace.

ghost use Rattle.std.specs.Prelude.{◌≡◌, ◌≤◌, ◌<◌, ◌^◌, ◌+◌, ◌++◌, ℕ, List, IsTrue, OnOk, OnErr, codes, length, ⊤};
ghost use Rattle.ps_model.specs.Network.{Network, instance_count};
ghost use Rattle.ps_outside.specs.Outside.{Rose};
ghost use Rattle.ps_report.specs.Lines.{line_room};
ghost use Rattle.ps_runs.specs.Lines.{outvoted_line, seat_letter};
ghost use Rattle.ps_runs.specs.Outcomes.{Outcome, performed, anew, outcome_line, vote_lines, IsTold};
ghost use Rattle.ps_runs.specs.Written.{IsWritten};

use crate::performing::Performer;
use crate::seats::StruckSeats;
use crate::striking::StruckWorld;
use ps_model::{App, Report, Verdict};
use ps_outside::{Sink, Stopped, write_all};
use ps_report::{LineBuffer, ShortLine};
use ps_vote::{Seat, Vote};

/// What takes what comes of each scan: its time, the performer's verdict, the report, and the performer as it stands
/// after the scan. It is told of each restart too. It may write of them.
///
/// Contracts know of it when it has the application's sizes, what it writes of an outcome, and what it becomes by
/// taking one. No call takes memory.
pub trait Taker<P: Performer> {
    /// It has the application's sizes.
    ghost fits: { Network → Self → Type 0 };

    /// What is written of an outcome that leaves this performer.
    ghost said: { Network → Self → P → Outcome P.Verdict → List ℕ };

    /// The outcome, which leaves this performer, leaves the second taker where the first one was.
    ghost takes: { Network → Self → P → Outcome P.Verdict → Self → Type 0 };

    /// Takes what came of a scan at a time in ms.
    ///
    /// `Stopped` comes only where the sink's count rose in this call, with the number of bytes that were taken.
    fn take_scan<S: Sink>(
        &mut self,
        app: &App,
        now: u32,
        verdict: P::Verdict,
        report: &Report,
        performer: &P,
        out: &mut S,
    ) -> Result<(), Stopped>
        requires fits { fits app.now self.old }
        requires performer { P.fits app.now performer.now }
        requires outputs { length report.now.outs ≡ length app.now.outputs }
        requires diagnoses { length report.now.diags ≡ instance_count app.now }
        ensures takes { OnOk result (takes app.now self.old performer.now (performed now verdict report.now) self.new) }
        ensures written { IsTrue (S.tells out.old) →
            IsWritten result (said app.now self.old performer.now (performed now verdict report.now))
            (S.taken out.old) (S.taken out.new) }
        ensures fits { fits app.now self.new }
        ensures stopped { OnErr result (Rose (S.faults out.old) (S.faults out.new)) }
        ensures exact { OnOk result (S.faults out.new ≡ S.faults out.old) }
        ensures counts { S.faults out.old ≤ S.faults out.new }
        ensures telling { S.tells out.new ≡ S.tells out.old };

    /// Takes that all began anew. `Stopped` comes as for a scan.
    fn take_restart<S: Sink>(
        &mut self,
        app: &App,
        performer: &P,
        out: &mut S,
    ) -> Result<(), Stopped>
        requires fits { fits app.now self.old }
        requires performer { P.fits app.now performer.now }
        ensures takes { OnOk result (takes app.now self.old performer.now anew self.new) }
        ensures written { IsTrue (S.tells out.old) →
            IsWritten result (said app.now self.old performer.now anew) (S.taken out.old) (S.taken out.new) }
        ensures fits { fits app.now self.new }
        ensures stopped { OnErr result (Rose (S.faults out.old) (S.faults out.new)) }
        ensures exact { OnOk result (S.faults out.new ≡ S.faults out.old) }
        ensures counts { S.faults out.old ≤ S.faults out.new }
        ensures telling { S.tells out.new ≡ S.tells out.old };
}

/// The lines of a run: one for each item, written by one `write_all`.
impl Taker<StruckWorld> for LineBuffer {
    ghost fits = { λ net room. line_room net ≤ room };

    ghost said = { λ net _ _ outcome. outcome_line net outcome };

    ghost takes = { λ _ _ _ _ _. ⊤ };

    fn take_scan<S: Sink>(
        &mut self,
        app: &App,
        now: u32,
        verdict: Verdict,
        report: &Report,
        _performer: &StruckWorld,
        out: &mut S,
    ) -> Result<(), Stopped> {
        match verdict {
            Verdict::Released => write_all(out, self.report_line(app, now, report)),
            Verdict::Tripped(cause) => write_all(out, self.trip_line(app, now, Some(cause))),
            Verdict::Down => write_all(out, self.trip_line(app, now, None)),
        }
    }

    fn take_restart<S: Sink>(
        &mut self,
        _app: &App,
        _performer: &StruckWorld,
        out: &mut S,
    ) -> Result<(), Stopped> {
        write_all(out, b"restart\n")
    }
}

// A seat's letter.
fn letter(seat: Seat) -> &'static str
    ensures letter { result.now ≡ seat_letter seat }
    ensures len { length result.now ≡ 1 }
{
    match seat {
        Seat::A => "A",
        Seat::B => "B",
        Seat::C => "C",
    }
}

// The line of a scan that outvotes a seat, as `20 OUTVOTED A`.
fn outvoted_line(now: u32, seat: Seat) -> ShortLine
    ensures { result ≡ outvoted_line now seat }
{
    let mut line = ShortLine::of("");
    line.put_count(now);
    line.put(" OUTVOTED ");
    line.put(letter(seat));
    line.put("\n");
    line
}

// Writes two lines, one after the other, each by one `write_all`.
fn write_both<S: Sink>(out: &mut S, first: &[u8], second: &[u8]) -> Result<(), Stopped>
    requires { length first.now + length second.now < 2 ^ 64 }
    ensures written { IsTrue (S.tells out.old) →
        IsWritten result (first.now ++ second.now) (S.taken out.old) (S.taken out.new) }
    ensures stopped { OnErr result (Rose (S.faults out.old) (S.faults out.new)) }
    ensures counts { S.faults out.old ≤ S.faults out.new }
    ensures exact { OnOk result (S.faults out.new ≡ S.faults out.old) }
    ensures telling { S.tells out.new ≡ S.tells out.old }
{
    write_all(out, first)?;
    match write_all(out, second) {
        Ok(()) => Ok(()),
        Err(stop) => Err(Stopped {
            taken: first.len() + stop.taken,
        }),
    }
}

/// The lines of a run of three seats: one for each item, and after that of a scan which outvotes a seat one more.
impl Taker<StruckSeats> for LineBuffer {
    ghost fits = { λ net room. line_room net ≤ room };

    ghost said = { λ net _ _ outcome. vote_lines net outcome };

    ghost takes = { λ _ _ _ outcome _. IsTold outcome };

    fn take_scan<S: Sink>(
        &mut self,
        app: &App,
        now: u32,
        vote: Vote,
        report: &Report,
        _performer: &StruckSeats,
        out: &mut S,
    ) -> Result<(), Stopped> {
        let line = self.report_line(app, now, report);
        match vote {
            Vote::Two(seat) => write_both(out, line, outvoted_line(now, seat).as_slice()),
            Vote::All | Vote::Split => write_all(out, line),
        }
    }

    fn take_restart<S: Sink>(
        &mut self,
        _app: &App,
        _performer: &StruckSeats,
        out: &mut S,
    ) -> Result<(), Stopped> {
        write_all(out, b"restart\n")
    }
}
