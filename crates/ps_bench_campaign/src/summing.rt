// `sum FILE..`: what campaigns in parts counted, added.

ghost use Rattle.std.specs.Prelude.{◌≡◌, ◌≤◌, ◌<◌, ◌∷◌, ℕ, List, Any, IsTrue, IfOk, IfErr, IsErrOf, length, map};
ghost use Rattle.ps_bench_frame.specs.Ending.{IsUnread};
ghost use Rattle.ps_bench_frame.specs.Stopping.{Took};
ghost use Rattle.ps_bench_campaign.specs.Summing.{AnswersNames, AnswersSum, RefusedBy, StopsSum};
ghost use Rattle.ps_outside.specs.Outside.{Rose};
ghost use Rattle.ps_bench_trials.specs.Sums.{text_of};

use crate::campaigning::write_told;
use ps_base::{Bytes, Memory};
use ps_bench_frame::{Input, InputStop, Status, Stop, sum_refused_line};
use ps_bench_trials::{SumRefusal, SumStop, Totals, add_totals, sum_files};
use ps_outside::{Files, Output, write_all};
use std::alloc::Global;

// Ends a call at a file that is refused: the line of the refusal is written.
fn refuse_sum<O: Output>(alloc: Global, out: &mut O, refusal: SumRefusal) -> Stop
    ensures refuses { RefusedBy refusal (O.tells out.old) (O.taken out.old) (O.taken out.new) result }
    ensures read { ¬ IsUnread result }
    ensures unwritten { result ≡ Stop.Unwritten → Rose (O.faults out.old) (O.faults out.new) }
    ensures writes { O.faults out.old ≤ O.faults out.new }
    ensures telling { O.tells out.new ≡ O.tells out.old }
{
    match sum_refused_line(alloc, refusal) {
        Ok(line) => match write_all(out, line.as_slice()) {
            Ok(()) => Stop::Input(InputStop::SumRefused(refusal)),
            Err(_) => Stop::Unwritten,
        },
        Err(Memory) => Stop::NoMemory,
    }
}

// The text of counts.
fn text_of(alloc: Global, total: &Totals) -> Result<Bytes, Memory>
    ensures { IfOk result (λ text. text ≡ text_of total.now) }
{
    let mut text = Bytes::new(alloc);
    add_totals(
        &mut text,
        total.app.as_slice(),
        total.trace.as_slice(),
        &total.tally,
    )?;
    Ok(text)
}

// Adds what the files of these names tell, and writes it.
fn sum_named<F: Files, O: Output>(
    alloc: Global,
    files: &mut F,
    out: &mut O,
    first: &str,
    others: &[&str],
) -> Result<Status, Stop>
    ensures answers { AnswersNames (first.now ∷ map (λ name. name.now) others.now) (F.tells files.old) (F.held files.old)
        (O.tells out.old) (O.taken out.old) (O.taken out.new) result }
    ensures unread { IfErr result (λ stop. IsUnread stop →
        Any (λ (name : List ℕ). Rose (F.faults files.old name) (F.faults files.new name))
        (first.now ∷ map (λ name. name.now) others.now)) }
    ensures unwritten { IsErrOf result Stop.Unwritten → Rose (O.faults out.old) (O.faults out.new) }
    ensures writes { O.faults out.old ≤ O.faults out.new }
    ensures telling { O.tells out.new ≡ O.tells out.old }
{
    match sum_files(alloc, files, first, others) {
        Ok(total) => match text_of(alloc, &total) {
            Ok(text) => write_told(out, text.as_slice()),
            Err(Memory) => Err(Stop::NoMemory),
        },
        Err(SumStop::Refused(refusal)) => Err(refuse_sum(alloc, out, refusal)),
        Err(SumStop::Unread(place)) => Err(Stop::Input(InputStop::Unread(Input::TraceAt(place)))),
        Err(SumStop::NoMemory) => Err(Stop::NoMemory),
    }
}

/// `sum FILE..`: adds what the files of these names tell, each of which `campaign` wrote without its faults, or `sum`,
/// over one application and one trace, and writes it as they do. So what is written of campaigns over parts of the
/// trials is what one campaign over all of them writes, which `parts_sum_up` of this crate says, whatever the order of
/// the files (`any_order` of ps_bench_trials).
///
/// The status is Done; it is Usage where no file is named, and then nothing is written. All files are read before
/// anything is written. Where one is refused, by a rule U, the line of the refusal is written in the place of all else.
/// Memory is taken for one file at a time.
///
/// A file that cannot be read is one of these, whose count of the files rose in this call; `Unwritten` comes only where
/// the output's count rose.
pub fn sum<F: Files, O: Output>(
    alloc: Global,
    files: &mut F,
    out: &mut O,
    names: &[&str],
) -> Result<Status, Stop>
    ensures answers { IfOk result (AnswersSum (map (λ name. name.now) names.now) (F.tells files.old) (F.held files.old)
        (O.tells out.old) (O.taken out.old) (O.taken out.new)) }
    ensures stops { IfErr result (StopsSum (map (λ name. name.now) names.now) (F.tells files.old) (F.held files.old)
        (O.tells out.old) (O.taken out.old) (O.taken out.new)) }
    ensures unread { IfErr result (λ stop. IsUnread stop →
        Any (λ (name : List ℕ). Rose (F.faults files.old name) (F.faults files.new name))
        (map (λ name. name.now) names.now)) }
    ensures unwritten { IsErrOf result Stop.Unwritten → Rose (O.faults out.old) (O.faults out.new) }
    ensures writes { O.faults out.old ≤ O.faults out.new }
    ensures telling { O.tells out.new ≡ O.tells out.old }
{
    match names.split_first() {
        Some((first, others)) => sum_named(alloc, files, out, *first, others),
        None => Ok(Status::Usage),
    }
}
