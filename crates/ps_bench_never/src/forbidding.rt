// `never APP RULES`: what is told of the rules of a file.

ghost use Rattle.std.specs.Prelude.{◌≡◌, ◌<◌, ◌≤◌, ◌∷◌, [], ℕ, List, Any, IsTrue, IfOk, IfErr, IsErrOf};
ghost use Rattle.ps_bench_frame.specs.Ending.{IsUnread};
ghost use Rattle.ps_bench_frame.specs.Opening.{source};
ghost use Rattle.ps_bench_frame.specs.Stopping.{Took, TookSome};
ghost use Rattle.ps_outside.specs.Outside.{Rose};
ghost use Rattle.ps_bench_never.specs.Asking.{AnswersIn, AnswersNever, StopsFor, StopsNever, at_least_one, status_by};

use crate::answering::NeverFail;
use crate::answering_any::answer;
use ps_base::Memory;
use ps_bench_frame::{Input, InputStop, Opened, Status, Stop, open_app, rules_refused_line};
use ps_bench_rules::RulesRefusal;
use ps_outside::{Files, Output, write_all};
use ps_search::Observer;
use std::alloc::Global;

/// What `never` is asked.
#[derive(Clone, Copy)]
pub struct Asked<'a> {
    /// The name of the application.
    pub app: &'a str,
    /// The name of the rules file.
    pub rules: &'a str,
    /// How many states of the application may be held; 0 counts as 1.
    pub states: u32,
}

/// A number of states that may be held: 1 for 0.
pub fn at_least_one(states: u32) -> u32
    ensures number { result ≡ at_least_one states }
    ensures some { 0 < result }
{
    if states == 0 { 1 } else { states }
}

/// Ends a call that is refused its rules: the line of the refusal is written.
///
/// `Unwritten` comes only where the output's count rose.
pub fn refuse_rules<O: Output>(alloc: Global, out: &mut O, refusal: RulesRefusal) -> Stop
    ensures stops { StopsFor refusal (O.tells out.old) (O.taken out.old) (O.taken out.new) result }
    ensures read { ¬ IsUnread result }
    ensures unwritten { result ≡ Stop.Unwritten → Rose (O.faults out.old) (O.faults out.new) }
    ensures writes { O.faults out.old ≤ O.faults out.new }
    ensures telling { O.tells out.new ≡ O.tells out.old }
{
    match rules_refused_line(alloc, refusal) {
        Ok(line) => match write_all(out, line.as_slice()) {
            Ok(()) => Stop::Input(InputStop::RulesRefused(refusal)),
            Err(_) => Stop::Unwritten,
        },
        Err(Memory) => Stop::NoMemory,
    }
}

// Whether all holds that is told.
fn status_by(holds: bool) -> Status
    ensures { result ≡ status_by holds }
{
    if holds { Status::Done } else { Status::Failed }
}

/// Writes what is told: the status is Done where all of it holds, and Failed where it does not.
///
/// `Unwritten` comes only where the output's count rose.
pub fn write_told<O: Output>(out: &mut O, text: &[u8], holds: bool) -> Result<Status, Stop>
    ensures all { IfOk result (λ status. (status ≡ status_by holds)
        × Took text.now (O.tells out.old) (O.taken out.old) (O.taken out.new)) }
    ensures some { IfErr result (λ stop. (stop ≡ Stop.Unwritten)
        × TookSome text.now (O.tells out.old) (O.taken out.old) (O.taken out.new)) }
    ensures unwritten { IsErrOf result Stop.Unwritten → Rose (O.faults out.old) (O.faults out.new) }
    ensures writes { O.faults out.old ≤ O.faults out.new }
    ensures telling { O.tells out.new ≡ O.tells out.old }
{
    match write_all(out, text) {
        Ok(()) => Ok(status_by(holds)),
        Err(_) => Err(Stop::Unwritten),
    }
}

// Writes what is told of the rules of a file, of an application.
fn never_app<F: Files, O: Output, W: Observer>(
    alloc: Global,
    files: &mut F,
    out: &mut O,
    opened: &Opened,
    asked: &Asked<'_>,
    observer: &mut W,
) -> Result<Status, Stop>
    ensures answers { AnswersIn (source opened.now.app opened.now.sizes (F.tells files.old) (F.held files.old))
        asked.now.rules.now asked.now.states (O.tells out.old) (O.taken out.old) (O.taken out.new) result }
    ensures unread { IfErr result (λ stop. IsUnread stop →
        Rose (F.faults files.old asked.now.rules.now) (F.faults files.new asked.now.rules.now)) }
    ensures unwritten { IsErrOf result Stop.Unwritten → Rose (O.faults out.old) (O.faults out.new) }
    ensures reads { (other : List ℕ) → F.faults files.old other ≤ F.faults files.new other }
    ensures writes { O.faults out.old ≤ O.faults out.new }
    ensures telling { O.tells out.new ≡ O.tells out.old }
{
    let most = at_least_one(asked.states);
    match answer(alloc, files, &opened.app, asked.rules, most, observer) {
        Ok(told) => write_told(out, told.text.as_slice(), told.do_all_hold),
        Err(NeverFail::Refused(refusal)) => Err(refuse_rules(alloc, out, refusal)),
        Err(NeverFail::Fault) => Err(Stop::Input(InputStop::Unread(Input::Rules))),
        Err(NeverFail::Memory) => Err(Stop::NoMemory),
    }
}

/// `never APP RULES`: writes of each rule of the file of this name whether it holds in every run of the application,
/// where so many of its states may be held: a rule that is met is told with a shortest case, and one that is open with
/// how long runs were looked at. Where the scans of the file come at any times, a rule holds at all times whatever, and
/// one that is met is told with a case of scans 10, 100 or 1000 ms apart.
///
/// The status is Done where every rule holds, and Failed where one is met or stays open. Where the application or the
/// file is refused, the line of the refusal is written in its place.
///
/// A file that cannot be read is one of the two, whose count of the files rose in this call; `Unwritten` comes only
/// where the output's count rose.
pub fn never<F: Files, O: Output, W: Observer>(
    alloc: Global,
    files: &mut F,
    out: &mut O,
    asked: &Asked<'_>,
    observer: &mut W,
) -> Result<Status, Stop>
    ensures answers { IfOk result (AnswersNever asked.now.app.now asked.now.rules.now asked.now.states
        (F.tells files.old) (F.held files.old) (O.tells out.old) (O.taken out.old) (O.taken out.new)) }
    ensures stops { IfErr result (StopsNever asked.now.app.now asked.now.rules.now asked.now.states
        (F.tells files.old) (F.held files.old) (O.tells out.old) (O.taken out.old) (O.taken out.new)) }
    ensures unread { IfErr result (λ stop. IsUnread stop →
        Any (λ (name : List ℕ). Rose (F.faults files.old name) (F.faults files.new name))
        (asked.now.app.now ∷ asked.now.rules.now ∷ [])) }
    ensures unwritten { IsErrOf result Stop.Unwritten → Rose (O.faults out.old) (O.faults out.new) }
    ensures writes { O.faults out.old ≤ O.faults out.new }
    ensures telling { O.tells out.new ≡ O.tells out.old }
{
    match open_app(alloc, files, out, asked.app) {
        Ok(opened) => never_app(alloc, files, out, &opened, asked, observer),
        Err(stop) => Err(stop),
    }
}
