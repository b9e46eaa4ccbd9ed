// `same APP OTHER`: whether two applications have the same outputs.

ghost use Rattle.std.specs.Prelude.{◌≡◌, ◌<◌, ◌≤◌, ◌∷◌, ℕ, List, Any, IfOk, IfErr, IsErrOf, OnOk, option_map};
ghost use Rattle.ps_bench_frame.specs.Ending.{IsUnread};
ghost use Rattle.ps_bench_never.specs.SameAsking.{AnswersSame, EndsBy, EndsOf, EndsWith, IsInOrder, IsOther, StopsAtOther, StopsSame, at_other, files_of, second_of};
ghost use Rattle.ps_outside.specs.Outside.{Rose};
ghost use Rattle.ps_bench_never.specs.SameAnswering.{names_of};
ghost use Rattle.ps_reach.specs.Comparing.{two_of};

use crate::likeness::first_unlike;
use crate::messages::{tell_many_free, tell_unlike};
use crate::same_answering::{SameFail, Told, answer};
use crate::{at_least_one, refuse_rules, write_told};
use ps_base::Memory;
use ps_bench_frame::{Input, InputStop, Opened, Sourced, Status, Stop, open_app, open_sourced};
use ps_bench_messages::tell_any_times;
use ps_edge::KnownListener;
use ps_model::App;
use ps_outside::{Files, Output};
use ps_pairs::app_arranged;
use ps_reach::{Compared, Named};
use ps_search::Observer;
use std::alloc::Global;

/// What `same` is asked.
#[derive(Clone, Copy)]
pub struct Asked<'a> {
    /// The name of the application.
    pub app: &'a str,
    /// The name of the other application.
    pub other: &'a str,
    /// The name of the rules file, if one is named.
    pub rules: Option<&'a str>,
    /// How many pairs of their states may be held; 0 counts as 1.
    pub states: u32,
}

// Ends a call by what was found of two applications.
fn end<O: Output, L: KnownListener>(
    alloc: Global,
    out: &mut O,
    listener: &mut L,
    found: Result<Told, SameFail>,
) -> Result<Status, Stop>
    ensures ends { EndsBy found (O.tells out.old) (O.taken out.old) (O.taken out.new) result }
    ensures unread { IfErr result (λ stop. IsUnread stop → IsErrOf found SameFail.Fault) }
    ensures unwritten { IsErrOf result Stop.Unwritten → Rose (O.faults out.old) (O.faults out.new) }
    ensures writes { O.faults out.old ≤ O.faults out.new }
    ensures telling { O.tells out.new ≡ O.tells out.old }
{
    match found {
        Ok(told) => write_told(out, told.text.as_slice(), told.are_same),
        Err(SameFail::Refused(refusal)) => Err(refuse_rules(alloc, out, refusal)),
        Err(SameFail::Fault) => Err(Stop::Input(InputStop::Unread(Input::Rules))),
        Err(SameFail::AnyTimes) => {
            tell_any_times(listener);
            Ok(Status::Usage)
        }
        Err(SameFail::ManyFree) => {
            tell_many_free(listener);
            Ok(Status::Usage)
        }
        Err(SameFail::Memory) => Err(Stop::NoMemory),
    }
}

// Compares two applications.
fn same_of<F: Files, O: Output, L: KnownListener, W: Observer>(
    alloc: Global,
    files: &mut F,
    out: &mut O,
    listener: &mut L,
    compared: &Compared<'_>,
    rules: Option<&str>,
    observer: &mut W,
) -> Result<Status, Stop>
    requires { 0 < compared.now.most }
    ensures ends { EndsOf (two_of compared.now) (option_map (λ n. n.now) rules.entry) (F.tells files.old) (F.held files.old)
        (O.tells out.old) (O.taken out.old) (O.taken out.new) result }
    ensures unread { IfErr result (λ stop. IsUnread stop →
        Any (λ (name : List ℕ). Rose (F.faults files.old name) (F.faults files.new name))
        (names_of (option_map (λ n. n.now) rules.entry))) }
    ensures unwritten { IsErrOf result Stop.Unwritten → Rose (O.faults out.old) (O.faults out.new) }
    ensures reads { (name : List ℕ) → F.faults files.old name ≤ F.faults files.new name }
    ensures writes { O.faults out.old ≤ O.faults out.new }
    ensures telling { O.tells out.new ≡ O.tells out.old }
{
    match first_unlike(compared.app, compared.other) {
        Some(unlike) => {
            tell_unlike(alloc, listener, compared, unlike);
            Err(Stop::Input(InputStop::Unlike))
        }
        None => {
            let found = answer(alloc, files, compared, rules, observer);
            end(alloc, out, listener, found)
        }
    }
}

// A stop at an application, which is that of the other one.
fn at_other(stop: Stop) -> Stop
    ensures { result ≡ at_other stop }
{
    match stop {
        Stop::App(refusal) => Stop::Input(InputStop::OtherRefused(refusal)),
        Stop::UnreadApp => Stop::Input(InputStop::Unread(Input::Other)),
        Stop::Cases(place, refusal) => Stop::Cases(place, refusal),
        Stop::UnreadCases(place) => Stop::UnreadCases(place),
        Stop::Input(why) => Stop::Input(why),
        Stop::Unwritten => Stop::Unwritten,
        Stop::NoMemory => Stop::NoMemory,
    }
}

// The other application with its source, and what stands for that in the order of the first, if something does.
#[derive(Drop)]
struct OtherApp {
    sourced: Sourced,
    ordered: Option<App>,
}

impl OtherApp {
    // What is compared with the first.
    fn app(&self) -> &App
        ensures { result.now ≡ second_of self.now }
    {
        match &self.ordered {
            Some(app) => app,
            None => &self.sourced.opened.app,
        }
    }
}

// An application with its source, and what stands for that in the order of the first.
fn in_order(alloc: Global, first: &App, mut sourced: Sourced) -> Result<OtherApp, Stop>
    ensures ordered { IfOk result (λ other. IsInOrder first.now sourced.source sourced.opened.app (second_of other)) }
    ensures stops { IfErr result (λ stop. stop ≡ Stop.NoMemory) }
{
    match app_arranged(alloc, first, &mut sourced.source) {
        Ok(ordered) => Ok(OtherApp { sourced, ordered }),
        Err(Memory) => Err(Stop::NoMemory),
    }
}

// The other application, of this name, in the order of the first one. Where it is refused the line of the refusal is
// written.
fn open_other<F: Files, O: Output>(
    alloc: Global,
    files: &mut F,
    out: &mut O,
    first: &App,
    name: &str,
) -> Result<OtherApp, Stop>
    ensures app { IfOk result (λ other. IsOther (F.tells files.old) (F.held files.old) name.now first.now (second_of other)) }
    ensures stops { IfErr result (λ stop. StopsAtOther (F.tells files.old) (F.held files.old) name.now stop
        (O.tells out.old) (O.taken out.old) (O.taken out.new)) }
    ensures unread { IfErr result (λ stop. IsUnread stop →
        Rose (F.faults files.old name.now) (F.faults files.new name.now)) }
    ensures unwritten { IsErrOf result Stop.Unwritten → Rose (O.faults out.old) (O.faults out.new) }
    ensures unsaid { OnOk result (O.taken out.new ≡ O.taken out.old) }
    ensures reads { (other : List ℕ) → F.faults files.old other ≤ F.faults files.new other }
    ensures writes { O.faults out.old ≤ O.faults out.new }
    ensures kept { F.held files.new ≡ F.held files.old }
    ensures reading { F.tells files.new ≡ F.tells files.old }
    ensures telling { O.tells out.new ≡ O.tells out.old }
{
    match open_sourced(alloc, files, out, name) {
        Ok(sourced) => in_order(alloc, first, sourced),
        Err(stop) => Err(at_other(stop)),
    }
}

// Compares an application with the other one, which is opened.
fn same_with<F: Files, O: Output, L: KnownListener, W: Observer>(
    alloc: Global,
    files: &mut F,
    out: &mut O,
    listener: &mut L,
    opened: &Opened,
    asked: &Asked<'_>,
    observer: &mut W,
) -> Result<Status, Stop>
    ensures ends { EndsWith opened.now.app asked.now.app.now asked.now.other.now (option_map (λ n. n.now) asked.now.rules)
        asked.now.states (F.tells files.old) (F.held files.old) (O.tells out.old) (O.taken out.old) (O.taken out.new) result }
    ensures unread { IfErr result (λ stop. IsUnread stop →
        Any (λ (name : List ℕ). Rose (F.faults files.old name) (F.faults files.new name))
        (asked.now.other.now ∷ names_of (option_map (λ n. n.now) asked.now.rules))) }
    ensures unwritten { IsErrOf result Stop.Unwritten → Rose (O.faults out.old) (O.faults out.new) }
    ensures reads { (name : List ℕ) → F.faults files.old name ≤ F.faults files.new name }
    ensures writes { O.faults out.old ≤ O.faults out.new }
    ensures telling { O.tells out.new ≡ O.tells out.old }
{
    match open_other(alloc, files, out, &opened.app, asked.other) {
        Ok(other) => {
            let first = Named {
                app: &opened.app,
                name: asked.app,
            };
            let second = Named {
                app: other.app(),
                name: asked.other,
            };
            let compared = Compared::of(first, second, at_least_one(asked.states));
            same_of(
                alloc,
                files,
                out,
                listener,
                &compared,
                asked.rules,
                observer,
            )
        }
        Err(stop) => Err(stop),
    }
}

/// `same APP OTHER [RULES]`: writes whether two applications have the same outputs in every scan of every run, where so
/// many pairs of their states may be held: where an output differs it is told with a shortest case, and where it stays
/// open, with how long runs were looked at. The rules file says how scans come.
///
/// The status is Done where no output differs, and Failed where one does or it stays open. It is Usage where the file
/// asks for scans at any times, and where over 20 inputs are free and no file is named: that is told, and nothing is
/// written. The call stops by `Unlike`, which is told, where they have not the same inputs and outputs, of the same
/// names (letter case aside) and types: the other is compared with its own in the order of the first. Where an
/// application or the file is refused, the line of the refusal is written in its place.
///
/// A file that cannot be read is one of the three, whose count of the files rose in this call; `Unwritten` comes only
/// where the output's count rose.
pub fn same<F: Files, O: Output, L: KnownListener, W: Observer>(
    alloc: Global,
    files: &mut F,
    out: &mut O,
    listener: &mut L,
    asked: &Asked<'_>,
    observer: &mut W,
) -> Result<Status, Stop>
    ensures answers { IfOk result (AnswersSame asked.now.app.now asked.now.other.now
        (option_map (λ n. n.now) asked.now.rules) asked.now.states
        (F.tells files.old) (F.held files.old) (O.tells out.old) (O.taken out.old) (O.taken out.new)) }
    ensures stops { IfErr result (StopsSame asked.now.app.now asked.now.other.now
        (option_map (λ n. n.now) asked.now.rules) asked.now.states
        (F.tells files.old) (F.held files.old) (O.tells out.old) (O.taken out.old) (O.taken out.new)) }
    ensures unread { IfErr result (λ stop. IsUnread stop →
        Any (λ (name : List ℕ). Rose (F.faults files.old name) (F.faults files.new name))
        (files_of asked.now.app.now asked.now.other.now (option_map (λ n. n.now) asked.now.rules))) }
    ensures unwritten { IsErrOf result Stop.Unwritten → Rose (O.faults out.old) (O.faults out.new) }
    ensures writes { O.faults out.old ≤ O.faults out.new }
    ensures telling { O.tells out.new ≡ O.tells out.old }
{
    match open_app(alloc, files, out, asked.app) {
        Ok(opened) => same_with(alloc, files, out, listener, &opened, asked, observer),
        Err(stop) => Err(stop),
    }
}
