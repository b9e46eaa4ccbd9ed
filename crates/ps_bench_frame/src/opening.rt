// The application that a command works on, how a call ends that gets none, and how a command comes to the cases of a
// file.

ghost use Rattle.std.specs.Prelude.{◌≡◌, ◌≤◌, ◌++◌, ℕ, List, Bool, Option, All, IsTrue, IsSome, Err, IfOk, IfErr};
ghost use Rattle.std.specs.Prelude.{IsErrOf};
ghost use Rattle.std.specs.Prelude.{OnOk, length};
ghost use Rattle.ps_bench_frame.specs.Ending.{IsUnread};
ghost use Rattle.ps_bench_frame.specs.Opening.{GivesNet, IsOfText, Source, source};
ghost use Rattle.ps_bench_frame.specs.Stopping.{AreRefused, IsWhyNoCases, StopsAtApp, StopsAtCases};
ghost use Rattle.ps_bench_frame.specs.Refusing.{refused_line};
ghost use Rattle.ps_bench_cases.specs.Meant.{whole_case};
ghost use Rattle.ps_bench_cases.specs.Runnable.{IsRunnable};
ghost use Rattle.ps_bench_cases.specs.declared.case.Case.{Case as CaseOf};
ghost use Rattle.ps_bench_cases.specs.declared.limits.TheConstants.{MOST_CASES};
ghost use Rattle.ps_model.specs.Typing.{Accepted};
ghost use Rattle.ps_outside.specs.Outside.{Rose};
ghost use Rattle.ps_outside.specs.declared.text_fail.TextFail.TheVariants.{Fault as IsFaultOf};
ghost use Rattle.ps_accepted.specs.Answering.{Reads};
ghost use Rattle.ps_accepted.specs.Source.{IsAcceptedAs};

use crate::ending::Stop;
use crate::refusing::refused_line;
use ps_base::{Bytes, Memory};
use ps_bench_cases::{CaseFile, CaseRefusal, CasesFail, read_cases};
use ps_model::{App, ImageSizes};
use ps_outside::{Files, Output, TextFail, write_all};
use ps_report::refusal_line;
use ps_world::World;
use std::alloc::Global;

/// An application that is accepted, the sizes of the regions of its channels, and its text: the bytes that were read.
pub struct Opened {
    pub app: App,
    pub sizes: ImageSizes,
    pub text: Bytes,
}

impl Drop for Opened {
    // One call for whoever owns one, in place of a walk through all that it holds.
    fn drop(self) {
        let Opened {
            app: _,
            sizes: _,
            text: _,
        } = self;
    }
}

/// An application with the sizes of the regions of its channels, and with its text.
pub(crate) fn sized(alloc: Global, app: App, text: Bytes) -> Result<Opened, Memory>
    requires { Accepted app }
    ensures { IfOk result (λ opened. (opened.app ≡ app) × (opened.text ≡ text)) }
{
    let sizes = World::build(alloc, &app)?.sizes();
    Ok(Opened { app, sizes, text })
}

/// Ends a call that gets no application: its refusal is written.
///
/// `UnreadApp` comes only of a read that failed, `Unwritten` only where the output's count rose.
pub fn refuse_app<O: Output>(out: &mut O, why: TextFail) -> Stop
    ensures stops { (reading : Bool) (held : List ℕ → Option (List ℕ)) (name : List ℕ) →
        (IsTrue reading → Reads GivesNet IsAcceptedAs (held name) (Err why)) →
        StopsAtApp reading held name result (O.tells out.old) (O.taken out.old) (O.taken out.new) }
    ensures unread { IsUnread result → why ≡ IsFaultOf }
    ensures unwritten { result ≡ Stop.Unwritten → Rose (O.faults out.old) (O.faults out.new) }
    ensures counts { O.faults out.old ≤ O.faults out.new }
    ensures telling { O.tells out.new ≡ O.tells out.old }
{
    match why {
        TextFail::Refused(refusal) => match write_all(out, refusal_line(&refusal).as_slice()) {
            Ok(()) => Stop::App(refusal),
            Err(_) => Stop::Unwritten,
        },
        TextFail::Fault => Stop::UnreadApp,
        TextFail::Memory => Stop::NoMemory,
    }
}

/// The cases of the file of this name, which stands at this place of the words.
///
/// `UnreadCases` comes only where the files' count of the name rose in this call.
pub fn open_cases<F: Files>(
    alloc: Global,
    files: &mut F,
    opened: &Opened,
    place: usize,
    name: &str,
) -> Result<CaseFile, Stop>
    ensures of_text { IfOk result (IsOfText
        (source opened.now.app opened.now.sizes (F.tells files.old) (F.held files.old)) name.now) }
    ensures why { IfErr result (IsWhyNoCases
        (source opened.now.app opened.now.sizes (F.tells files.old) (F.held files.old)) name.now) }
    ensures found { IsTrue (F.tells files.old) → OnOk result (IsSome (F.held files.old name.now)) }
    ensures runnable { IfOk result (λ file.
        All (λ (case : CaseOf). IsRunnable opened.now.app (whole_case file case)) file.cases) }
    ensures few { IfOk result (λ file. length file.cases ≤ MOST_CASES) }
    ensures unread { IfErr result (λ stop. IsUnread stop →
        Rose (F.faults files.old name.now) (F.faults files.new name.now)) }
    ensures reads { (other : List ℕ) → F.faults files.old other ≤ F.faults files.new other }
    ensures kept { F.held files.new ≡ F.held files.old }
    ensures reading { F.tells files.new ≡ F.tells files.old }
{
    match read_cases(alloc, files, name, &opened.app, &opened.sizes) {
        Ok(file) => Ok(file),
        Err(CasesFail::Refused(refusal)) => Err(Stop::Cases(place, refusal)),
        Err(CasesFail::Fault) => Err(Stop::UnreadCases(place)),
        Err(CasesFail::Memory) => Err(Stop::NoMemory),
    }
}

// Ends a call that gets no cases, by this refusal of the file at this place of the words: its line is written.
fn refuse_cases<O: Output>(alloc: Global, out: &mut O, place: usize, refusal: CaseRefusal) -> Stop
    ensures stops { (from : Source) (name : List ℕ) → AreRefused from name refusal →
        StopsAtCases from name refused_line result (O.tells out.old) (O.taken out.old) (O.taken out.new) }
    ensures read { ¬ IsUnread result }
    ensures unwritten { result ≡ Stop.Unwritten → Rose (O.faults out.old) (O.faults out.new) }
    ensures writes { O.faults out.old ≤ O.faults out.new }
    ensures telling { O.tells out.new ≡ O.tells out.old }
{
    match refused_line(alloc, refusal) {
        Ok(line) => match write_all(out, line.as_slice()) {
            Ok(()) => Stop::Cases(place, refusal),
            Err(_) => Stop::Unwritten,
        },
        Err(Memory) => Stop::NoMemory,
    }
}

/// The cases of the file of this name, the first case file of the words. Where it is refused the line of the refusal
/// is written.
///
/// `UnreadCases` comes only where the files' count of the name rose in this call, `Unwritten` only where the output's
/// did.
pub fn open_written_cases<F: Files, O: Output>(
    alloc: Global,
    files: &mut F,
    out: &mut O,
    opened: &Opened,
    name: &str,
) -> Result<CaseFile, Stop>
    ensures of_text { IfOk result (IsOfText
        (source opened.now.app opened.now.sizes (F.tells files.old) (F.held files.old)) name.now) }
    ensures stops { IfErr result (λ stop. StopsAtCases
        (source opened.now.app opened.now.sizes (F.tells files.old) (F.held files.old)) name.now refused_line stop
        (O.tells out.old) (O.taken out.old) (O.taken out.new)) }
    ensures found { IsTrue (F.tells files.old) → OnOk result (IsSome (F.held files.old name.now)) }
    ensures runnable { IfOk result (λ file.
        All (λ (case : CaseOf). IsRunnable opened.now.app (whole_case file case)) file.cases) }
    ensures few { IfOk result (λ file. length file.cases ≤ MOST_CASES) }
    ensures unread { IfErr result (λ stop. IsUnread stop →
        Rose (F.faults files.old name.now) (F.faults files.new name.now)) }
    ensures unwritten { IsErrOf result Stop.Unwritten → Rose (O.faults out.old) (O.faults out.new) }
    ensures unsaid { OnOk result (O.taken out.new ≡ O.taken out.old) }
    ensures reads { (other : List ℕ) → F.faults files.old other ≤ F.faults files.new other }
    ensures writes { O.faults out.old ≤ O.faults out.new }
    ensures kept { F.held files.new ≡ F.held files.old }
    ensures reading { F.tells files.new ≡ F.tells files.old }
    ensures telling { O.tells out.new ≡ O.tells out.old }
{
    match open_cases(alloc, files, opened, 0, name) {
        Ok(file) => Ok(file),
        Err(Stop::Cases(place, refusal)) => Err(refuse_cases(alloc, out, place, refusal)),
        Err(stop) => Err(stop),
    }
}
