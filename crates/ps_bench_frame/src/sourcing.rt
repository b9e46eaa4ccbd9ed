// The application of a file, with its text and its source.

ghost use Rattle.std.specs.Prelude.{◌≡◌, ◌≤◌, ℕ, List, IsTrue, Some, IfOk, IfErr, IsErrOf, OnOk};
ghost use Rattle.ps_bench_frame.specs.Coming.{OpensSourced, no_app};
ghost use Rattle.ps_bench_frame.specs.Ending.{IsUnread};
ghost use Rattle.ps_bench_frame.specs.Opening.{IsOfApp, source};
ghost use Rattle.ps_bench_frame.specs.Seen.{KeepsFiles, files_seen};
ghost use Rattle.ps_bench_frame.specs.Stopping.{StopsAtApp};
ghost use Rattle.ps_model.specs.Typing.{Accepted};
ghost use Rattle.ps_names.specs.Stands.{Stands};
ghost use Rattle.ps_outside.specs.Outside.{Rose};
ghost use Rattle.ps_accepted.specs.Answering.{IsFault, Reads};
ghost use Rattle.ps_accepted.specs.Source.{IsAcceptedAs};
ghost use Rattle.ps_bench_frame.specs.Sourcing.{GivesKept, IsSourceOf};

use crate::ending::Stop;
use crate::opening::{Opened, refuse_app, sized};
use crate::program::sourced_text;
use ps_accepted::read_source;
use ps_base::Bytes;
use ps_model::App;
use ps_outside::{Files, Output, TextFail};
use ps_parser::Source;
use std::alloc::Global;

/// An application that is accepted, with the flat source that it stands for.
pub struct Sourced {
    pub source: Source,
    pub opened: Opened,
}

impl Drop for Sourced {
    // One call for whoever owns one, in place of a walk through all that it holds.
    fn drop(self) {
        let Sourced {
            source: _,
            opened: _,
        } = self;
    }
}

impl Sourced {
    // Without the source.
    fn into_opened(self) -> Opened
        ensures { result ≡ self.opened }
    {
        let Sourced { source: _, opened } = self;
        opened
    }
}

// The text of this name, its flat source, and the accepted application that stands for it.
fn sourced_app<F: Files>(
    alloc: Global,
    files: &mut F,
    name: &str,
) -> Result<(Bytes, Source, App), TextFail>
    ensures accepted { IfOk result (λ r. Accepted r.2) }
    ensures stands { IfOk result (λ r. Stands r.1 r.2) }
    ensures read { IsTrue (F.tells files.old) → Reads GivesKept IsAcceptedAs (F.held files.old name.now) result }
    ensures fault { IsFault result → Rose (F.faults files.old name.now) (F.faults files.new name.now) }
    ensures counts { (other : List ℕ) → F.faults files.old other ≤ F.faults files.new other }
    ensures kept { F.held files.new ≡ F.held files.old }
    ensures reading { F.tells files.new ≡ F.tells files.old }
{
    let text = read_source(alloc, name, files)?;
    match sourced_text(alloc, text.as_slice()) {
        Ok((source, app)) => Ok((text, source, app)),
        Err(why) => Err(why.into()),
    }
}

// Why a call stops that gets no application.
fn no_app(why: TextFail) -> Stop
    ensures { result ≡ no_app why }
{
    match why {
        TextFail::Refused(refusal) => Stop::App(refusal),
        TextFail::Fault => Stop::UnreadApp,
        TextFail::Memory => Stop::NoMemory,
    }
}

// The accepted application of this name, with its source. Nothing is written.
pub(crate) fn sourced_of<F: Files>(
    alloc: Global,
    files: &mut F,
    name: &str,
) -> Result<Sourced, Stop>
    ensures accepted { IfOk result (λ sourced. Accepted sourced.opened.app) }
    ensures stands { IfOk result (λ sourced. Stands sourced.source sourced.opened.app) }
    ensures opens { OpensSourced (record { tells = F.tells files.old; held = F.held files.old }) name.now result }
    ensures unread { IfErr result (λ stop. IsUnread stop →
        Rose (F.faults files.old name.now) (F.faults files.new name.now)) }
    ensures keeps { KeepsFiles (files_seen F.tells F.held F.faults files.old) (files_seen F.tells F.held F.faults
        files.new) }
{
    match sourced_app(alloc, files, name) {
        Ok((text, source, app)) => match sized(alloc, app, text) {
            Ok(opened) => Ok(Sourced { source, opened }),
            Err(_) => Err(Stop::NoMemory),
        },
        Err(why) => Err(no_app(why)),
    }
}

/// The accepted application of this name, with its source. Where it is refused the line of the refusal is written.
///
/// `UnreadApp` comes only where the files' count of the name rose in this call, `Unwritten` only where the output's
/// did.
pub fn open_sourced<F: Files, O: Output>(
    alloc: Global,
    files: &mut F,
    out: &mut O,
    name: &str,
) -> Result<Sourced, Stop>
    ensures accepted { IfOk result (λ sourced. Accepted sourced.opened.app) }
    ensures app { IfOk result (λ sourced. IsOfApp
        (source sourced.opened.app sourced.opened.sizes (F.tells files.old) (F.held files.old)) name.now) }
    ensures source { IfOk result (λ sourced. IsTrue (F.tells files.old) →
        IsSourceOf (F.held files.old) name.now sourced.source) }
    ensures text { IfOk result (λ sourced. IsTrue (F.tells files.old) →
        F.held files.old name.now ≡ Some sourced.opened.text) }
    ensures stands { IfOk result (λ sourced. Stands sourced.source sourced.opened.app) }
    ensures stops { IfErr result (λ stop. StopsAtApp (F.tells files.old) (F.held files.old) name.now stop
        (O.tells out.old) (O.taken out.old) (O.taken out.new)) }
    ensures unread { IfErr result (λ stop. IsUnread stop →
        Rose (F.faults files.old name.now) (F.faults files.new name.now)) }
    ensures unwritten { IsErrOf result Stop.Unwritten → Rose (O.faults out.old) (O.faults out.new) }
    ensures unsaid { OnOk result (O.taken out.new ≡ O.taken out.old) }
    ensures reads { (other : List ℕ) → F.faults files.old other ≤ F.faults files.new other }
    ensures writes { O.faults out.old ≤ O.faults out.new }
    ensures kept { F.held files.new ≡ F.held files.old }
    ensures reading { F.tells files.new ≡ F.tells files.old }
    ensures telling { O.tells out.new ≡ O.tells out.old }
{
    match sourced_app(alloc, files, name) {
        Ok((text, source, app)) => match sized(alloc, app, text) {
            Ok(opened) => Ok(Sourced { source, opened }),
            Err(_) => Err(Stop::NoMemory),
        },
        Err(why) => Err(refuse_app(out, why)),
    }
}

/// The accepted application of this name, with its text. Where it is refused the line of the refusal is written.
///
/// `UnreadApp` comes only where the files' count of the name rose in this call, `Unwritten` only where the output's
/// did.
pub fn open_app<F: Files, O: Output>(
    alloc: Global,
    files: &mut F,
    out: &mut O,
    name: &str,
) -> Result<Opened, Stop>
    ensures accepted { IfOk result (λ opened. Accepted opened.app) }
    ensures app { IfOk result (λ opened. IsOfApp
        (source opened.app opened.sizes (F.tells files.old) (F.held files.old)) name.now) }
    ensures text { IfOk result (λ opened. IsTrue (F.tells files.old) →
        F.held files.old name.now ≡ Some opened.text) }
    ensures stops { IfErr result (λ stop. StopsAtApp (F.tells files.old) (F.held files.old) name.now stop
        (O.tells out.old) (O.taken out.old) (O.taken out.new)) }
    ensures unread { IfErr result (λ stop. IsUnread stop →
        Rose (F.faults files.old name.now) (F.faults files.new name.now)) }
    ensures unwritten { IsErrOf result Stop.Unwritten → Rose (O.faults out.old) (O.faults out.new) }
    ensures unsaid { OnOk result (O.taken out.new ≡ O.taken out.old) }
    ensures reads { (other : List ℕ) → F.faults files.old other ≤ F.faults files.new other }
    ensures writes { O.faults out.old ≤ O.faults out.new }
    ensures kept { F.held files.new ≡ F.held files.old }
    ensures reading { F.tells files.new ≡ F.tells files.old }
    ensures telling { O.tells out.new ≡ O.tells out.old }
{
    match open_sourced(alloc, files, out, name) {
        Ok(sourced) => Ok(sourced.into_opened()),
        Err(stop) => Err(stop),
    }
}
