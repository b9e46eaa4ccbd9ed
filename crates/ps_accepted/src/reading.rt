// Reading sources by the names of their files.

ghost use Rattle.std.specs.Prelude.{◌≡◌, ◌≤◌, List, ℕ, IsTrue, IfOk, IsErrOf};
ghost use Rattle.ps_outside.specs.Outside.{Rose, CountsStay};
ghost use Rattle.ps_accepted.specs.Source.{IsResolvedAs, IsAcceptedAs};
ghost use Rattle.ps_accepted.specs.Answering.{GivesApp, GivesAccepted, Reads, IsFault, IsChecked, IsFrontHeld};
ghost use Rattle.ps_accepted.specs.Demanding.{GivesDemanded, IsCheckedOf};

use crate::accepting::Accepted;
use crate::deciding::{accept_text, demand_text, resolve_text};
use crate::demanding::Demanded;
use ps_base::Bytes;
use ps_base::limits::LARGEST_SOURCE;
use ps_model::App;
use ps_outside::{Files, ReadFail, TextFail, read_upto};
use std::alloc::Global;

/// The bytes that decide of the source of this name: all of them, or one more than the largest source has.
///
/// `Fault` comes only where the files' count of the name rose in this call; every other answer leaves the counts as
/// they were.
pub fn read_source<F: Files>(alloc: Global, app: &str, files: &mut F) -> Result<Bytes, ReadFail>
    ensures read { IsTrue (F.tells files.old) → IfOk result (λ text. IsFrontHeld text (F.held files.old app.now)) }
    ensures fault { IsErrOf result ReadFail.Fault → Rose (F.faults files.old app.now) (F.faults files.new app.now) }
    ensures exact { ¬ IsErrOf result ReadFail.Fault → CountsStay (F.faults files.old) (F.faults files.new) }
    ensures counts { (other : List ℕ) → F.faults files.old other ≤ F.faults files.new other }
    ensures kept { F.held files.new ≡ F.held files.old }
    ensures telling { F.tells files.new ≡ F.tells files.old }
{
    read_upto(alloc, files, app, LARGEST_SOURCE + 1)
}

/// Reads the application of this name, by the rules L, P, B and N. Where it has function blocks, it is that of its flat
/// source.
///
/// `Fault` comes only where the files' count of the name rose in this call; every other answer leaves the counts as
/// they were.
pub fn read_resolved<F: Files>(alloc: Global, app: &str, files: &mut F) -> Result<App, TextFail>
    ensures read { IsTrue (F.tells files.old) →
        Reads GivesApp IsResolvedAs (F.held files.old app.now) result }
    ensures fault { IsFault result → Rose (F.faults files.old app.now) (F.faults files.new app.now) }
    ensures exact { ¬ IsFault result → CountsStay (F.faults files.old) (F.faults files.new) }
    ensures counts { (other : List ℕ) → F.faults files.old other ≤ F.faults files.new other }
    ensures kept { F.held files.new ≡ F.held files.old }
    ensures telling { F.tells files.new ≡ F.tells files.old }
{
    let text = read_source(alloc, app, files)?;
    match resolve_text(alloc, text.as_slice()) {
        Ok(app) => Ok(app),
        Err(why) => Err(why.into()),
    }
}

/// Reads the accepted application of this name, by the rules L, P, B, N and S.
///
/// `Fault` comes only where the files' count of the name rose in this call; every other answer leaves the counts as
/// they were.
pub fn read_accepted<F: Files>(
    alloc: Global,
    app: &str,
    files: &mut F,
) -> Result<Accepted, TextFail>
    ensures read { IsTrue (F.tells files.old) →
        Reads GivesAccepted IsAcceptedAs (F.held files.old app.now) result }
    ensures checked { IfOk result IsChecked }
    ensures fault { IsFault result → Rose (F.faults files.old app.now) (F.faults files.new app.now) }
    ensures exact { ¬ IsFault result → CountsStay (F.faults files.old) (F.faults files.new) }
    ensures counts { (other : List ℕ) → F.faults files.old other ≤ F.faults files.new other }
    ensures kept { F.held files.new ≡ F.held files.old }
    ensures telling { F.tells files.new ≡ F.tells files.old }
{
    let text = read_source(alloc, app, files)?;
    match accept_text(alloc, text.as_slice()) {
        Ok(accepted) => Ok(accepted),
        Err(why) => Err(why.into()),
    }
}

/// Reads the accepted application of this name, by the rules L, P, B, N and S, with the lines of what its outputs
/// demand; or in the place of the lines the refusal by the rule M1, where a SAFEBOOL output has a demand of over 1,000
/// leaves before it is made slim.
///
/// `Fault` comes only where the files' count of the name rose in this call; every other answer leaves the counts as
/// they were.
pub fn read_demanded<F: Files>(
    alloc: Global,
    app: &str,
    files: &mut F,
) -> Result<Demanded, TextFail>
    ensures read { IsTrue (F.tells files.old) →
        Reads GivesDemanded IsAcceptedAs (F.held files.old app.now) result }
    ensures checked { IfOk result IsCheckedOf }
    ensures fault { IsFault result → Rose (F.faults files.old app.now) (F.faults files.new app.now) }
    ensures exact { ¬ IsFault result → CountsStay (F.faults files.old) (F.faults files.new) }
    ensures counts { (other : List ℕ) → F.faults files.old other ≤ F.faults files.new other }
    ensures kept { F.held files.new ≡ F.held files.old }
    ensures telling { F.tells files.new ≡ F.tells files.old }
{
    let text = read_source(alloc, app, files)?;
    match demand_text(alloc, text.as_slice()) {
        Ok(demanded) => Ok(demanded),
        Err(why) => Err(why.into()),
    }
}
