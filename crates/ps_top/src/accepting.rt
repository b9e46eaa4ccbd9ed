// How a command comes to the application of a source.

ghost use Rattle.std.specs.Prelude.{◌≡◌, ◌≢◌, ℕ, List, Some, Ok, IfOk, IfErr, IsErrOf, IsTrue, OnOk};
ghost use Rattle.ps_model.specs.Typing.{Accepted as IsAccepted};
ghost use Rattle.ps_accepted.specs.Answering.{IsChecked, app_of, source_of};
ghost use Rattle.ps_accepted.specs.Demanding.{IsDemandableAs, checked_demanded, lines_demanded};
ghost use Rattle.ps_accepted.specs.Source.{IsAcceptedAs, IsProgram, IsResolvedAs};
ghost use Rattle.ps_accepted.specs.Source.Reading.{stands_for};
ghost use Rattle.ps_top.specs.Asking.{worked};
ghost use Rattle.ps_top.specs.Calls.{LeavesRefusal, Passes, ReadsName};
ghost use Rattle.ps_top.specs.Program.{LeavesAccepted, leaves_text, with_bytes, with_checked};
ghost use Rattle.ps_top.specs.Refusing.{GivesNone, IsUnread, SaysNone, SaysWhy};
ghost use Rattle.ps_top.specs.Sourcing.{AreOfSource, Finds, HasLines, leaves_both};

use crate::Status;
use crate::call::Call;
use crate::left::Leaving;
use crate::saying::say_none;
use ps_accepted::{Accepted, Demanded, accept_text, demand_text, resolve_text};
use ps_base::limits::LARGEST_SOURCE;
use ps_base::{Bytes, Fail};
use ps_model::App;
use ps_outside::ReadFail;

// Reads the source of a name: all of it, or one byte more than the largest source has.
fn read_source<C: Call>(call: &mut C, name: &str) -> Result<Bytes, Status>
    ensures bytes { IfOk result (AreOfSource name.now (C.seen call.old)) }
    ensures reads { ReadsName name.now (IsErrOf result Status.ReadFault) (C.seen call.old) (C.seen call.new) }
    ensures fails { IfErr result IsUnread }
{
    match call.read(name, LARGEST_SOURCE + 1) {
        Ok(bytes) => Ok(bytes),
        Err(ReadFail::Memory) => Err(Status::Memory),
        Err(ReadFail::Fault) => Err(Status::ReadFault),
    }
}

// Ends a call whose source gives nothing, and leaves the bytes that were read of it.
fn refuse_source<C: Call>(call: &mut C, bytes: Bytes, why: Fail) -> Status
    ensures says { SaysNone why (C.seen call.old) (C.seen call.new) result }
    ensures left { worked (C.seen call.new).left ≡ with_bytes bytes (worked (C.seen call.old).left) }
    ensures refuses { LeavesRefusal (C.seen call.new).left (C.seen call.new).out result }
    ensures no_usage { result ≢ Status.Usage }
{
    call.leave(Leaving::Text(bytes));
    say_none(call, why)
}

// The accepted application of a name, by the rules L, P, B, N and S; or the status of a call that gets none.
pub(crate) fn accept<C: Call>(call: &mut C, name: &str) -> Result<Accepted, Status>
    ensures finds { IfOk result (Finds (λ text a. IsAcceptedAs text (stands_for (app_of a))) leaves_text name.now
        (C.seen call.old) (C.seen call.new)) }
    ensures sourced { IfOk result (λ a. IsTrue (C.seen call.old).files.tells → (text : List ℕ) →
        (C.seen call.old).files.held name.now ≡ Some text → IsProgram text (source_of a)) }
    ensures checked { IfOk result IsChecked }
    ensures none { IfErr result (GivesNone leaves_text IsAcceptedAs name.now (C.seen call.old) (C.seen call.new)) }
{
    let bytes = read_source(call, name)?;
    match accept_text(call.alloc(), bytes.as_slice()) {
        Ok(accepted) => {
            call.leave(Leaving::Text(bytes));
            Ok(accepted)
        }
        Err(why) => Err(refuse_source(call, bytes, why)),
    }
}

// The same, where the certificate is no longer wanted: what was checked is left.
pub(crate) fn accept_app<C: Call>(call: &mut C, name: &str) -> Result<App, Status>
    ensures finds { IfOk result (λ net. Finds (λ text net. IsAcceptedAs text (stands_for net)) (leaves_both net) name.now
        (C.seen call.old) (C.seen call.new) net) }
    ensures accepted { IfOk result IsAccepted }
    ensures none { IfErr result (GivesNone leaves_text IsAcceptedAs name.now (C.seen call.old) (C.seen call.new)) }
{
    let (app, checked) = accept(call, name)?.into_parts();
    call.leave(Leaving::Checked(checked));
    Ok(app)
}

// The application of a name, by the rules L, P, B and N alone; or the status of a call that gets none.
pub(crate) fn resolve<C: Call>(call: &mut C, name: &str) -> Result<App, Status>
    ensures finds { IfOk result (Finds (λ text net. IsResolvedAs text (stands_for net)) leaves_text name.now
        (C.seen call.old) (C.seen call.new)) }
    ensures none { IfErr result (GivesNone leaves_text IsResolvedAs name.now (C.seen call.old) (C.seen call.new)) }
{
    let bytes = read_source(call, name)?;
    match resolve_text(call.alloc(), bytes.as_slice()) {
        Ok(app) => {
            call.leave(Leaving::Text(bytes));
            Ok(app)
        }
        Err(why) => Err(refuse_source(call, bytes, why)),
    }
}

// Leaves what was checked of an application and the bytes of its source, and gives the lines of what its outputs
// demand; or the status of a call that the rule M1 refuses.
fn lines_of<C: Call>(call: &mut C, bytes: Bytes, demanded: Demanded) -> Result<Bytes, Status>
    ensures passes { OnOk result (Passes (C.seen call.old) (C.seen call.new)) }
    ensures lines { IfOk result (λ lines. lines_demanded demanded ≡ Ok lines) }
    ensures none { IfErr result (SaysWhy (lines_demanded demanded) (C.seen call.old) (C.seen call.new)) }
    ensures left { worked (C.seen call.new).left ≡ with_checked (checked_demanded demanded)
        (with_bytes bytes (worked (C.seen call.old).left)) }
{
    let (counts, lines) = demanded.into_parts();
    call.leave(Leaving::Checked(counts));
    match lines {
        Ok(lines) => {
            call.leave(Leaving::Text(bytes));
            Ok(lines)
        }
        Err(why) => Err(refuse_source(call, bytes, why)),
    }
}

// The lines of what the outputs of the application of a name demand, by the rules L, P, B, N, S and M1; or the status
// of a call that gets none. Where the source is accepted, what was checked is left, also where the rule M1 refuses.
pub(crate) fn accept_demands<C: Call>(call: &mut C, name: &str) -> Result<Bytes, Status>
    ensures finds { IfOk result (Finds HasLines LeavesAccepted name.now (C.seen call.old) (C.seen call.new)) }
    ensures none { IfErr result (GivesNone LeavesAccepted IsDemandableAs name.now (C.seen call.old)
        (C.seen call.new)) }
{
    let bytes = read_source(call, name)?;
    match demand_text(call.alloc(), bytes.as_slice()) {
        Ok(demanded) => lines_of(call, bytes, demanded),
        Err(why) => Err(refuse_source(call, bytes, why)),
    }
}
