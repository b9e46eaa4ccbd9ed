// How a command comes to the trace of a run, and to the faults that strike in it.

ghost use Rattle.std.specs.Prelude.{◌≡◌, ◌≢◌, ◌≤◌, ◌++◌, ℕ, List, IsTrue, Some, Err, option_map};
ghost use Rattle.std.specs.Prelude.{IfOk, IfErr, IsErrOf, OnOk};
ghost use Rattle.ps_base.specs.declared.failing.Refusal.{Refusal as RefusalOf};
ghost use Rattle.ps_bench_frame.specs.Ending.{IsOfRun, IsUnread};
ghost use Rattle.ps_bench_frame.specs.declared.ending.Input.{Input as InputOf};
ghost use Rattle.ps_outside.specs.Outside.{Rose};
ghost use Rattle.ps_report.specs.Short.{refusal_text};
ghost use Rattle.ps_trace.specs.FaultOrder.{AreInOrder, AreOfOneChannel};
ghost use Rattle.ps_trace.specs.Reading.{IsReadingTrace, items_left, only_refused};
ghost use Rattle.ps_trace.specs.Scans.{scans_of};
ghost use Rattle.ps_bench_trace.specs.Opening.{AreFaults, IsOpened, RosesIn, SaysRefusal};

use ps_base::Refusal;
use ps_bench_frame::{Input, InputStop, Stop};
use ps_model::{App, ImageSizes};
use ps_outside::{Files, Output, TextFail, write_all};
use ps_report::refusal_line;
use ps_trace::{Faults, TraceReader, read_faults};
use std::alloc::Global;

/// Ends a call at a refusal of what a run is made of: its line is written.
pub fn refuse_input<O: Output>(out: &mut O, input: Input, refusal: Refusal) -> Stop
    ensures telling { O.tells out.new ≡ O.tells out.old }
    ensures says { SaysRefusal input refusal (O.tells out.old) (O.taken out.old) (O.taken out.new) result }
    ensures of_run { IsOfRun result }
    ensures read { ¬ IsUnread result }
    ensures unwritten { result ≡ Stop.Unwritten → Rose (O.faults out.old) (O.faults out.new) }
    ensures writes { O.faults out.old ≤ O.faults out.new }
{
    match write_all(out, refusal_line(&refusal).as_slice()) {
        Ok(()) => Stop::Input(InputStop::Refused(input, refusal)),
        Err(_) => Stop::Unwritten,
    }
}

// Ends a call that gets nothing of what a run is made of.
fn end_without<O: Output>(out: &mut O, input: Input, why: TextFail) -> Stop
    ensures telling { O.tells out.new ≡ O.tells out.old }
    ensures of_run { IsOfRun result }
    ensures of_input { (other : InputOf) (refusal : RefusalOf) →
        result ≡ Stop.Input (InputStop.Refused other refusal) → other ≡ input }
    ensures unread { IsUnread result → why ≡ TextFail.Fault }
    ensures unwritten { result ≡ Stop.Unwritten → Rose (O.faults out.old) (O.faults out.new) }
    ensures writes { O.faults out.old ≤ O.faults out.new }
    ensures says { (refusal : RefusalOf) → result ≡ Stop.Input (InputStop.Refused input refusal) →
        (why ≡ TextFail.Refused refusal)
        × (IsTrue (O.tells out.old) → O.taken out.new ≡ O.taken out.old ++ refusal_text refusal) }
{
    match why {
        TextFail::Refused(refusal) => refuse_input(out, input, refusal),
        TextFail::Fault => Stop::Input(InputStop::Unread(input)),
        TextFail::Memory => Stop::NoMemory,
    }
}

/// The faults that strike in a run: those of the file of this name, or those that are brought where no file is named.
/// Where the file is refused the line of the refusal is written.
pub fn open_faults<F: Files, O: Output>(
    alloc: Global,
    files: &mut F,
    out: &mut O,
    name: Option<&str>,
    sizes: &ImageSizes,
    brought: Faults,
) -> Result<Faults, Stop>
    requires ordered { AreInOrder brought }
    requires one_channel { AreOfOneChannel brought }
    ensures gives { IsTrue (F.tells files.old) → IfOk result (λ faults.
        AreFaults (F.held files.old) sizes.now (option_map (λ n. n.now) name.entry) brought faults) }
    ensures ordered { IfOk result AreInOrder }
    ensures one_channel { IfOk result AreOfOneChannel }
    ensures unsaid { OnOk result (O.taken out.new ≡ O.taken out.old) }
    ensures of_run { IfErr result IsOfRun }
    ensures of_faults { (refusal : RefusalOf) → result ≢ Err (Stop.Input (InputStop.Refused Input.Trace refusal)) }
    ensures unread { IfErr result (λ stop. IsUnread stop →
        RosesIn (F.faults files.old) (F.faults files.new) (option_map (λ n. n.now) name.entry)) }
    ensures unwritten { IsErrOf result Stop.Unwritten → Rose (O.faults out.old) (O.faults out.new) }
    ensures reads { (other : List ℕ) → F.faults files.old other ≤ F.faults files.new other }
    ensures writes { O.faults out.old ≤ O.faults out.new }
    ensures kept { F.held files.new ≡ F.held files.old }
    ensures reading { F.tells files.new ≡ F.tells files.old }
    ensures telling { O.tells out.new ≡ O.tells out.old }
{
    match name {
        Some(name) => match read_faults(alloc, files, name, sizes) {
            Ok(faults) => Ok(faults),
            Err(why) => Err(end_without(out, Input::Faults, why)),
        },
        None => Ok(brought),
    }
}

/// The trace of this name, after its header. Where that is refused the line of the refusal is written.
pub fn open_trace<F: Files, O: Output>(
    alloc: Global,
    files: &mut F,
    out: &mut O,
    name: &str,
    app: &App,
) -> Result<TraceReader, Stop>
    ensures opens { IsTrue (F.tells files.old) → IfOk result (λ reader.
        (text : List ℕ) × (F.held files.old name.now ≡ Some text) × IsReadingTrace reader text
        × (items_left reader text ≡ scans_of text app.now)) }
    ensures opened { IfOk result (IsOpened app.now name.now) }
    ensures of_run { IfErr result IsOfRun }
    ensures refuses { (refusal : RefusalOf) → result ≡ Err (Stop.Input (InputStop.Refused Input.Trace refusal)) →
        (IsTrue (F.tells files.old) → (text : List ℕ) × (F.held files.old name.now ≡ Some text)
        × (scans_of text app.now ≡ only_refused refusal))
        × (IsTrue (O.tells out.old) → O.taken out.new ≡ O.taken out.old ++ refusal_text refusal) }
    ensures unread { IfErr result (λ stop. IsUnread stop →
        Rose (F.faults files.old name.now) (F.faults files.new name.now)) }
    ensures unwritten { IsErrOf result Stop.Unwritten → Rose (O.faults out.old) (O.faults out.new) }
    ensures reads { (other : List ℕ) → F.faults files.old other ≤ F.faults files.new other }
    ensures writes { O.faults out.old ≤ O.faults out.new }
    ensures unsaid { OnOk result (O.taken out.new ≡ O.taken out.old) }
    ensures kept { F.held files.new ≡ F.held files.old }
    ensures reading { F.tells files.new ≡ F.tells files.old }
    ensures telling { O.tells out.new ≡ O.tells out.old }
{
    match TraceReader::start(alloc, files, name, app) {
        Ok(trace) => Ok(trace),
        Err(why) => Err(end_without(out, Input::Trace, why)),
    }
}
