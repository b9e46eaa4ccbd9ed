// `watch APP TRACE [NAME..]`: what happens in a run, by name.

ghost use Rattle.std.specs.Prelude.{◌≡◌, ◌≢◌, ◌≤◌, ◌⊎◌, ℕ, List, IsTrue, Some, Ok, Err, option_map};
ghost use Rattle.std.specs.Prelude.{IfOk, IfErr, IsErrOf, OnOk};
ghost use Rattle.ps_base.specs.declared.failing.Refusal.{Refusal as RefusalOf};
ghost use Rattle.ps_bench_frame.specs.Ending.{IsOfRun, IsUnread};
ghost use Rattle.ps_bench_frame.specs.Meant.{file_meant};
ghost use Rattle.ps_bench_frame.specs.Opening.{source};
ghost use Rattle.ps_bench_frame.specs.Stopping.{Took};
ghost use Rattle.ps_bench_frame.specs.declared.ending.Input.{Input as InputOf};
ghost use Rattle.ps_bench_messages.specs.Remarking.{RemarksIf};
ghost use Rattle.ps_bench_words.specs.Seen.{seen};
ghost use Rattle.ps_bench_words.specs.declared.asking.Layout.{Layout as LayoutOf};
ghost use Rattle.ps_bench_words.specs.declared.asking.Layout.TheVariants.{Vcd};
ghost use Rattle.ps_edge.specs.Hearing.{listener_seen};
ghost use Rattle.ps_model.specs.Network.{input_count};
ghost use Rattle.ps_outside.specs.Outside.{Rose};
ghost use Rattle.ps_report.specs.Short.{refusal_text};
ghost use Rattle.ps_model.specs.Typing.{Accepted};
ghost use Rattle.ps_runs.specs.Running.{IsBeginning};
ghost use Rattle.ps_trace.specs.FaultOrder.{AreInOrder, AreOfOneChannel};
ghost use Rattle.ps_trace.specs.Reading.{IsReadingTrace, file_of, input_count_of, items_left};
ghost use Rattle.ps_top.specs.Program.{region_sizes};
ghost use Rattle.ps_bench_trace.specs.Opening.{AreFaults, RosesIn};
ghost use Rattle.ps_bench_trace.specs.Playing.{MeansPlay, trace_held};
ghost use Rattle.ps_bench_trace.specs.Remarking.{TellsNoCase};
ghost use Rattle.ps_bench_watch.specs.Asking.{AnswersIn, AnswersWatch, IsRisen, StopsWatch};
ghost use Rattle.ps_bench_watch.specs.Asking.{default_in, head_in, text_in, wanted_by};
ghost use Rattle.ps_bench_watch.specs.Naming.{AreWatched};
ghost use Rattle.ps_bench_watch.specs.Prepared.{IsPlayerFor, IsPlayerOf, IsPrepared, layout_of, performer_of};
ghost use Rattle.ps_bench_watch.specs.Remarking.{HearsWatch, TellsUnmeant};
ghost use Rattle.ps_bench_watch.specs.Showing.{ComesOfHeld, ComesOfRun, MakesRun, Run, Shows};
ghost use Rattle.ps_bench_watch.specs.Stopping.{EndsBehind};

use crate::naming::watched_names;
use crate::player::{Player, changes_of, lines_of};
use crate::wires::wires_of;
use ps_base::{Bytes, Memory};
use ps_bench_frame::{Input, InputStop, Opened, Status, Stop, open_app, word_of};
use ps_bench_messages::tell_no_name;
use ps_bench_names::Name;
use ps_bench_trace::{Expansion, Play, open_play, refuse_input};
use ps_bench_waves::{Format, head_of, header_of, parts_of};
use ps_bench_words::Layout;
use ps_edge::KnownListener;
use ps_model::{App, ImageSizes};
use ps_outside::{Files, Output, write_all};
use ps_runs::{Cut, StruckWorld};
use ps_trace::{Faults, TraceFail, TraceReader, read_faults};
use ps_world::World;
use std::alloc::Global;

/// What `watch` is asked.
#[derive(Clone, Copy)]
pub struct Asked<'a> {
    /// The name of the application.
    pub app: &'a str,
    /// The word in the place of a trace.
    pub trace: &'a str,
    /// What is to be watched; none: what the format has by default.
    pub names: &'a [&'a str],
    /// The name of the fault file, if faults are to strike.
    pub faults: Option<&'a str>,
    /// How the run is written.
    pub layout: Layout,
}

/// A run before its first scan, with who writes it, and what stands before the first scan.
pub(crate) struct Prepared {
    pub(crate) head: Bytes,
    pub(crate) player: Player,
}

impl Drop for Prepared {
    // One call for whoever owns one, in place of a walk through all that it holds.
    fn drop(self) {
        let Prepared { head: _, player: _ } = self;
    }
}

// A run in a world that is written in a format, before its first scan.
fn prepare_lines(
    alloc: Global,
    app: &App,
    format: Format,
    names: &[Name],
    world: StruckWorld,
) -> Result<Prepared, Memory>
    requires { IsBeginning app.now world }
    ensures fits { IfOk result (λ p. IsPlayerFor app.now p.player) }
    ensures world { IfOk result (λ p. (performer_of p.player).performer ≡ world) }
    ensures head { IfOk result (λ p. p.head ≡ head_in app.now (layout_of format) names.now) }
    ensures player { IfOk result (λ p. IsPlayerOf app.now (layout_of format) names.now p.player) }
{
    let player = lines_of(alloc, app, format, names, world)?;
    let head = head_of(alloc, app, format, names)?;
    Ok(Prepared { head, player })
}

// A run in a world whose value changes are written, before its first scan.
fn prepare_changes(
    alloc: Global,
    app: &App,
    names: &[Name],
    world: StruckWorld,
) -> Result<Prepared, Memory>
    requires { IsBeginning app.now world }
    ensures fits { IfOk result (λ p. IsPlayerFor app.now p.player) }
    ensures world { IfOk result (λ p. (performer_of p.player).performer ≡ world) }
    ensures head { IfOk result (λ p. p.head ≡ head_in app.now Vcd names.now) }
    ensures player { IfOk result (λ p. IsPlayerOf app.now Vcd names.now p.player) }
{
    let parts = parts_of(alloc, names)?;
    let wires = wires_of(alloc, app, parts.as_slice())?;
    let head = header_of(alloc, wires.as_slice())?;
    let player = changes_of(alloc, app, parts, world)?;
    Ok(Prepared { head, player })
}

// A run in a world, before its first scan, with who writes these names in a layout. It takes all memory that the run
// will use.
fn prepare(
    alloc: Global,
    app: &App,
    layout: Layout,
    names: &[Name],
    world: StruckWorld,
) -> Result<Prepared, Memory>
    requires { IsBeginning app.now world }
    ensures fits { IfOk result (λ p. IsPlayerFor app.now p.player) }
    ensures world { IfOk result (λ p. (performer_of p.player).performer ≡ world) }
    ensures head { IfOk result (λ p. p.head ≡ head_in app.now layout names.now) }
    ensures player { IfOk result (λ p. IsPlayerOf app.now layout names.now p.player) }
{
    match layout {
        Layout::Text => prepare_lines(alloc, app, Format::Text, names, world),
        Layout::Csv => prepare_lines(alloc, app, Format::Csv, names, world),
        Layout::Json => prepare_lines(alloc, app, Format::Json, names, world),
        Layout::Vcd => prepare_changes(alloc, app, names, world),
    }
}

// Ends a call that gets nothing of what a run is made of: the line of a refusal is written, and else nothing.
fn end_without<O: Output>(out: &mut O, input: Input, why: TraceFail) -> Stop
    ensures says { (refusal : RefusalOf) → result ≡ Stop.Input (InputStop.Refused input refusal) →
        (why ≡ TraceFail.Refused refusal)
        × Took (refusal_text refusal) (O.tells out.old) (O.taken out.old) (O.taken out.new) }
    ensures of_run { IsOfRun result }
    ensures of_input { (other : InputOf) (refusal : RefusalOf) →
        result ≡ Stop.Input (InputStop.Refused other refusal) → other ≡ input }
    ensures unread { IsUnread result → why ≡ TraceFail.Fault }
    ensures unsaid { IsUnread result → O.taken out.new ≡ O.taken out.old }
    ensures unwritten { result ≡ Stop.Unwritten → Rose (O.faults out.old) (O.faults out.new) }
    ensures writes { O.faults out.old ≤ O.faults out.new }
    ensures telling { O.tells out.new ≡ O.tells out.old }
{
    match why {
        TraceFail::Refused(refusal) => refuse_input(out, input, refusal),
        TraceFail::Fault => Stop::Input(InputStop::Unread(input)),
        TraceFail::Memory => Stop::NoMemory,
    }
}

// Why a call stops whose run was cut short.
fn stop_behind<O: Output>(out: &mut O, cut: Cut) -> Stop
    ensures ends { EndsBehind (Err cut) (O.tells out.old) (O.taken out.old) (O.taken out.new) (Err result) }
    ensures of_run { IsOfRun result }
    ensures unread { IsUnread result → cut ≡ Cut.Unread }
    ensures unwritten { result ≡ Stop.Unwritten → (cut ≡ Cut.Unwritten) ⊎ Rose (O.faults out.old) (O.faults out.new) }
    ensures writes { O.faults out.old ≤ O.faults out.new }
    ensures telling { O.tells out.new ≡ O.tells out.old }
{
    match cut {
        Cut::Refused(refusal) => refuse_input(out, Input::Trace, refusal),
        Cut::Unread => Stop::Input(InputStop::Unread(Input::Trace)),
        Cut::Unwritten => Stop::Unwritten,
    }
}

// How a call ends whose run ended so.
fn ended<O: Output>(out: &mut O, ran: Result<(), Cut>) -> Result<(), Stop>
    ensures ends { EndsBehind ran (O.tells out.old) (O.taken out.old) (O.taken out.new) result }
    ensures of_run { IfErr result IsOfRun }
    ensures unread { IfErr result (λ stop. IsUnread stop → ran ≡ Err Cut.Unread) }
    ensures unwritten { IsErrOf result Stop.Unwritten →
        (ran ≡ Err Cut.Unwritten) ⊎ Rose (O.faults out.old) (O.faults out.new) }
    ensures writes { O.faults out.old ≤ O.faults out.new }
    ensures telling { O.tells out.new ≡ O.tells out.old }
{
    match ran {
        Ok(()) => Ok(()),
        Err(cut) => Err(stop_behind(out, cut)),
    }
}

// Makes a run of a trace that is read from its beginning, and writes what is watched of it.
fn show<F: Files, O: Output>(
    files: &mut F,
    out: &mut O,
    app: &App,
    trace: &mut TraceReader,
    prepared: &mut Prepared,
) -> Result<(), Stop>
    requires fits { IsPlayerFor app.now prepared.old.player }
    requires first { (performer_of prepared.old.player).performer.world.state.last ≡ 0 }
    requires inputs { input_count_of trace.old ≡ input_count app.now }
    ensures shows { IsTrue (F.tells files.old) → (text : List ℕ) →
        F.held files.old (file_of trace.old) ≡ Some text → IsReadingTrace trace.old text →
        (layout : LayoutOf) (run : Run) → IsPrepared app.now layout run prepared.old →
        Shows app.now (text_in app.now layout run) (items_left trace.old text) (O.tells out.old) (O.taken out.old)
        (O.taken out.new) result }
    ensures of_run { IfErr result IsOfRun }
    ensures unread { IfErr result (λ stop. IsUnread stop →
        Rose (F.faults files.old (file_of trace.old)) (F.faults files.new (file_of trace.old))) }
    ensures unwritten { IsErrOf result Stop.Unwritten → Rose (O.faults out.old) (O.faults out.new) }
    ensures reads { (other : List ℕ) → F.faults files.old other ≤ F.faults files.new other }
    ensures writes { O.faults out.old ≤ O.faults out.new }
    ensures telling { O.tells out.new ≡ O.tells out.old }
{
    match write_all(out, prepared.head.as_slice()) {
        Ok(()) => {
            let ran = prepared.player.play(app, trace, files, out);
            ended(out, ran)
        }
        Err(_) => Err(Stop::Unwritten),
    }
}

// Opens the trace of this name, makes the run, and writes what is watched of it.
fn show_named<F: Files, O: Output>(
    alloc: Global,
    files: &mut F,
    out: &mut O,
    app: &App,
    name: &str,
    prepared: &mut Prepared,
) -> Result<(), Stop>
    requires fits { IsPlayerFor app.now prepared.old.player }
    requires first { (performer_of prepared.old.player).performer.world.state.last ≡ 0 }
    ensures comes { IsTrue (F.tells files.old) → (layout : LayoutOf) (run : Run) →
        IsPrepared app.now layout run prepared.old → MakesRun
        (ComesOfHeld app.now (text_in app.now layout run) (F.held files.old name.now) (O.tells out.old)
        (O.taken out.old) (O.taken out.new) result) (O.tells out.old) (O.taken out.old) (O.taken out.new) result }
    ensures of_run { IfErr result IsOfRun }
    ensures unread { IfErr result (λ stop. IsUnread stop →
        Rose (F.faults files.old name.now) (F.faults files.new name.now)) }
    ensures unwritten { IsErrOf result Stop.Unwritten → Rose (O.faults out.old) (O.faults out.new) }
    ensures reads { (other : List ℕ) → F.faults files.old other ≤ F.faults files.new other }
    ensures writes { O.faults out.old ≤ O.faults out.new }
    ensures telling { O.tells out.new ≡ O.tells out.old }
{
    match TraceReader::start(alloc, files, name, app) {
        Ok(mut trace) => show(files, out, app, &mut trace, prepared),
        Err(why) => Err(end_without(out, Input::Trace, why)),
    }
}

// Makes the run of the trace of these cases, or else of the file that a word names, and writes what is watched of it.
fn show_play<F: Files, O: Output>(
    alloc: Global,
    files: &mut F,
    out: &mut O,
    app: &App,
    word: &str,
    cases: Option<Expansion>,
    prepared: &mut Prepared,
) -> Result<(), Stop>
    requires fits { IsPlayerFor app.now prepared.old.player }
    requires first { (performer_of prepared.old.player).performer.world.state.last ≡ 0 }
    ensures comes { IsTrue (F.tells files.old) → (layout : LayoutOf) (run : Run) →
        IsPrepared app.now layout run prepared.old → MakesRun
        (ComesOfHeld app.now (text_in app.now layout run) (trace_held cases (F.held files.old (file_meant word.now)))
        (O.tells out.old) (O.taken out.old) (O.taken out.new) result)
        (O.tells out.old) (O.taken out.old) (O.taken out.new) result }
    ensures of_run { IfErr result IsOfRun }
    ensures unread { IfErr result (λ stop. IsUnread stop →
        Rose (F.faults files.old (file_meant word.now)) (F.faults files.new (file_meant word.now))) }
    ensures unwritten { IsErrOf result Stop.Unwritten → Rose (O.faults out.old) (O.faults out.new) }
    ensures reads { (other : List ℕ) → F.faults files.old other ≤ F.faults files.new other }
    ensures writes { O.faults out.old ≤ O.faults out.new }
    ensures telling { O.tells out.new ≡ O.tells out.old }
{
    let word = word_of(word);
    match cases {
        Some(mut cases) => show_named(alloc, &mut cases, out, app, word.file, prepared),
        None => show_named(alloc, files, out, app, word.file, prepared),
    }
}

// The faults that strike in a run: those of the file of this name, or those that are brought where no file is named.
// Where the file is refused the line of the refusal is written, and where it cannot be read nothing.
fn faults_named<F: Files, O: Output>(
    alloc: Global,
    files: &mut F,
    out: &mut O,
    name: Option<&str>,
    sizes: &ImageSizes,
    brought: Faults,
) -> Result<Faults, Stop>
    requires ordered { AreInOrder brought }
    requires one_channel { AreOfOneChannel brought }
    ensures gives { IsTrue (F.tells files.old) → IfOk result (λ faults.
        AreFaults (F.held files.old) sizes.now (option_map (λ n. n.now) name.entry) brought faults) }
    ensures ordered { IfOk result AreInOrder }
    ensures one_channel { IfOk result AreOfOneChannel }
    ensures unsaid { OnOk result (O.taken out.new ≡ O.taken out.old) }
    ensures unread_unsaid { IfErr result (λ stop. IsUnread stop → O.taken out.new ≡ O.taken out.old) }
    ensures of_run { IfErr result IsOfRun }
    ensures of_faults { (refusal : RefusalOf) → result ≢ Err (Stop.Input (InputStop.Refused Input.Trace refusal)) }
    ensures unread { IfErr result (λ stop. IsUnread stop →
        RosesIn (F.faults files.old) (F.faults files.new) (option_map (λ n. n.now) name.entry)) }
    ensures unwritten { IsErrOf result Stop.Unwritten → Rose (O.faults out.old) (O.faults out.new) }
    ensures reads { (other : List ℕ) → F.faults files.old other ≤ F.faults files.new other }
    ensures writes { O.faults out.old ≤ O.faults out.new }
    ensures kept { F.held files.new ≡ F.held files.old }
    ensures reading { F.tells files.new ≡ F.tells files.old }
    ensures telling { O.tells out.new ≡ O.tells out.old }
{
    match name {
        Some(name) => match read_faults(alloc, files, name, sizes) {
            Ok(faults) => Ok(faults),
            Err(why) => Err(end_without(out, Input::Faults, why)),
        },
        None => Ok(brought),
    }
}

// The world of an application before the first scan, which faults will strike: those of a file, if one is named, and
// else these.
fn struck_world<F: Files, O: Output>(
    alloc: Global,
    files: &mut F,
    out: &mut O,
    app: &App,
    name: Option<&str>,
    brought: Faults,
) -> Result<StruckWorld, Stop>
    requires accepted { Accepted app.now }
    requires ordered { AreInOrder brought }
    requires one_channel { AreOfOneChannel brought }
    ensures begins { IfOk result (IsBeginning app.now) }
    ensures faults { IsTrue (F.tells files.old) → IfOk result (λ world. AreFaults (F.held files.old)
        (region_sizes world.world.setup) (option_map (λ n. n.now) name.entry) brought world.faults) }
    ensures unsaid { OnOk result (O.taken out.new ≡ O.taken out.old) }
    ensures unread_unsaid { IfErr result (λ stop. IsUnread stop → O.taken out.new ≡ O.taken out.old) }
    ensures of_run { IfErr result IsOfRun }
    ensures of_faults { (refusal : RefusalOf) → result ≢ Err (Stop.Input (InputStop.Refused Input.Trace refusal)) }
    ensures unread { IfErr result (λ stop. IsUnread stop →
        RosesIn (F.faults files.old) (F.faults files.new) (option_map (λ n. n.now) name.entry)) }
    ensures unwritten { IsErrOf result Stop.Unwritten → Rose (O.faults out.old) (O.faults out.new) }
    ensures reads { (other : List ℕ) → F.faults files.old other ≤ F.faults files.new other }
    ensures writes { O.faults out.old ≤ O.faults out.new }
    ensures kept { F.held files.new ≡ F.held files.old }
    ensures reading { F.tells files.new ≡ F.tells files.old }
    ensures telling { O.tells out.new ≡ O.tells out.old }
{
    let world = World::build(alloc, app)?;
    let faults = faults_named(alloc, files, out, name, &world.sizes(), brought)?;
    Ok(StruckWorld::new(world, faults))
}

// Writes what is watched, of these names, of the run that is asked for, where the word for its trace means this.
fn watch_play<F: Files, O: Output>(
    alloc: Global,
    files: &mut F,
    out: &mut O,
    opened: &Opened,
    asked: &Asked<'_>,
    names: &[Name],
    play: Play,
) -> Result<(), Stop>
    requires accepted { Accepted opened.now.app }
    requires names { AreWatched opened.now.app (default_in opened.now.app asked.now.layout)
        (seen asked.now.names.now) names.now }
    requires means { MeansPlay
        (source opened.now.app opened.now.sizes (F.tells files.old) (F.held files.old)) asked.now.trace.now
        play.cases play.faults }
    requires ordered { AreInOrder play.faults }
    requires one_channel { AreOfOneChannel play.faults }
    ensures comes { ComesOfRun (source opened.now.app opened.now.sizes (F.tells files.old) (F.held files.old))
        (text_in opened.now.app asked.now.layout) (default_in opened.now.app asked.now.layout) (wanted_by asked.now)
        (O.tells out.old) (O.taken out.old) (O.taken out.new) result }
    ensures of_run { IfErr result IsOfRun }
    ensures unread { IfErr result (λ stop. IsUnread stop →
        IsRisen (wanted_by asked.now) (F.faults files.old) (F.faults files.new)) }
    ensures unwritten { IsErrOf result Stop.Unwritten → Rose (O.faults out.old) (O.faults out.new) }
    ensures reads { (other : List ℕ) → F.faults files.old other ≤ F.faults files.new other }
    ensures writes { O.faults out.old ≤ O.faults out.new }
    ensures telling { O.tells out.new ≡ O.tells out.old }
{
    let Play { cases, faults } = play;
    let app = &opened.app;
    let world = match struck_world(alloc, files, out, app, asked.faults, faults) {
        Ok(world) => world,
        Err(stop) => return Err(stop),
    };
    match prepare(alloc, app, asked.layout, names, world) {
        Ok(mut prepared) => { show_play(alloc, files, out, app, asked.trace, cases, &mut prepared) }
        Err(Memory) => Err(Stop::NoMemory),
    }
}

// Writes what is watched, of these names, of the run that is asked for; or tells that no case has the line that is
// asked for.
fn watch_names<F: Files, O: Output, L: KnownListener>(
    alloc: Global,
    files: &mut F,
    out: &mut O,
    listener: &mut L,
    opened: &Opened,
    asked: &Asked<'_>,
    names: &[Name],
) -> Result<Status, Stop>
    requires accepted { Accepted opened.now.app }
    requires names { AreWatched opened.now.app (default_in opened.now.app asked.now.layout)
        (seen asked.now.names.now) names.now }
    ensures answers { AnswersIn (source opened.now.app opened.now.sizes (F.tells files.old) (F.held files.old))
        asked.now.layout (wanted_by asked.now) (O.tells out.old) (O.taken out.old) (O.taken out.new) result }
    ensures unread { IfErr result (λ stop. IsUnread stop →
        IsRisen (wanted_by asked.now) (F.faults files.old) (F.faults files.new)) }
    ensures unwritten { IsErrOf result Stop.Unwritten → Rose (O.faults out.old) (O.faults out.new) }
    ensures reads { (other : List ℕ) → F.faults files.old other ≤ F.faults files.new other }
    ensures writes { O.faults out.old ≤ O.faults out.new }
    ensures telling { O.tells out.new ≡ O.tells out.old }
    ensures told { IsTrue (L.tells listener.old) → RemarksIf (result ≡ Ok Status.Usage) (TellsNoCase
        (source opened.now.app opened.now.sizes (F.tells files.old) (F.held files.old)) asked.now.trace.now)
        (listener_seen L.quiet L.heard L.reads L.unread L.room listener.old) (L.heard listener.new) }
    ensures listening { L.tells listener.new ≡ L.tells listener.old }
{
    match open_play(alloc, files, out, listener, opened, asked.trace) {
        Ok(Some(play)) => match watch_play(alloc, files, out, opened, asked, names, play) {
            Ok(()) => Ok(Status::Done),
            Err(stop) => Err(stop),
        },
        Ok(None) => Ok(Status::Usage),
        Err(stop) => Err(stop),
    }
}

// Writes what is watched of the run that is asked for, of an application; or tells which word means nothing.
fn watch_app<F: Files, O: Output, L: KnownListener>(
    alloc: Global,
    files: &mut F,
    out: &mut O,
    listener: &mut L,
    opened: &Opened,
    asked: &Asked<'_>,
) -> Result<Status, Stop>
    requires { Accepted opened.now.app }
    ensures answers { AnswersIn (source opened.now.app opened.now.sizes (F.tells files.old) (F.held files.old))
        asked.now.layout (wanted_by asked.now) (O.tells out.old) (O.taken out.old) (O.taken out.new) result }
    ensures unread { IfErr result (λ stop. IsUnread stop →
        IsRisen (wanted_by asked.now) (F.faults files.old) (F.faults files.new)) }
    ensures unwritten { IsErrOf result Stop.Unwritten → Rose (O.faults out.old) (O.faults out.new) }
    ensures reads { (other : List ℕ) → F.faults files.old other ≤ F.faults files.new other }
    ensures writes { O.faults out.old ≤ O.faults out.new }
    ensures telling { O.tells out.new ≡ O.tells out.old }
    ensures told { IsTrue (L.tells listener.old) → RemarksIf (result ≡ Ok Status.Usage) (TellsUnmeant asked.now.app.now
        (wanted_by asked.now) (source opened.now.app opened.now.sizes (F.tells files.old) (F.held files.old)))
        (listener_seen L.quiet L.heard L.reads L.unread L.room listener.old) (L.heard listener.new) }
    ensures listening { L.tells listener.new ≡ L.tells listener.old }
{
    let found = watched_names(alloc, &opened.app, asked.layout, asked.names)?;
    match found {
        Ok(names) => watch_names(alloc, files, out, listener, opened, asked, names.as_slice()),
        Err(word) => {
            tell_no_name(alloc, listener, asked.app, word);
            Ok(Status::Usage)
        }
    }
}

/// `watch APP TRACE [NAME..]`: writes what is watched of the run of a trace, where the faults of a file strike it if
/// one is named. In the place of a trace may stand a case file, for the trace of all of its cases, or a case file and
/// a line of it, for the case that has this line: then its own faults strike where no fault file is named.
///
/// The status is Done where the run was written to the end of its trace, and Usage where a word names nothing, or a
/// line in no case: that is told, and nothing is written. Where the application, the case file, the faults or the
/// header of the trace are refused, the line of the refusal is written in their place, and where a later line of the
/// trace is, after what comes before it. The run takes no memory.
pub fn watch<F: Files, O: Output, L: KnownListener>(
    alloc: Global,
    files: &mut F,
    out: &mut O,
    listener: &mut L,
    asked: &Asked<'_>,
) -> Result<Status, Stop>
    ensures answers { IfOk result (AnswersWatch asked.now.app.now asked.now.layout (wanted_by asked.now)
        (F.tells files.old) (F.held files.old) (O.tells out.old) (O.taken out.old) (O.taken out.new)) }
    ensures stops { IfErr result (StopsWatch asked.now.app.now asked.now.layout (wanted_by asked.now)
        (F.tells files.old) (F.held files.old) (O.tells out.old) (O.taken out.old) (O.taken out.new)) }
    ensures unread { IfErr result (λ stop. IsUnread stop →
        Rose (F.faults files.old asked.now.app.now) (F.faults files.new asked.now.app.now)
        ⊎ IsRisen (wanted_by asked.now) (F.faults files.old) (F.faults files.new)) }
    ensures unwritten { IsErrOf result Stop.Unwritten → Rose (O.faults out.old) (O.faults out.new) }
    ensures writes { O.faults out.old ≤ O.faults out.new }
    ensures telling { O.tells out.new ≡ O.tells out.old }
    ensures told { IsTrue (L.tells listener.old) → HearsWatch asked.now.app.now (wanted_by asked.now)
        (F.tells files.old) (F.held files.old) result
        (listener_seen L.quiet L.heard L.reads L.unread L.room listener.old) (L.heard listener.new) }
    ensures listening { L.tells listener.new ≡ L.tells listener.old }
{
    match open_app(alloc, files, out, asked.app) {
        Ok(opened) => watch_app(alloc, files, out, listener, &opened, asked),
        Err(stop) => Err(stop),
    }
}
