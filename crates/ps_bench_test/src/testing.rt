// `test APP CASES..`: runs the cases of case files, and tells which of them fail.

ghost use Rattle.std.specs.Prelude.{◌≡◌, ◌⊎◌, ◌≤◌, ◌++◌, ◌∷◌, [], ℕ, Bool, List, All, Any, IsTrue, IfOk};
ghost use Rattle.std.specs.Prelude.{IfErr, IsErrOf, OnOk, take};
ghost use Rattle.std.specs.List.{list_all};
ghost use Rattle.ps_bench_cases.specs.Meant.{whole_case};
ghost use Rattle.ps_bench_cases.specs.Runnable.{IsRunnable};
ghost use Rattle.ps_bench_cases.specs.declared.case.Case.{Case as CaseOf};
ghost use Rattle.ps_model.specs.Network.{Network};
ghost use Rattle.ps_model.specs.declared.channel.ImageSizes.{ImageSizes};
ghost use Rattle.ps_bench_frame.specs.Ending.{IsUnread};
ghost use Rattle.ps_bench_frame.specs.Opening.{IsOfApp, IsOfText, Source, source};
ghost use Rattle.ps_bench_frame.specs.Stopping.{AreRefused, StopsAtCases, StopsIn};
ghost use Rattle.ps_outside.specs.Outside.{Rose};
ghost use Rattle.ps_model.specs.Typing.{Accepted};
ghost use Rattle.ps_bench_words.specs.Seen.{seen};
ghost use Rattle.ps_bench_test.specs.Outcome.{Ran, passes, ran_of};
ghost use Rattle.ps_bench_test.specs.Report.{case_text, refused_text};
ghost use Rattle.ps_bench_test.specs.Outcome.{counted, none_told};
ghost use Rattle.ps_bench_test.specs.Stopping.{StopsAmong, StopsInFile, StopsRunning, StopsTesting, StopsTold};
ghost use Rattle.ps_bench_test.specs.Testing.{AreToldInOrder, AreRan, AreRanFiles, FileRan, IsOutcome, IsRan};
ghost use Rattle.ps_bench_test.specs.Testing.{IsRanFile};
ghost use Rattle.ps_bench_test.specs.Testing.{cases_text, file_text, files_text, tally_of, tally_of_files};
ghost use Rattle.ps_bench_test.specs.Testing.{test_status, test_text};

use crate::telling::tell_of_nothing;
use crate::{CaseRun, Tally, report};
use ps_base::Memory;
use ps_bench_cases::{Case, CaseFile, CaseRefusal};
use ps_bench_frame::{Opened, Status, Stop, open_app, open_cases};
use ps_bench_judge::{CaseOutcome, Failure, run_case};
use ps_bench_words::Format;
use ps_message::Listener;
use ps_model::App;
use ps_outside::{Files, Output, write_all};
use std::alloc::Global;

// What the cases of a call are run on, with its name, and how they are told.
#[derive(Clone, Copy)]
pub(crate) struct Bench<'a> {
    alloc: Global,
    opened: &'a Opened,
    name: &'a str,
    format: Format,
    names: &'a [&'a str],
}

// The cases of a file of this name.
#[derive(Clone, Copy)]
struct Named<'a> {
    name: &'a str,
    file: &'a CaseFile,
}

// A case file by its place among those of the words, counted from 0, and its name.
#[derive(Clone, Copy)]
struct Place<'a> {
    place: usize,
    name: &'a str,
}

// Writes a piece of what is told, and has the output hand it on.
fn say<O: Output>(out: &mut O, text: &[u8]) -> Result<(), Stop>
    ensures all { IsTrue (O.tells out.old) → OnOk result (O.taken out.new ≡ O.taken out.old ++ text.now) }
    ensures cut { IfErr result (λ stop. stop ≡ Stop.Unwritten) }
    ensures stops { IfErr result (λ stop. StopsIn text.now stop
        (O.tells out.old) (O.taken out.old) (O.taken out.new)) }
    ensures unwritten { IsErrOf result Stop.Unwritten → Rose (O.faults out.old) (O.faults out.new) }
    ensures writes { O.faults out.old ≤ O.faults out.new }
    ensures telling { O.tells out.new ≡ O.tells out.old }
{
    write_all(out, text)?;
    out.finish()?;
    Ok(())
}

// Failures in the order of their lines, and those of a line in the order of their times.
fn sorted(failures: Vec<Failure>) -> Result<Vec<Failure>, Memory>
    ensures same { IfOk result (λ sorted. (p : Failure → Bool) → list_all p sorted.items ≡ list_all p failures.items) }
    ensures ordered { IfOk result (λ sorted. AreToldInOrder sorted.items) }
{
    let mut sorted = failures;
    sorted.sort_by_key(|failure| failure.now)?;
    sorted.sort_by_key(|failure| failure.line)?;
    Ok(sorted)
}

/// Runs a case, and gives what came of it, with its failures in the order of their lines and times. An error: memory is
/// wanting.
pub fn outcome_of(
    alloc: Global,
    app: &App,
    file: &CaseFile,
    case: &Case,
) -> Result<CaseOutcome, Memory>
    requires accepted { Accepted app.now }
    requires runnable { IsRunnable app.now (whole_case file.now case.now) }
    ensures { IfOk result (IsOutcome app.now (whole_case file.now case.now)) }
{
    let outcome = run_case(alloc, app, file, case)?;
    let CaseOutcome { scans, failures } = outcome;
    let failures = sorted(failures)?;
    Ok(CaseOutcome { scans, failures })
}

// Tells what came of a case, the next one after these.
fn tell_case<O: Output, L: Listener>(
    out: &mut O,
    listener: &mut L,
    bench: &Bench<'_>,
    before: &Tally,
    run: &CaseRun<'_>,
) -> Result<(), Stop>
    ensures says { IsTrue (O.tells out.old) → OnOk result (O.taken out.new ≡
        O.taken out.old ++ case_text bench.now.format before.now (ran_of run.now)) }
    ensures stops { IfErr result (λ stop. StopsIn (case_text bench.now.format before.now (ran_of run.now)) stop
        (O.tells out.old) (O.taken out.old) (O.taken out.new)) }
    ensures unwritten { IsErrOf result Stop.Unwritten → Rose (O.faults out.old) (O.faults out.new) }
    ensures writes { O.faults out.old ≤ O.faults out.new }
    ensures telling { O.tells out.new ≡ O.tells out.old }
{
    let text = report::case_report(bench.alloc, bench.format, before, run)?;
    say(out, text.as_slice())?;
    tell_of_nothing(bench.alloc, listener, run);
    Ok(())
}

// Runs a case, and tells what came of it.
fn test_case<O: Output, L: Listener>(
    out: &mut O,
    listener: &mut L,
    bench: &Bench<'_>,
    named: &Named<'_>,
    case: &Case,
    before: Tally,
) -> Result<Tally, Stop>
    requires accepted { Accepted bench.now.opened.now.app }
    requires runnable { IsRunnable bench.now.opened.now.app (whole_case named.now.file.now case.now) }
    ensures ran { IfOk result (λ tally. (r : Ran)
        × IsRan bench.now.opened.now.app bench.now.name.now named.now.name.now named.now.file.now case.now r
        × (tally ≡ counted before (passes r.outcome))
        × (IsTrue (O.tells out.old) → O.taken out.new ≡ O.taken out.old ++ case_text bench.now.format before r)) }
    ensures stops { IfErr result (λ stop. StopsIn [] stop
        (O.tells out.old) (O.taken out.old) (O.taken out.new)
        ⊎ ((r : Ran) × IsRan bench.now.opened.now.app bench.now.name.now named.now.name.now named.now.file.now case.now r
        × StopsIn (case_text bench.now.format before r) stop
        (O.tells out.old) (O.taken out.old) (O.taken out.new))) }
    ensures unwritten { IsErrOf result Stop.Unwritten → Rose (O.faults out.old) (O.faults out.new) }
    ensures writes { O.faults out.old ≤ O.faults out.new }
    ensures telling { O.tells out.new ≡ O.tells out.old }
{
    let app = &bench.opened.app;
    let outcome = outcome_of(bench.alloc, app, named.file, case)?;
    let run = CaseRun {
        app,
        app_name: bench.name,
        name: named.name,
        file: named.file,
        case,
        outcome: &outcome,
    };
    tell_case(out, listener, bench, &before, &run)?;
    Ok(before.and(run.passed()))
}

// Runs cases of a file, one after another, and tells what came of them.
fn test_all<O: Output, L: Listener>(
    out: &mut O,
    listener: &mut L,
    bench: &Bench<'_>,
    named: &Named<'_>,
    cases: &[Case],
    before: Tally,
) -> Result<Tally, Stop>
    requires accepted { Accepted bench.now.opened.now.app }
    requires runnable { All (λ (case : CaseOf).
        IsRunnable bench.now.opened.now.app (whole_case named.now.file.now case)) cases.now }
    ensures ran { IfOk result (λ tally. (rs : List Ran)
        × AreRan bench.now.opened.now.app bench.now.name.now named.now.name.now named.now.file.now cases.now rs
        × (tally ≡ tally_of before rs)
        × (IsTrue (O.tells out.old) → O.taken out.new ≡ O.taken out.old ++ cases_text bench.now.format before rs)) }
    ensures stops { IfErr result (λ stop. (ran : ℕ) × (rs : List Ran)
        × AreRan bench.now.opened.now.app bench.now.name.now named.now.name.now named.now.file.now (take ran cases.now) rs
        × StopsIn (cases_text bench.now.format before rs) stop
        (O.tells out.old) (O.taken out.old) (O.taken out.new)) }
    ensures unwritten { IsErrOf result Stop.Unwritten → Rose (O.faults out.old) (O.faults out.new) }
    ensures writes { O.faults out.old ≤ O.faults out.new }
    ensures telling { O.tells out.new ≡ O.tells out.old }
{
    let mut tally = before;
    for case in cases {
        tally = test_case(out, listener, bench, named, case, tally)?;
    }
    Ok(tally)
}

// Runs the cases of a file, and tells what came of them.
fn test_cases<O: Output, L: Listener>(
    out: &mut O,
    listener: &mut L,
    bench: &Bench<'_>,
    named: &Named<'_>,
    before: Tally,
) -> Result<Tally, Stop>
    requires accepted { Accepted bench.now.opened.now.app }
    requires runnable { All (λ (case : CaseOf).
        IsRunnable bench.now.opened.now.app (whole_case named.now.file.now case)) named.now.file.now.cases }
    ensures ran { IfOk result (λ tally. (rs : List Ran)
        × AreRan bench.now.opened.now.app bench.now.name.now named.now.name.now named.now.file.now named.now.file.now.cases rs
        × (tally ≡ tally_of before rs)
        × (IsTrue (O.tells out.old) → O.taken out.new ≡ O.taken out.old ++ file_text bench.now.format before
        (record { name = named.now.name.now; file = named.now.file.now; ran = rs }))) }
    ensures stops { IfErr result (λ stop. StopsRunning bench.now.opened.now.app bench.now.name.now bench.now.format before
        named.now.name.now named.now.file.now stop
        (O.tells out.old) (O.taken out.old) (O.taken out.new)) }
    ensures unwritten { IsErrOf result Stop.Unwritten → Rose (O.faults out.old) (O.faults out.new) }
    ensures writes { O.faults out.old ≤ O.faults out.new }
    ensures telling { O.tells out.new ≡ O.tells out.old }
{
    let cases = named.file.cases.as_slice();
    let head = report::file_head(bench.alloc, bench.format, named.name, cases.len())?;
    say(out, head.as_slice())?;
    let tally = test_all(out, listener, bench, named, cases, before)?;
    say(out, report::file_foot(bench.format))?;
    Ok(tally)
}

// Ends a call that gets no cases, by this refusal of the file at this place of the words, which is told.
fn refuse_told<O: Output>(
    out: &mut O,
    bench: &Bench<'_>,
    at: Place<'_>,
    refusal: CaseRefusal,
) -> Stop
    ensures stops { (from : Source) → AreRefused from at.entry.name.now refusal →
        StopsAtCases from at.entry.name.now (refused_text bench.now.format at.entry.name.now) result
        (O.tells out.old) (O.taken out.old) (O.taken out.new) }
    ensures read { ¬ IsUnread result }
    ensures unwritten { result ≡ Stop.Unwritten → Rose (O.faults out.old) (O.faults out.new) }
    ensures writes { O.faults out.old ≤ O.faults out.new }
    ensures telling { O.tells out.new ≡ O.tells out.old }
{
    match report::refused(bench.alloc, bench.format, at.name, refusal) {
        Ok(text) => match say(out, text.as_slice()) {
            Ok(()) => Stop::Cases(at.place, refusal),
            Err(_) => Stop::Unwritten,
        },
        Err(Memory) => Stop::NoMemory,
    }
}

// Reads the cases of the file at a place of the words. Where it is refused that is told.
fn open_told<F: Files, O: Output>(
    files: &mut F,
    out: &mut O,
    bench: &Bench<'_>,
    at: Place<'_>,
) -> Result<CaseFile, Stop>
    ensures of_text { IfOk result (IsOfText
        (source bench.now.opened.now.app bench.now.opened.now.sizes (F.tells files.old) (F.held files.old))
        at.entry.name.now) }
    ensures runnable { IfOk result (λ file.
        All (λ (case : CaseOf). IsRunnable bench.now.opened.now.app (whole_case file case)) file.cases) }
    ensures kept { F.held files.new ≡ F.held files.old }
    ensures reading { F.tells files.new ≡ F.tells files.old }
    ensures unsaid { OnOk result (O.taken out.new ≡ O.taken out.old) }
    ensures stops { IfErr result (λ stop. StopsAtCases
        (source bench.now.opened.now.app bench.now.opened.now.sizes (F.tells files.old) (F.held files.old))
        at.entry.name.now (refused_text bench.now.format at.entry.name.now) stop
        (O.tells out.old) (O.taken out.old) (O.taken out.new)) }
    ensures unread { IfErr result (λ stop. IsUnread stop →
        Rose (F.faults files.old at.entry.name.now) (F.faults files.new at.entry.name.now)) }
    ensures reads { (other : List ℕ) → F.faults files.old other ≤ F.faults files.new other }
    ensures unwritten { IsErrOf result Stop.Unwritten → Rose (O.faults out.old) (O.faults out.new) }
    ensures writes { O.faults out.old ≤ O.faults out.new }
    ensures telling { O.tells out.new ≡ O.tells out.old }
{
    match open_cases(bench.alloc, files, bench.opened, at.place, at.name) {
        Ok(file) => Ok(file),
        Err(Stop::Cases(_, refusal)) => Err(refuse_told(out, bench, at, refusal)),
        Err(stop) => Err(stop),
    }
}

// Runs the cases of the file at a place of the words, and tells what came of them.
fn test_file<F: Files, O: Output, L: Listener>(
    files: &mut F,
    out: &mut O,
    listener: &mut L,
    bench: &Bench<'_>,
    at: Place<'_>,
    before: Tally,
) -> Result<Tally, Stop>
    requires { Accepted bench.now.opened.now.app }
    ensures ran { IfOk result (λ tally. (f : FileRan)
        × IsRanFile (source bench.now.opened.now.app bench.now.opened.now.sizes (F.tells files.old) (F.held files.old))
        bench.now.name.now at.entry.name.now f
        × (tally ≡ tally_of before f.ran)
        × (IsTrue (O.tells out.old) → O.taken out.new ≡ O.taken out.old ++ file_text bench.now.format before f)) }
    ensures kept { F.held files.new ≡ F.held files.old }
    ensures reading { F.tells files.new ≡ F.tells files.old }
    ensures stops { IfErr result (λ stop. StopsInFile
        (source bench.now.opened.now.app bench.now.opened.now.sizes (F.tells files.old) (F.held files.old))
        bench.now.name.now bench.now.format before at.entry.name.now stop
        (O.tells out.old) (O.taken out.old) (O.taken out.new)) }
    ensures unread { IfErr result (λ stop. IsUnread stop →
        Rose (F.faults files.old at.entry.name.now) (F.faults files.new at.entry.name.now)) }
    ensures reads { (other : List ℕ) → F.faults files.old other ≤ F.faults files.new other }
    ensures unwritten { IsErrOf result Stop.Unwritten → Rose (O.faults out.old) (O.faults out.new) }
    ensures writes { O.faults out.old ≤ O.faults out.new }
    ensures telling { O.tells out.new ≡ O.tells out.old }
{
    let file = open_told(files, out, bench, at)?;
    let named = Named {
        name: at.name,
        file: &file,
    };
    let tally = test_cases(out, listener, bench, &named, before)?;
    Ok(tally)
}

// Runs the cases of all files, one after another, and tells what came of them.
fn test_files<F: Files, O: Output, L: Listener>(
    files: &mut F,
    out: &mut O,
    listener: &mut L,
    bench: &Bench<'_>,
) -> Result<Tally, Stop>
    requires { Accepted bench.now.opened.now.app }
    ensures ran { IfOk result (λ tally. (fs : List FileRan)
        × AreRanFiles
        (source bench.now.opened.now.app bench.now.opened.now.sizes (F.tells files.old) (F.held files.old))
        bench.now.name.now (seen bench.now.names.now) fs
        × (tally ≡ tally_of_files none_told fs)
        × (IsTrue (O.tells out.old) → O.taken out.new ≡ O.taken out.old ++ files_text bench.now.format none_told fs)) }
    ensures kept { F.held files.new ≡ F.held files.old }
    ensures reading { F.tells files.new ≡ F.tells files.old }
    ensures stops { IfErr result (λ stop. StopsAmong
        (source bench.now.opened.now.app bench.now.opened.now.sizes (F.tells files.old) (F.held files.old))
        bench.now.name.now bench.now.format (seen bench.now.names.now) stop
        (O.tells out.old) (O.taken out.old) (O.taken out.new)) }
    ensures unread { IfErr result (λ stop. IsUnread stop →
        Any (λ (name : List ℕ). Rose (F.faults files.old name) (F.faults files.new name)) (seen bench.now.names.now)) }
    ensures unwritten { IsErrOf result Stop.Unwritten → Rose (O.faults out.old) (O.faults out.new) }
    ensures writes { O.faults out.old ≤ O.faults out.new }
    ensures telling { O.tells out.new ≡ O.tells out.old }
{
    let mut tally = Tally::none();
    let mut place = 0;
    for name in bench.names {
        let at = Place { place, name: *name };
        tally = test_file(files, out, listener, bench, at, tally)?;
        place += 1;
    }
    Ok(tally)
}

// Runs the cases of all files, and tells what came of them from the head to the foot.
fn test_told<F: Files, O: Output, L: Listener>(
    files: &mut F,
    out: &mut O,
    listener: &mut L,
    bench: &Bench<'_>,
) -> Result<Tally, Stop>
    requires { Accepted bench.now.opened.now.app }
    ensures ran { IfOk result (λ tally. (fs : List FileRan)
        × AreRanFiles
        (source bench.now.opened.now.app bench.now.opened.now.sizes (F.tells files.old) (F.held files.old))
        bench.now.name.now (seen bench.now.names.now) fs
        × (tally ≡ tally_of_files none_told fs)
        × (IsTrue (O.tells out.old) → O.taken out.new ≡ O.taken out.old ++ test_text bench.now.format fs)) }
    ensures stops { IfErr result (λ stop. StopsTold
        (source bench.now.opened.now.app bench.now.opened.now.sizes (F.tells files.old) (F.held files.old))
        bench.now.name.now bench.now.format (seen bench.now.names.now) stop
        (O.tells out.old) (O.taken out.old) (O.taken out.new)) }
    ensures unread { IfErr result (λ stop. IsUnread stop →
        Any (λ (name : List ℕ). Rose (F.faults files.old name) (F.faults files.new name)) (seen bench.now.names.now)) }
    ensures unwritten { IsErrOf result Stop.Unwritten → Rose (O.faults out.old) (O.faults out.new) }
    ensures writes { O.faults out.old ≤ O.faults out.new }
    ensures telling { O.tells out.new ≡ O.tells out.old }
{
    say(out, report::head(bench.format))?;
    let tally = test_files(files, out, listener, bench)?;
    let foot = report::foot(bench.alloc, bench.format, &tally)?;
    say(out, foot.as_slice())?;
    Ok(tally)
}

// The status of a call that ran all cases.
fn status_of(tally: &Tally) -> Status
    ensures { (fs : List FileRan) → tally.now ≡ tally_of_files none_told fs → result ≡ test_status fs }
{
    if tally.failed == 0 {
        Status::Done
    } else {
        Status::Failed
    }
}

/// What `test` is asked: the names of an application and of case files, and how results are told.
#[derive(Clone, Copy)]
pub struct Asked<'a> {
    pub app: &'a str,
    pub cases: &'a [&'a str],
    pub format: Format,
}

/// `test APP CASES..`: how the call ended, where nothing stopped it. Then each case of each file was run, and its
/// status is Done exactly where all passed, and else Failed. Where a file cannot be read its count rose in this call,
/// and where the output cannot be written the output's did.
pub fn test<F: Files, O: Output, L: Listener>(
    alloc: Global,
    files: &mut F,
    out: &mut O,
    listener: &mut L,
    asked: &Asked<'_>,
) -> Result<Status, Stop>
    ensures ran { IfOk result (λ status. (net : Network) × (sizes : ImageSizes)
        × IsOfApp (source net sizes (F.tells files.old) (F.held files.old)) asked.now.app.now
        × (fs : List FileRan)
        × AreRanFiles (source net sizes (F.tells files.old) (F.held files.old)) asked.now.app.now
        (seen asked.now.cases.now) fs
        × (status ≡ test_status fs)
        × (IsTrue (O.tells out.old) → O.taken out.new ≡ O.taken out.old ++ test_text asked.now.format fs)) }
    ensures stops { IfErr result (λ stop. StopsTesting (F.tells files.old) (F.held files.old)
        asked.now.app.now (seen asked.now.cases.now) asked.now.format stop
        (O.tells out.old) (O.taken out.old) (O.taken out.new)) }
    ensures unread { IfErr result (λ stop. IsUnread stop →
        Any (λ (name : List ℕ). Rose (F.faults files.old name) (F.faults files.new name))
        (asked.now.app.now ∷ seen asked.now.cases.now)) }
    ensures unwritten { IsErrOf result Stop.Unwritten → Rose (O.faults out.old) (O.faults out.new) }
    ensures writes { O.faults out.old ≤ O.faults out.new }
    ensures telling { O.tells out.new ≡ O.tells out.old }
{
    let opened = open_app(alloc, files, out, asked.app)?;
    let bench = Bench {
        alloc,
        opened: &opened,
        name: asked.app,
        format: asked.format,
        names: asked.cases,
    };
    let tally = test_told(files, out, listener, &bench)?;
    Ok(status_of(&tally))
}
