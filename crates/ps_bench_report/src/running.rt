// The cases of files are run, with a row for the result of each, and what else is shown of them.

ghost use Rattle.std.specs.Prelude.{◌≡◌, [], ◌∷◌, ℕ, List, All, Any, IsTrue, OnOk};
ghost use Rattle.ps_bench_cover.specs.Leaving.{Leaves, sides};
ghost use Rattle.ps_bench_frame.specs.Opening.{source};
ghost use Rattle.ps_bench_words.specs.Seen.{seen};
ghost use Rattle.ps_bench_cases.specs.Meant.{whole_case};
ghost use Rattle.ps_bench_cases.specs.Runnable.{IsRunnable};
ghost use Rattle.ps_bench_cases.specs.declared.case.Case.{Case as CaseOf};
ghost use Rattle.ps_model.specs.Typing.{Accepted};
ghost use Rattle.ps_outside.specs.Outside.{Rose};
ghost use Rattle.ps_bench_report.specs.Files.{file_row};
ghost use Rattle.ps_bench_report.specs.Paged.{Adds};
ghost use Rattle.ps_bench_trials.specs.Naming.{Names};
ghost use Rattle.ps_bench_report.specs.Running.{EndsFile, EndsFiles, ReadsFile, ShowsCases, stop_by};
ghost use Rattle.ps_bench_test.specs.Testing.{AreRan, IsRan};
ghost use Rattle.ps_bench_test.specs.Outcome.{Ran};

use crate::page::Page;
use crate::showing::add_section;
use crate::tables::{add_case, add_file};
use ps_base::Memory;
use ps_base::limits::LARGEST_TRACE;
use ps_bench_cases::{Case, CaseFile};
use ps_bench_frame::{HeldText, Opened, Stop, open_written_cases};
use ps_bench_test::{CaseRun, Tally, outcome_of};
use ps_bench_trials::name_of_file;
use ps_cover::Cover;
use ps_outside::{Files, Output, ReadFail};
use std::alloc::Global;

/// What the cases of a report are run on, with its name.
#[derive(Clone, Copy)]
pub(crate) struct Bench<'a> {
    pub(crate) alloc: Global,
    pub(crate) opened: &'a Opened,
    pub(crate) name: &'a str,
}

/// The pages that a report is made of, as far as files and their cases are shown in them.
pub(crate) struct Pages<'a> {
    /// What stands before the rows of the results, up to the rows of the files.
    pub(crate) front: Page,
    /// The rows of the results.
    pub(crate) rows: Page,
    /// The parts of the cases.
    pub(crate) sections: Page,
    /// How many cases were run, and failed.
    pub(crate) tally: Tally,
    /// What their scans have shown of the application.
    pub(crate) cover: Cover<'a>,
}

impl<'a> Drop for Pages<'a> {
    // One call for whoever owns one, in place of a walk through all that it holds.
    fn drop(self) {
        let Pages {
            front: _,
            rows: _,
            sections: _,
            tally: _,
            cover: _,
        } = self;
    }
}

// A case file, with its place among those of the words, counted from 0, and its name.
#[derive(Clone, Copy)]
struct Named<'a> {
    place: usize,
    name: &'a str,
    file: &'a CaseFile,
}

// Runs a case, with a row for its result, and counts it.
fn run_case(
    bench: &Bench<'_>,
    named: &Named<'_>,
    case: &Case,
    pages: &mut Pages<'_>,
) -> Result<(), Memory>
    requires accepted { Accepted bench.now.opened.now.app }
    requires runnable { IsRunnable bench.now.opened.now.app (whole_case named.now.file.now case.now) }
    ensures { OnOk result ((r : Ran)
        × IsRan bench.now.opened.now.app bench.now.name.now named.now.name.now named.now.file.now case.now r
        × ShowsCases bench.now.opened.now.app named.now.place (r ∷ []) pages.old pages.new) }
{
    let app = &bench.opened.app;
    let outcome = outcome_of(bench.alloc, app, named.file, case)?;
    let run = CaseRun {
        app,
        app_name: bench.name,
        name: named.name,
        file: named.file,
        case,
        outcome: &outcome,
    };
    add_case(&mut pages.rows, bench.alloc, &run);
    pages.tally = pages.tally.and(run.passed());
    let total = &mut pages.cover;
    add_section(&mut pages.sections, bench.alloc, named.place, &run, total)?;
    Ok(())
}

// Runs cases of a file, one after another, with a row for the result of each.
fn run_cases(
    bench: &Bench<'_>,
    named: &Named<'_>,
    cases: &[Case],
    pages: &mut Pages<'_>,
) -> Result<(), Memory>
    requires accepted { Accepted bench.now.opened.now.app }
    requires runnable { All (λ (case : CaseOf).
        IsRunnable bench.now.opened.now.app (whole_case named.now.file.now case)) cases.now }
    ensures { OnOk result ((rs : List Ran)
        × AreRan bench.now.opened.now.app bench.now.name.now named.now.name.now named.now.file.now cases.now rs
        × ShowsCases bench.now.opened.now.app named.now.place rs pages.old pages.new) }
{
    for case in cases {
        run_case(bench, named, case, pages)?;
    }
    Ok(())
}

// Why a call stops whose read failed: this file cannot be read, or memory runs out.
fn stop_by(unread: Stop, fail: ReadFail) -> Stop
    ensures { result ≡ stop_by unread fail }
{
    match fail {
        ReadFail::Fault => unread,
        ReadFail::Memory => Stop::NoMemory,
    }
}

// The row of the file of this name.
fn add_named<F: Files>(
    alloc: Global,
    files: &mut F,
    name: &str,
    page: &mut Page,
) -> Result<(), ReadFail>
    ensures reads { ReadsFile name.now (F.tells files.old) (F.tells files.new) (F.held files.old) (F.held files.new)
        (F.faults files.old) (F.faults files.new) result }
    ensures named { OnOk result ((digest : List ℕ) × (IsTrue (F.tells files.old) → Names (F.held files.old name.now) digest)
        × Adds page.old page.new (file_row name.now digest)) }
{
    match name_of_file(alloc, files, name) {
        Ok(digest) => {
            add_file(page, name.as_bytes(), digest.as_slice());
            Ok(())
        }
        Err(fail) => Err(fail),
    }
}

// Runs the cases of the file of this name, at this place of the words, with a row for the file and one for the result of
// each. Where the file is refused the line of the refusal is written, and the stop has the place.
fn run_read<F: Files, O: Output>(
    files: &mut F,
    out: &mut O,
    bench: &Bench<'_>,
    place: usize,
    name: &str,
    pages: &mut Pages<'_>,
) -> Result<(), Stop>
    requires { Accepted bench.now.opened.now.app }
    ensures ends { EndsFile
        (source bench.now.opened.now.app bench.now.opened.now.sizes (F.tells files.old) (F.held files.old))
        bench.now.name.now name.now place pages.old pages.new (O.tells out.old) (O.taken out.old) (O.taken out.new) result }
    ensures leaves { Leaves (Rose (F.faults files.old name.now) (F.faults files.new name.now))
        (sides (F.tells files.old) (F.held files.old) (F.faults files.old) (O.tells out.old) (O.faults out.old))
        (sides (F.tells files.new) (F.held files.new) (F.faults files.new) (O.tells out.new) (O.faults out.new))
        result }
{
    let file = match open_written_cases(bench.alloc, files, out, bench.opened, name) {
        Ok(file) => file,
        Err(stop) => return Err(stop.at_place(place)),
    };
    match add_named(bench.alloc, files, name, &mut pages.front) {
        Ok(()) => (),
        Err(fail) => return Err(stop_by(Stop::UnreadCases(place), fail)),
    }
    let named = Named {
        place,
        name,
        file: &file,
    };
    match run_cases(bench, &named, file.cases.as_slice(), pages) {
        Ok(()) => Ok(()),
        Err(Memory) => Err(Stop::NoMemory),
    }
}

// The same by one reading of the file: what is run and what names it are of the bytes that were read. One that is larger
// than the largest trace, of whose bytes only those up to this size name it, is not held in memory, but read for each
// of both.
fn run_file<F: Files, O: Output>(
    files: &mut F,
    out: &mut O,
    bench: &Bench<'_>,
    place: usize,
    name: &str,
    pages: &mut Pages<'_>,
) -> Result<(), Stop>
    requires { Accepted bench.now.opened.now.app }
    ensures ends { EndsFile
        (source bench.now.opened.now.app bench.now.opened.now.sizes (F.tells files.old) (F.held files.old))
        bench.now.name.now name.now place pages.old pages.new (O.tells out.old) (O.taken out.old) (O.taken out.new) result }
    ensures leaves { Leaves (Rose (F.faults files.old name.now) (F.faults files.new name.now))
        (sides (F.tells files.old) (F.held files.old) (F.faults files.old) (O.tells out.old) (O.faults out.old))
        (sides (F.tells files.new) (F.held files.new) (F.faults files.new) (O.tells out.new) (O.faults out.new))
        result }
{
    match HeldText::of_file(bench.alloc, files, name, LARGEST_TRACE + 1) {
        Ok(Some(mut text)) => run_read(&mut text, out, bench, place, name, pages),
        Ok(None) => run_read(files, out, bench, place, name, pages),
        Err(fail) => Err(stop_by(Stop::UnreadCases(place), fail)),
    }
}

/// Runs the cases of the files of these names, one after another, with a row for the result of each. Where a file is
/// refused the line of the refusal is written, and the stop has the place of the word.
///
/// `UnreadCases` comes only where the files' count of one of the names rose in this call, `Unwritten` only where the
/// output's did.
pub(crate) fn run_files<F: Files, O: Output>(
    files: &mut F,
    out: &mut O,
    bench: &Bench<'_>,
    names: &[&str],
    pages: &mut Pages<'_>,
) -> Result<(), Stop>
    requires { Accepted bench.now.opened.now.app }
    ensures ends { EndsFiles
        (source bench.now.opened.now.app bench.now.opened.now.sizes (F.tells files.old) (F.held files.old))
        bench.now.name.now (seen names.now) pages.old pages.new (O.tells out.old) (O.taken out.old) (O.taken out.new) result }
    ensures leaves { Leaves
        (Any (λ (name : List ℕ). Rose (F.faults files.old name) (F.faults files.new name)) (seen names.now))
        (sides (F.tells files.old) (F.held files.old) (F.faults files.old) (O.tells out.old) (O.faults out.old))
        (sides (F.tells files.new) (F.held files.new) (F.faults files.new) (O.tells out.new) (O.faults out.new))
        result }
{
    let mut place = 0;
    for name in names {
        match run_file(files, out, bench, place, *name, pages) {
            Ok(()) => place += 1,
            Err(stop) => return Err(stop),
        }
    }
    Ok(())
}
