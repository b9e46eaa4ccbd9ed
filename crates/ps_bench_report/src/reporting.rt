// `report APP CASES..`: one page for the file on the safety of a machine.

ghost use Rattle.std.specs.Prelude.{◌≡◌, ◌≤◌, ◌∷◌, ◌++◌, ℕ, List, Any, IfOk, IfErr, IsErrOf, IsTrue, Some, option_map};
ghost use Rattle.ps_bench_cover.specs.Leaving.{Leaves, LeavesOutput, sides};
ghost use Rattle.ps_bench_frame.specs.Ending.{IsUnread};
ghost use Rattle.ps_bench_frame.specs.Opening.{IsOfApp, source};
ghost use Rattle.ps_bench_frame.specs.Sourcing.{IsSourceOf};
ghost use Rattle.ps_bench_words.specs.Seen.{seen};
ghost use Rattle.ps_model.specs.Typing.{Accepted};
ghost use Rattle.ps_outside.specs.Outside.{Rose};
ghost use Rattle.ps_bench_report.specs.Asking.{AnswersReport, Ends, StopsReport, wanted_by};
ghost use Rattle.ps_bench_report.specs.Contents.{back_pieces, cases_front, front_pieces, title_text};
ghost use Rattle.ps_bench_report.specs.Running.{BeginsPages, EndsPage, IsTextOf, MakesPage, subject_of};
ghost use Rattle.ps_bench_trials.specs.Naming.{digest_text};

use crate::page::Page;
use crate::running::{Bench, Pages, run_files};
use crate::tables::{add_front, open_results, open_sections};
use crate::texts::{Shown, Texts, add_back, texts_of};
use crate::writing::add_page;
use ps_base::{Bytes, Memory};
use ps_bench_frame::{Opened, Sourced, Status, Stop, open_sourced};
use ps_bench_test::Tally;
use ps_bench_test::report::foot;
use ps_bench_trials::digest_of_text;
use ps_bench_words::Format;
use ps_cover::Cover;
use ps_outside::{Files, Output, write_all};
use std::alloc::Global;

/// What `report` is asked.
#[derive(Clone, Copy)]
pub struct Asked<'a> {
    /// The name of the application.
    pub app: &'a str,
    /// The names of the case files, in order.
    pub cases: &'a [&'a str],
    /// The title of the page, where one is given.
    pub title: Option<&'a str>,
}

// The title of a page: the one that is given, or one by the name of the application.
fn title_of(alloc: Global, given: Option<&str>, app: &str) -> Result<Bytes, Memory>
    ensures { IfOk result (λ title. title ≡ title_text (option_map (λ text. text.now) given.entry) app.now) }
{
    match given {
        Some(title) => Bytes::from_slice(alloc, title.as_bytes()),
        None => {
            let mut title = Bytes::from_slice(alloc, b"Report on ")?;
            title.extend_from_slice(app.as_bytes())?;
            Ok(title)
        }
    }
}

// The beginning of the page, with the row of the application, which is named by its text.
fn front_of(alloc: Global, text: &[u8], asked: &Asked<'_>) -> Result<Page, Memory>
    ensures { IfOk result (λ page. IsTrue page.whole → page.pieces ≡ front_pieces
        (title_text (option_map (λ text. text.now) asked.now.title) asked.now.app.now) asked.now.app.now
        (digest_text text.now)) }
{
    let digest = digest_of_text(alloc, text)?;
    let title = title_of(alloc, asked.title, asked.app)?;
    let mut page = Page::new(alloc);
    let name = asked.app.as_bytes();
    add_front(&mut page, title.as_slice(), name, digest.as_slice());
    Ok(page)
}

// The pages of a report before any case file is shown in them.
fn first_pages<'a>(
    alloc: Global,
    opened: &'a Opened,
    asked: &Asked<'_>,
) -> Result<Pages<'a>, Memory>
    ensures { IfOk result (BeginsPages opened.now.app (option_map (λ text. text.now) asked.now.title)
        asked.now.app.now opened.now.text) }
{
    let cover = Cover::new(alloc, &opened.app)?;
    let front = front_of(alloc, opened.text.as_slice(), asked)?;
    Ok(Pages {
        front,
        rows: Page::new(alloc),
        sections: Page::new(alloc),
        tally: Tally::none(),
        cover,
    })
}

// What stands between the rows of the results and the parts of the cases, with this total.
fn between_of(alloc: Global, total: &[u8]) -> Page
    ensures { IsTrue result.whole → result.pieces ≡ cases_front total.now }
{
    let mut page = Page::new(alloc);
    open_sections(&mut page, total);
    page
}

// What stands after the parts of the cases.
fn back_of(alloc: Global, texts: &Texts) -> Page
    ensures { IsTrue result.whole → result.pieces ≡ back_pieces texts.now }
{
    let mut page = Page::new(alloc);
    add_back(&mut page, texts);
    page
}

// The text of the pages of a report.
fn text_of(alloc: Global, pages: &Pages<'_>, between: &Page, back: &Page) -> Result<Bytes, Memory>
    ensures { IfOk result (IsTextOf pages.now between.now back.now) }
{
    let mut text = Bytes::new(alloc);
    add_page(&mut text, &pages.front)?;
    add_page(&mut text, &pages.rows)?;
    add_page(&mut text, between)?;
    add_page(&mut text, &pages.sections)?;
    add_page(&mut text, back)?;
    Ok(text)
}

// The text of a report.
fn report_text(
    alloc: Global,
    sourced: &Sourced,
    asked: &Asked<'_>,
    pages: &mut Pages<'_>,
) -> Result<Bytes, Memory>
    requires { Accepted sourced.now.opened.app }
    ensures { IfOk result (MakesPage (subject_of sourced.now asked.now.app.now) pages.old) }
{
    open_results(&mut pages.front);
    let total = foot(alloc, Format::Text, &pages.tally)?;
    let between = between_of(alloc, total.as_slice());
    let shown = Shown {
        name: asked.app,
        text: sourced.opened.text.as_slice(),
        app: &sourced.opened.app,
        source: &sourced.source,
        cover: &pages.cover,
    };
    let texts = texts_of(alloc, &shown)?;
    let back = back_of(alloc, &texts);
    text_of(alloc, pages, &between, &back)
}

// Writes a report.
fn write_report<O: Output>(
    alloc: Global,
    out: &mut O,
    sourced: &Sourced,
    asked: &Asked<'_>,
    pages: &mut Pages<'_>,
) -> Result<Status, Stop>
    requires { Accepted sourced.now.opened.app }
    ensures ends { EndsPage (subject_of sourced.now asked.now.app.now) pages.old
        (O.tells out.old) (O.taken out.old) (O.taken out.new) result }
    ensures leaves { LeavesOutput (O.tells out.old) (O.tells out.new) (O.faults out.old) (O.faults out.new) result }
{
    match report_text(alloc, sourced, asked, pages) {
        Ok(text) => match write_all(out, text.as_slice()) {
            Ok(()) => Ok(Status::Done),
            Err(_) => Err(Stop::Unwritten),
        },
        Err(Memory) => Err(Stop::NoMemory),
    }
}

// Runs the cases of an application, and writes the page.
fn report_app<F: Files, O: Output>(
    alloc: Global,
    files: &mut F,
    out: &mut O,
    sourced: &Sourced,
    asked: &Asked<'_>,
) -> Result<Status, Stop>
    requires accepted { Accepted sourced.now.opened.app }
    requires app { IsOfApp
        (source sourced.now.opened.app sourced.now.opened.sizes (F.tells files.old) (F.held files.old))
        asked.now.app.now }
    requires text { IsTrue (F.tells files.old) → F.held files.old asked.now.app.now ≡ Some sourced.now.opened.text }
    requires source { IsTrue (F.tells files.old) →
        IsSourceOf (F.held files.old) asked.now.app.now sourced.now.source }
    ensures ends { Ends (source sourced.now.opened.app sourced.now.opened.sizes (F.tells files.old) (F.held files.old))
        (wanted_by asked.now) (O.tells out.old) (O.taken out.old) (O.taken out.new) result }
    ensures leaves { Leaves (Any (λ (name : List ℕ). Rose (F.faults files.old name) (F.faults files.new name))
        (asked.now.app.now ∷ seen asked.now.cases.now))
        (sides (F.tells files.old) (F.held files.old) (F.faults files.old) (O.tells out.old) (O.faults out.old))
        (sides (F.tells files.new) (F.held files.new) (F.faults files.new) (O.tells out.new) (O.faults out.new))
        result }
{
    let mut pages = match first_pages(alloc, &sourced.opened, asked) {
        Ok(pages) => pages,
        Err(Memory) => return Err(Stop::NoMemory),
    };
    let bench = Bench {
        alloc,
        opened: &sourced.opened,
        name: asked.app,
    };
    match run_files(files, out, &bench, asked.cases, &mut pages) {
        Ok(()) => write_report(alloc, out, sourced, asked, &mut pages),
        Err(stop) => Err(stop),
    }
}

/// `report APP CASES..`: writes one page in HTML that needs nothing else: title, application and case files by their
/// SHA-256, the results of all cases, each run in a world of its own, a timing diagram of each, the source with the
/// numbers of its lines, notes, demands, coverage, and what is claimed. The status is Done, whether cases pass or fail.
///
/// Where the application is refused, or a case file, the line of the refusal is written in the place of all else. The
/// page is whole in memory before its first byte is written.
///
/// A file that cannot be read is one of those whose count of the files rose in this call; `Unwritten` comes only where
/// the output's count rose.
pub fn report<F: Files, O: Output>(
    alloc: Global,
    files: &mut F,
    out: &mut O,
    asked: &Asked<'_>,
) -> Result<Status, Stop>
    ensures answers { IfOk result (AnswersReport (wanted_by asked.now)
        (F.tells files.old) (F.held files.old) (O.tells out.old) (O.taken out.old) (O.taken out.new)) }
    ensures stops { IfErr result (StopsReport (wanted_by asked.now)
        (F.tells files.old) (F.held files.old) (O.tells out.old) (O.taken out.old) (O.taken out.new)) }
    ensures unread { IfErr result (λ stop. IsUnread stop →
        Any (λ (name : List ℕ). Rose (F.faults files.old name) (F.faults files.new name))
        (asked.now.app.now ∷ seen asked.now.cases.now)) }
    ensures unwritten { IsErrOf result Stop.Unwritten → Rose (O.faults out.old) (O.faults out.new) }
    ensures writes { O.faults out.old ≤ O.faults out.new }
    ensures telling { O.tells out.new ≡ O.tells out.old }
{
    match open_sourced(alloc, files, out, asked.app) {
        Ok(sourced) => report_app(alloc, files, out, &sourced, asked),
        Err(stop) => Err(stop),
    }
}
