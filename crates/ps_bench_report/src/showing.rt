// The part of a case in a report, and what its scans show of the application.

ghost use Rattle.std.specs.Prelude.{◌≡◌, ◌∷◌, [], IfOk, OnOk};
ghost use Rattle.ps_bench_cases.specs.Meant.{whole_case};
ghost use Rattle.ps_bench_cases.specs.Runnable.{IsRunnable};
ghost use Rattle.ps_model.specs.Typing.{Accepted};
ghost use Rattle.ps_bench_report.specs.Covered.{CoversCases};
ghost use Rattle.ps_bench_report.specs.Known.{IsReadBack};
ghost use Rattle.ps_bench_report.specs.Paged.{OnWhole};
ghost use Rattle.ps_bench_report.specs.Sections.{HasDiagram, HasSection, case_id};
ghost use Rattle.ps_bench_test.specs.Outcome.{ran_of};

use crate::diagram::add_diagram;
use crate::names::Tag;
use crate::page::Page;
use crate::playing::record_case;
use crate::tables::open_case;
use ps_base::{Bytes, Memory};
use ps_bench_frame::pieces::add_short;
use ps_bench_test::report::case_report;
use ps_bench_test::{CaseRun, Tally};
use ps_bench_words::Format;
use ps_cover::Cover;
use std::alloc::Global;

// What the pictures of a case are called within the page: by the place of its file and its line.
fn id_of(alloc: Global, place: usize, line: u32) -> Result<Bytes, Memory>
    ensures { IfOk result (λ id. id ≡ case_id place line) }
{
    let mut id = Bytes::from_slice(alloc, b"case-")?;
    add_short(&mut id, place.min(1_000_000) as u32)?;
    id.extend_from_slice(b"-")?;
    add_short(&mut id, line)?;
    Ok(id)
}

// The timing diagram of a case that was run. What its scans show of the application is added to what others have shown.
fn add_drawn(
    page: &mut Page,
    alloc: Global,
    place: usize,
    run: &CaseRun<'_>,
    total: &mut Cover<'_>,
) -> Result<(), Memory>
    requires accepted { Accepted run.now.app.now }
    requires runnable { IsRunnable run.now.app.now (whole_case run.now.file.now run.now.case.now) }
    ensures drawn { OnOk result (OnWhole page.old page.new (HasDiagram IsReadBack place (ran_of run.now))) }
    ensures covers { OnOk result (CoversCases run.now.app.now (ran_of run.now ∷ []) total.old total.new) }
{
    match record_case(alloc, run.app, run.file, run.case)? {
        Some(kept) => {
            total.join(&kept.cover);
            let id = id_of(alloc, place, run.case.line)?;
            add_diagram(page, alloc, run, &kept.recording, id.as_slice())
        }
        None => {
            page.element(Tag::P, b"There is no timing diagram of this case.");
            Ok(())
        }
    }
}

/// The part of a case that was run, whose file stands at this place of the words: its name, what `test` tells of it,
/// and its timing diagram. What its scans show of the application is added to what others have shown.
pub(crate) fn add_section(
    page: &mut Page,
    alloc: Global,
    place: usize,
    run: &CaseRun<'_>,
    total: &mut Cover<'_>,
) -> Result<(), Memory>
    requires accepted { Accepted run.now.app.now }
    requires runnable { IsRunnable run.now.app.now (whole_case run.now.file.now run.now.case.now) }
    ensures shown { OnOk result (OnWhole page.old page.new (HasSection IsReadBack place (ran_of run.now))) }
    ensures covers { OnOk result (CoversCases run.now.app.now (ran_of run.now ∷ []) total.old total.new) }
{
    let told = case_report(alloc, Format::Text, &Tally::none(), run)?;
    open_case(page, run.case.name.as_str().as_bytes(), told.as_slice());
    add_drawn(page, alloc, place, run, total)?;
    page.close(Tag::Section);
    Ok(())
}
