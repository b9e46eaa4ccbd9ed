// The reader of a case file.

ghost use Rattle.std.specs.Prelude.{◌≡◌, ◌≤◌, ℕ, List, length, All, IsTrue, Some, IsSome, Ok, Err, IfOk, IsErrOf};
ghost use Rattle.ps_outside.specs.Outside.{Rose, CountsStay};
ghost use Rattle.ps_bench_cases.specs.declared.limits.TheConstants.{MOST_CASES};
ghost use Rattle.ps_bench_cases.specs.declared.case.Case.{Case};
ghost use Rattle.ps_bench_cases.specs.declared.rule.CaseRefusal.{CaseRefusal};
ghost use Rattle.ps_bench_cases.specs.File.{cases_of};
ghost use Rattle.ps_bench_cases.specs.Meant.{whole_case};
ghost use Rattle.ps_bench_cases.specs.Runnable.{IsRunnable};
ghost use Rattle.ps_bench_cases.specs.DraftSays.{IsRead};

use crate::case::CaseFile;
use crate::draft::at;
use crate::limits::{LARGEST_CASE_FILE, LONGEST_CASE_LINE, MOST_CASE_LINES};
use crate::line::read_line;
use crate::measured::Measured;
use crate::rule::{CaseRule, CasesFail};
use ps_lines::{Got, Limits, LineReader};
use ps_model::{App, ImageSizes};
use ps_outside::Files;
use std::alloc::Global;

const LIMITS: Limits = Limits {
    longest: LONGEST_CASE_LINE,
    largest: LARGEST_CASE_FILE,
};

/// The cases of a case file of an application, whose channels have regions of these sizes.
///
/// The first refused line decides; in a line K7 for its bytes or its number comes first, then the least number of a
/// rule.
/// K1: a line has not its form, or at the line after the last one: there is no case. K2: a NAME that there is not, or
/// of
/// another sort. K3: a value. K4: a time before the scan before; a number, or a time in the case or in the expanded
/// trace,
/// past 4,294,967,295. K5: an expectation with no scan of its case before it. K6: a fault past its region, of another
/// channel than the first of its case, of a turn before that of the fault before it for the same scan, or with no scan
/// of
/// its case after it, which is found at the end of the case and is refused at the fault's line. K7: over 65,536 bytes
/// in a
/// line, 200 in a name of a case, 100,000 lines, 1,000 cases, 1,000 faults in a case, 1,000,000 scans, 67,108,864 bytes
/// in the trace that `expand` writes of what was read, or 4,294,967,295 in the file. What the lines before the first
/// case
/// cause only in their copy is refused at the line of the case.
///
/// Each case that is given can be run: its faults come in order and strike one channel, its times do not fall, and its
/// settings are of inputs. Memory is linear in the file, whatever the number of scans. `Fault` comes only where the
/// files' count of the name rose in this call; every other answer leaves the counts as they were.
pub fn read_cases<F: Files>(
    alloc: Global,
    files: &mut F,
    name: &str,
    app: &App,
    sizes: &ImageSizes,
) -> Result<CaseFile, CasesFail>
    ensures gives { IsTrue (F.tells files.old) → (text : List ℕ) → F.held files.old name.now ≡ Some text →
        IfOk result (λ file. cases_of app.now sizes.now text ≡ Ok file) }
    ensures refuses { IsTrue (F.tells files.old) → (text : List ℕ) → F.held files.old name.now ≡ Some text →
        (refusal : CaseRefusal) → result ≡ Err (CasesFail.Refused refusal) →
        cases_of app.now sizes.now text ≡ Err refusal }
    ensures found { IsTrue (F.tells files.old) → IsRead result → IsSome (F.held files.old name.now) }
    ensures fault { IsErrOf result CasesFail.Fault → Rose (F.faults files.old name.now) (F.faults files.new name.now) }
    ensures exact { ¬ IsErrOf result CasesFail.Fault → CountsStay (F.faults files.old) (F.faults files.new) }

    // Whether or not the files tell.
    ensures runnable { IfOk result (λ file.
        All (λ (case : Case). IsRunnable app.now (whole_case file case)) file.cases) }
    ensures few { IfOk result (λ file. length file.cases ≤ MOST_CASES) }
    ensures counts { (other : List ℕ) → F.faults files.old other ≤ F.faults files.new other }
    ensures kept { F.held files.new ≡ F.held files.old }
    ensures telling { F.tells files.new ≡ F.tells files.old }
{
    let mut lines = LineReader::start(alloc, name, LIMITS)?;
    let mut measured = Measured::new(alloc, app);
    let mut number = 1;
    'lines: loop {
        let got = lines.next_line(files)?;
        if got == Got::End {
            return match measured.end(alloc, number)? {
                Ok(file) => Ok(file),
                Err(refusal) => Err(CasesFail::Refused(refusal)),
            };
        }
        if number > MOST_CASE_LINES || got == Got::TooLong || got == Got::TooLarge {
            return Err(CasesFail::Refused(at(CaseRule::K7, number)));
        }
        let says = read_line(alloc, app, lines.line())?;
        let line = lines.line();
        if let Some(refusal) = measured.take(alloc, app, sizes, number, line, says)? {
            return Err(CasesFail::Refused(refusal));
        }
        number += 1;
    }
}
