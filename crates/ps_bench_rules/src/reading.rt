// The reader of a rules file.

ghost use Rattle.std.specs.Prelude.{◌≡◌, ◌≢◌, ◌≤◌, ℕ, List, IsTrue, Some, IsSome, Ok, Err, IfOk, IsErrOf};
ghost use Rattle.ps_outside.specs.Outside.{Rose, CountsStay};
ghost use Rattle.ps_bench_rules.specs.File.{rules_of};
ghost use Rattle.ps_bench_rules.specs.Saying.{IsLineTaken, IsRead};
ghost use Rattle.ps_bench_rules.specs.Standing.{IsOfApplication};
ghost use Rattle.ps_bench_rules.specs.declared.flaw.RulesRefusal.{RulesRefusal};

use crate::draft::{Draft, at};
use crate::flaw::{Flaw, RulesFail, RulesRefusal};
use crate::limits::{LARGEST_RULES_FILE, LONGEST_RULES_LINE, MOST_RULES_LINES};
use crate::rules::{Purpose, RulesFile};
use ps_base::Memory;
use ps_lines::{Got, Limits, LineReader};
use ps_model::App;
use ps_outside::Files;
use std::alloc::Global;

const LIMITS: Limits = Limits {
    longest: LONGEST_RULES_LINE,
    largest: LARGEST_RULES_FILE,
};

// What a line with this number does to a draft, of which so much was got. None: it is not refused.
fn take_line(
    alloc: Global,
    draft: &mut Draft,
    app: &App,
    purpose: Purpose,
    number: u32,
    got: Got,
    line: &[u8],
) -> Result<Option<RulesRefusal>, Memory>
    requires { got ≢ Got.End }
    ensures { IfOk result (IsLineTaken app.now purpose got number line.now draft.old draft.new) }
{
    if number > MOST_RULES_LINES {
        return Ok(Some(at(Flaw::R5, number)));
    }
    match got {
        Got::TooLong | Got::TooLarge => Ok(Some(at(Flaw::R5, number))),
        _ => draft.take(alloc, app, purpose, number, line),
    }
}

/// The settings and rules of a rules file of an application.
///
/// The first refused line decides; in a line R5 for its bytes or its number comes first, then the least number. R1: a
/// line has not its form, a setting stands after a rule or how scans come is said twice, a rule has no condition (at its
/// `never` line), or at the line after the last one: there is no rule. R2: a NAME that there is not, or of another
/// sort. R3: a value. R4: an input that stands twice after `fixed`, `follows` and `first`. R5: over 65,536 bytes in a
/// line, 200 in a name of a rule, 100,000 lines, 1,000 rules, 4,294,967,295 bytes, or 60,000 ms from scan to scan. For a
/// comparison a rule is R1, and what an input follows is an input or an output.
///
/// All that an accepted file names is of the application: inputs, signals that are followed, and names of conditions.
/// Memory is linear in the file. `Fault` comes only where the files' count of the name rose in this call; every other
/// answer leaves the counts as they were.
pub fn read_rules<F: Files>(
    alloc: Global,
    files: &mut F,
    name: &str,
    app: &App,
    purpose: Purpose,
) -> Result<RulesFile, RulesFail>
    ensures gives { IsTrue (F.tells files.old) → (text : List ℕ) → F.held files.old name.now ≡ Some text →
        IfOk result (λ file. rules_of app.now purpose text ≡ Ok file) }
    ensures refuses { IsTrue (F.tells files.old) → (text : List ℕ) → F.held files.old name.now ≡ Some text →
        (refusal : RulesRefusal) → result ≡ Err (RulesFail.Refused refusal) →
        rules_of app.now purpose text ≡ Err refusal }
    ensures found { IsTrue (F.tells files.old) → IsRead result → IsSome (F.held files.old name.now) }
    ensures fault { IsErrOf result RulesFail.Fault → Rose (F.faults files.old name.now) (F.faults files.new name.now) }
    ensures exact { ¬ IsErrOf result RulesFail.Fault → CountsStay (F.faults files.old) (F.faults files.new) }

    // Whether or not the files tell: all names are of the application.
    ensures stands { IfOk result (IsOfApplication app.now) }
    ensures counts { (other : List ℕ) → F.faults files.old other ≤ F.faults files.new other }
    ensures kept { F.held files.new ≡ F.held files.old }
    ensures telling { F.tells files.new ≡ F.tells files.old }
{
    let mut lines = LineReader::start(alloc, name, LIMITS)?;
    let mut draft = Draft::new(alloc);
    let mut number = 1;
    'lines: loop {
        let got = lines.next_line(files)?;
        if got == Got::End {
            return match draft.end(alloc, purpose, number)? {
                Ok(file) => Ok(file),
                Err(refusal) => Err(RulesFail::Refused(refusal)),
            };
        }
        let line = lines.line();
        if let Some(refusal) = take_line(alloc, &mut draft, app, purpose, number, got, line)? {
            return Err(RulesFail::Refused(refusal));
        }
        number += 1;
    }
}
