// One trace of all cases of a file, or of one of them.

ghost use Rattle.std.specs.Prelude.{◌≡◌, ◌≤◌, [], All, length};
ghost use Rattle.ps_model.specs.Network.{input_count};
ghost use Rattle.ps_bench_cases.specs.declared.limits.TheConstants.{MOST_CASES};
ghost use Rattle.ps_bench_cases.specs.declared.case.Case.{Case};
ghost use Rattle.ps_bench_cases.specs.Meant.{whole_case};
ghost use Rattle.ps_bench_cases.specs.Runnable.{IsRunnable};
ghost use Rattle.ps_bench_cases.specs.Expanded.{SetInputs, cases_text, expanded};
ghost use Rattle.ps_bench_cases.specs.Writing.{Wrote};
ghost use Rattle.ps_bench_cases.specs.Alone.{alone};

use crate::{
    Act, Case, CaseFile, ExpandFail, Point, Statement, put, put_case, put_header, room_of,
};
use ps_model::App;
use ps_outside::Sink;
use std::alloc::Global;

/// Writes one trace of all cases of a file of this application.
///
/// The header has the inputs in order of declaration. Each case begins with the line `# case NAME`, after a restart
/// but for the first one, and at the last time in ms of the case before it. A fault is a line `# fault ..` before the
/// scan that it strikes. `read_cases` gives files that may be asked for.
///
/// `Fault` comes only where the output's count rose in this call, at the one write that failed. Memory does not grow
/// with the scans: it has a value for each input, and room for the lines of the faults of a case. All of it is taken
/// before the first line.
pub fn expand<S: Sink>(
    out: &mut S,
    alloc: Global,
    app: &App,
    file: &CaseFile,
) -> Result<(), ExpandFail>
    requires runnable { All (λ (case : Case). IsRunnable app.now (whole_case file.now case)) file.now.cases }
    requires few { length file.now.cases ≤ MOST_CASES }
    ensures { Wrote S.tells S.taken S.faults (expanded app.now file.now) out.old out.new result }
{
    let mut point = Point::new(alloc, usize::from(app.input_count()), room_of_file(file))?;
    put_header(out, app)?;
    put_cases(out, &mut point, file)
}

/// Writes the trace of one case of a file of this application, as if the file had this case alone: from time 0 on.
///
/// All else is as with `expand`.
pub fn expand_alone<S: Sink>(
    out: &mut S,
    alloc: Global,
    app: &App,
    file: &CaseFile,
    case: &Case,
) -> Result<(), ExpandFail>
    requires { IsRunnable app.now (whole_case file.now case.now) }
    ensures { Wrote S.tells S.taken S.faults (expanded app.now (alone file.now case.now)) out.old out.new result }
{
    let begin = file.begin.as_slice();
    let room = room_of_faults(begin).saturating_add(room_of_faults(case.statements.as_slice()));
    let mut point = Point::new(alloc, usize::from(app.input_count()), room)?;
    put_header(out, app)?;
    put_case(out, &mut point, 0, begin, case)
}

// Room enough for the lines of the faults of each scan of a file: for those of the case that has most.
fn room_of_file(file: &CaseFile) -> usize {
    let mut most = 0;
    for case in file.cases.as_slice() {
        most = room_of_faults(case.statements.as_slice()).max(most);
    }
    room_of_faults(file.begin.as_slice()).saturating_add(most)
}

// Room enough for the lines of the faults of statements.
fn room_of_faults(statements: &[Statement]) -> usize {
    let mut room: usize = 0;
    for statement in statements {
        if let Act::Fault(fault) = &statement.act {
            room = room.saturating_add(room_of(fault));
        }
    }
    room
}

// All cases.
fn put_cases<S: Sink>(out: &mut S, point: &mut Point, file: &CaseFile) -> Result<(), ExpandFail>
    requires inputs { All (λ (c : Case). SetInputs (length point.old.ins) (whole_case file.now c)) file.now.cases }
    requires few { length file.now.cases ≤ MOST_CASES }
    ensures { Wrote S.tells S.taken S.faults
        (cases_text (length point.old.ins) file.now.begin [] 0 file.now.cases) out.old out.new result }
{
    let mut base = 0;
    let mut lead: &[u8] = b"";
    for case in file.cases.as_slice() {
        put(out, lead)?;
        put_case(out, point, base, file.begin.as_slice(), case)?;
        base += u64::from(point.time);
        lead = b"restart\n";
    }
    Ok(())
}
