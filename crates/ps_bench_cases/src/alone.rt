// Which case has a line.

ghost use Rattle.std.specs.Prelude.{◌≡◌, ◌<◌, ◌+◌, ◌&&◌, length, nat_le, nat_lt, drop, option_map, slice_index};
ghost use Rattle.ps_bench_cases.specs.Alone.{case_with, end_before, last_line};

use crate::{Case, CaseFile};

// The last line on which a case says something.
fn last_line(case: &Case) -> u32
    ensures { result ≡ last_line case.now }
{
    let mut last = case.line;
    for statement in case.statements.as_slice() {
        last = statement.line;
    }
    last
}

// Whether a case has this line, where these stand after it.
fn has_line(case: &Case, behind: &[Case], line: u32) -> bool
    ensures { result ≡ (nat_le case.now.line line && nat_lt line (end_before case.now behind.now)) }
{
    if line < case.line {
        return false;
    }
    match behind {
        [] => line <= last_line(case),
        [next, ..] => line < next.line,
    }
}

/// The case of a file that has this line: its `case` line, or one after it, up to the next `case` line, or of the
/// last case up to its last statement. None: no case has it. It takes no memory.
pub fn case_with_line(file: &CaseFile, line: u32) -> Option<&Case>
    ensures { option_map (λ c. c.now) result ≡ case_with line file.now.cases }
{
    let cases = file.cases.as_slice();
    for place in 0..cases.len() {
        let case = &cases[place];
        if has_line(case, &cases[place + 1..], line) {
            return Some(case);
        }
    }
    None
}
