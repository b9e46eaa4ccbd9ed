// What a line says.

ghost use Rattle.std.specs.Prelude.{◌≡◌, IfOk};
ghost use Rattle.ps_bench_cases.specs.Line.{case_name, line_said};
ghost use Rattle.ps_bench_cases.specs.LineSays.{said_by};

use crate::deed::Deed;
use crate::deeds::deed_said;
use crate::rule::CaseRule;
use ps_base::Memory;
use ps_bench_names::{Settings, before_blanks, behind_blanks, next_counted};
use ps_model::App;
use std::alloc::Global;

// What a line says. The name of a case is read apart.
#[derive(Drop)]
pub(crate) enum LineSays {
    Nothing,
    Case,
    Asks(Deed, Settings),
    Broken(CaseRule),
}

// What a line says.
pub(crate) fn read_line(alloc: Global, app: &App, line: &[u8]) -> Result<LineSays, Memory>
    ensures { IfOk result (λ says. line_said app.now line.now ≡ said_by says line.now) }
{
    let Some((from, upto)) = next_counted(line, 0) else {
        return Ok(LineSays::Nothing);
    };
    let word = &line[from..upto];
    if word == b"case".as_slice() {
        return Ok(LineSays::Case);
    }
    match deed_said(alloc, app, line, word, upto)? {
        Ok((deed, settings)) => Ok(LineSays::Asks(deed, settings)),
        Err(rule) => Ok(LineSays::Broken(rule)),
    }
}

// The name of a `case` line.
pub(crate) fn case_name(line: &[u8]) -> &[u8]
    ensures { result.now ≡ case_name line.now }
{
    let words = behind_blanks(line);
    let rest = match words {
        [_, _, _, _, rest @ ..] => rest,
        _ => &[],
    };
    before_blanks(behind_blanks(rest))
}
