// The header of a trace, among the lines of its file.

ghost use Rattle.std.specs.Prelude.{◌≡◌, ◌≤◌, ◌+◌, ℕ, List, IsTrue, Some, IfOk, OnOk, IsErrOf, vec_len};
ghost use Rattle.ps_base.specs.declared.limits.TheConstants.{LARGEST_TRACE};
ghost use Rattle.ps_lines.specs.Lines.{Line};
ghost use Rattle.ps_lines.specs.Reader.{Gives, begin_of, left, limits_of, name_of};
ghost use Rattle.ps_model.specs.Network.{input_count};
ghost use Rattle.ps_trace.specs.Header.{input_names};
ghost use Rattle.ps_trace.specs.Scans.{header_from};
ghost use Rattle.ps_trace.specs.Leaving.{Came, IsFurther, IsUnderWay, Leaves, shelf};
ghost use Rattle.ps_trace.specs.Heading.{HeadsBy, IsHeading, IsTold, SaysBy};

use crate::TraceFail;
use crate::header::{HeaderSays, read_header};
use crate::trace::{at_line, feeds};
use ps_base::Memory;
use ps_lines::{Got, LineReader};
use ps_model::App;
use ps_outside::{Failed, Files};
use std::alloc::Global;

// A header: for each input the place of its value on a scan line, room for the values of a line, and the number of the
// line after it.
#[derive(Drop)]
pub(crate) struct Heading {
    pub(crate) places: Vec<usize>,
    pub(crate) values: Vec<bool>,
    pub(crate) number: u32,
}

// What a line is: skipped, in front of the line with this number; or the header.
#[derive(Drop)]
pub(crate) enum Told {
    Skipped(u32),
    Header(Heading),
}

// The header of a file of which nothing was read.
pub(crate) fn find_header<F: Files>(
    alloc: Global,
    files: &mut F,
    lines: &mut LineReader,
    app: &App,
) -> Result<Heading, TraceFail>
    requires way { IsUnderWay (shelf (F.tells files.old) (F.held files.old) (F.faults files.old)) lines.old }
    requires limited { (limits_of lines.old).largest ≡ LARGEST_TRACE }
    ensures says { IsTrue (F.tells files.old) → (text : List ℕ) → F.held files.old (name_of lines.old) ≡ Some text →
        HeadsBy result (header_from (input_names app.now) 1 (left lines.old text)) (left lines.new text) }
    ensures heads { IfOk result (IsHeading (input_count app.now) (begin_of lines.new + 1)) }
    ensures further { OnOk result (IsFurther (shelf (F.tells files.old) (F.held files.old) (F.faults files.old)) lines.old lines.new) }
    ensures leaves { Leaves (name_of lines.old) (shelf (F.tells files.old) (F.held files.old) (F.faults files.old)) (shelf (F.tells files.new) (F.held files.new) (F.faults files.new)) result }
{
    let mut number = 1;
    'lines: loop {
        match next_header(alloc, files, lines, number, app) {
            Ok(told) => match told {
                Told::Skipped(next) => number = next,
                Told::Header(heading) => return Ok(heading),
            },
            Err(why) => return Err(why),
        }
    }
}

// What the next line is, which has this number.
fn next_header<F: Files>(
    alloc: Global,
    files: &mut F,
    lines: &mut LineReader,
    number: u32,
    app: &App,
) -> Result<Told, TraceFail>
    requires way { IsUnderWay (shelf (F.tells files.old) (F.held files.old) (F.faults files.old)) lines.old }
    requires room { number ≤ LARGEST_TRACE + 1 }
    ensures says { IsTrue (F.tells files.old) → (text : List ℕ) → F.held files.old (name_of lines.old) ≡ Some text →
        SaysBy (input_names app.now) number result (left lines.old text) (left lines.new text) }
    ensures told { IfOk result (IsTold (input_count app.now) number) }
    ensures further { OnOk result (IsFurther (shelf (F.tells files.old) (F.held files.old) (F.faults files.old)) lines.old lines.new) }
    ensures leaves { Leaves (name_of lines.old) (shelf (F.tells files.old) (F.held files.old) (F.faults files.old)) (shelf (F.tells files.new) (F.held files.new) (F.faults files.new)) result }
{
    match lines.next_line(files) {
        Ok(got) => tell(alloc, got, lines.line(), number, app),
        Err(Failed) => Err(TraceFail::Fault),
    }
}

// What a line is that came so, with this number.
fn tell(alloc: Global, got: Got, line: &[u8], number: u32, app: &App) -> Result<Told, TraceFail>
    requires room { number ≤ LARGEST_TRACE + 1 }
    ensures says { (lines rest : List Line) → Gives lines got line.now rest → SaysBy (input_names app.now) number result lines rest }
    ensures told { IfOk result (IsTold (input_count app.now) number) }
    ensures came { OnOk result (Came got) }
    ensures no_fault { ¬ IsErrOf result TraceFail.Fault }
{
    let feeds = match feeds(got) {
        Ok(feeds) => feeds,
        Err(rule) => return Err(TraceFail::Refused(at_line(rule, number))),
    };
    match read_header(alloc, line, app)? {
        HeaderSays::Nothing => Ok(Told::Skipped(number + feeds)),
        HeaderSays::Broken(rule) => Err(TraceFail::Refused(at_line(rule, number))),
        HeaderSays::Places(places) => Ok(Told::Header(with_values(alloc, places, number + feeds)?)),
    }
}

// A header with these places, and room for as many values.
fn with_values(alloc: Global, places: Vec<usize>, number: u32) -> Result<Heading, Memory>
    ensures places { IfOk result (λ heading. heading.places ≡ places) }
    ensures values { IfOk result (λ heading. vec_len heading.values ≡ vec_len places) }
    ensures number { IfOk result (λ heading. heading.number ≡ number) }
{
    let values = vec![in alloc; false; places.len()]?;
    Ok(Heading {
        places,
        values,
        number,
    })
}
