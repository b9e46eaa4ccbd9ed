// What a word means in the place of a trace, made ready to be run.

ghost use Rattle.std.specs.Prelude.{◌≡◌, ◌≤◌, ◌∷◌, ◌++◌, ℕ, List, Some, None, Ok, IfOk, IfErr};
ghost use Rattle.std.specs.Prelude.{IfSome, IfNone, IsErrOf, IsTrue, OnOk, All, codes, decimal, length, []};
ghost use Rattle.std.specs.List.{flat_map};
ghost use Rattle.ps_bench_frame.specs.Ending.{IsUnread};
ghost use Rattle.ps_bench_frame.specs.Leaving.{OnlyReads};
ghost use Rattle.ps_bench_frame.specs.Meant.{file_meant};
ghost use Rattle.ps_bench_frame.specs.Opening.{source, source_of_call};
ghost use Rattle.ps_bench_frame.specs.Refusing.{refused_line};
ghost use Rattle.ps_bench_frame.specs.Stopping.{StopsAtCases};
ghost use Rattle.ps_bench_cases.specs.Alone.{alone, case_with};
ghost use Rattle.ps_bench_cases.specs.Expanded.{expanded};
ghost use Rattle.ps_bench_cases.specs.Meant.{faults_in, whole_case};
ghost use Rattle.ps_bench_cases.specs.Runnable.{IsRunnable};
ghost use Rattle.ps_bench_cases.specs.declared.case.Case.{Case as CaseOf};
ghost use Rattle.ps_bench_cases.specs.declared.limits.TheConstants.{MOST_CASES};
ghost use Rattle.ps_bench_messages.specs.Remarking.{HearsRemark, RemarksIf};
ghost use Rattle.ps_edge.specs.Hearing.{listener_seen};
ghost use Rattle.ps_outside.specs.Outside.{Rose};
ghost use Rattle.ps_trace.specs.FaultOrder.{AreInOrder, AreOfOneChannel};
ghost use Rattle.ps_bench_trace.specs.Coming.{ComesToPart, ComesToPlay};
ghost use Rattle.ps_bench_trace.specs.Playing.{LacksCase, LacksCaseOf, MeansPart, MeansPlay};
ghost use Rattle.ps_bench_trace.specs.Remarking.{TellsNoCaseOf, first_lines_text, lines_text, no_case_text};

use crate::expansion::Expansion;
use ps_base::{Bytes, Memory};
use ps_bench_cases::{Case, CaseFile, case_with_line, faults_of};
use ps_bench_frame::pieces::{add_short, add_shown};
use ps_bench_frame::{Call, Opened, Part, Stop, Word, open_written_cases, word_of};
use ps_edge::KnownListener;
use ps_message::NO_MEMORY;
use ps_model::App;
use ps_outside::{Files, Output};
use ps_trace::Faults;
use std::alloc::Global;

/// What is run.
#[derive(Drop)]
pub struct Play {
    /// The trace of cases, to be read in place of the files; None: the trace is the file of the word.
    pub cases: Option<Expansion>,
    /// The faults of a case, in order and of one channel; none of anything else.
    pub faults: Faults,
}

// All cases of a file.
fn play_all(alloc: Global, app: &App, file: &CaseFile) -> Result<Play, Memory>
    requires runnable { All (λ (case : CaseOf). IsRunnable app.now (whole_case file.now case)) file.now.cases }
    requires few { length file.now.cases ≤ MOST_CASES }
    ensures cases { IfOk result (λ play. play.cases ≡ Some (expanded app.now file.now)) }
    ensures faults { IfOk result (λ play. play.faults ≡ []) }
{
    Ok(Play {
        cases: Some(Expansion::of_all(alloc, app, file)?),
        faults: Faults::new(alloc),
    })
}

// One case of a file.
fn play_one(alloc: Global, app: &App, file: &CaseFile, case: &Case) -> Result<Play, Memory>
    requires { IsRunnable app.now (whole_case file.now case.now) }
    ensures cases { IfOk result (λ play. play.cases ≡ Some (expanded app.now (alone file.now case.now))) }
    ensures faults { IfOk result (λ play. play.faults ≡ faults_in (whole_case file.now case.now)) }
{
    Ok(Play {
        cases: Some(Expansion::of_one(alloc, app, file, case)?),
        faults: faults_of(alloc, file.begin.as_slice(), case.statements.as_slice())?,
    })
}

// The case of a file that has this line. None: no case has it.
fn play_with(alloc: Global, app: &App, file: &CaseFile, line: u32) -> Result<Option<Play>, Memory>
    requires { All (λ (case : CaseOf). IsRunnable app.now (whole_case file.now case)) file.now.cases }
    ensures play { IfOk result (λ got. IfSome got (λ play. (c : CaseOf) × (case_with line file.now.cases ≡ Some c)
        × (play.cases ≡ Some (expanded app.now (alone file.now c))) × (play.faults ≡ faults_in (whole_case file.now c)))) }
    ensures none { IfOk result (λ got. IfNone got (case_with line file.now.cases ≡ None)) }
    ensures ordered { IfOk result (λ got. IfSome got (λ play. AreInOrder play.faults)) }
    ensures one_channel { IfOk result (λ got. IfSome got (λ play. AreOfOneChannel play.faults)) }
{
    match case_with_line(file, line) {
        Some(case) => Ok(Some(play_one(alloc, app, file, case)?)),
        None => Ok(None),
    }
}

// As many lines of cases as a message names.
const MOST_TOLD: usize = 20;

// The line on which one more case begins.
fn add_other_line(text: &mut Bytes, case: &Case) -> Result<(), Memory>
    ensures { OnOk result (text.new ≡ text.old ++ codes ", " ++ decimal case.now.line) }
{
    text.extend_from_slice(b", ")?;
    add_short(text, case.line)
}

// The lines on which more cases begin.
fn add_other_lines(text: &mut Bytes, cases: &[Case]) -> Result<(), Memory>
    ensures { OnOk result (text.new ≡ text.old ++ flat_map (λ case. codes ", " ++ decimal case.line) cases.now) }
{
    for case in cases {
        add_other_line(text, case)?;
    }
    Ok(())
}

// The lines on which cases begin, with a comma between them.
fn add_lines(text: &mut Bytes, cases: &[Case]) -> Result<(), Memory>
    ensures { OnOk result (text.new ≡ text.old ++ lines_text cases.now) }
{
    match cases {
        [] => Ok(()),
        [first, others @ ..] => {
            add_short(text, first.line)?;
            add_other_lines(text, others)
        }
    }
}

// The same, of many the first ones.
fn add_first_lines(text: &mut Bytes, cases: &[Case]) -> Result<(), Memory>
    ensures { OnOk result (text.new ≡ text.old ++ first_lines_text cases.now) }
{
    if cases.len() <= MOST_TOLD {
        return add_lines(text, cases);
    }
    add_lines(text, &cases[..MOST_TOLD])?;
    text.extend_from_slice(b", ..")
}

// What is told of a word whose line is in no case of its file.
fn no_case(alloc: Global, word: &str, file: &CaseFile) -> Result<Bytes, Memory>
    ensures { IfOk result (λ text. text ≡ no_case_text word.now file.now) }
{
    let mut text = Bytes::new(alloc);
    add_shown(&mut text, word)?;
    text.extend_from_slice(
        b": no case has this line\nname a line of a case; the cases begin at the lines ",
    )?;
    add_first_lines(&mut text, file.cases.as_slice())?;
    text.extend_from_slice(b" (docs/watch.md)\n")?;
    Ok(text)
}

// Tells a listener that the line of a word is in no case of its file.
fn tell_no_case<L: KnownListener>(alloc: Global, listener: &mut L, word: &str, file: &CaseFile)
    ensures told { IsTrue (L.tells listener.old) → HearsRemark (λ text. text ≡ no_case_text word.now file.now)
        (listener_seen L.quiet L.heard L.reads L.unread L.room listener.old) (L.heard listener.new) }
    ensures listening { L.tells listener.new ≡ L.tells listener.old }
{
    if listener.is_quiet() {
        return;
    }
    match no_case(alloc, word, file) {
        Ok(text) => listener.hear_all(text.as_slice()),
        Err(Memory) => listener.hear_all(NO_MEMORY.as_bytes()),
    }
}

// All cases of the file of this name.
fn open_all<F: Files, O: Output>(
    alloc: Global,
    files: &mut F,
    out: &mut O,
    opened: &Opened,
    name: &str,
) -> Result<Play, Stop>
    ensures means { IfOk result (λ play. MeansPart
        (source opened.now.app opened.now.sizes (F.tells files.old) (F.held files.old)) name.now Part.Cases
        play.cases play.faults) }
    ensures no_faults { IfOk result (λ play. play.faults ≡ []) }
    ensures stops { IfErr result (λ stop. StopsAtCases
        (source opened.now.app opened.now.sizes (F.tells files.old) (F.held files.old)) name.now refused_line stop
        (O.tells out.old) (O.taken out.old) (O.taken out.new)) }
    ensures unread { IfErr result (λ stop. IsUnread stop →
        Rose (F.faults files.old name.now) (F.faults files.new name.now)) }
    ensures unwritten { IsErrOf result Stop.Unwritten → Rose (O.faults out.old) (O.faults out.new) }
    ensures unsaid { OnOk result (O.taken out.new ≡ O.taken out.old) }
    ensures reads { (other : List ℕ) → F.faults files.old other ≤ F.faults files.new other }
    ensures writes { O.faults out.old ≤ O.faults out.new }
    ensures kept { F.held files.new ≡ F.held files.old }
    ensures reading { F.tells files.new ≡ F.tells files.old }
    ensures telling { O.tells out.new ≡ O.tells out.old }
{
    let file = match open_written_cases(alloc, files, out, opened, name) {
        Ok(file) => file,
        Err(stop) => return Err(stop),
    };
    match play_all(alloc, &opened.app, &file) {
        Ok(play) => Ok(play),
        Err(Memory) => Err(Stop::NoMemory),
    }
}

// The case of the file of this name that has this line; or tells that none has it.
fn open_one<F: Files, O: Output, L: KnownListener>(
    alloc: Global,
    files: &mut F,
    out: &mut O,
    listener: &mut L,
    opened: &Opened,
    word: &str,
    name: &str,
    line: u32,
) -> Result<Option<Play>, Stop>
    ensures means { IfOk result (λ got. IfSome got (λ play. MeansPart
        (source opened.now.app opened.now.sizes (F.tells files.old) (F.held files.old)) name.now (Part.Case line)
        play.cases play.faults)) }
    ensures none { IfOk result (λ got. IfNone got (LacksCaseOf
        (source opened.now.app opened.now.sizes (F.tells files.old) (F.held files.old)) name.now (Part.Case line))) }
    ensures ordered { IfOk result (λ got. IfSome got (λ play. AreInOrder play.faults)) }
    ensures one_channel { IfOk result (λ got. IfSome got (λ play. AreOfOneChannel play.faults)) }
    ensures stops { IfErr result (λ stop. StopsAtCases
        (source opened.now.app opened.now.sizes (F.tells files.old) (F.held files.old)) name.now refused_line stop
        (O.tells out.old) (O.taken out.old) (O.taken out.new)) }
    ensures unread { IfErr result (λ stop. IsUnread stop →
        Rose (F.faults files.old name.now) (F.faults files.new name.now)) }
    ensures unwritten { IsErrOf result Stop.Unwritten → Rose (O.faults out.old) (O.faults out.new) }
    ensures unsaid { OnOk result (O.taken out.new ≡ O.taken out.old) }
    ensures reads { (other : List ℕ) → F.faults files.old other ≤ F.faults files.new other }
    ensures writes { O.faults out.old ≤ O.faults out.new }
    ensures kept { F.held files.new ≡ F.held files.old }
    ensures reading { F.tells files.new ≡ F.tells files.old }
    ensures told { IsTrue (L.tells listener.old) → RemarksIf (result ≡ Ok None) (TellsNoCaseOf
        (source opened.now.app opened.now.sizes (F.tells files.old) (F.held files.old)) name.now word.now)
        (listener_seen L.quiet L.heard L.reads L.unread L.room listener.old) (L.heard listener.new) }
    ensures stays { IfOk result (λ got. IfSome got (λ play. listener.new ≡ listener.old)) }
    ensures listening { L.tells listener.new ≡ L.tells listener.old }
    ensures telling { O.tells out.new ≡ O.tells out.old }
{
    let file = match open_written_cases(alloc, files, out, opened, name) {
        Ok(file) => file,
        Err(stop) => return Err(stop),
    };
    match play_with(alloc, &opened.app, &file, line) {
        Ok(Some(play)) => Ok(Some(play)),
        Ok(None) => {
            tell_no_case(alloc, listener, word, &file);
            Ok(None)
        }
        Err(Memory) => Err(Stop::NoMemory),
    }
}

// What is run of the trace of a file: nothing is made of it.
fn play_file(alloc: Global) -> Play
    ensures cases { result.cases ≡ None }
    ensures faults { result.faults ≡ [] }
{
    Play {
        cases: None,
        faults: Faults::new(alloc),
    }
}

/// What a word means in the place of a trace, made ready to be run: the trace of its name is read later, cases are
/// expanded. Where a case file is refused the line of the refusal is written, and nothing else. None: no case of the
/// file has the line of the word, and the listener was told so; such a call ends with the status `Usage`.
///
/// A run reads its trace from `cases` where there is one, by any name, and else from the files, by the name of
/// `word_of`. `UnreadCases` comes only where the files' count of that name rose in this call, and `Unwritten` only
/// where the output's did.
pub fn open_play<F: Files, O: Output, L: KnownListener>(
    alloc: Global,
    files: &mut F,
    out: &mut O,
    listener: &mut L,
    opened: &Opened,
    word: &str,
) -> Result<Option<Play>, Stop>
    ensures means { IfOk result (λ got. IfSome got (λ play. MeansPlay
        (source opened.now.app opened.now.sizes (F.tells files.old) (F.held files.old)) word.now
        play.cases play.faults)) }
    ensures none { IfOk result (λ got. IfNone got (LacksCase
        (source opened.now.app opened.now.sizes (F.tells files.old) (F.held files.old)) word.now)) }
    ensures ordered { IfOk result (λ got. IfSome got (λ play. AreInOrder play.faults)) }
    ensures one_channel { IfOk result (λ got. IfSome got (λ play. AreOfOneChannel play.faults)) }
    ensures stops { IfErr result (λ stop. StopsAtCases
        (source opened.now.app opened.now.sizes (F.tells files.old) (F.held files.old)) (file_meant word.now)
        refused_line stop (O.tells out.old) (O.taken out.old) (O.taken out.new)) }
    ensures unread { IfErr result (λ stop. IsUnread stop →
        Rose (F.faults files.old (file_meant word.now)) (F.faults files.new (file_meant word.now))) }
    ensures unwritten { IsErrOf result Stop.Unwritten → Rose (O.faults out.old) (O.faults out.new) }
    ensures unsaid { OnOk result (O.taken out.new ≡ O.taken out.old) }
    ensures reads { (other : List ℕ) → F.faults files.old other ≤ F.faults files.new other }
    ensures writes { O.faults out.old ≤ O.faults out.new }
    ensures kept { F.held files.new ≡ F.held files.old }
    ensures reading { F.tells files.new ≡ F.tells files.old }
    ensures told { IsTrue (L.tells listener.old) → RemarksIf (result ≡ Ok None) (TellsNoCaseOf
        (source opened.now.app opened.now.sizes (F.tells files.old) (F.held files.old)) (file_meant word.now) word.now)
        (listener_seen L.quiet L.heard L.reads L.unread L.room listener.old) (L.heard listener.new) }
    ensures stays { IfOk result (λ got. IfSome got (λ play. listener.new ≡ listener.old)) }
    ensures listening { L.tells listener.new ≡ L.tells listener.old }
    ensures telling { O.tells out.new ≡ O.tells out.old }
{
    let Word { file, part } = word_of(word);
    match part {
        Part::Trace => Ok(Some(play_file(alloc))),
        Part::Cases => match open_all(alloc, files, out, opened, file) {
            Ok(play) => Ok(Some(play)),
            Err(stop) => Err(stop),
        },
        Part::Case(line) => open_one(alloc, files, out, listener, opened, word, file, line),
    }
}

// Tells who listens that the line of a word is in no case of its file.
fn hear_no_case<C: Call>(call: &mut C, word: &str, file: &CaseFile)
    ensures { C.seen call.new ≡ C.seen call.old }
{
    if call.is_quiet() {
        return;
    }
    match no_case(call.alloc(), word, file) {
        Ok(text) => call.hear(text.as_slice()),
        Err(Memory) => call.hear(NO_MEMORY.as_bytes()),
    }
}

// All cases of the file of this name. Nothing is written.
fn read_all<C: Call>(call: &mut C, opened: &Opened, name: &str) -> Result<Option<Play>, Stop>
    ensures comes { ComesToPart (source_of_call opened.now.app opened.now.sizes (C.seen call.old)) name.now Part.Cases
        result }
    ensures reads { OnlyReads (name.now ∷ []) (C.seen call.old) (C.seen call.new) result }
{
    let file = match call.open_cases(opened, 0, name) {
        Ok(file) => file,
        Err(stop) => return Err(stop),
    };
    match play_all(call.alloc(), &opened.app, &file) {
        Ok(play) => Ok(Some(play)),
        Err(Memory) => Err(Stop::NoMemory),
    }
}

// The case of the file of this name that has this line; or tells that none has it. Nothing is written.
fn read_one<C: Call>(
    call: &mut C,
    opened: &Opened,
    word: &str,
    name: &str,
    line: u32,
) -> Result<Option<Play>, Stop>
    ensures comes { ComesToPart (source_of_call opened.now.app opened.now.sizes (C.seen call.old)) name.now
        (Part.Case line) result }
    ensures reads { OnlyReads (name.now ∷ []) (C.seen call.old) (C.seen call.new) result }
{
    let file = match call.open_cases(opened, 0, name) {
        Ok(file) => file,
        Err(stop) => return Err(stop),
    };
    match play_with(call.alloc(), &opened.app, &file, line) {
        Ok(Some(play)) => Ok(Some(play)),
        Ok(None) => {
            hear_no_case(call, word, &file);
            Ok(None)
        }
        Err(Memory) => Err(Stop::NoMemory),
    }
}

/// What a word means in the place of a trace, made ready to be run: the trace of its name is read later, cases are
/// expanded. Nothing is written. None: no case of the file has the line of the word, and who listens was told so; such
/// a call ends with the status `Usage`.
pub fn read_play<C: Call>(call: &mut C, opened: &Opened, word: &str) -> Result<Option<Play>, Stop>
    ensures comes { ComesToPlay (source_of_call opened.now.app opened.now.sizes (C.seen call.old)) word.now result }
    ensures reads { OnlyReads (file_meant word.now ∷ []) (C.seen call.old) (C.seen call.new) result }
{
    let Word { file, part } = word_of(word);
    match part {
        Part::Trace => Ok(Some(play_file(call.alloc()))),
        Part::Cases => read_all(call, opened, file),
        Part::Case(line) => read_one(call, opened, word, file, line),
    }
}
