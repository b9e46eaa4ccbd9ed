// Fault files, whoever their faults strike.

ghost use Rattle.std.specs.Prelude.{◌≡◌, ◌≢◌, ◌≤◌, ◌+◌, ◌++◌, [], ◌∷◌, ℕ, List, IsTrue, Some, None, IsSome, Err, IfOk, OnOk, IsErrOf, true};
ghost use Rattle.ps_outside.specs.Outside.{Rose, CountsStay};
ghost use Rattle.ps_base.specs.declared.failing.Refusal.{Refusal};
ghost use Rattle.ps_base.specs.declared.limits.TheConstants.{MOST_FAULT_LINES};
ghost use Rattle.ps_lines.specs.Lines.{Line};
ghost use Rattle.ps_lines.specs.Reader.{Gives, left, name_of};
ghost use Rattle.ps_trace.specs.Words.{fields};
ghost use Rattle.ps_trace.specs.Faults.{before_next, fault_judged, falls, faults_in, is_other, struck_of, words_struck};
ghost use Rattle.ps_trace.specs.Faults.Struck.{strikes};
ghost use Rattle.ps_trace.specs.FaultOrder.{StrikeInOrder, StrikeOne};
ghost use Rattle.ps_trace.specs.FaultSays.{judged_by, struck_by, targets_by};
ghost use Rattle.ps_trace.specs.Reading.{IsRead};
ghost use Rattle.ps_trace.specs.Leaving.{Came, IsFurther, IsUnderWay, Leaves, shelf};
ghost use Rattle.ps_trace.specs.Found.{AreFound, EndsBy, GoesOnBy, IsMore, line_got, number_behind};

use crate::TraceFail;
use crate::fault_line::read_fault;
use crate::target::{FaultLine, Target};
use crate::trace::at_line;
use crate::words::first_field;
use ps_base::limits::{LONGEST_FAULT_LINE, MOST_FAULT_LINES};
use ps_base::{Memory, Rule};
use ps_lines::{Got, Limits, LineReader};
use ps_outside::{Failed, Files};
use std::alloc::Global;

// The bytes of as many lines as a fault file may have, of the longest length and with their line feeds. The line that
// has a byte after them is refused in any case: it is line 1,001, or too long, or one before it was.
const LARGEST_READ: u32 = MOST_FAULT_LINES * (LONGEST_FAULT_LINE + 1);

const LIMITS: Limits = Limits {
    longest: LONGEST_FAULT_LINE,
    largest: LARGEST_READ,
};

// The scan and the turn of the fault line before, and who the first one strikes.
#[derive(Clone, Copy)]
pub(crate) struct Before<W> {
    pub(crate) scan: u32,
    pub(crate) turn: u32,
    pub(crate) first: Option<W>,
}

// What was found so far: the number of the next line, what stands before it, and the faults.
#[derive(Drop)]
pub(crate) struct Found<W, T> {
    pub(crate) number: u32,
    pub(crate) before: Before<W>,
    pub(crate) faults: Vec<T>,
}

// Whether a line was taken and more may come, or all were taken.
#[derive(Clone, Copy)]
pub(crate) enum Taken {
    More,
    All,
}

// What a line says.
#[derive(Drop)]
pub(crate) enum FaultSays<W> {
    Nothing,
    Strikes(FaultLine<W>),
    Broken(Rule),
}

/// The faults of a fault file, in its order, which is the order in which they strike. Where `one_alone` is asked all
/// strike one alone.
///
/// A line is `before <scan> <who> <code|memory> <offset> <bytes>`, or has `turn <turn>` after the scan. The first
/// refused line decides: it is line 1,001 (F5); it has over 600 bytes or not this form (F1); its scan or turn is less
/// than an earlier line's (F2); it passes the region's end (F3); where `one_alone` is asked, it strikes another one
/// than the first fault (F4). `Fault` comes only where the files' count of the name rose in this call; every other
/// answer leaves the counts as they were.
pub fn read_faults_of<W: Target, F: Files>(
    alloc: Global,
    files: &mut F,
    name: &str,
    sizes: &W::Sizes,
    one_alone: bool,
) -> Result<Vec<W::Fault>, TraceFail>
    ensures gives { IsTrue (F.tells files.old) → (text : List ℕ) → F.held files.old name.now ≡ Some text →
        IfOk result (λ faults. faults_in (targets_by W.named_by W.is_same W.length_of W.made sizes.now one_alone) text ≡ record { faults = faults.items; refusal = None }) }
    ensures refuses { IsTrue (F.tells files.old) → (text : List ℕ) → F.held files.old name.now ≡ Some text →
        (refusal : Refusal) → result ≡ Err (TraceFail.Refused refusal) →
        (faults_in (targets_by W.named_by W.is_same W.length_of W.made sizes.now one_alone) text).refusal ≡ Some refusal }
    ensures found { IsTrue (F.tells files.old) → IsRead result → IsSome (F.held files.old name.now) }
    ensures fault { IsErrOf result TraceFail.Fault → Rose (F.faults files.old name.now) (F.faults files.new name.now) }
    ensures exact { ¬ IsErrOf result TraceFail.Fault → CountsStay (F.faults files.old) (F.faults files.new) }

    // Whether or not the files tell.
    ensures ordered { IfOk result (λ faults. StrikeInOrder W.parts faults.items) }
    ensures one { one_alone ≡ true → IfOk result (λ faults. StrikeOne W.parts faults.items) }

    ensures counts { (other : List ℕ) → F.faults files.old other ≤ F.faults files.new other }
    ensures kept { F.held files.new ≡ F.held files.old }
    ensures telling { F.tells files.new ≡ F.tells files.old }
{
    let mut lines = LineReader::start(alloc, name, LIMITS)?;
    let faults = Vec::new(alloc);
    let mut found = Found {
        number: 1,
        before: Before {
            scan: 0,
            turn: 0,
            first: None,
        },
        faults,
    };
    match read_all::<W, F>(alloc, files, &mut lines, sizes, one_alone, &mut found) {
        Ok(_) => Ok(found.faults),
        Err(why) => Err(why),
    }
}

// Reads all lines that are left.
fn read_all<W: Target, F: Files>(
    alloc: Global,
    files: &mut F,
    lines: &mut LineReader,
    sizes: &W::Sizes,
    one_alone: bool,
    found: &mut Found<W, W::Fault>,
) -> Result<(), TraceFail>
    requires way { IsUnderWay (shelf (F.tells files.old) (F.held files.old) (F.faults files.old)) lines.old }
    requires are { AreFound (targets_by W.named_by W.is_same W.length_of W.made sizes.now one_alone) W.parts found.old }
    ensures says { IsTrue (F.tells files.old) → (text : List ℕ) → F.held files.old (name_of lines.old) ≡ Some text →
        EndsBy (targets_by W.named_by W.is_same W.length_of W.made sizes.now one_alone) result found.old found.new (left lines.old text) }
    ensures are { OnOk result (AreFound (targets_by W.named_by W.is_same W.length_of W.made sizes.now one_alone) W.parts found.new) }
    ensures leaves { Leaves (name_of lines.old) (shelf (F.tells files.old) (F.held files.old) (F.faults files.old)) (shelf (F.tells files.new) (F.held files.new) (F.faults files.new)) result }
{
    'lines: loop {
        match read_next::<W, F>(alloc, files, lines, sizes, one_alone, found) {
            Ok(taken) => match taken {
                Taken::More => {}
                Taken::All => return Ok(()),
            },
            Err(why) => return Err(why),
        }
    }
}

// Reads the next line.
fn read_next<W: Target, F: Files>(
    alloc: Global,
    files: &mut F,
    lines: &mut LineReader,
    sizes: &W::Sizes,
    one_alone: bool,
    found: &mut Found<W, W::Fault>,
) -> Result<Taken, TraceFail>
    requires way { IsUnderWay (shelf (F.tells files.old) (F.held files.old) (F.faults files.old)) lines.old }
    requires are { AreFound (targets_by W.named_by W.is_same W.length_of W.made sizes.now one_alone) W.parts found.old }
    ensures says { IsTrue (F.tells files.old) → (text : List ℕ) → F.held files.old (name_of lines.old) ≡ Some text →
        GoesOnBy (targets_by W.named_by W.is_same W.length_of W.made sizes.now one_alone) result found.old found.new (left lines.old text) (left lines.new text) }
    ensures are { OnOk result (AreFound (targets_by W.named_by W.is_same W.length_of W.made sizes.now one_alone) W.parts found.new) }
    ensures further { IfOk result (λ taken. taken ≡ Taken.More → IsFurther (shelf (F.tells files.old) (F.held files.old) (F.faults files.old)) lines.old lines.new) }
    ensures leaves { Leaves (name_of lines.old) (shelf (F.tells files.old) (F.held files.old) (F.faults files.old)) (shelf (F.tells files.new) (F.held files.new) (F.faults files.new)) result }
{
    match lines.next_line(files) {
        Ok(got) => take::<W>(alloc, got, lines.line(), sizes, one_alone, found),
        Err(Failed) => Err(TraceFail::Fault),
    }
}

// Takes what came so, a line or the text's end.
fn take<W: Target>(
    alloc: Global,
    got: Got,
    line: &[u8],
    sizes: &W::Sizes,
    one_alone: bool,
    found: &mut Found<W, W::Fault>,
) -> Result<Taken, TraceFail>
    requires are { AreFound (targets_by W.named_by W.is_same W.length_of W.made sizes.now one_alone) W.parts found.old }
    ensures says { (lines rest : List Line) → Gives lines got line.now rest → GoesOnBy (targets_by W.named_by W.is_same W.length_of W.made sizes.now one_alone) result found.old found.new lines rest }
    ensures are { OnOk result (AreFound (targets_by W.named_by W.is_same W.length_of W.made sizes.now one_alone) W.parts found.new) }
    ensures came { IfOk result (λ taken. taken ≡ Taken.More → Came got) }
    ensures no_fault { ¬ IsErrOf result TraceFail.Fault }
{
    match got {
        Got::End => Ok(Taken::All),
        _ => take_line::<W>(alloc, got, line, sizes, one_alone, found),
    }
}

// Takes a line that came so.
fn take_line<W: Target>(
    alloc: Global,
    got: Got,
    line: &[u8],
    sizes: &W::Sizes,
    one_alone: bool,
    found: &mut Found<W, W::Fault>,
) -> Result<Taken, TraceFail>
    requires more { got ≢ Got.End }
    requires are { AreFound (targets_by W.named_by W.is_same W.length_of W.made sizes.now one_alone) W.parts found.old }
    ensures says { (lines rest : List Line) → Gives lines got line.now rest → GoesOnBy (targets_by W.named_by W.is_same W.length_of W.made sizes.now one_alone) result found.old found.new lines rest }
    ensures are { OnOk result (AreFound (targets_by W.named_by W.is_same W.length_of W.made sizes.now one_alone) W.parts found.new) }
    ensures came { OnOk result (Came got) }
    ensures no_fault { ¬ IsErrOf result TraceFail.Fault }
{
    match judge_line::<W>(alloc, got, line, sizes, one_alone, found) {
        Ok(says) => match says {
            FaultSays::Nothing => {
                found.number = number_behind(got, found.number);
                Ok(Taken::More)
            }
            FaultSays::Strikes(line) => strike(got, line, found),
            FaultSays::Broken(rule) => Err(TraceFail::Refused(at_line(rule, found.number))),
        },
        Err(_) => Err(TraceFail::Memory),
    }
}

// What the next line says, which came so.
fn judge_line<W: Target>(
    alloc: Global,
    got: Got,
    line: &[u8],
    sizes: &W::Sizes,
    one_alone: bool,
    found: &Found<W, W::Fault>,
) -> Result<FaultSays<W>, Memory>
    ensures { IfOk result (λ says.
        struck_of (targets_by W.named_by W.is_same W.length_of W.made sizes.now one_alone) found.now.before found.now.number (line_got got line.now) ≡ struck_by says) }
{
    if found.number > MOST_FAULT_LINES {
        return Ok(FaultSays::Broken(Rule::F5));
    }
    match got {
        Got::Line | Got::LastLine => read_line::<W>(alloc, line, sizes, one_alone, found.before),
        Got::TooLong | Got::TooLarge | Got::End => Ok(FaultSays::Broken(Rule::F1)),
    }
}

// One fault more was found, in a line that came so.
fn strike<W: Target>(
    got: Got,
    line: FaultLine<W>,
    found: &mut Found<W, W::Fault>,
) -> Result<Taken, TraceFail>
    requires { found.old.number ≤ MOST_FAULT_LINES + 1 }
    ensures answer { IsMore result }
    ensures number { OnOk result (found.new.number ≡ number_behind got found.old.number) }
    ensures before { OnOk result (found.new.before ≡ before_next (strikes line) found.old.before) }
    ensures faults { OnOk result (found.new.faults.items ≡ found.old.faults.items ++ W.made found.old.number line ∷ []) }
{
    found.before = behind(found.before, &line);
    match found.faults.push(W::fault(found.number, line)) {
        Ok(()) => {
            found.number = number_behind(got, found.number);
            Ok(Taken::More)
        }
        Err(_) => Err(TraceFail::Memory),
    }
}

// The number of the line after one that came so.
fn number_behind(got: Got, number: u32) -> u32
    requires { number ≤ MOST_FAULT_LINES + 1 }
    ensures { result ≡ number_behind got number }
{
    match got {
        Got::Line => number + 1,
        Got::LastLine | Got::TooLong | Got::TooLarge | Got::End => number,
    }
}

// What a line says after others.
fn read_line<W: Target>(
    alloc: Global,
    line: &[u8],
    sizes: &W::Sizes,
    one_alone: bool,
    before: Before<W>,
) -> Result<FaultSays<W>, Memory>
    ensures { IfOk result (λ says. words_struck (targets_by W.named_by W.is_same W.length_of W.made sizes.now one_alone) before (fields line.now) ≡ struck_by says) }
{
    let Some((from, upto)) = first_field(line) else {
        return Ok(FaultSays::Nothing);
    };
    match read_fault::<W>(alloc, line, from, upto)? {
        None => Ok(FaultSays::Broken(Rule::F1)),
        Some(line) => match judge(sizes, one_alone, before, &line) {
            None => Ok(FaultSays::Strikes(line)),
            Some(rule) => Ok(FaultSays::Broken(rule)),
        },
    }
}

// The rule that refuses a fault line after others.
fn judge<W: Target>(
    sizes: &W::Sizes,
    one_alone: bool,
    before: Before<W>,
    line: &FaultLine<W>,
) -> Option<Rule>
    ensures { fault_judged (targets_by W.named_by W.is_same W.length_of W.made sizes.now one_alone) before line.now ≡ judged_by result line.now }
{
    if falls(before, line.scan, line.turn) {
        return Some(Rule::F2);
    }
    let length = line.who.region_length(sizes, line.region);
    if line.at > length || line.bytes.len() > (length - line.at) as usize {
        return Some(Rule::F3);
    }
    if one_alone && is_other(before.first, line.who) {
        return Some(Rule::F4);
    }
    None
}

// Whether a scan, or with equal scans a turn, is less than that of the fault line before.
fn falls<W: Target>(before: Before<W>, scan: u32, turn: u32) -> bool
    ensures { result ≡ falls before scan turn }
{
    scan < before.scan || scan == before.scan && turn < before.turn
}

// Whether a fault line strikes another one than the first does.
fn is_other<W: Target>(first: Option<W>, who: W) -> bool
    ensures { result ≡ is_other W.is_same first who }
{
    match first {
        Some(first) => !first.is(who),
        None => false,
    }
}

// What stands before the line after a fault line.
fn behind<W: Target>(before: Before<W>, line: &FaultLine<W>) -> Before<W>
    ensures { result ≡ before_next (strikes line.now) before }
{
    Before {
        scan: line.scan,
        turn: line.turn,
        first: Some(before.first.unwrap_or(line.who)),
    }
}
