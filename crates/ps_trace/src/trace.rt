// The reader of a trace.

ghost use Rattle.std.specs.Prelude.{◌≡◌, ◌≢◌, ◌≤◌, ◌<◌, ◌+◌, ℕ, List, IsTrue, Some, None, IsSome, false, length};
ghost use Rattle.std.specs.Prelude.{vec_len, IfOk, OnOk, OnErr, Ok, Err, IsErrOf};
ghost use Rattle.ps_outside.specs.Outside.{Rose, CountsStay};
ghost use Rattle.ps_base.specs.declared.limits.TheConstants.{LARGEST_TRACE, LONGEST_TRACE_LINE};
ghost use Rattle.ps_lines.specs.Reader.{begin_of, limits_of, line_of};
ghost use Rattle.ps_model.specs.Network.{input_count};
ghost use Rattle.ps_trace.specs.Words.{fields};
ghost use Rattle.ps_trace.specs.Trace.{line_said};
ghost use Rattle.ps_trace.specs.Feeds.{feeds_of};
ghost use Rattle.ps_base.specs.declared.failing.Refusal.{Refusal};
ghost use Rattle.ps_trace.specs.declared.trace.Next.{Next};
ghost use Rattle.ps_trace.specs.LineSays.{said_by};
ghost use Rattle.ps_trace.specs.Scans.{at_line, header_in, inputs_of, scans_of, IsInOrder};
ghost use Rattle.ps_trace.specs.Scans.Headed.{fails};
ghost use Rattle.ps_base.specs.declared.failing.Rule.{Rule};

use crate::TraceFail;
use crate::copying::{are_in_order, copy};
use crate::heading::{Heading, find_header};
use crate::scan_line::{LineSays, read_line};
use ps_base::limits::{LARGEST_TRACE, LONGEST_TRACE_LINE};
use ps_base::{Place, Refusal, Rule};
use ps_lines::{Got, Limits, LineReader};
use ps_model::{App, Scan};
use ps_outside::{Failed, Files};
use std::alloc::Global;

const LIMITS: Limits = Limits {
    longest: LONGEST_TRACE_LINE,
    largest: LARGEST_TRACE,
};

/// Why no scan came.
#[derive(Clone, Copy)]
pub enum TraceStop {
    /// A read failed. A later call goes on with the same line.
    Fault,
    /// A line is refused. Every later call answers the same.
    Refused(Refusal),
}

/// What comes next in a trace.
#[derive(Clone, Copy)]
pub enum Next {
    Scan,
    Restart,
    End,
}

/// A reader of the trace of an application, after its header. All memory that it uses is taken by `start`.
pub struct TraceReader {
    lines: LineReader,
    // for each input the place of its value on a scan line, and the values of a line
    places: Vec<usize>,
    values: Vec<bool>,
    // whether each input's value stands at the input's number
    in_order: bool,
    // the number of the next line: one more than the line feeds before it
    number: u32,
    // the time of the last scan
    last: u32,
    refusal: Option<Refusal>,
    ghost one_each: { vec_len values ≡ vec_len places },
    ghost counted: { number ≤ begin_of lines + 1 },
    ghost limited: { (limits_of lines).largest ≡ LARGEST_TRACE },
    ghost straight: { IsTrue in_order → IsInOrder places.items },
    ghost near: { begin_of lines ≤ LARGEST_TRACE },
}

impl Drop for TraceReader {
    // One call for whoever owns one, in place of a walk through all that it holds.
    fn drop(self) {
        let TraceReader {
            lines: _,
            places: _,
            values: _,
            in_order: _,
            number: _,
            last: _,
            refusal: _,
        } = self;
    }
}

impl TraceReader {
    ghost use Rattle.ps_trace.specs.Reading.{IsReadingTrace, IsHeaded, IsRead, Comes, Fills, GoesOn, file_of, input_count_of, items_left, last_of, refusal_of, only_refused};

    /// A reader of the trace of this name, after its header.
    ///
    /// It takes all memory that the reader will use, among it a piece of 4,096 bytes and one line of 65,536 bytes.
    /// `Refused` comes exactly where the header is refused, or a line before it, or there is no header (T1, at the
    /// line one past the number of line feeds). `Fault` comes only where the files' count of the name rose; every other
    /// answer leaves the counts as they were.
    pub fn start<F: Files>(
        alloc: Global,
        files: &mut F,
        name: &str,
        app: &App,
    ) -> Result<TraceReader, TraceFail>
        ensures reads { IsTrue (F.tells files.old) → (text : List ℕ) → F.held files.old name.now ≡ Some text →
            IfOk result (λ reader. IsReadingTrace reader text) }
        ensures begins { IsTrue (F.tells files.old) → (text : List ℕ) → F.held files.old name.now ≡ Some text →
            IfOk result (λ reader. items_left reader text ≡ scans_of text app.now) }
        ensures headed { IsTrue (F.tells files.old) → (text : List ℕ) → F.held files.old name.now ≡ Some text →
            OnOk result (IsHeaded (header_in text app.now)) }
        ensures refuses { IsTrue (F.tells files.old) → (text : List ℕ) → F.held files.old name.now ≡ Some text →
            (refusal : Refusal) → result ≡ Err (TraceFail.Refused refusal) → header_in text app.now ≡ fails refusal }
        ensures found { IsTrue (F.tells files.old) → IsRead result → IsSome (F.held files.old name.now) }

        ensures name { IfOk result (λ reader. file_of reader ≡ name.now) }
        ensures sizes { IfOk result (λ reader. input_count_of reader ≡ input_count app.now) }
        ensures fresh { IfOk result (λ reader. last_of reader ≡ 0) }
        ensures open { IfOk result (λ reader. refusal_of reader ≡ None) }
        ensures fault { IsErrOf result TraceFail.Fault → Rose (F.faults files.old name.now) (F.faults files.new name.now) }
        ensures exact { ¬ IsErrOf result TraceFail.Fault → CountsStay (F.faults files.old) (F.faults files.new) }

        ensures counts { (other : List ℕ) → F.faults files.old other ≤ F.faults files.new other }
        ensures kept { F.held files.new ≡ F.held files.old }
        ensures telling { F.tells files.new ≡ F.tells files.old }
    {
        let mut lines = LineReader::start(alloc, name, LIMITS)?;
        match find_header(alloc, files, &mut lines, app) {
            Ok(heading) => Ok(TraceReader::behind(lines, heading)),
            Err(why) => Err(why),
        }
    }

    // A reader that is behind a header.
    fn behind(lines: LineReader, heading: Heading) -> TraceReader
        requires one_each { vec_len heading.values ≡ vec_len heading.places }
        requires counted { heading.number ≤ begin_of lines + 1 }
        requires limited { (limits_of lines).largest ≡ LARGEST_TRACE }
        requires near { begin_of lines ≤ LARGEST_TRACE }
        ensures lines { result.lines ≡ lines }
        ensures places { result.places ≡ heading.places }
        ensures number { result.number ≡ heading.number }
        ensures last { result.last ≡ 0 }
        ensures refusal { result.refusal ≡ None }
    {
        let in_order = are_in_order(&heading.places);
        TraceReader {
            lines,
            places: heading.places,
            values: heading.values,
            in_order,
            number: heading.number,
            last: 0,
            refusal: None,
        }
    }

    /// The next item of the trace. It takes no memory.
    ///
    /// With `Next::Scan` the scan stands in `into`; with every other answer `into` is as before. After `Fault` a
    /// later call goes on with the same line; after `Refused` every later call answers the same and reads nothing.
    /// `Fault` comes only where the files' count of the name rose in this call; every other answer leaves the counts as
    /// they were.
    #[inline(always)]
    pub fn next_scan<F: Files>(&mut self, files: &mut F, into: &mut Scan) -> Result<Next, TraceStop>
        requires sizes { length into.old.ins ≡ input_count_of self.old }

        // Over files that tell, and hold the text that the reader reads: the items come one after another.
        ensures reads { IsTrue (F.tells files.old) → (text : List ℕ) → F.held files.old (file_of self.old) ≡ Some text →
            IsReadingTrace self.old text → IsReadingTrace self.new text }
        ensures comes { IsTrue (F.tells files.old) → (text : List ℕ) → F.held files.old (file_of self.old) ≡ Some text →
            IsReadingTrace self.old text → IfOk result (λ next. Comes (items_left self.old text) next into.new (items_left self.new text)) }
        ensures refuses { IsTrue (F.tells files.old) → (text : List ℕ) → F.held files.old (file_of self.old) ≡ Some text →
            IsReadingTrace self.old text → (refusal : Refusal) → result ≡ Err (TraceStop.Refused refusal) → items_left self.old text ≡ only_refused refusal }
        ensures same_line { IsTrue (F.tells files.old) → (text : List ℕ) → F.held files.old (file_of self.old) ≡ Some text →
            IsReadingTrace self.old text → OnErr result (items_left self.new text ≡ items_left self.old text) }

        // Whether or not the files tell.
        ensures again { (refusal : Refusal) → refusal_of self.old ≡ Some refusal → result ≡ Err (TraceStop.Refused refusal) }
        ensures reads_nothing { IsSome (refusal_of self.old) → files.new ≡ files.old }
        ensures stays_refused { (refusal : Refusal) → result ≡ Err (TraceStop.Refused refusal) → refusal_of self.new ≡ Some refusal }
        ensures fills { IfOk result (λ next. Fills next self.old self.new into.old into.new) }
        ensures goes_on { IfOk result (λ next. GoesOn next self.old self.new) }
        ensures unchanged { OnErr result (into.new ≡ into.old) }
        ensures same_time { OnErr result (last_of self.new ≡ last_of self.old) }
        ensures fault { IsErrOf result TraceStop.Fault → Rose (F.faults files.old (file_of self.old)) (F.faults files.new (file_of self.old)) }
        ensures exact { ¬ IsErrOf result TraceStop.Fault → CountsStay (F.faults files.old) (F.faults files.new) }

        ensures counts { (other : List ℕ) → F.faults files.old other ≤ F.faults files.new other }
        ensures kept { F.held files.new ≡ F.held files.old }
        ensures telling { F.tells files.new ≡ F.tells files.old }
        ensures name { file_of self.new ≡ file_of self.old }
        ensures inputs { input_count_of self.new ≡ input_count_of self.old }
    {
        if let Some(refusal) = self.refusal {
            return Err(TraceStop::Refused(refusal));
        }
        'lines: loop {
            if let Some(next) = self.next_line(files, into)? {
                return Ok(next);
            }
        }
    }

    // What the next line gives. None: it is skipped.
    #[inline(always)]
    fn next_line<F: Files>(
        &mut self,
        files: &mut F,
        into: &mut Scan,
    ) -> Result<Option<Next>, TraceStop>
        requires sizes { length into.old.ins ≡ input_count_of self.old }
        requires open { self.old.refusal ≡ None }
        ensures reads { IsTrue (F.tells files.old) → (text : List ℕ) → F.held files.old (file_of self.old) ≡ Some text →
            IsReadingTrace self.old text → IsReadingTrace self.new text }
        ensures skips { IsTrue (F.tells files.old) → (text : List ℕ) → F.held files.old (file_of self.old) ≡ Some text →
            IsReadingTrace self.old text → result ≡ Ok None → items_left self.new text ≡ items_left self.old text }
        ensures comes { IsTrue (F.tells files.old) → (text : List ℕ) → F.held files.old (file_of self.old) ≡ Some text →
            IsReadingTrace self.old text → (next : Next) → result ≡ Ok (Some next) → Comes (items_left self.old text) next into.new (items_left self.new text) }
        ensures refuses { IsTrue (F.tells files.old) → (text : List ℕ) → F.held files.old (file_of self.old) ≡ Some text →
            IsReadingTrace self.old text → (refusal : Refusal) → result ≡ Err (TraceStop.Refused refusal) → items_left self.old text ≡ only_refused refusal }
        ensures same_line { IsTrue (F.tells files.old) → (text : List ℕ) → F.held files.old (file_of self.old) ≡ Some text →
            IsReadingTrace self.old text → OnErr result (items_left self.new text ≡ items_left self.old text) }
        ensures refused { (refusal : Refusal) → result ≡ Err (TraceStop.Refused refusal) → self.new.refusal ≡ Some refusal }
        ensures open { OnOk result (self.new.refusal ≡ None) }
        ensures moves { result ≡ Ok None → begin_of self.old.lines < begin_of self.new.lines }
        ensures fills { (next : Next) → result ≡ Ok (Some next) → Fills next self.old self.new into.old into.new }
        ensures goes_on { (next : Next) → result ≡ Ok (Some next) → GoesOn next self.old self.new }
        ensures skipped { result ≡ Ok None → into.new ≡ into.old }
        ensures skipped_time { result ≡ Ok None → last_of self.new ≡ last_of self.old }
        ensures unchanged { OnErr result (into.new ≡ into.old) }
        ensures same_time { OnErr result (last_of self.new ≡ last_of self.old) }
        ensures fault { IsErrOf result TraceStop.Fault → Rose (F.faults files.old (file_of self.old)) (F.faults files.new (file_of self.old)) }
        ensures exact { ¬ IsErrOf result TraceStop.Fault → CountsStay (F.faults files.old) (F.faults files.new) }
        ensures counts { (other : List ℕ) → F.faults files.old other ≤ F.faults files.new other }
        ensures kept { F.held files.new ≡ F.held files.old }
        ensures telling { F.tells files.new ≡ F.tells files.old }
        ensures name { file_of self.new ≡ file_of self.old }
        ensures places { self.new.places ≡ self.old.places }
    {
        let got = match self.lines.next_line(files) {
            Ok(got) => got,
            Err(Failed) => return Err(TraceStop::Fault),
        };
        if got == Got::End {
            return Ok(Some(Next::End));
        }
        let feeds = match feeds(got) {
            Ok(feeds) => feeds,
            Err(rule) => return Err(self.refuse(rule)),
        };
        match self.take_line(feeds, into) {
            LineSays::Nothing => Ok(None),
            LineSays::Restart => Ok(Some(Next::Restart)),
            LineSays::Scan(_) => Ok(Some(Next::Scan)),
            LineSays::Broken(rule) => Err(self.refuse(rule)),
        }
    }

    // The line is refused, and so is every later call.
    fn refuse(&mut self, rule: Rule) -> TraceStop
        ensures stop { result ≡ TraceStop.Refused (at_line rule self.old.number) }
        ensures refusal { self.new.refusal ≡ Some (at_line rule self.old.number) }
        ensures lines { self.new.lines ≡ self.old.lines }
        ensures places { self.new.places ≡ self.old.places }
        ensures last { self.new.last ≡ self.old.last }
    {
        let refusal = at_line(rule, self.number);
        self.refusal = Some(refusal);
        TraceStop::Refused(refusal)
    }

    // What comes of the line that was read last, which a line feed ends (1) or not (0).
    #[inline(always)]
    fn take_line(&mut self, feeds: u32, into: &mut Scan) -> LineSays
        requires sizes { length into.old.ins ≡ input_count_of self.old }
        requires room { self.old.number + feeds ≤ begin_of self.old.lines + 1 }
        ensures says { line_said (input_count_of self.old) self.old.last (fields (line_of self.old.lines)) ≡ said_by result self.new.values.items }
        ensures scan { (now : ℕ) → result ≡ LineSays.Scan now → into.new ≡ record { now = now; ins = inputs_of self.old.places.items self.new.values.items } }
        ensures time { (now : ℕ) → result ≡ LineSays.Scan now → self.new.last ≡ now }
        ensures rises { (now : ℕ) → result ≡ LineSays.Scan now → self.old.last ≤ now }
        ensures other { ((now : ℕ) → result ≢ LineSays.Scan now) → (into.new ≡ into.old) × (self.new.last ≡ self.old.last) }
        ensures broken { (rule : Rule) → result ≡ LineSays.Broken rule → self.new.number ≡ self.old.number }
        ensures counted { ((rule : Rule) → result ≢ LineSays.Broken rule) → self.new.number ≡ self.old.number + feeds }
        ensures lines { self.new.lines ≡ self.old.lines }
        ensures places { self.new.places ≡ self.old.places }
        ensures refusal { self.new.refusal ≡ self.old.refusal }
    {
        let says = read_line(self.lines.line(), self.last, &mut self.values);
        match says {
            LineSays::Broken(_) => {}
            LineSays::Scan(now) => {
                self.number += feeds;
                self.last = now;
                fill_by(into, now, &self.places, &self.values, self.in_order);
            }
            LineSays::Nothing | LineSays::Restart => self.number += feeds,
        }
        says
    }
}

/// A refusal by a rule at a line, with no column.
pub fn at_line(rule: Rule, line: u32) -> Refusal
    ensures { result ≡ at_line rule line }
{
    Refusal {
        rule,
        place: Place { line, column: 0 },
    }
}

// How many line feeds end a line that came, or the rule by which no line came.
pub(crate) fn feeds(got: Got) -> Result<u32, Rule>
    ensures value { result ≡ feeds_of got }
    ensures few { IfOk result (λ n. n ≤ 1) }
{
    match got {
        Got::Line => Ok(1),
        Got::LastLine => Ok(0),
        Got::TooLong => Err(Rule::T8),
        Got::TooLarge => Err(Rule::T9),
        Got::End => Err(Rule::T1),
    }
}

/// The scan with this time, and with each input's value at the input's place.
pub fn fill(into: &mut Scan, now: u32, places: &[usize], values: &[bool])
    requires { length into.old.ins ≡ length places.now }
    ensures { into.new ≡ record { now = now; ins = inputs_of places.now values.now } }
{
    for (i, place) in places.iter().enumerate() {
        into.ins
            .set(i, values.get(*place).copied().unwrap_or(false));
    }
    into.now = now;
}

// The same, by a copy where the values are known to be in order.
#[tactic(auto, using(crate::proofs::CopyLemmas::inputs_in_order))]
fn fill_by(into: &mut Scan, now: u32, places: &[usize], values: &[bool], in_order: bool)
    requires sizes { length into.old.ins ≡ length places.now }
    requires one_each { length values.now ≡ length places.now }
    requires straight { IsTrue in_order → IsInOrder places.now }
    ensures { into.new ≡ record { now = now; ins = inputs_of places.now values.now } }
{
    if in_order {
        copy(&mut into.ins, values);
        into.now = now;
    } else {
        fill(into, now, places, values);
    }
}
