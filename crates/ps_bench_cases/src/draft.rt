// A case file as far as it was read.

ghost use Rattle.std.specs.Prelude.{◌≡◌, ◌≤◌, ◌<◌, ◌+◌, ◌^◌, [], true, false, IfOk, IfNone, OnOk};
ghost use Rattle.ps_base.specs.declared.limits.TheConstants.{LARGEST_TIME};
ghost use Rattle.ps_bench_cases.specs.declared.limits.TheConstants.{MOST_CASE_SCANS};
ghost use Rattle.ps_bench_names.specs.Titles.{is_case_name};
ghost use Rattle.ps_bench_cases.specs.Stands.{is_over, IsSmall};
ghost use Rattle.ps_bench_cases.specs.File.{no_lines, at, stated, closed, coming, fault_left};
ghost use Rattle.ps_bench_cases.specs.File.{case_judged, opened, case_after, file_ended};
ghost use Rattle.ps_bench_cases.specs.DraftSays.{after_by, KeepsLimits, IsWithin};

use crate::case::{Act, Case, CaseFile, Statement};
use crate::limits::{LONGEST_CASE_NAME, MOST_CASE_SCANS, MOST_CASES};
use crate::lists::{Cases, Statements};
use crate::rule::{CaseRefusal, CaseRule};
use crate::settling::stand_after;
use crate::stand::{Coming, Stand};
use ps_base::limits::LARGEST_TIME;
use ps_base::{Label, Memory};
use ps_bench_names::{Settings, is_case_name};
use std::alloc::Global;
use std::{mem, str};

// The line by which a case begins, and its name.
#[derive(Drop)]
pub(crate) struct Head {
    pub(crate) line: u32,
    pub(crate) name: Label,
}

// A case file as far as it was read: what stands after the last `case` line, `head`, or before the first, is not yet
// in `file`.
pub(crate) struct Draft {
    pub(crate) file: CaseFile,
    pub(crate) head: Option<Head>,
    pub(crate) statements: Statements,
    // how a case stands after the lines before the first case, and how the one here does
    pub(crate) start: Stand,
    pub(crate) stand: Stand,
}

impl Drop for Draft {
    // One call for whoever owns one, in place of a walk through all that it holds.
    fn drop(self) {
        let Draft {
            file: _,
            head: _,
            statements: _,
            start: _,
            stand: _,
        } = self;
    }
}

const NO_LINES: Stand = Stand {
    base: 0,
    origin: 0,
    time: 0,
    scans: 0,
    made: 0,
    faults: 0,
    struck: None,
    turn: 0,
    waiting: 0,
};

impl Draft {
    // Before the first line. It takes no memory.
    pub(crate) fn new(alloc: Global) -> Draft
        ensures none { result ≡ no_lines }
        ensures small { KeepsLimits result }
    {
        Draft {
            file: CaseFile {
                begin: Statements::new(alloc),
                cases: Cases::new(alloc),
            },
            head: None,
            statements: Statements::new(alloc),
            start: NO_LINES,
            stand: NO_LINES,
        }
    }

    // A line with this number does this.
    pub(crate) fn state(&mut self, number: u32, settings: Settings, act: Act) -> Result<(), Memory>
        requires small { KeepsLimits self.old }
        requires within { is_over self.old.stand act ≡ false }
        ensures after { OnOk result (self.new ≡ stated self.old number settings act) }
        ensures small { OnOk result (KeepsLimits self.new) }
    {
        self.stand = stand_after(number, self.stand, &act);
        self.statements.push(Statement {
            line: number,
            settings,
            act,
        })
    }

    // A case begins by this name. None: it is not refused.
    pub(crate) fn begin_case(
        &mut self,
        alloc: Global,
        number: u32,
        name: &[u8],
    ) -> Result<Option<CaseRefusal>, Memory>
        requires { KeepsLimits self.old }
        ensures after { IfOk result (λ refusal. case_after self.old number name.now ≡ after_by refusal self.new) }
        ensures small { OnOk result (KeepsLimits self.new) }
    {
        if let Some(refusal) = self.fault_left() {
            return Ok(Some(refusal));
        }
        let coming = self.coming();
        if let Some(rule) = judge_case(name, &coming) {
            return Ok(Some(at(rule, number)));
        }
        self.close(alloc)?;
        let name = label(alloc, name)?;
        self.head = Some(Head { line: number, name });
        self.start = coming.start;
        self.stand = opened(number, &coming);
        Ok(None)
    }

    // The refusal of the case that ends here: a fault of it has no scan after it.
    fn fault_left(&self) -> Option<CaseRefusal>
        ensures { result ≡ fault_left self.now.head self.now.stand.waiting }
    {
        if self.head.is_none() || self.stand.waiting == 0 {
            return None;
        }
        Some(at(CaseRule::K6, self.stand.waiting))
    }

    // What the next case begins with.
    fn coming(&self) -> Coming
        requires { KeepsLimits self.now }
        ensures coming { result ≡ coming self.now }
        ensures small { IsWithin result }
    {
        if self.head.is_none() {
            return Coming {
                cases: 0,
                base: 0,
                made: 0,
                start: self.stand,
            };
        }
        let cases = self.file.cases.as_slice();
        Coming {
            cases: cases.len() + 1,
            base: end_of(self.stand),
            made: self.stand.made,
            start: self.start,
        }
    }

    // The case that is read ends here, or the lines before the first do.
    fn close(&mut self, alloc: Global) -> Result<(), Memory>
        ensures file { OnOk result (self.new.file ≡ closed self.old) }
        ensures statements { OnOk result (self.new.statements ≡ []) }
    {
        let statements = mem::replace(&mut self.statements, Statements::new(alloc));
        match mem::replace(&mut self.head, None) {
            None => self.file.begin = statements,
            Some(head) => self.file.cases.push(Case {
                line: head.line,
                name: head.name,
                statements,
            })?,
        }
        Ok(())
    }

    // The file ends, at the line with this number.
    pub(crate) fn end(
        mut self,
        alloc: Global,
        number: u32,
    ) -> Result<Result<CaseFile, CaseRefusal>, Memory>
        ensures { IfOk result (λ file. file ≡ file_ended self number) }
    {
        if self.head.is_none() {
            return Ok(Err(at(CaseRule::K1, number)));
        }
        if let Some(refusal) = self.fault_left() {
            return Ok(Err(refusal));
        }
        self.close(alloc)?;
        Ok(Ok(self.into_file()))
    }

    // The file as far as its cases ended.
    fn into_file(self) -> CaseFile
        ensures { result ≡ self.file }
    {
        let Draft {
            file,
            head: _,
            statements: _,
            start: _,
            stand: _,
        } = self;
        file
    }
}

// A refusal by a rule at a line.
pub(crate) fn at(rule: CaseRule, line: u32) -> CaseRefusal
    ensures { result ≡ at rule line }
{
    CaseRefusal { rule, line }
}

// When a case ends in the expanded trace.
fn end_of(stand: Stand) -> u64
    ensures end { result ≡ stand.base + stand.time }
    ensures few { result < 2 ^ 33 }
{
    u64::from(stand.base) + u64::from(stand.time)
}

// The rule that refuses a case of this name.
fn judge_case(name: &[u8], coming: &Coming) -> Option<CaseRule>
    requires { IsWithin coming.now }
    ensures judged { result ≡ case_judged name.now coming.now }
    ensures name { IfNone result (is_case_name name.now ≡ true) }
    ensures base { IfNone result (coming.now.base + coming.now.start.time ≤ LARGEST_TIME) }
    ensures made { IfNone result (coming.now.made + coming.now.start.scans ≤ MOST_CASE_SCANS) }
{
    if !is_case_name(name) {
        return Some(CaseRule::K1);
    }
    if coming.base + u64::from(coming.start.time) > u64::from(LARGEST_TIME) {
        return Some(CaseRule::K4);
    }
    if name.len() > LONGEST_CASE_NAME as usize
        || coming.cases >= MOST_CASES as usize
        || coming.made + coming.start.scans > MOST_CASE_SCANS
    {
        return Some(CaseRule::K7);
    }
    None
}

// How the next case stands after the lines before the first one.
fn opened(number: u32, coming: &Coming) -> Stand
    requires base { coming.now.base + coming.now.start.time ≤ LARGEST_TIME }
    requires made { coming.now.made + coming.now.start.scans ≤ MOST_CASE_SCANS }
    requires small { IsWithin coming.now }
    ensures opened { result ≡ opened number coming.now }
    ensures small { IsSmall result }
{
    let start = coming.start;
    Stand {
        base: coming.base as u32,
        origin: start.time,
        time: start.time,
        scans: start.scans,
        made: coming.made + start.scans,
        faults: start.faults,
        struck: start.struck,
        turn: start.turn,
        waiting: if start.waiting == 0 { 0 } else { number },
    }
}

// A name of a case.
fn label(alloc: Global, name: &[u8]) -> Result<Label, Memory>
    requires { is_case_name name.now ≡ true }
    ensures { IfOk result (λ label. label ≡ name.now) }
{
    match str::from_utf8(name) {
        Ok(text) => Ok(Label::of(String::from_str(alloc, text)?)),
        Err(_) => Ok(Label::of(String::new(alloc))),
    }
}
