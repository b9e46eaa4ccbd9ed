// A rules file as far as it was read.

ghost use Rattle.std.specs.Prelude.{◌≡◌, [], true, IfOk, IfNone, OnOk};
ghost use Rattle.ps_bench_names.specs.Titles.{is_case_name};
ghost use Rattle.ps_bench_rules.specs.File.{at, bare_rule, closed, file_ended, has_begun, no_lines, rule_after, rule_judged};
ghost use Rattle.ps_bench_rules.specs.Saying.{after_by, file_by};

use crate::flaw::{Flaw, RulesRefusal};
use crate::limits::{LONGEST_RULE_NAME, MOST_RULES};
use crate::lists::{Conditions, Follows, Rules};
use crate::rules::{Purpose, Rule, RulesFile};
use ps_base::{Label, Memory};
use ps_bench_names::{Settings, is_case_name};
use std::alloc::Global;
use std::{mem, str};

// A `never` line: its number and its name.
#[derive(Drop)]
pub(crate) struct Head {
    pub(crate) line: u32,
    pub(crate) name: Label,
}

// A rules file as far as it was read: the rule of the last `never` line, `head`, and its conditions are not yet in
// `file`.
pub(crate) struct Draft {
    pub(crate) file: RulesFile,
    pub(crate) head: Option<Head>,
    pub(crate) conditions: Conditions,
}

impl Drop for Draft {
    // One call for whoever owns one, in place of a walk through all that it holds.
    fn drop(self) {
        let Draft {
            file: _,
            head: _,
            conditions: _,
        } = self;
    }
}

impl Draft {
    // Before the first line. It takes no memory.
    pub(crate) fn new(alloc: Global) -> Draft
        ensures { result ≡ no_lines }
    {
        Draft {
            file: RulesFile {
                pace: None,
                fixed: Settings::new(alloc),
                follows: Follows::new(alloc),
                first: Settings::new(alloc),
                rules: Rules::new(alloc),
                end: 0,
            },
            head: None,
            conditions: Conditions::new(alloc),
        }
    }

    // Whether a rule has begun.
    pub(crate) fn has_begun(&self) -> bool
        ensures { result ≡ has_begun self.now }
    {
        self.head.is_some()
    }

    // The rule that ends here has no conditions.
    fn bare_rule(&self) -> Option<RulesRefusal>
        ensures { result ≡ bare_rule self.now.head self.now.conditions }
    {
        match &self.head {
            Some(head) if self.conditions.as_slice().is_empty() => Some(at(Flaw::R1, head.line)),
            _ => None,
        }
    }

    // A rule begins by this name.
    pub(crate) fn begin_rule(
        &mut self,
        alloc: Global,
        number: u32,
        name: &[u8],
    ) -> Result<Option<RulesRefusal>, Memory>
        ensures { IfOk result (λ refusal. rule_after self.old number name.now ≡ after_by refusal self.new) }
    {
        if let Some(refusal) = self.bare_rule() {
            return Ok(Some(refusal));
        }
        self.close(alloc)?;
        if let Some(flaw) = judge_rule(name, self.file.rules.as_slice().len()) {
            return Ok(Some(at(flaw, number)));
        }
        let name = label(alloc, name)?;
        self.head = Some(Head { line: number, name });
        Ok(None)
    }

    // The rule that has begun ends here, if there is one.
    fn close(&mut self, alloc: Global) -> Result<(), Memory>
        ensures file { OnOk result (self.new.file ≡ closed self.old) }
        ensures conditions { OnOk result (self.new.conditions ≡ []) }
    {
        let conditions = mem::replace(&mut self.conditions, Conditions::new(alloc));
        if let Some(head) = mem::replace(&mut self.head, None) {
            self.file.rules.push(Rule {
                line: head.line,
                name: head.name,
                conditions,
            })?;
        }
        Ok(())
    }

    // The file ends, at the line with this number. None: it is not refused.
    fn finish(
        &mut self,
        alloc: Global,
        purpose: Purpose,
        number: u32,
    ) -> Result<Option<RulesRefusal>, Memory>
        ensures { IfOk result (λ refusal. file_ended purpose self.old number ≡ file_by refusal self.new.file) }
    {
        if let Some(refusal) = self.bare_rule() {
            return Ok(Some(refusal));
        }
        if matches!(purpose, Purpose::Never) && self.head.is_none() {
            return Ok(Some(at(Flaw::R1, number)));
        }
        self.close(alloc)?;
        self.file.end = number;
        Ok(None)
    }

    // The file that ends at the line with this number.
    pub(crate) fn end(
        mut self,
        alloc: Global,
        purpose: Purpose,
        number: u32,
    ) -> Result<Result<RulesFile, RulesRefusal>, Memory>
        ensures { IfOk result (λ file. file ≡ file_ended purpose self number) }
    {
        match self.finish(alloc, purpose, number)? {
            None => Ok(Ok(self.into_file())),
            Some(refusal) => Ok(Err(refusal)),
        }
    }

    // The file as far as its rules ended.
    fn into_file(self) -> RulesFile
        ensures { result ≡ self.file }
    {
        let Draft {
            file,
            head: _,
            conditions: _,
        } = self;
        file
    }
}

// A refusal at a line.
pub(crate) fn at(flaw: Flaw, line: u32) -> RulesRefusal
    ensures { result ≡ at flaw line }
{
    RulesRefusal { flaw, line }
}

// The flaw of a rule of this name after so many others.
fn judge_rule(name: &[u8], rules: usize) -> Option<Flaw>
    ensures judged { result ≡ rule_judged name.now rules }
    ensures name { IfNone result (is_case_name name.now ≡ true) }
{
    if !is_case_name(name) {
        return Some(Flaw::R1);
    }
    if name.len() > LONGEST_RULE_NAME as usize || rules >= MOST_RULES as usize {
        return Some(Flaw::R5);
    }
    None
}

// A name of a rule.
fn label(alloc: Global, name: &[u8]) -> Result<Label, Memory>
    requires { is_case_name name.now ≡ true }
    ensures { IfOk result (λ label. label ≡ name.now) }
{
    match str::from_utf8(name) {
        Ok(text) => Ok(Label::of(String::from_str(alloc, text)?)),
        Err(_) => Ok(Label::of(String::new(alloc))),
    }
}
