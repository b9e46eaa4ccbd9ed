// What a line does to a rules file that is read.

ghost use Rattle.std.specs.Prelude.{◌≡◌, ◌≤◌, ◌==◌, length, drop, IfOk, OnOk};
ghost use Rattle.std.specs.List.{list_any};
ghost use Rattle.ps_trace.specs.Words.{words};
ghost use Rattle.ps_bench_names.specs.Words.{counted, words_in};
ghost use Rattle.ps_bench_names.specs.declared.name.Setting.{Setting};
ghost use Rattle.ps_bench_rules.specs.File.{has_begun, said_after, settings_after, stands, with_file, with_setting};
ghost use Rattle.ps_bench_rules.specs.Line.{line_said, rule_begins, said_or};
ghost use Rattle.ps_bench_rules.specs.Line.Said.{paces, fixes, ties, starts, asks};
ghost use Rattle.ps_bench_rules.specs.Saying.{after_by, led_by, setting_by};
ghost use Rattle.ps_bench_rules.specs.declared.rules.Follow.{Follow};

use crate::draft::{Draft, at};
use crate::flaw::{Flaw, RulesRefusal};
use crate::line::{Leader, follow_said, leader_of, pace_said, rule_name, some_settings};
use crate::lists::Conditions;
use crate::rules::{Follow, Pace, Purpose, RulesFile};
use crate::words::conditions_said;
use ps_base::Memory;
use ps_bench_names::{Setting, Settings, next_counted};
use ps_model::App;
use std::alloc::Global;

impl Draft {
    // A line with this number. None: it is not refused.
    pub(crate) fn take(
        &mut self,
        alloc: Global,
        app: &App,
        purpose: Purpose,
        number: u32,
        line: &[u8],
    ) -> Result<Option<RulesRefusal>, Memory>
        ensures { IfOk result (λ refusal.
            said_after self.old number (line_said app.now purpose (has_begun self.old) line.now) ≡ after_by refusal self.new) }
    {
        let Some((from, upto)) = next_counted(line, 0) else {
            return Ok(None);
        };
        let word = &line[from..upto];
        if word == b"never".as_slice() {
            return self.begin(alloc, purpose, number, line);
        }
        self.take_led(alloc, app, purpose, number, leader_of(word), line, upto)
    }

    // A line that begins no rule: the setting that its first word begins, if it begins one, and else conditions. Settings
    // are after `next`.
    fn take_led(
        &mut self,
        alloc: Global,
        app: &App,
        purpose: Purpose,
        number: u32,
        leader: Option<Leader>,
        line: &[u8],
        next: usize,
    ) -> Result<Option<RulesRefusal>, Memory>
        requires { next ≤ length line.now }
        ensures { IfOk result (λ refusal.
            said_after self.old number (led_by app.now purpose (has_begun self.old) leader (words_in line.now)
            (counted (words (drop next line.now)))) ≡ after_by refusal self.new) }
    {
        match leader {
            Some(leader) => {
                if self.has_begun() {
                    return Ok(Some(at(Flaw::R1, number)));
                }
                self.set(alloc, app, purpose, number, leader, line, next)
            }
            None => {
                if !self.has_begun() {
                    return Ok(Some(at(Flaw::R1, number)));
                }
                self.ask(number, conditions_said(alloc, app, line, 0)?)
            }
        }
    }

    // A rule begins, by the name of its line; a comparison has none.
    fn begin(
        &mut self,
        alloc: Global,
        purpose: Purpose,
        number: u32,
        line: &[u8],
    ) -> Result<Option<RulesRefusal>, Memory>
        ensures { IfOk result (λ refusal.
            said_after self.old number (rule_begins purpose line.now) ≡ after_by refusal self.new) }
    {
        match purpose {
            Purpose::Never => self.begin_rule(alloc, number, rule_name(line)),
            Purpose::Same => Ok(Some(at(Flaw::R1, number))),
        }
    }

    // A setting: its first word, and those of its line from `next` on.
    fn set(
        &mut self,
        alloc: Global,
        app: &App,
        purpose: Purpose,
        number: u32,
        leader: Leader,
        line: &[u8],
        next: usize,
    ) -> Result<Option<RulesRefusal>, Memory>
        requires { next ≤ length line.now }
        ensures { IfOk result (λ refusal.
            said_after self.old number (setting_by app.now purpose leader (counted (words (drop next line.now))))
            ≡ after_by refusal self.new) }
    {
        match leader {
            Leader::Every => Ok(self.pace(number, pace_said(line, next))),
            Leader::Fixed => self.fix(number, some_settings(alloc, app, line, next)?),
            Leader::Follows => self.tie(number, follow_said(app, purpose, line, next)),
            Leader::First => self.start(number, some_settings(alloc, app, line, next)?),
        }
    }

    // How scans come is said, once.
    fn pace(&mut self, number: u32, said: Result<Pace, Flaw>) -> Option<RulesRefusal>
        ensures { said_after self.old number (said_or paces said) ≡ after_by result self.new }
    {
        match said {
            Ok(_) if self.file.pace.is_some() => Some(at(Flaw::R1, number)),
            Ok(pace) => {
                self.file.pace = Some(pace);
                None
            }
            Err(flaw) => Some(at(flaw, number)),
        }
    }

    // Inputs never change.
    fn fix(
        &mut self,
        number: u32,
        said: Result<Settings, Flaw>,
    ) -> Result<Option<RulesRefusal>, Memory>
        ensures { IfOk result (λ refusal. said_after self.old number (said_or fixes said) ≡ after_by refusal self.new) }
    {
        match said {
            Ok(settings) => self.put_all(number, false, settings.as_slice()),
            Err(flaw) => Ok(Some(at(flaw, number))),
        }
    }

    // Inputs have values in a first scan.
    fn start(
        &mut self,
        number: u32,
        said: Result<Settings, Flaw>,
    ) -> Result<Option<RulesRefusal>, Memory>
        ensures { IfOk result (λ refusal. said_after self.old number (said_or starts said) ≡ after_by refusal self.new) }
    {
        match said {
            Ok(settings) => self.put_all(number, true, settings.as_slice()),
            Err(flaw) => Ok(Some(at(flaw, number))),
        }
    }

    // Settings come to the file one by one: values in a first scan, or values that never change.
    fn put_all(
        &mut self,
        number: u32,
        is_first: bool,
        settings: &[Setting],
    ) -> Result<Option<RulesRefusal>, Memory>
        ensures { IfOk result (λ refusal.
            settings_after (with_setting is_first) self.old number settings.now ≡ after_by refusal self.new) }
    {
        for setting in settings {
            if stands(&self.file, setting.input) {
                return Ok(Some(at(Flaw::R4, number)));
            }
            self.put(is_first, *setting)?;
        }
        Ok(None)
    }

    // A setting comes to the file.
    fn put(&mut self, is_first: bool, setting: Setting) -> Result<(), Memory>
        ensures { OnOk result (self.new ≡ with_file self.old (with_setting is_first self.old.file setting)) }
    {
        if is_first {
            self.file.first.push(setting)
        } else {
            self.file.fixed.push(setting)
        }
    }

    // An input follows a signal.
    fn tie(
        &mut self,
        number: u32,
        said: Result<Follow, Flaw>,
    ) -> Result<Option<RulesRefusal>, Memory>
        ensures { IfOk result (λ refusal. said_after self.old number (said_or ties said) ≡ after_by refusal self.new) }
    {
        match said {
            Ok(follow) if stands(&self.file, follow.input) => Ok(Some(at(Flaw::R4, number))),
            Ok(follow) => {
                self.file.follows.push(follow)?;
                Ok(None)
            }
            Err(flaw) => Ok(Some(at(flaw, number))),
        }
    }

    // Conditions of the rule that has begun.
    fn ask(
        &mut self,
        number: u32,
        said: Result<Conditions, Flaw>,
    ) -> Result<Option<RulesRefusal>, Memory>
        ensures { IfOk result (λ refusal. said_after self.old number (said_or asks said) ≡ after_by refusal self.new) }
    {
        match said {
            Ok(conditions) => {
                self.conditions.append(conditions)?;
                Ok(None)
            }
            Err(flaw) => Ok(Some(at(flaw, number))),
        }
    }
}

// Whether an input stands after `fixed`, `follows` or `first`.
fn stands(file: &RulesFile, input: u16) -> bool
    ensures { result ≡ stands file.now input }
{
    has_setting(file.fixed.as_slice(), input)
        || has_follow(file.follows.as_slice(), input)
        || has_setting(file.first.as_slice(), input)
}

// Whether one of these is of the input.
fn has_setting(settings: &[Setting], input: u16) -> bool
    ensures { result ≡ list_any (λ (s : Setting). s.input == input) settings.now }
{
    settings.iter().any(|setting| setting.input == input)
}

// Whether one of these inputs that follow is this one.
fn has_follow(follows: &[Follow], input: u16) -> bool
    ensures { result ≡ list_any (λ (f : Follow). f.input == input) follows.now }
{
    follows.iter().any(|follow| follow.input == input)
}
