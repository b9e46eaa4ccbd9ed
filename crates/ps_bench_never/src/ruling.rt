// What is asked, as the search takes it.

ghost use Rattle.std.specs.Prelude.{◌≡◌, ◌||◌, IfOk};
ghost use Rattle.ps_model.specs.Network.{input_count as count_of_inputs};
ghost use Rattle.std.specs.List.{All};
ghost use Rattle.ps_bench_rules.specs.Standing.{IsOfApplication, IsOfName, IsOfNames};
ghost use Rattle.ps_bench_names.specs.Names.{IsNameOf};
ghost use Rattle.ps_bench_never.specs.Asked.{AreAlike, IsAskedBy, IsCheckOf, IsMeantBy, IsRuleOf, followed_by, input_rules, said_of, said_rules};
ghost use Rattle.ps_bench_never.specs.Asked.{rule_by, rules_of_two, source_by, subject_of, value_given};

use crate::wanted::wanted_inputs;
use ps_base::Memory;
use ps_bench_names::{Name, Setting};
use ps_bench_rules::{Condition, Follow, Rule, RulesFile};
use ps_model::{App, input_count};
use ps_reach::{Asked, Check, InputRule, Rule as SearchRule, Source, Subject};
use std::alloc::Global;

// The value that an input is given, if it is.
fn value_given(input: u16, settings: &[Setting]) -> Option<bool>
    ensures { result ≡ value_given input settings.now }
{
    for setting in settings {
        if setting.input == input {
            return Some(setting.value);
        }
    }
    None
}

// What an input follows, if it does.
fn followed_by(input: u16, follows: &[Follow]) -> Option<Source>
    ensures { result ≡ followed_by input follows.now }
{
    for follow in follows {
        if follow.input == input {
            return Some(Source::Follows {
                signal: follow.signal,
                negated: follow.denied,
            });
        }
    }
    None
}

// Where an input has its value from.
fn source_by(wanted: bool, fixed: Option<bool>, follow: Option<Source>) -> Source
    ensures { result ≡ source_by wanted fixed follow }
{
    match (fixed, follow) {
        (Some(value), _) => Source::Fixed(value),
        (None, Some(source)) => source,
        (None, None) if wanted => Source::Free,
        (None, None) => Source::Fixed(false),
    }
}

// What is said of an input, by whether something reads it.
fn rule_by(file: &RulesFile, wanted: bool, input: u16) -> InputRule
    ensures { result ≡ rule_by file.now wanted input }
{
    let fixed = value_given(input, file.fixed.as_slice());
    let follow = followed_by(input, file.follows.as_slice());
    InputRule {
        source: source_by(wanted, fixed, follow),
        first: value_given(input, file.first.as_slice()),
    }
}

// What is said of each input.
fn input_rules(alloc: Global, app: &App, file: &RulesFile) -> Result<Vec<InputRule>, Memory>
    ensures { IfOk result (λ rules. rules.items ≡ input_rules app.now file.now) }
{
    let wanted = wanted_inputs(alloc, app, file)?;
    let mut rules = Vec::with_capacity(alloc, wanted.len())?;
    for i in 0..app.input_count() {
        rules.push(rule_by(file, wanted[i as usize], i))?;
    }
    Ok(rules)
}

// Whether one of two tests holds.
fn either(one: bool, other: bool) -> bool
    ensures { result ≡ (one || other) }
{
    one || other
}

/// What a rules file says of the inputs of two applications, of which there are as many: an input that neither reads is
/// FALSE, which changes nothing. It takes time as `asked_of`. `Err` comes only if memory runs out.
pub fn inputs_of_two(
    alloc: Global,
    app: &App,
    other: &App,
    file: &RulesFile,
) -> Result<Vec<InputRule>, Memory>
    requires { count_of_inputs other.now ≡ count_of_inputs app.now }
    ensures { IfOk result (λ rules. rules.items ≡ rules_of_two app.now other.now file.now) }
{
    let wanted = wanted_inputs(alloc, app, file)?;
    let also = wanted_inputs(alloc, other, file)?;
    let mut rules = Vec::with_capacity(alloc, wanted.len())?;
    for i in 0..app.input_count() {
        let is_wanted = either(wanted[i as usize], also[i as usize]);
        rules.push(rule_by(file, is_wanted, i))?;
    }
    Ok(rules)
}

// Whose value a name asks for: what is read at an input pin of an instance, and an output pin is a signal.
fn subject_of(app: &App, name: Name) -> Subject
    requires { IsNameOf app.now name }
    ensures { result ≡ subject_of app.now name }
{
    app.sound();
    match name {
        Name::Signal(signal) => Subject::Signal(signal),
        Name::Code(instance) => Subject::Code(instance),
        Name::Pin { instance, pin } => {
            let inputs = input_count(app.instance_kind(instance));
            if pin < inputs {
                Subject::Pin { instance, pin }
            } else {
                Subject::Signal(app.first_pin(instance) + u16::from(pin - inputs))
            }
        }
    }
}

// A condition, as the search takes it.
fn check_of(alloc: Global, app: &App, condition: &Condition) -> Result<Check, Memory>
    requires { IsOfName app.now condition.now }
    ensures { IfOk result (λ check. IsCheckOf app.now condition.now check) }
{
    let mut values = Vec::new(alloc);
    values.extend_from_slice(condition.values.as_slice())?;
    Ok(Check {
        subject: subject_of(app, condition.name),
        before: condition.before,
        denied: condition.denied,
        values,
    })
}

// A rule, as the search takes it.
fn rule_of(alloc: Global, app: &App, rule: &Rule) -> Result<SearchRule, Memory>
    requires { IsOfNames app.now rule.now }
    ensures { IfOk result (λ asked. IsRuleOf app.now rule.now asked) }
{
    let mut checks = Vec::new(alloc);
    for condition in rule.conditions.as_slice() {
        checks.push(check_of(alloc, app, condition)?)?;
    }
    Ok(SearchRule { checks })
}

// Rules, as the search takes them.
fn rules_of(alloc: Global, app: &App, rules: &[Rule]) -> Result<Vec<SearchRule>, Memory>
    requires { All (IsOfNames app.now) rules.now }
    ensures { IfOk result (λ asked. AreAlike (IsRuleOf app.now) rules.now asked.items) }
{
    let mut asked = Vec::new(alloc);
    for rule in rules {
        asked.push(rule_of(alloc, app, rule)?)?;
    }
    Ok(asked)
}

// What is said of each input, whether something reads it or not.
fn said_rules(alloc: Global, app: &App, file: &RulesFile) -> Result<Vec<InputRule>, Memory>
    ensures { IfOk result (λ rules. rules.items ≡ said_rules app.now file.now) }
{
    let count = app.input_count();
    let mut rules = Vec::with_capacity(alloc, count as usize)?;
    for i in 0..count {
        rules.push(rule_by(file, true, i))?;
    }
    Ok(rules)
}

/// What a rules file means of an application, where scans are so many ms apart: an input of which it says nothing may be
/// TRUE or FALSE in each scan. `Err` comes only if memory runs out.
pub(crate) fn meant_of(
    alloc: Global,
    app: &App,
    file: &RulesFile,
    every: u32,
) -> Result<Asked, Memory>
    requires { IsOfApplication app.now file.now }
    ensures { IfOk result (IsMeantBy app.now file.now every) }
{
    Ok(Asked {
        every,
        inputs: said_rules(alloc, app, file)?,
        rules: rules_of(alloc, app, file.rules.as_slice())?,
    })
}

/// What a rules file asks of an application, where scans are so many ms apart: an input that nothing reads is
/// FALSE, which changes nothing. It takes time linear in the file and the application, but for each input a walk over
/// those that are fixed or follow. `Err` comes only if memory runs out.
pub fn asked_of(alloc: Global, app: &App, file: &RulesFile, every: u32) -> Result<Asked, Memory>
    requires { IsOfApplication app.now file.now }
    ensures { IfOk result (IsAskedBy app.now file.now every) }
{
    Ok(Asked {
        every,
        inputs: input_rules(alloc, app, file)?,
        rules: rules_of(alloc, app, file.rules.as_slice())?,
    })
}
