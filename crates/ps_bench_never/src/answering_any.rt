// The answer to a rules file.

ghost use Rattle.std.specs.Prelude.{◌≡◌, ◌⊎◌, ◌<◌, ◌≤◌, ◌++◌, ◌∷◌, [], ℕ, List, IsTrue, Some, Err, IfOk, OnOk, IsErrOf, IsSome, count_by};
ghost use Rattle.ps_outside.specs.Outside.{Rose};
ghost use Rattle.ps_reach.specs.Reaching.{is_free};
ghost use Rattle.ps_bench_rules.specs.File.{pace_of};
ghost use Rattle.ps_bench_rules.specs.Standing.{IsOfApplication, IsOfNames};
ghost use Rattle.ps_bench_rules.specs.declared.flaw.RulesRefusal.{RulesRefusal as RulesRefusalOf};
ghost use Rattle.ps_bench_rules.specs.declared.rules.Pace.TheVariants.{Any as AtAnyTimes};
ghost use Rattle.ps_bench_never.specs.Answering.{HasManyFree};
ghost use Rattle.ps_bench_never.specs.Asked.{AreAlike, IsAskedBy, input_rules};
ghost use Rattle.ps_bench_never.specs.Answering.{IsToldBy};
ghost use Rattle.ps_bench_never.specs.AnsweringAny.{HasRuleWithManyFree, IsJoined, IsRefusedFor, IsTold, IsToldAlone, IsToldBehind, IsToldOf, IsToldOfAny};
ghost use Rattle.ps_bench_never.specs.Single.{with_rule};

use crate::answering::{NeverFail, Told, answer_every, asked_if_few};
use crate::by_part::answer_by_part;
use crate::searching::attempts_of;
use crate::single::with_rule;
use crate::telling_any::{Searched, told};
use ps_base::{Bytes, Memory};
use ps_bench_rules::{Pace, Purpose, Rule, RulesFail, RulesFile, read_rules};
use ps_model::App;
use ps_outside::Files;
use ps_reach::{Asked, holds_whole, never_at_any_times, paces_of};
use ps_search::{Found, Observer};
use std::alloc::Global;

// What is told after a search at any times.
fn told_behind<W: Observer>(
    alloc: Global,
    app: &App,
    name: &str,
    file: &RulesFile,
    whole: &Option<Found>,
    most: u32,
    observer: &mut W,
) -> Result<Told, Memory>
    requires some { 0 < most }
    requires stands { IsOfApplication app.now file.now }
    requires few { count_by is_free (input_rules app.now file.now) ≤ 20 }
    ensures { IfOk result (IsToldBehind app.now name.now most file.now whole.now) }
{
    let attempts = attempts_of(alloc, app, file, paces_of(whole), most, observer)?;
    let searched = Searched {
        app,
        file: name,
        rules: file.rules.as_slice(),
        most,
        whole,
        attempts: attempts.as_slice(),
    };
    let text = told(alloc, &searched)?;
    Ok(Told {
        text,
        do_all_hold: holds_whole(whole),
    })
}

// The answer to what a rules file asks whose scans come at any times.
fn answer_asked<W: Observer>(
    alloc: Global,
    app: &App,
    name: &str,
    file: &RulesFile,
    asked: &Asked,
    most: u32,
    observer: &mut W,
) -> Result<Told, Memory>
    requires some { 0 < most }
    requires stands { IsOfApplication app.now file.now }
    requires pace { pace_of file.now ≡ AtAnyTimes }
    requires asks { IsAskedBy app.now file.now 0 asked.now }
    requires few { count_by is_free asked.now.inputs.items ≤ 20 }
    ensures { IfOk result (IsToldOfAny app.now name.now most file.now) }
{
    app.sound();
    let whole = never_at_any_times(alloc, app, asked, most, observer)?;
    told_behind(alloc, app, name, file, &whole, most, observer)
}

// The answer to a rules file that is read, whose scans come at any times.
fn answer_any<W: Observer>(
    alloc: Global,
    app: &App,
    name: &str,
    file: &RulesFile,
    most: u32,
    observer: &mut W,
) -> Result<Told, NeverFail>
    requires some { 0 < most }
    requires stands { IsOfApplication app.now file.now }
    requires pace { pace_of file.now ≡ AtAnyTimes }
    ensures tells { IfOk result (IsToldOfAny app.now name.now most file.now) }
    ensures many { (refusal : RulesRefusalOf) → result ≡ Err (NeverFail.Refused refusal) → HasManyFree app.now file.now refusal }
    ensures read { ¬ IsErrOf result NeverFail.Fault }
{
    let asked = asked_if_few(alloc, app, file, 0)?;
    let told = answer_asked(alloc, app, name, file, &asked, most, observer)?;
    Ok(told)
}

// The answer to a rules file that is read, by searches of the whole application.
fn answer_whole<W: Observer>(
    alloc: Global,
    app: &App,
    name: &str,
    file: &RulesFile,
    most: u32,
    observer: &mut W,
) -> Result<Told, NeverFail>
    requires some { 0 < most }
    requires stands { IsOfApplication app.now file.now }
    ensures tells { IfOk result (λ told. IsToldBy app.now name.now most file.now told ⊎ IsToldOfAny app.now name.now most file.now told) }
    ensures many { (refusal : RulesRefusalOf) → result ≡ Err (NeverFail.Refused refusal) → HasManyFree app.now file.now refusal }
    ensures read { ¬ IsErrOf result NeverFail.Fault }
{
    match file.pace() {
        Pace::Every(every) => answer_every(alloc, app, name, file, every, most, observer),
        Pace::Any => answer_any(alloc, app, name, file, most, observer),
    }
}

// The answer to a rule of a rules file by itself: by a part of the application, if that decides it, and else by searches
// of the whole.
fn answer_rule<W: Observer>(
    alloc: Global,
    app: &App,
    name: &str,
    file: &RulesFile,
    rule: &Rule,
    most: u32,
    observer: &mut W,
) -> Result<Told, NeverFail>
    requires some { 0 < most }
    requires stands { IsOfApplication app.now file.now }
    requires names { IsOfNames app.now rule.now }
    ensures tells { IfOk result (IsToldAlone app.now name.now most file.now rule.now) }
    ensures many { (refusal : RulesRefusalOf) → result ≡ Err (NeverFail.Refused refusal) → HasManyFree app.now (with_rule file.now rule.now) refusal }
    ensures read { ¬ IsErrOf result NeverFail.Fault }
{
    let one = with_rule(alloc, file, rule)?;
    match answer_by_part(alloc, app, name, &one, rule, most, observer)? {
        Some(told) => Ok(told),
        None => answer_whole(alloc, app, name, &one, most, observer),
    }
}

// Adds what is told of a rule.
fn add_told(tolds: &mut Vec<Told>, told: Told) -> Result<(), Memory>
    ensures { OnOk result (tolds.new.items ≡ tolds.old.items ++ told ∷ []) }
{
    tolds.push(told)?;
    Ok(())
}

// The answers to the rules of a rules file, each by itself.
fn answer_rules<W: Observer>(
    alloc: Global,
    app: &App,
    name: &str,
    file: &RulesFile,
    most: u32,
    observer: &mut W,
) -> Result<Vec<Told>, NeverFail>
    requires some { 0 < most }
    requires stands { IsOfApplication app.now file.now }
    ensures tells { IfOk result (λ tolds. AreAlike (IsToldAlone app.now name.now most file.now) file.now.rules tolds.items) }
    ensures many { (refusal : RulesRefusalOf) → result ≡ Err (NeverFail.Refused refusal) → HasRuleWithManyFree app.now file.now refusal }
    ensures read { ¬ IsErrOf result NeverFail.Fault }
{
    let rules = file.rules.as_slice();
    let mut tolds = Vec::new(alloc);
    for rule in rules {
        let told = answer_rule(alloc, app, name, file, rule, most, observer)?;
        add_told(&mut tolds, told)?;
    }
    Ok(tolds)
}

// All that is told of rules, in order, and whether all of them hold.
fn joined(alloc: Global, tolds: &[Told]) -> Result<Told, Memory>
    ensures { IfOk result (IsJoined tolds.now) }
{
    let mut text = Bytes::new(alloc);
    let mut do_all_hold = true;
    for told in tolds {
        text.extend_from_slice(told.text.as_slice())?;
        do_all_hold = do_all_hold && told.do_all_hold;
    }
    Ok(Told { text, do_all_hold })
}

// The answer to a rules file that is read: to each rule by itself.
fn answer_file<W: Observer>(
    alloc: Global,
    app: &App,
    name: &str,
    file: &RulesFile,
    most: u32,
    observer: &mut W,
) -> Result<Told, NeverFail>
    requires some { 0 < most }
    requires stands { IsOfApplication app.now file.now }
    ensures tells { IfOk result (IsTold app.now name.now most file.now) }
    ensures many { (refusal : RulesRefusalOf) → result ≡ Err (NeverFail.Refused refusal) → HasRuleWithManyFree app.now file.now refusal }
    ensures read { ¬ IsErrOf result NeverFail.Fault }
{
    let tolds = answer_rules(alloc, app, name, file, most, observer)?;
    let told = joined(alloc, tolds.as_slice())?;
    Ok(told)
}

/// The answer to the rules file of this name, of which so many states may be held: what is told of its rules, and whether
/// all hold. Where its scans come at any times, up to four searches are made.
///
/// `Refused` comes by the rules of the file, and where over 20 inputs are free (R5, at the line after the last one).
/// `Fault` comes only where the files' count of the name rose in this call.
pub fn answer<F: Files, W: Observer>(
    alloc: Global,
    files: &mut F,
    app: &App,
    name: &str,
    most: u32,
    observer: &mut W,
) -> Result<Told, NeverFail>
    requires { 0 < most }
    // What is told of a rule is so of all runs of the application.
    ensures gives { IsTrue (F.tells files.old) → (text : List ℕ) → F.held files.old name.now ≡ Some text →
        IfOk result (IsToldOf app.now name.now most text) }
    ensures refuses { IsTrue (F.tells files.old) → (text : List ℕ) → F.held files.old name.now ≡ Some text →
        (refusal : RulesRefusalOf) → result ≡ Err (NeverFail.Refused refusal) → IsRefusedFor app.now text refusal }
    ensures found { IsTrue (F.tells files.old) → ¬ IsErrOf result NeverFail.Fault → ¬ IsErrOf result NeverFail.Memory →
        IsSome (F.held files.old name.now) }
    ensures fault { IsErrOf result NeverFail.Fault → Rose (F.faults files.old name.now) (F.faults files.new name.now) }
    ensures counts { (other : List ℕ) → F.faults files.old other ≤ F.faults files.new other }
    ensures kept { F.held files.new ≡ F.held files.old }
    ensures telling { F.tells files.new ≡ F.tells files.old }
{
    match read_rules(alloc, files, name, app, Purpose::Never) {
        Ok(file) => answer_file(alloc, app, name, &file, most, observer),
        Err(RulesFail::Refused(refusal)) => Err(NeverFail::Refused(refusal)),
        Err(RulesFail::Fault) => Err(NeverFail::Fault),
        Err(RulesFail::Memory) => Err(NeverFail::Memory),
    }
}
