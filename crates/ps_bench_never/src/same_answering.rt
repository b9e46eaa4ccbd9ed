// The answer to two applications.

ghost use Rattle.std.specs.Prelude.{◌≡◌, ◌<◌, ◌≤◌, ℕ, List, Any, Err, IfOk, IsErrOf, count_by, nat_lt, option_map, true};
ghost use Rattle.std.specs.List.{list_all};
ghost use Rattle.ps_outside.specs.Outside.{Rose};
ghost use Rattle.ps_pairs.specs.Outputs.{AsksOutputs, FollowsShared};
ghost use Rattle.ps_pairs.specs.Promised.{HaveAsMany};
ghost use Rattle.ps_reach.specs.Promised.{SaysOfEach};
ghost use Rattle.ps_reach.specs.Reaching.{is_free};
ghost use Rattle.ps_bench_rules.specs.File.{pace_of};
ghost use Rattle.ps_bench_rules.specs.declared.flaw.RulesRefusal.{RulesRefusal as RulesRefusalOf};
ghost use Rattle.ps_bench_rules.specs.declared.rules.Pace.TheVariants.{Any as AtAnyTimes};
ghost use Rattle.ps_bench_rules.specs.declared.rules.Follow.{Follow as FollowOf};
ghost use Rattle.ps_bench_never.specs.SameAnswering.{AreAskedBy, HasManyFree, IsFound, IsFoundBy, IsFoundOf, IsFoundPlain, IsToldBy, IsToldFor};
ghost use Rattle.ps_bench_never.specs.SameAnswering.{are_shared, names_of, no_settings, refused_by};
ghost use Rattle.ps_reach.specs.Comparing.{two_of};

use crate::inputs_of_two;
use crate::same_telling::told;
use ps_base::{Bytes, Memory};
use ps_bench_names::Settings;
use ps_bench_rules::{
    Flaw, Follow, Follows, Pace, Purpose, Rules, RulesFail, RulesFile, RulesRefusal, read_rules,
};
use ps_model::App;
use ps_outside::Files;
use ps_pairs::{asked_of_outputs, compare};
use ps_reach::{Asked, Compared, MOST_FREE, do_all_hold, free_inputs};
use ps_search::Observer;
use std::alloc::Global;

/// What is told of two applications.
#[derive(Drop)]
pub struct Told {
    /// What is written of them.
    pub text: Bytes,
    /// Whether no output differs.
    pub are_same: bool,
}

/// Why two applications have no answer.
#[derive(Clone, Copy)]
pub enum SameFail {
    /// The rules file is refused.
    Refused(RulesRefusal),
    /// The rules file cannot be read.
    Fault,
    /// Scans are to come at any times, which are not compared.
    AnyTimes,
    /// Over 20 inputs are free, and no rules file is named.
    ManyFree,
    /// Out of memory.
    Memory,
}

impl From<Memory> for SameFail {
    ghost use Rattle.std.specs.Prelude.{◌≡◌};
    ghost use Rattle.ps_bench_never.specs.declared.same_answering.SameFail.TheVariants.{Memory as NoMemory};

    ghost from_gives = { λ _ fail. fail ≡ NoMemory };

    fn from(_memory: Memory) -> SameFail {
        SameFail::Memory
    }
}

// A rules file of nothing.
fn no_settings(alloc: Global) -> RulesFile
    ensures { result ≡ no_settings }
{
    RulesFile {
        pace: None,
        fixed: Settings::new(alloc),
        follows: Follows::new(alloc),
        first: Settings::new(alloc),
        rules: Rules::new(alloc),
        end: 0,
    }
}

// Whether all that is followed is an input or an output, of so many.
fn are_below(follows: &[Follow], many: u16) -> bool
    ensures { result ≡ list_all (λ (f : FollowOf). nat_lt f.signal many) follows.now }
{
    follows.iter().all(|follow| follow.signal < many)
}

// Whether what inputs follow by a rules file are inputs and outputs.
fn are_shared(app: &App, file: &RulesFile) -> bool
    ensures { result ≡ are_shared app.now file.now }
{
    app.sound();
    are_below(
        file.follows.as_slice(),
        app.input_count() + app.output_count(),
    )
}

// What is asked of both by the settings of a rules file, with so many ms from scan to scan.
fn asked_by(
    alloc: Global,
    compared: &Compared<'_>,
    file: &RulesFile,
    every: u32,
) -> Result<Asked, Memory>
    requires { HaveAsMany compared.now.app.now compared.now.other.now }
    ensures { IfOk result (AreAskedBy compared.now.app.now compared.now.other.now file.now every) }
{
    let inputs = inputs_of_two(alloc, compared.app, compared.other, file)?;
    let asked = asked_of_outputs(alloc, compared.app, every, inputs)?;
    Ok(asked)
}

// The answer to what is asked of both.
fn answer_asked<W: Observer>(
    alloc: Global,
    compared: &Compared<'_>,
    asked: &Asked,
    observer: &mut W,
) -> Result<Told, Memory>
    requires some { 0 < compared.now.most }
    requires many { HaveAsMany compared.now.app.now compared.now.other.now }
    requires says { SaysOfEach compared.now.app.now asked.now }
    requires few { count_by is_free asked.now.inputs.items ≤ 20 }
    requires outputs { AsksOutputs compared.now.app.now asked.now }
    requires shared { FollowsShared compared.now.app.now asked.now }
    ensures { IfOk result (IsToldFor (two_of compared.now) asked.now) }
{
    let found = compare(
        alloc,
        compared.app,
        compared.other,
        asked,
        compared.most,
        observer,
    )?;
    let text = told(alloc, compared, asked, &found)?;
    Ok(Told {
        text,
        are_same: do_all_hold(&found),
    })
}

// The answer by the settings of a rules file.
fn answer_by<W: Observer>(
    alloc: Global,
    compared: &Compared<'_>,
    file: &RulesFile,
    observer: &mut W,
) -> Result<Told, SameFail>
    requires some { 0 < compared.now.most }
    requires many { HaveAsMany compared.now.app.now compared.now.other.now }
    requires shared { are_shared compared.now.app.now file.now ≡ true }
    ensures tells { IfOk result (IsToldBy (two_of compared.now) file.now) }
    ensures many { IsErrOf result SameFail.ManyFree → HasManyFree compared.now.app.now compared.now.other.now file.now }
    ensures any { IsErrOf result SameFail.AnyTimes → pace_of file.now ≡ AtAnyTimes }
    ensures read { ¬ IsErrOf result SameFail.Fault }
    ensures taken { (refusal : RulesRefusalOf) → ¬ (result ≡ Err (SameFail.Refused refusal)) }
{
    compared.app.sound();
    compared.other.sound();
    let every = match file.pace() {
        Pace::Every(every) => every,
        Pace::Any => return Err(SameFail::AnyTimes),
    };
    let asked = asked_by(alloc, compared, file, every)?;
    if free_inputs(asked.inputs.as_slice()) > MOST_FREE as usize {
        return Err(SameFail::ManyFree);
    }
    let told = answer_asked(alloc, compared, &asked, observer)?;
    Ok(told)
}

// The answer where no rules file is named: scans come 10 ms apart, and nothing is said of any input.
fn answer_plain<W: Observer>(
    alloc: Global,
    compared: &Compared<'_>,
    observer: &mut W,
) -> Result<Told, SameFail>
    requires some { 0 < compared.now.most }
    requires many { HaveAsMany compared.now.app.now compared.now.other.now }
    ensures found { IsFoundPlain (two_of compared.now) result }
    ensures read { ¬ IsErrOf result SameFail.Fault }
{
    answer_by(alloc, compared, &no_settings(alloc), observer)
}

// Why a file has no answer whose settings were read: too many free inputs are refused.
fn refused_by(fail: SameFail, file: &RulesFile) -> SameFail
    ensures { result ≡ refused_by fail file.now }
{
    match fail {
        SameFail::ManyFree => SameFail::Refused(RulesRefusal {
            flaw: Flaw::R5,
            line: file.end,
        }),
        SameFail::Refused(refusal) => SameFail::Refused(refusal),
        SameFail::Fault => SameFail::Fault,
        SameFail::AnyTimes => SameFail::AnyTimes,
        SameFail::Memory => SameFail::Memory,
    }
}

// The answer by the settings that were read of a rules file.
fn answer_read<W: Observer>(
    alloc: Global,
    compared: &Compared<'_>,
    file: &RulesFile,
    observer: &mut W,
) -> Result<Told, SameFail>
    requires some { 0 < compared.now.most }
    requires many { HaveAsMany compared.now.app.now compared.now.other.now }
    ensures { IsFoundOf (two_of compared.now) file.now result }
{
    if !are_shared(compared.app, file) {
        return Err(SameFail::Refused(RulesRefusal {
            flaw: Flaw::R2,
            line: file.end,
        }));
    }
    match answer_by(alloc, compared, file, observer) {
        Ok(told) => Ok(told),
        Err(fail) => Err(refused_by(fail, file)),
    }
}

// The answer by the rules file of this name.
fn answer_file<F: Files, W: Observer>(
    alloc: Global,
    files: &mut F,
    compared: &Compared<'_>,
    name: &str,
    observer: &mut W,
) -> Result<Told, SameFail>
    requires some { 0 < compared.now.most }
    requires many { HaveAsMany compared.now.app.now compared.now.other.now }
    ensures found { IsFoundBy (two_of compared.now) (F.tells files.old) (F.held files.old name.now) result }
    ensures fault { IsErrOf result SameFail.Fault → Rose (F.faults files.old name.now) (F.faults files.new name.now) }
    ensures counts { (other : List ℕ) → F.faults files.old other ≤ F.faults files.new other }
    ensures kept { F.held files.new ≡ F.held files.old }
    ensures telling { F.tells files.new ≡ F.tells files.old }
{
    match read_rules(alloc, files, name, compared.app, Purpose::Same) {
        Ok(file) => answer_read(alloc, compared, &file, observer),
        Err(RulesFail::Refused(refusal)) => Err(SameFail::Refused(refusal)),
        Err(RulesFail::Fault) => Err(SameFail::Fault),
        Err(RulesFail::Memory) => Err(SameFail::Memory),
    }
}

/// What is told of two applications with as many inputs and outputs, by the settings of the rules file of this name, if
/// one is named. Without one scans come 10 ms apart, and nothing is said of any input.
///
/// `Refused` comes by the rules of the file; at the line after the last one also where over 20 inputs are free (R5), and
/// were an input to follow what is no input or output (R2). `ManyFree` comes of free inputs where no file is named.
/// `AnyTimes` comes only where the file asks for scans at any times, `Fault` only where the files' count of the name rose
/// in this call.
pub fn answer<F: Files, W: Observer>(
    alloc: Global,
    files: &mut F,
    compared: &Compared<'_>,
    rules: Option<&str>,
    observer: &mut W,
) -> Result<Told, SameFail>
    requires some { 0 < compared.now.most }
    requires many { HaveAsMany compared.now.app.now compared.now.other.now }
    // What is told is so of all runs of both applications.
    ensures found { IsFound (two_of compared.now) (F.tells files.old) (F.held files.old) (option_map (λ n. n.now) rules.entry) result }
    ensures fault { IsErrOf result SameFail.Fault →
        Any (λ (name : List ℕ). Rose (F.faults files.old name) (F.faults files.new name))
        (names_of (option_map (λ n. n.now) rules.entry)) }
    ensures counts { (other : List ℕ) → F.faults files.old other ≤ F.faults files.new other }
    ensures kept { F.held files.new ≡ F.held files.old }
    ensures telling { F.tells files.new ≡ F.tells files.old }
{
    match rules {
        Some(name) => answer_file(alloc, files, compared, name, observer),
        None => answer_plain(alloc, compared, observer),
    }
}
