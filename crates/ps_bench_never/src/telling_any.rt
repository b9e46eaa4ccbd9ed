// What is told of rules whose scans come at any times.

ghost use Rattle.std.specs.Prelude.{◌≡◌, ◌++◌, IfOk, OnOk};
ghost use Rattle.std.specs.List.{All};
ghost use Rattle.std.specs.Option.{option_copied};
ghost use Rattle.ps_bench_never.specs.Telling.{met_text};
ghost use Rattle.ps_reach.specs.Promised.{SaysOfEach};
ghost use Rattle.ps_reach.specs.Holding.{path_at};
ghost use Rattle.ps_bench_never.specs.AnsweringAny.{SaysIn};
ghost use Rattle.ps_bench_never.specs.TellingAny.{case_at, left_text, rule_text, sought_of, told_text, uncased_text};
ghost use Rattle.ps_bench_never.specs.TellingAny.{untimed_text, whole_text, wide_text};

use crate::casing::has_times;
use crate::searching::Attempt;
use crate::telling::{Asking, add_head, add_met, add_unmet};
use ps_base::{Bytes, Memory};
use ps_bench_frame::pieces::add_count;
use ps_bench_rules::Rule;
use ps_model::App;
use ps_reach::path_at;
use ps_search::{Found, Path};
use std::alloc::Global;

/// What was searched, and what was found.
#[derive(Clone, Copy)]
pub struct Searched<'a> {
    /// The application.
    pub app: &'a App,
    /// The name of the rules file.
    pub file: &'a str,
    /// The rules of the file.
    pub rules: &'a [Rule],
    /// How many states were to be held.
    pub most: u32,
    /// What was found of scans at any times, if these were searched.
    pub whole: &'a Option<Found>,
    /// What was found of scans some ms apart.
    pub attempts: &'a [Attempt],
}

// No case was found, and none so short is there.
fn add_uncased(text: &mut Bytes, scans: usize) -> Result<(), Memory>
    ensures { OnOk result (text.new ≡ text.old ++ uncased_text scans) }
{
    text.extend_from_slice(b": no case was found 10, 100 or 1000 ms apart; none of up to ")?;
    add_count(text, scans as u64, b"scan")?;
    text.extend_from_slice(b"\n")
}

// A rule that the search at any times met, by times that no case was found to have.
fn add_untimed(text: &mut Bytes, file: &str, rule: &Rule, path: &Path) -> Result<(), Memory>
    ensures { OnOk result (text.new ≡ text.old ++ untimed_text file.now rule.now path.now) }
{
    text.extend_from_slice(b"OPEN ")?;
    add_head(text, file, rule)?;
    add_uncased(text, path.inputs.len().saturating_sub(1))
}

// A rule, where scans at any times were not searched.
fn add_wide(text: &mut Bytes, file: &str, rule: &Rule) -> Result<(), Memory>
    ensures { OnOk result (text.new ≡ text.old ++ wide_text file.now rule.now) }
{
    text.extend_from_slice(b"OPEN ")?;
    add_head(text, file, rule)?;
    text.extend_from_slice(
        b": over 31 free inputs and timers; no case was found 10, 100 or 1000 ms apart\n",
    )
}

// What the search at any times says of a rule.
fn add_whole(
    text: &mut Bytes,
    searched: &Searched<'_>,
    found: &Found,
    rule: &Rule,
    r: usize,
) -> Result<(), Memory>
    ensures { OnOk result (text.new ≡ text.old
        ++ whole_text searched.now.file.now searched.now.most found.now rule.now (path_at found.now r)) }
{
    match path_at(found, r) {
        Some(path) => add_untimed(text, searched.file, rule, path),
        None => add_unmet(text, searched.file, found, searched.most, rule),
    }
}

// What that search says of a rule, if it was made.
fn add_left(text: &mut Bytes, searched: &Searched<'_>, rule: &Rule, r: usize) -> Result<(), Memory>
    ensures { OnOk result (text.new ≡ text.old
        ++ left_text searched.now.file.now searched.now.most searched.now.whole.now rule.now r) }
{
    match searched.whole {
        Some(found) => add_whole(text, searched, found, rule, r),
        None => add_wide(text, searched.file, rule),
    }
}

// The run that an attempt found of a rule, where its times are those of a trace.
fn case_at(attempt: &Attempt, r: usize) -> Option<&Path>
    ensures { option_copied result ≡ case_at attempt.now r }
{
    match path_at(&attempt.found, r) {
        Some(path) if has_times(attempt.asked.every, path.inputs.len()) => Some(path),
        _ => None,
    }
}

// The case of a rule that an attempt found.
fn add_case_of(
    text: &mut Bytes,
    alloc: Global,
    searched: &Searched<'_>,
    attempt: &Attempt,
    rule: &Rule,
    path: &Path,
) -> Result<(), Memory>
    requires { SaysOfEach searched.now.app.now attempt.now.asked }
    ensures { OnOk result (text.new ≡ text.old
        ++ met_text searched.now.app.now searched.now.file.now attempt.now.asked rule.now path.now) }
{
    let asking = Asking {
        app: searched.app,
        file: searched.file,
        rules: searched.rules,
        asked: &attempt.asked,
        most: searched.most,
    };
    add_met(text, alloc, &asking, rule, path)
}

// What is told of a rule.
fn add_rule(
    text: &mut Bytes,
    alloc: Global,
    searched: &Searched<'_>,
    rule: &Rule,
    r: usize,
) -> Result<(), Memory>
    requires { All (SaysIn searched.now.app.now) searched.now.attempts.now }
    ensures { OnOk result (text.new ≡ text.old ++ rule_text (sought_of searched.now) rule.now r) }
{
    for attempt in searched.attempts {
        if let Some(path) = case_at(attempt, r) {
            return add_case_of(text, alloc, searched, attempt, rule, path);
        }
    }
    add_left(text, searched, rule, r)
}

/// What is told of the rules of a file whose scans come at any times, in order: `FAILS` with the first case that was
/// found of scans some ms apart, `HOLDS` where none can be at any times, and else `OPEN`. An error means out of memory.
pub(crate) fn told(alloc: Global, searched: &Searched<'_>) -> Result<Bytes, Memory>
    requires { All (SaysIn searched.now.app.now) searched.now.attempts.now }
    ensures { IfOk result (λ text. text ≡ told_text (sought_of searched.now) 0 searched.now.rules.now) }
{
    let mut text = Bytes::new(alloc);
    for r in 0..searched.rules.len() {
        add_rule(&mut text, alloc, searched, &searched.rules[r], r)?;
    }
    Ok(text)
}
