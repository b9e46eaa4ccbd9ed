// What the words of a call ask of the program.

ghost use Rattle.std.specs.Prelude.{◌≡◌, IfOk, List, ℕ, option_map};
ghost use Rattle.std.specs.List.{list_any};
ghost use Rattle.std.specs.Str.{bytes_eq};
ghost use Rattle.clap.specs.Words.{found_of, rows_of, subcommand_rows_of};
ghost use Rattle.clap.specs.Faults.{fault_of};
ghost use Rattle.clap.specs.Kinds.{HasKind};
ghost use Rattle.clap.specs.Walk.{first_of};
ghost use Rattle.ps_bench_words.specs.Asking as asking;
ghost use Rattle.ps_bench_words.specs.Asking.{Asked as AskedOf};
ghost use Rattle.ps_bench_words.specs.Commands as commands;
ghost use Rattle.ps_bench_words.specs.Seen.{IsAsked, asked_seen, seen};
ghost use Rattle.ps_bench_words.specs.declared.forms.Form.{Form as FormOf};
ghost use Rattle.ps_bench_words.specs.declared.pages.TheConstants as pages_of;

use crate::command::{command_of, let_go, program};
use crate::forms::{Form, of_campaigns, of_cases, of_pages, of_searches, of_traces};
use crate::pages;
use crate::reading::{
    Unread, campaign_in, cover_in, expand_in, given_in, live_in, never_in, report_in, same_in,
    sum_in, test_in, trace_in, watch_in, why_in,
};
use clap::error::ErrorKind;
use clap::{ArgMatches, Command, Error};
use ps_base::Memory;
use ps_cover::Format as Output;
use ps_model::Channel;
use ps_words::Words;
use std::alloc::{AllocError, Global};

/// How `test` tells its results.
#[derive(Clone, Copy)]
pub enum Format {
    /// Lines for a person.
    Text,
    /// TAP, version 13.
    Tap,
    /// The XML of JUnit, which Jenkins and GitLab read.
    Junit,
}

/// How `watch` writes a run.
#[derive(Clone, Copy)]
pub enum Layout {
    /// What changes, for a person.
    Text,
    /// CSV (RFC 4180): a row a scan.
    Csv,
    /// JSON (RFC 8259): an object a scan.
    Json,
    /// A value change dump (IEEE 1364).
    Vcd,
}

/// What the words ask.
#[derive(Drop)]
pub enum Asked<'a> {
    /// `test APP CASES.. [--format FORMAT]`
    Test {
        app: &'a str,
        cases: Vec<&'a str>,
        format: Format,
    },
    /// `expand APP CASES`
    Expand {
        app: &'a str,
        cases: &'a str,
    },
    /// `watch APP TRACE [NAME..] [--faults FAULTS] [--format FORMAT]`
    Watch {
        app: &'a str,
        trace: &'a str,
        names: Vec<&'a str>,
        faults: Option<&'a str>,
        layout: Layout,
    },
    /// `trace APP CSV`
    Trace {
        app: &'a str,
        csv: &'a str,
    },
    /// `why APP TRACE TIME NAME [--format FORMAT]`
    Why {
        app: &'a str,
        trace: &'a str,
        /// In ms.
        time: u32,
        name: &'a str,
        output: Output,
    },
    /// `cover APP TRACE.. [--format FORMAT] [--least PERCENT] [--ideas]`
    Cover {
        app: &'a str,
        traces: Vec<&'a str>,
        output: Output,
        /// In percent, from 0 to 100, where it is said.
        least: Option<u32>,
        ideas: bool,
    },
    /// `never APP RULES [--states N]`
    Never {
        app: &'a str,
        rules: &'a str,
        /// From 1 on; a million where it is not said.
        states: u32,
    },
    /// `same APP OTHER [RULES] [--states N]`
    Same {
        app: &'a str,
        other: &'a str,
        rules: Option<&'a str>,
        /// From 1 on; a million where it is not said.
        states: u32,
    },
    /// `campaign APP TRACE FROM COUNT [--channel CHANNEL] [--print]`
    Campaign {
        app: &'a str,
        trace: &'a str,
        /// The number of the first trial.
        from: u32,
        /// How many trials there are.
        count: u32,
        /// The channel that each of them strikes, if it is not drawn.
        channel: Option<Channel>,
        /// Whether their faults are written.
        print: bool,
    },
    /// `sum FILE..`
    Sum {
        files: Vec<&'a str>,
    },
    /// `report APP CASES.. [--title TEXT]`
    Report {
        app: &'a str,
        cases: Vec<&'a str>,
        title: Option<&'a str>,
    },
    /// `live APP [--names]`
    Live {
        app: &'a str,
        /// Whether scans are told by name, in place of their report lines.
        names: bool,
    },
    /// Help or the version was asked for: the page, for standard output.
    Page {
        text: &'a str,
    },
    /// The words are not taken: what is wrong, and the usage of their command, for standard error.
    NotTaken {
        text: String,
    },
}

/// The texts of the words. An error means out of memory.
pub fn texts_of(alloc: Global, words: &Words) -> Result<Vec<&str>, Memory>
    ensures { IfOk result (λ texts. seen texts.items ≡ words.now) }
{
    let mut texts = Vec::new(alloc);
    for i in 0..words.len() {
        texts.push(words.at(i).as_str())?;
    }
    Ok(texts)
}

// The text of an error: what is wrong with the words, and the usage of their command.
fn text_of(alloc: Global, error: &Error) -> Result<String, Memory> {
    Ok(format!(in alloc; "{error}")?)
}

// The form of this name among these.
fn form_among(forms: &'static [Form], name: &str) -> Option<&'static Form> {
    for form in forms {
        if form.name == name {
            return Some(form);
        }
    }
    None
}

// The form of this name.
fn form_named(name: &str) -> Option<&'static Form> {
    form_among(of_cases(), name)
        .or(form_among(of_traces(), name))
        .or(form_among(of_searches(), name))
        .or(form_among(of_campaigns(), name))
        .or(form_among(of_pages(), name))
}

// The command of this name as a program of its own, or the program where there is none.
fn command_named<'a>(alloc: Global, name: &str) -> Result<Command<'a>, AllocError> {
    match form_named(name) {
        Some(form) => command_of(alloc, form)?.bin_name(form.call),
        None => program(alloc),
    }
}

// What is wrong with a value that was given to a command, with the usage of the command.
fn wrong_value(alloc: Global, name: &str, why: &str) -> Result<String, Memory> {
    let mut command = command_named(alloc, name)?;
    let error = command.error(ErrorKind::InvalidValue, why);
    let_go(command);
    text_of(alloc, &error?)
}

// The page of the program.
fn program_page() -> &'static str
    ensures { result.now ≡ pages_of.PROGRAM.now }
{
    pages::PROGRAM
}

// The page of this name among the last commands, and the program's where there is none of it.
fn later_page(name: &str) -> &'static str
    ensures { result.now ≡ asking.later_page name.now }
{
    match name {
        "never" => pages::NEVER,
        "same" => pages::SAME,
        "campaign" => pages::CAMPAIGN,
        "sum" => pages::SUM,
        "report" => pages::REPORT,
        "live" => pages::LIVE,
        "help" => pages::HELP,
        _ => program_page(),
    }
}

// The page of the command of this name, and of the program where there is none of it.
fn page_named(name: &str) -> &'static str
    ensures { result.now ≡ asking.page_named name.now }
{
    match name {
        "test" => pages::TEST,
        "expand" => pages::EXPAND,
        "watch" => pages::WATCH,
        "trace" => pages::TRACE,
        "why" => pages::WHY,
        "cover" => pages::COVER,
        _ => later_page(name),
    }
}

// The page that `--help` asks for in these words: that of the command that the first one names, or of the program.
fn page_of(words: &[&str]) -> &'static str
    ensures { result.now ≡ asking.page_of (seen words.now) }
{
    match words.first() {
        Some(word) => page_named(*word),
        None => program_page(),
    }
}

// Whether one of these forms has this name.
fn is_among(forms: &[Form], name: &str) -> bool
    ensures { result ≡ list_any (λ (f : FormOf). bytes_eq f.name.now name.now) forms.now }
{
    forms.iter().any(|form| form.name == name)
}

// Whether the program has a command of this name.
fn is_command(name: &str) -> bool
    ensures { result ≡ asking.is_command name.now }
{
    is_among(of_cases(), name)
        | is_among(of_traces(), name)
        | is_among(of_searches(), name)
        | is_among(of_campaigns(), name)
        | is_among(of_pages(), name)
}

// What `help` asks about a command, or about the program.
fn help_in<'a>(name: Option<&str>) -> Result<Asked<'a>, Unread>
    ensures { IsAsked result (asking.help_asks (option_map (λ n. n.now) name.entry)) }
{
    match name {
        None => Ok(Asked::Page {
            text: program_page(),
        }),
        Some(name) if is_command(name) => Ok(Asked::Page {
            text: page_named(name),
        }),
        Some(_) => Err(Unread::Wrong(pages::NO_COMMAND)),
    }
}

// What a command asks with what was given to it.
fn command_in<'a>(alloc: Global, name: &str, values: &ArgMatches<'a>) -> Result<Asked<'a>, Unread>
    ensures { IsAsked result (asking.command_asks name.now (rows_of (found_of values.now))) }
{
    match name {
        "test" => test_in(alloc, values),
        "expand" => Ok(expand_in(values)),
        "watch" => watch_in(alloc, values),
        "trace" => Ok(trace_in(values)),
        "why" => why_in(values),
        "cover" => cover_in(alloc, values),
        "never" => never_in(values),
        "same" => same_in(values),
        "campaign" => campaign_in(values),
        "sum" => sum_in(alloc, values),
        "report" => report_in(alloc, values),
        "live" => Ok(live_in(values)),
        "help" => help_in(given_in(values, "COMMAND")),
        _ => Err(Unread::Wrong(pages::NO_COMMAND)),
    }
}

// What a command asks, with its words for what is wrong where nothing is taken.
fn told<'a>(
    alloc: Global,
    name: &str,
    asked: Result<Asked<'a>, Unread>,
) -> Result<Asked<'a>, Memory>
    ensures { (wanted : AskedOf) → IsAsked asked.entry wanted → IfOk result (λ a. asked_seen a ≡ wanted) }
{
    match asked {
        Ok(asked) => Ok(asked),
        Err(Unread::NoMemory) => Err(Memory),
        Err(Unread::Wrong(why)) => Ok(Asked::NotTaken {
            text: wrong_value(alloc, name, why)?,
        }),
    }
}

// What the matches of a parse ask.
fn matched<'a>(alloc: Global, matches: &ArgMatches<'a>) -> Result<Asked<'a>, Memory>
    ensures { IfOk result (λ asked. asked_seen asked ≡ asking.matched_asks (subcommand_rows_of matches.now)) }
{
    match matches.subcommand() {
        Some((name, values)) => told(alloc, name, command_in(alloc, name, values)),
        None => told(alloc, "", Err(Unread::Wrong(pages::NO_COMMAND))),
    }
}

// What an error of a parse of these words asks: a page, or nothing that is taken.
fn refused<'a>(alloc: Global, words: &[&str], error: &Error) -> Result<Asked<'a>, Memory>
    ensures { HasKind (fault_of commands.workbench (seen words.now)) error.now →
        IfOk result (λ asked. asking.IsTurnedAway (seen words.now) (asked_seen asked)) }
{
    match error.kind() {
        ErrorKind::OutOfMemory => Err(Memory),
        ErrorKind::DisplayHelp => Ok(Asked::Page {
            text: page_of(words),
        }),
        ErrorKind::DisplayVersion => Ok(Asked::Page {
            text: pages::VERSION,
        }),
        _ => Ok(Asked::NotTaken {
            text: text_of(alloc, error)?,
        }),
    }
}

/// What the words ask of the program, as `clap` reads them. An error means out of memory.
pub fn asked_of<'a>(alloc: Global, words: &'a [&'a str]) -> Result<Asked<'a>, Memory>
    ensures { IfOk result (λ asked. asking.Asks (seen words.now) (asked_seen asked)) }
{
    match program(alloc)?.try_get_matches_from(words) {
        Ok(matches) => matched(alloc, &matches),
        Err(error) => refused(alloc, words, &error),
    }
}
