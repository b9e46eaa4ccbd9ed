// The commands of the program, as `clap` reads them.

ghost use Rattle.std.specs.Prelude.{◌≡◌, IfOk, false, fold, map};
ghost use Rattle.clap.specs.Words.{app_of, rule_of};
ghost use Rattle.clap.specs.Simple.{App, new_app, with_rule, with_subcommand};
ghost use Rattle.clap.specs.declared.builder.command.Command.TheViews.{out-Command as fields_of};
ghost use Rattle.ps_bench_words.specs.Commands as commands;
ghost use Rattle.ps_bench_words.specs.Commands.{word};
ghost use Rattle.ps_bench_words.specs.Seen as seen;
ghost use Rattle.ps_bench_words.specs.Seen.{command_seen, rule_seen, shape_seen};

use crate::forms::{
    Argument, Form, Given, of_campaigns, of_cases, of_pages, of_searches, of_traces,
};
use crate::pages;
use clap::{Arg, ArgAction, Command};
use std::alloc::{AllocError, Global};

/// Lets go of a command. The walk through all that one owns is proved here alone, for whoever calls this in place of
/// dropping it.
pub(crate) fn let_go(command: Command<'_>) {
    let _gone = command;
}

// An argument as a word, or one as it is before it is told how it is given.
fn word_of<'a>(alloc: Global, argument: &Argument) -> Arg<'a>
    ensures rule { rule_of result ≡ record (word argument.now.id.now) { required = argument.now.required } }
    ensures local { result.global ≡ false }
{
    Arg::new(alloc, argument.id).required(argument.required)
}

// An argument.
fn arg_of<'a>(alloc: Global, argument: &Argument) -> Arg<'a>
    ensures rule { rule_of result ≡ rule_seen argument.now }
    ensures local { result.global ≡ false }
{
    let arg = word_of(alloc, argument);
    match argument.given {
        Given::Word => arg,
        Given::Words => arg.num_args(1..),
        Given::Value(name) => arg.long(argument.id).value_name(name),
        Given::Flag => arg.long(argument.id).action(ArgAction::Count),
    }
}

// A command with one argument more.
fn with_argument<'a>(
    alloc: Global,
    command: Command<'a>,
    argument: &Argument,
) -> Result<Command<'a>, AllocError>
    ensures app { IfOk result (λ c. app_of c ≡ with_rule (app_of command.entry) (rule_seen argument.now)) }
    ensures local { IfOk result (λ c. (fields_of c).has_globals ≡ (fields_of command.entry).has_globals) }
{
    command.arg(arg_of(alloc, argument))
}

// A command without its arguments.
fn bare_command<'a>(alloc: Global, form: &Form) -> Command<'a>
    ensures app { app_of result ≡ new_app form.now.name.now }
    ensures local { (fields_of result).has_globals ≡ false }
{
    Command::new(alloc, form.name)
}

/// A command of this form. An error means out of memory.
pub(crate) fn command_of<'a>(alloc: Global, form: &Form) -> Result<Command<'a>, AllocError>
    ensures app { IfOk result (λ c. app_of c ≡ command_seen form.now) }
    ensures local { IfOk result (λ c. (fields_of c).has_globals ≡ false) }
{
    let mut grown = bare_command(alloc, form);
    for argument in form.arguments {
        match with_argument(alloc, grown, argument) {
            Ok(command) => grown = command,
            Err(error) => return Err(error),
        }
    }
    Ok(grown)
}

// The program without its commands.
fn bare_program<'a>(alloc: Global) -> Command<'a>
    ensures { app_of result ≡ commands.bare }
{
    Command::new(alloc, pages::NAME)
        .version(pages::VERSION)
        .no_binary_name(true)
        .disable_help_subcommand(true)
        .subcommand_required(true)
}

// The program with one command more.
fn with_form<'a>(
    alloc: Global,
    program: Command<'a>,
    form: &Form,
) -> Result<Command<'a>, AllocError>
    ensures { IfOk result (λ c. app_of c ≡ seen.with_form (app_of program.entry) form.now) }
{
    match command_of(alloc, form) {
        Ok(command) => program.subcommand(command),
        Err(error) => {
            let_go(program);
            Err(error)
        }
    }
}

// A program with commands of these forms more.
fn with_forms<'a>(
    alloc: Global,
    program: Command<'a>,
    forms: &[Form],
) -> Result<Command<'a>, AllocError>
    ensures { IfOk result (λ c. app_of c ≡ fold with_subcommand (app_of program.entry) (map shape_seen forms.now)) }
{
    let mut grown = program;
    for form in forms {
        match with_form(alloc, grown, form) {
            Ok(program) => grown = program,
            Err(error) => return Err(error),
        }
    }
    Ok(grown)
}

// A program with commands of these forms more, if there is one.
fn with_group<'a>(
    alloc: Global,
    program: Result<Command<'a>, AllocError>,
    forms: &[Form],
) -> Result<Command<'a>, AllocError>
    ensures { (app : App) → IfOk program.entry (λ c. app_of c ≡ app) → IfOk result (λ c. app_of c ≡ fold with_subcommand app (map shape_seen forms.now)) }
{
    match program {
        Ok(program) => with_forms(alloc, program, forms),
        Err(error) => Err(error),
    }
}

/// The program with its commands, as `clap` reads them. An error means out of memory.
pub(crate) fn program<'a>(alloc: Global) -> Result<Command<'a>, AllocError>
    ensures { IfOk result (λ c. app_of c ≡ commands.workbench) }
{
    let cases = with_group(alloc, Ok(bare_program(alloc)), of_cases());
    let traces = with_group(alloc, cases, of_traces());
    let searches = with_group(alloc, traces, of_searches());
    let campaigns = with_group(alloc, searches, of_campaigns());
    with_group(alloc, campaigns, of_pages())
}
