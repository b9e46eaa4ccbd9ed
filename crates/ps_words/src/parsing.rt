// The words of a call, as `clap` reads them: one command, with a subcommand for each command of the program.

ghost use Rattle.std.specs.Prelude.{◌≡◌, ◌≤◌, ◌∷◌, [], IfOk, true, false, map, option_map, Some, codes, length};
ghost use Rattle.std.specs.Prelude.{slice_get, List, ℕ};
ghost use Rattle.std.specs.List.{list_all};
ghost use Rattle.clap.specs.Simple.{with_subcommand};
ghost use Rattle.clap.specs.Words.{app_of, rule_of, rows_of, found_of, fault_of, first_of, Row, subcommand_rows_of};
ghost use Rattle.clap.specs.declared.builder.command.Command.TheViews.{out-Command as fields_of};
ghost use Rattle.ps_words.specs.Command as asked;
ghost use Rattle.ps_words.specs.Command.Command.{NotTaken};
ghost use Rattle.ps_words.specs.Parsing as parsing;
ghost use Rattle.ps_words.specs.Seen.{seen};

use clap::error::ErrorKind;
use clap::{Arg, ArgMatches, Command};
use ps_base::Memory;
use std::alloc::{AllocError, Global};

// How many words a subcommand has after its name.
#[derive(Clone, Copy)]
enum Words {
    One,
    Two,
    Three,
}

// A subcommand: its name, and how many words it has.
#[derive(Clone, Copy)]
struct Form {
    name: &'static str,
    words: Words,
}

// The subcommands, in the order of the program's commands.
const FORMS: &[Form] = &[
    Form {
        name: "run",
        words: Words::Two,
    },
    Form {
        name: "fault",
        words: Words::Three,
    },
    Form {
        name: "check",
        words: Words::One,
    },
    Form {
        name: "cert",
        words: Words::One,
    },
    Form {
        name: "verify",
        words: Words::Two,
    },
    Form {
        name: "image",
        words: Words::One,
    },
    Form {
        name: "load",
        words: Words::One,
    },
    Form {
        name: "demand",
        words: Words::One,
    },
    Form {
        name: "vote",
        words: Words::Three,
    },
    Form {
        name: "heal",
        words: Words::Three,
    },
];

// A required positional argument.
fn required<'a>(alloc: Global, id: &'a str) -> Arg<'a>
    ensures rule { rule_of result ≡ parsing.required id.now }
    ensures local { result.global ≡ false }
{
    Arg::new(alloc, id).required(true)
}

// The subcommand of this name with one argument.
fn with_one<'a>(alloc: Global, name: &'a str) -> Result<Command<'a>, AllocError>
    ensures app { IfOk result (λ c. app_of c ≡ parsing.leaf name.now parsing.one) }
    ensures local { IfOk result (λ c. (fields_of c).has_globals ≡ false) }
{
    Command::new(alloc, name).arg(required(alloc, "first"))
}

// The subcommand of this name with two arguments.
fn with_two<'a>(alloc: Global, name: &'a str) -> Result<Command<'a>, AllocError>
    ensures app { IfOk result (λ c. app_of c ≡ parsing.leaf name.now parsing.two) }
    ensures local { IfOk result (λ c. (fields_of c).has_globals ≡ false) }
{
    with_one(alloc, name)?.arg(required(alloc, "second"))
}

// The subcommand of this name with three arguments.
fn with_three<'a>(alloc: Global, name: &'a str) -> Result<Command<'a>, AllocError>
    ensures app { IfOk result (λ c. app_of c ≡ parsing.leaf name.now parsing.three) }
    ensures local { IfOk result (λ c. (fields_of c).has_globals ≡ false) }
{
    with_two(alloc, name)?.arg(required(alloc, "third"))
}

// The program without its subcommands.
fn bare_program<'a>(alloc: Global) -> Command<'a>
    ensures { app_of result ≡ parsing.bare }
{
    Command::new(alloc, "plcsafe")
        .no_binary_name(true)
        .disable_help_flag(true)
        .disable_help_subcommand(true)
        .disable_version_flag(true)
}

// The subcommand of this form.
fn formed<'a>(alloc: Global, form: Form) -> Result<Command<'a>, AllocError>
    ensures app { IfOk result (λ c. app_of c ≡ parsing.leaf form.name.now (parsing.ids_of form.words)) }
    ensures local { IfOk result (λ c. (fields_of c).has_globals ≡ false) }
{
    match form.words {
        Words::One => with_one(alloc, form.name),
        Words::Two => with_two(alloc, form.name),
        Words::Three => with_three(alloc, form.name),
    }
}

// A command with one more subcommand, of this form.
fn with_form<'a>(alloc: Global, command: Command<'a>, form: Form) -> Result<Command<'a>, AllocError>
    ensures { IfOk result (λ c. app_of c ≡ with_subcommand (app_of command.entry) (parsing.shape_of form)) }
{
    command.subcommand(formed(alloc, form)?)
}

// The program with a subcommand for each of its commands.
fn program<'a>(alloc: Global) -> Result<Command<'a>, AllocError>
    ensures { IfOk result (λ c. app_of c ≡ parsing.plcsafe) }
{
    let mut program = bare_program(alloc);
    for form in FORMS {
        program = with_form(alloc, program, *form)?;
    }
    Ok(program)
}

// Whether a value is the word, or neither is there.
fn is_same(value: Option<&str>, word: Option<&&str>) -> bool
    ensures same { option_map (λ v. v.now) value.entry ≡ option_map (λ w. w.now.now) word.entry → result ≡ true }
    ensures other { result ≡ true → option_map (λ v. v.now) value.entry ≡ option_map (λ w. w.now.now) word.entry }
{
    match (value, word) {
        (Some(value), Some(word)) => value == *word,
        (None, None) => true,
        _ => false,
    }
}

// Whether the value of this argument is the word at a place, or neither is there.
fn is_value(values: &ArgMatches<'_>, id: &str, words: &[&str], place: usize) -> bool
    ensures same { first_of id.now (rows_of (found_of values.now)) ≡ slice_get (seen words.now) place → result ≡ true }
    ensures other { result ≡ true → first_of id.now (rows_of (found_of values.now)) ≡ slice_get (seen words.now) place }
{
    is_same(values.get_str(id), words.get(place))
}

// Whether the values of a subcommand are the words after its name, three at most.
fn are_values(values: &ArgMatches<'_>, words: &[&str]) -> bool
    ensures same { parsing.AreValues (rows_of (found_of values.now)) (seen words.now) → result ≡ true }
    ensures other { result ≡ true → parsing.AreValues (rows_of (found_of values.now)) (seen words.now) }
{
    words.len() <= 4
        && is_value(values, "first", words, 1)
        && is_value(values, "second", words, 2)
        && is_value(values, "third", words, 3)
}

// Whether a parse gave the words back: the first as the name of the subcommand, and the further ones, three at most, as
// its values.
fn gives_back(matches: &ArgMatches<'_>, words: &[&str]) -> bool
    ensures { (name : List ℕ) (rows : List Row) → subcommand_rows_of matches.now ≡ Some (name, rows) → slice_get (seen words.now) 0 ≡ Some name →
        parsing.AreValues rows (seen words.now) → result ≡ true }
{
    match matches.subcommand() {
        Some((name, values)) => is_same(Some(name), words.first()) && are_values(values, words),
        None => false,
    }
}

/// Whether `clap` takes the words, and gives back each of them. False comes only where the words have the form of no
/// command, and true only where `clap` has no fault to find in them. An error means out of memory.
pub(crate) fn is_parsed(alloc: Global, words: &[&str]) -> Result<bool, Memory>
    requires { list_all asked.is_plain (seen words.now) ≡ true }
    ensures refused { IfOk result (λ parsed. parsed ≡ false → asked.form_of (seen words.now) ≡ NotTaken) }
    ensures taken { IfOk result (λ parsed. parsed ≡ true → fault_of parsing.plcsafe (seen words.now) ≡ []) }
{
    match program(alloc)?.try_get_matches_from(words) {
        Ok(matches) => Ok(gives_back(&matches, words)),
        Err(error) if error.kind() == ErrorKind::OutOfMemory => Err(Memory),
        Err(_) => Ok(false),
    }
}
