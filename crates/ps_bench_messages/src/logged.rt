// What a person reads of a log that is refused.

ghost use Rattle.std.specs.Prelude.{◌≡◌, IfOk};
ghost use Rattle.ps_bench_messages.specs.Telling.{IsAdvised, log_rule};

use crate::advising::said_message;
use ps_accepted::accept_text;
use ps_base::{Bytes, Fail, Memory, Place};
use ps_bench_frame::pieces::add_shown;
use ps_bench_logs::{Column, Flaw, LogRefusal};
use ps_message::Advice;
use std::alloc::Global;

// What is said of a flaw: its rule, what is wrong, and what helps.
#[derive(Clone, Copy)]
struct Said {
    rule: &'static str,
    sentence: &'static str,
    remedy: &'static str,
}

// What is said of a flaw: one row a rule.
fn said_of(flaw: Flaw) -> Said
    ensures { result.rule.now ≡ log_rule flaw }
{
    match flaw {
        Flaw::V1 => Said {
            rule: "V1",
            sentence: "the line has not the form of CSV, other fields than the header has, or a column twice",
            remedy: "put commas between fields, as many as in the header, and a field with commas into quotation marks that close in its line",
        },
        Flaw::V2(_) => Said {
            rule: "V2",
            sentence: "a column is missing",
            remedy: "name a column time, and one as each input of the application; other columns are left out",
        },
        Flaw::V3 => Said {
            rule: "V3",
            sentence: "a value is none",
            remedy: "give to inputs and @restart 0, 1, FALSE or TRUE, and to the time a whole number of ms up to 4294967295",
        },
        Flaw::V4 => Said {
            rule: "V4",
            sentence: "the time is less than in the scan before",
            remedy: "put the rows in the order of their times",
        },
    }
}

// Puts the name of an input of the application of this text; nothing where it is refused or has no such input.
fn add_input(alloc: Global, source: &[u8], input: u16, words: &mut Bytes) -> Result<(), Memory> {
    match accept_text(alloc, source) {
        Ok(accepted) => {
            let (app, _) = accepted.into_parts();
            if input < app.input_count() {
                add_shown(words, app.signal_name(input))?;
            }
            Ok(())
        }
        Err(Fail::Memory) => Err(Memory),
        Err(Fail::Refused(_)) => Ok(()),
    }
}

// Which column is missing, in words.
fn missing_told(alloc: Global, source: &[u8], column: Column) -> Result<Bytes, Memory> {
    let mut words = Bytes::from_slice(alloc, b"no column is called ")?;
    match column {
        Column::Time => words.extend_from_slice(b"time")?,
        Column::Restart => words.extend_from_slice(b"@restart")?,
        Column::Input(input) => add_input(alloc, source, input, &mut words)?,
    }
    Ok(words)
}

// What is told of a refusal besides its rule.
fn told_on(alloc: Global, source: &[u8], flaw: Flaw) -> Result<Bytes, Memory> {
    match flaw {
        Flaw::V2(column) => missing_told(alloc, source, column),
        Flaw::V1 | Flaw::V3 | Flaw::V4 => Ok(Bytes::new(alloc)),
    }
}

/// The message of a refusal of a log of this name and text, for an application of this source.
pub(crate) fn log_message(
    alloc: Global,
    source: &[u8],
    file: &[u8],
    text: &[u8],
    refusal: LogRefusal,
) -> Result<Bytes, Memory>
    ensures { IfOk result (IsAdvised (log_rule refusal.flaw) refusal.line file.now text.now) }
{
    let said = said_of(refusal.flaw);
    let words = told_on(alloc, source, refusal.flaw)?;
    let advice = Advice {
        name: said.rule,
        sentence: said.sentence,
        of_name: "",
        remedy: said.remedy,
    };
    let place = Place {
        line: refusal.line,
        column: 0,
    };
    said_message(alloc, &advice, words.as_slice(), file, text, &place)
}
