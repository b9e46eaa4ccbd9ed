// What a person reads of a file of counts that is refused.

ghost use Rattle.std.specs.Prelude.{◌≡◌, IfOk, codes};
ghost use Rattle.ps_bench_messages.specs.Telling.{IsAdvised, sum_rule};

use crate::advising::{line_at, said_message};
use ps_base::{Bytes, Memory, Place};
use ps_bench_frame::pieces::add_shown;
use ps_bench_trials::{LARGEST_SUM, SumRefusal, SumRule};
use ps_message::Advice;
use std::alloc::Global;

// What is said of a rule: what is wrong, and what helps.
#[derive(Clone, Copy)]
struct Said {
    rule: &'static str,
    sentence: &'static str,
    remedy: &'static str,
}

// What is said of a rule: one row a rule.
fn said_of(rule: SumRule) -> Said
    ensures { result.rule.now ≡ sum_rule rule }
{
    match rule {
        SumRule::U1 => Said {
            rule: "U1",
            sentence: "the line is not as campaign or sum would write it here",
            remedy: "give the file as campaign or sum wrote it; where it was cut off, make that campaign once more",
        },
        SumRule::U2 => Said {
            rule: "U2",
            sentence: "the counts are of another application than those of the first file",
            remedy: "add those of one application and one trace, and the others by a call of their own",
        },
        SumRule::U3 => Said {
            rule: "U3",
            sentence: "the counts are of another trace than those of the first file",
            remedy: "add those of one application and one trace, and the others by a call of their own",
        },
    }
}

// The rule of form with words of its own.
fn of_form(sentence: &'static str, remedy: &'static str) -> Said
    ensures { result.rule.now ≡ codes "U1" }
{
    Said {
        rule: "U1",
        sentence,
        remedy,
    }
}

// What a text that is none of a campaign tells by its size and by the line that is refused.
fn said_of_form(text: &[u8], line: &[u8]) -> Said
    ensures { result.rule.now ≡ codes "U1" }
{
    if text.is_empty() {
        return of_form(
            "the file is empty: the call that was to write it did not end",
            "make the campaign of this part once more, with the same numbers",
        );
    }
    if text.len() > LARGEST_SUM as usize {
        return of_form(
            "the file has over 65,536 bytes, and what campaign and sum write has fewer",
            "give the files that campaign or sum wrote, each of one call",
        );
    }
    if line.starts_with(b"before ") {
        return of_form(
            "the file has faults, as --print writes them, and they are not added",
            "make the campaign without --print, or keep the lines from application on",
        );
    }
    if line.starts_with(b"application ") && text.starts_with(b"application ") {
        return of_form(
            "a second campaign begins here, or what names the application is no SHA-256",
            "put what each call wrote into a file of its own, and give all files to sum",
        );
    }
    said_of(SumRule::U1)
}

// What is said of a refusal.
fn said_at(rule: SumRule, text: &[u8], line: &[u8]) -> Said
    ensures { result.rule.now ≡ sum_rule rule }
{
    match rule {
        SumRule::U1 => said_of_form(text, line),
        SumRule::U2 | SumRule::U3 => said_of(rule),
    }
}

// What is told of a refusal besides its rule: where the head is another one, which file is the first.
fn told_on(alloc: Global, first: &str, rule: SumRule) -> Result<Bytes, Memory> {
    let mut words = Bytes::new(alloc);
    if matches!(rule, SumRule::U2 | SumRule::U3) {
        words.extend_from_slice(b"the first file is ")?;
        add_shown(&mut words, first)?;
    }
    Ok(words)
}

/// The message of a refusal of a file of counts of this name and text, beside the first file.
pub(crate) fn sum_message(
    alloc: Global,
    first: &str,
    file: &[u8],
    text: &[u8],
    refusal: SumRefusal,
) -> Result<Bytes, Memory>
    ensures { IfOk result (IsAdvised (sum_rule refusal.rule) refusal.line file.now text.now) }
{
    let said = said_at(refusal.rule, text, line_at(text, refusal.line));
    let words = told_on(alloc, first, refusal.rule)?;
    let advice = Advice {
        name: said.rule,
        sentence: said.sentence,
        of_name: "",
        remedy: said.remedy,
    };
    let place = Place {
        line: refusal.line,
        column: 0,
    };
    said_message(alloc, &advice, words.as_slice(), file, text, &place)
}
