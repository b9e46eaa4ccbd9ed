// What a person reads of a rules file that is refused.

ghost use Rattle.std.specs.Prelude.{◌≡◌, IfOk};
ghost use Rattle.ps_bench_messages.specs.Telling.{IsAdvised, rules_rule};

use crate::advising::{UNKNOWN, behind, has_word, line_at, part_of, said_message, unknown_column};
use ps_base::{Bytes, Memory, Place};
use ps_bench_rules::{Flaw, RulesRefusal};
use ps_message::Advice;
use std::alloc::Global;

// What is said of a flaw: its rule, what is wrong, and what helps.
#[derive(Clone, Copy)]
struct Said {
    rule: &'static str,
    sentence: &'static str,
    remedy: &'static str,
}

// What is said of a flaw: one row a rule.
fn said_of(flaw: Flaw) -> Said
    ensures { result.rule.now ≡ rules_rule flaw }
{
    match flaw {
        Flaw::R1 => Said {
            rule: "R1",
            sentence: "the line has none of the forms of a rules file, or does not stand where it may",
            remedy: "write every, fixed, follows and first before the first rule, then never and its conditions (docs/never.md)",
        },
        Flaw::R2 => Said {
            rule: "R2",
            sentence: "a name is unknown, or it is of a sort that may not stand here",
            remedy: "fix and follow with inputs; ask for inputs, outputs, locals, instances, or INSTANCE.PIN for a BOOL or SAFEBOOL pin",
        },
        Flaw::R3 => Said {
            rule: "R3",
            sentence: "a value is none that the name may have",
            remedy: "give 0, 1, FALSE or TRUE, and to an instance a code of its kind, such as 8000",
        },
        Flaw::R4 => Said {
            rule: "R4",
            sentence: "an input stands twice behind fixed, follows and first",
            remedy: "say of each input once where it has its value from",
        },
        Flaw::R5 => Said {
            rule: "R5",
            sentence: "the file is over a limit",
            remedy: "keep to 1,000 rules, 20 free inputs, 60,000 ms behind every, 65,536 bytes a line and 200 bytes a name; fix inputs that need not change",
        },
    }
}

// The column of the first word after `follows` that stands nowhere in the application's text, counted from 1; 0 where
// there is none.
fn unknown_follow(app: &[u8], line: &[u8]) -> u32 {
    let mut column = 1;
    for word in line.split(|byte| *byte == b' ' || *byte == b'\t') {
        if word.starts_with(b"#") {
            return 0;
        }
        let is_name = word != b"follows".as_slice() && !word.eq_ignore_ascii_case(b"NOT");
        if is_name && !word.is_empty() && !has_word(app, part_of(word)) {
            return column;
        }
        column = behind(column, word);
    }
    0
}

// The column that a refusal is about: of R2 that of the name that is unknown. 0 stands for the line.
fn column_of(refusal: RulesRefusal, app: &[u8], line: &[u8]) -> u32 {
    if refusal.flaw != Flaw::R2 {
        return 0;
    }
    if line.trim_ascii_start().starts_with(b"follows") {
        return unknown_follow(app, line);
    }
    unknown_column(app, line)
}

/// The message of a refusal of a rules file of this name and text, for an application of this text. Of an unknown name
/// it says which.
pub(crate) fn rules_message(
    alloc: Global,
    app: &[u8],
    file: &[u8],
    text: &[u8],
    refusal: RulesRefusal,
) -> Result<Bytes, Memory>
    ensures { IfOk result (IsAdvised (rules_rule refusal.flaw) refusal.line file.now text.now) }
{
    let said = said_of(refusal.flaw);
    let column = column_of(refusal, app, line_at(text, refusal.line));
    let advice = Advice {
        name: said.rule,
        sentence: said.sentence,
        of_name: if column == 0 { "" } else { UNKNOWN },
        remedy: said.remedy,
    };
    let place = Place {
        line: refusal.line,
        column,
    };
    said_message(alloc, &advice, &[], file, text, &place)
}
