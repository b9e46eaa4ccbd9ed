// What a person reads of a case file that is refused.

ghost use Rattle.std.specs.Prelude.{◌≡◌, IfOk};
ghost use Rattle.ps_bench_messages.specs.Telling.{IsAdvised, case_rule};

use ps_base::{Bytes, Memory, Place};
use ps_bench_cases::limits::LONGEST_CASE_LINE;
use ps_bench_cases::{CaseRefusal, CaseRule};
use ps_message::{Advice, advised_message};
use std::alloc::Global;

// As many bytes of a case file as are looked at for a message.
pub(crate) const MOST_LOOKED_AT: u32 = 16_777_216;

// As many names of a line as are looked for in the application.
const MOST_NAMES: u32 = 64;

// The name of a rule.
fn rule_name(rule: CaseRule) -> &'static str
    ensures { result.now ≡ case_rule rule }
{
    match rule {
        CaseRule::K1 => "K1",
        CaseRule::K2 => "K2",
        CaseRule::K3 => "K3",
        CaseRule::K4 => "K4",
        CaseRule::K5 => "K5",
        CaseRule::K6 => "K6",
        CaseRule::K7 => "K7",
    }
}

/// What is said of a name that the application has nowhere.
pub(crate) const UNKNOWN: &str = " stands nowhere in the application";

// What is wrong, and what helps.
#[derive(Clone, Copy)]
struct Said {
    sentence: &'static str,
    remedy: &'static str,
}

// What is said of a rule: one row a rule.
fn said_of(rule: CaseRule) -> Said {
    match rule {
        CaseRule::K1 => Said {
            sentence: "the line has none of the forms of a case file",
            remedy: "begin it with case, set, at, +D, every, restart, fault or expect (docs/cases.md)",
        },
        CaseRule::K2 => Said {
            sentence: "a name is unknown, or it is of a sort that may not stand here",
            remedy: "set inputs; expect inputs, outputs, locals, instances, or INSTANCE.PIN for a BOOL or SAFEBOOL pin",
        },
        CaseRule::K3 => Said {
            sentence: "a value is none that the name may have",
            remedy: "give 0, 1, FALSE or TRUE, and to an instance a code of its kind, such as 8000",
        },
        CaseRule::K4 => Said {
            sentence: "a time is before the scan before it, or it or a number is over 4,294,967,295",
            remedy: "count at and until from the last scan before the first case, and give later times",
        },
        CaseRule::K5 => Said {
            sentence: "nothing can be expected before the first scan of a case",
            remedy: "make a scan first, by a line +D, at or every",
        },
        CaseRule::K6 => Said {
            sentence: "the fault is outside its region, in another channel, at an earlier turn, or no scan follows",
            remedy: "see the sizes by plcsafe image; keep to one channel a case, and make a scan behind the fault",
        },
        CaseRule::K7 => Said {
            sentence: "the file passes a limit",
            remedy: "split it; docs/cases.md has the limits of lines, names, cases, faults, scans and the trace",
        },
    }
}

// What the first bytes of a file tell: a byte order mark has words of its own.
fn said_of_mark(text: &[u8]) -> Option<Said> {
    if text.starts_with(b"\xef\xbb\xbf") {
        return Some(Said {
            sentence: "the file begins with a byte order mark, and a case file has none",
            remedy: "save it as UTF-8 without a byte order mark",
        });
    }
    if text.starts_with(b"\xff\xfe") || text.starts_with(b"\xfe\xff") {
        return Some(Said {
            sentence: "the file is UTF-16, which a byte order mark tells, and a case file is UTF-8",
            remedy: "save it as UTF-8",
        });
    }
    None
}

// A line without the blanks before its first word.
fn unindented(line: &[u8]) -> &[u8] {
    let mut from = 0;
    while from < line.len() && (line[from] == b' ' || line[from] == b'\t') {
        from += 1;
    }
    &line[from..]
}

// What the first word of a line tells.
fn said_of_line(line: &[u8]) -> Said {
    let line = unindented(line);
    if line.is_empty() {
        return Said {
            sentence: "the file ends, and it has no case",
            remedy: "begin a case with a line case and its name",
        };
    }
    if line.starts_with(b"time") {
        return Said {
            sentence: "this is a trace, and a case file is asked",
            remedy: "give the case file; plcsafe runs traces",
        };
    }
    if line.starts_with(b"PROGRAM")
        || line.starts_with(b"FUNCTION_BLOCK")
        || line.starts_with(b"(*")
    {
        return Said {
            sentence: "this is an application, and a case file is asked",
            remedy: "name the application first, and then the case files",
        };
    }
    said_of_word(line)
}

// The form of the line that its first word begins.
fn form_of(line: &[u8]) -> &'static str {
    if line.starts_with(b"case") {
        return "give the case a name of 1 to 200 bytes, UTF-8 without control characters";
    }
    if line.starts_with(b"set") {
        return "the form is: set NAME=V NAME=V ..";
    }
    if line.starts_with(b"at") {
        return "the form is: at T NAME=V ..; T is a time in ms, and the settings may be left out";
    }
    if line.starts_with(b"+") {
        return "the form is: +D NAME=V ..; D is a number of ms, and the settings may be left out";
    }
    if line.starts_with(b"every") {
        return "the forms are: every D times N, every D for S, every D until T; for and until want a D over 0";
    }
    if line.starts_with(b"restart") {
        return "the form is: restart, and nothing more";
    }
    if line.starts_with(b"fault") {
        return "the forms are: fault A code OFFSET BYTES, fault turn TURN B memory OFFSET BYTES; TURN is over 0";
    }
    if line.starts_with(b"expect") {
        return "the forms are: expect CHECK .., expect within D CHECK .., expect for D CHECK ..";
    }
    "begin it with case, set, at, +D, every, restart, fault or expect (docs/cases.md)"
}

// What is said of a line that has none of the forms.
fn said_of_word(line: &[u8]) -> Said {
    Said {
        sentence: "the line has none of the forms of a case file",
        remedy: form_of(line),
    }
}

// What is said of a refusal of this text, at this line of it.
fn said_at(refusal: CaseRefusal, text: &[u8], line: &[u8]) -> Said {
    if refusal.rule != CaseRule::K1 {
        return said_of(refusal.rule);
    }
    match said_of_mark(text) {
        Some(said) => said,
        None => said_of_line(line),
    }
}

/// Line `number` of a text, counted from 1, without its line feed. It is empty where there is no such line.
pub(crate) fn line_at(text: &[u8], number: u32) -> &[u8] {
    match text
        .split(|byte| *byte == b'\n')
        .nth(number.saturating_sub(1) as usize)
    {
        Some(line) => line,
        None => &[],
    }
}

// Whether a byte goes into a part of a name.
fn is_of_name(byte: u8) -> bool {
    byte.is_ascii_alphanumeric() || byte == b'_'
}

/// Whether an application's text has this word, without letter case.
pub(crate) fn has_word(app: &[u8], word: &[u8]) -> bool {
    for other in app.split(|byte| !is_of_name(*byte)) {
        if other.eq_ignore_ascii_case(word) {
            return true;
        }
    }
    false
}

/// The first part of a name.
pub(crate) fn part_of(word: &[u8]) -> &[u8] {
    match word.split(|byte| !is_of_name(*byte)).next() {
        Some(part) => part,
        None => &[],
    }
}

// The first part of the name to which a word gives a value, or of which it expects one; empty where it is no such word.
fn first_part(word: &[u8]) -> &[u8] {
    if word.contains(&b'=') {
        part_of(word)
    } else {
        &[]
    }
}

/// The column of the first name of a line that stands nowhere in the application's text, counted from 1; 0 where there
/// is none among the first names.
pub(crate) fn unknown_column(app: &[u8], line: &[u8]) -> u32 {
    let mut column = 1;
    let mut names: u32 = 0;
    for word in line.split(|byte| *byte == b' ' || *byte == b'\t') {
        if word.starts_with(b"#") {
            return 0;
        }
        let part = first_part(word);
        if !part.is_empty() {
            if names == MOST_NAMES {
                return 0;
            }
            if !has_word(app, part) {
                return column;
            }
            names = names.saturating_add(1);
        }
        column = behind(column, word);
    }
    0
}

/// The column after a word that begins at this one, and after the blank that ends it.
pub(crate) fn behind(column: u32, word: &[u8]) -> u32 {
    let long = word.len().min(LONGEST_CASE_LINE as usize) as u32;
    column.saturating_add(long).saturating_add(1)
}

// The column that a refusal is about: of K2 that of the name that is unknown. 0 stands for the line.
fn column_of(refusal: CaseRefusal, app: &[u8], line: &[u8]) -> u32 {
    if refusal.rule != CaseRule::K2 {
        return 0;
    }
    unknown_column(app, line)
}

/// The message with this advice, and these further words, at a place of this text in the file of this name.
pub(crate) fn said_message(
    alloc: Global,
    advice: &Advice,
    words: &[u8],
    file: &[u8],
    text: &[u8],
    place: &Place,
) -> Result<Bytes, Memory>
    ensures { IfOk result (IsAdvised advice.now.name.now place.now.line file.now text.now) }
{
    advised_message(alloc, advice, words, file, text, place)
}

// The message of a refusal of the case file of this name and this text, for an application of this text: where, by
// which rule, what is wrong, the line, and what helps. Of an unknown name it says which.
pub(crate) fn case_message(
    alloc: Global,
    app: &[u8],
    file: &[u8],
    text: &[u8],
    refusal: CaseRefusal,
) -> Result<Bytes, Memory>
    ensures { IfOk result (IsAdvised (case_rule refusal.rule) refusal.line file.now text.now) }
{
    let line = line_at(text, refusal.line);
    let said = said_at(refusal, text, line);
    let column = column_of(refusal, app, line);
    let advice = Advice {
        name: rule_name(refusal.rule),
        sentence: said.sentence,
        of_name: if column == 0 { "" } else { UNKNOWN },
        remedy: said.remedy,
    };
    let place = Place {
        line: refusal.line,
        column,
    };
    said_message(alloc, &advice, &[], file, text, &place)
}
