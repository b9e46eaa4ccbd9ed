// What is said where bytes of another language, or of another kind of text, stand at the place.

ghost use Rattle.std.specs.Prelude.{IsTrue, IfSome};
ghost use Rattle.ps_message.specs.Message.{IsOf, is_short};

use crate::advice::{Advice, advice_on};
use crate::hint::{Hint, hinted};
use ps_base::Rule;
use ps_text::{
    before_last_word, first_word, is_of_word, last_word, without_blanks, without_front_blanks,
};

// Words that the language has not, each with what is said of it.
const OTHER_WORDS: &[(&str, Hint)] = &[
    ("NOT", Hint::Inverting),
    ("XOR", Hint::Differing),
    ("IF", Hint::Branching),
    ("THEN", Hint::Branching),
    ("ELSE", Hint::Branching),
    ("ELSIF", Hint::Branching),
    ("END_IF", Hint::Branching),
    ("CASE", Hint::Branching),
    ("END_CASE", Hint::Branching),
    ("FOR", Hint::Branching),
    ("WHILE", Hint::Branching),
    ("REPEAT", Hint::Branching),
    ("RETURN", Hint::Branching),
    ("VAR_IN_OUT", Hint::Section),
    ("VAR_GLOBAL", Hint::Section),
    ("VAR_EXTERNAL", Hint::Section),
    ("VAR_TEMP", Hint::Section),
    ("FUNCTION", Hint::Section),
    ("TYPE", Hint::Section),
    ("CONFIGURATION", Hint::Section),
    ("CONSTANT", Hint::Section),
    ("RETAIN", Hint::Section),
    ("AT", Hint::Section),
    ("TON", Hint::Timing),
    ("TOF", Hint::Timing),
    ("TP", Hint::Timing),
    ("CTU", Hint::Timing),
    ("CTD", Hint::Timing),
    ("CTUD", Hint::Timing),
    ("R_TRIG", Hint::Timing),
    ("F_TRIG", Hint::Timing),
    ("RS", Hint::Timing),
    ("SR", Hint::Timing),
    ("INT", Hint::Number),
    ("DINT", Hint::Number),
    ("UINT", Hint::Number),
    ("UDINT", Hint::Number),
    ("SINT", Hint::Number),
    ("REAL", Hint::Number),
    ("LREAL", Hint::Number),
    ("BYTE", Hint::Number),
    ("WORD", Hint::Number),
    ("DWORD", Hint::Number),
    ("TIME", Hint::Number),
    ("SAFEINT", Hint::Number),
    ("SAFEWORD", Hint::Number),
    ("SAFETIME", Hint::Number),
    ("STRING", Hint::Number),
];

// What is said of a word that the language has not.
fn hint_on_word(word: &[u8]) -> Option<Hint> {
    for (other, hint) in OTHER_WORDS {
        if word.eq_ignore_ascii_case(other.as_bytes()) {
            return Some(*hint);
        }
    }
    None
}

// Whether a word joins two values.
fn joins(word: &[u8]) -> bool {
    word.eq_ignore_ascii_case(b"AND") || word.eq_ignore_ascii_case(b"OR")
}

// Whether a value is asked after these bytes.
fn asks_value(front: &[u8]) -> bool {
    let word = last_word(front);
    front.ends_with(b":=") || front.ends_with(b"&") || joins(word)
}

// Whether a value without the name of its pin ends these bytes.
fn ends_unnamed(front: &[u8]) -> bool {
    let word = last_word(front);
    !word.is_empty() && asks_pin(without_blanks(before_last_word(front)))
}

// Whether the name of a pin is asked after these bytes.
fn asks_pin(front: &[u8]) -> bool {
    front.ends_with(b"(") || front.ends_with(b",")
}

// Whether the type of a declaration ends these bytes.
fn ends_with_type(front: &[u8]) -> bool {
    let word = last_word(front);
    word.eq_ignore_ascii_case(b"SAFEBOOL") || word.eq_ignore_ascii_case(b"BOOL")
}

// Whether a word is a keyword that might be meant as a name.
fn is_keyword(word: &[u8]) -> bool {
    joins(word) || is_constant(word)
}

// Whether a word is a value that stands at pins alone.
fn is_constant(word: &[u8]) -> bool {
    word.eq_ignore_ascii_case(b"TRUE") || word.eq_ignore_ascii_case(b"FALSE")
}

// Whether a word begins a section of declarations.
fn opens_section(word: &[u8]) -> bool {
    word.eq_ignore_ascii_case(b"VAR_INPUT")
        || word.eq_ignore_ascii_case(b"VAR_OUTPUT")
        || word.eq_ignore_ascii_case(b"VAR")
}

// Whether a head ends these bytes: PROGRAM or FUNCTION_BLOCK, and a name.
fn ends_with_head(front: &[u8]) -> bool {
    let keyword = last_word(without_blanks(before_last_word(front)));
    keyword.eq_ignore_ascii_case(b"PROGRAM") || keyword.eq_ignore_ascii_case(b"FUNCTION_BLOCK")
}

// Whether nothing is to be ended by a semicolon after these bytes.
fn ends_already(front: &[u8]) -> bool {
    let word = last_word(front);
    front.ends_with(b";")
        || ends_with_head(front)
        || word.eq_ignore_ascii_case(b"END_VAR")
        || word.eq_ignore_ascii_case(b"END_PROGRAM")
        || word.eq_ignore_ascii_case(b"END_FUNCTION_BLOCK")
}

// What is said of a sign that does not fit after these bytes.
fn hint_on_sign(front: &[u8], back: &[u8]) -> Hint {
    if asks_value(front) {
        Hint::Valueless
    } else if back.starts_with(b";") && ends_already(front) {
        Hint::Empty
    } else if front.ends_with(b",") {
        Hint::Comma
    } else if (back.starts_with(b",") || back.starts_with(b")")) && ends_unnamed(front) {
        Hint::Unnamed
    } else if back.starts_with(b";") {
        Hint::Early
    } else if back.starts_with(b":=") && ends_with_type(front) {
        Hint::Initial
    } else {
        Hint::Sign
    }
}

// Whether a trace or a fault file begins with a word.
fn begins_other(word: &[u8]) -> bool {
    word == b"time".as_slice() || word == b"before".as_slice()
}

// Whether a word is one of the keywords that stand as names by mistake.
fn is_any_keyword(word: &[u8]) -> bool {
    is_keyword(word) || opens_section(word) || word.eq_ignore_ascii_case(b"PROGRAM")
}

// Whether a word stands where the name of a declaration does: a colon or a comma follows it.
fn is_declared(back: &[u8], word: &[u8]) -> bool {
    let behind = without_front_blanks(&back[word.len().min(back.len())..]);
    !behind.starts_with(b":=") && (behind.starts_with(b":") || behind.starts_with(b","))
}

// What is said of the first token of a text or a line that does not fit, by the bytes from it on.
fn hint_on_first(line: u32, back: &[u8]) -> Hint {
    let here = first_word(back);
    if line == 1 {
        Hint::Beginning
    } else if back.starts_with(b";") {
        Hint::Empty
    } else if is_declared(back, here) && is_any_keyword(here) {
        Hint::Keyword
    } else if begins_application(back) {
        Hint::Behind
    } else if opens_section(here) {
        Hint::Opening
    } else {
        Hint::Unfinished
    }
}

// What is said of a token that does not fit, by what stands before it in its line and from it on.
fn hint_on_grammar(line: u32, front: &[u8], back: &[u8]) -> Option<Hint> {
    if back.is_empty() {
        return Some(Hint::Ending);
    }
    let before = without_blanks(front);
    let here = first_word(back);
    if line == 1 && before.is_empty() && begins_other(here) {
        return Some(Hint::OtherGiven);
    }
    if let Some(hint) = hint_on_word(here) {
        return Some(hint);
    }
    if let Some(hint) = hint_on_word(last_word(before)) {
        return Some(hint);
    }
    if before.is_empty() {
        return Some(hint_on_first(line, back));
    }
    if joins(here) && asks_value(before) {
        return Some(Hint::Valueless);
    }
    if is_constant(here) && asks_value(before) {
        return Some(Hint::Constant);
    }
    if is_constant(here) && asks_pin(before) {
        return Some(Hint::Unnamed);
    }
    if is_keyword(here) {
        return Some(Hint::Keyword);
    }
    if here.is_empty() {
        return Some(hint_on_sign(before, back));
    }
    if last_word(before).is_empty() {
        return None;
    }
    Some(Hint::Joining)
}

// What is said of a literal that is not the whole argument of a pin, by what stands before it in its line and from it
// on.
fn hint_on_literal(front: &[u8], back: &[u8]) -> Option<Hint> {
    let before = without_blanks(front);
    let here = first_word(back);
    let behind = without_front_blanks(&back[here.len().min(back.len())..]);
    let is_joined = behind.starts_with(b"&") || joins(first_word(behind));
    if before.ends_with(b":=") && !is_joined {
        Some(Hint::Assigned)
    } else if is_constant(here) && !before.ends_with(b"(") {
        Some(Hint::Constant)
    } else {
        None
    }
}

// Whether bytes begin as no text in ASCII or UTF-8 does.
fn is_wide(bytes: &[u8]) -> bool {
    matches!(bytes, [0xFF, 0xFE, ..] | [0xFE, 0xFF, ..] | [0, ..])
}

// What is said of a byte that begins no token.
fn hint_on_byte(front: &[u8], back: &[u8]) -> Option<Hint> {
    match back {
        _ if is_wide(back) => Some(Hint::Wide),
        [0xEF, 0xBB, 0xBF, ..] => Some(Hint::ByteOrderMark),
        [0xC2, 0xA0, ..] | [0xE2, 0x80, 0xAF, ..] => Some(Hint::HardBlank),
        [0xE2, 0x80, ..] | [0xE2, 0x81, 0xA0..=0xA9, ..] | [0xE2, 0x88, 0x92, ..] => {
            Some(Hint::Typographic)
        }
        [b'=', b'>', ..] => Some(Hint::Arrow),
        [b'=', ..] => Some(Hint::Equals),
        [b'|', ..] => Some(Hint::Bar),
        [b'!', ..] => Some(Hint::Inverting),
        [b'"' | b'\'', ..] => Some(Hint::Quoted),
        [b'#', ..] => Some(Hint::Comment),
        [b'%', ..] => Some(Hint::Address),
        [b'+' | b'-' | b'*' | b'/' | b'<' | b'>', ..] => Some(Hint::Arithmetic),
        [byte, ..] if *byte >= 0x80 => Some(Hint::Letter),
        [byte, ..] if byte.is_ascii_digit() && front.is_empty() => Some(Hint::OtherGiven),
        [byte, ..] if byte.is_ascii_digit() => Some(Hint::Digit),
        _ => None,
    }
}

// Whether a TIME literal at the beginning of bytes goes on with a digit after a comma.
fn has_decimal_comma(bytes: &[u8]) -> bool {
    let mut is_behind = false;
    for byte in bytes {
        if is_behind {
            return byte.is_ascii_digit();
        }
        is_behind = *byte == b',';
        if !is_behind && !is_of_word(*byte) && *byte != b'#' && *byte != b'.' {
            return false;
        }
    }
    false
}

// Whether a line begins as one of an application does.
fn begins_application(line: &[u8]) -> bool {
    let word = first_word(line);
    line.starts_with(b"(*")
        || line.starts_with(b"//")
        || word.eq_ignore_ascii_case(b"PROGRAM")
        || word.eq_ignore_ascii_case(b"FUNCTION_BLOCK")
}

// Whether a line has a comma or a semicolon.
fn has_separators(line: &[u8]) -> bool {
    line.contains(&b',') || line.contains(&b';')
}

// What is said of a line of a trace.
fn hint_on_trace(rule: Rule, line: &[u8]) -> Option<Hint> {
    if line.starts_with(&[0xEF, 0xBB, 0xBF]) {
        return Some(Hint::ByteOrderMark);
    }
    if rule == Rule::T1 && begins_application(line) {
        return Some(Hint::ApplicationGiven);
    }
    if rule == Rule::T1 && first_word(line) == b"before".as_slice() {
        return Some(Hint::Swapped);
    }
    if has_separators(line) {
        return Some(Hint::Separators);
    }
    if rule == Rule::T1 && first_word(line).eq_ignore_ascii_case(b"time") {
        return Some(Hint::SmallTime);
    }
    if line.ends_with(b"\r") {
        return Some(Hint::LoneReturn);
    }
    None
}

// What is said of a line of a certificate.
fn hint_on_certificate(line: &[u8]) -> Option<Hint> {
    if begins_application(line) {
        return Some(Hint::ApplicationGiven);
    }
    if line.ends_with(b"\r") {
        return Some(Hint::ReturnInCertificate);
    }
    None
}

// What is said of a line of a fault file.
fn hint_on_faults(line: &[u8]) -> Option<Hint> {
    if begins_application(line) {
        return Some(Hint::ApplicationGiven);
    }
    if first_word(line) == b"time".as_slice() {
        return Some(Hint::Swapped);
    }
    if has_separators(line) {
        return Some(Hint::Separators);
    }
    for word in line.split(|byte| *byte == b' ') {
        if word == b"C".as_slice() {
            return Some(Hint::ThirdChannel);
        }
    }
    None
}

// What was most likely meant, where `front` stands before the place in its line and `back` from the place on.
fn hint_at(rule: Rule, line: u32, front: &[u8], back: &[u8]) -> Option<Hint> {
    match rule {
        Rule::L1 => hint_on_byte(front, back),
        Rule::L3 if has_decimal_comma(back) => Some(Hint::DecimalComma),
        Rule::P1 => hint_on_grammar(line, front, back),
        Rule::B2 | Rule::N2 | Rule::N3 => hint_on_word(first_word(back)),
        Rule::N12 => hint_on_literal(front, back),
        Rule::C1 | Rule::T1 | Rule::F1 if is_wide(back) => Some(Hint::Wide),
        Rule::C1 => hint_on_certificate(back),
        Rule::T1 | Rule::T2 | Rule::T4 | Rule::T5 | Rule::T6 => hint_on_trace(rule, back),
        Rule::F1 => hint_on_faults(back),
        _ => None,
    }
}

/// What is said of a rule where a text has nothing that was read.
pub(crate) fn advice_on_none(rule: Rule) -> Advice
    ensures name { IsOf rule result }
    ensures short { IsTrue (is_short result) }
{
    let advice = advice_on(rule);
    match rule {
        Rule::P1 => hinted(advice, Hint::Bare),
        _ => advice,
    }
}

// What is said of a token that begins a line, by the line before it: a section that the language has not, or the end
// of the program.
fn hint_behind(before: &[u8]) -> Option<Hint> {
    for word in [first_word(before), last_word(before)] {
        match hint_on_word(word) {
            Some(Hint::Section) => return Some(Hint::Section),
            _ => (),
        }
    }
    if first_word(before).eq_ignore_ascii_case(b"END_PROGRAM") {
        return Some(Hint::Behind);
    }
    None
}

/// What is said of a token that does not fit and begins a line, by the line before it, where that tells what was meant.
pub(crate) fn advice_behind(rule: Rule, before: &[u8]) -> Option<Advice>
    ensures { IfSome result (λ advice. IsOf rule advice × IsTrue (is_short advice)) }
{
    match hint_behind(before) {
        Some(hint) => Some(hinted(advice_on(rule), hint)),
        None => None,
    }
}

/// What is said of a rule at a place in this line, before which `front` stands and from which on `back`: of what was
/// most likely meant, where that can be told, and else of the rule.
pub(crate) fn advice_at(rule: Rule, line: u32, front: &[u8], back: &[u8]) -> Advice
    ensures name { IsOf rule result }
    ensures short { IsTrue (is_short result) }
{
    let advice = advice_on(rule);
    match hint_at(rule, line, front, back) {
        Some(hint) => hinted(advice, hint),
        None => advice,
    }
}
