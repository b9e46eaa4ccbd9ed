// The text of a certificate, as it is read.

ghost use Rattle.std.specs.Prelude.{◌≡◌, ◌≢◌, ◌++◌, IsTrue, false, ◌∷◌, ◌+◌, ◌<◌, ◌≤◌, ◌^◌, ◌==◌, ℕ, List, All, IfOk};
ghost use Rattle.std.specs.Prelude.{IfErr, IfSome, IfNone, OnOk, decimal, length, map, option_copied};
ghost use Rattle.ps_base.specs.declared.failing.Fail.TheVariants.{Refused};
ghost use Rattle.ps_flow.specs.declared.certificate.CertLine.{CertLine};
ghost use Rattle.ps_flow.specs.declared.certificate.LineRule.{LineRule};
ghost use Rattle.ps_flow.specs.Written.{rule_word, line_text};
ghost use Rattle.ps_flow.specs.Lines.{IsNumbered};
ghost use Rattle.ps_flow.specs.Read.{IsTooLarge, IsWithin, ReadsAs, lines_of};
ghost use Rattle.ps_flow.specs.Words.{words_in, words_left, HasNo};

use crate::certificate::{CertLine, Certificate, LineRule, Premises};
use crate::text::{LINE_FEED, SPACE};
use itoa::Buffer;
use ps_base::limits::{LARGEST_CERTIFICATE, MOST_CERTIFICATE_LINES};
use ps_base::{Fail, Memory, Place, Refusal, Rule};
use std::alloc::Global;
use std::str;

// What stands before the first such byte, and what stands after it.
fn split_once(text: &[u8], byte: u8) -> Option<(&[u8], &[u8])>
    ensures found { IfSome result (λ parts.
        (text.now ≡ parts.0.now ++ byte ∷ parts.1.now) × HasNo byte parts.0.now) }
    ensures none { IfNone result (HasNo byte text.now) }
{
    let at = text.iter().position(|b| *b == byte)?;
    Some((&text[..at], &text[at + 1..]))
}

// The first line of a text that has one, and the text after it.
fn first_line(text: &[u8]) -> (&[u8], &[u8])
    requires { 0 < length text.now }
    ensures lines { lines_of text.now ≡ result.0.now ∷ lines_of result.1.now }
    ensures less { length result.1.now < length text.now }
{
    match split_once(text, LINE_FEED) {
        Some(parts) => parts,
        None => (text, &[]),
    }
}

// The first word of a line, and what stands after the space after it.
fn first_word(line: &[u8]) -> (&[u8], Option<&[u8]>)
    ensures words { words_in line.now ≡ result.0.now ∷ words_left (option_copied result.1) }
    ensures less { IfSome result.1 (λ rest. length rest.now < length line.now) }
{
    match split_once(line, SPACE) {
        Some((word, rest)) => (word, Some(rest)),
        None => (line, None),
    }
}

// The number that a word says. It is printed again and compared, since `parse` also takes `007` and `+7`.
fn number(word: &[u8]) -> Option<u32>
    ensures some { IfSome result (λ n. word.now ≡ decimal n) }
    ensures none { IfNone result ((n : ℕ) → n < 2 ^ 32 → word.now ≢ decimal n) }
{
    let Ok(text) = str::from_utf8(word) else {
        return None;
    };
    let Ok(n) = text.parse::<u32>() else {
        return None;
    };
    let mut buffer = Buffer::new();
    if buffer.format(n).as_bytes() == word {
        Some(n)
    } else {
        None
    }
}

// The rule that a word names.
fn rule_named(word: &[u8]) -> Option<LineRule>
    ensures some { IfSome result (λ rule. word.now ≡ rule_word rule) }
    ensures none { IfNone result ((rule : LineRule) → word.now ≢ rule_word rule) }
{
    match word {
        b"SRC" => Some(LineRule::Src),
        b"AND" => Some(LineRule::And),
        b"OR" => Some(LineRule::Or),
        _ => None,
    }
}

// The numbers that the words of a line say, if all of them are numbers.
fn read_premises(alloc: Global, words: Option<&[u8]>) -> Result<Option<Premises>, Memory>
    ensures some { IfOk result (λ read. IfSome read (λ ps.
        (words_left (option_copied words.entry) ≡ map decimal ps) × All (λ p. p < 2 ^ 32) ps)) }
    ensures none { IfOk result (λ read. IfNone read ((ps : List ℕ) →
        All (λ p. p < 2 ^ 32) ps → words_left (option_copied words.entry) ≢ map decimal ps)) }
{
    let mut premises = Premises::new(alloc);
    let mut left = words;
    while let Some(line) = left {
        let (word, rest) = first_word(line);
        match number(word) {
            Some(premise) => premises.push(premise)?,
            None => return Ok(None),
        }
        left = rest;
    }
    Ok(Some(premises))
}

// The line that a text without line feeds is, if it is one.
fn read_line(alloc: Global, line: &[u8]) -> Result<Option<CertLine>, Memory>
    ensures some { IfOk result (λ read. IfSome read (λ l. IsNumbered l × (line.now ≡ line_text l))) }
    ensures none { IfOk result (λ read. IfNone read ((l : CertLine) → IsNumbered l → line.now ≢ line_text l)) }
{
    let (node_word, rest) = first_word(line);
    let Some(rest) = rest else {
        return Ok(None);
    };
    let (rule_word, rest) = first_word(rest);
    let Some(node) = number(node_word) else {
        return Ok(None);
    };
    let Some(rule) = rule_named(rule_word) else {
        return Ok(None);
    };
    match read_premises(alloc, rest)? {
        Some(premises) => Ok(Some(CertLine {
            node,
            rule,
            premises,
        })),
        None => Ok(None),
    }
}

// How many lines a text has.
fn line_count(text: &[u8]) -> usize
    ensures { result ≡ length (lines_of text.now) }
{
    let mut count = 0;
    let mut left = text;
    while !left.is_empty() {
        left = first_line(left).1;
        count += 1;
    }
    count
}

// Whether a text has over 40,000 lines or 1,048,576 bytes.
fn is_too_large(text: &[u8]) -> bool
    ensures large { IsTrue result → IsTooLarge text.now }
    ensures within { result ≡ false → IsWithin text.now }
{
    text.len() > LARGEST_CERTIFICATE as usize || line_count(text) > MOST_CERTIFICATE_LINES as usize
}

// The refusal of a line by a rule.
fn refused(rule: Rule, line: u32) -> Fail
    ensures { result ≡ Refused (record { rule = rule; place = record { line = line; column = 0 } }) }
{
    Fail::Refused(Refusal {
        rule,
        place: Place { line, column: 0 },
    })
}

/// The certificate that a text is, where the text is one that `write_certificate` gives, the last line feed possibly
/// missing. So numbers have no leading zeros, one space stands between words, words are capital, and no line is
/// skipped. A text without bytes is the certificate without lines.
///
/// Refused are, in this order, C2 at line 1 where the text has over 40,000 lines or 1,048,576 bytes, and C1 at the
/// first line that is not of the form. It reads each byte a fixed number of times.
pub fn read_certificate(alloc: Global, text: &[u8]) -> Result<Certificate, Fail>
    ensures { ReadsAs text.now result }
{
    if is_too_large(text) {
        return Err(refused(Rule::C2, 1));
    }
    let mut cert = Certificate::new(alloc);
    let mut left = text;
    while !left.is_empty() {
        let (line, rest) = first_line(left);
        match read_line(alloc, line)? {
            Some(line) => cert.push(line)?,
            None => return Err(refused(Rule::C1, cert.len() + 1)),
        }
        left = rest;
    }
    Ok(cert)
}
