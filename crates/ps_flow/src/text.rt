// The text of a certificate, as it is written.

ghost use Rattle.std.specs.Prelude.{◌≡◌, ◌++◌, OnOk, IfOk, decimal};
ghost use Rattle.ps_flow.specs.Written.{rule_word, line_text, written};

use crate::certificate::{CertLine, Certificate, LineRule};
use itoa::Buffer;
use ps_base::{Bytes, Memory};
use std::alloc::Global;

/// What stands between the words of a line.
pub const SPACE: u8 = b' ';
/// What ends a line.
pub const LINE_FEED: u8 = b'\n';

// Writes a number at the end.
fn write_number(n: u32, text: &mut Bytes) -> Result<(), Memory>
    ensures { OnOk result (text.new ≡ text.old ++ decimal n) }
{
    let mut buffer = Buffer::new();
    text.extend_from_slice(buffer.format(n).as_bytes())
}

// The word of a rule.
fn rule_text(rule: LineRule) -> &'static str
    ensures { result.now ≡ rule_word rule }
{
    match rule {
        LineRule::Src => "SRC",
        LineRule::And => "AND",
        LineRule::Or => "OR",
    }
}

// Writes a line without its end.
fn write_line(line: &CertLine, text: &mut Bytes) -> Result<(), Memory>
    ensures { OnOk result (text.new ≡ text.old ++ line_text line.now) }
{
    write_number(line.node, text)?;
    text.push(SPACE)?;
    text.extend_from_slice(rule_text(line.rule).as_bytes())?;
    for premise in line.premises.as_slice() {
        text.push(SPACE)?;
        write_number(*premise, text)?;
    }
    Ok(())
}

/// The text of a certificate: a line for each of its lines, with the node, the rule and the premises as decimal
/// numbers and capital words, one space between them and a line feed at the end. A certificate without lines has
/// the text without bytes.
pub fn write_certificate(alloc: Global, cert: &Certificate) -> Result<Bytes, Memory>
    ensures { IfOk result (λ text. text ≡ written cert.now) }
{
    let mut text = Bytes::new(alloc);
    for line in cert.lines() {
        write_line(line, &mut text)?;
        text.push(LINE_FEED)?;
    }
    Ok(text)
}
