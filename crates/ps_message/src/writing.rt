// The whole message.

ghost use Rattle.std.specs.Prelude.{◌≡◌, ◌<◌, ◌≤◌, ◌^◌, ◌++◌, codes, decimal, length, IfOk, IsTrue, OnOk};
ghost use Rattle.ps_message.specs.Message.{further, heading, reason, reference, remedy, message_text, IsOf, Says};
ghost use Rattle.ps_message.specs.Message.{SaysPlainly, is_short, plain_text, unended};
ghost use Rattle.ps_text.specs.Lines.{IsEnded};
ghost use Rattle.ps_text.specs.Quoted.{line_of, behind, name_at, quoted};

use crate::advice::Advice;
use crate::hints::{advice_at, advice_behind, advice_on_none};
use ps_base::{Bytes, Memory, Place, Refusal, Rule};
use ps_text::{
    MOST_OF_FILE, add_first, add_last, add_number, add_quoted, cut_at, further_on, is_bare,
    line_at, line_before, name_of,
};
use std::alloc::Global;

/// The most bytes of a message.
pub const LONGEST_MESSAGE: usize = 3_000;

// The most bytes of further words that are shown.
const MOST_FURTHER: usize = 200;

// Where the refusal is and by which rule.
fn add_heading(
    message: &mut Bytes,
    file: &[u8],
    place: &Place,
    advice: &Advice,
) -> Result<(), Memory>
    ensures { OnOk result (message.new ≡ message.old ++ heading file.now place.now advice.now) }
{
    add_last(message, file, MOST_OF_FILE)?;
    add_number(message, b":", place.line)?;
    if place.column > 0 {
        add_number(message, b":", place.column)?;
    }
    message.extend_from_slice(b": ")?;
    message.extend_from_slice(advice.name.as_bytes())?;
    message.extend_from_slice(b": ")
}

// What is wrong, in a line.
fn add_reason(message: &mut Bytes, advice: &Advice, name: &[u8]) -> Result<(), Memory>
    ensures { OnOk result (message.new ≡ message.old ++ reason advice.now name.now ++ codes "\n") }
{
    if name.is_empty() || advice.of_name.is_empty() {
        message.extend_from_slice(advice.sentence.as_bytes())?;
    } else {
        message.extend_from_slice(name)?;
        message.extend_from_slice(advice.of_name.as_bytes())?;
    }
    message.extend_from_slice(b"\n")
}

// Further words in a line of their own, or nothing.
fn add_further(message: &mut Bytes, words: &[u8]) -> Result<(), Memory>
    ensures { OnOk result (message.new ≡ message.old ++ further words.now) }
{
    if words.is_empty() {
        return Ok(());
    }
    add_first(message, words, MOST_FURTHER)?;
    message.push(b'\n')
}

// Where more is said of the rule, and the end of the line.
fn add_reference(message: &mut Bytes, advice: &Advice) -> Result<(), Memory>
    ensures { OnOk result (message.new ≡ message.old ++ reference advice.now) }
{
    message.extend_from_slice(b" (docs/refusals.md, ")?;
    message.extend_from_slice(advice.name.as_bytes())?;
    message.extend_from_slice(b")\n")?;
    Ok(())
}

// What helps, in a line.
fn add_remedy(message: &mut Bytes, advice: &Advice) -> Result<(), Memory>
    ensures { OnOk result (message.new ≡ message.old ++ remedy advice.now) }
{
    message.extend_from_slice(advice.remedy.as_bytes())?;
    add_reference(message, advice)
}

/// The message with this advice at a place in this text from a file of this name, in the form of `message`, with these
/// further words below the line. A place with column 0 is a line alone. It takes time linear in the text.
pub fn advised_message(
    alloc: Global,
    advice: &Advice,
    words: &[u8],
    file: &[u8],
    text: &[u8],
    place: &Place,
) -> Result<Bytes, Memory>
    ensures says { IfOk result (λ bytes. bytes ≡ message_text advice.now words.now file.now text.now place.now) }
    ensures numbers { (place.now.line < 2 ^ 32) × (place.now.column < 2 ^ 32) }
{
    let here = line_at(text, place.line);
    let (_front, back) = cut_at(here, place.column);
    let mut message = Bytes::new(alloc);
    add_heading(&mut message, file, place, advice)?;
    add_reason(&mut message, advice, name_of(back))?;
    add_quoted(&mut message, here, place.column)?;
    add_further(&mut message, words)?;
    add_remedy(&mut message, advice)?;
    Ok(message)
}

// What is said of a rule at a place in a text; of the rule alone where the text has nothing.
fn advice_of(rule: Rule, text: &[u8], place: &Place) -> Advice
    ensures name { IsOf rule result }
    ensures short { IsTrue (is_short result) }
{
    if is_bare(text) {
        return advice_on_none(rule);
    }
    let (front, back) = cut_at(line_at(text, place.line), place.column);
    if rule == Rule::P1 && is_bare(front) {
        if let Some(advice) = advice_behind(rule, line_before(text, place.line)) {
            return advice;
        }
    }
    advice_at(rule, place.line, front, back)
}

/// The message of a refusal of this text from a file of this name: where and by which rule, what is wrong, the line of
/// the place with a caret under it, and what helps. Where the bytes at the place tell what was meant, as a word of
/// another language, the message speaks of that. Where the text could not be read it is empty here. Every byte of the
/// file's name and of the line that is no printable ASCII character stands as an escape, as `\x1b`. Of a long name the
/// last 255 bytes are shown, and of a line up to 40 bytes before the place and 60 from it on. A place with column 0 is
/// a line alone, and has no caret; a line without bytes, or one that there is not, is not quoted. Below it stand
/// further words: those that are given, or a second line that the refusal rests on, as the header of a trace. The
/// message has at most `LONGEST_MESSAGE` bytes, however long the text is, and takes time linear in the text.
pub fn message(
    alloc: Global,
    file: &[u8],
    text: &[u8],
    refusal: &Refusal,
    words: &[u8],
) -> Result<Bytes, Memory>
    ensures says { IfOk result (λ bytes. Says file.now text.now refusal.now words.now bytes) }
    ensures bounded { IfOk result (λ bytes. length bytes ≤ LONGEST_MESSAGE) }
    ensures ended { IfOk result IsEnded }
{
    let place = &refusal.place;
    let advice = advice_of(refusal.rule, text, place);
    let further = further_on(alloc, text, refusal, words)?;
    advised_message(alloc, &advice, further.as_slice(), file, text, place)
}

/// Lines without the end of the last one.
pub(crate) fn unended(alloc: Global, lines: &[u8]) -> Result<Bytes, Memory>
    ensures { IfOk result (λ bytes. bytes ≡ unended lines.now) }
{
    Bytes::from_slice(alloc, &lines[..lines.len().saturating_sub(1)])
}

// The message with this advice at a place in this text, and with these further words, without the place and the line.
fn plainly_advised(
    alloc: Global,
    advice: &Advice,
    words: &[u8],
    text: &[u8],
    place: &Place,
) -> Result<Bytes, Memory>
    ensures { IfOk result (λ bytes. bytes ≡ plain_text advice.now words.now text.now place.now) }
{
    let (_front, back) = cut_at(line_at(text, place.line), place.column);
    let mut message = Bytes::new(alloc);
    add_reason(&mut message, advice, name_of(back))?;
    add_further(&mut message, words)?;
    add_remedy(&mut message, advice)?;
    unended(alloc, message.as_slice())
}

/// The message of a refusal of this text, in the form of `message`, for who shows its place himself: without the place,
/// the rule and the line that is quoted. So it is what is wrong, further words if there are any, and what helps, each
/// in a line; the last line has no end.
pub fn plain_message(
    alloc: Global,
    text: &[u8],
    refusal: &Refusal,
    words: &[u8],
) -> Result<Bytes, Memory>
    ensures { IfOk result (SaysPlainly text.now refusal.now words.now) }
{
    let place = &refusal.place;
    let advice = advice_of(refusal.rule, text, place);
    let further = further_on(alloc, text, refusal, words)?;
    plainly_advised(alloc, &advice, further.as_slice(), text, place)
}
