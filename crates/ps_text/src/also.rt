// The lines of further refusals, after the message of the first one.

ghost use Rattle.std.specs.Prelude.{◌≡◌, ◌++◌, IfOk, OnOk};
ghost use Rattle.std.specs.List.{flat_map};
ghost use Rattle.ps_text.specs.Also.{also_line, also_text, more_text, rule_shown};

use crate::places::{MOST_OF_FILE, add_number, add_place};
use crate::quoted::{cut_at, line_at, name_of};
use crate::shown::add_last;
use ps_base::{Bytes, Memory, Refusal, Rule};
use ps_report::rule_name;
use std::alloc::Global;

// A rule, and the name at its place.
fn add_rule(message: &mut Bytes, rule: Rule, name: &[u8]) -> Result<(), Memory>
    ensures { OnOk result (message.new ≡ message.old ++ rule_shown rule name.now) }
{
    message.extend_from_slice(b": ")?;
    message.extend_from_slice(rule_name(rule).as_bytes())?;
    message.extend_from_slice(b": ")?;
    message.extend_from_slice(name)?;
    message.extend_from_slice(b"\n")?;
    Ok(())
}

// The line of a further refusal.
fn add_line(message: &mut Bytes, file: &[u8], text: &[u8], refusal: &Refusal) -> Result<(), Memory>
    ensures { OnOk result (message.new ≡ message.old ++ also_line file.now text.now refusal.now) }
{
    let place = &refusal.place;
    let (_front, back) = cut_at(line_at(text, place.line), place.column);
    add_last(message, file, MOST_OF_FILE)?;
    add_place(message, place.line, place.column)?;
    add_rule(message, refusal.rule, name_of(back))?;
    Ok(())
}

// How many more there are than are told, or nothing.
fn add_more(message: &mut Bytes, more: u32) -> Result<(), Memory>
    ensures { OnOk result (message.new ≡ message.old ++ more_text more) }
{
    if more == 0 {
        return Ok(());
    }
    add_number(message, b"and ", more)?;
    message.extend_from_slice(b" more\n")
}

/// The lines of further refusals of this text from a file of this name, which stand after the message of the first
/// one: for each where it is, its rule, and the name at its place; and then how many `more` there are than these. No
/// refusals and no more give no bytes. It takes time in proportion to the text for each refusal, so these are to be
/// few.
pub fn also_lines(
    alloc: Global,
    file: &[u8],
    text: &[u8],
    refusals: &[Refusal],
    more: u32,
) -> Result<Bytes, Memory>
    ensures says { IfOk result (λ bytes. bytes ≡ also_text file.now text.now refusals.now more) }
{
    let mut message = Bytes::new(alloc);
    for refusal in refusals {
        add_line(&mut message, file, text, refusal)?;
    }
    add_more(&mut message, more)?;
    Ok(message)
}
