// The text of an image.

ghost use Rattle.std.specs.Prelude.{◌≡◌, ◌++◌, ◌<◌, ◌*◌, IfOk, OnOk, length, take, decimal};
ghost use Rattle.ps_report.specs.Image.{image_part, size_line, code_line};

use crate::buffer::letter;
use itoa::Buffer;
use ps_base::{Bytes, Memory};
use ps_model::Channel;
use std::alloc::Global;

// The bytes of code in a full line.
const CODE_LINE: usize = 32;

// A word and a number at the end of a text.
fn add_number(text: &mut Bytes, word: &str, number: u64) -> Result<(), Memory>
    ensures { OnOk result (text.new ≡ text.old ++ word.now ++ decimal number) }
{
    let mut digits = Buffer::new();
    text.extend_from_slice(word.as_bytes())?;
    text.extend_from_slice(digits.format(number).as_bytes())?;
    Ok(())
}

// The line `A code 33 memory 97 turns 11` at the end of a text.
fn add_size_line(
    text: &mut Bytes,
    channel: Channel,
    code: u64,
    cells: u32,
    turns: u32,
) -> Result<(), Memory>
    ensures { OnOk result (text.new ≡ text.old ++ size_line channel code cells turns) }
{
    text.extend_from_slice(letter(channel).as_bytes())?;
    add_number(text, " code ", code)?;
    add_number(text, " memory ", u64::from(cells))?;
    add_number(text, " turns ", u64::from(turns))?;
    text.extend_from_slice(b"\n")?;
    Ok(())
}

// The first 32 of these bytes, or all where there are fewer.
#[tactic(auto, using(std::proofs::lemmas::List::take_min))]
fn front(bytes: &[u8]) -> &[u8]
    ensures { result.now ≡ take 32 bytes.now }
{
    &bytes[..CODE_LINE.min(bytes.len())]
}

// Line `i` of a code at the end of a text.
fn add_code_line(alloc: Global, text: &mut Bytes, code: &[u8], i: usize) -> Result<(), Memory>
    requires { 32 * i < length code.now }
    ensures { OnOk result (text.new ≡ text.old ++ code_line code.now i) }
{
    let digits = hex::encode(alloc, front(&code[CODE_LINE * i..]))?;
    text.extend_from_slice(digits.as_bytes())?;
    text.extend_from_slice(b"\n")?;
    Ok(())
}

/// A channel's part of the text of an image: the line `A code 33 memory 97 turns 11` with the length of the code in
/// bytes, the length of the cells in bytes and the budget of turns, and then the code in lower-case hexadecimal, 32
/// bytes a line.
pub fn image_text(
    alloc: Global,
    channel: Channel,
    code: &[u8],
    cells: u32,
    turns: u32,
) -> Result<Bytes, Memory>
    ensures { IfOk result (λ text. text ≡ image_part channel code.now cells turns) }
{
    let mut text = Bytes::new(alloc);
    add_size_line(&mut text, channel, code.len() as u64, cells, turns)?;
    for i in 0..code.len().div_ceil(CODE_LINE) {
        add_code_line(alloc, &mut text, code, i)?;
    }
    Ok(text)
}
