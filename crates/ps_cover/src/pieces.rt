// Pieces of what is told.

ghost use Rattle.std.specs.Prelude.{◌≡◌, ◌<◌, ◌+◌, ◌++◌, OnOk, decimal, slice_index};
ghost use Rattle.std.specs.Char.{to_ascii_uppercase};
ghost use Rattle.hex.specs.Hex.{lower_digits};
ghost use Rattle.ps_report.specs.Lines.{code_text};
ghost use Rattle.ps_cover.specs.Lines.{joined_by, json_truth, state_text, truth};
ghost use Rattle.ps_cover.specs.Text.{excluded_text};

use itoa::Buffer;
use ps_base::{Bytes, Memory};
use ps_model::Kind;
use ps_ways::state_words;

/// Puts a number in decimal digits.
pub(crate) fn add_number(text: &mut Bytes, number: u64) -> Result<(), Memory>
    ensures { OnOk result (text.new ≡ text.old ++ decimal number) }
{
    let mut digits = Buffer::new();
    text.extend_from_slice(digits.format(number).as_bytes())
}

/// Puts how many are excluded, where some are.
pub(crate) fn add_excluded(text: &mut Bytes, excluded: usize) -> Result<(), Memory>
    ensures { OnOk result (text.new ≡ text.old ++ excluded_text excluded) }
{
    if excluded == 0 {
        return Ok(());
    }
    text.extend_from_slice(b" (")?;
    add_number(text, excluded as u64)?;
    text.extend_from_slice(b" excluded)")
}

/// Puts the number of a place that is counted from 0, from 1 on.
pub(crate) fn add_ordinal(text: &mut Bytes, place: usize) -> Result<(), Memory>
    ensures { OnOk result (text.new ≡ text.old ++ decimal (place + 1)) }
{
    let mut digits = Buffer::new();
    let number = place as u128 + 1;
    text.extend_from_slice(digits.format(number).as_bytes())
}

// The capital hexadecimal digit of a number up to 15.
fn capital_digit(n: u8) -> u8
    requires { n < 16 }
    ensures { result ≡ to_ascii_uppercase (slice_index lower_digits n) }
{
    b"0123456789ABCDEF"[usize::from(n)]
}

// A DiagCode in four capital hexadecimal digits.
#[tactic(auto, unfolding(hex::specs::Hex::encode_with))]
fn code_digits(code: u16) -> [u8; 4]
    ensures { result ≡ code_text code }
{
    let [high, low] = code.to_be_bytes();
    [
        capital_digit(high / 16),
        capital_digit(high % 16),
        capital_digit(low / 16),
        capital_digit(low % 16),
    ]
}

/// Puts a DiagCode.
pub(crate) fn add_code(text: &mut Bytes, code: u16) -> Result<(), Memory>
    ensures { OnOk result (text.new ≡ text.old ++ code_text code) }
{
    text.extend_from_slice(&code_digits(code))
}

/// Puts a state of a kind, as `8004 waiting for switch 2`.
pub(crate) fn add_state(text: &mut Bytes, kind: Kind, code: u16) -> Result<(), Memory>
    ensures { OnOk result (text.new ≡ text.old ++ state_text kind code) }
{
    add_code(text, code)?;
    if let Some(words) = state_words(kind, code) {
        text.extend_from_slice(b" ")?;
        text.extend_from_slice(words.as_bytes())?;
    }
    Ok(())
}

/// A truth value in capitals.
pub(crate) fn truth(value: bool) -> &'static [u8]
    ensures { result.now ≡ truth value }
{
    if value { b"TRUE" } else { b"FALSE" }
}

/// A truth value as JSON has it.
pub(crate) fn json_truth(value: bool) -> &'static [u8]
    ensures { result.now ≡ json_truth value }
{
    if value { b"true" } else { b"false" }
}

/// What an operand is of.
pub(crate) fn joined_by(of_and: bool) -> &'static [u8]
    ensures { result.now ≡ joined_by of_and }
{
    if of_and { b"AND" } else { b"OR" }
}
