// What a head says of its body.

ghost use Rattle.std.specs.Prelude.{◌≡◌, ◌<◌, ◌+◌, ◌^◌, ℕ, IfSome, IfNone};
ghost use Rattle.std.specs.Str.Parse.{IsNumeral, digits_value, without_leading_plus};
ghost use Rattle.ps_lsp_rpc.specs.Frames.{SaysFirst, SaysLength, SaysNoneBefore};

use ps_text::line_at;

// The name of the line that says the length, with its colon.
const NAME: &[u8] = b"Content-Length:";

/// The most lines of a head that are looked at.
pub const MOST_LINES: u32 = 32;

// The number of 32 bits that a word is, in decimal digits.
#[tactic(auto, using(crate::proofs::Saying::numeral_is_text))]
fn number_in(word: &[u8]) -> Option<u32>
    ensures some { IfSome result (λ n. IsNumeral 10 (without_leading_plus word.now)
        × (n ≡ digits_value 10 (without_leading_plus word.now))) }
    ensures small { IfSome result (λ n. n < 2 ^ 32) }
    ensures none { IfNone result (IsNumeral 10 (without_leading_plus word.now) →
        ¬ (digits_value 10 (without_leading_plus word.now) < 2 ^ 32)) }
{
    match std::str::from_utf8(word) {
        Ok(text) => text.parse::<u32>().ok(),
        Err(_) => None,
    }
}

// The length that a line says.
fn length_in(line: &[u8]) -> Option<u32>
    ensures some { IfSome result (SaysLength line.now) }
    ensures none { IfNone result ((n : ℕ) → ¬ (SaysLength line.now n)) }
{
    let (name, rest) = line.split_at(NAME.len().min(line.len()));
    if name.eq_ignore_ascii_case(NAME) {
        number_in(rest.trim_ascii())
    } else {
        None
    }
}

/// The length that the first such line of a head says, among its first lines.
#[tactic(auto, using(crate::proofs::Lengths::first_said))]
pub(crate) fn length_said(head: &[u8]) -> Option<u32>
    ensures some { IfSome result (SaysFirst head.now) }
    ensures none { IfNone result (SaysNoneBefore head.now (MOST_LINES + 1)) }
{
    'lines: for number in 1..MOST_LINES + 1 {
        match length_in(line_at(head, number)) {
            Some(length) => return Some(length),
            None => (),
        }
    }
    None
}
