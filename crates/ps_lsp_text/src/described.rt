// Kinds and pins in words.

ghost use Rattle.hex.specs.Hex.{lower_digits};
ghost use Rattle.std.specs.Prelude.{◌≡◌, ◌<◌, ℕ, Option, IfSome, IfNone, slice_index};
ghost use Rattle.std.specs.Char.{to_ascii_uppercase};
ghost use Rattle.ps_model.specs.Pins.{pin_count};
ghost use Rattle.ps_report.specs.Lines.{code_text};
ghost use Rattle.ps_lsp_text.specs.Made.{Extends};
ghost use Rattle.ps_lsp_text.specs.Describing.{kind_text, pin_text, pins_below, role_text, state_line, states_below, type_text};
ghost use Rattle.ps_lsp_text.specs.Hovering.{IsPinOf, section_text};

use crate::made::MadeText;
use ps_lexer::Word;
use ps_model::{Kind, PinRow, Ty, input_count, kind_name, pin_count, pin_name, pin_row};
use ps_ways::state_words;

/// The name of a type.
pub(crate) fn type_name(ty: Ty) -> &'static [u8]
    ensures { result.now ≡ type_text ty }
{
    match ty {
        Ty::Safe => b"SAFEBOOL",
        Ty::Bool => b"BOOL",
        Ty::Time => b"TIME",
    }
}

// What a pin is, by its row.
fn role(row: PinRow) -> &'static [u8]
    ensures { result.now ≡ role_text row }
{
    match (row.is_input, row.ty, row.free) {
        (false, _, _) => b", output",
        (true, Ty::Time, _) => b", input, 0 ms where it is free",
        (true, _, true) => b", input, TRUE where it is free",
        (true, _, false) => b", input, FALSE where it is free",
    }
}

/// What is said of a pin of a kind, after a text.
pub(crate) fn add_pin(text: &mut MadeText, kind: Kind, pin: u8)
    ensures { Extends text.old text.new (pin_text kind pin) }
{
    if pin >= pin_count(kind) {
        return;
    }
    let row = pin_row(kind, pin);
    text.add(pin_name(kind, pin).as_bytes());
    text.add(b" : ");
    text.add(type_name(row.ty));
    text.add(role(row));
}

// The capital hexadecimal digit of a number up to 15.
fn capital_digit(n: u8) -> u8
    requires { n < 16 }
    ensures { result ≡ to_ascii_uppercase (slice_index lower_digits n) }
{
    b"0123456789ABCDEF"[usize::from(n)]
}

// A DiagCode in four capital hexadecimal digits.
#[tactic(auto, unfolding(hex::specs::Hex::encode_with))]
fn code_digits(code: u16) -> [u8; 4]
    ensures { result ≡ code_text code }
{
    let [high, low] = code.to_be_bytes();
    [
        capital_digit(high / 16),
        capital_digit(high % 16),
        capital_digit(low / 16),
        capital_digit(low % 16),
    ]
}

// A state of a kind, in a line: its DiagCode, and what it is called. Nothing where the kind has no such code.
fn add_state(text: &mut MadeText, kind: Kind, code: u16)
    ensures { Extends text.old text.new (state_line kind code) }
{
    if let Some(words) = state_words(kind, code) {
        text.add(b"\n");
        text.add(&code_digits(code));
        text.add(b" ");
        text.add(words.as_bytes());
    }
}

// The states of a kind by their DiagCodes, each in a line.
fn add_states(text: &mut MadeText, kind: Kind)
    ensures { Extends text.old text.new (states_below kind 65536) }
{
    for code in 0..65_536u32 {
        add_state(text, kind, code as u16);
    }
}

// The pins of a kind, each in a line.
fn add_pins(text: &mut MadeText, kind: Kind)
    ensures { Extends text.old text.new (pins_below kind (pin_count kind)) }
{
    for pin in 0..pin_count(kind) {
        text.add(b"\n");
        add_pin(text, kind, pin);
    }
}

/// What is said of a kind, after a text: its name, its pins, and its states by their DiagCodes, each in a line.
pub(crate) fn add_kind(text: &mut MadeText, kind: Kind)
    ensures { Extends text.old text.new (kind_text kind) }
{
    text.add(kind_name(kind).as_bytes());
    text.add(b", a safety function block\n");
    add_pins(text, kind);
    text.add(b"\n");
    add_states(text, kind);
}

/// The number of the pin of a kind that has a name, without letter case: of an input, or of an output.
pub(crate) fn pin_named(kind: Kind, name: &[u8], is_input: bool) -> Option<u8>
    ensures some { IfSome result (IsPinOf kind name.now is_input) }
    ensures none { IfNone result ((pin : ℕ) → IsPinOf kind name.now is_input pin → ⊥) }
{
    let inputs = input_count(kind);
    for pin in 0..pin_count(kind) {
        if (pin < inputs) == is_input && pin_name(kind, pin).as_bytes().eq_ignore_ascii_case(name) {
            return Some(pin);
        }
    }
    None
}

/// What a name is that a section declares.
pub(crate) fn section_told(section: Option<Word>) -> &'static [u8]
    ensures { result.now ≡ section_text section }
{
    match section {
        Some(Word::VarInput) => b", an input",
        Some(Word::VarOutput) => b", an output",
        _ => b", a local",
    }
}
