// What a byte is that begins no token.

use crate::telling::Telling;
use ps_base::Place;
use ps_text::{cut_at, line_at};

// Whether three bytes are a character of no width, or one that turns the direction of a line: U+200B to U+200F, U+202A
// to U+202E, U+2060 to U+2069, U+FEFF.
fn is_unseen(first: u8, second: u8, third: u8) -> bool {
    match (first, second, third) {
        (0xE2, 0x80, 0x8B..=0x8F) | (0xE2, 0x80, 0xAA..=0xAE) => true,
        (0xE2, 0x81, 0xA0..=0xA9) | (0xEF, 0xBB, 0xBF) => true,
        _ => false,
    }
}

/// That a character which is not seen stands at a place; nothing where none does.
pub(crate) fn tell_byte(telling: &mut Telling, text: &[u8], place: &Place) {
    let (_, rest) = cut_at(line_at(text, place.line), place.column);
    match rest {
        [first, second, third, ..] if is_unseen(*first, *second, *third) => telling.add(
            b"a character that is not seen: it has no width, or turns the direction of what is shown; delete it",
        ),
        _ => (),
    }
}
