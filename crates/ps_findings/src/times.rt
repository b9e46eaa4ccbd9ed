// What is wrong in a TIME literal.

use crate::telling::Telling;
use ps_base::Place;
use ps_text::line_at;

// The letters, digits and signs of a literal around a column of a line, from 1; empty where there are none.
fn literal_at(line: &[u8], column: u32) -> &[u8] {
    let mut start = 1usize;
    for piece in line.split(|b| !b.is_ascii_alphanumeric()
        && *b != b'_'
        && *b != b'.'
        && *b != b'#')
    {
        let end = start.saturating_add(piece.len());
        if start <= column as usize && (column as usize) < end {
            return piece;
        }
        start = end.saturating_add(1);
    }
    &[]
}

// What stands after the `#` of a literal.
fn behind_sign(literal: &[u8]) -> &[u8] {
    let mut last: &[u8] = &[];
    for piece in literal.split(|b| *b == b'#') {
        last = piece;
    }
    last
}

// The place of a unit in the order of the units, from 1; 0 where it is none.
fn rank(unit: &[u8]) -> u8 {
    match unit {
        [b'd' | b'D'] => 1,
        [b'h' | b'H'] => 2,
        [b'm' | b'M'] => 3,
        [b's' | b'S'] => 4,
        [b'm' | b'M', b's' | b'S'] => 5,
        _ => 0,
    }
}

// The first of the units of these parts that is none or is out of order; empty where each is right.
fn wrong_unit(parts: &[u8]) -> &[u8] {
    let mut last = 0u8;
    for unit in parts.split(|b| b.is_ascii_digit() || *b == b'_') {
        if !unit.is_empty() {
            let place = rank(unit);
            if place <= last {
                return unit;
            }
            last = place;
        }
    }
    &[]
}

// What is wrong with the units of these parts.
fn tell_units(telling: &mut Telling, parts: &[u8]) {
    let unit = wrong_unit(parts);
    if unit.is_empty() {
        telling.say(
            b"too long: ",
            parts,
            b"; a time has at most 4294967295 ms, which is 49 days and 17 hours",
        );
    } else if rank(unit) == 0 {
        telling.say(b"no unit: ", unit, b"; the units are d, h, m, s and ms");
    } else {
        telling.say(
            b"out of order: ",
            unit,
            b"; each unit stands once, the larger before the smaller",
        );
    }
}

/// What is wrong with the TIME literal at a place of a text: a fraction, a unit that is missing, unknown or out of
/// order, or a time that is too long.
pub(crate) fn tell_literal(telling: &mut Telling, text: &[u8], place: &Place) {
    let parts = behind_sign(literal_at(line_at(text, place.line), place.column));
    match parts.last() {
        _ if parts.contains(&b'.') => telling.say(
            b"a fraction: ",
            parts,
            b"; write the next smaller unit, as T#1s500ms for 1.5 s",
        ),
        Some(byte) if !byte.is_ascii_digit() => tell_units(telling, parts),
        _ => telling.say(
            b"a unit is missing at the end: ",
            parts,
            b"; the units are d, h, m, s and ms",
        ),
    }
}
