// Positions of an editor, and places of a text.

ghost use Rattle.std.specs.Prelude.{◌≡◌};
ghost use Rattle.ps_text.specs.Columns.{place_behind, position};

use crate::columns::{byte_offset, utf16_length};
use crate::{cut_at, line_at};
use ps_base::Place;

/// A position of the Language Server Protocol: line and column, both counted from 0; a column counts UTF-16 code units.
#[derive(Clone, Copy)]
pub struct Position {
    pub line: u32,
    pub character: u32,
}

/// A piece of a text, from a position up to but without another.
#[derive(Clone, Copy)]
pub struct Range {
    pub start: Position,
    pub end: Position,
}

// A number, or the largest one where it is larger.
fn short(number: usize) -> u32 {
    number.min(u32::MAX as usize) as u32
}

/// The position of a place of a text. A column 0 is the beginning of the line, and one after the end its end. It takes
/// no memory, and time linear in the text.
pub fn position_of(text: &[u8], place: Place) -> Position
    ensures { result ≡ position text.now place }
{
    let (front, _) = cut_at(line_at(text, place.line), place.column);
    Position {
        line: place.line.saturating_sub(1),
        character: utf16_length(front).min(u32::MAX as usize) as u32,
    }
}

/// The piece of a text that begins at a place and has so many bytes of its line. A place with column 0 is the beginning
/// of the line. It takes no memory, and time linear in the text.
pub fn range_from(text: &[u8], place: Place, width: u32) -> Range
    ensures start { result.start ≡ position text.now place }
    ensures end { result.end ≡ position text.now (place_behind place width) }
{
    let column = if place.column == 0 { 1 } else { place.column };
    let behind = Place {
        line: place.line,
        column: column.saturating_add(width),
    };
    Range {
        start: position_of(text, place),
        end: position_of(text, behind),
    }
}

/// The place of a position of a text; the end of the line where its column is after that. It takes no memory, and
/// time linear in the text.
pub fn place_at(text: &[u8], position: Position) -> Place {
    let line = position.line.saturating_add(1);
    let offset = byte_offset(line_at(text, line), position.character as usize);
    Place {
        line,
        column: short(offset).saturating_add(1),
    }
}
