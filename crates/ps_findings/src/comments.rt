// Comments that an editor shows otherwise than they are read.

ghost use Rattle.std.specs.Prelude.{◌≡◌, ℕ, ◌∷◌, [], List, IfOk};
ghost use Rattle.ps_findings.specs.Comments.{after_byte, after_two, begins_with, embeddings, has_return, isolates};
ghost use Rattle.ps_findings.specs.Comments.{odd_line};
ghost use Rattle.ps_findings.specs.Comments.{marks, odd_in, odd_places, odds_of, odds_of_lines, place_behind};
ghost use Rattle.ps_findings.specs.Comments.{returns, turns};
ghost use Rattle.ps_findings.specs.Walking.{HasAdded, IsAt};

use crate::odds::Odd;
use ps_base::{Memory, Place};
use ps_notes::{OddComment, Oddity};
use std::alloc::Global;

// Where a byte of an application stands: in code, in a `//` comment, or in a block comment.
#[derive(Clone, Copy)]
enum Spot {
    Code,
    Line,
    Block,
}

// Whether bytes begin with U+061C, U+200E or U+200F.
fn begins_mark(bytes: &[u8]) -> bool
    ensures { result ≡ begins_with marks bytes.now }
{
    if bytes.starts_with(b"\xD8\x9C") {
        return true;
    }
    if bytes.starts_with(b"\xE2\x80\x8E") {
        return true;
    }
    bytes.starts_with(b"\xE2\x80\x8F")
}

// Whether bytes begin with a character from U+202A to U+202E.
fn begins_embedding(bytes: &[u8]) -> bool
    ensures { result ≡ begins_with embeddings bytes.now }
{
    if bytes.starts_with(b"\xE2\x80\xAA") {
        return true;
    }
    if bytes.starts_with(b"\xE2\x80\xAB") {
        return true;
    }
    if bytes.starts_with(b"\xE2\x80\xAC") {
        return true;
    }
    if bytes.starts_with(b"\xE2\x80\xAD") {
        return true;
    }
    bytes.starts_with(b"\xE2\x80\xAE")
}

// Whether bytes begin with a character from U+2066 to U+2069.
fn begins_isolate(bytes: &[u8]) -> bool
    ensures { result ≡ begins_with isolates bytes.now }
{
    if bytes.starts_with(b"\xE2\x81\xA6") {
        return true;
    }
    if bytes.starts_with(b"\xE2\x81\xA7") {
        return true;
    }
    if bytes.starts_with(b"\xE2\x81\xA8") {
        return true;
    }
    bytes.starts_with(b"\xE2\x81\xA9")
}

// Whether bytes begin with a character that turns the direction of what is shown.
fn turns(bytes: &[u8]) -> bool
    ensures { result ≡ turns bytes.now }
{
    begins_mark(bytes) || begins_embedding(bytes) || begins_isolate(bytes)
}

// Whether bytes begin with a carriage return after which the line goes on.
fn returns(bytes: &[u8]) -> bool
    ensures { result ≡ returns bytes.now }
{
    bytes.starts_with(b"\r") && bytes.len() > 1 && !bytes.starts_with(b"\r\n")
}

// Where what comes after a byte stands, if the byte is no sign with the one before it.
fn after_byte(spot: Spot, byte: u8) -> Spot
    ensures { result ≡ after_byte spot byte }
{
    match spot {
        Spot::Line if byte == b'\n' => Spot::Code,
        _ => spot,
    }
}

// Where what comes after two bytes stands, by where the first of them stands, and what comes between them.
fn after_two(first: Spot, between: Spot, last: u8, byte: u8) -> Spot
    ensures { result ≡ after_two first between last byte }
{
    match first {
        Spot::Code if last == b'/' && byte == b'/' => Spot::Line,
        Spot::Code if last == b'(' && byte == b'*' => Spot::Block,
        Spot::Block if last == b'*' && byte == b')' => Spot::Code,
        _ => after_byte(between, byte),
    }
}

// A walk over the bytes of an application: where what comes next stands, with its place, and the last byte, with where
// it stands.
#[derive(Clone, Copy)]
struct Walk {
    spot: Spot,
    place: Place,
    last: u8,
    before: Spot,
}

// The walk one byte further.
fn walk_on(walk: Walk, byte: u8) -> Walk
    ensures { (back : List ℕ) → IsAt walk back → IsAt result (byte ∷ back) }
{
    Walk {
        spot: after_two(walk.before, walk.spot, walk.last, byte),
        place: behind(walk.place, byte),
        last: byte,
        before: walk.spot,
    }
}

// What is odd at the first of these bytes, by where it stands.
fn oddity(spot: Spot, bytes: &[u8]) -> Option<Oddity>
    ensures { result ≡ odd_in spot bytes.now }
{
    match spot {
        Spot::Line if returns(bytes) => Some(Oddity::Return),
        Spot::Line | Spot::Block if turns(bytes) => Some(Oddity::Turn),
        _ => None,
    }
}

// The place after a byte.
fn behind(place: Place, byte: u8) -> Place
    ensures { (back : List ℕ) → place ≡ place_behind back → result ≡ place_behind (byte ∷ back) }
{
    if byte == b'\n' {
        return Place {
            line: place.line.saturating_add(1),
            column: 1,
        };
    }
    Place {
        line: place.line,
        column: place.column.saturating_add(1),
    }
}

// Adds the odd comments of an application's text.
fn add_odd(odd: &mut Odd, text: &[u8])
    ensures { HasAdded (odd_places [] text.now) odd.old odd.new }
{
    let mut walk = Walk {
        spot: Spot::Code,
        place: Place { line: 1, column: 1 },
        last: 0,
        before: Spot::Code,
    };
    for (i, byte) in text.iter().enumerate() {
        odd.add(oddity(walk.spot, &text[i..]), walk.place);
        walk = walk_on(walk, *byte);
    }
}

/// The odd comments of an application's text, at most 20: in a `//` comment a carriage return that does not end its
/// line, and in any comment a character that turns the direction of what is shown. Of a line the first is told.
pub fn odd_comments(alloc: Global, text: &[u8]) -> Result<Vec<OddComment>, Memory>
    ensures says { IfOk result (λ list. list.items ≡ odds_of text.now) }
{
    let mut odd = Odd::new(alloc);
    add_odd(&mut odd, text);
    odd.finish()
}

// Whether a carriage return stands in a line before its last byte.
fn has_return(line: &[u8]) -> bool
    ensures { result ≡ has_return line.now }
{
    let front = &line[..line.len().saturating_sub(1)];
    front.contains(&b'\r')
}

// What is odd in a line of a trace or a fault file.
fn line_oddity(line: &[u8]) -> Option<Oddity>
    ensures { result ≡ odd_line line.now }
{
    if line.starts_with(b"#") && has_return(line) {
        Some(Oddity::Return)
    } else {
        None
    }
}

/// The comment lines of a trace or fault file that have a carriage return before their end, at most 20, each told by
/// its line alone.
pub fn odd_lines(alloc: Global, text: &[u8]) -> Result<Vec<OddComment>, Memory>
    ensures says { IfOk result (λ list. list.items ≡ odds_of_lines text.now) }
{
    let mut odd = Odd::new(alloc);
    let mut line = 0u32;
    for bytes in text.split(|byte| *byte == b'\n') {
        line = line.saturating_add(1);
        odd.add(line_oddity(bytes), Place { line, column: 0 });
    }
    odd.finish()
}
