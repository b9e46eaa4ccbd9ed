// What a text declares.

ghost use Rattle.std.specs.Prelude.{◌≡◌, ◌+◌, ◌<◌, ℕ, List, Some, IfOk, IsTrue, length, min, slice_get};
ghost use Rattle.std.specs.List.{slice_range};
ghost use Rattle.ps_lexer.specs.declared.token.Token.{Token};
ghost use Rattle.ps_text.specs.Columns.{last_column, units};
ghost use Rattle.ps_lsp_text.specs.Made.{Adds};
ghost use Rattle.ps_lsp_text.specs.Outlining.{AreOutlined, AreSymbols, IsOutlined, is_within, line_begin, name_range, spot_at};
ghost use Rattle.ps_lsp_text.specs.Spots.{IsSpot, symbol_with};

use crate::declared::{declared_type, is_in_section};
use crate::looking::{name_at, tokens_of, width};
use crate::made::MadeList;
use ps_base::{Bytes, Memory};
use ps_lexer::Token;
use ps_text::{Position, Range, utf16_length};
use std::alloc::Global;

/// A declared name, with its type and where it stands.
pub struct Symbol {
    pub name: Bytes,
    pub ty: Bytes,
    pub range: Range,
}

impl Drop for Symbol {
    // One call for whoever owns one, in place of a walk through all that it holds.
    fn drop(self) {
        let Symbol {
            name: _,
            ty: _,
            range: _,
        } = self;
    }
}

// The most symbols that are listed: more names than an application declares.
const MOST_SYMBOLS: usize = 10_000;

// Where a token stands: the first byte of its line, its own, and the code units between them.
#[derive(Clone, Copy)]
struct Spot {
    begin: u32,
    from: u32,
    units: u32,
}

// How many code units a piece of a text has.
fn units_between(text: &[u8], from: u32, upto: u32) -> u32
    ensures { result ≡ min (units (slice_range text.now from upto)) last_column }
{
    let (from, upto) = (from as usize, (upto as usize).min(text.len()));
    if from <= upto {
        utf16_length(&text[from..upto]).min(u32::MAX as usize) as u32
    } else {
        0
    }
}

// The first byte of the line of a token.
fn line_begin(token: &Token) -> u32
    ensures { result ≡ line_begin token.now }
{
    token
        .from
        .saturating_sub(token.place.column.saturating_sub(1))
}

// How many code units stand in a line before a byte, from those before an earlier one.
fn units_before(text: &[u8], begin: u32, from: u32, last: Spot) -> u32
    requires { IsSpot text.now last }
    ensures { result ≡ min (units (slice_range text.now begin from)) last_column }
{
    if last.begin == begin && last.from <= from {
        return last
            .units
            .saturating_add(units_between(text, last.from, from));
    }
    units_between(text, begin, from)
}

// Where a token stands, from where an earlier one does: so a line is not counted again for each of its names.
fn spot_of(text: &[u8], token: &Token, last: Spot) -> Spot
    requires { IsSpot text.now last }
    ensures at { result ≡ spot_at text.now token.now }
    ensures is { IsSpot text.now result }
{
    let begin = line_begin(token);
    Spot {
        begin,
        from: token.from,
        units: units_before(text, begin, token.from, last),
    }
}

// The piece of a text that a name is, from where it stands. It has no byte that is not ASCII.
fn range_of(token: &Token, spot: Spot) -> Range
    ensures { (text : List ℕ) → spot ≡ spot_at text token.now → result ≡ name_range text token.now }
{
    let line = token.place.line.saturating_sub(1);
    Range {
        start: Position {
            line,
            character: spot.units,
        },
        end: Position {
            line,
            character: spot.units.saturating_add(width(token)),
        },
    }
}

// The symbol of a name.
fn symbol_of(alloc: Global, name: &[u8], ty: &[u8], range: Range) -> Result<Symbol, Memory>
    ensures { IfOk result (λ s. s ≡ symbol_with name.now ty.now range) }
{
    let name = Bytes::from_slice(alloc, name)?;
    let ty = Bytes::from_slice(alloc, ty)?;
    Ok(Symbol { name, ty, range })
}

// Adds the symbol of the name that a token declares, which stands at this range, if it declares one.
fn add_symbol(alloc: Global, list: &mut MadeList<Symbol>, tokens: &[Token], at: usize, range: Range)
    ensures { (text : List ℕ) (token : Token) → slice_get tokens.now at ≡ Some token → range ≡ name_range text token →
        (found : List Symbol) × IsOutlined text tokens.now at found
        × Adds list.old.is_whole list.new.is_whole list.old.list.items list.new.list.items found }
{
    let Some(name) = name_at(tokens, at) else {
        return;
    };
    let Some(ty) = declared_type(tokens, at) else {
        return;
    };
    list.add(symbol_of(alloc, name, ty, range));
}

// Adds the symbol of a token, if it stands in a section and is listed yet. Where the last token stands that was counted.
fn outline(
    alloc: Global,
    list: &mut MadeList<Symbol>,
    text: &[u8],
    tokens: &[Token],
    at: usize,
    within: bool,
    last: Spot,
) -> Spot
    requires inside { at < length tokens.now }
    requires spot { IsSpot text.now last }
    ensures spot { IsSpot text.now result }
    ensures adds { IsTrue list.new.is_whole → IsTrue list.old.is_whole × (within ≡ is_within tokens.now (at + 1) →
        AreOutlined text.now tokens.now at list.old.list.items → AreOutlined text.now tokens.now (at + 1) list.new.list.items) }
{
    if !within || list.as_slice().len() >= MOST_SYMBOLS {
        return last;
    }
    let token = &tokens[at];
    let spot = spot_of(text, token, last);
    add_symbol(alloc, list, tokens, at, range_of(token, spot));
    spot
}

// The symbols of these tokens of a text.
fn symbols_in(alloc: Global, text: &[u8], tokens: &[Token]) -> Result<Vec<Symbol>, Memory>
    ensures { IfOk result (λ list. AreOutlined text.now tokens.now (length tokens.now) list.items) }
{
    let mut list = MadeList::new(alloc);
    let mut within = false;
    let mut spot = Spot {
        begin: 0,
        from: 0,
        units: 0,
    };
    for at in 0..tokens.len() {
        within = is_in_section(tokens, at, within);
        spot = outline(alloc, &mut list, text, tokens, at, within, spot);
    }
    list.finish()
}

/// The names that a text declares, in its order, at most 10,000.
pub fn symbols(alloc: Global, text: &[u8]) -> Result<Vec<Symbol>, Memory>
    ensures { IfOk result (λ list. AreSymbols text.now list.items) }
{
    let tokens = tokens_of(alloc, text)?;
    symbols_in(alloc, text, tokens.as_slice())
}
