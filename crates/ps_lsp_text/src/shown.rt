// What the editor shows of a place in a text.

ghost use Rattle.std.specs.Prelude.{◌≡◌, ◌++◌, IfOk, map, option_map, unwrap_or};
ghost use Rattle.serde_json.specs.View.{view};
ghost use Rattle.ps_lsp_text.specs.Completing.{Completes, item_data, sort_number};
ghost use Rattle.ps_lsp_text.specs.Defining.{Defines};
ghost use Rattle.ps_lsp_text.specs.Made.{Adds};
ghost use Rattle.ps_lsp_text.specs.Outlining.{Outlines, symbol_data};
ghost use Rattle.ps_lsp_text.specs.Showing.{Hovers, IsDemandTold, demand_line, hover_data};

use crate::made::{MadeList, MadeObject, MadeText};
use crate::published::{range_value, words_in};
use crate::{Asked, Item, Sort, Symbol, completions, definition, demand_told, hover, symbols};
use ps_base::{Bytes, Memory};
use ps_text::range_from;
use serde_json::Value;
use std::alloc::Global;

// What an output demands in the text as it is, or else in the last one that parsed; nothing where no output is told of.
fn demand_of(alloc: Global, asked: Asked, output: Option<Bytes>) -> Result<Option<Bytes>, Memory>
    ensures { IfOk result (IsDemandTold
        (unwrap_or (option_map (λ text. text.now) asked.entry.parsed) asked.entry.text.now) output) }
{
    match output {
        Some(output) => {
            let text = asked.parsed.unwrap_or(asked.text);
            demand_told(alloc, text, output.as_slice())
        }
        None => Ok(None),
    }
}

// Words, and after them a demand, if there is one.
fn with_demand(words: Bytes, demand: Option<Bytes>) -> Result<Bytes, Memory>
    ensures { IfOk result (λ all. all ≡ words ++ demand_line demand) }
{
    let mut words = MadeText::of(words);
    if let Some(line) = demand {
        words.add(b"\n");
        words.add(line.as_slice());
    }
    words.finish()
}

// Words as JSON.
fn plain_text(alloc: Global, words: &Bytes) -> Result<Value, Memory>
    ensures { IfOk result (λ v. view v ≡ hover_data words.now) }
{
    let mut contents = MadeObject::new(alloc);
    contents.put_text("kind", "plaintext");
    contents.put_text("value", words_in(words));
    let contents = contents.finish()?;
    let mut object = MadeObject::new(alloc);
    object.put("contents", contents);
    object.finish()
}

/// What is told of a place, or null.
pub(crate) fn hover_value(alloc: Global, asked: Asked) -> Result<Value, Memory>
    ensures { IfOk result (λ v. Hovers asked.entry.text.now (option_map (λ text. text.now) asked.entry.parsed)
        asked.entry.place (view v)) }
{
    let Some(told) = hover(alloc, asked)? else {
        return Ok(Value::Null);
    };
    let (words, output) = told.into_parts();
    let demand = demand_of(alloc, asked, output)?;
    let words = with_demand(words, demand)?;
    plain_text(alloc, &words)
}

// The number that the protocol has for what an item is.
fn sort_number(sort: Sort) -> u32
    ensures { result ≡ sort_number sort }
{
    match sort {
        Sort::Kind => 7,
        Sort::Pin => 5,
        Sort::Name => 6,
        Sort::Keyword => 14,
    }
}

// An item of a completion.
fn item_value(alloc: Global, item: &Item) -> Result<Value, Memory>
    ensures { IfOk result (λ v. view v ≡ item_data item.now) }
{
    let mut object = MadeObject::new(alloc);
    object.put_text("label", words_in(&item.label));
    object.put_number("kind", sort_number(item.sort));
    object.put_text("detail", words_in(&item.detail));
    object.finish()
}

// Adds these items of a completion.
fn add_items(alloc: Global, list: &mut MadeList<Value>, items: &[Item])
    ensures { Adds list.old.is_whole list.new.is_whole (map view list.old.list.items) (map view list.new.list.items)
        (map item_data items.now) }
{
    for item in items {
        list.add(item_value(alloc, item));
    }
}

/// What may be written at a place.
pub(crate) fn completion_value(alloc: Global, asked: Asked) -> Result<Value, Memory>
    ensures { IfOk result (λ v. Completes asked.entry.text.now (option_map (λ text. text.now) asked.entry.parsed)
        asked.entry.place (view v)) }
{
    let items = completions(alloc, asked)?;
    let mut list = MadeList::new(alloc);
    add_items(alloc, &mut list, items.as_slice());
    Ok(Value::Array(list.finish()?))
}

/// Where what stands at a place of the text of a name is declared, or null.
pub(crate) fn definition_value(alloc: Global, uri: &str, asked: Asked) -> Result<Value, Memory>
    ensures { IfOk result (λ v. Defines uri.now asked.entry.text.now (option_map (λ text. text.now) asked.entry.parsed)
        asked.entry.place (view v)) }
{
    let Some(found) = definition(alloc, asked)? else {
        return Ok(Value::Null);
    };
    let text = if found.is_today {
        asked.text
    } else {
        asked.parsed.unwrap_or(asked.text)
    };
    let piece = range_from(text, found.place, found.width);
    let range = range_value(alloc, piece)?;
    let mut object = MadeObject::new(alloc);
    object.put_text("uri", uri);
    object.put("range", range);
    object.finish()
}

// A declared name.
fn symbol_value(alloc: Global, symbol: &Symbol) -> Result<Value, Memory>
    ensures { IfOk result (λ v. view v ≡ symbol_data symbol.now) }
{
    let range = range_value(alloc, symbol.range)?;
    let selection = range_value(alloc, symbol.range)?;
    let mut object = MadeObject::new(alloc);
    object.put_text("name", words_in(&symbol.name));
    object.put_text("detail", words_in(&symbol.ty));
    object.put_number("kind", 13);
    object.put("range", range);
    object.put("selectionRange", selection);
    object.finish()
}

// Adds these declared names.
fn add_symbols(alloc: Global, list: &mut MadeList<Value>, symbols: &[Symbol])
    ensures { Adds list.old.is_whole list.new.is_whole (map view list.old.list.items) (map view list.new.list.items)
        (map symbol_data symbols.now) }
{
    for symbol in symbols {
        list.add(symbol_value(alloc, symbol));
    }
}

/// The names that a text declares.
pub(crate) fn symbols_value(alloc: Global, text: &[u8]) -> Result<Value, Memory>
    ensures { IfOk result (λ v. Outlines text.now (view v)) }
{
    let symbols = symbols(alloc, text)?;
    let mut list = MadeList::new(alloc);
    add_symbols(alloc, &mut list, symbols.as_slice());
    Ok(Value::Array(list.finish()?))
}
