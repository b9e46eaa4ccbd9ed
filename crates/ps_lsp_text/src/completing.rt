// What may be written at a place.

ghost use Rattle.std.specs.Prelude.{◌≡◌, ◌-◌, ◌<◌, ◌++◌, ◌∷◌, [], true, IsTrue, IfOk, IsOkAnd, length, option_map};
ghost use Rattle.ps_model.specs.declared.kind.Kind.{Kind};
ghost use Rattle.ps_model.specs.Pins.{pin_count};
ghost use Rattle.ps_lsp_text.specs.Declaring.{IsInstance};
ghost use Rattle.ps_lsp_text.specs.Hovering.{is_output_place};
ghost use Rattle.ps_lsp_text.specs.Completing.{AreOutputs, IsAfterDot, IsCompleted, item_with, pin_item, whole_before};

use crate::declared::{declared_type, is_in_section};
use crate::described::add_pin;
use crate::looking::{form_at, is_dot, name_at, tokens_before, width};
use crate::made::{MadeList, MadeText};
use crate::sight::{Asked, Sight};
use ps_base::{Bytes, Memory, Place};
use ps_lexer::{Form, Token};
use ps_model::{Kind, input_count, kind_name, kind_numbered, pin_count, pin_name};
use std::alloc::Global;

/// What an item of a completion is.
#[derive(Clone, Copy)]
pub enum Sort {
    Kind,
    Pin,
    Name,
    Keyword,
}

/// An item of a completion: what is written, and what is told of it.
pub struct Item {
    pub sort: Sort,
    pub label: Bytes,
    pub detail: Bytes,
}

impl Drop for Item {
    // One call for whoever owns one, in place of a walk through all that it holds.
    fn drop(self) {
        let Item {
            sort: _,
            label: _,
            detail: _,
        } = self;
    }
}

// The most items of a completion.
const MOST_ITEMS: usize = 5_000;

// The words with which statements and sections begin.
const KEYWORDS: [&str; 10] = [
    "PROGRAM",
    "END_PROGRAM",
    "VAR_INPUT",
    "VAR_OUTPUT",
    "VAR",
    "END_VAR",
    "AND",
    "OR",
    "TRUE",
    "FALSE",
];

// The item with this label and this detail.
fn item_of(
    alloc: Global,
    sort: Sort,
    label: &[u8],
    detail: Result<Bytes, Memory>,
) -> Result<Item, Memory>
    ensures { IfOk result (λ i. IsOkAnd detail (λ d. i ≡ item_with sort label.now d)) }
{
    let detail = detail?;
    let label = Bytes::from_slice(alloc, label)?;
    Ok(Item {
        sort,
        label,
        detail,
    })
}

// One more item.
fn add_item(
    alloc: Global,
    list: &mut MadeList<Item>,
    sort: Sort,
    label: &[u8],
    detail: Result<Bytes, Memory>,
)
    ensures { IsTrue list.new.is_whole → IsTrue list.old.is_whole × (length list.old.list.items < MOST_ITEMS →
        IsOkAnd detail (λ d. list.new.list.items ≡ list.old.list.items ++ item_with sort label.now d ∷ [])) }
{
    if list.as_slice().len() < MOST_ITEMS {
        list.add(item_of(alloc, sort, label, detail));
    }
}

// Items of these keywords.
fn add_keywords(alloc: Global, list: &mut MadeList<Item>, words: &[&str]) {
    for word in words {
        let detail = Ok(Bytes::new(alloc));
        add_item(alloc, list, Sort::Keyword, word.as_bytes(), detail);
    }
}

// The item of a pin of a kind.
fn add_pin_item(alloc: Global, list: &mut MadeList<Item>, kind: Kind, pin: u8)
    ensures { pin < pin_count kind → IsTrue list.new.is_whole → IsTrue list.old.is_whole
        × (length list.old.list.items < MOST_ITEMS → list.new.list.items ≡ list.old.list.items ++ pin_item kind pin ∷ []) }
{
    if pin >= pin_count(kind) {
        return;
    }
    let mut detail = MadeText::of(Bytes::new(alloc));
    add_pin(&mut detail, kind, pin);
    let label = pin_name(kind, pin).as_bytes();
    add_item(alloc, list, Sort::Pin, label, detail.finish());
}

// The outputs of a kind.
fn add_outputs(alloc: Global, list: &mut MadeList<Item>, kind: Kind)
    ensures { list.old.list.items ≡ [] → IsTrue list.new.is_whole → AreOutputs kind (pin_count kind) list.new.list.items }
{
    for pin in input_count(kind)..pin_count(kind) {
        add_pin_item(alloc, list, kind, pin);
    }
}

// Whether a pin of this name is given between a bracket and a token.
fn is_given(tokens: &[Token], bracket: usize, upto: usize, name: &[u8]) -> bool {
    for i in bracket..upto {
        if let Some(other) = name_at(tokens, i) {
            if other.eq_ignore_ascii_case(name)
                && matches!(form_at(tokens, i.saturating_add(1)), Some(Form::Assign))
            {
                return true;
            }
        }
    }
    false
}

// The inputs of a kind that a call does not give yet, which goes from a bracket up to a token.
fn add_inputs_left(
    alloc: Global,
    list: &mut MadeList<Item>,
    tokens: &[Token],
    bracket: usize,
    upto: usize,
    kind: Kind,
) {
    for pin in 0..input_count(kind) {
        if pin < pin_count(kind)
            && !is_given(tokens, bracket, upto, pin_name(kind, pin).as_bytes())
        {
            add_pin_item(alloc, list, kind, pin);
        }
    }
}

// The types that may stand after a colon.
fn add_types(alloc: Global, list: &mut MadeList<Item>) {
    add_keywords(alloc, list, &["SAFEBOOL", "BOOL"]);
    for number in 1..14 {
        if let Some(kind) = kind_numbered(number) {
            let label = kind_name(kind).as_bytes();
            add_item(alloc, list, Sort::Kind, label, Ok(Bytes::new(alloc)));
        }
    }
}

// Whether a name is among the first items, without letter case.
fn is_among(list: &[Item], count: usize, name: &[u8]) -> bool {
    for item in &list[..count.min(list.len())] {
        if item.label.as_slice().eq_ignore_ascii_case(name) {
            return true;
        }
    }
    false
}

// The item of the name that a token of a section declares, if it declares one that is not among the first items.
fn add_name_item(
    alloc: Global,
    list: &mut MadeList<Item>,
    count: usize,
    tokens: &[Token],
    at: usize,
) {
    if let (Some(name), Some(ty)) = (name_at(tokens, at), declared_type(tokens, at)) {
        if !is_among(list.as_slice(), count, name) {
            let detail = Bytes::from_slice(alloc, ty);
            add_item(alloc, list, Sort::Name, name, detail);
        }
    }
}

// The names that these tokens declare, each with its type, after items that have other names.
fn add_names(alloc: Global, list: &mut MadeList<Item>, tokens: &[Token]) {
    let count = list.as_slice().len();
    let mut within = false;
    for i in 0..tokens.len() {
        within = is_in_section(tokens, i, within);
        if within && list.as_slice().len() < MOST_ITEMS {
            add_name_item(alloc, list, count, tokens, i);
        }
    }
}

// The declared names, those that the text declares before those that the last one that parsed does, and the keywords.
fn add_all_names(alloc: Global, list: &mut MadeList<Item>, sight: &Sight) {
    add_names(alloc, list, sight.today());
    add_names(alloc, list, sight.earlier());
    add_keywords(alloc, list, &KEYWORDS);
}

// How many tokens stand whole before a place; a name that is being written there is none of them.
fn whole_before(tokens: &[Token], place: Place) -> usize
    ensures { result ≡ whole_before tokens.now place }
{
    let before = tokens_before(tokens, place);
    if before == 0 || before > tokens.len() {
        return before;
    }
    let last = &tokens[before - 1];
    let ends = last.place.column.saturating_add(width(last));
    if name_at(tokens, before - 1).is_some()
        && last.place.line == place.line
        && ends >= place.column
    {
        before - 1
    } else {
        before
    }
}

// What may be written after so many of today's tokens, the last of which is no dot.
fn add_items_without_dot(alloc: Global, list: &mut MadeList<Item>, sight: &Sight, upto: usize) {
    let tokens = sight.today();
    match form_at(tokens, upto.saturating_sub(1)) {
        Some(Form::Colon) => add_types(alloc, list),
        Some(Form::LeftBracket | Form::Comma) => match sight.call_before(upto) {
            Some((bracket, kind)) => add_inputs_left(alloc, list, tokens, bracket, upto, kind),
            None => add_all_names(alloc, list, sight),
        },
        _ => add_all_names(alloc, list, sight),
    }
}

// What may be written after so many of today's tokens.
fn add_items_at(alloc: Global, list: &mut MadeList<Item>, sight: &Sight, upto: usize)
    ensures outputs { IsAfterDot sight.now.today sight.now.earlier upto → list.old.list.items ≡ [] → IsTrue list.new.is_whole →
        (kind : Kind) × IsInstance sight.now.today sight.now.earlier (upto - 2) kind
        × AreOutputs kind (pin_count kind) list.new.list.items }
    ensures nothing { is_output_place sight.now.today upto ≡ true →
        ((kind : Kind) → IsInstance sight.now.today sight.now.earlier (upto - 2) kind → ⊥) →
        list.new.list.items ≡ list.old.list.items }
{
    if upto >= 2 && is_dot(sight.today(), upto - 1) {
        if let Some(kind) = sight.kind_at(upto - 2) {
            add_outputs(alloc, list, kind);
        }
        return;
    }
    add_items_without_dot(alloc, list, sight, upto);
}
/// What may be written at a place of a text: after the dot of an instance its outputs, in its call the inputs that
/// it does not give yet, after a colon the types, and else the declared names and the keywords; at most 5,000 items.
/// Names that the text does not declare are those of the last one that parsed.
pub fn completions(alloc: Global, asked: Asked) -> Result<Vec<Item>, Memory>
    ensures { IfOk result (λ items. IsCompleted asked.entry.text.now (option_map (λ text. text.now) asked.entry.parsed)
        asked.entry.place items.items) }
{
    let sight = Sight::of(alloc, asked.text, asked.parsed)?;
    let mut list = MadeList::new(alloc);
    let upto = whole_before(sight.today(), asked.place);
    add_items_at(alloc, &mut list, &sight, upto);
    list.finish()
}
