// What the guard of a way asks, in words.

ghost use Rattle.std.specs.Prelude.{◌≡◌, ◌++◌, OnOk, Some, option_map};
ghost use Rattle.ps_ways.specs.Conditions.{condition_of};
ghost use Rattle.ps_cover.specs.Lines.{alternatives, asked_text, condition_text, first_text, guard_text, more_text};
ghost use Rattle.ps_cover.specs.Lines.{or_text};

use ps_base::{Bytes, Memory};
use ps_model::Kind;
use ps_ways::{Condition, Literal, Way, subject_of, told_of, ways};

/// Puts a condition of a guard. An error means out of memory.
pub fn add_condition(text: &mut Bytes, kind: Kind, condition: Condition) -> Result<(), Memory>
    ensures { OnOk result (text.new ≡ text.old ++ condition_text kind condition) }
{
    text.extend_from_slice(subject_of(kind, condition).as_bytes())?;
    text.extend_from_slice(b" ")?;
    text.extend_from_slice(told_of(condition).as_bytes())
}

// Puts what is asked first.
fn add_first(text: &mut Bytes, kind: Kind, literal: Literal) -> Result<(), Memory>
    ensures { OnOk result (text.new ≡ text.old ++ first_text kind (condition_of literal)) }
{
    match Condition::of(literal) {
        Some(condition) => add_condition(text, kind, condition),
        None => text.extend_from_slice(b"otherwise"),
    }
}

// Puts what is asked besides.
fn add_more(text: &mut Bytes, kind: Kind, literal: Literal) -> Result<(), Memory>
    ensures { OnOk result (text.new ≡ text.old ++ more_text kind (condition_of literal)) }
{
    match Condition::of(literal) {
        Some(condition) => {
            text.extend_from_slice(b" and ")?;
            add_condition(text, kind, condition)
        }
        None => Ok(()),
    }
}

// Puts what an alternative of a guard asks.
fn add_asked(text: &mut Bytes, kind: Kind, way: &Way) -> Result<(), Memory>
    ensures { OnOk result (text.new ≡ text.old ++ asked_text kind way.now) }
{
    add_first(text, kind, way.first)?;
    add_more(text, kind, way.second)?;
    add_more(text, kind, way.third)
}

// Puts a way where it is a further alternative of the guard of another one.
fn add_or(text: &mut Bytes, kind: Kind, way: &Way, later: bool, other: &Way) -> Result<(), Memory>
    ensures { OnOk result (text.new ≡ text.old ++ or_text kind way.now later (Some other.now)) }
{
    if later && other.state == way.state && other.number == way.number {
        text.extend_from_slice(b" or ")?;
        add_asked(text, kind, other)?;
    }
    Ok(())
}

// Puts the further alternatives of the guard of the way at a place.
fn add_alternatives(text: &mut Bytes, kind: Kind, place: usize, way: &Way) -> Result<(), Memory>
    ensures { OnOk result (text.new ≡ text.old ++ alternatives kind place way.now) }
{
    let ways = ways(kind);
    for n in 0..ways.len() {
        let other = &ways[n];
        add_or(text, kind, way, place < n, other)?;
    }
    Ok(())
}

/// Puts what the guard of the way at a place of those of its kind asks.
pub(crate) fn add_guard(text: &mut Bytes, kind: Kind, place: usize, way: &Way) -> Result<(), Memory>
    ensures { OnOk result (text.new ≡ text.old ++ guard_text kind place way.now) }
{
    add_asked(text, kind, way)?;
    add_alternatives(text, kind, place, way)
}
