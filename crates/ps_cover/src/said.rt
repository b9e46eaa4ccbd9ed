// Pieces of a line, one after another.

ghost use Rattle.std.specs.Prelude.{◌≡◌, ◌++◌, OnOk};
ghost use Rattle.std.specs.List.{flat_map};
ghost use Rattle.ps_cover.specs.Said.{said_text};

use crate::guard::add_guard;
use crate::pieces::{
    add_code, add_excluded, add_number, add_ordinal, add_state, joined_by, json_truth, truth,
};
use ps_base::{Bytes, Memory};
use ps_model::Kind;
use ps_ways::Way;

/// A piece of a line.
#[derive(Clone, Copy)]
pub(crate) enum Said<'a> {
    /// Words.
    Words(&'a [u8]),
    /// A name.
    Name(&'a str),
    /// A number of 8 bits, in decimal digits.
    Small(u8),
    /// A number of 32 bits, in decimal digits.
    Number(u32),
    /// A count, in decimal digits.
    Count(usize),
    /// The number of a place that is counted from 0, from 1 on.
    Ordinal(usize),
    /// A DiagCode.
    Code(u16),
    /// A state of a kind, with its words.
    State(Kind, u16),
    /// How many are excluded, where some are.
    Excluded(usize),
    /// A truth value in capitals.
    Truth(bool),
    /// A truth value as JSON has it.
    JsonTruth(bool),
    /// What an operand is of: an AND, and else an OR.
    Joined(bool),
    /// What the guard of a way asks, which stands at a place of those of its kind.
    Guard(Kind, usize, &'a Way),
}

// Puts a piece.
fn add_piece(text: &mut Bytes, piece: &Said<'_>) -> Result<(), Memory>
    ensures { OnOk result (text.new ≡ text.old ++ said_text piece.now) }
{
    match piece {
        Said::Words(words) => text.extend_from_slice(*words),
        Said::Name(name) => text.extend_from_slice(name.as_bytes()),
        Said::Small(number) => add_number(text, u64::from(*number)),
        Said::Number(number) => add_number(text, u64::from(*number)),
        Said::Count(count) => add_number(text, *count as u64),
        Said::Ordinal(place) => add_ordinal(text, *place),
        Said::Code(code) => add_code(text, *code),
        Said::State(kind, code) => add_state(text, *kind, *code),
        Said::Excluded(count) => add_excluded(text, *count),
        Said::Truth(value) => text.extend_from_slice(truth(*value)),
        Said::JsonTruth(value) => text.extend_from_slice(json_truth(*value)),
        Said::Joined(of_and) => text.extend_from_slice(joined_by(*of_and)),
        Said::Guard(kind, place, way) => add_guard(text, *kind, *place, *way),
    }
}

/// Puts pieces, one after another. An error means out of memory.
pub(crate) fn add_said(text: &mut Bytes, pieces: &[Said<'_>]) -> Result<(), Memory>
    ensures { OnOk result (text.new ≡ text.old ++ flat_map said_text pieces.now) }
{
    for piece in pieces {
        add_piece(text, piece)?;
    }
    Ok(())
}
