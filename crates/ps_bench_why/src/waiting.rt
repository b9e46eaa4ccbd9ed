// What a state waits for that stays.

ghost use Rattle.std.specs.Prelude.{◌≡◌};
ghost use Rattle.ps_bench_why.specs.Waiting as waiting;

use ps_model::Kind;
use ps_ways::{Ask, Condition, Literal, Way, subject_of, ways};
use ps_why::is_end;

/// The DiagCode of the state in which a block does what it is for.
pub(crate) const ON: u16 = 0x8000;

// A number of its own for each thing that can be asked.
fn number_of(ask: Ask) -> u16
    ensures { result ≡ waiting.number_of ask }
{
    match ask {
        Ask::Edge => 0,
        Ask::Held => 1,
        Ask::Rise => 2,
        Ask::Elapsed => 3,
        Ask::NoMode => 4,
        Ask::OneMode => 5,
        Ask::ManyModes => 6,
        Ask::LatchedMode => 7,
        Ask::Pin(j) => 8 + u16::from(j),
    }
}

// Whether a literal does not hold since a condition is so.
fn is_against(condition: Condition, literal: Literal) -> bool
    ensures { result ≡ waiting.is_against condition.ask condition.holds literal }
{
    match literal {
        Literal::Any => false,
        Literal::Is(ask) => !condition.holds && number_of(condition.ask) == number_of(ask),
        Literal::Not(ask) => condition.holds && number_of(condition.ask) == number_of(ask),
    }
}

// Whether a way is closed since a condition is so.
fn is_closed_by(condition: Condition, way: &Way) -> bool
    ensures { result ≡ waiting.is_closed_by condition.ask condition.holds way.now }
{
    is_against(condition, way.first)
        || (is_against(condition, way.second) || is_against(condition, way.third))
}

// Whether a state has a way to one that is no error.
fn has_way_on(kind: Kind, state: u16) -> bool
    ensures { result ≡ waiting.has_way_on kind state }
{
    ways(kind).iter().any(|way| is_end(state, false, way))
}

// Whether a way that would end a state is closed since a condition is so.
fn is_end_closed(state: u16, to_errors_alone: bool, condition: Condition, way: &Way) -> bool
    ensures { result ≡ waiting.is_end_closed state to_errors_alone condition.ask condition.holds way.now }
{
    is_end(state, to_errors_alone, way) && is_closed_by(condition, way)
}

// Whether there is such a way.
fn closes_an_end(kind: Kind, state: u16, condition: Condition) -> bool
    ensures { result ≡ waiting.closes_an_end kind state condition.ask condition.holds }
{
    let to_errors_alone = !has_way_on(kind, state);
    ways(kind).iter().any(|way| is_end_closed(state, to_errors_alone, condition, way))
}

/// Whether a state that stays waits until a condition that is so is no longer so: a guard that would end the state does
/// not hold since it is so. Guards that lead to an error are passed over where the state has others. In 8000 nothing is
/// waited for.
pub(crate) fn is_waited_for(kind: Kind, state: u16, condition: Condition) -> bool
    ensures { result ≡ waiting.is_waited_for kind state condition.ask condition.holds }
{
    state != ON && closes_an_end(kind, state, condition)
}

/// What is told of a condition that is so after what is waited for: `it`, and of modes what there is of them. What is
/// told of it stands after that (`told_of`).
pub(crate) fn standing_of(kind: Kind, condition: Condition) -> &'static str
    ensures { result.now ≡ waiting.standing_words kind condition.ask condition.holds }
{
    match condition.ask {
        Ask::NoMode | Ask::ManyModes => subject_of(kind, condition),
        Ask::Pin(_)
        | Ask::Edge
        | Ask::Held
        | Ask::Rise
        | Ask::Elapsed
        | Ask::OneMode
        | Ask::LatchedMode => "it",
    }
}
