// The words of conditions.

ghost use Rattle.std.specs.Prelude.{◌≡◌};
ghost use Rattle.ps_ways.specs.Conditions as conditions;

use crate::Ask;
use crate::condition::Condition;
use ps_model::{Kind, auxiliary_pin, pin_count, pin_name};

// The name of a pin of a kind, by its number.
fn pin_words(kind: Kind, j: u8) -> &'static str
    ensures { result.now ≡ conditions.pin_words kind j }
{
    if j < pin_count(kind) {
        pin_name(kind, j)
    } else {
        "no pin"
    }
}

// The name of the auxiliary input of a kind.
fn auxiliary_words(kind: Kind) -> &'static str
    ensures { result.now ≡ conditions.auxiliary_words kind }
{
    match auxiliary_pin(kind) {
        Some(j) => pin_words(kind, j),
        None => "no pin",
    }
}

// The time that a kind waits for: the name of its TIME pin.
#[tactic(auto, unfolding(ps_model::specs::Blocks::block))]
fn limit_words(kind: Kind) -> &'static str
    ensures { result.now ≡ conditions.limit_words kind }
{
    match kind {
        Kind::Equivalent | Kind::Antivalent | Kind::GuardMonitoring => "DiscrepancyTime",
        Kind::ModeSelector => "ModeMonitorTime",
        Kind::SafetyRequest | Kind::Edm => "MonitoringTime",
        Kind::TwoHandThree => "the time of 500 ms",
        _ => "no time",
    }
}

/// What a condition of a kind speaks of: a pin by its name, as `S_GuardSwitch1`, `Reset` or `ProcessControl`, the time
/// that the state waits for by the name of its TIME pin, as `DiscrepancyTime` (`the time of 500 ms` of
/// SF_TwoHandControlTypeIII), or modes, as `one mode alone`.
pub fn subject_of(kind: Kind, condition: Condition) -> &'static str
    ensures { result.now ≡ conditions.subject_words kind condition.ask condition.holds }
{
    match condition.ask {
        Ask::Pin(j) => pin_words(kind, j),
        Ask::Edge | Ask::Held => "Reset",
        Ask::Rise => auxiliary_words(kind),
        Ask::Elapsed => limit_words(kind),
        Ask::NoMode if condition.holds => "no mode",
        Ask::NoMode => "a mode",
        Ask::OneMode => "one mode alone",
        Ask::ManyModes if condition.holds => "two or more modes",
        Ask::ManyModes => "at most one mode",
        Ask::LatchedMode => "the latched mode alone",
    }
}

/// What is told of a condition that is so, after its subject: `is TRUE`, `is FALSE`, `rises`, `has not elapsed`.
pub fn told_of(condition: Condition) -> &'static str
    ensures { result.now ≡ conditions.told_words condition.ask condition.holds }
{
    match (condition.ask, condition.holds) {
        (Ask::Pin(_), true) => "is TRUE",
        (Ask::Pin(_), false) => "is FALSE",
        (Ask::Edge | Ask::Rise, true) => "rises",
        (Ask::Edge | Ask::Rise, false) => "does not rise",
        (Ask::Held, true) => "is held",
        (Ask::Held, false) => "is not held",
        (Ask::Elapsed, true) => "has elapsed",
        (Ask::Elapsed, false) => "has not elapsed",
        (Ask::NoMode, _) => "is TRUE",
        (Ask::OneMode | Ask::LatchedMode, true) => "is TRUE",
        (Ask::OneMode | Ask::LatchedMode, false) => "is not TRUE",
        (Ask::ManyModes, true) => "are TRUE",
        (Ask::ManyModes, false) => "is TRUE",
    }
}

/// What is told of a condition that is waited for, after its subject: `to be TRUE`, `to be FALSE`, `to rise`,
/// `to elapse`.
pub fn awaited_of(condition: Condition) -> &'static str
    ensures { result.now ≡ conditions.awaited_words condition.ask condition.holds }
{
    match (condition.ask, condition.holds) {
        (Ask::Pin(_), true) => "to be TRUE",
        (Ask::Pin(_), false) => "to be FALSE",
        (Ask::Edge | Ask::Rise, true) => "to rise",
        (Ask::Edge | Ask::Rise, false) => "not to rise",
        (Ask::Held, true) => "to be held",
        (Ask::Held, false) => "not to be held",
        (Ask::Elapsed, true) => "to elapse",
        (Ask::Elapsed, false) => "not to elapse",
        (Ask::NoMode | Ask::ManyModes, _) => "to be TRUE",
        (Ask::OneMode | Ask::LatchedMode, true) => "to be TRUE",
        (Ask::OneMode | Ask::LatchedMode, false) => "not to be TRUE",
    }
}
