// The words of a state.

ghost use Rattle.std.specs.Prelude.{◌≡◌, ◌≤◌, is_some, length, option_map, IfSome, IsTrue};
ghost use Rattle.ps_model.specs.Stored.{is_state};
ghost use Rattle.ps_ways.specs.States as states;
ghost use Rattle.ps_ways.specs.States.{are_plain};

use crate::state_table::{
    edm_words, enable_switch_words, equivalent_words, guard_locking_words, guard_monitoring_words,
    modes_words, out_control_words, safety_request_words, stop_words, two_hand_three_words,
    two_hand_two_words,
};
use ps_model::Kind;

// The words of a code, by the table of its kind.
fn words_of(kind: Kind, code: u16) -> Option<&'static str>
    ensures { option_map (λ w. w.now) result ≡ states.state_words kind code }
{
    match kind {
        Kind::Equivalent | Kind::Antivalent => equivalent_words(code),
        Kind::EmergencyStop | Kind::Espe => stop_words(code),
        Kind::ModeSelector => modes_words(code),
        Kind::TwoHandTwo => two_hand_two_words(code),
        Kind::TwoHandThree => two_hand_three_words(code),
        Kind::GuardMonitoring => guard_monitoring_words(code),
        Kind::GuardLocking => guard_locking_words(code),
        Kind::EnableSwitch => enable_switch_words(code),
        Kind::SafetyRequest => safety_request_words(code),
        Kind::OutControl => out_control_words(code),
        Kind::Edm => edm_words(code),
    }
}

/// What a state of a kind is called, as docs/blocks.md has it: `waiting for switch 2` is 8004 of SF_GuardMonitoring.
/// None exactly where the DiagCode is none of the kind. 0000, which every kind has, is `idle`.
///
/// The words are letters, digits, `_` and blanks: they stand in a line, in CSV, JSON and HTML as they are.
pub fn state_words(kind: Kind, code: u16) -> Option<&'static str>
    ensures words { option_map (λ w. w.now) result ≡ states.state_words kind code }
    ensures exactly { is_some result ≡ is_state kind code }
    ensures plain { IfSome result (λ w. IsTrue (are_plain w.now)) }
    ensures short { IfSome result (λ w. length w.now ≤ 60) }
{
    words_of(kind, code)
}
