// Offences against rules, and the one that a refusal names.

ghost use Rattle.std.specs.Prelude.{◌≡◌, ◌∷◌, []};
ghost use Rattle.ps_names.specs.Offences.{rule_number, is_before, noted, offence, when};

use ps_base::{Place, Refusal, Rule};

/// The number of a rule N or B after its letter; 0 for every other rule.
#[tactic(auto, unfolding(crate::specs::Offences::rule_number))]
pub fn number(rule: Rule) -> u8
    ensures { result ≡ rule_number rule }
{
    match rule {
        Rule::N1 | Rule::B1 => 1,
        Rule::N2 | Rule::B2 => 2,
        Rule::N3 | Rule::B3 => 3,
        Rule::N4 | Rule::B4 => 4,
        Rule::N5 | Rule::B5 => 5,
        Rule::N6 => 6,
        Rule::N7 => 7,
        Rule::N8 => 8,
        Rule::N9 => 9,
        Rule::N10 => 10,
        Rule::N11 => 11,
        Rule::N12 => 12,
        _ => 0,
    }
}

/// Whether a refusal names the first of two offences rather than the second: it has the lower rule of their letter,
/// or the same rule at an earlier place.
pub fn is_before(a: Refusal, b: Refusal) -> bool
    ensures { result ≡ is_before a b }
{
    let first = number(a.rule);
    let second = number(b.rule);
    first < second
        || (first == second
            && (a.place.line < b.place.line
                || (a.place.line == b.place.line && a.place.column < b.place.column)))
}

/// The first of what was found so far and one more offence.
pub fn note(found: Option<Refusal>, rule: Rule, place: Place) -> Option<Refusal>
    ensures { result ≡ noted found (offence rule place ∷ []) }
{
    let more = Refusal { rule, place };
    match found {
        None => Some(more),
        Some(first) => {
            if is_before(more, first) {
                Some(more)
            } else {
                found
            }
        }
    }
}

/// The same where the test holds, and what was found so far where it does not.
pub fn note_if(found: Option<Refusal>, test: bool, rule: Rule, place: Place) -> Option<Refusal>
    ensures { result ≡ noted found (when test (offence rule place ∷ [])) }
{
    if test {
        note(found, rule, place)
    } else {
        found
    }
}
