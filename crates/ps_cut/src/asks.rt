// Whether what is asked of a part is so wherever what is asked of the whole is.

ghost use Rattle.std.specs.Prelude.{◌≡◌, ℕ, Some, true, length, slice_get};
ghost use Rattle.ps_cut.specs.Asking.{AsksOfPart, IsCheckCopy, IsSaidAlike, IsSaidBefore, IsSaidOf, IsSourceCopy, IsSubjectCopy};
ghost use Rattle.ps_cut.specs.Parts.{AreCopies};
ghost use Rattle.ps_cut.specs.declared.part.Origin.{Origin};
ghost use Rattle.ps_cut.specs.declared.part.Origin.TheVariants.{Before, Now};
ghost use Rattle.ps_reach.specs.declared.asked.InputRule.{InputRule};

use crate::copies::{is_instance, is_now};
use crate::part::{Claim, Origin};
use ps_reach::{Asked, Check, InputRule, Rule, Source, Subject};

// Whether both are the same value, of the part and of the whole.
fn is_subject_copy(claim: &Claim<'_>, of_part: Subject, of_whole: Subject) -> bool
    ensures { result ≡ true → IsSubjectCopy claim.now.whole.now claim.now.part.now claim.now.origins.now claim.now.instances.now of_part of_whole }
{
    match (of_part, of_whole) {
        (Subject::Signal(r), Subject::Signal(s)) => {
            is_now(claim.origins, usize::from(r), usize::from(s))
        }
        (Subject::Code(i), Subject::Code(h)) => is_instance(claim.instances, i, h),
        (
            Subject::Pin { instance, pin },
            Subject::Pin {
                instance: of,
                pin: pin_of_whole,
            },
        ) => is_instance(claim.instances, instance, of) && pin == pin_of_whole,
        _ => false,
    }
}

// Whether both are the same numbers.
fn are_same(values: &[u16], others: &[u16]) -> bool
    ensures { result ≡ true → values.now ≡ others.now }
{
    values == others
}

// Whether both checks ask the same.
fn is_check_copy(claim: &Claim<'_>, of_part: &Check, of_whole: &Check) -> bool
    ensures { result ≡ true → IsCheckCopy claim.now.whole.now claim.now.part.now claim.now.origins.now claim.now.instances.now of_part.now of_whole.now }
{
    is_subject_copy(claim, of_part.subject, of_whole.subject)
        && of_part.before == of_whole.before
        && of_part.denied == of_whole.denied
        && are_same(of_part.values.as_slice(), of_whole.values.as_slice())
}

// Whether both rules have the same checks.
fn is_rule_copy(claim: &Claim<'_>, of_part: &Rule, of_whole: &Rule) -> bool
    ensures { result ≡ true →
        AreCopies (IsCheckCopy claim.now.whole.now claim.now.part.now claim.now.origins.now claim.now.instances.now) of_part.now.checks.items of_whole.now.checks.items }
{
    if of_part.checks.len() != of_whole.checks.len() {
        return false;
    }
    for i in 0..of_part.checks.len() {
        if !is_check_copy(claim, &of_part.checks[i], &of_whole.checks[i]) {
            return false;
        }
    }
    true
}

// Whether both say the same of where an input has its value from.
fn is_source_copy(claim: &Claim<'_>, of_part: Source, of_whole: Source) -> bool
    ensures { result ≡ true → IsSourceCopy claim.now.whole.now claim.now.part.now claim.now.origins.now claim.now.instances.now of_part of_whole }
{
    match (of_part, of_whole) {
        (Source::Free, Source::Free) => true,
        (Source::Fixed(a), Source::Fixed(b)) => a == b,
        (
            Source::Follows { signal, negated },
            Source::Follows {
                signal: of,
                negated: is_negated,
            },
        ) => is_now(claim.origins, usize::from(signal), usize::from(of)) && negated == is_negated,
        _ => false,
    }
}

// Whether both are the same first value, or none.
fn is_same_first(one: Option<bool>, other: Option<bool>) -> bool
    ensures { result ≡ true → one ≡ other }
{
    match (one, other) {
        (None, None) => true,
        (Some(a), Some(b)) => a == b,
        _ => false,
    }
}

// Whether an input of the part is this one of the whole, of which the same is said.
fn is_said_alike(claim: &Claim<'_>, q: &Asked, input: u16, said: InputRule) -> bool
    ensures { result ≡ true →
        IsSaidAlike claim.now.whole.now claim.now.part.now claim.now.origins.now claim.now.instances.now q.now (Now input) said }
{
    if input >= claim.whole.input_count() {
        return false;
    }
    match q.inputs.get(usize::from(input)) {
        Some(of_whole) => {
            is_source_copy(claim, said.source, of_whole.source)
                && is_same_first(said.first, of_whole.first)
        }
        None => false,
    }
}

// Whether an input of the part, which is the value of this signal after the scan before, follows it.
fn is_said_before(claim: &Claim<'_>, of: u16, said: InputRule) -> bool
    ensures { result ≡ true →
        IsSaidBefore claim.now.whole.now claim.now.part.now claim.now.origins.now claim.now.instances.now (Before of) said }
{
    match (said.source, said.first) {
        (
            Source::Follows {
                signal,
                negated: false,
            },
            Some(false),
        ) => is_now(claim.origins, usize::from(signal), usize::from(of)),
        _ => false,
    }
}

// Whether nothing is said of an input of the part, or what is said of it is so in each scan of the whole.
fn is_said_of(claim: &Claim<'_>, q: &Asked, origin: Origin, said: InputRule) -> bool
    ensures { result ≡ true → IsSaidOf claim.now.whole.now claim.now.part.now claim.now.origins.now claim.now.instances.now q.now origin said }
{
    if matches!((said.source, said.first), (Source::Free, None)) {
        return true;
    }
    match origin {
        Origin::Now(input) => is_said_alike(claim, q, input, said),
        Origin::Before(of) => is_said_before(claim, of, said),
    }
}

// Whether of an input of the part, by its number, no more is said than of the whole.
fn is_said_at(claim: &Claim<'_>, q: &Asked, inputs: &[InputRule], r: usize) -> bool
    ensures { result ≡ true → (o : Origin) (said : InputRule) → slice_get claim.now.origins.now r ≡ Some o → slice_get inputs.now r ≡ Some said →
        IsSaidOf claim.now.whole.now claim.now.part.now claim.now.origins.now claim.now.instances.now q.now o said }
{
    match (claim.origins.get(r), inputs.get(r)) {
        (Some(origin), Some(said)) => is_said_of(claim, q, *origin, *said),
        _ => false,
    }
}

// Whether of no input of the part more is said than of the whole.
fn are_said(claim: &Claim<'_>, q: &Asked, inputs: &[InputRule]) -> bool
    ensures { result ≡ true → (r : ℕ) (o : Origin) (said : InputRule) → slice_get claim.now.origins.now r ≡ Some o → slice_get inputs.now r ≡ Some said →
        IsSaidOf claim.now.whole.now claim.now.part.now claim.now.origins.now claim.now.instances.now q.now o said }
{
    for r in 0..inputs.len() {
        if !is_said_at(claim, q, inputs, r) {
            return false;
        }
    }
    true
}

/// Whether what is asked of a part is so wherever what is asked of the whole is: scans come as far apart, no more is
/// said of an input, and a rule of the part, by its number, has the checks of one of the whole.
pub fn asks_of_part(
    claim: &Claim<'_>,
    q: &Asked,
    asked: &Asked,
    rule: usize,
    of_part: usize,
) -> bool
    ensures { result ≡ true →
        AsksOfPart claim.now.whole.now claim.now.part.now claim.now.origins.now claim.now.instances.now q.now asked.now rule of_part }
{
    if asked.every != q.every {
        return false;
    }
    if asked.inputs.len() != usize::from(claim.part.input_count()) {
        return false;
    }
    if !are_said(claim, q, asked.inputs.as_slice()) {
        return false;
    }
    match (asked.rules.get(of_part), q.rules.get(rule)) {
        (Some(part_rule), Some(whole_rule)) => is_rule_copy(claim, part_rule, whole_rule),
        _ => false,
    }
}
