// Whether values and steps of a part are copies of those of the whole.

ghost use Rattle.std.specs.Prelude.{◌≡◌, ◌<◌, ℕ, Some, true, length, slice_get};
ghost use Rattle.ps_model.specs.Action.{Action};
ghost use Rattle.ps_model.specs.Args.{actual};
ghost use Rattle.ps_model.specs.Exprs.{formula};
ghost use Rattle.ps_cut.specs.Parts.{AreCopies, IsActualCopy, IsCopy, IsStepCopy, StandsFor};
ghost use Rattle.ps_cut.specs.declared.part.Origin.TheVariants.{Before, Now};

use crate::part::{Claim, Origin};
use ps_machine::is_new;
use ps_model::{Arg, Args, Expr, Step};

/// A step of the part, and the one of the whole that it is to be.
#[derive(Clone, Copy)]
pub(crate) struct Steps {
    /// The number of the step of the part.
    pub of_part: u16,
    /// The number of the step of the whole.
    pub of_whole: u16,
}

/// Whether a signal of the part has the value of a signal of the whole.
pub(crate) fn is_now(origins: &[Origin], read: usize, of: usize) -> bool
    ensures { result ≡ true → slice_get origins.now read ≡ Some (Now of) }
{
    match origins.get(read) {
        Some(Origin::Now(signal)) => usize::from(*signal) == of,
        _ => false,
    }
}

/// Whether a signal of the part has the value that a signal of the whole had after the scan before.
pub(crate) fn is_before(origins: &[Origin], read: usize, of: usize) -> bool
    ensures { result ≡ true → slice_get origins.now read ≡ Some (Before of) }
{
    match origins.get(read) {
        Some(Origin::Before(signal)) => usize::from(*signal) == of,
        _ => false,
    }
}

/// Whether an instance of the part is this one of the whole.
pub(crate) fn is_instance(instances: &[u16], i: u16, of: u16) -> bool
    ensures { result ≡ true → slice_get instances.now i ≡ Some of }
{
    match instances.get(usize::from(i)) {
        Some(instance) => *instance == of,
        None => false,
    }
}

// Whether what a step of the part reads at a signal is what the step of the whole reads at another.
fn stands_for(claim: &Claim<'_>, at: Steps, read: u16, of: u16) -> bool
    ensures { result ≡ true →
        StandsFor claim.now.whole.now claim.now.part.now claim.now.origins.now claim.now.instances.now at.of_part at.of_whole read of }
{
    let is_new_of = is_new(claim.whole, at.of_whole, of);
    if is_now(claim.origins, usize::from(read), usize::from(of)) {
        return is_new(claim.part, at.of_part, read) == is_new_of;
    }
    is_before(claim.origins, usize::from(read), usize::from(of))
        && read < claim.part.input_count()
        && !is_new_of
}

// Whether an expression of the part is a copy of one of the whole.
fn is_copy(claim: &Claim<'_>, at: Steps, e: &Expr, f: &Expr) -> bool
    ensures { result ≡ true →
        IsCopy (StandsFor claim.now.whole.now claim.now.part.now claim.now.origins.now claim.now.instances.now at.of_part at.of_whole) (formula e.now) (formula f.now) }
{
    match (e, f) {
        (Expr::Signal(read), Expr::Signal(of)) => stands_for(claim, at, *read, *of),
        (Expr::And(es), Expr::And(fs)) | (Expr::Or(es), Expr::Or(fs)) => {
            if es.items.len() != fs.items.len() {
                return false;
            }
            let mut i = 0;
            for x in &es.items {
                if !is_copy(claim, at, x, &fs.items[i]) {
                    return false;
                }
                i += 1;
            }
            true
        }
        _ => false,
    }
}

// Whether what stands at a pin of the part is a copy of what stands at one of the whole.
fn is_pin_copy(claim: &Claim<'_>, at: Steps, arg: &Arg, other: &Arg) -> bool
    ensures { result ≡ true →
        IsActualCopy (StandsFor claim.now.whole.now claim.now.part.now claim.now.origins.now claim.now.instances.now at.of_part at.of_whole) (actual arg.now) (actual other.now) }
{
    match (arg, other) {
        (Arg::Free, Arg::Free) => true,
        (Arg::Lit(a), Arg::Lit(b)) => *a == *b,
        (Arg::Time(a), Arg::Time(b)) => *a == *b,
        (Arg::Value(e), Arg::Value(f)) => is_copy(claim, at, e, f),
        _ => false,
    }
}

// Whether what stands at the pins of a call of the part is a copy of what stands at those of one of the whole.
fn are_pin_copies(claim: &Claim<'_>, at: Steps, args: &Args, others: &Args) -> bool
    ensures { result ≡ true →
        AreCopies (IsActualCopy (StandsFor claim.now.whole.now claim.now.part.now claim.now.origins.now claim.now.instances.now at.of_part at.of_whole)) args.now others.now }
{
    if args.len() != others.len() {
        return false;
    }
    for j in 0..args.len() {
        if !is_pin_copy(claim, at, args.at(j), others.at(j)) {
            return false;
        }
    }
    true
}

/// Whether a step of the part is a copy of one of the whole.
pub(crate) fn is_step_copy(claim: &Claim<'_>, at: Steps) -> bool
    requires of_part { at.of_part < length claim.now.part.now.steps }
    requires of_whole { at.of_whole < length claim.now.whole.now.steps }
    ensures { result ≡ true → (a b : Action) → slice_get claim.now.part.now.steps at.of_part ≡ Some a → slice_get claim.now.whole.now.steps at.of_whole ≡ Some b →
        IsStepCopy claim.now.whole.now claim.now.part.now claim.now.origins.now claim.now.instances.now at.of_part at.of_whole a b }
{
    match (claim.part.step(at.of_part), claim.whole.step(at.of_whole)) {
        (
            Step::Assign { target, value },
            Step::Assign {
                target: of,
                value: of_whole,
            },
        ) => {
            is_now(claim.origins, usize::from(*target), usize::from(*of))
                && is_copy(claim, at, value, of_whole)
        }
        (
            Step::Call { instance, args },
            Step::Call {
                instance: of,
                args: of_whole,
            },
        ) => {
            is_instance(claim.instances, *instance, *of)
                && are_pin_copies(claim, at, args, of_whole)
        }
        _ => false,
    }
}
