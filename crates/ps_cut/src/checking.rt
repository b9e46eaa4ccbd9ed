// Whether an application is a part of another one. Whoever chose the part, and wrote it, need not be believed.

ghost use Rattle.std.specs.Prelude.{◌≡◌, ◌+◌, ◌<◌, ◌≤◌, ℕ, Some, true, IfSome, length, slice_get};
ghost use Rattle.ps_model.specs.Action.{Action};
ghost use Rattle.ps_model.specs.Blocks.{output_count};
ghost use Rattle.ps_model.specs.Network.{first_pin, input_count, instance_count, is_driven, kind_at, signal_count};
ghost use Rattle.ps_cut.specs.Parts.{IsPartOf, IsStepOf};
ghost use Rattle.ps_cut.specs.declared.part.Origin.TheVariants.{Now};

use crate::copies::{Steps, is_now, is_step_copy};
use crate::part::{Claim, Origin};
use ps_machine::is_new;
use ps_model::{App, Kind, output_count};

// The first step of the whole from a place on of which a step of the part is a copy.
fn place_of(claim: &Claim<'_>, of_part: u16, from: u16) -> Option<u16>
    requires { of_part < length claim.now.part.now.steps }
    ensures within { IfSome result (λ k. k < length claim.now.whole.now.steps) }
    ensures copy { IfSome result (λ k. (a : Action) → slice_get claim.now.part.now.steps of_part ≡ Some a →
        IsStepOf claim.now.whole.now claim.now.part.now claim.now.origins.now claim.now.instances.now of_part a) }
{
    for of_whole in from..claim.whole.step_count() {
        if is_step_copy(claim, Steps { of_part, of_whole }) {
            return Some(of_whole);
        }
    }
    None
}

// Whether each step of the part is one of the whole, in the order of the whole.
fn has_steps(claim: &Claim<'_>) -> bool
    ensures { result ≡ true → (j : ℕ) (a : Action) → slice_get claim.now.part.now.steps j ≡ Some a →
        IsStepOf claim.now.whole.now claim.now.part.now claim.now.origins.now claim.now.instances.now j a }
{
    let mut from = 0;
    for of_part in 0..claim.part.step_count() {
        match place_of(claim, of_part, from) {
            Some(place) => from = place,
            None => return false,
        }
    }
    true
}

// Whether both are one kind.
fn is_same_kind(one: Kind, other: Kind) -> bool
    ensures { result ≡ true → one ≡ other }
{
    one == other
}

// Whether an instance of the part is one of the whole, of its kind.
fn has_kind(claim: &Claim<'_>, i: u16) -> bool
    requires { i < instance_count claim.now.part.now }
    ensures { result ≡ true → (h : ℕ) → slice_get claim.now.instances.now i ≡ Some h →
        (h < instance_count claim.now.whole.now) × (kind_at claim.now.part.now i ≡ kind_at claim.now.whole.now h) }
{
    match claim.instances.get(usize::from(i)) {
        Some(of) => {
            *of < claim.whole.instance_count()
                && is_same_kind(claim.part.instance_kind(i), claim.whole.instance_kind(*of))
        }
        None => false,
    }
}

// Whether each instance of the part is one of the whole, of its kind.
fn has_kinds(claim: &Claim<'_>) -> bool
    requires { length claim.now.instances.now ≡ instance_count claim.now.part.now }
    ensures { result ≡ true → (i h : ℕ) → slice_get claim.now.instances.now i ≡ Some h →
        (h < instance_count claim.now.whole.now) × (kind_at claim.now.part.now i ≡ kind_at claim.now.whole.now h) }
{
    for i in 0..claim.part.instance_count() {
        if !has_kind(claim, i) {
            return false;
        }
    }
    true
}

// Whether so many signals of the part have the values of as many of the whole, in order.
fn has_outputs(origins: &[Origin], read: u16, of: u16, count: u8) -> bool
    ensures { result ≡ true → (o : ℕ) → o < count → slice_get origins.now (read + o) ≡ Some (Now (of + o)) }
{
    for o in 0..count {
        if !is_now(
            origins,
            usize::from(read) + usize::from(o),
            usize::from(of) + usize::from(o),
        ) {
            return false;
        }
    }
    true
}

// Whether the outputs of each instance of the part have the values of those of the instance that it is.
fn has_pins(claim: &Claim<'_>) -> bool
    requires each { length claim.now.instances.now ≡ instance_count claim.now.part.now }
    requires within { (i h : ℕ) → slice_get claim.now.instances.now i ≡ Some h → h < instance_count claim.now.whole.now }
    ensures { result ≡ true → (i h o : ℕ) → slice_get claim.now.instances.now i ≡ Some h → o < output_count (kind_at claim.now.part.now i) →
        slice_get claim.now.origins.now (first_pin claim.now.part.now i + o) ≡ Some (Now (first_pin claim.now.whole.now h + o)) }
{
    for i in 0..claim.part.instance_count() {
        let of = claim.instances[usize::from(i)];
        let count = output_count(claim.part.instance_kind(i));
        let read = claim.part.first_pin(i);
        if !has_outputs(claim.origins, read, claim.whole.first_pin(of), count) {
            return false;
        }
    }
    true
}

// Whether each signal of an application is an input or driven.
fn has_drivers(part: &App) -> bool
    ensures { result ≡ true → (r : ℕ) → input_count part.now ≤ r → r < signal_count part.now → is_driven part.now r ≡ true }
{
    for r in part.input_count()..part.signal_count() {
        if !is_new(part, part.step_count(), r) {
            return false;
        }
    }
    true
}

/// Whether an application is a part of another one: each of its steps is a step of the whole, with the signals that
/// have these origins and the instances that are these, and each signal is an input or driven. Its steps have to come
/// in the order of those of the whole, else it answers FALSE.
pub fn is_part_of(claim: &Claim<'_>) -> bool
    ensures { result ≡ true → IsPartOf claim.now.whole.now claim.now.part.now claim.now.origins.now claim.now.instances.now }
{
    if claim.origins.len() != usize::from(claim.part.signal_count()) {
        return false;
    }
    if claim.instances.len() != usize::from(claim.part.instance_count()) {
        return false;
    }
    if !has_kinds(claim) {
        return false;
    }
    if !has_pins(claim) {
        return false;
    }
    if !has_steps(claim) {
        return false;
    }
    has_drivers(claim.part)
}
