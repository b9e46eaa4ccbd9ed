// What one use of a name breaks, by the sort of the name: N2, N4 and N6.

ghost use Rattle.std.specs.Prelude.{◌≡◌, Some};
ghost use Rattle.ps_names.specs.Names.{sort_at};
ghost use Rattle.ps_names.specs.Offences.{noted};
ghost use Rattle.ps_names.specs.Rules.{pin_at, has_input, has_output, at_read, at_read_pin, at_drive, at_drive_pin};
ghost use Rattle.ps_names.specs.Rules.{at_call, at_argument};

use crate::{Entry, Sort, note};
use ps_base::{Refusal, Rule};
use ps_model::{Kind, input_count, pin_named};
use ps_parser::Name;

/// What the declaration at a place makes its name.
pub fn sort_at(entries: &[Entry], k: usize) -> Option<Sort>
    ensures { result ≡ sort_at entries.now (Some k) }
{
    if k < entries.len() {
        Some(entries[k].sort)
    } else {
        None
    }
}

/// The number of the pin of a kind with this name.
pub fn pin_of(kind: Kind, name: &Name) -> Option<u8>
    ensures { result ≡ pin_at kind name.now }
{
    pin_named(kind, name.text.as_slice())
}

// Whether a kind has an input with this name.
fn has_input(kind: Kind, name: &Name) -> bool
    ensures { result ≡ has_input kind name.now }
{
    match pin_of(kind, name) {
        Some(j) => j < input_count(kind),
        None => false,
    }
}

// Whether a kind has an output with this name.
fn has_output(kind: Kind, name: &Name) -> bool
    ensures { result ≡ has_output kind name.now }
{
    match pin_of(kind, name) {
        Some(j) => j >= input_count(kind),
        None => false,
    }
}

/// What is broken where a name of this sort is read.
pub fn note_read(found: Option<Refusal>, name: &Name, sort: Option<Sort>) -> Option<Refusal>
    ensures { result ≡ noted found (at_read name.now sort) }
{
    match sort {
        None => note(found, Rule::N2, name.place),
        Some(Sort::Instance(_)) => note(found, Rule::N4, name.place),
        Some(_) => found,
    }
}

/// What is broken where a pin of a name of this sort is read.
pub fn note_read_pin(
    found: Option<Refusal>,
    name: &Name,
    pin: &Name,
    sort: Option<Sort>,
) -> Option<Refusal>
    ensures { result ≡ noted found (at_read_pin name.now pin.now sort) }
{
    match sort {
        None => note(found, Rule::N2, name.place),
        Some(Sort::Instance(kind)) => {
            if has_output(kind, pin) {
                found
            } else {
                note(found, Rule::N4, pin.place)
            }
        }
        Some(_) => note(found, Rule::N4, name.place),
    }
}

/// What is broken where a name of this sort is assigned.
pub fn note_drive(found: Option<Refusal>, name: &Name, sort: Option<Sort>) -> Option<Refusal>
    ensures { result ≡ noted found (at_drive name.now sort) }
{
    match sort {
        None => note(found, Rule::N2, name.place),
        Some(Sort::Instance(_)) => note(found, Rule::N4, name.place),
        Some(Sort::InputSignal(_)) => note(found, Rule::N6, name.place),
        Some(_) => found,
    }
}

/// What is broken where a pin of a name of this sort is assigned.
pub fn note_drive_pin(
    found: Option<Refusal>,
    name: &Name,
    pin: &Name,
    sort: Option<Sort>,
) -> Option<Refusal>
    ensures { result ≡ noted found (at_drive_pin name.now pin.now sort) }
{
    match sort {
        None => note(found, Rule::N2, name.place),
        Some(Sort::Instance(kind)) => {
            if has_output(kind, pin) {
                note(found, Rule::N6, name.place)
            } else {
                note(found, Rule::N4, pin.place)
            }
        }
        Some(_) => note(found, Rule::N4, name.place),
    }
}

/// What is broken where a name of this sort is called.
pub fn note_call(found: Option<Refusal>, name: &Name, sort: Option<Sort>) -> Option<Refusal>
    ensures { result ≡ noted found (at_call name.now sort) }
{
    match sort {
        None => note(found, Rule::N2, name.place),
        Some(Sort::Instance(_)) => found,
        Some(_) => note(found, Rule::N4, name.place),
    }
}

/// What is broken where a call of a name of this sort gives an argument to a pin.
pub fn note_argument(found: Option<Refusal>, pin: &Name, sort: Option<Sort>) -> Option<Refusal>
    ensures { result ≡ noted found (at_argument pin.now sort) }
{
    match sort {
        Some(Sort::Instance(kind)) => {
            if has_input(kind, pin) {
                found
            } else {
                note(found, Rule::N4, pin.place)
            }
        }
        _ => found,
    }
}
