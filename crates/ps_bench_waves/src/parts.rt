// What the wires of a run are about, one for each.

ghost use Rattle.std.specs.Prelude.{◌≡◌, ◌++◌, IfOk, OnOk, map};
ghost use Rattle.ps_bench_judge.specs.Moments.{moment_of};
ghost use Rattle.ps_ways.specs.States as states;
ghost use Rattle.ps_bench_waves.specs.Values.{held};
ghost use Rattle.ps_bench_waves.specs.Parts as wires;
ghost use Rattle.ps_bench_waves.specs.Parts.{part_held, parts_of_name, state_text, text_of};

use crate::{Count, Value};
use ps_base::Memory;
use ps_bench_judge::{Seen, is_stopped, value_of};
use ps_bench_names::Name;
use ps_model::{App, Kind};
use ps_ways::state_words;
use std::alloc::Global;

/// What a wire of a run is about.
#[derive(Clone, Copy)]
pub enum Part {
    /// Whether a scan is the first after a restart.
    Restart,
    /// Whether a scan tripped or is down.
    Trip,
    /// The number of a scan.
    Scan,
    /// The value of an input, an output, a local, or a BOOL or SAFEBOOL pin.
    Bit(Name),
    /// The DiagCode of an instance.
    Code(u16),
    /// What the state of an instance is called.
    State(u16),
}

// Puts what the wires of a name are about after others.
fn add_name(parts: &mut Vec<Part>, name: Name) -> Result<(), Memory>
    ensures { OnOk result (parts.new.items ≡ parts.old.items ++ parts_of_name name) }
{
    match name {
        Name::Signal(_) | Name::Pin { .. } => parts.push(Part::Bit(name))?,
        Name::Code(instance) => {
            parts.push(Part::Code(instance))?;
            parts.push(Part::State(instance))?;
        }
    }
    Ok(())
}

/// What the wires of a run are about, of which these names are watched.
pub fn parts_of(alloc: Global, names: &[Name]) -> Result<Vec<Part>, Memory>
    ensures { IfOk result (λ parts. parts.items ≡ wires.parts_of names.now) }
{
    let mut parts = Vec::new(alloc);
    parts.push(Part::Restart)?;
    parts.push(Part::Trip)?;
    parts.push(Part::Scan)?;
    for name in names {
        add_name(&mut parts, *name)?;
    }
    Ok(parts)
}

// What a state of a kind is called, by its DiagCode.
fn words_of(kind: Kind, code: u16) -> &'static str
    ensures { result.now ≡ text_of (states.state_words kind code) }
{
    match state_words(kind, code) {
        Some(words) => words,
        None => "",
    }
}

// What a state of an instance is called, by its DiagCode.
fn state_text(app: &App, instance: u16, code: u16) -> &'static str
    ensures { result.now ≡ state_text app.now instance code }
{
    if instance < app.instance_count() {
        words_of(app.instance_kind(instance), code)
    } else {
        ""
    }
}

/// What a wire has in a scan.
pub(crate) fn value_of_part(app: &App, count: Count, seen: &Seen<'_>, part: Part) -> Value
    ensures { held result ≡ part_held app.now count (moment_of seen.entry.now) part }
{
    match part {
        Part::Restart => Value::Bit(count.is_restarted),
        Part::Trip => Value::Bit(is_stopped(seen.verdict)),
        Part::Scan => Value::Count(count.number),
        Part::Bit(name) => Value::Bit(value_of(app, name, seen) != 0),
        Part::Code(instance) => Value::Code(value_of(app, Name::Code(instance), seen)),
        Part::State(instance) => {
            let code = value_of(app, Name::Code(instance), seen);
            Value::Words(state_text(app, instance, code))
        }
    }
}
