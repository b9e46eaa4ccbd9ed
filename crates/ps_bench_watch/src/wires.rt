// What the wires of a run are called.

ghost use Rattle.std.specs.Prelude.{◌≡◌, IfOk, map};
ghost use Rattle.ps_bench_names.specs.declared.name.Name.TheVariants as names;
ghost use Rattle.ps_bench_waves.specs.Shown.{label};
ghost use Rattle.ps_bench_watch.specs.Wires as wires;

use ps_base::{Label, Memory};
use ps_bench_names::Name;
use ps_bench_waves::{Part, Shape, Wire, label_of};
use ps_model::App;
use std::alloc::Global;

// The scope of what is about the run, and not about the application: no name of the language has an `@`.
const RUN: &str = "@run";

// The scope of inputs, outputs and locals that have no dot: no name of the language is this word.
const PROGRAM: &str = "Program";

// A text of its own.
fn owned(alloc: Global, text: &str) -> Result<Label, Memory>
    ensures { IfOk result (λ label. label ≡ text.now) }
{
    Ok(Label::of(String::from_str(alloc, text)?))
}

// A wire of this name in a scope.
fn wire(alloc: Global, scope: &str, name: &str, shape: Shape) -> Result<Wire, Memory>
    ensures { IfOk result (λ w. w ≡ wires.wire scope.now name.now shape) }
{
    Ok(Wire {
        scope: owned(alloc, scope)?,
        name: owned(alloc, name)?,
        shape,
    })
}

// The wire of a value: its scope is what stands before the last dot of its name.
fn bit_wire(alloc: Global, label: &str) -> Result<Wire, Memory>
    ensures { IfOk result (λ w. w ≡ wires.bit_wire label.now) }
{
    match label.rsplit_once('.') {
        Some((scope, name)) => wire(alloc, scope, name, Shape::Bit),
        None => wire(alloc, PROGRAM, label, Shape::Bit),
    }
}

// A wire of an instance.
fn instance_wire(
    alloc: Global,
    app: &App,
    instance: u16,
    name: &str,
    shape: Shape,
) -> Result<Wire, Memory>
    ensures { IfOk result (λ w. w ≡ wires.wire (label app.now (names.Code instance)) name.now shape) }
{
    let label = label_of(alloc, app, Name::Code(instance))?;
    wire(alloc, label.as_str(), name, shape)
}

// The wire of a part of a run.
fn wire_of(alloc: Global, app: &App, part: Part) -> Result<Wire, Memory>
    ensures { IfOk result (λ w. w ≡ wires.wire_of_part app.now part) }
{
    match part {
        Part::Restart => wire(alloc, RUN, "Restart", Shape::Bit),
        Part::Trip => wire(alloc, RUN, "Trip", Shape::Bit),
        Part::Scan => wire(alloc, RUN, "Scan", Shape::Count),
        Part::Bit(name) => {
            let label = label_of(alloc, app, name)?;
            bit_wire(alloc, label.as_str())
        }
        Part::Code(instance) => instance_wire(alloc, app, instance, "DiagCode", Shape::Code),
        Part::State(instance) => instance_wire(alloc, app, instance, "State", Shape::Words),
    }
}

/// What the wires of a run are called: in a scope `@run` those of the run itself, in the scope `Program` inputs,
/// outputs and locals, and in a scope of its name an instance, each in the scopes of what stands before a dot of its
/// name.
pub(crate) fn wires_of(alloc: Global, app: &App, parts: &[Part]) -> Result<Vec<Wire>, Memory>
    ensures { IfOk result (λ all. all.items ≡ map (wires.wire_of_part app.now) parts.now) }
{
    let mut wires = Vec::new(alloc);
    for part in parts {
        wires.push(wire_of(alloc, app, *part)?)?;
    }
    Ok(wires)
}
