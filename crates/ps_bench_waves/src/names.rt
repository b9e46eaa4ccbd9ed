// What is watched where no names are given.

ghost use Rattle.std.specs.Prelude.{◌≡◌, ◌<◌, ◌++◌, IfOk, OnOk, length};
ghost use Rattle.ps_model.specs.Network.{instance_count};
ghost use Rattle.ps_model.specs.Pins.{pin_rows};
ghost use Rattle.ps_bench_waves.specs.Names as defaults;
ghost use Rattle.ps_bench_waves.specs.Names.{all_names, main_names, names_of_instance, pin_of, pins_of};

use crate::format::Format;
use ps_base::Memory;
use ps_bench_names::Name;
use ps_model::{App, Kind, Ty, pin_count, pin_row};
use std::alloc::Global;

// Puts a pin of an instance of a kind after names, where it is BOOL or SAFEBOOL.
fn add_pin(names: &mut Vec<Name>, instance: u16, kind: Kind, pin: u8) -> Result<(), Memory>
    requires { pin < length (pin_rows kind) }
    ensures { OnOk result (names.new.items ≡ names.old.items ++ pin_of instance kind pin) }
{
    match pin_row(kind, pin).ty {
        Ty::Time => (),
        Ty::Safe | Ty::Bool => names.push(Name::Pin { instance, pin })?,
    }
    Ok(())
}

// Puts the BOOL and SAFEBOOL pins of an instance of a kind after names, in the order of the kind.
fn add_pins(names: &mut Vec<Name>, instance: u16, kind: Kind) -> Result<(), Memory>
    ensures { OnOk result (names.new.items ≡ names.old.items ++ pins_of instance kind) }
{
    for pin in 0..pin_count(kind) {
        add_pin(names, instance, kind, pin)?;
    }
    Ok(())
}

// Puts the code of an instance and its pins after names.
fn add_instance(names: &mut Vec<Name>, app: &App, instance: u16) -> Result<(), Memory>
    requires { instance < instance_count app.now }
    ensures { OnOk result (names.new.items ≡ names.old.items ++ names_of_instance app.now instance) }
{
    names.push(Name::Code(instance))?;
    add_pins(names, instance, app.instance_kind(instance))
}

/// All inputs, outputs and locals, and then the code and the BOOL and SAFEBOOL pins of each instance, in order of
/// declaration. An error means out of memory.
pub fn all_names(alloc: Global, app: &App) -> Result<Vec<Name>, Memory>
    ensures { IfOk result (λ names. names.items ≡ all_names app.now) }
{
    let mut names = Vec::new(alloc);
    for signal in 0..app.declared_count() {
        names.push(Name::Signal(signal))?;
    }
    for instance in 0..app.instance_count() {
        add_instance(&mut names, app, instance)?;
    }
    Ok(names)
}

/// The outputs, and the code of each instance, in order of declaration. An error means out of memory.
pub fn main_names(alloc: Global, app: &App) -> Result<Vec<Name>, Memory>
    ensures { IfOk result (λ names. names.items ≡ main_names app.now) }
{
    app.sound();
    let first = app.input_count();
    let mut names = Vec::new(alloc);
    for output in 0..app.output_count() {
        names.push(Name::Signal(first + output))?;
    }
    for instance in 0..app.instance_count() {
        names.push(Name::Code(instance))?;
    }
    Ok(names)
}

/// What is watched where no names are given: for a person the outputs and the code of each instance, and for a program
/// all that there is. An error means out of memory.
pub fn default_names(alloc: Global, app: &App, format: Format) -> Result<Vec<Name>, Memory>
    ensures { IfOk result (λ names. names.items ≡ defaults.default_names app.now format) }
{
    match format {
        Format::Text => main_names(alloc, app),
        Format::Csv | Format::Json => all_names(alloc, app),
    }
}
