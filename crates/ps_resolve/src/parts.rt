// The parts of an application, from the declared names of its source.

ghost use Rattle.std.specs.Prelude.{◌≡◌, ◌++◌, ◌∷◌, [], if◌then◌else◌, IfOk, OnOk, All, filter, map};
ghost use Rattle.std.specs.Str.{IsUtf8};
ghost use Rattle.ps_names.specs.Names.{is_signal_of, is_instance};
ghost use Rattle.ps_names.specs.Stands.{ty_of, signal_named, instance_named};
ghost use Rattle.ps_resolve.specs.Spelt.{IsFit};

use ps_base::{Bytes, Label, Memory};
use ps_model::{Instance, Instances, Signal, Signals, Ty};
use ps_names::{Entry, Sort};
use ps_parser::Part;
use std::alloc::Global;

/// The name of these bytes, which are UTF-8.
pub fn label_of(alloc: Global, text: &Bytes) -> Result<Label, Memory>
    requires { IsUtf8 text.now }
    ensures { IfOk result (λ l. l ≡ text.now) }
{
    let name = String::from_utf8_lossy(alloc, text.as_slice())?;
    Ok(Label::of(name))
}

// The type of a signal.
fn ty_of(sort: Sort) -> Ty
    ensures { result ≡ ty_of sort }
{
    match sort {
        Sort::InputSignal(t) => t,
        Sort::OutputSignal(t) => t,
        Sort::LocalSignal(t) => t,
        _ => Ty::Bool,
    }
}

// The signal that a declared name is.
fn signal_named(alloc: Global, entry: &Entry) -> Result<Signal, Memory>
    requires { IsFit entry.now }
    ensures { IfOk result (λ s. s ≡ signal_named entry.now) }
{
    let name = label_of(alloc, &entry.name.text)?;
    let ty = ty_of(entry.sort);
    Ok(Signal { name, ty })
}

// Whether a declared name is a signal of this part.
fn is_signal_of(part: Part, sort: Sort) -> bool
    ensures { result ≡ is_signal_of part sort }
{
    match part {
        Part::Input => matches!(sort, Sort::InputSignal(_)),
        Part::Output => matches!(sort, Sort::OutputSignal(_)),
        Part::Local => matches!(sort, Sort::LocalSignal(_)),
    }
}

// One more signal, where the test holds.
fn add_if(alloc: Global, signals: &mut Signals, test: bool, entry: &Entry) -> Result<(), Memory>
    requires { IsFit entry.now }
    ensures { OnOk result (signals.new ≡ signals.old ++ (if test then signal_named entry.now ∷ [] else [])) }
{
    if test {
        let signal = signal_named(alloc, entry)?;
        signals.push(signal)?;
    }
    Ok(())
}

/// The signals of a part among these names: the inputs, the outputs or the locals.
pub fn signals(alloc: Global, entries: &[Entry], part: Part) -> Result<Signals, Memory>
    requires { All IsFit entries.now }
    ensures { IfOk result (λ s. s ≡ map signal_named (filter (λ e. is_signal_of part e.sort) entries.now)) }
{
    let mut signals = Signals::new(alloc);
    for i in 0..entries.len() {
        let test = is_signal_of(part, entries[i].sort);
        add_if(alloc, &mut signals, test, &entries[i])?;
    }
    Ok(signals)
}

// One more instance, where the declared name is one.
fn add_instance(alloc: Global, instances: &mut Instances, entry: &Entry) -> Result<(), Memory>
    requires { IsFit entry.now }
    ensures { OnOk result (instances.new ≡ instances.old ++ (if is_instance entry.now.sort then instance_named entry.now ∷ [] else [])) }
{
    match entry.sort {
        Sort::Instance(kind) => {
            let name = label_of(alloc, &entry.name.text)?;
            instances.push(Instance { name, kind })
        }
        _ => Ok(()),
    }
}

/// The instances among these names.
pub fn instances(alloc: Global, entries: &[Entry]) -> Result<Instances, Memory>
    requires { All IsFit entries.now }
    ensures { IfOk result (λ s. s ≡ map instance_named (filter (λ e. is_instance e.sort) entries.now)) }
{
    let mut instances = Instances::new(alloc);
    for i in 0..entries.len() {
        add_instance(alloc, &mut instances, &entries[i])?;
    }
    Ok(instances)
}
