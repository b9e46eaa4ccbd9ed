// The list of all notes.

ghost use Rattle.std.specs.Prelude.{◌≡◌, ◌<◌, ◌++◌, ◌+◌, IfOk, OnOk, length};
ghost use Rattle.ps_model.specs.Action.{calls};
ghost use Rattle.ps_model.specs.Blocks.{block};
ghost use Rattle.ps_model.specs.Network.{instance_count, kind_at, signal_count};
ghost use Rattle.ps_model.specs.StepOf.{IsStepOf};
ghost use Rattle.ps_model.specs.Steps.{action};
ghost use Rattle.ps_notes.specs.Notes.{listed, of_pins, of_instance, of_driven, of_signal, of_step, is_local, step_of};
ghost use Rattle.ps_notes.specs.Notes.{notes};
ghost use Rattle.ps_notes.specs.Readers.{AreReaders};

use crate::calls::{has_asked, of_channels, of_enabling, of_inverted};
use crate::note::Note;
use crate::pins::of_pin;
use crate::readers::first_readers;
use ps_base::Memory;
use ps_model::{App, Args, Driver, Kind, Step, input_count, output_count};
use std::alloc::Global;

// Adds a note to the list, if there is one.
fn add(note: Option<Note>, list: &mut Vec<Note>) -> Result<(), Memory>
    ensures { OnOk result (list.new.items ≡ list.old.items ++ listed note) }
{
    if let Some(note) = note {
        list.push(note)?;
    }
    Ok(())
}

// Adds what is noted of the pins of a call.
fn add_of_pins(
    kind: Kind,
    instance: u16,
    asked: bool,
    args: &Args,
    list: &mut Vec<Note>,
) -> Result<(), Memory>
    requires { length args.now ≡ length (block kind).inputs }
    ensures { OnOk result (list.new.items ≡ list.old.items ++ of_pins kind instance 0 asked args.now) }
{
    for j in 0..input_count(kind) {
        add(of_pin(kind, instance, j, asked, args.at(j as usize)), list)?;
    }
    Ok(())
}

// What is noted of an instance.
fn of_instance(app: &App, readers: &[Option<u16>], instance: u16) -> Option<Note>
    requires instance { instance < instance_count app.now }
    requires readers { AreReaders app.now readers.now }
    ensures { result ≡ of_instance app.now instance }
{
    app.sound();
    let first = app.first_pin(instance);
    for j in 0..output_count(app.instance_kind(instance)) {
        if readers[(first + u16::from(j)) as usize].is_some() {
            return None;
        }
    }
    Some(Note::Unused { instance })
}

// Adds what is noted of a call.
fn add_of_call(
    app: &App,
    readers: &[Option<u16>],
    instance: u16,
    asked: bool,
    args: &Args,
    list: &mut Vec<Note>,
) -> Result<(), Memory>
    requires instance { instance < instance_count app.now }
    requires args { length args.now ≡ length (block (kind_at app.now instance)).inputs }
    requires readers { AreReaders app.now readers.now }
    ensures { OnOk result (list.new.items ≡ list.old.items ++ of_step app.now asked (calls instance args.now)) }
{
    let kind = app.instance_kind(instance);
    add_of_pins(kind, instance, asked, args, list)?;
    add(of_channels(kind, instance, args), list)?;
    add(of_enabling(kind, instance, args), list)?;
    add(of_inverted(app, kind, instance, args), list)?;
    add(of_instance(app, readers, instance), list)
}

// Adds what is noted of a step.
fn add_of_step(
    app: &App,
    readers: &[Option<u16>],
    asked: bool,
    step: &Step,
    list: &mut Vec<Note>,
) -> Result<(), Memory>
    requires step { IsStepOf app.now (action step.now) }
    requires readers { AreReaders app.now readers.now }
    ensures { OnOk result (list.new.items ≡ list.old.items ++ of_step app.now asked (action step.now)) }
{
    match step {
        Step::Assign { .. } => Ok(()),
        Step::Call { instance, args } => add_of_call(app, readers, *instance, asked, args, list),
    }
}

/// The number of the step that drives a signal.
pub(crate) fn step_of(driver: Driver) -> u16
    ensures { result ≡ step_of driver }
{
    match driver {
        Driver::Assigned { step } | Driver::Output { step, .. } => step,
    }
}

// What is noted of a signal that is no input, by whether it is a local, its first reader and its driver.
fn of_driven(
    is_local: bool,
    signal: u16,
    reader: Option<u16>,
    driver: Option<Driver>,
) -> Option<Note>
    ensures { result ≡ of_driven is_local signal reader driver }
{
    match (reader, driver) {
        (None, _) if is_local => Some(Note::Loose { signal }),
        (Some(step), Some(driver)) if step < step_of(driver) => Some(Note::Early { signal, step }),
        _ => None,
    }
}

// Whether a signal is a local.
fn is_local(app: &App, signal: u16) -> bool
    ensures { result ≡ is_local app.now signal }
{
    app.sound();
    signal >= app.input_count() + app.output_count() && signal < app.declared_count()
}

// What is noted of a signal.
fn of_signal(app: &App, readers: &[Option<u16>], signal: u16) -> Option<Note>
    requires signal { signal < signal_count app.now }
    requires readers { AreReaders app.now readers.now }
    ensures { result ≡ of_signal app.now signal }
{
    let reader = readers[signal as usize];
    if signal >= app.input_count() {
        return of_driven(is_local(app, signal), signal, reader, app.driver(signal));
    }
    match reader {
        Some(_) => None,
        None => Some(Note::Unread { signal }),
    }
}

/// The notes of an application: of its calls in the order of the text, for each its pins in their order, then what is
/// of several of them, and then the instance; and of its signals in the order of their numbers. It takes time linear in
/// the application. `Err` comes only if memory runs out.
pub fn notes(alloc: Global, app: &App) -> Result<Vec<Note>, Memory>
    ensures { IfOk result (λ list. list.items ≡ notes app.now) }
{
    app.sound();
    let readers = first_readers(alloc, app)?;
    let mut list = Vec::new(alloc);
    let mut asked = false;
    for k in 0..app.step_count() {
        add_of_step(app, readers.as_slice(), asked, app.step(k), &mut list)?;
        asked = has_asked(app, asked, app.step(k));
    }
    for s in 0..app.signal_count() {
        add(of_signal(app, readers.as_slice(), s), &mut list)?;
    }
    Ok(list)
}
