// Where in a text its notes are told.

ghost use Rattle.std.specs.Prelude.{◌≡◌, IfOk, map};
ghost use Rattle.ps_base.specs.LetterCase.{is_same_name};
ghost use Rattle.ps_notes.specs.Notes.{notes};
ghost use Rattle.ps_parser.specs.Pins.{pin_text};
ghost use Rattle.ps_parser.specs.Places.{step_place};
ghost use Rattle.ps_findings.specs.Places.{call_of, call_place, calling_step, declared_at, names_in, names_of};
ghost use Rattle.ps_findings.specs.Places.{note_place, pin_place, placed, placed_notes, signal_place};

use ps_base::{Memory, Place};
use ps_model::{App, Driver, pin_count, pin_name};
use ps_notes::{Note, Placed, notes};
use ps_parser::{Declaration, Name, Section, Source};
use std::alloc::Global;

// The step of a call, where a call drives a signal.
fn calling_step(driver: Option<Driver>) -> Option<u16>
    ensures { result ≡ calling_step driver }
{
    match driver {
        Some(Driver::Output { step, .. }) => Some(step),
        _ => None,
    }
}

// The step that calls an instance.
fn call_of(app: &App, instance: u16) -> Option<u16>
    ensures { result ≡ call_of app.now instance }
{
    app.sound();
    if instance >= app.instance_count() {
        return None;
    }
    let first = app.first_pin(instance);
    if first >= app.signal_count() {
        return None;
    }
    calling_step(app.driver(first))
}

/// The place of a step, or of the pin of this name in it, if there is one.
pub(crate) fn place_if(source: &Source, step: u16, pin: Option<&str>) -> Option<Place>
    ensures { result ≡ step_place source.now step (pin_text pin.entry) }
{
    let step = step as usize;
    if step >= source.statements.len() {
        return None;
    }
    let statement = source.statements.at(step);
    match pin {
        None => Some(statement.place()),
        Some(pin) => statement.pin_place(pin),
    }
}

// The place of an instance's call.
fn call_place(source: &Source, app: &App, instance: u16) -> Option<Place>
    ensures { result ≡ call_place source.now app.now instance }
{
    match call_of(app, instance) {
        Some(step) => place_if(source, step, None),
        None => None,
    }
}

// The place of a pin in an instance's call.
fn pin_place(source: &Source, app: &App, instance: u16, pin: u8) -> Option<Place>
    ensures { result ≡ pin_place source.now app.now instance pin }
{
    let step = call_of(app, instance)?;
    if instance >= app.instance_count() {
        return None;
    }
    let kind = app.instance_kind(instance);
    if pin < pin_count(kind) {
        place_if(source, step, Some(pin_name(kind, pin)))
    } else {
        None
    }
}

// Whether a name is this word, without letter case.
fn is_word(name: &Name, word: &[u8]) -> bool
    ensures { result ≡ is_same_name name.now.text word.now }
{
    name.text.as_slice().eq_ignore_ascii_case(word)
}

// The place of the first of these names that is this word, without letter case.
fn among_names(names: &[Name], word: &[u8]) -> Option<Place>
    ensures { result ≡ declared_at word.now names.now }
{
    for name in names {
        if is_word(name, word) {
            return Some(name.place);
        }
    }
    None
}

// The same of the names of declarations.
fn among_declarations(declarations: &[Declaration], word: &[u8]) -> Option<Place>
    ensures { result ≡ declared_at word.now (names_in declarations.now) }
{
    for declaration in declarations {
        let place = among_names(declaration.names.as_slice(), word);
        if place.is_some() {
            return place;
        }
    }
    None
}

// The same of the names of sections.
fn among_sections(sections: &[Section], word: &[u8]) -> Option<Place>
    ensures { result ≡ declared_at word.now (names_of sections.now) }
{
    for section in sections {
        let place = among_declarations(section.declarations.as_slice(), word);
        if place.is_some() {
            return place;
        }
    }
    None
}

// The place of the declaration of a signal.
fn signal_place(source: &Source, app: &App, signal: u16) -> Option<Place>
    ensures { result ≡ signal_place source.now app.now signal }
{
    if signal < app.declared_count() {
        among_sections(
            source.sections.as_slice(),
            app.signal_name(signal).as_bytes(),
        )
    } else {
        None
    }
}

// The place of a note: the pin that it is about; the call, where the pin is left free or the note is about the block;
// the step that reads a signal too early; and the declaration of a signal that nothing reads.
fn note_place(source: &Source, app: &App, note: Note) -> Option<Place>
    ensures { result ≡ note_place source.now app.now note }
{
    match note {
        Note::Idle { instance } => call_place(source, app, instance),
        Note::NoTime { instance, .. } => call_place(source, app, instance),
        Note::Unused { instance } => call_place(source, app, instance),
        Note::Never { instance } => call_place(source, app, instance),
        Note::Off { instance } => pin_place(source, app, instance, 0),
        Note::Restarts { instance, pin } => pin_place(source, app, instance, pin),
        Note::Zero { instance, pin } => pin_place(source, app, instance, pin),
        Note::Static { instance, pin } => pin_place(source, app, instance, pin),
        Note::Joined { instance, pin } => pin_place(source, app, instance, pin),
        Note::Inverted { instance, pin } => pin_place(source, app, instance, pin),
        Note::Early { step, .. } => place_if(source, step, None),
        Note::Unread { signal } => signal_place(source, app, signal),
        Note::Loose { signal } => signal_place(source, app, signal),
    }
}

// A note at its place.
fn placed(source: &Source, app: &App, note: Note) -> Placed
    ensures { result ≡ placed source.now app.now note }
{
    let place = match note_place(source, app, note) {
        Some(place) => place,
        None => Place { line: 0, column: 0 },
    };
    Placed { note, place }
}

/// The notes of an application of this flat source, in their order, each with the place at which it is told; line 0
/// where the source has none.
pub fn placed_notes(alloc: Global, source: &Source, app: &App) -> Result<Vec<Placed>, Memory>
    ensures notes { IfOk result (λ list. map (λ placed. placed.note) list.items ≡ notes app.now) }
    ensures placed { IfOk result (λ list. list.items ≡ placed_notes source.now app.now) }
{
    let found = notes(alloc, app)?;
    let mut list = Vec::new(alloc);
    for note in &found {
        list.push(placed(source, app, *note))?;
    }
    Ok(list)
}
