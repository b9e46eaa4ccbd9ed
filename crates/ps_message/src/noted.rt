// The line of a note, and that of an odd comment.

ghost use Rattle.std.specs.Prelude.{◌≡◌, ◌<◌, ◌≤◌, ◌^◌, ◌++◌, codes, length, slice_get, Some, IfOk, OnOk};
ghost use Rattle.ps_model.specs.Drivers.{driver};
ghost use Rattle.ps_model.specs.Steps.{action};
ghost use Rattle.ps_message.specs.NoteLine.{instance_shown, pin_named, pin_shown, output_shown, signal_shown};
ghost use Rattle.ps_message.specs.NoteLine.{step_shown, subject, said, note_text, odd_said, odd_text};
ghost use Rattle.ps_message.specs.NoteLine.{plain_note_text, plain_odd_text};
ghost use Rattle.ps_text.specs.Lines.{IsEnded, place_shown};
ghost use Rattle.ps_text.specs.Shown.{last_shown};

use crate::writing::unended;
use ps_base::{Bytes, Memory, Place};
use ps_model::{App, Driver, Step, input_count, pin_count, pin_name};
use ps_notes::{Note, OddComment, Oddity, Placed};
use ps_text::{MOST_OF_FILE, add_last, add_place};
use std::alloc::Global;

/// The most bytes of the line of a note.
pub const LONGEST_NOTE: usize = 4_000;

// The most bytes of a name that are shown.
const MOST_OF_NAME: usize = 255;

// The name of an instance, or nothing.
fn add_instance(message: &mut Bytes, app: &App, instance: u16) -> Result<(), Memory>
    ensures { OnOk result (message.new ≡ message.old ++ instance_shown app.now instance) }
{
    if instance >= app.instance_count() {
        return Ok(());
    }
    add_last(
        message,
        app.instance_name(instance).as_bytes(),
        MOST_OF_NAME,
    )
}

// The pin of this name of an instance.
fn add_pin_named(message: &mut Bytes, app: &App, instance: u16, pin: &[u8]) -> Result<(), Memory>
    ensures { OnOk result (message.new ≡ message.old ++ pin_named app.now instance pin.now) }
{
    add_instance(message, app, instance)?;
    message.extend_from_slice(b".")?;
    message.extend_from_slice(pin)?;
    Ok(())
}

// A pin of an instance, or nothing.
fn add_pin(message: &mut Bytes, app: &App, instance: u16, pin: u32) -> Result<(), Memory>
    ensures { OnOk result (message.new ≡ message.old ++ pin_shown app.now instance pin) }
{
    if instance >= app.instance_count() {
        return Ok(());
    }
    let kind = app.instance_kind(instance);
    if pin >= u32::from(pin_count(kind)) {
        return Ok(());
    }
    add_pin_named(message, app, instance, pin_name(kind, pin as u8).as_bytes())
}

// An output of an instance by its driver, or nothing.
fn add_output(message: &mut Bytes, app: &App, driver: Option<Driver>) -> Result<(), Memory>
    ensures { OnOk result (message.new ≡ message.old ++ output_shown app.now driver) }
{
    match driver {
        Some(
            Driver::Output {
                instance,
                output,
                ..
            },
        ) if instance < app.instance_count() => {
            let inputs = input_count(app.instance_kind(instance));
            add_pin(
                message,
                app,
                instance,
                u32::from(inputs) + u32::from(output),
            )
        }
        _ => Ok(()),
    }
}

// A signal, or nothing.
fn add_signal(message: &mut Bytes, app: &App, signal: u16) -> Result<(), Memory>
    ensures { OnOk result (message.new ≡ message.old ++ signal_shown app.now signal) }
{
    app.sound();
    if signal < app.declared_count() {
        return add_last(message, app.signal_name(signal).as_bytes(), MOST_OF_NAME);
    }
    if signal >= app.signal_count() {
        return Ok(());
    }
    add_output(message, app, app.driver(signal))
}

// What a step does.
fn add_action(message: &mut Bytes, app: &App, step: &Step) -> Result<(), Memory>
    ensures { OnOk result (message.new ≡ message.old ++ step_shown app.now (Some (action step.now))) }
{
    match step {
        Step::Assign { target, .. } => {
            message.extend_from_slice(b"the assignment to ")?;
            add_signal(message, app, *target)?;
        }
        Step::Call { instance, .. } => {
            message.extend_from_slice(b"the call of ")?;
            add_instance(message, app, *instance)?;
        }
    }
    Ok(())
}

// A step, or nothing.
fn add_step(message: &mut Bytes, app: &App, step: u16) -> Result<(), Memory>
    ensures { OnOk result (message.new ≡ message.old ++ step_shown app.now (slice_get app.now.steps step)) }
{
    if step >= app.step_count() {
        return Ok(());
    }
    add_action(message, app, app.step(step))
}

// What a note is about.
fn add_subject(message: &mut Bytes, app: &App, note: Note) -> Result<(), Memory>
    ensures { OnOk result (message.new ≡ message.old ++ subject app.now note) }
{
    match note {
        Note::Idle { instance } | Note::Off { instance } => add_pin(message, app, instance, 0),
        Note::NoTime { instance, pin } | Note::Restarts { instance, pin } => {
            add_pin(message, app, instance, u32::from(pin))
        }
        Note::Zero { instance, pin } | Note::Static { instance, pin } => {
            add_pin(message, app, instance, u32::from(pin))
        }
        Note::Joined { instance, pin } | Note::Inverted { instance, pin } => {
            add_pin(message, app, instance, u32::from(pin))
        }
        Note::Early { signal, step } => {
            add_signal(message, app, signal)?;
            message.extend_from_slice(b" is read in ")?;
            add_step(message, app, step)?;
            Ok(())
        }
        Note::Unread { signal } => add_signal(message, app, signal),
        Note::Loose { signal } => add_signal(message, app, signal),
        Note::Unused { instance } | Note::Never { instance } => add_instance(
            message, app, instance,
        ),
    }
}

// What is said of what a note is about.
fn said(note: Note) -> &'static [u8]
    ensures { result.now ≡ said note }
{
    match note {
        Note::Idle { .. } =>
            b" is left free, so the block stays Idle; give it TRUE or a signal (docs/notes.md, 1)\n",
        Note::NoTime { .. } =>
            b" is left free, so the time is 0 ms; give it a TIME literal (docs/notes.md, 2)\n",
        Note::Early { .. } =>
            b" before the step that drives it, so its value there is that of the scan before; move that step up, if the value of this scan is meant (docs/notes.md, 3)\n",
        Note::Unread { .. } =>
            b" is an input that no step reads; give it to a block, or leave it out (docs/notes.md, 4)\n",
        Note::Unused { .. } =>
            b" has no output that another step reads; read one, or leave the block out (docs/notes.md, 5)\n",
        Note::Restarts { .. } =>
            b" is TRUE, so the block restarts by itself; leave it free where a person has to reset it (docs/notes.md, 6)\n",
        Note::Off { .. } =>
            b" is FALSE, so the block stays Idle; give it TRUE or a signal (docs/notes.md, 7)\n",
        Note::Zero { .. } =>
            b" is 0 ms, so what is to follow is late at once; give it the time that is allowed (docs/notes.md, 8)\n",
        Note::Static { .. } =>
            b" is TRUE and never rises, so it acknowledges nothing; give it a button (docs/notes.md, 9)\n",
        Note::Joined { .. } =>
            b" and the pin after it have one signal, so the block finds no fault of a channel;\
            \x20give each its own (docs/notes.md, 10)\n",
        Note::Never { .. } =>
            b" can never be enabled, since nothing resets it and S_StartReset is not TRUE;\
            \x20give Reset a button (docs/notes.md, 11)\n",
        Note::Inverted { .. } =>
            b" has no input of the program itself, so demands leave its NOT out;\
            \x20give it the input, where the demand is to have it (docs/notes.md, 12)\n",
        Note::Loose { .. } =>
            b" is a local that no step reads; read it, or leave it out (docs/notes.md, 13)\n",
    }
}

// The line of a note at a line and a column.
fn written(
    alloc: Global,
    file: &[u8],
    app: &App,
    note: Note,
    line: u32,
    column: u32,
) -> Result<Bytes, Memory>
    ensures says { IfOk result (λ bytes. bytes ≡ note_text file.now app.now
        (record { note = note; place = record { line = line; column = column } })) }
    ensures numbers { (line < 2 ^ 32) × (column < 2 ^ 32) }
{
    let mut message = Bytes::new(alloc);
    add_last(&mut message, file, MOST_OF_FILE)?;
    add_place(&mut message, line, column)?;
    message.extend_from_slice(b": note: ")?;
    add_subject(&mut message, app, note)?;
    message.extend_from_slice(said(note))?;
    Ok(message)
}

/// The line of a note of this application from a file of this name: where it is told, what it is about by the names of
/// the text, what that means, and what helps. Of the file's name, and of a longer name of the text, the last 255 bytes
/// are shown, and every byte that is no printable ASCII character stands as an escape, as `\x1b`. The line has at most
/// `LONGEST_NOTE` bytes. A place of line 0 is left out, and where a number of the note is none of the application,
/// nothing stands in the place of its name.
pub fn note_line(alloc: Global, file: &[u8], app: &App, placed: &Placed) -> Result<Bytes, Memory>
    ensures says { IfOk result (λ bytes. bytes ≡ note_text file.now app.now placed.now) }
    ensures bounded { IfOk result (λ bytes. length bytes ≤ LONGEST_NOTE) }
    ensures ended { IfOk result IsEnded }
{
    let Place { line, column } = placed.place;
    written(alloc, file, app, placed.note, line, column)
}

/// The line of a note of this application, in the form of `note_line`, for who shows its place himself: without the
/// place and the end of the line.
pub fn plain_note(alloc: Global, app: &App, note: Note) -> Result<Bytes, Memory>
    ensures { IfOk result (λ bytes. bytes ≡ plain_note_text app.now note) }
{
    let mut line = Bytes::new(alloc);
    add_subject(&mut line, app, note)?;
    line.extend_from_slice(said(note))?;
    unended(alloc, line.as_slice())
}

// What is said of an odd comment.
fn said_of_odd(what: Oddity) -> &'static [u8]
    ensures { result.now ≡ odd_said what }
{
    match what {
        Oddity::Return =>
            b"this comment has a carriage return, behind which other editors show a line that is not read;\
            \x20end lines by LF or CR LF (docs/notes.md, 14)\n",
        Oddity::Turn =>
            b"this comment has a character that turns the direction of what is shown, which may hide what stands here;\
            \x20delete it (docs/notes.md, 15)\n",
    }
}

/// The line of an odd comment of a text from a file of this name: where it is, and what is odd in it. The file's name
/// is shown as in the line of a note.
pub fn odd_line(alloc: Global, file: &[u8], odd: &OddComment) -> Result<Bytes, Memory>
    ensures says { IfOk result (λ bytes. bytes ≡ odd_text file.now odd.now) }
{
    let mut message = Bytes::new(alloc);
    add_last(&mut message, file, MOST_OF_FILE)?;
    add_place(&mut message, odd.place.line, odd.place.column)?;
    message.extend_from_slice(b": note: ")?;
    message.extend_from_slice(said_of_odd(odd.what))?;
    Ok(message)
}

/// The line of an odd comment, in the form of `odd_line`, for who shows its place himself: without the place and the
/// end of the line.
pub fn plain_odd(alloc: Global, what: Oddity) -> Result<Bytes, Memory>
    ensures { IfOk result (λ bytes. bytes ≡ plain_odd_text what) }
{
    unended(alloc, said_of_odd(what))
}
