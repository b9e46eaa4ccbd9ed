// The buffer in which the lines of a run are made.

ghost use Rattle.std.specs.Prelude.{◌≡◌, ◌+◌, ◌≤◌, ◌++◌, length, take, false, IfSome};
ghost use Rattle.std.specs.List.{flat_map};
ghost use Rattle.ps_model.specs.Network.{instance_count};
ghost use Rattle.ps_report.specs.Image.{channel_letter};
ghost use Rattle.ps_report.specs.Lines.{cause_text, given_cause, named_value, output_texts, instance_texts};
ghost use Rattle.ps_report.specs.Lines.{outputs_room, instances_room};

use crate::line::{put, put_byte, put_named_diag, put_named_value, put_number};
use ps_base::Memory;
use ps_model::{App, Bits, Cause, Channel, Diags, Report};
use std::alloc::Global;
use std::marker::Model;

// The outputs with their values.
fn put_outputs(line: &mut [u8], at: usize, app: &App, outs: &Bits) -> usize
    requires values { length outs.now ≡ length app.now.outputs }
    requires room { at + outputs_room app.now.outputs ≤ length line.old }
    ensures bytes { take result line.new ≡ take at line.old ++ output_texts app.now.outputs outs.now }
    ensures end { result ≤ at + outputs_room app.now.outputs }
    ensures len { length line.new ≡ length line.old }
{
    app.sound();
    let first = app.input_count();
    let mut end = at;
    for j in 0..app.output_count() {
        end = put_named_value(line, end, app.signal_name(first + j), outs.at(j as usize));
    }
    end
}

// Every output with the value FALSE.
fn put_false_outputs(line: &mut [u8], at: usize, app: &App) -> usize
    requires room { at + outputs_room app.now.outputs ≤ length line.old }
    ensures bytes { take result line.new ≡ take at line.old ++ flat_map (λ output. named_value output.name false) app.now.outputs }
    ensures end { result ≤ at + outputs_room app.now.outputs }
    ensures len { length line.new ≡ length line.old }
{
    app.sound();
    let first = app.input_count();
    let mut end = at;
    for j in 0..app.output_count() {
        end = put_named_value(line, end, app.signal_name(first + j), false);
    }
    end
}

// The instances with what they say of themselves.
fn put_instances(line: &mut [u8], at: usize, app: &App, diags: &Diags) -> usize
    requires values { length diags.now ≡ instance_count app.now }
    requires room { at + instances_room app.now.instances ≤ length line.old }
    ensures bytes { take result line.new ≡ take at line.old ++ instance_texts app.now.instances diags.now }
    ensures end { result ≤ at + instances_room app.now.instances }
    ensures len { length line.new ≡ length line.old }
{
    let mut end = at;
    for i in 0..app.instance_count() {
        end = put_named_diag(line, end, app.instance_name(i), diags.at(i as usize));
    }
    end
}

// A channel's letter.
pub(crate) fn letter(channel: Channel) -> &'static str
    ensures letter { result.now ≡ channel_letter channel }
    ensures len { length result.now ≡ 1 }
{
    match channel {
        Channel::A => "A",
        Channel::B => "B",
    }
}

// Why a scan is tripped, in room for 20 bytes.
fn put_cause(line: &mut [u8], at: usize, cause: Cause) -> usize
    requires { at + 20 ≤ length line.old }
    ensures bytes { take result line.new ≡ take at line.old ++ cause_text cause }
    ensures end { result ≤ at + 20 }
    ensures len { length line.new ≡ length line.old }
{
    match cause {
        Cause::Differ(field) => {
            let at = put(line, at, b" differ ");
            put_number(line, at, u32::from(field))
        }
        Cause::Stuck(channel) => {
            let at = put(line, at, b" stuck ");
            put(line, at, letter(channel).as_bytes())
        }
        Cause::Trap(channel, number) => {
            let at = put(line, at, b" trap ");
            let at = put(line, at, letter(channel).as_bytes());
            let at = put_byte(line, at, b' ');
            put_number(line, at, u32::from(number))
        }
        Cause::NoReport(channel) => {
            let at = put(line, at, b" no report ");
            put(line, at, letter(channel).as_bytes())
        }
    }
}

// The cause of the scan that trips, or nothing for a later one.
fn put_given_cause(line: &mut [u8], at: usize, cause: Option<Cause>) -> usize
    requires { at + 20 ≤ length line.old }
    ensures bytes { take result line.new ≡ take at line.old ++ given_cause cause }
    ensures end { result ≤ at + 20 }
    ensures len { length line.new ≡ length line.old }
{
    match cause {
        Some(cause) => put_cause(line, at, cause),
        None => at,
    }
}

// The room of all outputs and instances of an application, in bytes, or None where it passes every number.
fn fields_room(app: &App) -> Option<usize>
    ensures { IfSome result (λ n. n ≡ outputs_room app.now.outputs + instances_room app.now.instances) }
{
    app.sound();
    let first = app.input_count();
    let mut room: usize = 0;
    for j in 0..app.output_count() {
        room = room
            .checked_add(app.signal_name(first + j).len())?
            .checked_add(3)?;
    }
    for i in 0..app.instance_count() {
        room = room
            .checked_add(app.instance_name(i).len())?
            .checked_add(10)?;
    }
    Some(room)
}

/// A buffer for the lines of one application. Contracts see the number of bytes that it has room for.
#[derive(Drop)]
pub struct LineBuffer {
    text: Vec<u8>,
}

impl Model for LineBuffer {
    ghost use Rattle.std.specs.Prelude.{ℕ, vec_len};

    ghost Value = { ℕ };

    ghost view = { λ b. vec_len b.text };
}

impl LineBuffer {
    ghost use Rattle.std.specs.Prelude.{IfOk, ⊤};
    ghost use Rattle.std.specs.Borrow.{sem};
    ghost use mathlib.Core.Option.{none};
    ghost use denote.Follow.{follows_so};
    ghost use Rattle.ps_report.specs.contracts.buffer.LineBuffer.{the_row};
    ghost use Rattle.ps_report.specs.Lines.{line_room, report_text, trip_text};

    /// A buffer with room for every line of a run of this application. It takes all memory that its lines will use.
    pub fn for_app(alloc: Global, app: &App) -> Result<LineBuffer, Memory>
        ensures { IfOk result (λ b. line_room app.now ≤ b) }
    {
        let fields = fields_room(app).ok_or(Memory)?;
        let room = fields.checked_add(48).ok_or(Memory)?;
        Ok(LineBuffer {
            text: vec![in alloc; 0; room]?,
        })
    }

    /// The line of a scan, as `30 S_Motor=1 E=1,0,8000`: its time in ms, each output, and Ready, Error and DiagCode of
    /// each instance, in order of declaration, ended by a line feed. It takes no memory.
    pub fn report_line(&mut self, app: &App, now: u32, report: &Report) -> &[u8]
        requires room { line_room app.now ≤ self.old }
        requires outputs { length report.now.outs ≡ length app.now.outputs }
        requires instances { length report.now.diags ≡ instance_count app.now }
        ensures line { result.now ≡ report_text app.now now report.now }
        ensures* after { sem 𝓛 (follows_so the_row the_row self.entry.ghost_name none (λ _ _. ⊤) (λ room. self.old ≤ room)) }
    {
        let text = &mut self.text;
        let at = put_number(text, 0, now);
        let at = put_outputs(text, at, app, &report.outs);
        let at = put_instances(text, at, app, &report.diags);
        let end = put_byte(text, at, b'\n');
        &text[..end]
    }

    /// The line of a scan that trips, as `20 TRIP differ 0 S_Motor=0`, or, without a cause, of a later scan, as
    /// `30 TRIP S_Motor=0`. It takes no memory.
    pub fn trip_line(&mut self, app: &App, now: u32, cause: Option<Cause>) -> &[u8]
        requires { line_room app.now ≤ self.old }
        ensures line { result.now ≡ trip_text app.now now cause }
        ensures* after { sem 𝓛 (follows_so the_row the_row self.entry.ghost_name none (λ _ _. ⊤) (λ room. self.old ≤ room)) }
    {
        let text = &mut self.text;
        let at = put_number(text, 0, now);
        let at = put(text, at, b" TRIP");
        let at = put_given_cause(text, at, cause);
        let at = put_false_outputs(text, at, app);
        let end = put_byte(text, at, b'\n');
        &text[..end]
    }
}
