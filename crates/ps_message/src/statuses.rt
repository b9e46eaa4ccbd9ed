// The messages of calls that end without a refusal.

ghost use Rattle.std.specs.Prelude.{◌≡◌, ◌++◌, [], IfOk, OnOk};
ghost use Rattle.ps_message.specs.Ending.{again_text, cause_shown, channel_shown, field_shown, help_line, remedy_of};
ghost use Rattle.ps_message.specs.Ending.{trap_said, trip_text};
ghost use Rattle.ps_message.specs.Ending.{unread_text, usage_text, wrong_line, wrong_of};

use ps_base::{Bytes, Memory};
use ps_model::{Cause, Channel};
use ps_text::{MOST_OF_FILE, add_first, add_last, add_number};
use std::alloc::Global;

/// What is said where the output took no more.
pub const UNWRITTEN: &str = "\
plcsafe: the standard output takes no more bytes, so the answer is not whole\n\
look at the room on the disk, and at what reads the output (docs/refusals.md)\n\
";

/// What is said if memory ran out.
pub const NO_MEMORY: &str = "\
plcsafe: the system gave no more memory, so nothing was written\n\
close other programs, or raise the limit on memory (docs/refusals.md)\n\
";

/// Why a file could not be read.
#[derive(Clone, Copy)]
pub enum Unread {
    /// There is none of this name.
    Missing,
    /// It is a folder.
    Folder,
    /// The system does not give it to this user.
    Forbidden,
    /// It cannot be read at a place, as a pipe.
    Unplaced,
    /// A read failed.
    Failed,
}

// What is wrong with a file, and what helps.
#[derive(Clone, Copy)]
struct OfFile {
    wrong: &'static str,
    remedy: &'static str,
}

impl Unread {
    // Its words.
    fn said(self) -> OfFile
        ensures wrong { result.wrong.now ≡ wrong_of self }
        ensures remedy { result.remedy.now ≡ remedy_of self }
    {
        match self {
            Unread::Missing => OfFile {
                wrong: "there is no file of this name",
                remedy: "look at the spelling, the order of the words, and the folder in which plcsafe is called",
            },
            Unread::Folder => OfFile {
                wrong: "this is a folder, and a file is asked",
                remedy: "give the name of a file in it",
            },
            Unread::Forbidden => OfFile {
                wrong: "the system does not let this user read the file",
                remedy: "change its rights, or give a copy",
            },
            Unread::Unplaced => OfFile {
                wrong: "this cannot be read at a place, as a file can: it is a pipe or a terminal",
                remedy: "write it into a file first; /dev/stdin serves where a file stands behind <",
            },
            Unread::Failed => OfFile {
                wrong: "a read of the file failed",
                remedy: "call plcsafe again; where it fails anew look at the disk",
            },
        }
    }
}

// A line on a file: its name, and what is wrong.
fn add_wrong(message: &mut Bytes, file: &[u8], said: &OfFile) -> Result<(), Memory>
    ensures { OnOk result (message.new ≡ message.old ++ wrong_line file.now said.now.wrong.now) }
{
    add_last(message, file, MOST_OF_FILE)?;
    message.extend_from_slice(b": ")?;
    message.extend_from_slice(said.wrong.as_bytes())?;
    message.extend_from_slice(b"\n")
}

// A line on what helps.
fn add_help(message: &mut Bytes, said: &OfFile) -> Result<(), Memory>
    ensures { OnOk result (message.new ≡ message.old ++ help_line said.now.remedy.now) }
{
    message.extend_from_slice(said.remedy.as_bytes())?;
    message.extend_from_slice(b" (docs/refusals.md)\n")
}

/// The message of a file of this name that could not be read: the name, why, and what helps. The name is shown as in
/// the message of a refusal.
pub fn unread_message(alloc: Global, file: &[u8], why: Unread) -> Result<Bytes, Memory>
    ensures says { IfOk result (λ bytes. bytes ≡ unread_text file.now why) }
{
    let mut message = Bytes::new(alloc);
    let said = why.said();
    add_wrong(&mut message, file, &said)?;
    add_help(&mut message, &said)?;
    Ok(message)
}

// The name of a channel.
fn add_channel(message: &mut Bytes, channel: Channel) -> Result<(), Memory>
    ensures { OnOk result (message.new ≡ message.old ++ channel_shown channel) }
{
    match channel {
        Channel::A => message.extend_from_slice(b"channel A"),
        Channel::B => message.extend_from_slice(b"channel B"),
    }
}

// The most bytes of the name of a field, and of each line on the words of a call.
const MOST_OF_LINE: usize = 200;

// What a trap means.
fn said_of_trap(trap: u8) -> &'static [u8]
    ensures { result.now ≡ trap_said trap }
{
    match trap {
        1 => b", no such instruction",
        2 => b", past the end of the code",
        3 => b", a wrong height of the stack or number of pins",
        4 => b", a byte that is no Boolean",
        5 => b", a signal that there is not",
        6 => b", an instance or a kind that there is not",
        7 => b", bytes that are no state of the block",
        _ => b"",
    }
}

// A field of the reports.
fn add_field(message: &mut Bytes, field: u32, name: &[u8]) -> Result<(), Memory>
    ensures { OnOk result (message.new ≡ message.old ++ field_shown field name.now) }
{
    if !name.is_empty() {
        add_first(message, name, MOST_OF_LINE)?;
        message.extend_from_slice(b", ")?;
    }
    add_number(message, b"field ", field)
}

// A channel that a trap stopped.
fn add_trap(message: &mut Bytes, channel: Channel, trap: u8) -> Result<(), Memory>
    ensures { OnOk result (message.new ≡ message.old ++ cause_shown (Cause.Trap channel trap) []) }
{
    add_channel(message, channel)?;
    add_number(message, b" was stopped by trap ", u32::from(trap))?;
    message.extend_from_slice(said_of_trap(trap))?;
    Ok(())
}

// Why a scan tripped.
fn add_cause(message: &mut Bytes, cause: Cause, name: &[u8]) -> Result<(), Memory>
    ensures { OnOk result (message.new ≡ message.old ++ cause_shown cause name.now) }
{
    match cause {
        Cause::Differ(field) => {
            message.extend_from_slice(b"the reports of the channels differ, first in ")?;
            add_field(message, u32::from(field), name)?;
        }
        Cause::Stuck(channel) => {
            add_channel(message, channel)?;
            message.extend_from_slice(b" did not end within its turns")?;
        }
        Cause::Trap(channel, trap) => add_trap(message, channel, trap)?,
        Cause::NoReport(channel) => {
            add_channel(message, channel)?;
            message.extend_from_slice(
                b" has no report: an output, Ready or Error is a byte that is no Boolean",
            )?;
        }
    }
    Ok(())
}

/// The message of a scan of the trace of this name that tripped: its time in ms, why, and what that means. Where the
/// reports differ, `field` is the name of their first such field, or empty where none is known; of a longer one the
/// first 200 bytes are shown.
pub fn trip_message(
    alloc: Global,
    file: &[u8],
    now: u32,
    cause: Cause,
    field: &[u8],
) -> Result<Bytes, Memory>
    ensures says { IfOk result (λ bytes. bytes ≡ trip_text file.now now cause field.now) }
{
    let mut message = Bytes::new(alloc);
    add_last(&mut message, file, MOST_OF_FILE)?;
    add_number(&mut message, b": the scan at ", now)?;
    message.extend_from_slice(b" ms tripped: ")?;
    add_cause(&mut message, cause, field)?;
    message.extend_from_slice(
        b"\nevery output is FALSE from there up to the next restart (docs/traces.md, TRIP lines)\n",
    )?;
    Ok(message)
}

/// The message of a seat that was outvoted again in the scan after its healing, by its letter, in a trace of this
/// name: the time of that scan in ms, and what it may mean.
pub fn again_message(alloc: Global, file: &[u8], now: u32, letter: u8) -> Result<Bytes, Memory>
    ensures says { IfOk result (λ bytes. bytes ≡ again_text file.now now letter) }
{
    let mut message = Bytes::new(alloc);
    add_last(&mut message, file, MOST_OF_FILE)?;
    add_number(&mut message, b": the scan at ", now)?;
    message.extend_from_slice(b" ms outvoted seat ")?;
    message.extend_from_slice(&[letter])?;
    message.extend_from_slice(
        b" again, right behind its healing\na fault struck it anew, or the two others are wrong alike: A and C step blocks by one code",
    )?;
    message.extend_from_slice(b" (docs/faults.md, Healed in vain)\n")?;
    Ok(message)
}

/// The message of words that are not taken: what is wrong with them, and what helps, of each the first 200 bytes. Every
/// byte that is no printable ASCII character stands as an escape.
pub fn usage_message(alloc: Global, wrong: &[u8], help: &[u8]) -> Result<Bytes, Memory>
    ensures says { IfOk result (λ bytes. bytes ≡ usage_text wrong.now help.now) }
{
    let mut message = Bytes::new(alloc);
    message.extend_from_slice(b"plcsafe: ")?;
    add_first(&mut message, wrong, MOST_OF_LINE)?;
    message.extend_from_slice(b"\n")?;
    add_first(&mut message, help, MOST_OF_LINE)?;
    message.extend_from_slice(b" (docs/commands.md)\n")?;
    Ok(message)
}
