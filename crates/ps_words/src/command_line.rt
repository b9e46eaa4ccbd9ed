// The command that the words of a call are.

ghost use Rattle.std.specs.Prelude.{◌≡◌, IfOk};
ghost use Rattle.ps_words.specs.Command as asked;
ghost use Rattle.ps_words.specs.Seen.{command_seen};

use crate::parsing::is_parsed;
use crate::{Command, Words, form_of, plain_texts};
use ps_base::Memory;
use std::alloc::Global;

/// What the words ask of the program. `NotTaken` comes exactly where the words are no command with its further words,
/// each neither empty nor beginning with a hyphen. The words are read by `clap`; an error: memory runs out.
pub fn command_of(alloc: Global, words: &Words) -> Result<Command<'_>, Memory>
    ensures asked { IfOk result (λ command. command_seen command ≡ asked.command_of words.now) }
    ensures bounded { IfOk result (λ command. asked.IsBounded (command_seen command)) }
{
    let Some(texts) = plain_texts(alloc, words)? else {
        return Ok(Command::NotTaken);
    };
    if !is_parsed(alloc, texts.as_slice())? {
        return Ok(Command::NotTaken);
    }
    Ok(form_of(texts.as_slice()))
}
