// What is told of words that are not taken.

ghost use Rattle.std.specs.Prelude.{◌≡◌, [], IfOk, IsTrue, OnErr, slice_get, slice_index_or};
ghost use Rattle.ps_edge.specs.Telling.{Carries, IsOfWords, asks_help, asks_version, takes_memory};
ghost use Rattle.ps_top.specs.declared.Status.TheVariants.{Usage};

use crate::telling::Message;
use ps_base::Memory;
use ps_findings::{HELP, VERSION, right_words, wrong_words};
use ps_message::usage_message;
use ps_top::Words;
use std::alloc::Global;

// Whether help is asked for, by the first word or by none.
fn asks_help(words: &Words) -> bool
    ensures { result ≡ asks_help (slice_get words.now 0) }
{
    if words.len() == 0 {
        return true;
    }
    let word = words.at(0).as_str();
    word == "--help" || word == "-h" || word == "help"
}

// Whether the version is asked for, by the first word.
fn asks_version(words: &Words) -> bool
    ensures { result ≡ asks_version (slice_get words.now 0) }
{
    if words.len() == 0 {
        return false;
    }
    let word = words.at(0).as_str();
    word == "--version" || word == "-V" || word == "version"
}

// The bytes of the word at a place; empty where there is none.
fn word_at(words: &Words, place: usize) -> &[u8]
    ensures { result.now ≡ slice_index_or words.now place [] }
{
    if place < words.len() {
        words.at(place).as_str().as_bytes()
    } else {
        &[]
    }
}

// What is told of words that are not taken. Of these the first five are looked at, one more than any command has.
pub(crate) fn usage_on(alloc: Global, words: &Words) -> Result<Message, Memory>
    ensures told { IfOk result (Carries (IsOfWords words.now)) }
    ensures memory { OnErr result (IsTrue (takes_memory words.now Usage)) }
{
    if asks_help(words) {
        return Ok(Message::Fixed(HELP));
    }
    if asks_version(words) {
        return Ok(Message::Fixed(VERSION));
    }
    let all = [
        word_at(words, 0),
        word_at(words, 1),
        word_at(words, 2),
        word_at(words, 3),
        word_at(words, 4),
    ];
    let given = &all[..words.len().min(5)];
    let wrong = wrong_words(alloc, given)?;
    let help = right_words(alloc, given)?;
    Ok(Message::Written(usage_message(alloc, wrong.as_slice(), help.as_slice())?))
}
