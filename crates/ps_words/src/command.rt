// What the words of a call ask of the program.

ghost use Rattle.std.specs.Prelude.{◌≡◌, ◌≤◌, ◌<◌, ◌⊎◌, IfOk, MatchOption, true, false, get_or};
ghost use Rattle.std.specs.List.{list_all};
ghost use Rattle.ps_words.specs.Command as asked;
ghost use Rattle.ps_words.specs.Seen.{command_seen, seen};

use crate::words::Words;
use ps_base::Memory;
use std::alloc::Global;

/// The forms of the commands, as one line.
pub const USAGE: &[u8] =
    b"usage: plcsafe run APP TRACE | fault APP TRACE FAULTS | check APP | cert APP | verify APP CERT | image APP | load N | demand APP | vote APP TRACE FAULTS | heal APP TRACE FAULTS\n";

/// What the words ask of the program.
#[derive(Clone, Copy)]
pub enum Command<'a> {
    /// `run APP TRACE`
    Run {
        app: &'a str,
        trace: &'a str,
    },
    /// `fault APP TRACE FAULTS`
    Fault {
        app: &'a str,
        trace: &'a str,
        faults: &'a str,
    },
    /// `check APP`
    Check {
        app: &'a str,
    },
    /// `cert APP`
    Cert {
        app: &'a str,
    },
    /// `verify APP CERT`
    Verify {
        app: &'a str,
        cert: &'a str,
    },
    /// `image APP`
    Image {
        app: &'a str,
    },
    /// `load N`, with N from 1 to 1000
    Load {
        number: u32,
    },
    /// `demand APP`
    Demand {
        app: &'a str,
    },
    /// `vote APP TRACE FAULTS`
    Vote {
        app: &'a str,
        trace: &'a str,
        faults: &'a str,
    },
    /// `heal APP TRACE FAULTS`
    Heal {
        app: &'a str,
        trace: &'a str,
        faults: &'a str,
    },
    /// The words are not taken.
    NotTaken,
}

// Whether a word is neither empty nor begins with a hyphen.
fn is_plain(word: &str) -> bool
    ensures { result ≡ asked.is_plain word.now }
{
    match word.as_bytes() {
        [] => false,
        [first, ..] => *first != b'-',
    }
}

/// The texts of the words, where each of them is neither empty nor begins with a hyphen; None: one is or does. An
/// error: memory runs out.
pub fn plain_texts(alloc: Global, words: &Words) -> Result<Option<Vec<&str>>, Memory>
    ensures { IfOk result (λ texts. MatchOption texts (list_all asked.is_plain words.now ≡ false)
        (λ v. (seen v.items ≡ words.now) × (list_all asked.is_plain words.now ≡ true))) }
{
    let mut texts = Vec::new(alloc);
    for i in 0..words.len() {
        let text = words.at(i).as_str();
        if !is_plain(text) {
            return Ok(None);
        }
        texts.push(text)?;
    }
    Ok(Some(texts))
}

// Whether the first byte is a digit from 1 to 9.
fn begins_above_zero(word: &str) -> bool
    ensures digit { result ≡ true → (49 ≤ get_or word.now 0 0) × (get_or word.now 0 0 ≤ 57) }
    ensures other { result ≡ false → (get_or word.now 0 0 < 49) ⊎ (57 < get_or word.now 0 0) }
{
    match word.as_bytes() {
        [] => false,
        [first, ..] => *first >= b'1' && *first <= b'9',
    }
}

// Whether a number is from 1 to 1000.
fn is_within(number: u32) -> bool
    ensures within { result ≡ true → (1 ≤ number) × (number ≤ 1000) }
    ensures outside { result ≡ false → (number < 1) ⊎ (1000 < number) }
{
    number >= 1 && number <= 1000
}

// What `load` asks with this word.
fn load<'a>(word: &str) -> Command<'a>
    ensures asked { command_seen result ≡ asked.load word.now }
    ensures bounded { asked.IsBounded (command_seen result) }
{
    if !begins_above_zero(word) {
        return Command::NotTaken;
    }
    match word.parse::<u32>() {
        Ok(number) => {
            if is_within(number) {
                Command::Load { number }
            } else {
                Command::NotTaken
            }
        }
        Err(_) => Command::NotTaken,
    }
}

// What the name of a command asks with one word.
fn one_word<'a>(name: &str, word: &'a str) -> Command<'a>
    ensures asked { command_seen result ≡ asked.one_word name.now word.now }
    ensures bounded { asked.IsBounded (command_seen result) }
{
    match name {
        "check" => Command::Check { app: word },
        "cert" => Command::Cert { app: word },
        "image" => Command::Image { app: word },
        "load" => load(word),
        "demand" => Command::Demand { app: word },
        _ => Command::NotTaken,
    }
}

// What the name of a command asks with two words.
fn two_words<'a>(name: &str, app: &'a str, other: &'a str) -> Command<'a>
    ensures asked { command_seen result ≡ asked.two_words name.now app.now other.now }
    ensures bounded { asked.IsBounded (command_seen result) }
{
    match name {
        "run" => Command::Run { app, trace: other },
        "verify" => Command::Verify { app, cert: other },
        _ => Command::NotTaken,
    }
}

// What the name of a command asks with three words.
fn three_words<'a>(name: &str, app: &'a str, trace: &'a str, faults: &'a str) -> Command<'a>
    ensures asked { command_seen result ≡ asked.three_words name.now app.now trace.now faults.now }
    ensures bounded { asked.IsBounded (command_seen result) }
{
    match name {
        "fault" => Command::Fault { app, trace, faults },
        "vote" => Command::Vote { app, trace, faults },
        "heal" => Command::Heal { app, trace, faults },
        _ => Command::NotTaken,
    }
}

/// The form of a command that words have, whatever their bytes; `NotTaken`: they have that of none. It takes no memory.
pub fn form_of<'a>(words: &[&'a str]) -> Command<'a>
    ensures asked { command_seen result ≡ asked.form_of (seen words.now) }
    ensures bounded { asked.IsBounded (command_seen result) }
{
    if words.len() == 2 {
        one_word(words[0], words[1])
    } else if words.len() == 3 {
        two_words(words[0], words[1], words[2])
    } else if words.len() == 4 {
        three_words(words[0], words[1], words[2], words[3])
    } else {
        Command::NotTaken
    }
}
