// The words that the system gives.

ghost use Rattle.std.specs.Prelude.{◌≡◌, ◌≤◌, List, String, string_bytes, map, drop, Ok, Err, IfOk, IfErr};
ghost use Rattle.std.specs.IoError.{error_kind};
ghost use Rattle.std.specs.Iterator.{Drains, IsFinite};
ghost use Rattle.std.specs.declared.alloc.Global.{Global as GlobalOf};
ghost use Rattle.ps_edge.specs.Exit.{number_without_words};

use crate::exit::exit_code_without_words;
use ps_base::{Label, Memory};
use ps_top::Words;
use std::alloc::Global;
use std::io;
use std::io::ErrorKind;

// All of these strings but the first, in their order.
fn words_behind<I: Iterator<Item = String> + Drop>(alloc: Global, args: I) -> Result<Words, Memory>
    requires can { I.can_next args }
    requires ends { IsFinite (I.remaining args) }
    ensures { IfOk result (λ words. (all : List (String GlobalOf))
        × Drains I.next_gives args all × (words ≡ drop 1 (map string_bytes all))) }
{
    let mut args = args;
    let mut words = Words::new(alloc);
    let Some(_program) = args.next() else {
        return Ok(words);
    };
    for word in args {
        words.push(Label::of(word))?;
    }
    Ok(words)
}

/// The words of a call, by the strings that the system gives, of which the first is the program's name: all after
/// it, in their order.
///
/// An error is the number with which the program exits where there are no words: that of running out of memory, or
/// `NO_WORDS` where the system does not give the strings, as where one is not UTF-8.
pub fn words_given<I: Iterator<Item = String> + Drop>(
    alloc: Global,
    args: io::Result<I>,
) -> Result<Words, u8>
    requires can { IfOk args (λ strings. I.can_next strings) }
    requires ends { IfOk args (λ strings. IsFinite (I.remaining strings)) }
    ensures words { IfOk result (λ words. (strings : I) × (args ≡ Ok strings)
        × (all : List (String GlobalOf)) × Drains I.next_gives strings all × (words ≡ drop 1 (map string_bytes all))) }
    ensures not_given { IfErr args (λ error. result ≡ Err (number_without_words (error_kind error))) }
    ensures memory { IfOk args (λ strings.
        IfErr result (λ number. number ≡ number_without_words ErrorKind.OutOfMemory)) }
    ensures in_range { IfErr result (λ number. number ≤ 8) }
{
    match args {
        Ok(strings) => match words_behind(alloc, strings) {
            Ok(words) => Ok(words),
            Err(Memory) => Err(exit_code_without_words(ErrorKind::OutOfMemory)),
        },
        Err(error) => Err(exit_code_without_words(error.kind())),
    }
}
