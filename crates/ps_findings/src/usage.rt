// What is told where the words of a call have none of the forms.

ghost use Rattle.std.specs.Prelude.{◌≡◌, ◌==◌, ◌&&◌, ◌≤◌, [], ◌∷◌, IfOk, codes, find, if◌then◌else◌, length, map};
ghost use Rattle.std.specs.Prelude.{nat_lt, not, option_copied, reverse, slice_index_or};
ghost use Rattle.std.specs.Char.{is_ascii_digit};
ghost use Rattle.std.specs.List.{list_all};
ghost use Rattle.std.specs.Str.{bytes_eq};
ghost use Rattle.ps_findings.specs.Said.{HasSaid};
ghost use Rattle.ps_findings.specs.Usage.{command_in, common, count_taken, count_text, help_text, in_marks, is_load};
ghost use Rattle.ps_findings.specs.Usage.{led, names_no_file, no_file_text, row_among, row_meant, row_near, row_text};
ghost use Rattle.ps_findings.specs.Usage.{rows_of, slips, taken_at, unknown_text, word_of, words_text, wrong_text};

use crate::lines::word_at;
use crate::telling::Telling;
use ps_base::{Bytes, Memory};
use ps_text::line_at;
use std::alloc::Global;

/// What help tells: the commands and options, each with what it takes and an example.
pub const HELP: &str = "\
plcsafe runs safety applications in two channels, and writes what both agree on (docs/commands.md)\n\
\n\
\x20 run APP TRACE           plcsafe run press.st strokes.trace\n\
\x20 fault APP TRACE FAULTS  plcsafe fault press.st guard.trace and-is-or.faults\n\
\x20 check APP               plcsafe check press.st\n\
\x20 cert APP                plcsafe cert press.st\n\
\x20 verify APP CERT         plcsafe verify press.st press.cert\n\
\x20 image APP               plcsafe image press.st\n\
\x20 load N                  plcsafe load 10\n\
\x20 demand APP              plcsafe demand press.st\n\
\x20 vote APP TRACE FAULTS   plcsafe vote press.st guard.trace and-is-or.faults\n\
\x20 heal APP TRACE FAULTS   plcsafe heal press.st guard.trace struck-in-turn.faults\n\
\x20 --help                  plcsafe --help\n\
\x20 --version               plcsafe --version\n\
\n\
APP, TRACE, FAULTS and CERT are names of files, and N is a number from 1 to 1000\n\
";

/// The version, and where the record stands that says of a file whether, with which kit and of which sources it is
/// proved.
pub const VERSION: &str = "\
plcsafe 0.9.0\n\
its record has the SHA-256 of the program that was proved, the kit and the sources: share/doc/plcsafe/record where it is\n\
installed, built/ps_main/record in the repository; what is proved is in docs/proofs.md\n\
";

// The fewest bytes of a word in neither common end with which a command is not near.
const MOST_SLIPS: usize = 3;

// One more than the rows of the table.
const MOST_ROWS: u32 = 20;

// The word of this number of a row; empty where it has none.
fn word_of(row: &[u8], number: usize) -> &[u8]
    ensures { result.now ≡ word_of row.now number }
{
    match word_at(row, number) {
        Some(word) => word,
        None => &[],
    }
}

// The first word of a row of the table; empty where the row has none.
fn command_in(row: &[u8]) -> &[u8]
    ensures { result.now ≡ command_in row.now }
{
    if row.starts_with(b"  ") {
        word_of(row, 0)
    } else {
        &[]
    }
}

// Whether a row is that of this command or option.
fn is_of(row: &[u8], word: &[u8]) -> bool
    ensures { result ≡ (not (length word.now == 0) && bytes_eq (command_in row.now) word.now) }
{
    !word.is_empty() && command_in(row) == word
}

// The row of the table for this command or option; empty where there is none.
fn row_of<'a>(table: &'a [u8], word: &[u8]) -> &'a [u8]
    ensures { result.now ≡ row_among word.now (rows_of table.now) }
{
    for number in 1..MOST_ROWS {
        let row = line_at(table, number);
        if is_of(row, word) {
            return row;
        }
    }
    &[]
}

// How many bytes two words have in common at their beginning, without letter case.
fn common_start(word: &[u8], other: &[u8]) -> usize
    ensures { result ≡ common word.now other.now }
{
    word.iter()
        .zip(other.iter())
        .take_while(|(a, b)| a.to_ascii_lowercase() == b.to_ascii_lowercase())
        .count()
}

// How many bytes two words have in common at their end, without letter case.
fn common_end(word: &[u8], other: &[u8]) -> usize
    ensures { result ≡ common (reverse word.now) (reverse other.now) }
{
    word.iter()
        .rev()
        .zip(other.iter().rev())
        .take_while(|(a, b)| a.to_ascii_lowercase() == b.to_ascii_lowercase())
        .count()
}

// How many bytes of the longer of two words stand in neither common end.
fn slips(word: &[u8], other: &[u8]) -> usize
    ensures { result ≡ slips word.now other.now }
{
    let same = common_start(word, other).saturating_add(common_end(word, other));
    word.len().max(other.len()).saturating_sub(same)
}

// Whether a row has a command, and so many slips are fewer than the least ones.
fn is_nearer(row: &[u8], count: usize, least: usize) -> bool
    ensures { result ≡ (not (length (command_in row.now) == 0) && nat_lt count least) }
{
    !command_in(row).is_empty() && count < least
}

// The row of the command or option that is nearest to a word; empty where none is near.
fn row_near<'a>(table: &'a [u8], word: &[u8]) -> &'a [u8]
    ensures { result.now ≡ row_near table.now word.now }
{
    let mut found: &'a [u8] = &[];
    let mut least = MOST_SLIPS;
    for number in 1..MOST_ROWS {
        let row = line_at(table, number);
        let count = slips(word, command_in(row));
        if is_nearer(row, count, least) {
            found = row;
            least = count;
        }
    }
    found
}

// The row of a command, and where the word is none, the nearest one; empty where there is neither.
fn row_meant<'a>(table: &'a [u8], word: &[u8]) -> &'a [u8]
    ensures { result.now ≡ row_meant table.now word.now }
{
    let row = row_of(table, word);
    if row.is_empty() {
        row_near(table, word)
    } else {
        row
    }
}

// The name in a row of what stands at a place after the command, as TRACE; empty where nothing stands there.
fn taken_at(row: &[u8], place: usize) -> &[u8]
    ensures { result.now ≡ taken_at row.now place }
{
    let word = word_of(row, place);
    if word == b"plcsafe".as_slice() {
        &[]
    } else {
        word
    }
}

// How many words a row takes after the command.
fn count_taken(row: &[u8]) -> usize
    ensures counts { result ≡ count_taken row.now }
    ensures few { result ≤ 3 }
{
    if taken_at(row, 1).is_empty() {
        0
    } else if taken_at(row, 2).is_empty() {
        1
    } else if taken_at(row, 3).is_empty() {
        2
    } else {
        3
    }
}

// Whether each byte of a word is a digit.
fn has_digits(word: &[u8]) -> bool
    ensures { result ≡ list_all is_ascii_digit word.now }
{
    for byte in word {
        if !byte.is_ascii_digit() {
            return false;
        }
    }
    true
}

// Whether a word that is not empty is a number that `load` takes.
fn is_load(word: &[u8]) -> bool
    ensures { result ≡ is_load word.now }
{
    let is_short = word.len() <= 3 || word == b"1000".as_slice();
    is_short && has_digits(word) && !word.starts_with(b"0")
}

// Adds what is wrong with a first word that is no command, with the nearest one.
fn add_unknown(telling: &mut Telling, word: &[u8], command: &[u8])
    ensures { HasSaid (unknown_text word.now command.now) telling.old telling.new }
{
    telling.say(b"", word, b" is no command");
    if !command.is_empty() {
        telling.add(b"; the nearest is ");
        telling.add(command);
    }
}

// Whether a word is empty or looks like an option.
fn names_no_file(word: &[u8]) -> bool
    ensures { result ≡ names_no_file word.now }
{
    word.is_empty() || word.starts_with(b"-")
}

// The first of these words that is empty or looks like an option.
fn first_wrong<'a>(words: &[&'a [u8]]) -> Option<&'a [u8]>
    ensures { option_copied result ≡ find names_no_file (map (λ word. word.now) words.now) }
{
    for word in words {
        if names_no_file(word) {
            return Some(*word);
        }
    }
    None
}

// Adds what is wrong with a word that is empty or looks like an option.
fn add_no_file(telling: &mut Telling, word: &[u8])
    ensures { HasSaid (no_file_text word.now) telling.old telling.new }
{
    if word.is_empty() {
        telling.add(b"a word is empty, and no name of a file is");
    } else {
        telling.say(
            b"",
            word,
            b" begins with a hyphen: no name of a file does, and no command has options",
        );
    }
}

// The word of this number among some; empty where there is none.
fn word_among<'a>(words: &[&'a [u8]], number: usize) -> &'a [u8]
    ensures { result.now ≡ slice_index_or (map (λ word. word.now) words.now) number [] }
{
    match words.get(number) {
        Some(word) => *word,
        None => &[],
    }
}

// How many words there are.
fn count_words(words: &[&[u8]]) -> usize
    ensures { result ≡ length (map (λ word. word.now) words.now) }
{
    words.len()
}

// Adds what is wrong with how many words stand after a command, or with the number of `load`.
fn add_count(telling: &mut Telling, row: &[u8], words: &[&[u8]])
    ensures { HasSaid (count_text row.now (map (λ word. word.now) words.now)) telling.old telling.new }
{
    let wanted = count_taken(row);
    let count = count_words(words);
    if count < wanted {
        telling.add(taken_at(row, count + 1));
        telling.add(b" is missing");
    } else if wanted < count {
        telling.say(b"", word_among(words, wanted), b" is one word too many");
    } else if count == 1 && !is_load(word_among(words, 0)) {
        telling.say(
            b"",
            word_among(words, 0),
            b" is no number from 1 to 1000, in digits without a zero in front",
        );
    }
}

// Adds what is wrong with the words after a command of this row.
fn add_words(telling: &mut Telling, row: &[u8], words: &[&[u8]])
    ensures { HasSaid (words_text row.now (map (λ word. word.now) words.now)) telling.old telling.new }
{
    match first_wrong(words) {
        Some(word) => add_no_file(telling, word),
        None => add_count(telling, row, words),
    }
}

// Adds what is wrong with a first word and others, by a table of commands.
fn add_wrong(telling: &mut Telling, table: &[u8], first: &[u8], others: &[&[u8]])
    ensures { HasSaid (wrong_text table.now (first.now ∷ map (λ word. word.now) others.now)) telling.old telling.new }
{
    let row = row_of(table, first);
    if row.is_empty() {
        add_unknown(telling, first, command_in(row_near(table, first)));
    } else {
        add_words(telling, row, others);
    }
}

// What is wrong with words, by a table of commands.
fn wrong_by(alloc: Global, table: &[u8], words: &[&[u8]]) -> Result<Bytes, Memory>
    ensures { IfOk result (λ bytes. bytes ≡ wrong_text table.now (map (λ word. word.now) words.now)) }
{
    let mut telling = Telling::new(alloc);
    if let Some((first, others)) = words.split_first() {
        add_wrong(&mut telling, table, first, others);
    }
    telling.finish()
}

/// What is wrong with the first words of a call that are not taken, of which there are at most five: which word, or
/// which one is missing, and the nearest command or option where the first is none.
pub fn wrong_words(alloc: Global, words: &[&[u8]]) -> Result<Bytes, Memory>
    ensures says { IfOk result (λ bytes. bytes ≡ wrong_text HELP.now (map (λ word. word.now) words.now)) }
{
    wrong_by(alloc, HELP.as_bytes(), words)
}

// Adds a word of a row, before which stands what leads to an example.
fn add_led(telling: &mut Telling, begins_example: bool, word: &[u8])
    ensures { HasSaid (led begins_example word.now) telling.old telling.new }
{
    if !word.is_empty() {
        telling.add(if begins_example { b", as: " } else { b" " });
        telling.add(word);
    }
}

// What stands between a command and the words that it takes.
fn takes(count: usize) -> &'static [u8]
    ensures { result.now ≡ (if count == 0 then codes " takes no word" else codes " takes") }
{
    if count == 0 {
        b" takes no word"
    } else {
        b" takes"
    }
}

// Adds what a row takes, and its example.
fn add_row(telling: &mut Telling, row: &[u8])
    ensures { HasSaid (row_text row.now) telling.old telling.new }
{
    let wanted = count_taken(row);
    telling.add(command_in(row));
    telling.add(takes(wanted));
    for place in 1..10 {
        add_led(telling, place == wanted + 1, word_of(row, place));
    }
}

// What helps against words, by a table of commands.
fn help_by(alloc: Global, table: &[u8], first: &[u8]) -> Result<Bytes, Memory>
    ensures { IfOk result (λ bytes. bytes ≡ help_text table.now first.now) }
{
    let mut telling = Telling::new(alloc);
    let row = row_meant(table, first);
    if row.is_empty() {
        telling.add(b"plcsafe --help has the commands, with an example each");
    } else {
        add_row(&mut telling, row);
    }
    telling.finish()
}

/// What helps against words that are not taken: what the command that was meant takes, with an example, or where all
/// commands stand.
pub fn right_words(alloc: Global, words: &[&[u8]]) -> Result<Bytes, Memory>
    ensures says { IfOk result (λ bytes.
        bytes ≡ help_text HELP.now (slice_index_or (map (λ word. word.now) words.now) 0 [])) }
{
    help_by(alloc, HELP.as_bytes(), word_among(words, 0))
}
