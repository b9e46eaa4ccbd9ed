// What a word means that stands in the place of a trace.

ghost use Rattle.std.specs.Prelude.{◌≡◌};
ghost use Rattle.std.specs.Char.{is_ascii_digit};
ghost use Rattle.std.specs.List.{list_all};
ghost use Rattle.ps_bench_frame.specs.Meant as meant;
ghost use Rattle.ps_bench_frame.specs.Meant.{by_line, is_of_cases, line_said, whole_word, word_meant};

use ps_trace::number;

/// What of a file is meant in the place of a trace.
#[derive(Clone, Copy)]
pub enum Part {
    /// The trace that it is.
    Trace,
    /// All of its cases, in one trace.
    Cases,
    /// The case that has this line.
    Case(u32),
}

/// A word in the place of a trace: the file that it names, and what of it is meant.
#[derive(Clone, Copy)]
pub struct Word<'a> {
    /// The name of the file.
    pub file: &'a str,
    /// What of it is meant.
    pub part: Part,
}

// Whether a name is that of a case file.
fn is_of_cases(name: &str) -> bool
    ensures { result ≡ is_of_cases name.now }
{
    name.as_bytes().ends_with(b".cases")
}

// Whether a word has digits alone.
fn are_digits(word: &[u8]) -> bool
    ensures { result ≡ list_all is_ascii_digit word.now }
{
    for byte in word {
        if !byte.is_ascii_digit() {
            return false;
        }
    }
    true
}

// The line that digits say.
fn line_said(word: &str) -> Option<u32>
    ensures { result ≡ line_said word.now }
{
    let word = word.as_bytes();
    if word.is_empty() || !are_digits(word) {
        return None;
    }
    Some(number(word).unwrap_or(u32::MAX))
}

// A word that has no line.
fn whole_word(word: &str) -> Word<'_>
    ensures file { result.file.now ≡ (whole_word word.now).file }
    ensures part { result.part ≡ (whole_word word.now).part }
{
    let part = if is_of_cases(word) {
        Part::Cases
    } else {
        Part::Trace
    };
    Word { file: word, part }
}

// A word by what stands before its last colon and the line after it, if it has them.
fn by_line<'a>(word: &'a str, file: &'a str, line: Option<u32>) -> Word<'a>
    ensures file { result.file.now ≡ (by_line word.now file.now line).file }
    ensures part { result.part ≡ (by_line word.now file.now line).part }
{
    match line {
        Some(line) if is_of_cases(file) => Word {
            file,
            part: Part::Case(line),
        },
        _ => whole_word(word),
    }
}

/// What a word means in the place of a trace: `FILE.cases` all cases of the file, `FILE.cases:LINE` the case that has
/// this line, and every other word the trace of its name. A line of more than 32 bits counts as the largest of them,
/// which no file has. It takes no memory.
pub fn word_of(word: &str) -> Word<'_>
    ensures file { result.file.now ≡ (word_meant word.now).file }
    ensures part { result.part ≡ (word_meant word.now).part }
{
    match word.rsplit_once(':') {
        Some((file, line)) => by_line(word, file, line_said(line)),
        None => whole_word(word),
    }
}
