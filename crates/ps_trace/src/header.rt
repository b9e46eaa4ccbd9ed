// The header of a trace.

ghost use Rattle.std.specs.Prelude.{◌≡◌, ◌≤◌, ◌<◌, ◌+◌, ◌==◌, ◌^◌, ℕ, IsTrue, Some, length, drop, not, replicate};
ghost use Rattle.std.specs.Prelude.{slice_index, slice_set, if◌then◌else◌, IfOk, IfSome, codes};
ghost use Rattle.std.specs.Str.{bytes_eq};
ghost use Rattle.std.specs.List.{list_all, position_from};
ghost use Rattle.ps_model.specs.Network.{input_count};
ghost use Rattle.ps_trace.specs.Words.{fields, words};
ghost use Rattle.ps_trace.specs.Header.{input_names, input_named, inputs_named, names_another, times_named, names_said};
ghost use Rattle.ps_trace.specs.Header.{header_said};
ghost use Rattle.ps_trace.specs.HeaderSays.{header_by, names_by, IsSized};

use crate::words::{first_field, next_word};
use ps_base::{Memory, Rule};
use ps_model::App;
use std::alloc::Global;

/// What a line says as a header: nothing; for each input the place of its value on a scan line; or a rule refuses it.
#[derive(Drop)]
pub enum HeaderSays {
    /// It is skipped.
    Nothing,
    /// The place of each input's value.
    Places(Vec<usize>),
    /// A rule refuses it.
    Broken(Rule),
}

/// Reads a line as the header. Each of its words is compared with the names of the inputs, of which there are 512 at
/// most, once in a trace.
pub fn read_header(alloc: Global, line: &[u8], app: &App) -> Result<HeaderSays, Memory>
    ensures says { IfOk result (λ says. header_said (input_names app.now) (fields line.now) ≡ header_by says) }
    ensures sized { IfOk result (IsSized (input_count app.now)) }
{
    let Some((from, upto)) = first_field(line) else {
        return Ok(HeaderSays::Nothing);
    };
    if !is_time(&line[from..upto]) {
        return Ok(HeaderSays::Broken(Rule::T1));
    }
    let inputs = app.input_count() as usize;
    let mut places = vec![in alloc; 0; inputs]?;
    let mut times = vec![in alloc; 0; inputs]?;
    match judge_names(line, upto, app, &mut places, &mut times) {
        Some(rule) => Ok(HeaderSays::Broken(rule)),
        None => Ok(HeaderSays::Places(places)),
    }
}

// Whether a word is `time`.
fn is_time(word: &[u8]) -> bool
    ensures { result ≡ bytes_eq word.now (codes "time") }
{
    word == b"time".as_slice()
}

// The rule that refuses the names of a header, which stand from `at` on. None: each input is named once, and its
// place is written.
fn judge_names(
    line: &[u8],
    at: usize,
    app: &App,
    places: &mut [usize],
    times: &mut [usize],
) -> Option<Rule>
    requires within { at ≤ length line.now }
    requires places { length places.old ≡ input_count app.now }
    requires times { times.old ≡ replicate (input_count app.now) 0 }
    ensures { names_said (input_names app.now) (words (drop at line.now)) ≡ names_by result places.new }
{
    if !read_names(line, at, app, places, times) {
        return Some(Rule::T2);
    }
    if !are_once(times) {
        return Some(Rule::T3);
    }
    None
}

// Whether each input is named once.
fn are_once(times: &[usize]) -> bool
    ensures { result ≡ list_all (λ n. n == 1) times.now }
{
    times.iter().all(|n| *n == 1)
}

// Reads the names of a header from `at` on: how often each input is named, and the place of its name. False: one of
// them is no input's.
fn read_names(line: &[u8], at: usize, app: &App, places: &mut [usize], times: &mut [usize]) -> bool
    requires within { at ≤ length line.now }
    requires places { length places.old ≡ input_count app.now }
    requires times { times.old ≡ replicate (input_count app.now) 0 }
    ensures known { result ≡ not (names_another (input_names app.now) (words (drop at line.now))) }
    ensures times { IsTrue result → (i : ℕ) → i < input_count app.now →
        slice_index times.new i ≡ times_named (inputs_named (input_names app.now) (words (drop at line.now))) i }
    ensures places { IsTrue result → (i : ℕ) → i < input_count app.now → 0 < slice_index times.new i →
        position_from (λ j. j == i) 0 (inputs_named (input_names app.now) (words (drop at line.now))) ≡ Some (slice_index places.new i) }
{
    let mut count = 0;
    let mut next = at;
    'names: while let Some((from, upto)) = next_word(line, next) {
        let Some(i) = input_named(app, &line[from..upto]) else {
            return false;
        };
        note(places, times, i, count);
        count += 1;
        next = upto;
    }
    true
}

// Input i is named once more, at this place.
fn note(places: &mut [usize], times: &mut [usize], i: usize, place: usize)
    requires in_places { i < length places.old }
    requires in_times { i < length times.old }
    requires few { slice_index times.old i ≤ place }
    requires room { place < 2 ^ 63 }
    ensures times { times.new ≡ slice_set times.old i (slice_index times.old i + 1) }
    ensures places { places.new ≡ (if slice_index times.old i == 0 then slice_set places.old i place else places.old) }
{
    if times[i] == 0 {
        places[i] = place;
    }
    times[i] += 1;
}

// The number of the input that a word names, without letter case.
fn input_named(app: &App, word: &[u8]) -> Option<usize>
    ensures named { result ≡ input_named (input_names app.now) word.now }
    ensures within { IfSome result (λ i. i < input_count app.now) }
{
    for i in 0..app.input_count() {
        if word.eq_ignore_ascii_case(app.signal_name(i).as_bytes()) {
            return Some(i as usize);
        }
    }
    None
}
