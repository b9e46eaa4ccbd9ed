// What a person reads on standard error of a call that stopped.

ghost use Rattle.std.specs.Prelude.{◌≡◌, IfOk, IsTrue, false, map};
ghost use Rattle.ps_edge.specs.Heard.{IsHeard};
ghost use Rattle.ps_edge.specs.Hearing.{listener_seen};
ghost use Rattle.ps_bench_messages.specs.Remarking.{HearsRemark, no_name_text};
ghost use Rattle.ps_bench_messages.specs.Telling as telling;
ghost use Rattle.ps_bench_messages.specs.Telling.{IsOfCases, IsOfInput, IsOfInputStop, IsOfLog, IsOfRules};
ghost use Rattle.ps_bench_messages.specs.Telling.{IsOfSource, IsOfStop, IsOfSum};
ghost use Rattle.ps_bench_messages.specs.Telling.{IsReadAnew, IsTold, at_place, named_app, named_by, unread_told};

use crate::advising::{MOST_LOOKED_AT, case_message};
use crate::logged::log_message;
use crate::ruled::rules_message;
use crate::summed::sum_message;
use ps_accepted::accept_text;
use ps_base::limits::{LARGEST_SOURCE, LARGEST_TRACE, LONGEST_FAULT_LINE, MOST_FAULT_LINES};
use ps_base::{Bytes, Fail, Memory, Refusal, Rule};
use ps_bench_cases::CaseRefusal;
use ps_bench_frame::pieces::add_shown;
use ps_bench_frame::{Input, InputStop, Stop, word_of};
use ps_bench_logs::LogRefusal;
use ps_bench_rules::RulesRefusal;
use ps_bench_trials::{LARGEST_SUM, SumRefusal};
use ps_edge::KnownListener;
use ps_findings::{RegionSizes, detail_on, header_told, inputs_told, past_told, refusal_of_app};
use ps_message::{NO_MEMORY, UNWRITTEN, Unread, message as refusal_message, unread_message};
use ps_model::ImageSizes;
use ps_world::World;
use std::alloc::Global;

// What a trace is called that comes by standard input.
const FED: &str = "standard input";

// What is told where scans at any times are asked for.
const ANY_TIMES: &str =
    "scans at any times are not searched: write a number of ms behind every (docs/never.md)\n";

/// The names of the files of a call, and what it is to watch.
#[derive(Clone, Copy)]
pub struct Names<'a> {
    /// The application.
    pub app: &'a str,
    /// The case files.
    pub cases: &'a [&'a str],
    /// The word in the place of a trace; empty of a call whose trace comes by standard input.
    pub trace: &'a str,
    /// The words in the place of traces, of a call that names several; of one that adds counts, their files.
    pub traces: &'a [&'a str],
    /// The fault file.
    pub faults: &'a str,
    /// The rules file.
    pub rules: &'a str,
    /// The log.
    pub log: &'a str,
    /// The application with which another one is compared.
    pub other: &'a str,
}

impl<'a> Names<'a> {
    /// The name of an application, and no other name.
    pub fn of_app(app: &'a str) -> Names<'a>
        ensures { named_by result ≡ named_app app.now }
    {
        Names {
            app,
            cases: &[],
            trace: "",
            traces: &[],
            faults: "",
            rules: "",
            log: "",
            other: "",
        }
    }
}

// The message of a refusal of the application.
fn app_refused<L: KnownListener>(
    alloc: Global,
    listener: &L,
    name: &str,
    refusal: &Refusal,
) -> Result<Bytes, Memory>
    ensures { IsTrue (L.tells listener.now) → IfOk result (IsOfSource
        (listener_seen L.quiet L.heard L.reads L.unread L.room listener.now) name.now refusal.now) }
{
    let text = listener.first_of(alloc, name, LARGEST_SOURCE + 1);
    refusal_of_app(alloc, name, text.as_slice(), refusal)
}

// The message of a refusal of a case file.
fn cases_refused<L: KnownListener>(
    alloc: Global,
    listener: &L,
    app: &str,
    name: &str,
    refusal: CaseRefusal,
) -> Result<Bytes, Memory>
    ensures { IsTrue (L.tells listener.now) → IfOk result (IsOfCases
        (listener_seen L.quiet L.heard L.reads L.unread L.room listener.now) name.now refusal) }
{
    let source = listener.first_of(alloc, app, LARGEST_SOURCE + 1);
    let text = listener.first_of(alloc, name, MOST_LOOKED_AT);
    case_message(
        alloc,
        source.as_slice(),
        name.as_bytes(),
        text.as_slice(),
        refusal,
    )
}

// The message of a file that cannot be read; nothing where it can be read by now.
fn unread<L: KnownListener>(alloc: Global, listener: &L, name: &str) -> Result<Bytes, Memory>
    ensures { IsTrue (L.tells listener.now) → IfOk result (λ bytes. bytes ≡ unread_told
        (listener_seen L.quiet L.heard L.reads L.unread L.room listener.now) name.now) }
{
    match listener.reason(name) {
        Some(why) => unread_message(alloc, name.as_bytes(), why),
        None => Ok(Bytes::new(alloc)),
    }
}

// The name at a place among names.
fn name_at<'a>(names: &[&'a str], place: usize) -> &'a str
    ensures { result.now ≡ at_place (map (λ name. name.now) names.now) place }
{
    if place < names.len() {
        names[place]
    } else {
        ""
    }
}

// The name of the case file at a place of the words; of a call that names none, the file that its word in the place of
// a trace names, or the one at this place of its words for traces.
fn case_file<'a>(names: &Names<'a>, place: usize) -> &'a str
    ensures { let named = named_by names.now in
        result.now ≡ telling.case_file named.cases named.traces named.trace place }
{
    if !names.cases.is_empty() {
        name_at(names.cases, place)
    } else if !names.traces.is_empty() {
        word_of(name_at(names.traces, place)).file
    } else {
        word_of(names.trace).file
    }
}

// Whether this is a trace that came by standard input: nothing of it can be read again.
fn is_fed(names: &Names<'_>, input: Input) -> bool
    ensures { result ≡ telling.is_fed (named_by names.now) input }
{
    input == Input::Trace && names.trace.is_empty()
}

// The name of what a run is made of.
fn input_name<'a>(names: &Names<'a>, input: Input) -> &'a str
    ensures { result.now ≡ telling.input_name (named_by names.now) input }
{
    match input {
        Input::Trace if names.trace.is_empty() => FED,
        Input::Trace => names.trace,
        Input::TraceAt(place) => name_at(names.traces, place),
        Input::Faults => names.faults,
        Input::Rules => names.rules,
        Input::Log => names.log,
        Input::Other => names.other,
    }
}

// As many bytes of what a run is made of as its rules look at.
fn most_of(input: Input) -> u32
    ensures { result ≡ telling.most_of input }
{
    match input {
        Input::Trace | Input::TraceAt(_) => LARGEST_TRACE,
        Input::Faults => MOST_FAULT_LINES * (LONGEST_FAULT_LINE + 1),
        Input::Rules | Input::Log => MOST_LOOKED_AT,
        Input::Other => LARGEST_SOURCE + 1,
    }
}

// The lengths in bytes of the regions of the channels of an application of this text. None: it is refused.
fn sizes_of(alloc: Global, source: &[u8]) -> Result<Option<ImageSizes>, Memory> {
    match accept_text(alloc, source) {
        Ok(accepted) => {
            let (app, _) = accepted.into_parts();
            Ok(Some(World::build(alloc, &app)?.sizes()))
        }
        Err(Fail::Memory) => Err(Memory),
        Err(Fail::Refused(_)) => Ok(None),
    }
}

// What is told of a fault whose bytes pass the end of its region: how long that is.
fn region_told(
    alloc: Global,
    source: &[u8],
    text: &[u8],
    refusal: &Refusal,
) -> Result<Bytes, Memory> {
    let Some(sizes) = sizes_of(alloc, source)? else {
        return Ok(Bytes::new(alloc));
    };
    let channels = [
        RegionSizes {
            channel: b'A',
            code: sizes.a_code,
            memory: sizes.a_cells,
        },
        RegionSizes {
            channel: b'B',
            code: sizes.b_code,
            memory: sizes.b_cells,
        },
    ];
    past_told(alloc, text, refusal.place.line, &channels)
}

// What is told of a refusal besides its rule: where a trace has not the inputs of the application of this text, what
// these are, or which it has not; how long a region is; or what the line tells.
fn told_on(alloc: Global, source: &[u8], text: &[u8], refusal: &Refusal) -> Result<Bytes, Memory> {
    match refusal.rule {
        Rule::T2 => inputs_told(alloc, source),
        Rule::T3 if text.is_empty() => inputs_told(alloc, source),
        Rule::T3 => header_told(alloc, source, text),
        Rule::F3 => region_told(alloc, source, text, refusal),
        _ => detail_on(alloc, text, refusal),
    }
}

// The text of what a run is made of, as far as its rules look at it.
fn input_text<L: KnownListener>(
    alloc: Global,
    listener: &L,
    names: &Names<'_>,
    input: Input,
) -> Bytes
    ensures { IsTrue (L.tells listener.now) → IsReadAnew
        (listener_seen L.quiet L.heard L.reads L.unread L.room listener.now) (named_by names.now) input result }
{
    if is_fed(names, input) {
        Bytes::new(alloc)
    } else {
        listener.first_of(alloc, input_name(names, input), most_of(input))
    }
}

// The message of a refusal of what a run is made of.
fn input_refused<L: KnownListener>(
    alloc: Global,
    listener: &L,
    names: &Names<'_>,
    input: Input,
    refusal: &Refusal,
) -> Result<Bytes, Memory>
    ensures { IsTrue (L.tells listener.now) → IfOk result (IsOfInput
        (listener_seen L.quiet L.heard L.reads L.unread L.room listener.now) (named_by names.now) input refusal.now) }
{
    let name = input_name(names, input);
    let source = listener.first_of(alloc, names.app, LARGEST_SOURCE);
    let text = input_text(alloc, listener, names, input);
    let words = told_on(alloc, source.as_slice(), text.as_slice(), refusal)?;
    refusal_message(
        alloc,
        name.as_bytes(),
        text.as_slice(),
        refusal,
        words.as_slice(),
    )
}

// The message of a refusal of a file of counts.
fn sum_refused<L: KnownListener>(
    alloc: Global,
    listener: &L,
    names: &Names<'_>,
    refusal: SumRefusal,
) -> Result<Bytes, Memory>
    ensures { IsTrue (L.tells listener.now) → IfOk result (IsOfSum
        (listener_seen L.quiet L.heard L.reads L.unread L.room listener.now)
        (at_place (named_by names.now).traces refusal.place) refusal) }
{
    let name = name_at(names.traces, refusal.place);
    let text = listener.first_of(alloc, name, LARGEST_SUM + 1);
    sum_message(
        alloc,
        name_at(names.traces, 0),
        name.as_bytes(),
        text.as_slice(),
        refusal,
    )
}

// The message of a refusal of the rules file.
fn rules_refused<L: KnownListener>(
    alloc: Global,
    listener: &L,
    names: &Names<'_>,
    refusal: RulesRefusal,
) -> Result<Bytes, Memory>
    ensures { IsTrue (L.tells listener.now) → IfOk result (IsOfRules
        (listener_seen L.quiet L.heard L.reads L.unread L.room listener.now) names.now.rules.now refusal) }
{
    let source = listener.first_of(alloc, names.app, LARGEST_SOURCE + 1);
    let text = listener.first_of(alloc, names.rules, MOST_LOOKED_AT);
    rules_message(
        alloc,
        source.as_slice(),
        names.rules.as_bytes(),
        text.as_slice(),
        refusal,
    )
}

// The message of a refusal of the log.
fn log_refused<L: KnownListener>(
    alloc: Global,
    listener: &L,
    names: &Names<'_>,
    refusal: LogRefusal,
) -> Result<Bytes, Memory>
    ensures { IsTrue (L.tells listener.now) → IfOk result (IsOfLog
        (listener_seen L.quiet L.heard L.reads L.unread L.room listener.now) names.now.log.now refusal) }
{
    let source = listener.first_of(alloc, names.app, LARGEST_SOURCE + 1);
    let text = listener.first_of(alloc, names.log, MOST_LOOKED_AT);
    log_message(
        alloc,
        source.as_slice(),
        names.log.as_bytes(),
        text.as_slice(),
        refusal,
    )
}

// What is told of a call that stopped at what a run or a search is made of.
fn input_message<L: KnownListener>(
    alloc: Global,
    listener: &L,
    names: &Names<'_>,
    why: InputStop,
) -> Result<Bytes, Memory>
    ensures { IsTrue (L.tells listener.now) → IfOk result (IsOfInputStop
        (listener_seen L.quiet L.heard L.reads L.unread L.room listener.now) (named_by names.now) why) }
{
    match why {
        InputStop::Refused(input, refusal) => {
            input_refused(alloc, listener, names, input, &refusal)
        }
        InputStop::RulesRefused(refusal) => rules_refused(alloc, listener, names, refusal),
        InputStop::LogRefused(refusal) => log_refused(alloc, listener, names, refusal),
        InputStop::SumRefused(refusal) => sum_refused(alloc, listener, names, refusal),
        InputStop::OtherRefused(refusal) => app_refused(alloc, listener, names.other, &refusal),
        InputStop::Unlike => Ok(Bytes::new(alloc)),
        InputStop::Unread(input) if is_fed(names, input) => {
            unread_message(alloc, FED.as_bytes(), Unread::Failed)
        }
        InputStop::Unread(input) => unread(alloc, listener, input_name(names, input)),
    }
}

// What is told of a call that stopped so.
fn message<L: KnownListener>(
    alloc: Global,
    listener: &L,
    names: &Names<'_>,
    stop: Stop,
) -> Result<Bytes, Memory>
    ensures { IsTrue (L.tells listener.now) → IfOk result (IsOfStop
        (listener_seen L.quiet L.heard L.reads L.unread L.room listener.now) (named_by names.now) stop) }
{
    match stop {
        Stop::App(refusal) => app_refused(alloc, listener, names.app, &refusal),
        Stop::Cases(place, refusal) => {
            cases_refused(alloc, listener, names.app, case_file(names, place), refusal)
        }
        Stop::UnreadApp => unread(alloc, listener, names.app),
        Stop::UnreadCases(place) => unread(alloc, listener, case_file(names, place)),
        Stop::Input(why) => input_message(alloc, listener, names, why),
        Stop::Unwritten => Bytes::from_slice(alloc, UNWRITTEN.as_bytes()),
        Stop::NoMemory => Err(Memory),
    }
}

/// Tells a listener why a call stopped. If memory runs out it tells of that, and it tells nothing where `is_closed`:
/// nobody reads the output any more.
pub fn tell<L: KnownListener>(
    alloc: Global,
    listener: &mut L,
    names: &Names<'_>,
    stop: Stop,
    is_closed: bool,
)
    ensures told { IsTrue (L.tells listener.old) →
        (let who = listener_seen L.quiet L.heard L.reads L.unread L.room listener.old in
        IsHeard is_closed (IsTold who (named_by names.now) stop) false who (L.heard listener.new)) }
    ensures telling { L.tells listener.new ≡ L.tells listener.old }
{
    if is_closed || listener.is_quiet() {
        return;
    }
    match message(alloc, listener, names, stop) {
        Ok(text) => listener.hear_all(text.as_slice()),
        Err(Memory) => listener.hear_all(NO_MEMORY.as_bytes()),
    }
}

// What is told of a word that names nothing in the application of this name.
fn no_name(alloc: Global, app: &str, word: &str) -> Result<Bytes, Memory>
    ensures { IfOk result (λ text. text ≡ no_name_text app.now word.now) }
{
    let mut text = Bytes::new(alloc);
    add_shown(&mut text, app)?;
    text.extend_from_slice(b": nothing there is called ")?;
    add_shown(&mut text, word)?;
    text.extend_from_slice(
        b"\nname an input, an output, a local, an instance, or INSTANCE.PIN for a BOOL or SAFEBOOL pin (docs/watch.md)\n",
    )?;
    Ok(text)
}

/// Tells a listener that a word names nothing in the application of this name.
pub fn tell_no_name<L: KnownListener>(alloc: Global, listener: &mut L, app: &str, word: &str)
    ensures told { IsTrue (L.tells listener.old) → HearsRemark (λ text. text ≡ no_name_text app.now word.now)
        (listener_seen L.quiet L.heard L.reads L.unread L.room listener.old) (L.heard listener.new) }
    ensures telling { L.tells listener.new ≡ L.tells listener.old }
{
    if listener.is_quiet() {
        return;
    }
    match no_name(alloc, app, word) {
        Ok(text) => listener.hear_all(text.as_slice()),
        Err(Memory) => listener.hear_all(NO_MEMORY.as_bytes()),
    }
}

/// Tells a listener that scans at any times are not searched.
pub fn tell_any_times<L: KnownListener>(listener: &mut L)
    ensures told { IsTrue (L.tells listener.old) → HearsRemark (λ text. text ≡ ANY_TIMES.now)
        (listener_seen L.quiet L.heard L.reads L.unread L.room listener.old) (L.heard listener.new) }
    ensures telling { L.tells listener.new ≡ L.tells listener.old }
{
    if !listener.is_quiet() {
        listener.hear_all(ANY_TIMES.as_bytes());
    }
}
