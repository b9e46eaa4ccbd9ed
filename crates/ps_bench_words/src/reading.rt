// What was given to a command: its words and options, and what it asks with them.

ghost use Rattle.std.specs.Prelude.{◌≡◌, IfOk, nat_lt, option_map, unwrap_or};
ghost use Rattle.clap.specs.Walk.{all_of, count_of, first_of};
ghost use Rattle.clap.specs.Words.{found_of, rows_of};
ghost use Rattle.ps_bench_words.specs.Asking as asking;
ghost use Rattle.ps_bench_words.specs.Seen.{IsAsked, IsRead, asked_seen, seen};
ghost use Rattle.ps_bench_words.specs.declared.reading.Unread.TheVariants.{NoMemory as IsNoMemory};
ghost use Rattle.ps_trace.specs.Words.{number_of};

use crate::asking::{Asked, Format, Layout};
use crate::pages;
use clap::ArgMatches;
use ps_base::Memory;
use ps_cover::Format as Output;
use ps_model::Channel;
use ps_trace::number;
use std::alloc::Global;

// As many states may be held where it is not said.
const USUAL_STATES: u32 = 1_000_000;

/// Why what a command asks is not read.
#[derive(Clone, Copy)]
pub(crate) enum Unread {
    /// Out of memory.
    NoMemory,
    /// A value is none that its option takes: what it takes.
    Wrong(&'static str),
}

impl From<Memory> for Unread {
    ghost from_gives = { λ _ unread. unread ≡ IsNoMemory };

    fn from(_: Memory) -> Unread {
        Unread::NoMemory
    }
}

/// The first value of an argument, where it was given.
pub(crate) fn given_in<'a>(values: &ArgMatches<'a>, id: &str) -> Option<&'a str>
    ensures { option_map (λ s. s.now) result ≡ first_of id.now (rows_of (found_of values.now)) }
{
    values.get_str(id)
}

// The first value of an argument, the empty text where it was not given.
fn value_in<'a>(values: &ArgMatches<'a>, id: &str) -> &'a str
    ensures { result.now ≡ asking.value_of id.now (rows_of (found_of values.now)) }
{
    match given_in(values, id) {
        Some(value) => value,
        None => "",
    }
}

// A list of its own of texts.
fn copied<'a>(alloc: Global, texts: &[&'a str]) -> Result<Vec<&'a str>, Memory>
    ensures { IfOk result (λ copy. seen copy.items ≡ seen texts.now) }
{
    let mut copy = Vec::new(alloc);
    copy.extend_from_slice(texts)?;
    Ok(copy)
}

// The values of an argument, none where it was not given.
fn values_in<'a>(alloc: Global, values: &ArgMatches<'a>, id: &str) -> Result<Vec<&'a str>, Memory>
    ensures { IfOk result (λ all. seen all.items ≡ asking.values_of id.now (rows_of (found_of values.now))) }
{
    match values.get_strs(id) {
        Some(all) => copied(alloc, all),
        None => Ok(Vec::new(alloc)),
    }
}

// The form of results of a name.
fn format_said(name: Option<&str>) -> Result<Format, Unread>
    ensures { IsRead result (asking.format_of (option_map (λ n. n.now) name.entry)) }
{
    match name {
        None | Some("text") => Ok(Format::Text),
        Some("tap") => Ok(Format::Tap),
        Some("junit") => Ok(Format::Junit),
        Some(_) => Err(Unread::Wrong(pages::NO_FORMAT)),
    }
}

// The layout of a name.
fn layout_said(name: Option<&str>) -> Result<Layout, Unread>
    ensures { IsRead result (asking.layout_of (option_map (λ n. n.now) name.entry)) }
{
    match name {
        None | Some("text") => Ok(Layout::Text),
        Some("csv") => Ok(Layout::Csv),
        Some("json") => Ok(Layout::Json),
        Some("vcd") => Ok(Layout::Vcd),
        Some(_) => Err(Unread::Wrong(pages::NO_LAYOUT)),
    }
}

// The output of a name.
fn output_said(name: Option<&str>) -> Result<Output, Unread>
    ensures { IsRead result (asking.output_of (option_map (λ n. n.now) name.entry)) }
{
    match name {
        None | Some("text") => Ok(Output::Text),
        Some("json") => Ok(Output::Json),
        Some(_) => Err(Unread::Wrong(pages::NO_OUTPUT)),
    }
}

// A time in ms.
fn time_said(word: &str) -> Result<u32, Unread>
    ensures { IsRead result (number_of word.now) }
{
    match number(word.as_bytes()) {
        Some(time) => Ok(time),
        None => Err(Unread::Wrong(pages::NO_TIME)),
    }
}

// A number of states that is 1 at least.
fn some_said(word: &str) -> Result<u32, Unread>
    ensures { IsRead result (asking.some_said (number_of word.now)) }
{
    match number(word.as_bytes()) {
        Some(0) | None => Err(Unread::Wrong(pages::NO_STATES)),
        Some(states) => Ok(states),
    }
}

// How many states may be held.
fn states_said(word: Option<&str>) -> Result<u32, Unread>
    ensures { IsRead result (asking.states_of (option_map (λ w. w.now) word.entry)) }
{
    match word {
        Some(word) => some_said(word),
        None => Ok(USUAL_STATES),
    }
}

// A number that all digits may give.
fn number_said(word: &str) -> Result<u32, Unread>
    ensures { IsRead result (number_of word.now) }
{
    match number(word.as_bytes()) {
        Some(said) => Ok(said),
        None => Err(Unread::Wrong(pages::NO_NUMBER)),
    }
}

// The channel of a name, where one is named.
fn channel_said(name: Option<&str>) -> Result<Option<Channel>, Unread>
    ensures { IsRead result (asking.channel_of (option_map (λ n. n.now) name.entry)) }
{
    match name {
        None => Ok(None),
        Some("A") => Ok(Some(Channel::A)),
        Some("B") => Ok(Some(Channel::B)),
        Some(_) => Err(Unread::Wrong(pages::NO_CHANNEL)),
    }
}

// A percentage.
fn percent_said(word: &str) -> Result<Option<u32>, Unread>
    ensures { IsRead result (asking.percent_said (number_of word.now)) }
{
    match number(word.as_bytes()) {
        Some(percent) => {
            if percent <= 100 {
                Ok(Some(percent))
            } else {
                Err(Unread::Wrong(pages::NO_PERCENT))
            }
        }
        None => Err(Unread::Wrong(pages::NO_PERCENT)),
    }
}

// A percentage, where one is said.
fn percentage_said(word: Option<&str>) -> Result<Option<u32>, Unread>
    ensures { IsRead result (asking.percentage_of (option_map (λ w. w.now) word.entry)) }
{
    match word {
        Some(word) => percent_said(word),
        None => Ok(None),
    }
}

/// What `test` asks with what was given to it.
pub(crate) fn test_in<'a>(alloc: Global, values: &ArgMatches<'a>) -> Result<Asked<'a>, Unread>
    ensures { IsAsked result (asking.test_asks (rows_of (found_of values.now))) }
{
    let format = format_said(given_in(values, "format"))?;
    Ok(Asked::Test {
        app: value_in(values, "APP"),
        cases: values_in(alloc, values, "CASES")?,
        format,
    })
}

/// What `expand` asks with what was given to it.
pub(crate) fn expand_in<'a>(values: &ArgMatches<'a>) -> Asked<'a>
    ensures { asked_seen result ≡ asking.expand_asks (rows_of (found_of values.now)) }
{
    Asked::Expand {
        app: value_in(values, "APP"),
        cases: value_in(values, "CASES"),
    }
}

/// What `watch` asks with what was given to it.
pub(crate) fn watch_in<'a>(alloc: Global, values: &ArgMatches<'a>) -> Result<Asked<'a>, Unread>
    ensures { IsAsked result (asking.watch_asks (rows_of (found_of values.now))) }
{
    let layout = layout_said(given_in(values, "format"))?;
    Ok(Asked::Watch {
        app: value_in(values, "APP"),
        trace: value_in(values, "TRACE"),
        names: values_in(alloc, values, "NAME")?,
        faults: given_in(values, "faults"),
        layout,
    })
}

/// What `trace` asks with what was given to it.
pub(crate) fn trace_in<'a>(values: &ArgMatches<'a>) -> Asked<'a>
    ensures { asked_seen result ≡ asking.trace_asks (rows_of (found_of values.now)) }
{
    Asked::Trace {
        app: value_in(values, "APP"),
        csv: value_in(values, "CSV"),
    }
}

/// What `why` asks with what was given to it.
pub(crate) fn why_in<'a>(values: &ArgMatches<'a>) -> Result<Asked<'a>, Unread>
    ensures { IsAsked result (asking.why_asks (rows_of (found_of values.now))) }
{
    let output = output_said(given_in(values, "format"))?;
    let time = time_said(value_in(values, "TIME"))?;
    Ok(Asked::Why {
        app: value_in(values, "APP"),
        trace: value_in(values, "TRACE"),
        time,
        name: value_in(values, "NAME"),
        output,
    })
}

/// What `cover` asks with what was given to it.
pub(crate) fn cover_in<'a>(alloc: Global, values: &ArgMatches<'a>) -> Result<Asked<'a>, Unread>
    ensures { IsAsked result (asking.cover_asks (rows_of (found_of values.now))) }
{
    let output = output_said(given_in(values, "format"))?;
    let least = percentage_said(given_in(values, "least"))?;
    Ok(Asked::Cover {
        app: value_in(values, "APP"),
        traces: values_in(alloc, values, "TRACE")?,
        output,
        least,
        ideas: values.get_count("ideas") > 0,
    })
}

/// What `never` asks with what was given to it.
pub(crate) fn never_in<'a>(values: &ArgMatches<'a>) -> Result<Asked<'a>, Unread>
    ensures { IsAsked result (asking.never_asks (rows_of (found_of values.now))) }
{
    let states = states_said(given_in(values, "states"))?;
    Ok(Asked::Never {
        app: value_in(values, "APP"),
        rules: value_in(values, "RULES"),
        states,
    })
}

/// What `same` asks with what was given to it.
pub(crate) fn same_in<'a>(values: &ArgMatches<'a>) -> Result<Asked<'a>, Unread>
    ensures { IsAsked result (asking.same_asks (rows_of (found_of values.now))) }
{
    let states = states_said(given_in(values, "states"))?;
    Ok(Asked::Same {
        app: value_in(values, "APP"),
        other: value_in(values, "OTHER"),
        rules: given_in(values, "RULES"),
        states,
    })
}

/// What `campaign` asks with what was given to it.
pub(crate) fn campaign_in<'a>(values: &ArgMatches<'a>) -> Result<Asked<'a>, Unread>
    ensures { IsAsked result (asking.campaign_asks (rows_of (found_of values.now))) }
{
    let from = number_said(value_in(values, "FROM"))?;
    let count = number_said(value_in(values, "COUNT"))?;
    let channel = channel_said(given_in(values, "channel"))?;
    Ok(Asked::Campaign {
        app: value_in(values, "APP"),
        trace: value_in(values, "TRACE"),
        from,
        count,
        channel,
        print: values.get_count("print") > 0,
    })
}

/// What `sum` asks with what was given to it.
pub(crate) fn sum_in<'a>(alloc: Global, values: &ArgMatches<'a>) -> Result<Asked<'a>, Unread>
    ensures { IsAsked result (asking.sum_asks (rows_of (found_of values.now))) }
{
    Ok(Asked::Sum {
        files: values_in(alloc, values, "FILE")?,
    })
}

/// What `report` asks with what was given to it.
pub(crate) fn report_in<'a>(alloc: Global, values: &ArgMatches<'a>) -> Result<Asked<'a>, Unread>
    ensures { IsAsked result (asking.report_asks (rows_of (found_of values.now))) }
{
    Ok(Asked::Report {
        app: value_in(values, "APP"),
        cases: values_in(alloc, values, "CASES")?,
        title: given_in(values, "title"),
    })
}

/// What `live` asks with what was given to it.
pub(crate) fn live_in<'a>(values: &ArgMatches<'a>) -> Asked<'a>
    ensures { asked_seen result ≡ asking.live_asks (rows_of (found_of values.now)) }
{
    Asked::Live {
        app: value_in(values, "APP"),
        names: values.get_count("names") > 0,
    }
}
