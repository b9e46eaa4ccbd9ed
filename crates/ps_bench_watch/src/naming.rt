// What the names of a call stand for.

ghost use Rattle.std.specs.Prelude.{◌≡◌, Some, IfOk, IfErr, map};
ghost use Rattle.ps_base.specs.LetterCase.{is_same_name};
ghost use Rattle.ps_bench_words.specs.Seen.{seen};
ghost use Rattle.ps_bench_waves.specs.Shown.{label};
ghost use Rattle.ps_bench_watch.specs.Asking as asking;
ghost use Rattle.ps_bench_watch.specs.Naming.{Adds, AreWatched, HasUnnamed, called_among, name_called};

use ps_base::Memory;
use ps_bench_names::Name;
use ps_bench_waves::{Format, all_names, default_names, label_of};
use ps_bench_words::Layout;
use ps_model::App;
use std::alloc::Global;

// Whether a name is called so, without letter case.
fn is_called(alloc: Global, app: &App, name: Name, word: &str) -> Result<bool, Memory>
    ensures { IfOk result (λ called. called ≡ is_same_name word.now (label app.now name)) }
{
    let label = label_of(alloc, app, name)?;
    Ok(word.as_bytes().eq_ignore_ascii_case(label.as_bytes()))
}

// The first of these names that is called so.
fn name_among(alloc: Global, app: &App, names: &[Name], word: &str) -> Result<Option<Name>, Memory>
    ensures { IfOk result (λ found. found ≡ called_among app.now names.now word.now) }
{
    for name in names {
        if is_called(alloc, app, *name, word)? {
            return Ok(Some(*name));
        }
    }
    Ok(None)
}

// Puts what a word names, if it names something, after names, and says whether it does.
fn add_called(
    alloc: Global,
    app: &App,
    all: &[Name],
    word: &str,
    names: &mut Vec<Name>,
) -> Result<bool, Memory>
    ensures { IfOk result (λ found.
        Adds (called_among app.now all.now word.now) names.old.items names.new.items found) }
{
    match name_among(alloc, app, all, word)? {
        Some(name) => {
            names.push(name)?;
            Ok(true)
        }
        None => Ok(false),
    }
}

// What these words name, or the first of them that names nothing.
fn names_called<'a>(
    alloc: Global,
    app: &App,
    words: &[&'a str],
) -> Result<Result<Vec<Name>, &'a str>, Memory>
    ensures names { IfOk result (λ found. IfOk found (λ names.
        map (name_called app.now) (seen words.now) ≡ map Some names.items)) }
    ensures none { IfOk result (λ found. IfErr found (λ word. HasUnnamed app.now (seen words.now) word.now)) }
{
    let all = all_names(alloc, app)?;
    let mut names = Vec::new(alloc);
    for word in words {
        if !add_called(alloc, app, all.as_slice(), *word, &mut names)? {
            return Ok(Err(*word));
        }
    }
    Ok(Ok(names))
}

// What is watched by default in a layout.
fn default_in(alloc: Global, app: &App, layout: Layout) -> Result<Vec<Name>, Memory>
    ensures { IfOk result (λ names. names.items ≡ asking.default_in app.now layout) }
{
    match layout {
        Layout::Text => default_names(alloc, app, Format::Text),
        Layout::Csv => default_names(alloc, app, Format::Csv),
        Layout::Json => default_names(alloc, app, Format::Json),
        Layout::Vcd => all_names(alloc, app),
    }
}

/// What is watched: what these words name, and where there are none what is watched by default in the layout; or the
/// first word that names nothing.
pub(crate) fn watched_names<'a>(
    alloc: Global,
    app: &App,
    layout: Layout,
    words: &[&'a str],
) -> Result<Result<Vec<Name>, &'a str>, Memory>
    ensures names { IfOk result (λ found. IfOk found (λ names.
        AreWatched app.now (asking.default_in app.now layout) (seen words.now) names.items)) }
    ensures none { IfOk result (λ found. IfErr found (λ word. HasUnnamed app.now (seen words.now) word.now)) }
{
    if words.is_empty() {
        return Ok(Ok(default_in(alloc, app, layout)?));
    }
    names_called(alloc, app, words)
}
