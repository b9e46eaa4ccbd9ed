// The lines of ideas.

ghost use Rattle.std.specs.Prelude.{◌≡◌, ◌<◌, ◌++◌, IfSome, OnOk, Some, slice_get};
ghost use Rattle.ps_ways.specs.Conditions.{condition_of};
ghost use Rattle.ps_cover.specs.Covering.{point_of};
ghost use Rattle.ps_cover.specs.Telling.{known_of};
ghost use Rattle.ps_model.specs.Network.{input_count, instance_count, kind_at};
ghost use Rattle.ps_bench_cover.specs.Ideas as ideas;
ghost use Rattle.ps_bench_cover.specs.Ideas.{each_literal, idea_at, idea_head, idea_if, idea_lines, ideas_text, mark_idea};
ghost use Rattle.ps_bench_cover.specs.Ideas.{point_idea, way_idea};
ghost use Rattle.ps_bench_cover.specs.Shares.{share_text};
ghost use Rattle.ps_ways.specs.Tables.{ways_of};

use crate::asked::{input_asked, value_before};
use ps_base::{Bytes, Memory};
use ps_bench_frame::pieces::add_code;
use ps_cover::{Point, Told, add_condition};
use ps_model::{App, Args, Kind, Step};
use ps_ways::{Condition, Literal, Way, ways};

/// An instance that is called, by what stands at its pins.
#[derive(Clone, Copy)]
pub(crate) struct Called<'a> {
    app: &'a App,
    kind: Kind,
    args: &'a Args,
}

// Puts that an input takes a value.
fn add_setting(text: &mut Bytes, app: &App, input: Option<u16>, value: bool) -> Result<(), Memory>
    requires { IfSome input (λ s. s < input_count app.now) }
    ensures { OnOk result (text.new ≡ text.old ++ ideas.setting_text app.now input value) }
{
    let Some(s) = input else {
        return Ok(());
    };
    text.extend_from_slice(b" ")?;
    text.extend_from_slice(app.signal_name(s).as_bytes())?;
    text.extend_from_slice(if value { b"=1" } else { b"=0" })
}

// Puts a condition in words, where it is none of an input.
fn add_rest(
    text: &mut Bytes,
    kind: Kind,
    condition: Condition,
    input: Option<u16>,
) -> Result<(), Memory>
    ensures { OnOk result (text.new ≡ text.old ++ ideas.rest_text kind condition input) }
{
    if input.is_some() {
        return Ok(());
    }
    text.extend_from_slice(b"  # ")?;
    add_condition(text, kind, condition)?;
    text.extend_from_slice(b"\n")
}

// What of a literal is put.
#[derive(Clone, Copy)]
pub(crate) enum Share {
    // What is told in words.
    Rest,
    // What is set a scan before.
    Before,
    // What is set in the scan.
    Now,
}

// Puts a share of what a literal asks.
fn add_literal(
    text: &mut Bytes,
    called: &Called<'_>,
    share: Share,
    literal: Literal,
) -> Result<(), Memory>
    ensures { OnOk result (text.new ≡ text.old ++ share_text called.entry.now share (condition_of literal)) }
{
    let Some(condition) = Condition::of(literal) else {
        return Ok(());
    };
    let Called { app, kind, args } = *called;
    let input = input_asked(app, kind, args, condition);
    match share {
        Share::Rest => add_rest(text, kind, condition, input),
        Share::Before => add_setting(text, app, input, value_before(condition)),
        Share::Now => add_setting(text, app, input, condition.holds),
    }
}

// Puts a share of what the literals of a way ask.
fn add_literals(
    text: &mut Bytes,
    called: &Called<'_>,
    share: Share,
    way: &Way,
) -> Result<(), Memory>
    ensures { OnOk result (text.new ≡ text.old ++ each_literal (share_text called.entry.now share) way.now) }
{
    add_literal(text, called, share, way.first)?;
    add_literal(text, called, share, way.second)?;
    add_literal(text, called, share, way.third)
}

// Puts the line with which the case of a way of an instance begins.
fn add_head(text: &mut Bytes, app: &App, instance: u16, way: &Way) -> Result<(), Memory>
    requires { instance < instance_count app.now }
    ensures { OnOk result (text.new ≡ text.old ++ idea_head app.now instance way.now) }
{
    text.extend_from_slice(b"case ")?;
    text.extend_from_slice(app.instance_name(instance).as_bytes())?;
    text.extend_from_slice(b" from ")?;
    add_code(text, way.state)?;
    text.extend_from_slice(b" to ")?;
    add_code(text, way.next)?;
    text.extend_from_slice(b"\n")
}

// Puts the lines of the case of a way.
fn add_lines(text: &mut Bytes, called: &Called<'_>, way: &Way) -> Result<(), Memory>
    ensures { OnOk result (text.new ≡ text.old ++ idea_lines
        called.entry.now.app.now called.entry.now.kind called.entry.now.args.now way.now) }
{
    add_literals(text, called, Share::Rest, way)?;
    text.extend_from_slice(b"  +10")?;
    add_literals(text, called, Share::Before, way)?;
    text.extend_from_slice(b"\n  +10")?;
    add_literals(text, called, Share::Now, way)?;
    text.extend_from_slice(b"\n")
}

// Puts the case that begins for a way of an instance.
fn add_way_idea(
    text: &mut Bytes,
    app: &App,
    instance: u16,
    args: &Args,
    way: &Way,
) -> Result<(), Memory>
    requires { instance < instance_count app.now }
    ensures { OnOk result (text.new ≡ text.old ++ way_idea app.now instance args.now way.now) }
{
    add_head(text, app, instance, way)?;
    let kind = app.instance_kind(instance);
    add_lines(text, &Called { app, kind, args }, way)
}

// Puts the case that begins for a mark of an instance, where it is a way.
fn add_mark_of(
    text: &mut Bytes,
    app: &App,
    instance: u16,
    args: &Args,
    mark: usize,
) -> Result<(), Memory>
    requires { instance < instance_count app.now }
    ensures { OnOk result (text.new ≡ text.old
        ++ idea_if app.now instance args.now (slice_get (ways_of (kind_at app.now instance)) mark)) }
{
    let ways = ways(app.instance_kind(instance));
    if mark < ways.len() {
        return add_way_idea(text, app, instance, args, &ways[mark]);
    }
    Ok(())
}

// Puts the case that begins for a mark of the call of a step, where it is a way.
fn add_mark_idea(text: &mut Bytes, app: &App, k: u16, mark: usize) -> Result<(), Memory>
    ensures { OnOk result (text.new ≡ text.old ++ mark_idea app.now (slice_get app.now.steps k) mark) }
{
    app.sound();
    if k >= app.step_count() {
        return Ok(());
    }
    match app.step(k) {
        Step::Call { instance, args } => add_mark_of(text, app, *instance, args, mark),
        Step::Assign { .. } => Ok(()),
    }
}

// Puts the case that begins for a point: a way that was not taken and is not excluded.
fn add_point_idea(
    text: &mut Bytes,
    told: &Told<'_>,
    point: &Point<'_>,
    shown: bool,
) -> Result<(), Memory>
    ensures { OnOk result (text.new ≡ text.old
        ++ point_idea (known_of told.entry.now) (point_of point.entry.now) shown) }
{
    match point {
        Point::Mark { step, mark } => {
            if !shown && !told.exclusions.is_excluded(*step, *mark) {
                add_mark_idea(text, told.app, *step, *mark)?;
            }
            Ok(())
        }
        Point::Value { .. } | Point::Decides(_) => Ok(()),
    }
}

// Puts the case that begins for the point with a number.
fn add_idea_at(text: &mut Bytes, told: &Told<'_>, n: usize) -> Result<(), Memory>
    requires { n < (known_of told.now).size }
    ensures { OnOk result (text.new ≡ text.old
        ++ idea_at (known_of told.entry.now) ((known_of told.entry.now).at n)) }
{
    let point = &told.cover.points()[n];
    let shown = told.cover.is_shown_at(n);
    add_point_idea(text, told, point, shown)
}

/// Puts for each way that was never taken and is not excluded, in the order of the points, the beginning of a case:
/// what its guard asks for where that is an input, a scan before and in the scan, and the rest after `#`. An error:
/// memory runs out.
pub(crate) fn add_ideas(text: &mut Bytes, told: &Told<'_>) -> Result<(), Memory>
    ensures { OnOk result (text.new ≡ text.old ++ ideas_text (known_of told.entry.now)) }
{
    for n in 0..told.cover.points().len() {
        add_idea_at(text, told, n)?;
    }
    Ok(())
}
