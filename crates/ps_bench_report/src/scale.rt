// Where scans stand in a picture: time to scale, with breaks where nothing happens for long.

ghost use Rattle.std.specs.Prelude.{◌≡◌, ◌<◌, IfOk, length, map, take};
ghost use Rattle.ps_bench_report.specs.Diagram.{shown_in};
ghost use Rattle.ps_bench_report.specs.Scale.{is_expected, side_by_side, stand_of, unit_of, width_of};

use crate::marks::Mark;
use crate::picture::LEFT;
use crate::recording::Moment;
use ps_base::Memory;
use std::alloc::Global;

// How wide the scans of a picture are together at most.
const MOST_WIDTH: u32 = 540;

// How wide a scan is that lasts as long as the shortest one, and at least.
const LEAST_WIDTH: u32 = 14;

// How wide a scan is at least of which something is expected, or at which something happens to the world.
const WORD_WIDTH: u32 = 62;

// How wide a scan is at most; one that would be wider is broken.
const BREAK_WIDTH: u32 = 90;

/// A scan in a picture.
#[derive(Clone, Copy)]
pub(crate) struct Scan<'a> {
    /// What is shown of it.
    pub(crate) moment: &'a Moment,
    /// Its left side.
    pub(crate) x: u32,
    /// Its right side.
    pub(crate) end: u32,
    /// Whether it would be wider to scale.
    pub(crate) is_broken: bool,
}

/// The shortest time between scans that are shown, in ms; 1 where there is none.
pub(crate) fn unit_of(moments: &[Moment]) -> u32
    ensures { result ≡ unit_of moments.now }
{
    let mut unit = u32::MAX;
    for moment in moments {
        if moment.wait > 0 && moment.wait < unit {
            unit = moment.wait;
        }
    }
    unit
}

// Whether something is expected of a scan.
fn is_expected(moment: &Moment, marks: &[Mark]) -> bool
    ensures { result ≡ is_expected moment.entry.now marks.now }
{
    for mark in marks {
        if mark.scan == moment.scan {
            return true;
        }
    }
    false
}

// How wide a scan is to scale, and at least as wide as what stands above it.
fn width_of(moment: &Moment, marks: &[Mark], unit: u32) -> u32
    ensures { result ≡ width_of moment.entry.now marks.now unit }
{
    let width = moment
        .wait
        .saturating_mul(LEAST_WIDTH)
        .checked_div(unit)
        .unwrap_or(0);
    if moment.restarted || is_expected(moment, marks) {
        width.max(WORD_WIDTH)
    } else {
        width.max(LEAST_WIDTH)
    }
}

/// The first scans of these, side by side, as many as a picture has room for; one at least, if there is one.
pub(crate) fn scans_of<'a>(
    alloc: Global,
    moments: &'a [Moment],
    marks: &[Mark],
    unit: u32,
) -> Result<Vec<Scan<'a>>, Memory>
    ensures shown { IfOk result (λ scans. shown_in scans.items ≡ take (length scans.items) moments.now) }
    ensures stands { IfOk result (λ scans. map stand_of scans.items ≡ side_by_side marks.now unit moments.now) }
    ensures some { IfOk result (λ scans. 0 < length moments.now → 0 < length scans.items) }
{
    let mut scans = Vec::new(alloc);
    let mut x = LEFT;
    for moment in moments {
        let width = width_of(moment, marks, unit);
        let end = x.saturating_add(width.min(BREAK_WIDTH));
        if scans.len() > 0 && end > LEFT + MOST_WIDTH {
            return Ok(scans);
        }
        scans.push(Scan {
            moment,
            x,
            end,
            is_broken: width > BREAK_WIDTH,
        })?;
        x = end;
    }
    Ok(scans)
}
