// The lines of what all safe outputs demand.

ghost use Rattle.std.specs.Prelude.{◌≡◌, ◌<◌, ◌≤◌, ◌+◌, ◌++◌, true, IfOk, IfNone, IfSome, OnOk, length};
ghost use Rattle.ps_model.specs.Network.{input_count, signal_count, declared_count};
ghost use Rattle.ps_model.specs.Typing.{Accepted, is_safe_signal};
ghost use Rattle.ps_demand.specs.Demand.{demand as demanded};
ghost use Rattle.ps_demand.specs.Lines.{AreDemandLines, IsFirstLarge, NoneIsLarge, demand_line, demand_lines};
ghost use Rattle.ps_demand.specs.Passes.{AreCounts, HasSlim};
ghost use Rattle.ps_demand.specs.Slim.{slim};
ghost use Rattle.ps_demand.specs.Views.{requirement};

use crate::counting::count_signals;
use crate::demand::{Demand, MOST_LEAVES};
use crate::slimming::slim_signals;
use crate::text::write_demand;
use ps_base::{Bytes, Memory};
use ps_model::{App, is_safe};
use std::alloc::Global;
use thiserror::Error;

/// Why the demands of an application's outputs are not written.
#[derive(Clone, Copy, Debug, Error)]
pub enum NoLines {
    /// Out of memory.
    #[error("memory is wanting")]
    Memory,
    /// The demand of this signal has over 1,000 leaves before it is made slim. It is the first SAFEBOOL output of which
    /// that is so.
    #[error("the demand of a signal has over 1,000 leaves")]
    Large(u16),
}

impl From<Memory> for NoLines {
    ghost use Rattle.std.specs.Prelude.{◌≡◌};
    ghost use Rattle.ps_demand.specs.declared.lines.NoLines.TheVariants.{Memory as NoMemory};

    ghost from_gives = { λ _ fail. fail ≡ NoMemory };

    fn from(_memory: Memory) -> NoLines {
        NoLines::Memory
    }
}

// The first SAFEBOOL output whose demand is Large, by the numbers of leaves.
fn first_large(app: &App, counts: &[u32]) -> Option<u16>
    requires { AreCounts app.now (length app.now.steps) counts.now }
    ensures large { IfSome result (IsFirstLarge app.now) }
    ensures none { IfNone result (NoneIsLarge app.now) }
{
    app.sound();
    let first = app.input_count();
    for signal in first..first + app.output_count() {
        if is_safe(app, signal) && counts[signal as usize] > MOST_LEAVES {
            return Some(signal);
        }
    }
    None
}

// Writes the line of an output at the end.
fn write_line(app: &App, output: u16, demand: &Demand, bytes: &mut Bytes) -> Result<(), Memory>
    requires declared { output < declared_count app.now }
    requires slim { requirement demand.now ≡ slim (demanded app.now output) }
    ensures { OnOk result (bytes.new ≡ bytes.old ++ demand_line app.now output) }
{
    bytes.extend_from_slice(app.signal_name(output).as_bytes())?;
    bytes.extend_from_slice(b" needs ")?;
    write_demand(app, demand, bytes)?;
    bytes.extend_from_slice(b"\n")
}

// The lines of the SAFEBOOL outputs, in order of declaration, by the demands of all signals.
fn write_lines(alloc: Global, app: &App, rows: &[Demand]) -> Result<Bytes, Memory>
    requires none { NoneIsLarge app.now }
    requires slim { HasSlim app.now (input_count app.now) (input_count app.now + length app.now.outputs) rows.now }
    ensures { IfOk result (λ bytes. bytes ≡ demand_lines app.now) }
{
    app.sound();
    let mut bytes = Bytes::new(alloc);
    let first = app.input_count();
    for signal in first..first + app.output_count() {
        if is_safe(app, signal) {
            write_line(app, signal, &rows[signal as usize], &mut bytes)?;
        }
    }
    Ok(bytes)
}

/// The lines of what the SAFEBOOL outputs of an accepted application demand, in order of declaration: for each its
/// name, ` needs `, the text of its demand made slim, and a line feed.
///
/// `Large` comes exactly where an output's demand has over 1,000 leaves before it is made slim, with the first such
/// output; that is decided by counting, before anything is built. Each step is gone through a fixed number of times for
/// all outputs together, and the work on a demand grows with its leaves. What no output comes to is not built, and what
/// no later step reads is not kept. `Memory` comes only if memory runs out.
pub fn demand_lines(alloc: Global, app: &App) -> Result<Bytes, NoLines>
    requires { Accepted app.now }
    ensures lines { AreDemandLines app.now result }
{
    let counts = count_signals(alloc, app)?;
    if let Some(output) = first_large(app, counts.as_slice()) {
        return Err(NoLines::Large(output));
    }
    app.sound();
    let first = app.input_count();
    let rows = slim_signals(alloc, app, first, first + app.output_count())?;
    Ok(write_lines(alloc, app, rows.as_slice())?)
}
