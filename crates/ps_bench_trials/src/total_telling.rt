// The head and the lines as text.

ghost use Rattle.std.specs.Prelude.{◌≡◌, ◌++◌, OnOk};
ghost use Rattle.ps_bench_trials.specs.Totals.{head_text, name_line, totals_text};

use crate::{Tally, add_tally};
use ps_base::{Bytes, Memory};

// A line that says what names something.
fn add_name(text: &mut Bytes, what: &[u8], name: &[u8]) -> Result<(), Memory>
    ensures { OnOk result (text.new ≡ text.old ++ name_line what.now name.now) }
{
    text.extend_from_slice(what)?;
    text.extend_from_slice(name)?;
    text.extend_from_slice(b"\n")
}

// The head.
fn add_head(text: &mut Bytes, app: &[u8], trace: &[u8]) -> Result<(), Memory>
    ensures { OnOk result (text.new ≡ text.old ++ head_text app.now trace.now) }
{
    add_name(text, b"application ", app)?;
    add_name(text, b"trace ", trace)
}

/// The head, with what names the application and the trace, and the lines of a tally, at the end of a text.
pub fn add_totals(text: &mut Bytes, app: &[u8], trace: &[u8], tally: &Tally) -> Result<(), Memory>
    ensures { OnOk result (text.new ≡ text.old ++ totals_text app.now trace.now tally.now) }
{
    add_head(text, app, trace)?;
    add_tally(text, tally)
}
