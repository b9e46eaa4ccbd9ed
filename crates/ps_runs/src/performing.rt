//! What performs the scans of a trace.

ghost use Rattle.std.specs.Prelude.{◌≡◌, ◌≤◌, ℕ, OnOk, length};
ghost use Rattle.ps_model.specs.Meaning.Item.{scan as scan_item, restart as restart_item};
ghost use Rattle.ps_model.specs.Meaning.{Item};
ghost use Rattle.ps_model.specs.Network.{Network, input_count, instance_count};
ghost use Rattle.ps_runs.specs.Outcomes.{Outcome, anew, outcome_of};

use ps_base::Refusal;
use ps_model::{App, Report, Scan};

/// What performs the scans and restarts of an application, one after another.
///
/// Contracts know of it when it has the application's sizes, how early its next scan may be, and what it makes of an
/// item. No call takes memory.
pub trait Performer {
    /// What it answers to a scan beside the report.
    type Verdict: Drop;

    /// It has the application's sizes.
    ghost fits: { Network → Self → Type 0 };

    /// The earliest time of its next scan, in ms.
    ghost earliest: { Self → ℕ };

    /// The item has this outcome, and leaves the second performer where the first one was.
    ghost performs: { Network → Self → Item → Outcome Self.Verdict → Self → Type 0 };

    /// Performs a scan, and writes its report: at a time in ms, with one value for each input.
    ///
    /// A refusal ends the run: the scan was begun and not closed, and its report means nothing.
    fn perform_scan(
        &mut self,
        app: &App,
        scan: &Scan,
        report: &mut Report,
    ) -> Result<Self::Verdict, Refusal>
        requires fits { fits app.now self.old }
        requires due { earliest self.old ≤ scan.now.now }
        requires inputs { length scan.now.ins ≡ input_count app.now }
        requires outputs { length report.old.outs ≡ length app.now.outputs }
        requires diagnoses { length report.old.diags ≡ instance_count app.now }
        ensures performs { performs app.now self.old (scan_item scan.entry.now.now scan.entry.now.ins)
            (outcome_of scan.entry.now.now report.new result) self.new }
        ensures fits { OnOk result (fits app.now self.new) }
        ensures due { earliest self.new ≤ scan.entry.now.now }
        ensures outputs { length report.new.outs ≡ length app.now.outputs }
        ensures diagnoses { length report.new.diags ≡ instance_count app.now };

    /// Begins anew, as before the first scan. The time goes on.
    fn perform_restart(&mut self, app: &App)
        requires fits { fits app.now self.old }
        ensures performs { performs app.now self.old restart_item anew self.new }
        ensures fits { fits app.now self.new }
        ensures due { earliest self.new ≤ earliest self.old };
}
