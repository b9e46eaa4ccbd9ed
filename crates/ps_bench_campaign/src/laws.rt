// Laws of trials and of their sums. Each function computes nothing: its contract is the law.

ghost use Rattle.ps_bench_campaign.specs.Parts.{PartsAreWhole};
ghost use Rattle.ps_bench_campaign.specs.Right.{NoneIsWrong};
ghost use Rattle.ps_bench_campaign.specs.Summing.{PartsSumUp};
ghost use Rattle.ps_model.specs.Typing.{Accepted};

use ps_model::App;
use ps_model::laws::one_meaning;
use ps_world::laws::{quiet_runs_release, runs_are_right};

/// No trial is wrong: whatever its one fault is, each report that is released is that of the run without the fault.
pub fn none_is_wrong(app: &App)
    ensures { Accepted app.now → NoneIsWrong app.now }
{
    one_meaning(app);
    runs_are_right(app);
    quiet_runs_release(app);
}

/// What is counted of a campaign that is made in two parts is what is counted of each, added: so trials may be shared
/// out in any parts.
#[tactic(auto, using(crate::proofs::Parts::parts_are_whole))]
pub fn parts_are_whole()
    ensures { PartsAreWhole }
{}

/// The files of campaigns over parts of the trials have a sum that is what one campaign over all of them writes.
pub fn parts_sum_up()
    ensures { PartsSumUp }
{}
