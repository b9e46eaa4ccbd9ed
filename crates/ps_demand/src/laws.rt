// Laws of demands.

ghost use Rattle.ps_model.specs.Typing.{Accepted};
ghost use Rattle.ps_demand.specs.Leaves.{LeavesAreSafe};
ghost use Rattle.ps_demand.specs.Laws.{ValuesMeetDemands, ScansMeetDemands, RunsMeetDemands, SlimHoldsTheSame};

use ps_model::App;
use ps_model::block_laws::each_demands;

/// A formula made slim holds exactly where it did.
pub fn slim_holds_the_same()
    ensures { SlimHoldsTheSame }
{}

/// In an accepted application a safe value, as any step reads it, is TRUE only where its demand holds of the scan's
/// inputs and the signals of the scan before.
pub fn values_meet_demands(app: &App)
    ensures { Accepted app.now → ValuesMeetDemands app.now }
{
    app.sound();
    each_demands();
}

/// In an accepted application a safe signal, such as a safe output, is TRUE after a scan only where its demand holds of
/// the scan's inputs and the signals of the scan before.
pub fn scans_meet_demands(app: &App)
    ensures { Accepted app.now → ScansMeetDemands app.now }
{
    app.sound();
    each_demands();
}

/// So it is in each scan of a run, from its start or from any scan on.
pub fn runs_meet_demands(app: &App)
    ensures { Accepted app.now → RunsMeetDemands app.now }
{
    app.sound();
    each_demands();
}

/// In an accepted application every leaf of the demand of a safe value or a safe signal is SAFEBOOL, of the slim demand
/// too. So nothing that an output demands is a BOOL signal.
pub fn leaves_are_safe(app: &App)
    ensures { Accepted app.now → LeavesAreSafe app.now }
{}
