// The demand of a safe output.

ghost use Rattle.std.specs.Prelude.{◌≡◌, ◌<◌, true};
ghost use Rattle.ps_model.specs.Network.{signal_count};
ghost use Rattle.ps_model.specs.Typing.{Accepted, is_safe_signal};
ghost use Rattle.ps_demand.specs.Answering.{IsAnswer};

use crate::counting::count_leaves;
use crate::demand::{Demand, DemandFail, MOST_LEAVES};
use crate::slimming::slim_demand;
use ps_model::App;
use std::alloc::Global;

/// What a SAFEBOOL output of an accepted application demands of the inputs of the same scan and of the signals of the
/// scan before, made slim: the output is TRUE only where it holds (profile). It answers so for any SAFEBOOL signal.
///
/// `Large` comes exactly where the demand has over 1,000 leaves before it is made slim, TRUE and FALSE among them. That
/// is decided by counting, in time linear in the nodes of the application, before anything is built. `Memory` comes
/// only if memory runs out.
pub fn demand_of(alloc: Global, app: &App, out: u16) -> Result<Demand, DemandFail>
    requires accepted { Accepted app.now }
    requires signal { out < signal_count app.now }
    requires safe { is_safe_signal app.now out ≡ true }
    ensures { IsAnswer app.now out result }
{
    if count_leaves(alloc, app, out)? > MOST_LEAVES {
        return Err(DemandFail::Large);
    }
    Ok(slim_demand(alloc, app, out)?)
}
