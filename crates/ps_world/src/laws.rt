// Laws of the world, over lists of events in any order of turns, with restarts and Spoils of any bytes at any place.

ghost use Rattle.ps_model.specs.Typing.{Accepted};
ghost use Rattle.ps_world.specs.Worlds.{Machines};
ghost use Rattle.ps_world.specs.Whole.{Setup, machines_in, IsSetupOf};
ghost use Rattle.ps_world.specs.Answers.{RunsAreRight, QuietRunsRelease};
ghost use Rattle.ps_world.specs.Ready.{QuietWorldsRelease};
ghost use Rattle.ps_world.specs.Laws.{ChannelsAreApart, ReleasedIsRight, NeverTrips, TripsExactly, StaysDown};
ghost use Rattle.ps_world.specs.Laws.{TurnsAreBounded};

use ps_eqgen::laws::equation_code_keeps_the_meaning;
use ps_model::App;
use ps_stackgen::laws::stack_code_keeps_the_meaning;

/// Channels are apart: after any events the code, cells and turn count of a channel follow from the Begins, the
/// Restarts, its own Turns and its own Spoils alone, in their order.
#[tactic(auto, using(crate::proofs::Apart::channels_are_apart))]
pub fn channels_are_apart()
    ensures { ChannelsAreApart }
{}

/// Released is right: after every lawful list of events that spoils one channel at the most, a Compare that releases
/// gives the report of the meaning of the scan that it closes.
pub fn released_is_right(app: &App)
    ensures { Accepted app.now → (setup : Setup) → IsSetupOf app.now setup → ReleasedIsRight app.now (machines_in setup) }
{
    stack_code_keeps_the_meaning(app);
    equation_code_keeps_the_meaning(app);
}

/// Without a Spoil no Compare is Tripped: each releases the report of the meaning.
pub fn never_trips(app: &App)
    ensures { Accepted app.now → (setup : Setup) → IsSetupOf app.now setup → NeverTrips app.now (machines_in setup) }
{
    stack_code_keeps_the_meaning(app);
    equation_code_keeps_the_meaning(app);
}

/// Trips exactly: in a world that is not tripped a Compare is Tripped exactly where a channel has no report (it
/// trapped, it spent its budget while Running, or its cells hold no Boolean report), or the two reports differ.
pub fn trips_exactly()
    ensures { (setup : Setup) → TripsExactly (machines_in setup) }
{}

/// Stays down: once a world is tripped every Compare up to the next Restart is Down, and every output that it gives is
/// FALSE.
pub fn stays_down()
    ensures { (m : Machines) → StaysDown m }
{}

/// Bounded turns: between a Begin and its Compare there are at most the two budgets of turns, whatever was spoiled.
#[tactic(auto, using(crate::proofs::Bounded::turns_are_bounded))]
pub fn turns_are_bounded()
    ensures { (m : Machines) → TurnsAreBounded m }
{}

/// A run is right: in the order of events of a run, over timely scans and restarts and faults that name one channel at
/// the most, each report that is released is that of the meaning.
pub fn runs_are_right(app: &App)
    ensures { Accepted app.now → (setup : Setup) → IsSetupOf app.now setup → RunsAreRight app.now (machines_in setup) }
{
    stack_code_keeps_the_meaning(app);
    equation_code_keeps_the_meaning(app);
}

/// A run without faults releases every scan, with the report of the meaning.
pub fn quiet_runs_release(app: &App)
    ensures { Accepted app.now → (setup : Setup) → IsSetupOf app.now setup → QuietRunsRelease app.now (machines_in setup) }
{
    stack_code_keeps_the_meaning(app);
    equation_code_keeps_the_meaning(app);
}

/// Worlds are ready at the beginning and after a restart; and from a world that is ready a scan with no fault is
/// released, with the report of the state that solves its equations, and leaves a world that is ready for the next.
pub fn quiet_worlds_release(app: &App)
    ensures { Accepted app.now → QuietWorldsRelease app.now }
{
    stack_code_keeps_the_meaning(app);
    equation_code_keeps_the_meaning(app);
}
