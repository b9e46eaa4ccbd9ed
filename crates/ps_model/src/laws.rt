// Laws of applications.

ghost use Rattle.std.specs.Prelude.{◌≡◌, List, Bool, ℕ};
ghost use Rattle.ps_model.specs.Scanning.{State, HasOneSolution};
ghost use Rattle.ps_model.specs.Meaning.{Item, HasOneMeaning};
ghost use Rattle.ps_model.specs.Skeleton.{ValuesKeepSkeletons};
ghost use Rattle.ps_model.specs.SkeletonLaws.{LeavesAreSafe, LeavesFollowDrivers};
ghost use Rattle.ps_model.specs.PastAfter.{RunsAreOfParts};
ghost use Rattle.ps_model.specs.Typing.{Accepted};

use crate::app::App;

/// Exactly one state solves each scan.
pub fn one_solution(app: &App)
    ensures { (old : State) (ins : List Bool) (dt : ℕ) → HasOneSolution app.now old ins dt }
{
    app.sound();
}

/// Exactly one list of states is the meaning of each list of scans and restarts.
pub fn one_meaning(app: &App)
    ensures { (items : List Item) → HasOneMeaning app.now items }
{
    app.sound();
}

/// In an accepted application a safe value is TRUE only where its skeleton is.
pub fn safe_values(app: &App)
    ensures { Accepted app.now → ValuesKeepSkeletons app.now }
{
    app.sound();
}

/// In an accepted application no leaf of the skeleton of a safe value is BOOL.
pub fn safe_leaves(app: &App)
    ensures { Accepted app.now → LeavesAreSafe app.now }
{
    app.sound();
}

/// A leaf whose driver stands before is its driver's: the skeleton of the assigned value, or the output of this scan.
pub fn driven_leaves(app: &App)
    ensures { LeavesFollowDrivers app.now }
{
    app.sound();
}

/// The states of a list of items in two parts are those of the first part, and then those of the second from there on.
pub fn runs_of_parts(app: &App)
    ensures { RunsAreOfParts app.now }
{
    app.sound();
}
