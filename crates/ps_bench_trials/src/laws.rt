// Laws of counts. Each function computes nothing: its contract is the law.

ghost use Rattle.ps_bench_trials.specs.Laws.{CountsArePlain, IsOfAnyOrder, PartsAdd};

/// What is counted of trials that are made in two parts is what is counted of each part, added.
#[tactic(auto, using(crate::proofs::TallyAdding::parts_add))]
pub fn parts_add()
    ensures { PartsAdd }
{}

/// Tallies are added in any order.
#[tactic(auto, using(crate::proofs::TallyAdding::any_order))]
pub fn any_order()
    ensures { IsOfAnyOrder }
{}

/// What is counted of trials is what is taken of a file: no line of it is refused for its numbers, nor is one of a sum.
#[tactic(auto, using(crate::proofs::Plain::all_plain))]
pub fn counts_are_plain()
    ensures { CountsArePlain }
{}
