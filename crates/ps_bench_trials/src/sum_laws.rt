// Laws of sums. Each function computes nothing: its contract is the law.

ghost use Rattle.ps_bench_trials.specs.SumLaws.{IsOfAnyOrder};

/// A sum of files is their sum with two of them that stand beside each other in each other's place, and so in any
/// order.
#[tactic(auto, using(crate::proofs::Orders::any_order))]
pub fn any_order()
    ensures { IsOfAnyOrder }
{}
