// Laws of the checker.

ghost use Rattle.ps_model.specs.Network.{Network};
ghost use Rattle.ps_model.specs.Typing.{Accepted};
ghost use Rattle.ps_flow.specs.Derivation.{certificate};
ghost use Rattle.ps_checker.specs.Derives.{Derives};

/// The certificate of an accepted application derives it: what `derive` gives passes.
pub fn derived_passes()
    ensures { (net : Network) → Accepted net → Derives net (certificate net) }
{}
