// Laws of names: what a refusal names, and which application a source stands for.

ghost use Rattle.std.specs.Prelude.{◌≡◌, [], List, Option, None};
ghost use Rattle.ps_base.specs.declared.failing.Refusal.{Refusal};
ghost use Rattle.ps_model.specs.Network.{Network};
ghost use Rattle.ps_model.specs.Sound.{IsSound};
ghost use Rattle.ps_parser.specs.Tree.{SourceTree};
ghost use Rattle.ps_parser.specs.Whole.{IsSource};
ghost use Rattle.ps_names.specs.Offences.{refused, IsFirst};
ghost use Rattle.ps_names.specs.Rules.{offences};
ghost use Rattle.ps_names.specs.Stands.{Stands, network};

/// A refusal names one of the offences, and none of them comes before it: it has the lowest rule, and the earliest
/// place among those of this rule. Where there is no offence it names none.
pub fn names_the_first()
    ensures { (os : List Refusal) → IsFirst os (refused os) }
{}

/// An application stands for a source exactly where no rule is broken, and then one application alone.
pub fn stands_where_unbroken()
    ensures exists { (p : SourceTree) → offences p ≡ [] → Stands p (network p) }
    ensures only { (p : SourceTree) → (a b : Network) → Stands p a → Stands p b → a ≡ b }
    ensures unbroken { (p : SourceTree) → (a : Network) → Stands p a → offences p ≡ [] }
    ensures unrefused { (p : SourceTree) → refused (offences p) ≡ None → offences p ≡ [] }
{}

/// What a source that breaks no rule stands for has every property that an application keeps.
pub fn unbroken_is_sound()
    ensures { (p : SourceTree) → IsSource p → offences p ≡ [] → IsSound (network p) }
{}
