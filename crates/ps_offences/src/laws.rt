// Laws of the rules B.

ghost use Rattle.std.specs.Prelude.{◌≡◌, [], true, None, ◌↔◌, IsTrue};
ghost use Rattle.ps_names.specs.Offences.{refused, IsFirst};
ghost use Rattle.ps_derived.specs.declared.library.Library.{Library};
ghost use Rattle.ps_derived.specs.Limits.{IsWithinLimits};
ghost use Rattle.ps_derived.specs.Giving.{EachCallGives};
ghost use Rattle.ps_offences.specs.BlockRules.{block_offences, is_text_within};

/// A refusal names one of the offences against the rules B, and none of them comes before it. Where there is no offence
/// it names none.
pub fn names_the_first()
    ensures first { (l : Library) → IsFirst (block_offences l) (refused (block_offences l)) }
    ensures none { (l : Library) → refused (block_offences l) ≡ None → block_offences l ≡ [] }
{}

/// Rule B4 refuses a text exactly where it is not within the limits.
pub fn limits_are_kept()
    ensures { (l : Library) → IsTrue (is_text_within l) ↔ IsWithinLimits l }
{}

/// Where no rule B is broken, each call of a derived instance has an argument for each of its inputs.
pub fn each_call_gives()
    ensures { (l : Library) → block_offences l ≡ [] → EachCallGives l }
{}
