// Laws: the ways of each kind are those of its transition table.

ghost use Rattle.std.specs.Prelude.{ℕ};
ghost use Rattle.ps_model.specs.declared.kind.Kind.{Kind};
ghost use Rattle.ps_ways.specs.Tables.{AreThose, LeadAsTable};

/// In every state of every kind, and under any conditions, the ways take the guard that the kind's transition table
/// takes.
pub fn ways_are_those_of_the_tables()
    ensures { (kind : Kind) (state : ℕ) → AreThose kind state }
{}

/// Every way leads to the state to which the rule of its number leads in the kind's transition table.
pub fn ways_lead_as_the_tables()
    ensures { (kind : Kind) → LeadAsTable kind }
{}
