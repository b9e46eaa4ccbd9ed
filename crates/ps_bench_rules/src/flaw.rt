// Why a rules file has no answer.

ghost use Rattle.std.specs.Prelude.{◌≡◌};
ghost use Rattle.ps_bench_rules.specs.Parts.{rank, least};

use ps_base::Memory;
use ps_outside::Failed;

/// What a line of a rules file is refused for.
#[derive(Clone, Copy, PartialEq)]
pub enum Flaw {
    /// The form of a line: another word, one missing or too many, no `=`, a setting after a rule, a rule without
    /// conditions; at the line after the last one: there is no rule.
    R1,
    /// A name that there is not, or of another sort.
    R2,
    /// A value, or a code that the kind has not.
    R3,
    /// An input that stands twice after `fixed`, `follows` and `first`.
    R4,
    /// A limit.
    R5,
}

impl Flaw {
    /// The number of the rule that the line breaks, from 1 to 5.
    pub fn number(self) -> u8
        ensures { result ≡ rank self }
    {
        match self {
            Flaw::R1 => 1,
            Flaw::R2 => 2,
            Flaw::R3 => 3,
            Flaw::R4 => 4,
            Flaw::R5 => 5,
        }
    }

    // Of two flaws of a line the one with the lesser number.
    pub(crate) fn least(self, other: Flaw) -> Flaw
        ensures { result ≡ least self other }
    {
        if self.number() <= other.number() {
            self
        } else {
            other
        }
    }
}

/// A rules file is refused: for this, at this line, counted from 1.
#[derive(Clone, Copy)]
pub struct RulesRefusal {
    /// What the line is refused for.
    pub flaw: Flaw,
    /// The line.
    pub line: u32,
}

/// Why a rules file has no answer.
#[derive(Clone, Copy)]
pub enum RulesFail {
    /// Out of memory.
    Memory,
    /// A read failed.
    Fault,
    /// A line is refused.
    Refused(RulesRefusal),
}

impl From<Memory> for RulesFail {
    ghost use Rattle.ps_bench_rules.specs.declared.flaw.RulesFail.TheVariants.{Memory as NoMemory};

    ghost from_gives = { λ _ fail. fail ≡ NoMemory };

    fn from(_memory: Memory) -> RulesFail {
        RulesFail::Memory
    }
}

impl From<Failed> for RulesFail {
    ghost use Rattle.ps_bench_rules.specs.declared.flaw.RulesFail.TheVariants.{Fault as IsFault};

    ghost from_gives = { λ _ fail. fail ≡ IsFault };

    fn from(_failed: Failed) -> RulesFail {
        RulesFail::Fault
    }
}
