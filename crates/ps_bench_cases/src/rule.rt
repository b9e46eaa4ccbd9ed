// Why a case file has no answer.

ghost use Rattle.std.specs.Prelude.{◌≡◌};
ghost use Rattle.ps_bench_cases.specs.Parts.{rank, least};

use ps_base::Memory;
use ps_outside::Failed;

/// The rules by which a case file is refused.
#[derive(Clone, Copy, PartialEq)]
pub enum CaseRule {
    /// The form of a line; at the line after the last one: there is no case.
    K1,
    /// A name that there is not, or of another sort.
    K2,
    /// A value, or a code that the kind has not.
    K3,
    /// A time before the scan before; a number or a time past 4,294,967,295 ms, in the case or in the expanded trace.
    K4,
    /// An expectation with no scan of its case before it.
    K5,
    /// A fault outside its region, of another channel, of an earlier turn, or with no scan of its case after it.
    K6,
    /// A limit.
    K7,
}

impl CaseRule {
    /// The number of the rule, from 1 to 7.
    pub fn number(self) -> u8
        ensures { result ≡ rank self }
    {
        match self {
            CaseRule::K1 => 1,
            CaseRule::K2 => 2,
            CaseRule::K3 => 3,
            CaseRule::K4 => 4,
            CaseRule::K5 => 5,
            CaseRule::K6 => 6,
            CaseRule::K7 => 7,
        }
    }

    // Of two rules that a line breaks the one with the lesser number.
    pub(crate) fn least(self, other: CaseRule) -> CaseRule
        ensures { result ≡ least self other }
    {
        if self.number() <= other.number() {
            self
        } else {
            other
        }
    }
}

/// A case file is refused: by this rule, at this line, counted from 1.
#[derive(Clone, Copy)]
pub struct CaseRefusal {
    /// The rule.
    pub rule: CaseRule,
    /// The line.
    pub line: u32,
}

/// Why a case file has no answer.
#[derive(Clone, Copy)]
pub enum CasesFail {
    /// Out of memory.
    Memory,
    /// A read failed.
    Fault,
    /// A rule refuses the file.
    Refused(CaseRefusal),
}

impl From<Memory> for CasesFail {
    ghost use Rattle.ps_bench_cases.specs.declared.rule.CasesFail.TheVariants.{Memory as NoMemory};

    ghost from_gives = { λ _ fail. fail ≡ NoMemory };

    fn from(_memory: Memory) -> CasesFail {
        CasesFail::Memory
    }
}

impl From<Failed> for CasesFail {
    ghost use Rattle.ps_bench_cases.specs.declared.rule.CasesFail.TheVariants.{Fault as IsFault};

    ghost from_gives = { λ _ fail. fail ≡ IsFault };

    fn from(_failed: Failed) -> CasesFail {
        CasesFail::Fault
    }
}
