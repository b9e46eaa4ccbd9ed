// Why a file is not added.

ghost use Rattle.std.specs.Prelude.{◌≡◌};
ghost use Rattle.ps_bench_trials.specs.Sums.{head_line, rank};

/// The rule by which a file is not added.
#[derive(Clone, Copy)]
pub enum SumRule {
    /// It is not what a campaign writes, nor a sum.
    U1,
    /// It is of another application than the first file.
    U2,
    /// It is of another trace than the first file.
    U3,
}

impl SumRule {
    /// The number of the rule, from 1 to 3.
    pub fn number(self) -> u8
        ensures { result ≡ rank self }
    {
        match self {
            SumRule::U1 => 1,
            SumRule::U2 => 2,
            SumRule::U3 => 3,
        }
    }
}

/// A file is not added: it is refused.
#[derive(Clone, Copy)]
pub struct SumRefusal {
    /// The place of the file among the names, counted from 0.
    pub place: usize,
    /// The rule that it breaks.
    pub rule: SumRule,
    /// The line, counted from 1: of U1 the first one that is not as it would be written, and of the other rules that
    /// of the head.
    pub line: u32,
}

impl SumRefusal {
    /// The refusal of a file at this place whose head is another one.
    pub(crate) fn of_head(place: usize, rule: SumRule) -> SumRefusal
        ensures { (result.rule ≡ rule) × (result.line ≡ head_line rule) }
    {
        let line = match rule {
            SumRule::U1 | SumRule::U2 => 1,
            SumRule::U3 => 2,
        };
        SumRefusal { place, rule, line }
    }
}
