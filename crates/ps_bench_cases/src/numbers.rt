// The numbers that words of a line are.

ghost use Rattle.std.specs.Prelude.{◌≡◌};
ghost use Rattle.ps_bench_cases.specs.Words.{number_said, above_zero};

use crate::rule::CaseRule;
use ps_bench_names::is_digits;
use ps_trace::number;

// The number that a word is.
pub(crate) fn number_said(word: &[u8]) -> Result<u32, CaseRule>
    ensures { result ≡ number_said word.now }
{
    if is_digits(word) {
        number(word).ok_or(CaseRule::K4)
    } else {
        Err(CaseRule::K1)
    }
}

// The number that a word is, from 1 on.
pub(crate) fn count_said(word: &[u8]) -> Result<u32, CaseRule>
    ensures { result ≡ above_zero (number_said word.now) }
{
    match number_said(word) {
        Ok(0) => Err(CaseRule::K1),
        other => other,
    }
}
