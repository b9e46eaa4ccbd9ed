// The parts of a line, of which each is right or breaks a rule.

ghost use Rattle.std.specs.Prelude.{◌≡◌, IfOk};
ghost use Rattle.ps_bench_cases.specs.Parts.{both, and_then};

use crate::case::Check;
use crate::lists::Checks;
use crate::rule::CaseRule;
use ps_base::Memory;
use ps_bench_names::{Setting, Settings};

// Two parts of a line together.
pub(crate) fn both<A: Drop, B: Drop>(
    first: Result<A, CaseRule>,
    second: Result<B, CaseRule>,
) -> Result<(A, B), CaseRule>
    ensures { result ≡ both first second }
{
    match (first, second) {
        (Ok(a), Ok(b)) => Ok((a, b)),
        (Ok(_), Err(rule)) | (Err(rule), Ok(_)) => Err(rule),
        (Err(rule), Err(other)) => Err(rule.least(other)),
    }
}

// Settings, and one more after them.
pub(crate) fn and_setting(
    found: Result<Settings, CaseRule>,
    setting: Result<Setting, CaseRule>,
) -> Result<Result<Settings, CaseRule>, Memory>
    ensures { IfOk result (λ settings. settings ≡ and_then found setting) }
{
    match (found, setting) {
        (Ok(mut settings), Ok(setting)) => {
            settings.push(setting)?;
            Ok(Ok(settings))
        }
        (Ok(_), Err(rule)) | (Err(rule), Ok(_)) => Ok(Err(rule)),
        (Err(rule), Err(other)) => Ok(Err(rule.least(other))),
    }
}

// Checks, and one more after them.
pub(crate) fn and_check(
    found: Result<Checks, CaseRule>,
    check: Result<Check, CaseRule>,
) -> Result<Result<Checks, CaseRule>, Memory>
    ensures { IfOk result (λ checks. checks ≡ and_then found check) }
{
    match (found, check) {
        (Ok(mut checks), Ok(check)) => {
            checks.push(check)?;
            Ok(Ok(checks))
        }
        (Ok(_), Err(rule)) | (Err(rule), Ok(_)) => Ok(Err(rule)),
        (Err(rule), Err(other)) => Ok(Err(rule.least(other))),
    }
}
