// The parts of a line, of which each is right or has a flaw.

ghost use Rattle.std.specs.Prelude.{◌≡◌, IfOk};
ghost use Rattle.ps_bench_rules.specs.Parts.{and_then, so_far};

use crate::flaw::Flaw;
use crate::lists::Conditions;
use crate::rules::Condition;
use ps_base::Memory;
use ps_bench_names::{Setting, Settings};

// The flaw of settings after one more, which is put after them where there is none.
pub(crate) fn and_setting(
    settings: &mut Settings,
    flaw: Option<Flaw>,
    setting: Result<Setting, Flaw>,
) -> Result<Option<Flaw>, Memory>
    ensures { IfOk result (λ now. so_far now settings.new ≡ and_then (so_far flaw settings.old) setting) }
{
    match (flaw, setting) {
        (None, Ok(setting)) => {
            settings.push(setting)?;
            Ok(None)
        }
        (None, Err(flaw)) | (Some(flaw), Ok(_)) => Ok(Some(flaw)),
        (Some(flaw), Err(other)) => Ok(Some(flaw.least(other))),
    }
}

// The flaw of conditions after one more, which is put after them where there is none.
pub(crate) fn and_condition(
    conditions: &mut Conditions,
    flaw: Option<Flaw>,
    condition: Result<Condition, Flaw>,
) -> Result<Option<Flaw>, Memory>
    ensures { IfOk result (λ now. so_far now conditions.new ≡ and_then (so_far flaw conditions.old) condition) }
{
    match (flaw, condition) {
        (None, Ok(condition)) => {
            conditions.push(condition)?;
            Ok(None)
        }
        (None, Err(flaw)) | (Some(flaw), Ok(_)) => Ok(Some(flaw)),
        (Some(flaw), Err(other)) => Ok(Some(flaw.least(other))),
    }
}
